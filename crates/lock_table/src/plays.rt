//! What the steps on a lock's word tell. `N` names the actor's local after the event.

use crate::view::View;
use atomic_table::Play;
use lock_row::{NextLocal, RowValue};
use std::marker::PhantomData;

/// A try to take.
pub(crate) struct Tries<R, N> {
    of: PhantomData<(R, N)>,
}

impl<V: RowValue<R>, R, N: NextLocal<V>> Play<Option<V>, View<V>> for Tries<R, N> {
    ghost use Rattle.lock_table.specs.Plays.{tried};

    ghost then = { tried V.rule N.next };
}

/// A giving.
pub(crate) struct Gives<R, N> {
    of: PhantomData<(R, N)>,
}

impl<V: RowValue<R>, R, N: NextLocal<V>> Play<Option<V>, View<V>> for Gives<R, N> {
    ghost use Rattle.lock_table.specs.Plays.{gave};

    ghost then = { gave V.rule N.next };
}
