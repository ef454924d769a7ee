//! What the seats of a table know, and the rule of the table. No value of the views is made.

use atomic_table::TableRule;
use lock_row::{Local, RowValue, State};
use std::collections::LinkedList;
use std::marker::PhantomData;
use std::snapshot::Snapshot;
use zr_base::Tag;

/// An actor for which a seat stands.
pub struct Seated<V> {
    pub actor: u32,
    pub local: Local<V>,
    /// The orders that it has seen, each with its place, the last first.
    pub seen: LinkedList<(u64, LinkedList<Tag>)>,
}

/// What a seat knows.
pub enum View<V> {
    /// It stands for nobody.
    Blank,
    /// No actor has been seated.
    Closed,
    /// The phase's start, and the actors for which it stands.
    Open(State<V>, LinkedList<Seated<V>>),
}

/// The rule of a table of locks, for values whose rule `R` names.
pub struct LocksRule<R> {
    of: PhantomData<R>,
}

impl<V: RowValue<R>, R> TableRule<Option<V>, View<V>, Snapshot<Vec<Option<V>>>> for LocksRule<R> {
    ghost use Rattle.lock_table.specs.Tables.{IsTable};
    ghost use Rattle.lock_table.specs.declared.view.View.TheVariants.{Closed};

    ghost holds = { λ key s. IsTable V.rule key.value.items s };

    ghost first = { λ key. Closed };
}
