//! A hand at its row, as the steps of an actor want it.

ghost use Rattle.std.specs.Prelude.{◌≡◌};

use crate::row::{TableHand, TableRow};
use lock_row::{Hand, LockNo, NextLocal, RowValue};

/// The row and an actor's hand of it, which are borrowed. It may find what the row's rule leaves
/// possible beside what
/// the hand has seen, and allows the events that the rule names next.
#[derive(Drop)]
pub struct AtRow<'a, V: RowValue<R>, R> {
    row: &'a TableRow<V, R>,
    hand: &'a mut TableHand<V, R>,
}

impl<V: RowValue<R>, R> TableRow<V, R> {
    /// The hand at this row.
    pub fn at<'a>(&'a self, hand: &'a mut TableHand<V, R>) -> AtRow<'a, V, R>
        requires own { hand.old.id ≡ self.now.id }
        ensures same { result.hand.ghost_name ≡ hand.entry.ghost_name }
        ensures hand { result.hand.now ≡ hand.old }
        ensures row { result.row.now ≡ self.now }
    {
        AtRow { row: self, hand }
    }
}

impl<'a, V: RowValue<R>, R> Hand for AtRow<'a, V, R> {
    ghost use Rattle.std.specs.Prelude.{◌≡◌, Some};
    ghost use Rattle.lock_table.specs.Hands.{HasLock, MayFind, MayTake, Takes, Misses, MayGive, moved};
    ghost use Rattle.lock_table.specs.HandLaws.{has_out, took_has, missed_has, missed_local, gives_has, moved_local};

    type Value = V;

    ghost holds = { λ h lock. HasLock h.hand.now lock };

    ghost local = { λ h. Some h.hand.now.local };

    ghost may_find = { λ h lock x. MayFind V.rule h.hand.now lock x };

    ghost can_take = { λ h lock f. MayTake V.rule h.row.now h.hand.now lock f };

    ghost takes = { λ h lock f v g. (g.hand.ghost_name ≡ h.hand.ghost_name) × (g.row.now ≡ h.row.now) × Takes V.rule h.hand.now lock f v g.hand.now };

    ghost misses = { λ h lock g. (g.hand.ghost_name ≡ h.hand.ghost_name) × (g.row.now ≡ h.row.now) × Misses V.rule h.hand.now lock g.hand.now };

    ghost can_give = { λ h lock f v. MayGive V.rule h.row.now h.hand.now lock f v };

    ghost gives = { λ h lock f v g. (g.hand.ghost_name ≡ h.hand.ghost_name) × (g.row.now ≡ h.row.now) × (g.hand.now ≡ moved V.rule h.hand.now lock f v) };

    fn try_take<N: NextLocal<V>>(&mut self, lock: LockNo) -> Option<V> {
        self.hand.take::<N>(self.row, lock)
    }

    fn give<N: NextLocal<V>>(&mut self, lock: LockNo, value: V) {
        self.hand.give::<N>(self.row, lock, value)
    }

    ghost held_is_out = { λ h k x has found. has_out V.rule h.hand.now h.hand.now k x has found };

    ghost take_finds = { λ h k f v g t. t.2.found };

    ghost take_holds = { λ h k f v g t. took_has V.rule h.hand.now g.hand.now k f v t.2 };

    ghost miss_finds = { λ h k g m. m.2.held.found };

    ghost miss_keeps = { λ h k g m lock has. missed_has V.rule h.hand.now g.hand.now k lock m.2 has };

    ghost miss_stays = { λ h k g m. missed_local V.rule h.hand.now g.hand.now k m.2 };

    ghost give_holds = { λ h k f v c. gives_has V.rule h.hand.now h.hand.now k f v h.row.now c };

    ghost take_moves = { λ h k f v g l t e. moved_local V.rule h.hand.now g.hand.now k f v l t.2.moves e };

    ghost give_moves = { λ h k f v g l t e. moved_local V.rule h.hand.now g.hand.now k f v l t.2 e };
}
