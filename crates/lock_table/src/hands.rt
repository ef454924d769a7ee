//! The hands of a row that are not in use.

ghost use Rattle.std.specs.Prelude.{◌≡◌, ◌<◌, [], ◌∷◌, ◌++◌, length, MatchOption};

use crate::row::TableHand;
use lock_row::{LockNo, RowValue};
use std::marker::Model;

/// Hands of a row; `make` gives one for each actor, in their order.
#[derive(Drop)]
pub struct TableHands<V: RowValue<R>, R> {
    pub(crate) hands: Vec<TableHand<V, R>>,
    pub(crate) most: usize,
    // where the row's values come back when it is shut, which takes no memory
    pub(crate) back: Vec<(LockNo, V)>,
    pub(crate) locks: usize,
}

impl<V: RowValue<R>, R> Model for TableHands<V, R> {
    ghost use Rattle.lock_table.specs.Starts.{Hands};

    ghost Value = { Hands V };

    ghost use Rattle.std.specs.Prelude.{vec_capacity};
    ghost use Rattle.lock_table.specs.Starts.{HasRoom};

    ghost view = { λ h. record { list = h.hands.items; most = h.most; locks = h.locks } };

    ghost invariant = { λ h. HasRoom h.most (vec_capacity h.hands) h.locks h.back.items (vec_capacity h.back) };
}

impl<V: RowValue<R>, R> TableHands<V, R> {
    /// Takes the last hand out.
    pub fn pop(&mut self) -> Option<TableHand<V, R>>
        ensures hand { MatchOption result ((self.old.list ≡ []) × (self.new.list ≡ []))
            (λ h. self.old.list ≡ self.new.list ++ h ∷ []) }
        ensures most { self.new.most ≡ self.old.most }
        ensures locks { self.new.locks ≡ self.old.locks }
    {
        self.hands.pop()
    }

    /// Puts a hand last. It takes no memory.
    pub fn push(&mut self, hand: TableHand<V, R>)
        requires { length self.old.list < self.old.most }
        ensures hand { self.new.list ≡ self.old.list ++ hand ∷ [] }
        ensures most { self.new.most ≡ self.old.most }
        ensures locks { self.new.locks ≡ self.old.locks }
    {
        self.hands.push_reserved(hand);
    }
}
