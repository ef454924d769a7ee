//! The shutting of a row.

ghost use Rattle.std.specs.Prelude.{◌≡◌, ◌<◌, ◌≤◌, ℕ, [], ◌∷◌, map, length, Some, slice_get, vec_capacity};
ghost use Rattle.std.specs.Slots.{slots_items, slots_len, IsFull};
ghost use Rattle.lock_row.specs.declared.names.LockNo.{LockNo};
ghost use Rattle.lock_row.specs.declared.names.State.{State};
ghost use Rattle.lock_table.specs.declared.view.View.TheVariants.{Open};
ghost use Rattle.lock_table.specs.Sittings.{seated};
ghost use Rattle.lock_table.specs.Starts.{all_home};
ghost use Rattle.lock_table.specs.Shut.{AllHands, Left};

use crate::hands::TableHands;
use crate::row::{TableHand, TableRow};
use crate::view::View;
use atomic_table::{Closed, Join, Seat};
use lock_row::{LockNo, RowValue};
use std::alloc::Global;

/// A seat takes in another's actor.
pub(crate) struct Gathers;

impl<V> Join<View<V>> for Gathers {
    ghost use Rattle.lock_table.specs.declared.view.View.TheVariants.{Blank};
    ghost use Rattle.lock_table.specs.Shut.{joined};

    ghost both = { joined };

    ghost spent = { Blank };
}

impl<V: RowValue<R>, R> TableRow<V, R> {
    // The seat takes in a hand's actor.
    fn gather(&self, seat: &mut Seat<Option<V>, View<V>>, hand: TableHand<V, R>)
        requires own { (seat.old.table_id ≡ self.now.id) × (hand.id ≡ self.now.id) }
        requires free { hand.local.held ≡ [] }
        requires seat { (start : _) × (xs : _) × (seat.old.me ≡ (Open start xs, [])) }
        ensures own { seat.new.table_id ≡ seat.old.table_id }
        ensures both { (start : _) (xs : _) → seat.old.me ≡ (Open start xs, [])
            → seat.new.me ≡ (Open start (seated hand ∷ xs), []) }
    {
        let TableHand {
            actor: _,
            seat: other,
            of: _,
        } = hand;
        self.table.shared.join_seat::<Gathers>(seat, other);
    }
}

// Every value of a closed table, with its lock's name.
fn take_all<V>(
    mut closed: Closed<Option<V>, Global>,
    names: &[LockNo],
    mut values: Vec<(LockNo, V)>,
) -> Vec<(LockNo, V)>
    requires full { IsFull closed.slots }
    requires count { slots_len closed.slots ≡ length names.now }
    requires there { (k : ℕ) (x : _) → slice_get (slots_items closed.slots) k ≡ Some x → (v : _) × (x ≡ Some v) }
    requires empty { values.items ≡ [] }
    requires room { length names.now ≤ vec_capacity values }
    ensures names { map (λ (x : LockNo × _). x.0) result.items ≡ names.now }
    ensures values { all_home result.items ≡ slots_items closed.slots }
{
    for at in 0..names.len() {
        let Some(value) = closed.take(at) else {
            unreachable!()
        };
        values.push_reserved((names[at], value));
    }
    closed.free();
    values
}

/// The values of a row's locks, once all its hands are back. It takes no memory.
pub fn shut<V: RowValue<R>, R>(row: TableRow<V, R>, hands: TableHands<V, R>) -> Vec<(LockNo, V)>
    requires hands { (start : State V) × AllHands row start hands.list }
    requires locks { hands.locks ≡ length row.names }
    ensures names { map (λ (x : LockNo × V). x.0) result.items ≡ row.names }
    ensures left { (start : State V) → AllHands row start hands.list
        → Left V.rule start hands.list result.items }
{
    let TableHands {
        hands: mut list,
        most: _,
        back,
        locks: _,
    } = hands;
    let Some(hand) = list.pop() else {
        unreachable!()
    };
    let TableHand {
        actor: _,
        mut seat,
        of: _,
    } = hand;
    while let Some(hand) = list.pop() {
        row.gather(&mut seat, hand);
    }
    let TableRow {
        table,
        names,
        first: _,
    } = row;
    let closed = table.close_with(seat);
    take_all(closed, &names, back)
}
