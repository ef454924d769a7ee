//! The row, and a hand of it, which one thread has at a time.

ghost use Rattle.std.specs.Prelude.{◌≡◌, ◌≢◌, ◌<◌, ℕ, length, MatchOption, IfSome, IfNone, Some, None, slice_get};
ghost use Rattle.lock_table.specs.Laws.{Laws};
ghost use Rattle.lock_row.specs.declared.names.LockNo.{LockNo};
ghost use Rattle.lock_table.specs.Sittings.{Ground};
ghost use Rattle.lock_table.specs.Hands.{IsLock, HasLock, MayTake, Takes, Misses, MayGive, moved};

use crate::plays::{Gives, Tries};
use crate::view::{LocksRule, View};
use atomic_table::{Seat, Table};
use lock_row::{LockNo, NextLocal, RowValue, sums_move, totals_move, values_stay_apart};
use std::alloc::Global;
use std::marker::{Model, PhantomData};
use std::snapshot::Snapshot;
use zr_base::PageIx;

/// A row of locks with their values. Threads share it by reference.
pub struct TableRow<V: RowValue<R>, R> {
    pub(crate) table: Table<Option<V>, View<V>, Snapshot<Vec<Option<V>>>, LocksRule<R>, Global>,
    pub(crate) names: Vec<LockNo>,
    // the place of the first slot: in rising order from there on, a slot is found at once
    pub(crate) first: usize,
}

impl<V: RowValue<R>, R> Model for TableRow<V, R> {
    ghost use Rattle.lock_table.specs.Sittings.{Ground};

    ghost Value = { Ground };

    ghost use Rattle.lock_table.specs.Grounds.{IsGround};

    ghost view = { λ r. record { id = r.table.shared.table_id; names = r.names.items } };

    ghost invariant = { λ r. IsGround V.rule.spot r.table.shared.table_id r.names.items };
}

// The laws of the machine.
fn laws<V>()
    ensures { Laws V }
{
    values_stay_apart::<V>();
    totals_move::<V>();
    sums_move::<V>();
}

impl<V: RowValue<R>, R> TableRow<V, R> {
    // The place of a lock of the row. From the first slot on a slot is at its page's number, or is
    // searched.
    fn place(&self, lock: LockNo) -> usize
        requires { (i : ℕ) × IsLock self.now i lock }
        ensures there { IsLock self.now result lock }
        ensures spot { result ≡ V.rule.spot lock }
    {
        let Some(at) = find(&self.names, self.first, lock) else {
            unreachable!()
        };
        at
    }
}

pub(crate) fn find(names: &[LockNo], first: usize, lock: LockNo) -> Option<usize>
    ensures found { IfSome result (λ i. slice_get names.now i ≡ Some lock) }
    ensures none { IfNone result ((i : ℕ) → slice_get names.now i ≢ Some lock) }
{
    if let LockNo::Slot(PageIx(page)) = lock
        && let Some(at) = first.checked_add(page as usize)
        && names.get(at) == Some(&lock)
    {
        return Some(at);
    }
    names.iter().position(|name| *name == lock)
}

/// A hand of a row: it stands for one actor of the phase.
#[derive(Drop)]
pub struct TableHand<V: RowValue<R>, R> {
    pub(crate) actor: u32,
    pub(crate) seat: Seat<Option<V>, View<V>>,
    pub(crate) of: PhantomData<R>,
}

impl<V: RowValue<R>, R> Model for TableHand<V, R> {
    ghost use Rattle.lock_table.specs.Sittings.{Sitting};

    ghost Value = { Sitting V };

    ghost use Rattle.std.specs.Prelude.{◌≡◌};
    ghost use Rattle.lock_table.specs.Sittings.{actor_of, start_of, emptied};
    ghost use Rattle.lock_table.specs.Plays.{alone};

    ghost view = { λ h. record { id = h.seat.table_id; start = start_of h.seat.me.0; actor = h.actor; local = (actor_of h.seat.me.0).local; seen = (actor_of h.seat.me.0).seen } };

    ghost invariant = { λ h. h.seat.me ≡ (alone (start_of h.seat.me.0) h.actor (actor_of h.seat.me.0).local (actor_of h.seat.me.0).seen, emptied V.rule.spot (actor_of h.seat.me.0).local.held) };
}

impl<V: RowValue<R>, R> TableHand<V, R> {
    pub(crate) fn take<N: NextLocal<V>>(&mut self, row: &TableRow<V, R>, lock: LockNo) -> Option<V>
        requires { MayTake V.rule row.now self.old lock N.next }
        ensures { MatchOption result (Misses V.rule self.old lock self.new)
            (λ v. Takes V.rule self.old lock N.next v self.new) }
    {
        let at = row.place(lock);
        laws::<V>();
        let mine = self.actor as u64 + 1;
        let found = row
            .table
            .shared
            .compare_exchange::<Tries<R, N>>(&mut self.seat, at, 0, mine);
        if found != 0 {
            return None;
        }
        let Some(value) = row.table.shared.exchange(&mut self.seat, at, None) else {
            unreachable!()
        };
        Some(value)
    }

    pub(crate) fn give<N: NextLocal<V>>(&mut self, row: &TableRow<V, R>, lock: LockNo, value: V)
        requires { MayGive V.rule row.now self.old lock N.next value }
        ensures { self.new ≡ moved V.rule self.old lock N.next value }
    {
        let at = row.place(lock);
        laws::<V>();
        let old = row.table.shared.exchange(&mut self.seat, at, Some(value));
        let None = old else { unreachable!() };
        row.table.shared.store::<Gives<R, N>>(&mut self.seat, at, 0);
    }
}
