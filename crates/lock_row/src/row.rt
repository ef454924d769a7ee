//! A row of locks for one thread.

ghost use Rattle.std.specs.Prelude.{◌≡◌, ◌≢◌, ◌<◌, ◌≤◌, ℕ, List, [], ◌∷◌, Some, None, IsSome, All, length, map, MatchOption, IfOk, IfErr, IfSome, IfNone, slice_get, slice_set, option_copied};
ghost use Rattle.lock_row.specs.declared.names.LockNo.{LockNo};
ghost use Rattle.lock_row.specs.Rows.{Row, IsDistinct, place_in, cell, with_cell, IsIn, at_home};

use crate::hand::{Hand, NextLocal};
use crate::names::LockNo;
use std::alloc::Global;
use std::marker::Model;
use zr_base::PageIx;

/// A row of locks with their values. A lock is found at once where the row has the slots first, from page 0 on,
/// in rising order, and ends with the classes 0 to 254, the account, the blocks and the device, or has slots
/// alone; else it is searched.
#[derive(Drop)]
pub struct SimRow<V: Drop> {
    names: Vec<LockNo>,
    cells: Vec<Option<V>>,
}

impl<V: Drop> Model for SimRow<V> {
    ghost use Rattle.lock_row.specs.Rows.{Row, IsWhole};

    ghost Value = { Row V };

    ghost view = { λ r. record { names = r.names.items; cells = r.cells.items } };

    ghost invariant = { λ r. IsWhole r.names.items r.cells.items };
}

// Where a lock stands in a row of so many that has the slots first, from page 0 on, then the classes 0 to 254,
// and then the account, the blocks and the device.
fn guess(count: usize, lock: LockNo) -> usize {
    let classes = count.saturating_sub(258);
    match lock {
        LockNo::Slot(PageIx(page)) => page as usize,
        LockNo::Class(class) => classes + class as usize,
        LockNo::Account => classes + 255,
        LockNo::Blocks => classes + 256,
        LockNo::Device => classes + 257,
    }
}

// A lock is looked for at its guess first.
fn find(names: &[LockNo], lock: LockNo) -> Option<usize>
    ensures found { IfSome result (λ i. slice_get names.now i ≡ Some lock) }
    ensures none { IfNone result ((i : ℕ) → slice_get names.now i ≢ Some lock) }
{
    let at = guess(names.len(), lock);
    if names.get(at) == Some(&lock) {
        return Some(at);
    }
    names.iter().position(|name| *name == lock)
}

// The place of a lock among the names.
fn place(names: &[LockNo], lock: LockNo) -> Option<usize>
    requires { IsDistinct names.now }
    ensures { MatchOption result (length names.now ≤ place_in names.now lock)
        (λ i. (i ≡ place_in names.now lock) × (i < length names.now)) }
{
    find(names, lock)
}

impl<V: Drop> SimRow<V> {
    /// The row of no locks. It takes no memory.
    pub fn empty(alloc: Global) -> SimRow<V>
        ensures names { result.names ≡ [] }
        ensures cells { result.cells ≡ [] }
    {
        SimRow {
            names: Vec::new(alloc),
            cells: Vec::new(alloc),
        }
    }

    /// The row of these locks with these values, all at home.
    pub fn new(names: Vec<LockNo>, cells: Vec<Option<V>>) -> SimRow<V>
        requires distinct { IsDistinct names.items }
        requires size { length cells.items ≡ length names.items }
        ensures names { result.names ≡ names.items }
        ensures cells { result.cells ≡ cells.items }
    {
        SimRow { names, cells }
    }

    /// The plain hand of an actor.
    pub fn hand(&mut self, actor: u32) -> SimHand<'_, V>
        ensures same { result.row.ghost_name ≡ self.entry.ghost_name }
        ensures row { result.row.now ≡ self.old }
        ensures actor { result.actor ≡ actor }
    {
        SimHand { row: self, actor }
    }

    /// The value of a lock. None comes exactly where the lock is held or isn't in the row.
    pub fn value(&self, lock: LockNo) -> Option<&V>
        ensures { option_copied result ≡ at_home (cell self.now lock) }
    {
        match place(&self.names, lock) {
            None => None,
            Some(at) => self.cells[at].as_ref(),
        }
    }

    fn take_at(&mut self, lock: LockNo) -> Option<V>
        requires { IsIn self.old lock }
        ensures { MatchOption result ((cell self.old lock ≡ Some None) × (self.new ≡ self.old))
            (λ v. (cell self.old lock ≡ Some (Some v))
            × (self.new ≡ with_cell self.old lock None)) }
    {
        let Some(at) = place(&self.names, lock) else {
            unreachable!()
        };
        // A miss moves nothing, however great a value is.
        if self.cells[at].is_none() {
            return None;
        }
        self.cells[at].take()
    }

    fn give_at(&mut self, lock: LockNo, value: V)
        requires { cell self.old lock ≡ Some None }
        ensures { self.new ≡ with_cell self.old lock (Some value) }
    {
        let Some(at) = place(&self.names, lock) else {
            unreachable!()
        };
        self.cells[at] = Some(value);
    }
}

/// The hand of an actor over a row of its own thread: it finds the row's own value alone, and
/// allows every
/// event. It can't tell its actors apart, so it holds what is out.
#[derive(Drop)]
pub struct SimHand<'a, V: Drop> {
    row: &'a mut SimRow<V>,
    actor: u32,
}

impl<'a, V: Drop> Hand for SimHand<'a, V> {
    ghost use Rattle.std.specs.Prelude.{◌≡◌, Some, None, refl};
    ghost use Rattle.lock_row.specs.Rows.{IsIn, cell};
    ghost use Rattle.lock_row.specs.Hands.{IsTaken, IsMissed, IsGiven};
    ghost use Rattle.lock_row.specs.HandLaws.{one_found, not_told, taken_out, missed_out};

    type Value = V;

    ghost holds = { λ h lock. cell h.row.now lock ≡ Some None };

    ghost local = { λ h. None };

    ghost may_find = { λ h lock x. cell h.row.now lock ≡ Some x };

    ghost can_take = { λ h lock f. IsIn h.row.now lock };

    ghost takes = { λ h lock f v g. (g.row.ghost_name ≡ h.row.ghost_name) × (g.actor ≡ h.actor) × IsTaken h.row.now g.row.now lock v };

    ghost misses = { λ h lock g. (g.row.ghost_name ≡ h.row.ghost_name) × (g.actor ≡ h.actor) × IsMissed h.row.now g.row.now lock };

    ghost can_give = { λ h lock f v. cell h.row.now lock ≡ Some None };

    ghost gives = { λ h lock f v g. (g.row.ghost_name ≡ h.row.ghost_name) × (g.actor ≡ h.actor) × IsGiven h.row.now g.row.now lock v };

    fn try_take<N: NextLocal<V>>(&mut self, lock: LockNo) -> Option<V> {
        self.row.take_at(lock)
    }

    fn give<N: NextLocal<V>>(&mut self, lock: LockNo, value: V) {
        self.row.give_at(lock, value)
    }

    ghost held_is_out = { λ h k x out found. one_found None x (cell h.row.now k) out found };

    ghost take_finds = { λ h k f v g t. t.2.home };

    ghost take_holds = { λ h k f v g t. taken_out h.row.now g.row.now k v t.2 };

    ghost miss_finds = { λ h k g m. m.2.out };

    ghost miss_keeps = { λ h k g m lock out. missed_out h.row.now g.row.now k lock m.2 out };

    ghost miss_stays = { λ h k g m. refl };

    ghost give_holds = { λ h k f v c. c };

    ghost take_moves = { λ h k f v g l t none. not_told l none };

    ghost give_moves = { λ h k f v g l t none. not_told l none };
}

#[cfg(test)]
mod tests {
    use super::*;
    use std::test::Fail;

    #[test]
    fn makes_a_row(rt: HostRuntime) -> Result<(), Fail> {
        let names = vec![in rt.alloc(); LockNo::Slot(PageIx(4)), LockNo::Account]?;
        let cells = vec![in rt.alloc(); Some(7u32), Some(9)]?;
        let row = SimRow::new(names, cells);
        assert_eq!(rt; row.value(LockNo::Account), Some(&9));
        assert_eq!(rt; row.value(LockNo::Slot(PageIx(4))), Some(&7));
        assert_eq!(rt; row.value(LockNo::Device), None);
        Ok(())
    }
}
