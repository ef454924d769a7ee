//! Compaction: an object moves from the emptiest zspage into the fullest one with room, one at a
//! time.

ghost use Rattle.std.specs.Prelude.{◌≡◌, ◌≢◌, ◌+◌, ◌<◌, ◌≤◌, ◌⊎◌, ℕ, length, Some, true, slice_set, IfOk};
ghost use Rattle.zspage.specs.Cells.{CellState, UsedCell, used_of, entry, home_of, IsStored, IsCellAt, IsLowestFree, Fits};
ghost use Rattle.zspage.specs.Movable.{IsLowestHome};
ghost use Rattle.zs_plan.specs.Plan.{IsPlan, HasNoPlan};
ghost use Rattle.class_pool.specs.Zspages.{Cells, HasRoom, use_at};
ghost use Rattle.class_pool.specs.Rows.{rows};
ghost use Rattle.class_pool.specs.Pool.{objects, used_cells, IsAtHome, IsLent, IsPool, new_use};
ghost use Rattle.class_pool.specs.Index.{pool_of, IsPooled};
ghost use Rattle.class_pool.specs.Moves.{IfMoved, IfDone, Move, Moves, AreSame};
ghost use Rattle.class_pool.specs.Compaction.{IsSettled, MayMove, IsNothingOut, IsLeast};

use super::ClassPool;
use crate::places::{Place, Places};
use crate::zspages::Zspages;

/// What a call that moves at most one object did.
#[derive(Clone, Copy, PartialEq, Eq, Debug)]
pub enum Moved {
    /// An object moved. `frames` are those of its zspage, where that became empty and was given up,
    /// else 0.
    Moved { frames: u32 },
    /// Nothing moved.
    Done,
}

impl ClassPool {
    /// Moves one object by the plan of compaction, and takes one off the budget. Nothing moves
    /// where the budget is 0 or there is no plan. It takes no memory.
    pub fn move_one(&mut self, budget: &mut u32) -> Moved
        ensures done { IfDone result ((self.new ≡ self.old) × (budget.new ≡ budget.old)
            × ((budget.old ≡ 0) ⊎ HasNoPlan self.old.per (rows self.old.zspages))) }
        ensures moved { IfMoved result (λ frames. (budget.new + 1 ≡ budget.old) × (m : Move)
            × IsPlan self.old.per (rows self.old.zspages) m.from m.to
            × Moves self.old self.new m frames
            × (IsSettled self.old m.object.handle → ⊥) × IsSettled self.new m.object.handle) }
        ensures list { AreSame (objects self.old) (objects self.new) }
        ensures home { (h : ℕ) → IsAtHome self.old h → IsAtHome self.new h }
        ensures lent { (h : ℕ) (cell : CellState) → IsLent self.old h cell
            → IsLent self.new h cell }
        ensures out_stays { (id ix : ℕ) (u : UsedCell) → use_at self.old.zspages id ix ≡ Some u
            → u.out ≡ true
            → use_at self.new.zspages id ix ≡ Some u }
        ensures pool { IsPool self.new }

        // While nothing else touches the pool no object moves twice: the object that moved was not
        // settled, and is now.
        ensures settled { (h : ℕ) → IsSettled self.old h → IsSettled self.new h }

        // Calls move no more objects than there are, and at last nothing may move.
        ensures most { (n : ℕ) × MayMove self.old n × (n ≤ length (objects self.old)) }
        ensures fewer { IfMoved result (λ frames. (n k : ℕ) → MayMove self.old n
            → MayMove self.new k → k < n) }
        ensures rest { IfDone result (1 ≤ budget.old → MayMove self.old 0) }
        ensures none { MayMove self.old 0 → IfMoved result (λ frames. ⊥) }
        ensures least { MayMove self.new 0 → IsNothingOut self.new → IsLeast self.new }
    {
        let Some((from, to)) = self.next_move() else {
            return Moved::Done;
        };
        if *budget == 0 {
            return Moved::Done;
        }
        *budget -= 1;
        let frames = move_object(&mut self.zspages, &mut self.places, from, to);
        Moved::Moved { frames }
    }
}

/// Moves the object in the lowest used cell at home of a zspage into the lowest free cell of
/// another one. Gives the frames of the first one where it was given up, else 0.
fn move_object(zspages: &mut Zspages, places: &mut Places, from: u32, to: u32) -> u32
    requires source { (cells : Cells) × (entry zspages.old.zspages from ≡ Some cells)
        × (1 ≤ home_of cells) }
    requires room { HasRoom (entry zspages.old.zspages to) }
    requires apart { from ≢ to }
    requires pooled { (used : ℕ) × IsPooled used zspages.old places.old }
    ensures pooled { (used : ℕ) → IsPooled used zspages.old places.old
        → IsPooled used zspages.new places.new }
    ensures moved { (class : ℕ) → (m : Move) × (m.from ≡ from) × (m.to ≡ to)
        × Moves (pool_of class zspages.old) (pool_of class zspages.new) m result }
{
    let object = zspages.lowest_home(from);
    let cell = zspages.lend(from, object.ix);
    let at = zspages.take_copy(to, object.handle, object.len, &cell);
    zspages.back(from, object.ix, cell);
    places.put(
        object.handle.0 as usize,
        Place {
            zspage: to,
            cell: at,
        },
    );
    let gone = zspages.put_cell(from, object.ix);
    if gone { zspages.chain() } else { 0 }
}
