//! The block map behind one lock.

ghost use Rattle.std.specs.Prelude.{◌≡◌, ℕ, ◌+◌, ◌-◌, ◌<◌, ◌≤◌, Some, [], IfOk, IfSome, IfNone, IsTrue, IsFalse, replicate, false, slice_get, length};

use crate::state::BlockState;
use crate::tree;
use std::alloc::{AllocError, Global};
use std::marker::Model;

/// What a reservation was answered.
#[derive(Clone, Copy, PartialEq, Eq, Debug)]
pub enum Reserve {
    /// The block is held.
    Got(u32),
    /// The writeback limit is enabled and used up.
    BudgetSpent,
    /// No block is free.
    NoBlock,
}

/// The blocks of a backing device, each of one page, with zram's writeback limit in pages.
#[derive(Drop)]
pub struct Blocks {
    states: Vec<BlockState>,
    tree: Vec<u32>,
    owned: u32,
    budget: u64,
    enabled: bool,
}

impl Model for Blocks {
    ghost use Rattle.block_map.specs.BlockMap.{BlockMap};

    ghost Value = { BlockMap };

    ghost use Rattle.block_map.specs.Inside.{IsInside, map_of};

    ghost view = { map_of };

    ghost invariant = { IsInside };
}

impl Blocks {
    ghost use Rattle.block_map.specs.BlockMap.{AnswersReserve, reserved, IsBudgetSpent, HasBudget, IsLeastFree, HasNoFree, with_state, IsHeldOrOwned, owned_blocks};

    /// So many free blocks, with the limit off and no budget. This takes all memory that the map
    /// ever takes.
    pub fn new(alloc: Global, blocks: u32) -> Result<Blocks, AllocError>
        ensures free { IfOk result (λ m. m.states ≡ replicate blocks BlockState.Free) }
        ensures unlimited { IfOk result (λ m. (m.budget ≡ 0) × (m.enabled ≡ false)) }
    {
        let states = vec![in alloc; BlockState::Free; blocks as usize]?;
        let tree = tree::all_free(alloc, blocks)?;
        Ok(Blocks {
            states,
            tree,
            owned: 0,
            budget: 0,
            enabled: false,
        })
    }

    /// No blocks, with the limit off and no budget. It takes no memory.
    pub fn none(alloc: Global) -> Blocks
        ensures { result ≡ record { states = []; budget = 0; enabled = false } }
    {
        Blocks {
            states: Vec::new(alloc),
            tree: Vec::new(alloc),
            owned: 0,
            budget: 0,
            enabled: false,
        }
    }

    /// Holds the least free block for one write. An enabled limit pays one unit for it, which never
    /// comes back.
    pub fn reserve(&mut self) -> Reserve
        ensures answer { AnswersReserve self.old result }
        ensures after { self.new ≡ reserved self.old result }
    {
        if self.is_budget_spent() {
            return Reserve::BudgetSpent;
        }
        match self.least_free() {
            None => Reserve::NoBlock,
            Some(block) => {
                self.set(block, BlockState::Held);
                if self.enabled {
                    self.budget -= 1;
                }
                Reserve::Got(block)
            }
        }
    }

    fn is_budget_spent(&self) -> bool
        ensures spent { IsTrue result → IsBudgetSpent self.now }
        ensures left { IsFalse result → HasBudget self.now }
    {
        self.enabled && self.budget == 0
    }

    fn least_free(&self) -> Option<u32>
        ensures found { IfSome result (IsLeastFree self.now.states) }
        ensures none { IfNone result (HasNoFree self.now.states) }
    {
        tree::least(&self.tree)
    }

    /// Makes a held block owned.
    pub fn commit(&mut self, b: u32)
        requires { slice_get self.old.states b ≡ Some BlockState.Held }
        ensures owned { self.new ≡ with_state self.old b BlockState.Owned }
    {
        self.set(b, BlockState::Owned);
    }

    /// Makes a held or owned block free.
    pub fn release(&mut self, b: u32)
        requires { IsHeldOrOwned (slice_get self.old.states b) }
        ensures free { self.new ≡ with_state self.old b BlockState.Free }
    {
        self.set(b, BlockState::Free);
    }

    fn set(&mut self, b: u32, state: BlockState)
        requires { b < length self.old.states }
        ensures state { self.new ≡ with_state self.old b state }
    {
        let at = b as usize;
        tree::put(&mut self.tree, self.states.len(), at, state.number(b));
        self.owned = self.owned - self.states[at].owned() + state.owned();
        self.states[at] = state;
    }

    /// Sets how many writes an enabled limit allows from now on.
    pub fn set_limit(&mut self, units: u64)
        ensures budget { self.new ≡ record self.old { budget = units } }
    {
        self.budget = units;
    }

    /// Turns the limit on or off.
    pub fn set_enable(&mut self, on: bool)
        ensures enabled { self.new ≡ record self.old { enabled = on } }
    {
        self.enabled = on;
    }

    /// How many writes an enabled limit allows.
    pub fn budget(&self) -> u64
        ensures { result ≡ self.now.budget }
    {
        self.budget
    }

    /// Whether the limit is on.
    pub fn is_enabled(&self) -> bool
        ensures { result ≡ self.now.enabled }
    {
        self.enabled
    }

    /// How many blocks a page owns.
    pub fn owned(&self) -> u32
        ensures count { result ≡ owned_blocks self.now.states }
    {
        self.owned
    }
}
