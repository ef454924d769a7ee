//! Calls that fail by plan.

ghost use Rattle.std.specs.Prelude.{◌≡◌, ℕ, ◌+◌, ◌-◌, ◌^◌, ◌≤◌, ◌↔◌, List, IsTrue, cond, min, IfOk};
ghost use Rattle.zr_base.specs.Faults.{FailsNext};

use std::alloc::{AllocError, Global};

/// The calls made so far, and those that fail by their numbers from 1. Each count stands still at
/// `2^64 - 1`.
#[derive(Drop)]
pub(crate) struct Planned {
    pub(crate) failing: Vec<u64>,
    pub(crate) calls: u64,
    pub(crate) faults: u64,
    ghost fewer: { faults ≤ calls },
}

impl Planned {
    pub(crate) fn new(alloc: Global, failing: &[u64]) -> Result<Planned, AllocError>
        ensures { IfOk result (λ p. (p.failing.items ≡ failing.now)
            × (p.calls ≡ 0) × (p.faults ≡ 0)) }
    {
        Ok(Planned {
            failing: failing.to_vec(alloc)?,
            calls: 0,
            faults: 0,
        })
    }

    // Counts a call, and tells whether it fails.
    pub(crate) fn fails(&mut self) -> bool
        ensures fails { IsTrue result ↔ FailsNext self.old.calls self.old.failing.items }
        ensures failing { self.new.failing.items ≡ self.old.failing.items }
        ensures calls { self.new.calls ≡ min (self.old.calls + 1) (2 ^ 64 - 1) }
        ensures faults { self.new.faults ≡ self.old.faults + cond result 1 0 }
    {
        let Some(number) = self.calls.checked_add(1) else {
            return false;
        };
        let fails = number < u64::MAX && self.failing.contains(&number);
        self.calls = number;
        if fails {
            self.faults += 1;
        }
        fails
    }
}
