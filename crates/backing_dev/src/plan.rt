//! Calls that fail as planned.

ghost use Rattle.std.specs.Prelude.{◌≡◌, ℕ, ◌^◌, ◌<◌, ◌↔◌, [], IfOk, IsTrue};

use std::alloc::{AllocError, Global};
use std::marker::Model;

/// The numbers, from 1, of the calls that are to fail, and how many calls there were. Call number
/// 2^64 - 1, at which the count stands still, never fails.
#[derive(Drop)]
pub struct Plan {
    calls: u64,
    faults: u64,
    failing: Vec<u64>,
}

impl Model for Plan {
    ghost use Rattle.backing_dev.specs.Plan.{Calls};

    ghost Value = { Calls };

    ghost use Rattle.backing_dev.specs.PlanInside.{calls_of, IsFaultPlan};

    ghost view = { calls_of };

    ghost invariant = { IsFaultPlan };
}

impl Plan {
    ghost use Rattle.backing_dev.specs.Plan.{IsNextPlanned, planned_calls, after_call};

    /// No calls so far; those with these numbers are to fail.
    pub fn new(alloc: Global, failing: &[u64]) -> Result<Plan, AllocError>
        ensures planned { IfOk result (λ p. p ≡ planned_calls failing.now) }
    {
        Ok(Plan {
            calls: 0,
            faults: 0,
            failing: Vec::from_slice(alloc, failing)?,
        })
    }

    /// Counts a call, and says whether it is to fail.
    pub fn call(&mut self) -> bool
        ensures fails { IsTrue result ↔ IsNextPlanned self.old }
        ensures after { self.new ≡ after_call self.old result }
    {
        let fails = self.fails_next();
        self.calls = self.calls.saturating_add(1);
        if fails {
            self.faults += 1;
        }
        fails
    }

    fn fails_next(&self) -> bool
        ensures fails { IsTrue result ↔ IsNextPlanned self.now }
    {
        let number = self.calls.saturating_add(1);
        number < u64::MAX && self.failing.contains(&number)
    }

    /// How many calls failed.
    pub fn faults(&self) -> u64
        ensures count { result ≡ self.now.faults }
        ensures few { result < 2 ^ 63 }
    {
        self.faults
    }
}
