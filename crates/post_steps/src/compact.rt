//! Compaction: for each class that stands for itself, in rising order, objects move out of the
//! zspages that have few, one at a time. A zspage that has none left is given up, and its frames are
//! given back to the account before the next object moves. The functions of the stages stand in
//! `sweep.rt`.
//!
//! | Stage | Holds | Next event | Function | The event's work |
//! |---|---|---|---|---|
//! | `Start` | | takes class 0 | `begin` | none |
//! | `Sweeping` | | takes the class | `sweep` | none |
//! | `Moving` | class | gives the class | `move_one` | moves an object; or goes on to the next class, or is over |
//! | `Shrunk` | | takes the account | `owe` | none |
//! | `Shrinking` | account | gives the account | `shrink` | gives the frames back and counts them |
//! | `Over` | | none | | |

ghost use Rattle.std.specs.Prelude.{◌≡◌};
ghost use Rattle.page_steps.specs.Calls.{Frame};
ghost use Rattle.post_steps.specs.declared.compact.CompactStage.TheVariants as stage;
ghost use Rattle.post_steps.specs.Compact.{IsFit, IsGoing, IsOnward, IsWork, HoldsOne, here, next_event, IsReady, HasAdvanced};
ghost use Rattle.post_steps.specs.Turns.{Allows, Advanced};

use crate::sweep::{begin, move_one, owe, shrink, sweep};
use backing_dev::Backing;
use class_pool::ClassPool;
use lock_row::{Compaction, Hand};
use mem_account::Account;
use page_steps::{DiskHeld, Progress};
use size_class::ClassTable;
use std::mem;

/// What a compaction is at, with the value that it holds.
#[derive(Drop)]
pub enum CompactStage {
    Start,
    Sweeping(Compaction),
    Moving(Compaction, ClassPool),
    /// The frames that are to be given back.
    Shrunk(Compaction, u32),
    Shrinking(Compaction, u32, Account),
    Over,
}

/// A compaction in work.
#[derive(Drop)]
pub struct CompactCall {
    pub stage: CompactStage,
}

impl CompactCall {
    /// Begins a compaction.
    pub fn new() -> CompactCall
        ensures { result.stage ≡ stage.Start }
    {
        CompactCall {
            stage: CompactStage::Start,
        }
    }

    /// Makes the next event, or misses. The table has the classes for the disk's longest chains.
    pub fn advance<D: Backing, H: Hand<Value = DiskHeld<D>>>(
        &mut self,
        table: &ClassTable,
        hand: &mut H,
    ) -> Progress
        requires going { IsGoing self.old.stage }
        requires fit { IsFit table.now self.old.stage }
        requires allows { Allows H.can_take H.takes H.can_give (IsWork table.now)
            (λ x. here x self.old.stage) (next_event self.old.stage) hand.old }
        ensures fit { IsFit table.now self.new.stage }
        ensures turn { Advanced H.takes H.misses H.gives (IsWork table.now)
            (λ x. here x self.old.stage) hand.old (λ x. here x self.new.stage) hand.new result }
        ensures over { IsOnward result self.new.stage }
    {
        step(&mut self.stage, table, hand)
    }
}

// One event, or a miss, of a compaction that isn't over. The stages that hold no value stay in their
// place until the lock is taken.
fn step<D: Backing, H: Hand<Value = DiskHeld<D>>>(
    at: &mut CompactStage,
    table: &ClassTable,
    hand: &mut H,
) -> Progress
    requires going { IsGoing at.old }
    requires ready { IsReady H.can_take H.takes H.can_give table.now at.old hand.old }
    ensures { HasAdvanced H.takes H.misses H.gives table.now at.old hand.old at.new hand.new result }
{
    match &*at {
        CompactStage::Start => begin(at, table, hand),
        CompactStage::Sweeping(x) => {
            let x = *x;
            sweep(x, at, table, hand)
        }
        CompactStage::Shrunk(x, frames) => {
            let (x, frames) = (*x, *frames);
            owe(x, frames, at, table, hand)
        }
        CompactStage::Moving(_, _) | CompactStage::Shrinking(_, _, _) => give(at, table, hand),
        CompactStage::Over => unreachable!(),
    }
}

// One event of a compaction that gives a lock.
fn give<D: Backing, H: Hand<Value = DiskHeld<D>>>(
    at: &mut CompactStage,
    table: &ClassTable,
    hand: &mut H,
) -> Progress
    requires holds { HoldsOne at.old }
    requires ready { IsReady H.can_take H.takes H.can_give table.now at.old hand.old }
    ensures { HasAdvanced H.takes H.misses H.gives table.now at.old hand.old at.new hand.new result }
{
    match mem::replace(at, CompactStage::Over) {
        CompactStage::Moving(x, pool) => move_one(x, pool, at, table, hand),
        CompactStage::Shrinking(x, frames, account) => shrink(x, frames, account, at, table, hand),
        CompactStage::Start
        | CompactStage::Sweeping(_)
        | CompactStage::Shrunk(_, _)
        | CompactStage::Over => unreachable!(),
    }
}

// Puts a stage into the place of one that holds no value, where there is nothing to drop.
pub(crate) fn put(at: &mut CompactStage, next: CompactStage)
    ensures { at.new ≡ next }
{
    mem::forget(mem::replace(at, next));
}
