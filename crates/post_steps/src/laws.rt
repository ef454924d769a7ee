//! What follows of the definitions alone, for those who run these calls.

ghost use Rattle.std.specs.Prelude.{◌≡◌, ◌+◌, ◌<◌, ℕ};
ghost use Rattle.size_class.specs.Classes.{stands_of};
ghost use Rattle.page_steps.specs.Steps.{plan};
ghost use Rattle.page_steps.specs.Calls.{Frame};
ghost use Rattle.post_steps.specs.declared.compact.CompactStage.{CompactStage};
ghost use Rattle.post_steps.specs.declared.idle.IdleHead.{IdleHead};
ghost use Rattle.post_steps.specs.declared.idle.IdleStage.{IdleStage};
ghost use Rattle.page_steps.specs.declared.stage.Scratch.{Scratch};
ghost use Rattle.post_steps.specs.declared.writeback.WritebackHead.{WritebackHead};
ghost use Rattle.post_steps.specs.declared.writeback.WritebackStage.{WritebackStage};
ghost use Rattle.post_steps.specs.Writeback.{IsFit as IsVisitFit, IsGoing as IsVisitGoing, IsWork as IsVisitWork, here as visit_here, next_event as visit_event};
ghost use Rattle.post_steps.specs.Compact.{IsGoing, IsWork, here, next_event};
ghost use Rattle.post_steps.specs.Idle.{IsGoing as IsIdleGoing, IsWork as IsIdleWork, here as idle_here, next_event as idle_event};

use backing_dev::Backing;

/// Between two events, what a compaction does next is what the plan of each actor says whose work it
/// does.
#[inline]
pub fn compactions_are_events()
    ensures plan { (chain : ℕ) (s : CompactStage) (x : Frame)
        → IsGoing s → IsWork chain x → plan x.terms (here x s) ≡ next_event s }
{}

/// The same of a call that marks pages.
#[inline]
pub fn scans_are_events()
    ensures plan { (c : IdleHead) (s : IdleStage) (x : Frame)
        → IsIdleGoing s → IsIdleWork c x → plan x.terms (idle_here x s) ≡ idle_event s }
{}

/// The same of a call that writes pages back, over any device.
#[inline]
pub fn writebacks_are_events<D: Backing>()
    ensures plan { (c : WritebackHead) (r : Scratch) (s : WritebackStage D) (x : Frame)
        → IsVisitFit c s → IsVisitGoing s → IsVisitWork c x
        → plan x.terms (visit_here x r s) ≡ visit_event s }
{}

/// The classes of a compaction, one after the other: class 0 stands for itself, and each other class
/// that does comes next after one that does.
#[inline]
pub fn classes_come_in_turn()
    ensures first { (chain : ℕ) → stands_of chain 0 ≡ 0 }
    ensures each { (chain k : ℕ) → 0 < k → k < 255 → stands_of chain k ≡ k
        → (j : ℕ) × (j < k) × (stands_of chain j ≡ j) × (stands_of chain (j + 1) ≡ k) }
{}
