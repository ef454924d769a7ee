//! What follows of the machine's definitions alone, for those who run its events.

ghost use Rattle.std.specs.Prelude.{◌≡◌};
ghost use Rattle.page_steps.specs.declared.stage.Head.{Head};
ghost use Rattle.page_steps.specs.declared.stage.Scratch.{Scratch};
ghost use Rattle.page_steps.specs.declared.stage.Stage.{Stage};
ghost use Rattle.page_steps.specs.Steps.{plan};
ghost use Rattle.page_steps.specs.Calls.{Frame, here, next_event, IsFit, IsGoing, IsWork};
ghost use Rattle.page_steps.specs.Refusals.{RefusalsLeaveAll};

use backing_dev::Backing;

/// Over any device, between two events, what a call does next is what the plan of each actor says whose piece it does.
#[inline]
pub fn calls_are_events<D: Backing>()
    ensures plan { (c : Head) (r : Scratch) (s : Stage D) (x : Frame)
        → IsFit c r s → IsGoing s → IsWork c r x → plan x.terms (here x r s) ≡ next_event c s }
{}

/// A piece that is refused gives its entry back as it took it, and each pool with the objects that it
/// had. The account has one failed write more, and is else as it was.
#[inline]
pub fn refusals_leave_all()
    ensures { RefusalsLeaveAll }
{}
