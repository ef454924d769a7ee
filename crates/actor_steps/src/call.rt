//! The call of a piece in work, by its kind.

ghost use Rattle.std.specs.Prelude.{◌≡◌};
ghost use Rattle.page_steps.specs.Calls.{Frame};
ghost use Rattle.post_steps.specs.Turns.{Allows};
ghost use Rattle.actor_steps.specs.Calls.{Does, local, next_event, IsFit, IsGoing, IsOnward, Advanced};

use backing_dev::Backing;
use lock_row::Hand;
use page_steps::{DiskHeld, PageCall, Progress, Scratch};
use post_steps::{CompactCall, IdleCall, WritebackCall};

/// The call of a piece in work.
#[derive(Drop)]
pub enum Call<D: Backing> {
    /// A piece of a page, or the count of a request beyond the disk.
    Page(PageCall<D>),
    /// A scan that marks pages.
    Idle(IdleCall),
    /// A writeback.
    Writeback(WritebackCall<D>),
    /// A compaction.
    Compact(CompactCall),
}

impl<D: Backing> Call<D> {
    // Makes the next event, or misses.
    pub(crate) fn advance<H: Hand<Value = DiskHeld<D>>>(
        &mut self,
        hand: &mut H,
        scratch: &mut Scratch,
    ) -> Progress
        requires going { IsGoing self.old }
        requires fit { IsFit self.old scratch.old }
        requires allows { Allows H.can_take H.takes H.can_give (Does self.old scratch.old)
            (local self.old scratch.old) (next_event self.old) hand.old }
        ensures fit { IsFit self.new scratch.new }
        ensures turn { Advanced H.takes H.misses H.gives self.old scratch.old hand.old
            self.new scratch.new hand.new result }
        ensures over { IsOnward result self.new }
        ensures work { (x : Frame) → Does self.old scratch.old x → Does self.new scratch.new x }
        ensures table { scratch.new.table ≡ scratch.old.table }
    {
        match self {
            Call::Page(call) => call.advance(hand, scratch),
            Call::Idle(call) => call.advance(hand),
            Call::Writeback(call) => call.advance(hand, scratch),
            Call::Compact(call) => call.advance(&scratch.table, hand),
        }
    }
}
