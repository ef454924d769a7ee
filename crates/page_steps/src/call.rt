//! The calls of a page: reads, writes and discards of a piece, one event at a time.

ghost use Rattle.std.specs.Prelude.{◌≡◌, ◌||◌, ◌&&◌, not};
ghost use Rattle.page_steps.specs.declared.stage.Stage.TheVariants as stage;
ghost use Rattle.page_steps.specs.declared.stage.Work.TheVariants as work;
ghost use Rattle.page_steps.specs.Calls.{Frame, IsFit, IsGoing, IsWork, has_fetched, is_failing, is_fetching, is_skipped, started, counting};
ghost use Rattle.page_steps.specs.Turns.{Allows, IsReady, Advanced, HasAdvanced, IsOnward};

use crate::device::{away, backed, count, fail, fetch, release};
use crate::enter::{beyond, refuse_request, start};
use crate::leave::{leave, leave_plain, miss, refuse};
use crate::objects::{ask, charge, made, want};
use crate::pins::{pin, pinned, seen, unpin};
use crate::settle::{free, old, owe, put, repay};
use crate::stage::Stage::{
    Away, Backed, Beyond, Both, Counting, Failing, Fetching, Freeing, Giving, Inside, Leaving,
    Made, Missed, Old, Over, Owing, Pinned, Pinning, Plain, Ready, Refused, Refusing, Releasing,
    Seen, Start, Unpinning, Wanting,
};
use crate::stage::{DiskHeld, Head, Progress, Scratch, Stage, Work};
use backing_dev::Backing;
use lock_row::Hand;
use std::mem;
use zr_base::{PageIx, Piece, Tag};

/// A call in work.
#[derive(Drop)]
pub struct PageCall<D: Backing> {
    pub head: Head,
    pub stage: Stage<D>,
    /// whether a read of the device succeeded
    pub fetched: bool,
}

impl<D: Backing> PageCall<D> {
    /// Begins a read. Where it is done, the page stands in the scratch.
    pub fn read(piece: Piece, tag: Tag, now: u64) -> PageCall<D>
        ensures { result ≡ started work.Reads piece tag now }
    {
        PageCall {
            head: Head {
                work: Work::Reads,
                piece,
                tag,
                now,
            },
            stage: Stage::Start,
            fetched: false,
        }
    }

    /// Begins a write. The piece's sectors stand in the scratch, in `fresh`, each at its place in
    /// the page.
    pub fn write(piece: Piece, tag: Tag, now: u64) -> PageCall<D>
        ensures { result ≡ started work.Writes piece tag now }
    {
        PageCall {
            head: Head {
                work: Work::Writes,
                piece,
                tag,
                now,
            },
            stage: Stage::Start,
            fetched: false,
        }
    }

    /// Begins a discard of a whole page.
    pub fn discard(piece: Piece, tag: Tag, now: u64) -> PageCall<D>
        ensures { result ≡ started work.Discards piece tag now }
    {
        PageCall {
            head: Head {
                work: Work::Discards,
                piece,
                tag,
                now,
            },
            stage: Stage::Start,
            fetched: false,
        }
    }

    /// Begins the count of a request beyond the disk.
    pub fn out_of_range() -> PageCall<D>
        ensures { result ≡ counting }
    {
        let piece = Piece {
            page: PageIx(0),
            first: 0,
            count: 0,
        };
        let tag = Tag { actor: 0, op: 0 };
        PageCall {
            head: Head {
                work: Work::Counts,
                piece,
                tag,
                now: 0,
            },
            stage: Stage::Beyond,
            fetched: false,
        }
    }

    /// Whether it is a discard of a part of a page, which ends `Skipped` without an event.
    pub fn is_skip(&self) -> bool
        ensures { result ≡ is_skipped self.now.head }
    {
        matches!(&self.head.work, Work::Discards) && self.head.piece.count < 8
    }

    /// Whether a read of the device of this call succeeded.
    pub fn device_read(&self) -> bool
        ensures { result ≡ self.now.fetched }
    {
        self.fetched
    }

    /// Makes the next event, or misses.
    pub fn advance<H: Hand<Value = DiskHeld<D>>>(
        &mut self,
        hand: &mut H,
        scratch: &mut Scratch,
    ) -> Progress
        requires going { IsGoing self.old.stage }
        requires fit { IsFit self.old.head scratch.old self.old.stage }
        requires allows { Allows H.can_take H.takes H.can_give self.old.head scratch.old
            self.old.stage hand.old }
        ensures head { self.new.head ≡ self.old.head }
        ensures fit { IsFit self.old.head scratch.new self.new.stage }
        ensures turn { Advanced H.takes H.misses H.gives self.old.head scratch.old self.old.stage
            hand.old
            scratch.new self.new.stage hand.new result }
        ensures over { IsOnward result self.new.stage }
        ensures work { (x : Frame) → IsWork self.old.head scratch.old x → IsWork self.old.head
            scratch.new x }
        ensures table { scratch.new.table ≡ scratch.old.table }
        ensures read { self.new.fetched
            ≡ has_fetched self.old.fetched self.old.stage self.new.stage }
    {
        let fetches = is_fetching(&self.stage);
        let progress = step(self.head, &mut self.stage, hand, scratch);
        self.fetched = has_read(self.fetched, fetches, is_failing(&self.stage));
        progress
    }
}

// Whether the next event gives the device.
fn is_fetching<D: Backing>(at: &Stage<D>) -> bool
    ensures { result ≡ is_fetching at.now }
{
    matches!(at, Stage::Fetching(_, _, _))
}

// Whether the device has just failed.
fn is_failing<D: Backing>(at: &Stage<D>) -> bool
    ensures { result ≡ is_failing at.now }
{
    matches!(at, Stage::Failing(_, _))
}

// Whether a read of the device succeeded, now or before.
fn has_read(before: bool, fetches: bool, fails: bool) -> bool
    ensures { result ≡ before || (fetches && not fails) }
{
    before || fetches && !fails
}

// One event, or a miss, of a call that isn't over. The stage that it is at leaves its place for the
// next one, and nothing is left there to drop.
fn step<D: Backing, H: Hand<Value = DiskHeld<D>>>(
    head: Head,
    at: &mut Stage<D>,
    hand: &mut H,
    scratch: &mut Scratch,
) -> Progress
    requires going { IsGoing at.old }
    requires ready { IsReady H.can_take H.takes H.can_give head scratch.old at.old hand.old }
    ensures { HasAdvanced H.takes H.misses H.gives head scratch.old at.old hand.old scratch.new
        at.new hand.new result }
{
    let (next, progress) = next_of(head, mem::replace(at, Stage::Over), hand, scratch);
    mem::forget(mem::replace(at, next));
    progress
}

// The stage after one event, or after a miss.
fn next_of<D: Backing, H: Hand<Value = DiskHeld<D>>>(
    head: Head,
    at: Stage<D>,
    hand: &mut H,
    scratch: &mut Scratch,
) -> (Stage<D>, Progress)
    requires going { IsGoing at }
    requires ready { IsReady H.can_take H.takes H.can_give head scratch.old at hand.old }
    ensures { HasAdvanced H.takes H.misses H.gives head scratch.old at hand.old scratch.new
        result.0 hand.new result.1 }
{
    match at {
        Start => start(head, hand, scratch),
        Beyond => beyond(head, hand, scratch),
        Refusing(account) => refuse_request(head, account, hand, scratch),
        Seen(entry, object) => seen(head, entry, object, hand, scratch),
        Pinning(entry, object, pool) => pin(head, entry, object, pool, hand, scratch),
        Pinned(entry, lent, end) => pinned(head, entry, lent, end, hand, scratch),
        Unpinning(entry, lent, end, pool) => unpin(head, entry, lent, end, pool, hand, scratch),
        Away(entry, block) => away(head, entry, block, hand, scratch),
        Fetching(entry, block, device) => fetch(head, entry, block, device, hand, scratch),
        Failing(entry, fault) => fail(head, entry, fault, hand, scratch),
        Counting(entry, fault, account) => count(head, entry, fault, account, hand, scratch),
        Missed(entry, fault) => miss(head, entry, fault, hand, scratch),
        Plain(entry) => leave_plain(head, entry, hand, scratch),
        Leaving(entry) => leave(head, entry, hand, scratch),
        Refused(entry, read, end) => refuse(head, entry, read, end, hand, scratch),
        Wanting(own, new) => want(head, own, new, hand, scratch),
        Inside(own, new, pool) => ask(head, own, new, pool, hand, scratch),
        Both(own, new, pool, account) => charge(head, own, new, pool, account, hand, scratch),
        Made(own, class, pool, outcome) => made(head, own, class, pool, outcome, hand, scratch),
        Old(own, object, next) => old(head, own, object, next, hand, scratch),
        Freeing(own, object, next, pool) => free(head, own, object, next, pool, hand, scratch),
        Backed(own, block, next) => backed(head, own, block, next, hand, scratch),
        Releasing(own, block, next, blocks) => release(
            head, own, block, next, blocks, hand, scratch,
        ),
        Owing(due, frames, ahead) => owe(head, due, frames, ahead, hand, scratch),
        Giving(due, frames, ahead, account) => repay(
            head, due, frames, ahead, account, hand, scratch,
        ),
        Ready(due, ahead, behind) => put(head, due, ahead, behind, hand, scratch),
        Over => unreachable!(),
    }
}
