//! An actor of a phase: its place among its operations, the call of its piece in work, and its
//! replies. Its steps are written for any hand.

ghost use Rattle.std.specs.Prelude.{◌≡◌, ◌≢◌, ◌<◌, ◌^◌, nat_le, Bool, List, length, Some, None, slice_get};
ghost use Rattle.zr_base.specs.declared.op.Op.{Op};
ghost use Rattle.call_history.specs.declared.part.Done.{Done};
ghost use Rattle.actor_steps.specs.Places.{AreRequests, IsPlace, IsSettled};
ghost use Rattle.actor_steps.specs.Workers.{IsFit, terms_of, IsBegun, HasBegun, CanFinish, Finishes, Keeps, Allows, Advanced};

use crate::call::Call;
use crate::place::{Place, next_place};
use crate::reply::{Reply, goes_on, keep};
use crate::work::bring;
use backing_dev::Backing;
use call_history::histories_go_on;
use lock_row::{Hand, LockNo};
use page_steps::{DiskHeld, PageCall, PieceEnd, Progress, Scratch, calls_are_events};
use post_steps::{
    CompactCall, IdleCall, WritebackCall, compactions_are_events, scans_are_events,
    writebacks_are_events,
};
use zr_base::{Op, Page, Tag};

/// What a turn was.
#[derive(Clone, Copy, PartialEq, Eq, Debug)]
pub enum Turn {
    /// One event.
    Went,
    /// A miss: this lock was held.
    Waited(LockNo),
    /// Nothing: the actor had no operation left.
    Finished,
}

/// An actor of a phase. Nothing else changes its scratch while the phase lasts.
#[derive(Drop)]
pub struct Worker<D: Backing> {
    pub actor: u32,
    pub place: Place,
    /// how many pieces of the operation in work were carried out
    pub carried: u32,
    /// the call of the piece in work, from the turn of its first event on
    pub call: Option<Call<D>>,
    pub scratch: Scratch,
    pub replies: Vec<Reply>,
}

// The call of the next piece before its first event. The sectors of a write are put into `fresh`.
fn begun<D: Backing>(
    size: u32,
    now: u64,
    actor: u32,
    place: Place,
    ops: &[Op],
    fresh: &mut Page,
) -> Call<D>
    requires some { 0 < size }
    requires requests { AreRequests ops.now }
    requires few { length ops.now < 2 ^ 32 }
    requires more { place.nr < length ops.now }
    requires place { IsPlace ops.now place }
    requires settled { (backed : Bool) × IsSettled size backed ops.now place }
    ensures { (op : Op) → slice_get ops.now place.nr ≡ Some op
        → IsBegun size now (record { actor = actor; op = place.nr }) op place.page fresh.new result }
{
    let Place { nr, page, .. } = place;
    let tag = Tag {
        actor,
        op: nr as u32,
    };
    let op = &ops[nr];
    if op.is_beyond(size) {
        return Call::Page(PageCall::out_of_range());
    }
    match op {
        Op::Write {
            start,
            count,
            stuff,
        } => {
            let piece = op.piece_on(page);
            bring(*start, *count, stuff, piece, fresh);
            Call::Page(PageCall::write(piece, tag, now))
        }
        Op::Read { .. } => Call::Page(PageCall::read(op.piece_on(page), tag, now)),
        Op::Discard { .. } => Call::Page(PageCall::discard(op.piece_on(page), tag, now)),
        Op::Idle { age } => Call::Idle(IdleCall::new(size, now, *age)),
        Op::Writeback { mode } => Call::Writeback(WritebackCall::new(size, *mode)),
        Op::Compact => Call::Compact(CompactCall::new()),
    }
}

// Empties the place of a call that is over. It is a function of its own so that the other turns
// don't pay for the empty value, which is as great as a call.
fn clear<D: Backing>(call: &mut Option<Call<D>>)
    ensures { call.new ≡ None }
{
    *call = None;
}

impl<D: Backing> Worker<D> {
    /// Whether the actor has no piece left.
    pub fn is_done(&self, ops: &[Op]) -> bool
        ensures { result ≡ nat_le (length ops.now) self.now.place.nr }
    {
        self.place.nr >= ops.len()
    }

    // The piece in work is over: its reply has its end and its sectors, and the place goes on.
    fn finish(&mut self, size: u32, backed: bool, ops: &[Op], end: PieceEnd)
        requires { CanFinish size backed ops.now end self.old }
        ensures { Finishes size backed ops.now end self.old self.new }
    {
        let Place { nr, page, .. } = self.place;
        keep(
            &mut self.replies,
            nr,
            &ops[nr],
            page,
            end,
            self.carried,
            &self.scratch.page,
        );
        self.place = next_place(size, backed, ops, self.place, goes_on(end));
        self.carried = if self.place.nr == nr {
            self.carried + 1
        } else {
            0
        };
    }

    // Begins the next piece, whose call is put into its place. It is a function of its own so that
    // the other turns don't pay for the call, nor for the drop of what stood there.
    fn begin(&mut self, size: u32, now: u64, ops: &[Op])
        requires more { self.old.place.nr < length ops.now }
        requires none { self.old.call ≡ None }
        requires fit { (backed : Bool) × IsFit (terms_of size now self.old) backed ops.now self.old }
        ensures { (backed : Bool) → IsFit (terms_of size now self.old) backed ops.now self.old
            → HasBegun (terms_of size now self.old) backed ops.now self.old self.new }
    {
        let fresh = &mut self.scratch.fresh;
        self.call = Some(begun(size, now, self.actor, self.place, ops, fresh));
    }

    // One turn of the call in work, which stays in its place until it is over.
    fn go_on<H: Hand<Value = DiskHeld<D>>>(
        &mut self,
        size: u32,
        backed: bool,
        now: u64,
        ops: &[Op],
        hand: &mut H,
    ) -> Turn
        requires more { self.old.place.nr < length ops.now }
        requires begun { self.old.call ≢ None }
        requires fit { IsFit (terms_of size now self.old) backed ops.now self.old }
        requires allows { Allows H.can_take H.takes H.can_give (terms_of size now self.old) backed
            ops.now self.old hand.old }
        ensures fit { IsFit (terms_of size now self.old) backed ops.now self.new }
        ensures turn { (done : List Done) → Keeps backed ops.now self.old done
            → Advanced H.takes H.misses H.gives (terms_of size now self.old) backed
            ops.now self.old hand.old self.new hand.new result done }
    {
        calls_are_events::<D>();
        compactions_are_events();
        scans_are_events();
        writebacks_are_events::<D>();
        histories_go_on();
        match &mut self.call {
            Some(call) => match call.advance(hand, &mut self.scratch) {
                Progress::Moved => Turn::Went,
                Progress::Waits(lock) => Turn::Waited(lock),
                Progress::Done(end) => {
                    clear(&mut self.call);
                    self.finish(size, backed, ops, end);
                    Turn::Went
                }
            },
            None => unreachable!(),
        }
    }

    /// One turn of the actor, by this hand, on a disk of `size` pages, which has a backing or none, at the
    /// time `now`.
    pub fn advance<H: Hand<Value = DiskHeld<D>>>(
        &mut self,
        size: u32,
        backed: bool,
        now: u64,
        ops: &[Op],
        hand: &mut H,
    ) -> Turn
        requires fit { IsFit (terms_of size now self.old) backed ops.now self.old }
        requires allows { Allows H.can_take H.takes H.can_give (terms_of size now self.old) backed
            ops.now self.old hand.old }
        ensures fit { IsFit (terms_of size now self.old) backed ops.now self.new }
        ensures turn { (done : List Done) → Keeps backed ops.now self.old done
            → Advanced H.takes H.misses H.gives (terms_of size now self.old) backed
            ops.now self.old hand.old self.new hand.new result done }
    {
        if self.is_done(ops) {
            return Turn::Finished;
        }
        if self.call.is_some() {
            return self.go_on(size, backed, now, ops, hand);
        }
        self.begin(size, now, ops);
        self.go_on(size, backed, now, ops, hand)
    }
}
