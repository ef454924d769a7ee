//! Writing pages back: each page of the disk in rising order is taken; where it is to be written back,
//! a block is reserved, the page is copied from its object's cell, its slot is marked with the block and
//! given, the block is written, and the slot is taken again. Where the mark still stands, no other
//! actor's call came to the page meanwhile: the object is freed, and the block is the page's. Else the
//! block is freed.
//!
//! | Stage | Holds | Next event | Function | The event's work |
//! |---|---|---|---|---|
//! | `Start`, `Arriving` | | takes the page's slot | `start`, `arrive` | none |
//! | `Passing` | slot | gives the slot | `pass` | none; the page isn't written back |
//! | `Asking` | slot | takes the blocks | `ask` | none |
//! | `Reserving` | slot, blocks | gives the blocks | `reserve` | reserves one, or none |
//! | `Quitting` | slot | gives the slot | `quit` | none; it is over |
//! | `Seen` | slot | takes the class of the object | `see` | none |
//! | `Pinning` | slot, that class | gives the class | `pin` | pins the object, and copies the page |
//! | `Pinned` | slot, cell | takes that class | `regain` | none |
//! | `Unpinning` | slot, cell, that class | gives the class | `unpin` | unpins the object |
//! | `Marking` | slot | gives the slot | `mark` | marks the page with the block |
//! | `Flying` | | takes the device | `fly` | none |
//! | `Storing` | device | gives the device | `store` | writes the block, or fails |
//! | `Landing` | | takes the slot | `land` | none |
//! | `Won` | slot | takes the class of the object | `win` | none; its mark still stands |
//! | `Freeing` | slot, that class | gives the class | `free` | frees the object |
//! | `Backing` | slot | takes the blocks | `back` | none |
//! | `Committing` | slot, blocks | gives the blocks | `commit` | the block is the page's |
//! | `Owing` | slot | takes the account | `owe` | none |
//! | `Paying` | slot, account | gives the account | `pay` | repays frames, counts the page |
//! | `Putting` | slot | gives the slot | `put` | the page is kept in the block, without marks |
//! | `Losing` | slot | gives the slot | `lose` | removes its own mark, if that is left |
//! | `Undoing` | | takes the blocks | `undo` | none |
//! | `Releasing` | blocks | gives the blocks | `release` | frees the block |
//! | `Over` | | none | | |

ghost use Rattle.std.specs.Prelude.{◌≡◌};
ghost use Rattle.post_steps.specs.declared.writeback.WritebackStage.TheVariants as stage;
ghost use Rattle.post_steps.specs.Writeback.{IsFit, IsGoing, IsOnward, IsWork, here, next_event, IsReady, HasAdvanced};
ghost use Rattle.post_steps.specs.Turns.{Allows, Advanced};

use crate::copy::{mark, pin, regain, see, unpin};
use crate::evict::{back, commit, free, owe, pay, put, win};
use crate::flight::{fly, land, lose, release, store, undo};
use crate::visit::{arrive, ask, pass, quit, reserve, start};
use backing_dev::{Backing, Dev};
use block_map::Blocks;
use class_pool::ClassPool;
use lock_row::{Hand, Trip};
use mem_account::{Account, Weight};
use page_steps::{DiskHeld, Lent, PieceEnd, Progress, Scratch};
use slot_entry::{Entry, Stored};
use std::mem;
use zr_base::Mode;

/// What stays during a call: how many pages the disk has, and which of them are written back.
#[derive(Clone, Copy)]
pub struct WritebackHead {
    pub pages: u32,
    pub mode: Mode,
}

/// What a call is at, with the values that it holds. From `Seen` on the trip has a block.
#[derive(Drop)]
pub enum WritebackStage<D: Backing> {
    Start,
    Arriving(Trip),
    Passing(Trip, Entry),
    Asking(Trip, Entry, Stored),
    Reserving(Trip, Entry, Stored, Blocks),
    /// The last field is the end of the call.
    Quitting(Trip, Entry, PieceEnd),
    Seen(Trip, Entry, Stored),
    Pinning(Trip, Entry, Stored, ClassPool),
    Pinned(Trip, Entry, Lent),
    Unpinning(Trip, Entry, Lent, ClassPool),
    Marking(Trip, Entry),
    Flying(Trip),
    Storing(Trip, Dev<D>),
    /// The last field is the end of the call, where the device failed.
    Landing(Trip, Option<PieceEnd>),
    Won(Trip, Entry, Stored),
    Freeing(Trip, Entry, Stored, ClassPool),
    /// The frames that are to be given back, and what the account counts of the page.
    Backing(Trip, Entry, u32, Weight),
    Committing(Trip, Entry, u32, Weight, Blocks),
    Owing(Trip, Entry, u32, Weight),
    Paying(Trip, Entry, u32, Weight, Account),
    Putting(Trip, Entry),
    Losing(Trip, Entry, Option<PieceEnd>),
    Undoing(Trip, Option<PieceEnd>),
    Releasing(Trip, Option<PieceEnd>, Blocks),
    Over,
}

/// A call in work. The page that it copies stands in the scratch.
#[derive(Drop)]
pub struct WritebackCall<D: Backing> {
    pub head: WritebackHead,
    pub stage: WritebackStage<D>,
}

impl<D: Backing> WritebackCall<D> {
    /// Begins to write back the pages of a disk of so many, which has one at least: those that the
    /// mode takes.
    pub fn new(pages: u32, mode: Mode) -> WritebackCall<D>
        ensures { result ≡ record { head = record { pages = pages; mode = mode }; stage = stage.Start } }
    {
        WritebackCall {
            head: WritebackHead { pages, mode },
            stage: WritebackStage::Start,
        }
    }

    /// Makes the next event, or misses.
    pub fn advance<H: Hand<Value = DiskHeld<D>>>(
        &mut self,
        hand: &mut H,
        scratch: &mut Scratch,
    ) -> Progress
        requires going { IsGoing self.old.stage }
        requires fit { IsFit self.old.head self.old.stage }
        requires allows { Allows H.can_take H.takes H.can_give (IsWork self.old.head)
            (λ x. here x scratch.old self.old.stage) (next_event self.old.stage) hand.old }
        ensures head { self.new.head ≡ self.old.head }
        ensures fit { IsFit self.old.head self.new.stage }
        ensures turn { Advanced H.takes H.misses H.gives (IsWork self.old.head)
            (λ x. here x scratch.old self.old.stage) hand.old
            (λ x. here x scratch.new self.new.stage) hand.new result }
        ensures over { IsOnward result self.new.stage }
        ensures table { scratch.new.table ≡ scratch.old.table }
    {
        step(self.head, &mut self.stage, hand, scratch)
    }
}

// One event, or a miss, of a call that isn't over. The stage that it is at leaves its place for the
// next one, and nothing is left there to drop.
fn step<D: Backing, H: Hand<Value = DiskHeld<D>>>(
    head: WritebackHead,
    at: &mut WritebackStage<D>,
    hand: &mut H,
    scratch: &mut Scratch,
) -> Progress
    requires going { IsGoing at.old }
    requires ready { IsReady H.can_take H.takes H.can_give head scratch.old at.old hand.old }
    ensures { HasAdvanced H.takes H.misses H.gives head scratch.old at.old hand.old scratch.new
        at.new hand.new result }
{
    let (next, progress) = next_of(head, mem::replace(at, WritebackStage::Over), hand, scratch);
    mem::forget(mem::replace(at, next));
    progress
}

// The stage after one event, or after a miss.
fn next_of<D: Backing, H: Hand<Value = DiskHeld<D>>>(
    head: WritebackHead,
    at: WritebackStage<D>,
    hand: &mut H,
    scratch: &mut Scratch,
) -> (WritebackStage<D>, Progress)
    requires going { IsGoing at }
    requires ready { IsReady H.can_take H.takes H.can_give head scratch.old at hand.old }
    ensures { HasAdvanced H.takes H.misses H.gives head scratch.old at hand.old scratch.new
        result.0 hand.new result.1 }
{
    use WritebackStage as At;
    match at {
        At::Start => start(head, hand, scratch),
        At::Arriving(x) => arrive(head, x, hand, scratch),
        At::Passing(x, e) => pass(head, x, e, hand, scratch),
        At::Asking(x, e, object) => ask(head, x, e, object, hand, scratch),
        At::Reserving(x, e, object, map) => reserve(head, x, e, object, map, hand, scratch),
        At::Quitting(x, e, end) => quit(head, x, e, end, hand, scratch),
        At::Seen(x, e, object) => see(head, x, e, object, hand, scratch),
        At::Pinning(x, e, object, pool) => pin(head, x, e, object, pool, hand, scratch),
        At::Pinned(x, e, lent) => regain(head, x, e, lent, hand, scratch),
        At::Unpinning(x, e, lent, pool) => unpin(head, x, e, lent, pool, hand, scratch),
        At::Marking(x, e) => mark(head, x, e, hand, scratch),
        At::Flying(x) => fly(head, x, hand, scratch),
        At::Storing(x, device) => store(head, x, device, hand, scratch),
        At::Landing(x, end) => land(head, x, end, hand, scratch),
        At::Won(x, e, object) => win(head, x, e, object, hand, scratch),
        At::Freeing(x, e, object, pool) => free(head, x, e, object, pool, hand, scratch),
        At::Backing(x, e, frames, was) => back(head, x, e, frames, was, hand, scratch),
        At::Committing(x, e, frames, was, map) => commit(
            head, x, e, frames, was, map, hand, scratch,
        ),
        At::Owing(x, e, frames, was) => owe(head, x, e, frames, was, hand, scratch),
        At::Paying(x, e, frames, was, account) => pay(
            head, x, e, frames, was, account, hand, scratch,
        ),
        At::Putting(x, e) => put(head, x, e, hand, scratch),
        At::Losing(x, e, end) => lose(head, x, e, end, hand, scratch),
        At::Undoing(x, end) => undo(head, x, end, hand, scratch),
        At::Releasing(x, end, map) => release(head, x, end, map, hand, scratch),
        At::Over => unreachable!(),
    }
}
