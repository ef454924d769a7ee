//! The first event of a call: it takes its page's slot, or the account for a request beyond the
//! disk.

ghost use Rattle.std.specs.Prelude.{◌≡◌, None, false, true};
ghost use Rattle.page_steps.specs.declared.stage.Stage.TheVariants as stage;
ghost use Rattle.page_steps.specs.Fits.{HasPlace};
ghost use Rattle.page_steps.specs.Calls.{IsWithin, is_count, is_write, read_by, discard_by};
ghost use Rattle.page_steps.specs.Turns.{IsReady, HasAdvanced, HasEntered, HasOld};

use crate::forms::{formed, merge};
use crate::nexts::{Asks, Enters, Refuses, Takes};
use crate::stage::{DiskHeld, Due, Head, Own, PieceEnd, Progress, Scratch, Stage, Work};
use crate::values::{account_of, entry_of};
use backing_dev::Backing;
use lock_row::{Hand, Held, LockNo};
use mem_account::{Account, Delta};
use slot_entry::{Entry, Kept, expand};

// A page that wasn't read.
fn unread(entry: Entry) -> Own
    ensures { result ≡ record { entry = entry; lent = None; read = false } }
{
    Own {
        entry,
        lent: None,
        read: false,
    }
}

// A read has its page's slot.
fn entered_read<D: Backing>(entry: Entry) -> Stage<D>
    ensures is { result ≡ read_by entry entry.kept }
{
    match entry.kept() {
        Kept::Obj(object) => Stage::Seen(entry, object),
        Kept::Wb(block) => Stage::Away(entry, block),
        _ => Stage::Plain(entry),
    }
}

// A discard has its page's slot.
fn entered_discard<D: Backing>(entry: Entry) -> Stage<D>
    ensures is { result ≡ discard_by entry entry.kept }
{
    match entry.kept() {
        Kept::Empty => Stage::Ready(
            Due {
                entry,
                read: false,
                next: Kept::Empty,
            },
            None,
            None,
        ),
        Kept::Same(_) => Stage::Owing(
            Due {
                entry,
                read: false,
                next: Kept::Empty,
            },
            0,
            None,
        ),
        Kept::Obj(object) => Stage::Old(unread(entry), object, Kept::Empty),
        Kept::Wb(block) => Stage::Backed(unread(entry), block, Kept::Empty),
    }
}

// A write has its page's slot, and the sectors of the old page that it leaves are known.
fn written<D: Backing>(head: Head, entry: Entry, scratch: &mut Scratch) -> Stage<D>
    requires write { is_write head.work ≡ true }
    requires within { IsWithin head.piece }
    requires place { HasPlace entry }
    requires old { HasOld head.piece scratch.old.page entry.kept }
    ensures { HasEntered head scratch.old entry scratch.new result }
{
    merge(head.piece, &scratch.page, &mut scratch.fresh);
    formed(head, unread(entry), scratch)
}

// A write has its page's slot. Where it has a part of the page, the other sectors come from the old
// page: this is
// read from its cell or from the device first, or stands as a word.
fn entered_write<D: Backing>(head: Head, entry: Entry, scratch: &mut Scratch) -> Stage<D>
    requires write { is_write head.work ≡ true }
    requires within { IsWithin head.piece }
    requires place { HasPlace entry }
    ensures { HasEntered head scratch.old entry scratch.new result }
{
    if head.piece.count == 8 {
        return written(head, entry, scratch);
    }
    match entry.kept() {
        Kept::Obj(object) => Stage::Seen(entry, object),
        Kept::Wb(block) => Stage::Away(entry, block),
        kept => {
            expand(kept, &mut scratch.page);
            written(head, entry, scratch)
        }
    }
}

// The piece has its page's slot.
fn entered<D: Backing>(head: Head, entry: Entry, scratch: &mut Scratch) -> Stage<D>
    requires piece { is_count head.work ≡ false }
    requires within { IsWithin head.piece }
    requires place { HasPlace entry }
    ensures { HasEntered head scratch.old entry scratch.new result }
{
    match head.work {
        Work::Reads => entered_read(entry),
        Work::Writes => entered_write(head, entry, scratch),
        Work::Discards => entered_discard(entry),
        Work::Counts => unreachable!(),
    }
}

/// Takes the slot.
pub(crate) fn start<D: Backing, H: Hand<Value = DiskHeld<D>>>(
    head: Head,
    hand: &mut H,
    scratch: &mut Scratch,
) -> (Stage<D>, Progress)
    requires { IsReady H.can_take H.takes H.can_give {D = D} head scratch.old stage.Start hand.old }
    ensures { HasAdvanced H.takes H.misses H.gives head scratch.old stage.Start hand.old
        scratch.new result.0 hand.new result.1 }
{
    let lock = LockNo::Slot(head.piece.page);
    match hand.try_take::<Enters>(lock) {
        None => (Stage::Start, Progress::Waits(lock)),
        Some(value) => (entered(head, entry_of(value), scratch), Progress::Moved),
    }
}

/// Takes the account for a request beyond the disk.
pub(crate) fn beyond<D: Backing, H: Hand<Value = DiskHeld<D>>>(
    head: Head,
    hand: &mut H,
    scratch: &Scratch,
) -> (Stage<D>, Progress)
    requires { IsReady H.can_take H.takes H.can_give {D = D} head scratch.now stage.Beyond hand.old }
    ensures { HasAdvanced H.takes H.misses H.gives head scratch.now stage.Beyond hand.old
        scratch.now result.0 hand.new result.1 }
{
    let lock = LockNo::Account;
    match hand.try_take::<Asks>(lock) {
        None => (Stage::Beyond, Progress::Waits(lock)),
        Some(value) => (Stage::Refusing(account_of(value)), Progress::Moved),
    }
}

/// Counts a request beyond the disk.
pub(crate) fn refuse_request<D: Backing, H: Hand<Value = DiskHeld<D>>>(
    head: Head,
    account: Account,
    hand: &mut H,
    scratch: &Scratch,
) -> (Stage<D>, Progress)
    requires { IsReady H.can_take H.takes H.can_give {D = D} head scratch.now (stage.Refusing account)
        hand.old }
    ensures { HasAdvanced H.takes H.misses H.gives head scratch.now (stage.Refusing account)
        hand.old scratch.now result.0 hand.new result.1 }
{
    let mut after = account;
    after.count(Delta::InvalidIo);
    hand.give::<Refuses>(LockNo::Account, Held::Account(after));
    (Stage::Over, Progress::Done(PieceEnd::Range))
}
