//! The last events of pieces that leave their page as it was: reads, and refused writes.

ghost use Rattle.std.specs.Prelude.{◌≡◌, ◌≢◌};
ghost use Rattle.page_steps.specs.declared.stage.Stage.TheVariants as stage;
ghost use Rattle.page_steps.specs.declared.stage.Work.TheVariants as work;
ghost use Rattle.page_steps.specs.Fits.{HasPlace};
ghost use Rattle.page_steps.specs.Givings.{Notes};
ghost use Rattle.page_steps.specs.Turns.{IsReady, HasAdvanced};

use crate::nexts::{Fails, Reads};
use crate::stage::{DiskHeld, Head, PieceEnd, Progress, Scratch, Stage, Work};
use backing_dev::Backing;
use lock_row::{Hand, Held, LockNo};
use slot_entry::{Entry, expand};

// The entry of a page that was read.
fn noted(head: Head, entry: Entry) -> Entry
    requires { HasPlace entry }
    ensures { Notes head.now entry result entry.kept head.tag }
{
    let mut after = entry;
    after.accessed(head.now);
    after.note(head.tag);
    after
}

// The entry of a page that couldn't be read.
fn missed(head: Head, entry: Entry) -> Entry
    requires { HasPlace entry }
    ensures reads { head.work ≡ work.Reads → Notes head.now entry result entry.kept head.tag }
    ensures others { head.work ≢ work.Reads → result ≡ entry }
{
    match head.work {
        Work::Reads => noted(head, entry),
        _ => entry,
    }
}

/// Ends the read of a page that has no object.
pub(crate) fn leave_plain<D: Backing, H: Hand<Value = DiskHeld<D>>>(
    head: Head,
    entry: Entry,
    hand: &mut H,
    scratch: &mut Scratch,
) -> (Stage<D>, Progress)
    requires { IsReady H.can_take H.takes H.can_give {D = D} head scratch.old (stage.Plain entry) hand.old }
    ensures { HasAdvanced H.takes H.misses H.gives head scratch.old (stage.Plain entry) hand.old
        scratch.new result.0 hand.new result.1 }
{
    expand(entry.kept(), &mut scratch.page);
    let at = entry.order().len() as u32;
    hand.give::<Reads>(
        LockNo::Slot(head.piece.page),
        Held::Slot(noted(head, entry)),
    );
    (Stage::Over, Progress::Done(PieceEnd::Read { at }))
}

/// Ends the read of a page that was read from a cell or from the device.
pub(crate) fn leave<D: Backing, H: Hand<Value = DiskHeld<D>>>(
    head: Head,
    entry: Entry,
    hand: &mut H,
    scratch: &Scratch,
) -> (Stage<D>, Progress)
    requires { IsReady H.can_take H.takes H.can_give {D = D} head scratch.now (stage.Leaving entry)
        hand.old }
    ensures { HasAdvanced H.takes H.misses H.gives head scratch.now (stage.Leaving entry) hand.old
        scratch.now result.0 hand.new result.1 }
{
    let at = entry.order().len() as u32;
    hand.give::<Reads>(
        LockNo::Slot(head.piece.page),
        Held::Slot(noted(head, entry)),
    );
    (Stage::Over, Progress::Done(PieceEnd::Read { at }))
}

/// Ends a piece of which the device failed. A read stands in the page's order, and a write doesn't.
pub(crate) fn miss<D: Backing, H: Hand<Value = DiskHeld<D>>>(
    head: Head,
    entry: Entry,
    fault: u64,
    hand: &mut H,
    scratch: &Scratch,
) -> (Stage<D>, Progress)
    requires { IsReady H.can_take H.takes H.can_give {D = D} head scratch.now (stage.Missed entry fault)
        hand.old }
    ensures { HasAdvanced H.takes H.misses H.gives head scratch.now (stage.Missed entry fault)
        hand.old scratch.now result.0 hand.new result.1 }
{
    hand.give::<Fails>(
        LockNo::Slot(head.piece.page),
        Held::Slot(missed(head, entry)),
    );
    (Stage::Over, Progress::Done(PieceEnd::Eio { fault }))
}

/// Ends a refused piece.
pub(crate) fn refuse<D: Backing, H: Hand<Value = DiskHeld<D>>>(
    head: Head,
    entry: Entry,
    read: bool,
    end: PieceEnd,
    hand: &mut H,
    scratch: &Scratch,
) -> (Stage<D>, Progress)
    requires { IsReady H.can_take H.takes H.can_give {D = D} head scratch.now (stage.Refused entry read
        end) hand.old }
    ensures { HasAdvanced H.takes H.misses H.gives head scratch.now (stage.Refused entry read end)
        hand.old scratch.now result.0 hand.new result.1 }
{
    hand.give::<Fails>(LockNo::Slot(head.piece.page), Held::Slot(entry));
    (Stage::Over, Progress::Done(end))
}
