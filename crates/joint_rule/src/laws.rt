//! What the rule of pages, pools and the account gives, whatever the turns are. Each law is a
//! function whose body calls the laws that it rests on: who wants it calls it, and has its clauses.

ghost use Rattle.joint_rule.specs.Facts.{Facts};
ghost use Rattle.joint_rule.specs.Laws.{StartHasRule, TurnKeepsRule, ReachedHasRule, NobodyWaitsForever, TakesLock, GivesLock, TakenValueFits, ObjectsAreFew, CompactedIsFew, CommitKeepsPage, CommitHasBlock, LostHasOther, FinishedIsAtRest, FinishedAgrees, FinishedFinds, FinishedTallies, RestGoesOn, EntryGoesOn, NextIsProper, NewIsAtRest, RequestsAreProper, NewIsProper, NewCountsNothing, NewIsNew};

use backing_dev::{Dev, MemBacking};
use block_map::Blocks;
use call_history::{histories_go_on, pieces_keep};
use class_pool::{ClassPool, compactions_end, objects_move};
use lock_row::{Held, sums_move, totals_move};
use mem_account::Account;
use slot_entry::{Entry, forms_tell_pages, kept_bytes_have_one_page};

/// What a lock of a disk guards. The laws are of what is seen of it, which is the same for each
/// device.
type DiskHeld<D> = Held<Entry, ClassPool, Account, Blocks, Dev<D>>;

/// What the rule rests on.
fn lower_laws()
    ensures { Facts }
{
    totals_move::<DiskHeld<MemBacking>>();
    sums_move::<DiskHeld<MemBacking>>();
    pieces_keep();
    histories_go_on();
    objects_move();
    compactions_end();
    kept_bytes_have_one_page();
    forms_tell_pages();
}

/// The state before the first turn has the rule, each turn keeps it, and so each state has it that
/// is reached from one that does. Where some actor isn't finished, some actor can move.
pub fn rule_keeps()
    ensures start { StartHasRule }
    ensures turn { TurnKeepsRule }
    ensures reached { ReachedHasRule }
    ensures free { NobodyWaitsForever }
{
    lower_laws();
}

/// What an actor takes or gives next is a lock of the disk, and what it gives is out.
pub fn locks_are_of_the_disk()
    ensures takes { TakesLock }
    ensures gives { GivesLock }
{
    lower_laws();
}

/// The value that an actor's next taking takes fits the actor's stage, and there are few objects, in a
/// class that is compacted too.
pub fn values_fit()
    ensures fits { TakenValueFits }
    ensures few { ObjectsAreFew }
    ensures compacted { CompactedIsFew }
{
    lower_laws();
}

/// What a writeback commits is what its page holds, and its block has it; and one that has lost its
/// mark finds another actor's call in the page's order.
///
/// The shortest interleaving that a commit without this test breaks: a writeback marks a page and gives
/// its slot, another actor writes the page, and the writeback takes the slot again: its copy is the old
/// page. The other side of the test is the access of a page, which removes the mark
/// (`Entry::accessed` of `slot_entry`).
pub fn writebacks_keep_pages()
    ensures commit { CommitKeepsPage }
    ensures block { CommitHasBlock }
    ensures lost { LostHasOther }
{
    lower_laws();
}

/// A finished phase is at rest, its histories agree with its orders, its account tells the rest of
/// the plain disk, and the next phase begins there.
pub fn phases_go_on()
    ensures rest { FinishedIsAtRest }
    ensures agree { FinishedAgrees }
    ensures finds { FinishedFinds }
    ensures tallies { FinishedTallies }
    ensures next { RestGoesOn }
    ensures entry { EntryGoesOn }
    ensures proper { NextIsProper }
{
    lower_laws();
}

/// A new disk is at rest, and its first phase may begin.
pub fn disks_begin()
    ensures rest { NewIsAtRest }
    ensures proper { RequestsAreProper }
    ensures new { NewIsProper }
    ensures account { NewCountsNothing }
    ensures plain { NewIsNew }
{}
