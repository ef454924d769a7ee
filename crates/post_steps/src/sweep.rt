//! The events of a compaction, a function a stage.

ghost use Rattle.std.specs.Prelude.{◌≡◌, ◌≢◌, ℕ, ◌+◌, ◌<◌, Some, None};
ghost use Rattle.size_class.specs.Classes.{stands_of};
ghost use Rattle.page_steps.specs.Compactions.{budget_in, with_move, with_next};
ghost use Rattle.page_steps.specs.declared.stage.Progress.TheVariants as progress;
ghost use Rattle.page_steps.specs.declared.stage.PieceEnd.TheVariants as ends;
ghost use Rattle.post_steps.specs.declared.compact.CompactStage.TheVariants as stage;
ghost use Rattle.post_steps.specs.Compact.{IsReady, HasAdvanced, moved_by};

use crate::compact::{CompactStage, put};
use crate::nexts::{Begins, Shrinks};
use backing_dev::Backing;
use class_pool::{ClassPool, Moved, objects_move};
use lock_row::{Compaction, Hand, Held, LockNo};
use mem_account::{Account, Delta};
use page_steps::{DiskHeld, PieceEnd, Progress, Takes, account_of, give_by, pool_of};
use size_class::ClassTable;
use std::marker::Brand;

/// Takes the first class.
pub(crate) fn begin<D: Backing, H: Hand<Value = DiskHeld<D>>>(
    at: &mut CompactStage,
    table: &ClassTable,
    hand: &mut H,
) -> Progress
    requires at { at.old ≡ stage.Start }
    requires ready { IsReady H.can_take H.takes H.can_give table.now stage.Start hand.old }
    ensures { HasAdvanced H.takes H.misses H.gives table.now stage.Start hand.old at.new hand.new
        result }
{
    let lock = LockNo::Class(0);
    match hand.try_take::<Begins>(lock) {
        None => Progress::Waits(lock),
        Some(value) => {
            let first = Compaction {
                class: 0,
                budget: None,
                moves: 0,
                frames: 0,
            };
            put(at, CompactStage::Moving(first, pool_of(value)));
            Progress::Moved
        }
    }
}

/// Takes the class that it is at.
pub(crate) fn sweep<D: Backing, H: Hand<Value = DiskHeld<D>>>(
    x: Compaction,
    at: &mut CompactStage,
    table: &ClassTable,
    hand: &mut H,
) -> Progress
    requires at { at.old ≡ stage.Sweeping x }
    requires ready { IsReady H.can_take H.takes H.can_give table.now (stage.Sweeping x) hand.old }
    ensures { HasAdvanced H.takes H.misses H.gives table.now (stage.Sweeping x) hand.old at.new
        hand.new result }
{
    let lock = LockNo::Class(x.class);
    match hand.try_take::<Takes>(lock) {
        None => Progress::Waits(lock),
        Some(value) => {
            put(at, CompactStage::Moving(x, pool_of(value)));
            Progress::Moved
        }
    }
}

// How many objects of the class may still move: at first as many as the pool has.
fn budget_of(x: Compaction, pool: &ClassPool) -> u32
    ensures { result ≡ budget_in x pool.now }
{
    match x.budget {
        Some(budget) => budget,
        None => pool.used(),
    }
}

// The stage after a move that freed so many frames.
fn moved(x: Compaction, frames: u32) -> CompactStage
    ensures { result ≡ moved_by frames x }
{
    if frames == 0 {
        CompactStage::Sweeping(x)
    } else {
        CompactStage::Shrunk(x, frames)
    }
}

// Nothing is left to move in the class: it goes on to the next one that stands for itself, or is
// over after the last.
fn rested(x: Compaction, at: &mut CompactStage, table: &ClassTable) -> Progress
    requires { x.class < 255 }
    ensures over { x.class ≡ 254 → (at.new ≡ stage.Over)
        × (result ≡ progress.Done (ends.Compacted x.moves x.frames)) }
    ensures next { x.class ≢ 254 → (at.new ≡ stage.Sweeping (with_next table.now x))
        × (result ≡ progress.Moved) × (x.class < stands_of table.now (x.class + 1))
        × (stands_of table.now (x.class + 1) < 255) }
{
    if x.class == 254 {
        let end = PieceEnd::Compacted {
            moves: x.moves,
            frames: x.frames,
        };
        put(at, CompactStage::Over);
        return Progress::Done(end);
    }
    let next = Compaction {
        class: table.stands_as(x.class + 1),
        budget: None,
        ..x
    };
    put(at, CompactStage::Sweeping(next));
    Progress::Moved
}

/// Moves an object of the class, or none, and gives the class.
pub(crate) fn move_one<D: Backing, H: Hand<Value = DiskHeld<D>>>(
    x: Compaction,
    pool: ClassPool,
    at: &mut CompactStage,
    table: &ClassTable,
    hand: &mut H,
) -> Progress
    requires { IsReady H.can_take H.takes H.can_give table.now (stage.Moving x pool) hand.old }
    ensures { HasAdvanced H.takes H.misses H.gives table.now (stage.Moving x pool) hand.old at.new
        hand.new result }
{
    objects_move();
    let lock = LockNo::Class(x.class);
    let mut owner = pool;
    let mut budget = budget_of(x, &owner);
    match owner.move_one(&mut budget) {
        Moved::Moved { frames } => {
            let next = Compaction {
                budget: Some(budget),
                moves: x.moves + 1,
                ..x
            };
            give_by::<D, H, Brand, u32, u32, LockNo>(
                hand,
                lock,
                Held::Class(owner),
                &budget,
                &frames,
                &lock,
            );
            put(at, moved(next, frames));
            Progress::Moved
        }
        Moved::Done => {
            give_by::<D, H, Brand, ClassTable, LockNo, LockNo>(
                hand,
                lock,
                Held::Class(owner),
                table,
                &lock,
                &lock,
            );
            rested(x, at, table)
        }
    }
}

/// Takes the account.
pub(crate) fn owe<D: Backing, H: Hand<Value = DiskHeld<D>>>(
    x: Compaction,
    frames: u32,
    at: &mut CompactStage,
    table: &ClassTable,
    hand: &mut H,
) -> Progress
    requires at { at.old ≡ stage.Shrunk x frames }
    requires ready { IsReady H.can_take H.takes H.can_give table.now (stage.Shrunk x frames) hand.old }
    ensures { HasAdvanced H.takes H.misses H.gives table.now (stage.Shrunk x frames) hand.old
        at.new hand.new result }
{
    let lock = LockNo::Account;
    match hand.try_take::<Takes>(lock) {
        None => Progress::Waits(lock),
        Some(value) => {
            put(at, CompactStage::Shrinking(x, frames, account_of(value)));
            Progress::Moved
        }
    }
}

/// Gives the frames back and counts them, and gives the account.
pub(crate) fn shrink<D: Backing, H: Hand<Value = DiskHeld<D>>>(
    x: Compaction,
    frames: u32,
    account: Account,
    at: &mut CompactStage,
    table: &ClassTable,
    hand: &mut H,
) -> Progress
    requires { IsReady H.can_take H.takes H.can_give table.now (stage.Shrinking x frames account)
        hand.old }
    ensures { HasAdvanced H.takes H.misses H.gives table.now (stage.Shrinking x frames account)
        hand.old at.new hand.new result }
{
    let mut after = account;
    after.give_back(frames as u64);
    after.count(Delta::Compacted(frames));
    hand.give::<Shrinks>(LockNo::Account, Held::Account(after));
    let next = Compaction {
        frames: x.frames + frames as u64,
        ..x
    };
    put(at, CompactStage::Sweeping(next));
    Progress::Moved
}
