//! The events of a new object: its class and the account are taken, it is charged and made, or
//! refused, and
//! its class goes back.

ghost use Rattle.std.specs.Prelude.{◌≡◌, ℕ, length, IfOk, OnErr};
ghost use Rattle.mem_account.specs.Counters.{counted};
ghost use Rattle.mem_account.specs.declared.weight.Delta.TheVariants as delta;
ghost use Rattle.class_pool.specs.Pool.{PoolHasRoom};
ghost use Rattle.lock_row.specs.declared.names.Held.TheVariants as holds;
ghost use Rattle.page_steps.specs.declared.stage.Stage.TheVariants as stage;
ghost use Rattle.page_steps.specs.declared.stage.Outcome.TheVariants as outcome;
ghost use Rattle.page_steps.specs.Pools.{IsNeed, Adds};
ghost use Rattle.page_steps.specs.Fits.{CanStore};
ghost use Rattle.page_steps.specs.Nexts.{denying};
ghost use Rattle.page_steps.specs.Calls.{IsRefusal, bytes_by, end_of, quit_by};
ghost use Rattle.page_steps.specs.Turns.{IsReady, HasAdvanced, GivesAs};

use crate::forms::settled;
use crate::nexts::{Quits, Stows, Takes, give_by, take_by};
use crate::stage::{DiskHeld, Head, Lent, New, Outcome, Own, PieceEnd, Progress, Scratch, Stage};
use crate::values::{account_of, pool_of};
use backing_dev::Backing;
use class_pool::ClassPool;
use lock_row::{Hand, Held, LockNo};
use mem_account::{Account, Charge, Delta};
use slot_entry::{Entry, Kept, Stored};
use std::alloc::AllocError;
use std::marker::Brand;
use zr_base::Handle;

/// Takes the class of the new object.
pub(crate) fn want<D: Backing, H: Hand<Value = DiskHeld<D>>>(
    head: Head,
    own: Own,
    new: New,
    hand: &mut H,
    scratch: &Scratch,
) -> (Stage<D>, Progress)
    requires { IsReady H.can_take H.takes H.can_give {D = D} head scratch.now (stage.Wanting own new)
        hand.old }
    ensures { HasAdvanced H.takes H.misses H.gives head scratch.now (stage.Wanting own new)
        hand.old scratch.now result.0 hand.new result.1 }
{
    let lock = LockNo::Class(new.class);
    match take_by::<D, H, Brand, New>(hand, lock, &new) {
        None => (Stage::Wanting(own, new), Progress::Waits(lock)),
        Some(value) => (Stage::Inside(own, new, pool_of(value)), Progress::Moved),
    }
}

/// Takes the account.
pub(crate) fn ask<D: Backing, H: Hand<Value = DiskHeld<D>>>(
    head: Head,
    own: Own,
    new: New,
    pool: ClassPool,
    hand: &mut H,
    scratch: &Scratch,
) -> (Stage<D>, Progress)
    requires { IsReady H.can_take H.takes H.can_give {D = D} head scratch.now (stage.Inside own new pool)
        hand.old }
    ensures { HasAdvanced H.takes H.misses H.gives head scratch.now (stage.Inside own new pool)
        hand.old scratch.now result.0 hand.new result.1 }
{
    let lock = LockNo::Account;
    match hand.try_take::<Takes>(lock) {
        None => (Stage::Inside(own, new, pool), Progress::Waits(lock)),
        Some(value) => (
            Stage::Both(own, new, pool, account_of(value)),
            Progress::Moved,
        ),
    }
}

// The bytes of the new object.
fn bytes_in(huge: bool, scratch: &Scratch) -> &[u8]
    ensures { result.now ≡ bytes_by scratch.now huge }
{
    if huge {
        scratch.fresh.bytes().as_slice()
    } else {
        &scratch.packed
    }
}

// The frames that a new object needs.
fn need_of(pool: &ClassPool) -> u32
    ensures { IsNeed pool.now result }
{
    if pool.room() { 0 } else { pool.chain() }
}

// Adds an object to a pool. Err is want of memory, for a new zspage.
fn add(pool: &mut ClassPool, bytes: &[u8]) -> Result<Handle, AllocError>
    requires { (chain : ℕ) × CanStore chain (length bytes.now) pool.old }
    ensures added { IfOk result (λ h. (need : ℕ) × IsNeed pool.old need
        × Adds pool.old pool.new h.0 bytes.now need) }
    ensures full { OnErr result (PoolHasRoom pool.old → ⊥) }
    ensures same { OnErr result (pool.new ≡ pool.old) }
{
    if pool.room() {
        Ok(pool.alloc(bytes))
    } else {
        pool.alloc_new(bytes)
    }
}

// Counts a failed write, and gives the account, of which nothing was charged.
fn deny<D: Backing, H: Hand<Value = DiskHeld<D>>>(
    head: Head,
    own: Own,
    new: New,
    pool: ClassPool,
    account: Account,
    end: PieceEnd,
    hand: &mut H,
    scratch: &Scratch,
) -> (Stage<D>, Progress)
    requires ready { IsReady H.can_take H.takes H.can_give {D = D} head scratch.now (stage.Both own new
        pool account) hand.old }
    requires refusal { IsRefusal end }
    requires gives { GivesAs {D = D} head scratch.now (stage.Both own new pool account) (denying (end_of
        end))
        (holds.Account (counted account delta.FailedWrite)) }
    ensures { HasAdvanced H.takes H.misses H.gives head scratch.now (stage.Both own new pool
        account) hand.old scratch.now result.0 hand.new result.1 }
{
    let mut after = account;
    after.count(Delta::FailedWrite);
    let lock = LockNo::Account;
    give_by::<D, H, Brand, PieceEnd, LockNo, LockNo>(
        hand,
        lock,
        Held::Account(after),
        &end,
        &lock,
        &lock,
    );
    (
        Stage::Made(own, new.class, pool, Outcome::Refused(end)),
        Progress::Moved,
    )
}

/// Charges the new object and makes it, and gives the account. Where it is refused, at the limit or
/// for want
/// of memory, the account is as before the charge, with a failed write.
pub(crate) fn charge<D: Backing, H: Hand<Value = DiskHeld<D>>>(
    head: Head,
    own: Own,
    new: New,
    pool: ClassPool,
    account: Account,
    hand: &mut H,
    scratch: &Scratch,
) -> (Stage<D>, Progress)
    requires { IsReady H.can_take H.takes H.can_give {D = D} head scratch.now (stage.Both own new pool
        account) hand.old }
    ensures { HasAdvanced H.takes H.misses H.gives head scratch.now (stage.Both own new pool
        account) hand.old scratch.now result.0 hand.new result.1 }
{
    let mut paid = account;
    let mut owner = pool;
    match paid.charge(need_of(&owner) as u64) {
        Charge::AtLimit { pages, need, limit } => {
            let end = PieceEnd::AtLimit { pages, need, limit };
            deny(head, own, new, owner, account, end, hand, scratch)
        }
        Charge::Charged => {
            let bytes = bytes_in(new.huge, scratch);
            let len = bytes.len() as u32;
            match add(&mut owner, bytes) {
                Err(_) => {
                    let want = PieceEnd::NoMemory;
                    deny(head, own, new, owner, account, want, hand, scratch)
                }
                Ok(handle) => {
                    let object = Stored {
                        class: new.class,
                        handle,
                        len,
                        huge: new.huge,
                    };
                    give_by::<D, H, Brand, Stored, ClassPool, Scratch>(
                        hand,
                        LockNo::Account,
                        Held::Account(paid),
                        &object,
                        &owner,
                        scratch,
                    );
                    (
                        Stage::Made(own, new.class, owner, Outcome::Object(object)),
                        Progress::Moved,
                    )
                }
            }
        }
    }
}

// Gives the class of the object that was made.
fn stow<D: Backing, H: Hand<Value = DiskHeld<D>>>(
    head: Head,
    own: Own,
    class: u8,
    pool: ClassPool,
    object: Stored,
    hand: &mut H,
    scratch: &Scratch,
) -> (Stage<D>, Progress)
    requires { IsReady H.can_take H.takes H.can_give {D = D} head scratch.now (stage.Made own class pool
        (outcome.Object object)) hand.old }
    ensures { HasAdvanced H.takes H.misses H.gives head scratch.now (stage.Made own class pool
        (outcome.Object object)) hand.old scratch.now result.0 hand.new result.1 }
{
    hand.give::<Stows>(LockNo::Class(class), Held::Class(pool));
    (settled(own, Kept::Obj(object)), Progress::Moved)
}

// A refused piece has nothing in the pool. What it has pinned is unpinned next.
fn quitted<D: Backing>(entry: Entry, read: bool, end: PieceEnd, lent: Option<Lent>) -> Stage<D>
    ensures { result ≡ quit_by entry read end lent }
{
    match lent {
        None => Stage::Refused(entry, read, end),
        Some(lent) => Stage::Pinned(entry, lent, Some(end)),
    }
}

// Gives the class in which no object was made.
fn quit<D: Backing, H: Hand<Value = DiskHeld<D>>>(
    head: Head,
    own: Own,
    class: u8,
    pool: ClassPool,
    end: PieceEnd,
    hand: &mut H,
    scratch: &Scratch,
) -> (Stage<D>, Progress)
    requires { IsReady H.can_take H.takes H.can_give {D = D} head scratch.now (stage.Made own class pool
        (outcome.Refused end)) hand.old }
    ensures { HasAdvanced H.takes H.misses H.gives head scratch.now (stage.Made own class pool
        (outcome.Refused end)) hand.old scratch.now result.0 hand.new result.1 }
{
    hand.give::<Quits>(LockNo::Class(class), Held::Class(pool));
    let Own { entry, lent, read } = own;
    (quitted(entry, read, end, lent), Progress::Moved)
}

/// Gives the class of the new object.
pub(crate) fn made<D: Backing, H: Hand<Value = DiskHeld<D>>>(
    head: Head,
    own: Own,
    class: u8,
    pool: ClassPool,
    outcome: Outcome,
    hand: &mut H,
    scratch: &Scratch,
) -> (Stage<D>, Progress)
    requires { IsReady H.can_take H.takes H.can_give {D = D} head scratch.now (stage.Made own class pool
        outcome) hand.old }
    ensures { HasAdvanced H.takes H.misses H.gives head scratch.now (stage.Made own class pool
        outcome) hand.old scratch.now result.0 hand.new result.1 }
{
    match outcome {
        Outcome::Object(object) => stow(head, own, class, pool, object, hand, scratch),
        Outcome::Refused(end) => quit(head, own, class, pool, end, hand, scratch),
    }
}
