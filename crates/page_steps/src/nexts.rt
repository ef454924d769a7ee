//! The locals that follow a call's events. A hand is told which one stands after each event.

ghost use Rattle.std.specs.Prelude.{MatchOption};
ghost use Rattle.lock_row.specs.declared.names.Local.{Local};
ghost use Rattle.page_steps.specs.Steps.{DiskHeld};

use crate::stage::DiskHeld;
use backing_dev::Backing;
use lock_row::{Hand, LockNo, NextLocal};
use std::marker::{Brand, PhantomData};

/// A piece on the disk takes its slot.
pub(crate) struct Enters;

impl<D: Backing> NextLocal<DiskHeld<D>> for Enters {
    ghost use Rattle.page_steps.specs.Nexts.{entering};

    ghost next = { entering };
}

/// A request beyond the disk takes the account.
pub(crate) struct Asks;

impl<D: Backing> NextLocal<DiskHeld<D>> for Asks {
    ghost use Rattle.page_steps.specs.Turns.{asking};

    ghost next = { asking };
}

/// A taking within a piece, by the plan.
pub struct Takes;

impl<D: Backing> NextLocal<DiskHeld<D>> for Takes {
    ghost use Rattle.page_steps.specs.Steps.{took};
    ghost use Rattle.page_steps.specs.Turns.{no_terms};

    ghost next = { took no_terms };
}

/// A request beyond the disk was counted.
pub(crate) struct Refuses;

impl<D: Backing> NextLocal<DiskHeld<D>> for Refuses {
    ghost use Rattle.page_steps.specs.Nexts.{refusing};

    ghost next = { refusing };
}

/// The cell is back.
pub(crate) struct Unpins;

impl<D: Backing> NextLocal<DiskHeld<D>> for Unpins {
    ghost use Rattle.page_steps.specs.Nexts.{unpinning};

    ghost next = { unpinning };
}

/// A read is over.
pub(crate) struct Reads;

impl<D: Backing> NextLocal<DiskHeld<D>> for Reads {
    ghost use Rattle.page_steps.specs.Nexts.{reading};

    ghost next = { reading };
}

/// A refused piece is over.
pub(crate) struct Fails;

impl<D: Backing> NextLocal<DiskHeld<D>> for Fails {
    ghost use Rattle.page_steps.specs.Nexts.{failing};

    ghost next = { failing };
}

/// The class of a new object goes back.
pub(crate) struct Stows;

impl<D: Backing> NextLocal<DiskHeld<D>> for Stows {
    ghost use Rattle.page_steps.specs.Nexts.{stowing};

    ghost next = { stowing };
}

/// A class goes back in which no object was made.
pub(crate) struct Quits;

impl<D: Backing> NextLocal<DiskHeld<D>> for Quits {
    ghost use Rattle.page_steps.specs.Nexts.{quitting};

    ghost next = { quitting };
}

/// A piece that changed its page is over.
pub(crate) struct Puts;

impl<D: Backing> NextLocal<DiskHeld<D>> for Puts {
    ghost use Rattle.page_steps.specs.Nexts.{putting};

    ghost next = { putting };
}

/// A failure of the device was counted.
pub(crate) struct Counts;

impl<D: Backing> NextLocal<DiskHeld<D>> for Counts {
    ghost use Rattle.page_steps.specs.Nexts.{counting_failure};

    ghost next = { counting_failure };
}

/// A page's block was freed.
pub(crate) struct Releases;

impl<D: Backing> NextLocal<DiskHeld<D>> for Releases {
    ghost use Rattle.page_steps.specs.Nexts.{freeing};

    ghost next = { freeing 0 };
}

/// Names the local after an event by what the call chose in it. It has no method that runs: a call
/// tells its event at `Brand`, and names the local in its proof.
pub trait Chosen {
    ghost next: { Local DiskHeld → DiskHeld → Local DiskHeld };
}

impl Chosen for Brand {
    ghost next = { λ l v. l };
}

/// An event after which the chosen local stands.
pub struct Told<C: Chosen> {
    of: PhantomData<C>,
}

impl<C: Chosen, D: Backing> NextLocal<DiskHeld<D>> for Told<C> {
    ghost next = { C.next };
}

/// Takes a lock; the local after is named by the value beside, which is for the proof alone.
pub fn take_by<D: Backing, H: Hand<Value = DiskHeld<D>>, C: Chosen, A>(
    hand: &mut H,
    lock: LockNo,
    _a: &A,
) -> Option<DiskHeld<D>>
    requires { H.can_take hand.old lock C.next }
    ensures { MatchOption result (H.misses hand.old lock hand.new)
        (λ v. H.takes hand.old lock C.next v hand.new) }
{
    hand.try_take::<Told<C>>(lock)
}

/// Gives a lock; the local after is named by the values beside, which are for the proof alone.
pub fn give_by<D: Backing, H: Hand<Value = DiskHeld<D>>, C: Chosen, X, Y, Z>(
    hand: &mut H,
    lock: LockNo,
    value: DiskHeld<D>,
    _x: &X,
    _y: &Y,
    _z: &Z,
)
    requires { H.can_give hand.old lock C.next value }
    ensures { H.gives hand.old lock C.next value hand.new }
{
    hand.give::<Told<C>>(lock, value);
}
