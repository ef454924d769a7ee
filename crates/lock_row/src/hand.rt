//! Hands: how an actor takes and gives locks, one at a step.
//!
//! A hand is what an actor's steps know of the row: the steps are written once, for any hand, so
//! the same code
//! runs on one thread by turns and on threads that run freely. What is at a lock's place when a
//! step comes is
//! not the hand's to choose: `may_find` says what it may be, for a row of one thread the one thing
//! that is
//! there, for a row of several threads what the others may have left. A take that gives nothing has
//! found the
//! lock held, and a value that is given was there.

ghost use Rattle.std.specs.Prelude.{◌≡◌, Option, Some, None, MatchOption};
ghost use Rattle.lock_row.specs.declared.names.Local.{Local};
ghost use Rattle.lock_row.specs.declared.names.LockNo.{LockNo};

use crate::names::LockNo;

/// Names the local that stands after an event. It has no method that runs.
pub trait NextLocal<V> {
    // of the local before and of the value that is taken or given
    ghost next: { Local V → V → Local V };
}

/// Takes and gives the locks of a row for one actor.
pub trait Hand {
    type Value;

    // ---- what it holds and may find

    // The lock is out, and this hand may give it back.
    ghost holds: { Self → LockNo → Type 0 };

    // Its actor's local, where it tells one.
    ghost local: { Self → Option (Local Self.Value) };

    // What may stand at a lock's place at its next step: the value at home, or nothing where the
    // lock is held.
    ghost may_find: { Self → LockNo → Option Self.Value → Type 0 };

    // ---- the events that it allows, by the local after them, and what its steps leave

    ghost can_take: { Self → LockNo → (Local Self.Value → Self.Value → Local Self.Value) → Type 0 };

    ghost takes: { Self → LockNo → (Local Self.Value → Self.Value → Local Self.Value) → Self.Value → Self → Type 0 };

    ghost misses: { Self → LockNo → Self → Type 0 };

    ghost can_give: { Self → LockNo → (Local Self.Value → Self.Value → Local Self.Value) → Self.Value → Type 0 };

    ghost gives: { Self → LockNo → (Local Self.Value → Self.Value → Local Self.Value) → Self.Value → Self → Type 0 };

    // ---- the steps

    /// Takes the lock with its value. None comes only where the lock is held at this step.
    fn try_take<N: NextLocal<Self::Value>>(&mut self, lock: LockNo) -> Option<Self::Value>
        requires { can_take self.old lock N.next }
        ensures outcome { MatchOption result (misses self.old lock self.new)
            (λ v. takes self.old lock N.next v self.new) }
        ensures found { may_find self.old lock result };

    /// Gives the lock back with a value. Locks are given last in, first out.
    fn give<N: NextLocal<Self::Value>>(&mut self, lock: LockNo, value: Self::Value)
        requires { can_give self.old lock N.next value }
        ensures { gives self.old lock N.next value self.new };

    // ---- laws

    // What it holds is out, for itself as for all others.
    ghost held_is_out: { (h : Self) (k : LockNo) (x : Option Self.Value) → holds h k → may_find h k x → x ≡ None };

    // A take finds the value at home, and holds the lock then.
    ghost take_finds: { (h : Self) (k : LockNo) (f : Local Self.Value → Self.Value → Local Self.Value) (v : Self.Value) (g : Self) → takes h k f v g → may_find h k (Some v) };

    ghost take_holds: { (h : Self) (k : LockNo) (f : Local Self.Value → Self.Value → Local Self.Value) (v : Self.Value) (g : Self) → takes h k f v g → holds g k };

    // A miss finds the lock held, and changes neither what it holds nor its local.
    ghost miss_finds: { (h : Self) (k : LockNo) (g : Self) → misses h k g → may_find h k None };

    ghost miss_keeps: { (h : Self) (k : LockNo) (g : Self) → misses h k g → (m : LockNo) → holds h m → holds g m };

    ghost miss_stays: { (h : Self) (k : LockNo) (g : Self) → misses h k g → local g ≡ local h };

    // It gives what it holds alone.
    ghost give_holds: { (h : Self) (k : LockNo) (f : Local Self.Value → Self.Value → Local Self.Value) (v : Self.Value) → can_give h k f v → holds h k };

    // Where it tells its local, the one that was named stands after an event.
    ghost take_moves: { (h : Self) (k : LockNo) (f : Local Self.Value → Self.Value → Local Self.Value) (v : Self.Value) (g : Self) (l : Local Self.Value) → takes h k f v g → local h ≡ Some l → local g ≡ Some (f l v) };

    ghost give_moves: { (h : Self) (k : LockNo) (f : Local Self.Value → Self.Value → Local Self.Value) (v : Self.Value) (g : Self) (l : Local Self.Value) → gives h k f v g → local h ≡ Some l → local g ≡ Some (f l v) };
}

/// The event of no actor: the local stays.
pub struct Still;

impl<V> NextLocal<V> for Still {
    ghost next = { λ l v. l };
}
