//! The steps of a hand on a row of tags.

ghost use Rattle.std.specs.Prelude.{◌≡◌, ◌∷◌, [], ◌++◌, MatchOption};
ghost use Rattle.bench_lock_table.specs.Tagging.{next_tag, tagged};
ghost use Rattle.bench_lock_table.specs.Ready.{IsReady, Has, IsSame};

use crate::tags::{Gave, Tagged, Tagging, Tags, Took};
use lock_row::{Hand, LockNo};
use lock_table::{TableHand, TableRow};

pub type Row = TableRow<Tags, Tagging>;

pub type TagHand = TableHand<Tags, Tagging>;

/// Takes the lock of the hand's actor.
pub fn take(row: &Row, hand: &mut TagHand, lock: LockNo) -> Option<Tags>
    requires { IsReady row.now hand.old lock }
    ensures got { MatchOption result (IsReady row.now hand.new lock) (λ v. Has row.now hand.new lock v) }
    ensures same { IsSame hand.old hand.new }
    ensures done { hand.new.local.done ≡ hand.old.local.done }
{
    let mut at = row.at(hand);
    at.try_take::<Took>(lock)
}

/// Gives the lock back with the tags as they were.
pub fn give(row: &Row, hand: &mut TagHand, lock: LockNo, tags: Tags)
    requires { Has row.now hand.old lock tags }
    ensures free { IsReady row.now hand.new lock }
    ensures same { IsSame hand.old hand.new }
    ensures done { hand.new.local.done ≡ hand.old.local.done }
{
    let mut at = row.at(hand);
    at.give::<Gave>(lock, tags);
}

/// Gives the lock back with the actor's next tag.
pub fn give_tagged(row: &Row, hand: &mut TagHand, lock: LockNo, tags: Tags)
    requires { (last : _) × Has row.now hand.old lock last × (tags ≡ last ++ next_tag hand.old.local ∷ []) }
    ensures free { IsReady row.now hand.new lock }
    ensures same { IsSame hand.old hand.new }
    ensures done { hand.new.local.done ≡ (tagged hand.old.local tags).done }
{
    let mut at = row.at(hand);
    at.give::<Tagged>(lock, tags);
}
