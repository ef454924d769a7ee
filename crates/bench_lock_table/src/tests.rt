ghost use Rattle.std.specs.Prelude.{◌≡◌};
ghost use Rattle.lock_row.specs.declared.names.LockNo.TheVariants.{Account};
ghost use Rattle.bench_lock_table.specs.Tagging.{next_tag};
ghost use Rattle.bench_lock_table.specs.Ready.{IsReady, IsSame};

use crate::rows::{Locks, Made, make, run};
use crate::turns::{Row, TagHand, give, give_tagged, take};
use crate::values::new_values;
use lock_row::LockNo;
use lock_table::shut;
use std::alloc::AllocError;
use std::test::Fail;
use zr_base::{PageIx, Tag};

// The last tag of a lock, or None where the lock is held.
fn last_tag(row: &Row, hand: &mut TagHand, lock: LockNo) -> Option<Option<Tag>>
    requires { IsReady row.now hand.old lock }
    ensures ready { IsReady row.now hand.new lock }
    ensures same { IsSame hand.old hand.new }
{
    let tags = take(row, hand, lock)?;
    let last = tags.as_slice().last().copied();
    give(row, hand, lock, tags);
    Some(last)
}

// While the first has the slot, the second tries it, and the third tries the account. Then the
// first gives the slot back
// with a tag, and the second tries it again.
fn probe(
    row: &Row,
    one: &mut TagHand,
    two: &mut TagHand,
    three: &mut TagHand,
    slot: LockNo,
    tag: Tag,
) -> Result<[Option<Option<Tag>>; 3], AllocError>
    requires one { IsReady row.now one.old slot }
    requires tag { next_tag one.old.local ≡ tag }
    requires two { IsReady row.now two.old slot }
    requires three { IsReady row.now three.old Account }
    ensures one { IsReady row.now one.new slot × IsSame one.old one.new }
    ensures two { IsReady row.now two.new slot × IsSame two.old two.new }
    ensures three { IsReady row.now three.new Account × IsSame three.old three.new }
{
    let Some(mut tags) = take(row, one, slot) else {
        return Ok([None; 3]);
    };
    let missed = last_tag(row, two, slot);
    let other = last_tag(row, three, LockNo::Account);
    if tags.push(tag).is_err() {
        give(row, one, slot, tags);
        return Err(AllocError);
    }
    give_tagged(row, one, slot, tags);
    Ok([missed, other, last_tag(row, two, slot)])
}

#[test]
fn two_hands_exclude_one_another(rt: HostRuntime) -> Result<(), Fail> {
    let slot = LockNo::Slot(PageIx(0));
    let account = LockNo::Account;
    let locks = Locks {
        one: slot,
        two: slot,
        three: account,
        four: account,
    };
    let values = new_values(rt.alloc(), 1)?;
    let Ok(made) = make(rt.alloc(), values, &locks) else {
        panic!(rt; "there was no memory for the row")
    };
    let Made {
        row,
        mut hands,
        mut one,
        mut two,
        mut three,
        four,
    } = made;
    let tag = Tag { actor: 0, op: 0 };
    let found = probe(&row, &mut one, &mut two, &mut three, slot, tag);
    hands.push(one);
    hands.push(two);
    hands.push(three);
    hands.push(four);
    let values = shut(row, hands);
    assert!(rt; found == Ok([None, Some(None), Some(Some(tag))]));
    assert!(rt; values.len() == 2);
    assert!(rt; values[1].0 == slot && values[1].1.as_slice() == [tag].as_slice());
    Ok(())
}

#[test]
fn two_threads_add_to_one_slot(rt: HostRuntime) -> Result<(), Fail> {
    let slot = LockNo::Slot(PageIx(0));
    let locks = Locks {
        one: slot,
        two: slot,
        three: LockNo::Account,
        four: LockNo::Account,
    };
    let values = new_values(rt.alloc(), 1)?;
    let Ok((values, enough)) = run(&rt, rt.alloc(), values, &locks, [1000, 1000, 0, 0], true) else {
        panic!(rt; "there was no memory for the row")
    };
    assert!(rt; enough && values.len() == 2);
    let mut next = [0u32; 2];
    for tag in values[1].1.as_slice() {
        let actor = tag.actor as usize;
        assert!(rt; actor < 2);
        assert!(rt; tag.op == next[actor] && tag.op < 1000);
        next[actor] = tag.op + 1;
    }
    assert!(rt; next == [1000, 1000]);
    Ok(())
}
