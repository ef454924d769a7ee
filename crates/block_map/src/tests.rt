//! A map filled and emptied, and the writeback limit's edges, worked out by hand.

use crate::{Blocks, Reserve};
use std::test::Fail;

#[test]
fn blocks_are_reserved_in_order(rt: HostRuntime) -> Result<(), Fail> {
    for blocks in [0, 1, 2, 3, 5, 8, 65] {
        let mut map = Blocks::new(rt.alloc(), blocks)?;
        for block in 0..blocks {
            assert_eq!(rt; map.reserve(), Reserve::Got(block), "of {blocks}");
        }
        assert_eq!(rt; map.reserve(), Reserve::NoBlock, "of {blocks}");
        assert_eq!(rt; map.owned(), 0, "of {blocks}");
    }
    Ok(())
}

#[test]
fn released_blocks_come_again(rt: HostRuntime) -> Result<(), Fail> {
    let mut map = Blocks::new(rt.alloc(), 3)?;
    let Reserve::Got(first) = map.reserve() else {
        return Err("no block".into());
    };
    map.commit(first);
    assert_eq!(rt; map.owned(), 1);
    assert_eq!(rt; map.reserve(), Reserve::Got(1));
    map.release(first);
    assert_eq!(rt; map.owned(), 0);
    assert_eq!(rt; map.reserve(), Reserve::Got(0));
    Ok(())
}

#[test]
fn an_enabled_limit_pays_for_each_reservation(rt: HostRuntime) -> Result<(), Fail> {
    let mut map = Blocks::new(rt.alloc(), 2)?;
    map.set_enable(true);
    assert_eq!(rt; map.reserve(), Reserve::BudgetSpent);
    map.set_limit(1);
    let Reserve::Got(first) = map.reserve() else {
        return Err("no block".into());
    };
    map.release(first);
    assert_eq!(rt; map.reserve(), Reserve::BudgetSpent);
    map.set_enable(false);
    assert_eq!(rt; map.reserve(), Reserve::Got(0));
    Ok(())
}
