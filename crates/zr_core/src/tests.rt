//! A disk over a device in memory, and a phase of two actors, turn by turn.

ghost use Rattle.std.specs.Prelude.{◌≡◌, [], ◌∷◌, IfOk};

use crate::{BdStat, Turn, World};
use backing_dev::{Backing, MemBacking};
use lock_row::LockNo;
use std::alloc::{AllocError, Global};
use std::test::Fail;
use zr_base::{ActorOps, Op, PageIx, Stuff, Turns};

#[test]
fn makes_a_disk(rt: HostRuntime) -> Result<(), Fail> {
    let mut world = World::new(rt.alloc(), MemBacking::new(rt.alloc(), 0, &[], &[])?);
    assert_eq!(rt; world.pages(), 0);
    world.set_limit(3);
    assert_eq!(rt; world.mm_stat().limit, 12288);
    world.set_disk(2)?;
    assert_eq!(rt; world.pages(), 2);
    assert_eq!(rt; world.mm_stat().limit, 12288);
    assert_eq!(rt; world.class_stat(71), None);
    assert!(rt; world.entry(PageIx(1)).order().is_empty());
    world.lower_max();
    assert_eq!(rt; world.mm_stat().max, 0);
    Ok(())
}

#[test]
fn backs_a_disk(rt: HostRuntime) -> Result<(), Fail> {
    let mut world = World::new(rt.alloc(), MemBacking::new(rt.alloc(), 3, &[], &[])?);
    assert_eq!(rt; world.device_blocks(), 3);
    world.set_wb_limit(5);
    world.set_wb_enable(true);
    world.set_backing(2)?;
    world.set_disk(1)?;
    world.set_wb_limit(7);
    world.set_wb_enable(false);
    let none = BdStat {
        count: 0,
        reads: 0,
        writes: 0,
    };
    assert_eq!(rt; world.bd_stat(), none);
    assert_eq!(rt; world.close().blocks(), 3);
    Ok(())
}

fn operations(alloc: Global, op: Op) -> Result<ActorOps, AllocError>
    ensures { IfOk result (λ ops. ops ≡ op ∷ []) }
{
    let mut ops = ActorOps::new(alloc);
    match ops.push(op) {
        Ok(()) => Ok(ops),
        Err(_) => Err(AllocError),
    }
}

#[test]
fn runs_two_actors(rt: HostRuntime) -> Result<(), Fail> {
    let mut world = World::new(rt.alloc(), MemBacking::new(rt.alloc(), 0, &[], &[])?);
    world.set_disk(2)?;
    let write = Op::Write {
        start: 0,
        count: 16,
        stuff: Stuff::Fill(1),
    };
    let read = Op::Read {
        start: 0,
        count: 16,
    };
    let mut ops = Vec::new(rt.alloc());
    ops.push(operations(rt.alloc(), write)?)?;
    ops.push(operations(rt.alloc(), read)?)?;
    let mut phase = world.prepare(&ops, 0)?;
    assert_eq!(rt; world.step(&mut phase, &ops, 0), Turn::Went);
    assert_eq!(rt;
        world.step(&mut phase, &ops, 1),
        Turn::Waited(LockNo::Slot(PageIx(0)))
    );
    let turns = Turns { actor: 0, times: 1 };
    world.run(&mut phase, &ops, &[turns]);
    assert_eq!(rt; world.step(&mut phase, &ops, 1), Turn::Finished);
    assert_eq!(rt; world.mm_stat().same, 2);
    Ok(())
}
