//! Trials of a pool, whose objects go by their numbers: 0, 1, 2 and so on, as they came.

ghost use Rattle.std.specs.Prelude.{◌≡◌, ◌≢◌, ◌<◌, ℕ, length, Some, None, slice_set, IfOk};
ghost use Rattle.zspage.specs.Cells.{CellState, entry};
ghost use Rattle.zr_base.specs.declared.page.Handle.{Handle};
ghost use Rattle.class_pool.specs.Pool.{IsAtHome, IsLent};

use super::{ClassPool, Moved};
use size_class::{CLASSES, ClassStat, ClassTable, size};
use std::alloc::{AllocError, Global};
use std::marker::Model;
use std::process::Abort;
use std::snapshot::Snapshot;
use std::test::Fail;
use std::thread::{self, Promise, PromisedHandle, Threads};
use zr_base::Handle;
use zspage::Cell;

// Adds an object of so many bytes, in a new zspage where no cell is free.
fn add(rt: &impl Abort, pool: &mut ClassPool, alloc: Global, len: usize) -> Result<Handle, Fail>
    ensures home { IfOk result (λ h. IsAtHome pool.new h.0) }
    ensures others { (h : ℕ) → IsAtHome pool.old h → IsAtHome pool.new h }
{
    let bytes = vec![in alloc; 9; len]?;
    assert!(rt; pool.used() < 100);
    assert!(rt; bytes.len() + 8 <= pool.stat().size as usize);
    if pool.room() {
        Ok(pool.alloc(&bytes))
    } else {
        Ok(pool.alloc_new(&bytes)?)
    }
}

// Takes an object's handle off the list. No other object has it.
fn take(rt: &impl Abort, handles: &mut Vec<Option<Handle>>, number: usize) -> Handle
    ensures within { number < length handles.new.items }
    ensures was { entry handles.old.items number ≡ Some result }
    ensures others { (k : ℕ) (h : Handle) → entry handles.new.items k ≡ Some h
        → (entry handles.old.items k ≡ Some h) × (h.0 ≢ result.0) }
{
    assert!(rt; number < handles.len());
    let handle = handles[number].expect(rt, "the object is there");
    handles[number] = None;
    for other in handles.iter() {
        if let Some(other) = other {
            assert!(rt; other.0 != handle.0);
        }
    }
    handle
}

// Moves so many objects, or fewer where none may move. Gives the moves, and the frames of the
// zspages that were given up.
fn compact(pool: &mut ClassPool, most: u32) -> (u32, u32)
    ensures home { (h : ℕ) → IsAtHome pool.old h → IsAtHome pool.new h }
    ensures lent { (h : ℕ) (cell : CellState) → IsLent pool.old h cell → IsLent pool.new h cell }
{
    let mut budget = most;
    let mut moves = 0u32;
    let mut sum = 0u32;
    while let Moved::Moved { frames } = pool.move_one(&mut budget) {
        moves = moves.saturating_add(1);
        sum = sum.saturating_add(frames);
    }
    (moves, sum)
}

// What a thread sees of a cell: the bytes of its first part, the first byte of its object, and the
// first one of its second part.
type Seen = (usize, Option<u8>, Option<u8>);

// The cell that comes back from a thread is the one that went.
#[derive(Drop)]
struct Same(Snapshot<Cell>);

impl Promise<(Seen, Cell)> for Same {
    ghost kept_by = { λ p r. r.1 ≡ p.0.value };
}

// Reads a cell on another thread.
fn read(rt: &impl Threads, cell: Cell) -> Result<PromisedHandle<(Seen, Cell), Same>, Fail>
    ensures { IfOk result (λ child. child.promise.0.value ≡ cell) }
{
    let sent = thread::spawn_with(rt, Same(Snapshot::of(&cell)), move || {
        let (front, back) = cell.parts();
        let seen = (front.len(), front.get(8).copied(), back.first().copied());
        (seen, cell)
    });
    match sent {
        Ok(child) => Ok(child),
        Err(_) => Err(Fail::from(AllocError)),
    }
}

// What came to pass while a cell was on another thread: what it saw, the zspages of the next move,
// and the moves with the frames that came back.
#[derive(Clone, Copy)]
struct Beside {
    seen: Seen,
    next: Option<(u32, u32)>,
    moved: (u32, u32),
}

// Moves so many objects while the cell of an object is on another thread.
fn move_beside(
    rt: &impl Threads,
    pool: &mut ClassPool,
    handle: Handle,
    most: u32,
) -> Result<Beside, Fail>
    requires { IsAtHome pool.old handle.0 }
    ensures home { IfOk result (λ beside. IsAtHome pool.new handle.0) }
    ensures others { (h : ℕ) → h ≢ handle.0 → IsAtHome pool.old h → IsAtHome pool.new h }
{
    let cell = pool.pin(handle);
    let child = read(rt, cell)?;
    let next = pool.next_move();
    let moved = compact(pool, most);
    let (seen, cell) = child.join(rt);
    pool.unpin(handle, cell);
    Ok(Beside { seen, next, moved })
}

// A pool with the handles of its objects by their numbers, None for those that were freed. Each new
// object has so many bytes. Contracts see the pool.
#[derive(Drop)]
struct Trial {
    pool: ClassPool,
    handles: Vec<Option<Handle>>,
    alloc: Global,
    len: usize,
}

impl Model for Trial {
    ghost use Rattle.std.specs.Prelude.{ℕ, ◌≡◌, Some};
    ghost use Rattle.zr_base.specs.declared.page.Handle.{Handle};
    ghost use Rattle.zspage.specs.Cells.{entry};
    ghost use Rattle.class_pool.specs.Pool.{PoolState, IsAtHome};

    ghost Value = { PoolState };

    ghost view = { λ t. t.pool };

    ghost invariant = { λ t. (k : ℕ) (h : Handle) → entry t.handles.items k ≡ Some h
        → IsAtHome t.pool h.0 };
}

// The pool of a class.
fn pool_of(rt: &impl Abort, alloc: Global, class: u8) -> ClassPool {
    assert!(rt; class < CLASSES);
    let table = ClassTable::new(4);
    assert!(rt; table.stands_as(class) == class);
    ClassPool::new(
        alloc,
        class,
        size(class),
        table.chain(class),
        table.per(class),
    )
}

impl Trial {
    // A pool of a class, for objects of so many bytes.
    fn new(rt: &impl Abort, alloc: Global, class: u8, len: usize) -> Trial {
        Trial {
            pool: pool_of(rt, alloc, class),
            handles: Vec::new(alloc),
            alloc,
            len,
        }
    }

    fn add_one(&mut self, rt: &impl Abort) -> Result<(), Fail> {
        let handle = add(rt, &mut self.pool, self.alloc, self.len)?;
        self.handles.push(Some(handle))?;
        Ok(())
    }

    fn add(&mut self, rt: &impl Abort, count: u32) -> Result<(), Fail> {
        for _ in 0..count {
            self.add_one(rt)?;
        }
        Ok(())
    }

    fn free_one(&mut self, rt: &impl Abort, number: usize) -> u32 {
        let handle = take(rt, &mut self.handles, number);
        self.pool.free(handle)
    }

    // Frees the objects of some numbers, and gives the frames that came back.
    fn free(&mut self, rt: &impl Abort, from: usize, to: usize) -> u32 {
        let mut sum = 0u32;
        for number in from..to {
            sum = sum.saturating_add(self.free_one(rt, number));
        }
        sum
    }

    // Adds so many objects and then frees those of some numbers.
    fn change(&mut self, rt: &impl Abort, more: u32, from: usize, to: usize) -> Result<u32, Fail> {
        self.add(rt, more)?;
        Ok(self.free(rt, from, to))
    }

    fn move_beside<R: Abort + Threads>(
        &mut self,
        rt: &R,
        number: usize,
        most: u32,
    ) -> Result<Beside, Fail> {
        let handle = take(rt, &mut self.handles, number);
        let beside = move_beside(rt, &mut self.pool, handle, most)?;
        self.handles[number] = Some(handle);
        Ok(beside)
    }

    // The zspages of the next move, while an object may be out.
    fn next<R: Abort + Threads>(
        &mut self,
        rt: &R,
        out: Option<usize>,
    ) -> Result<Option<(u32, u32)>, Fail> {
        match out {
            Some(number) => Ok(self.move_beside(rt, number, 0)?.next),
            None => Ok(self.pool.next_move()),
        }
    }

    // Moves objects until none may move, while one may be out.
    fn compact<R: Abort + Threads>(
        &mut self,
        rt: &R,
        out: Option<usize>,
    ) -> Result<(u32, u32), Fail> {
        match out {
            Some(number) => Ok(self.move_beside(rt, number, 100)?.moved),
            None => Ok(compact(&mut self.pool, 100)),
        }
    }
}

// A pool of class 71 has so many objects and zspages, which are all in the fullness group at a place
// of the list, and maybe a free cell.
fn shows(rt: &impl Abort, pool: &ClassPool, used: u32, zspages: u32, at: usize, room: bool) {
    assert!(rt; at < 11);
    let mut groups = [0; 11];
    groups[at] = zspages;
    let stat = pool.stat();
    assert!(rt; stat.per == 7);
    assert!(rt; stat.used == used);
    assert!(rt; stat.zspages == zspages);
    assert!(rt; stat.groups == groups);
    assert!(rt; pool.used() == used);
    assert!(rt; pool.room() == room);
}

// Class 71 has cells of 1168 bytes in chains of 2 frames with 7 cells each.
fn fills(rt: &impl Abort, trial: &mut Trial) -> Result<(), Fail> {
    for (more, from, to, frames, used, zspages, at, room) in [
        (0, 0, 0, 0, 0, 0, 0, false),
        (1, 0, 0, 0, 1, 1, 1, true),
        (6, 0, 0, 0, 7, 1, 10, false),
        (0, 1, 7, 0, 1, 1, 1, true),
        (0, 0, 1, 2, 0, 0, 0, false),
    ] {
        assert!(rt; trial.change(rt, more, from, to)? == frames);
        shows(rt, &trial.pool, used, zspages, at, room);
    }
    Ok(())
}

#[test]
fn class_71(rt: HostRuntime) -> Result<(), Fail> {
    let mut trial = Trial::new(&rt, rt.alloc(), 71, 1120);
    fills(&rt, &mut trial)
}

fn chooses<R: Abort + Threads>(rt: &R, trial: &mut Trial) -> Result<(), Fail> {
    for (more, from, to, out, next) in [
        (0, 0, 0, None, None),
        (1, 0, 0, None, None),
        (4, 0, 0, None, None),
        (0, 1, 2, None, Some((2, 0))),
        (0, 3, 4, Some(4), Some((1, 0))),
        (0, 0, 0, None, Some((2, 0))),
    ] {
        trial.change(rt, more, from, to)?;
        assert!(rt; trial.next(rt, out)? == next);
    }
    Ok(())
}

// Class 126 has two cells of 2048 bytes in a frame. With one object in each of three zspages
// the first is the destination, and the last with its object at home the source.
#[test]
fn moves(rt: HostRuntime) -> Result<(), Fail> {
    let mut trial = Trial::new(&rt, rt.alloc(), 126, 2000);
    chooses(&rt, &mut trial)
}

// So many objects stay in the first zspage and two in the second one, of which the first may be out
// during the first of two compactions. These come to so many moves and frames.
fn compactions<R: Abort + Threads>(
    rt: &R,
    trial: &mut Trial,
    kept: usize,
    out: Option<usize>,
    wanted: [(u32, u32); 2],
) -> Result<(), Fail> {
    trial.change(rt, 9, kept, 7)?;
    assert!(rt; trial.compact(rt, out)? == wanted[0]);
    assert!(rt; trial.compact(rt, None)? == wanted[1]);
    assert!(rt; trial.move_beside(rt, 8, 0)?.seen.1 == Some(9));
    Ok(())
}

fn compacted<R: Abort + Threads>(
    rt: &R,
    alloc: Global,
    kept: usize,
    out: Option<usize>,
    wanted: [(u32, u32); 2],
) -> Result<(), Fail> {
    let mut trial = Trial::new(rt, alloc, 71, 1120);
    compactions(rt, &mut trial, kept, out, wanted)
}

#[test]
fn compacts(rt: HostRuntime) -> Result<(), Fail> {
    for (kept, out, wanted) in [
        // the emptiest zspage goes into the other one
        (1, None, [(1, 2), (0, 0)]),
        // on a tie the one with the lesser id stays
        (2, None, [(2, 2), (0, 0)]),
        (3, None, [(2, 2), (0, 0)]),
        // an object that is out stays where it is
        (3, Some(7), [(1, 0), (1, 2)]),
        // a full zspage takes no more
        (6, None, [(1, 0), (0, 0)]),
        (6, Some(7), [(1, 0), (0, 0)]),
    ] {
        compacted(&rt, rt.alloc(), kept, out, wanted)?;
    }
    Ok(())
}

fn lends<R: Abort + Threads>(rt: &R, trial: &mut Trial) -> Result<(), Fail> {
    trial.change(rt, 8, 4, 5)?;
    let beside = trial.move_beside(rt, 3, 1)?;
    assert!(rt; beside.moved == (1, 2));
    assert!(rt; beside.seen == (592, Some(9), Some(9)));
    assert!(rt; trial.free_one(rt, 3) == 0);
    Ok(())
}

// Cell 3 of class 71 lies over the border of the two frames. It is read on another thread while
// an object of another zspage moves into the cell beside it.
#[test]
fn a_cell_on_another_thread(rt: HostRuntime) -> Result<(), Fail> {
    let mut trial = Trial::new(&rt, rt.alloc(), 71, 1120);
    lends(&rt, &mut trial)
}
