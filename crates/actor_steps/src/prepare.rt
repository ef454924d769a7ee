//! The actors of a phase before their first turns: each has room for what its reads will tell.

ghost use Rattle.std.specs.Prelude.{◌≡◌, ◌+◌, ◌<◌, ◌≤◌, ◌^◌, [], ◌∷◌, ◌++◌, length, vec_len, vec_capacity, IfOk, OnOk};
ghost use Rattle.zr_base.specs.Plain.{IsRequest};
ghost use Rattle.actor_steps.specs.Places.{AreRequests, IsWork};
ghost use Rattle.actor_steps.specs.Preparing.{IsNewReply, AreNewReplies, IsNewWorker, AreNewWorkers};

use crate::place::{first_piece, settled};
use crate::reply::Reply;
use crate::worker::Worker;
use arrayvec::ArrayVec;
use backing_dev::Backing;
use page_steps::Scratch;
use size_class::ClassTable;
use std::alloc::{AllocError, Global};
use zr_base::{ActorOps, Op, OpEnd, Page};

// The reply of an operation, with room for what it will tell. One that does nothing has its end.
fn new_reply(alloc: Global, size: u32, backed: bool, op: &Op) -> Result<Reply, AllocError>
    requires { IsRequest op.now }
    ensures { IfOk result (IsNewReply size backed op.now) }
{
    let room = match op {
        Op::Read { count, .. } if !op.is_beyond(size) => *count as usize,
        _ => 0,
    };
    let sectors = Vec::with_capacity(alloc, room)?;
    let end = if op.is_void(backed) {
        OpEnd::NoBacking
    } else {
        OpEnd::Ok
    };
    Ok(Reply { end, sectors })
}

// The replies of an actor's operations.
fn new_replies(alloc: Global, size: u32, backed: bool, ops: &[Op]) -> Result<Vec<Reply>, AllocError>
    requires { AreRequests ops.now }
    ensures { IfOk result (λ replies. AreNewReplies size backed ops.now replies.items) }
{
    let mut replies = Vec::with_capacity(alloc, ops.len())?;
    for op in ops {
        replies.push_reserved(new_reply(alloc, size, backed, op)?);
    }
    Ok(replies)
}

// Adds an actor, as it is before its first turn.
fn push_worker<D: Backing>(
    alloc: Global,
    size: u32,
    backed: bool,
    chain: u32,
    ops: &[Op],
    workers: &mut Vec<Worker<D>>,
) -> Result<(), AllocError>
    requires requests { AreRequests ops.now }
    requires few { length ops.now < 2 ^ 32 }
    requires some { 0 < size }
    requires low { 4 ≤ chain }
    requires high { chain ≤ 16 }
    requires room { vec_len workers.old < vec_capacity workers.old }
    requires actors { vec_len workers.old < 2 ^ 32 }
    ensures len { OnOk result (vec_len workers.new ≡ vec_len workers.old + 1) }
    ensures capacity { OnOk result (vec_capacity workers.new ≡ vec_capacity workers.old) }
    ensures added { OnOk result ((w : Worker D)
        × IsNewWorker size backed chain (vec_len workers.old) ops.now w
        × (workers.new.items ≡ workers.old.items ++ w ∷ [])) }
{
    let replies = new_replies(alloc, size, backed, ops)?;
    let place = settled(size, backed, ops, first_piece(size, ops, 0));
    let scratch = Scratch {
        page: Page::zero(),
        fresh: Page::zero(),
        packed: ArrayVec::new(),
        table: ClassTable::new(chain),
    };
    workers.push_reserved(Worker {
        actor: workers.len() as u32,
        place,
        carried: 0,
        call: None,
        scratch,
        replies,
    });
    Ok(())
}

/// The actors of a phase before their first turns, on a disk of `size` pages, which has a backing or none,
/// and whose chains have at most `chain` frames.
pub fn new_workers<D: Backing>(
    alloc: Global,
    size: u32,
    backed: bool,
    chain: u32,
    ops: &[ActorOps],
) -> Result<Vec<Worker<D>>, AllocError>
    requires work { IsWork ops.now }
    requires some { 0 < length ops.now → 0 < size }
    requires low { 4 ≤ chain }
    requires high { chain ≤ 16 }
    ensures { IfOk result (λ workers. AreNewWorkers size backed chain ops.now workers.items) }
{
    let mut workers = Vec::with_capacity(alloc, ops.len())?;
    for actor in ops {
        push_worker(alloc, size, backed, chain, actor.as_slice(), &mut workers)?;
    }
    Ok(workers)
}
