//! The items of a job between its phases, one after the other, on one world; and the lines of a phase
//! that was run. The time that `clock` sets is no part of the world: each phase is set up at the time
//! that is set before it.

ghost use Rattle.std.specs.Prelude.{◌≡◌, ℕ, ◌<◌, ◌≤◌, ◌∷◌, [], length, take, slice_get, Some, IfErr};
ghost use Rattle.zr_base.specs.declared.limits.TheConstants.{MOST_ACTORS};
ghost use Rattle.zr_core.specs.Playing.{playing, lines_shown};
ghost use Rattle.zr_core.specs.Rests.{IsAtRest};
ghost use Rattle.zr_core.specs.Runs.{AllOver};
ghost use Rattle.zr_core.specs.States.{CanGoOn};
ghost use Rattle.job_text.specs.declared.job.Attr.TheVariants as attrs;
ghost use Rattle.job_text.specs.declared.job.Item.TheVariants as items;
ghost use Rattle.job_text.specs.Jobs.{MaySet};
ghost use Rattle.job_session.specs.Stepped.{disk_of};
ghost use Rattle.job_session.specs.Telling.{MayStand, NoPhases, StopCause, ItemsTold, LinesSent, ItemsSent};

use crate::io::send;
use crate::output::Output;
use crate::stop::Stop;
use crate::tell::{tell_phase, tell_report};
use backing_dev::Backing;
use job_print::Refusal;
use job_text::{Attr, Item};
use std::alloc::Global;
use zr_base::{ActorOps, Sink};
use zr_core::{Phase, World};

// The disk's size: it is refused where the disk has one.
fn set_size<K: Sink, D: Backing>(
    out: &mut Output<'_, K>,
    world: &mut World<D>,
    pages: u32,
) -> Result<(), Stop>
    requires may { MaySet (attrs.DiskPages pages) }
    requires rest { IsAtRest world.old.pages world.old.noted.items world.old.row.cells }
    ensures item { (clock : ℕ) → ItemsTold (disk_of clock world.old)
        (items.Attr (attrs.DiskPages pages) ∷ []) (disk_of clock world.new) out.old out.new result }
    ensures rest { IsAtRest world.new.pages world.new.noted.items world.new.row.cells }
{
    if world.pages() > 0 {
        return out.tell_refused(Refusal::DisksizeBusy);
    }
    world.set_disk(pages)?;
    Ok(())
}

// The blocks of the device: they are refused where the disk has its size, and else where the device
// has fewer.
fn set_backing<K: Sink, D: Backing>(
    out: &mut Output<'_, K>,
    world: &mut World<D>,
    blocks: u32,
) -> Result<(), Stop>
    requires may { MaySet (attrs.Backing blocks) }
    requires rest { IsAtRest world.old.pages world.old.noted.items world.old.row.cells }
    ensures item { (clock : ℕ) → ItemsTold (disk_of clock world.old)
        (items.Attr (attrs.Backing blocks) ∷ []) (disk_of clock world.new) out.old out.new result }
    ensures rest { IsAtRest world.new.pages world.new.noted.items world.new.row.cells }
{
    if world.pages() > 0 {
        return out.tell_refused(Refusal::BackingBusy);
    }
    if world.device_blocks() < blocks {
        return out.tell_refused(Refusal::BackingRange);
    }
    world.set_backing(blocks)?;
    Ok(())
}

// Sets an attribute, or tells why it is refused.
fn set_attr<K: Sink, D: Backing>(
    out: &mut Output<'_, K>,
    world: &mut World<D>,
    clock: &mut u64,
    attr: Attr,
) -> Result<(), Stop>
    requires may { MaySet attr }
    requires rest { IsAtRest world.old.pages world.old.noted.items world.old.row.cells }
    ensures item { ItemsTold (disk_of clock.old world.old) (items.Attr attr ∷ [])
        (disk_of clock.new world.new) out.old out.new result }
    ensures rest { IsAtRest world.new.pages world.new.noted.items world.new.row.cells }
{
    match attr {
        Attr::DiskPages(pages) => set_size(out, world, pages),
        Attr::LimitPages(pages) => {
            world.set_limit(pages);
            Ok(())
        }
        Attr::Backing(blocks) => set_backing(out, world, blocks),
        Attr::WritebackLimit(units) => {
            world.set_wb_limit(units);
            Ok(())
        }
        Attr::WritebackLimitEnable(on) => {
            world.set_wb_enable(on);
            Ok(())
        }
        Attr::Clock(seconds) => {
            *clock = seconds;
            Ok(())
        }
        Attr::LowerMax => {
            world.lower_max();
            Ok(())
        }
    }
}

// How many items stand before the first phase.
pub(crate) fn before_phase(job: &[Item]) -> usize
    ensures most { result ≤ length job.now }
    ensures none { NoPhases (take result job.now) }
    ensures next { result < length job.now
        → (text : _) × (slice_get job.now result ≡ Some (items.Phase text)) }
{
    for at in 0..job.len() {
        if let Item::Phase(_) = &job[at] {
            return at;
        }
    }
    job.len()
}

// An item that is no phase, with its lines.
fn run_item<K: Sink, D: Backing>(
    out: &mut Output<'_, K>,
    world: &mut World<D>,
    clock: &mut u64,
    item: &Item,
) -> Result<(), Stop>
    requires may { MayStand world.old.pages clock.old (item.now ∷ []) }
    requires none { NoPhases (item.now ∷ []) }
    requires rest { IsAtRest world.old.pages world.old.noted.items world.old.row.cells }
    ensures item { ItemsTold (disk_of clock.old world.old) (item.now ∷ [])
        (disk_of clock.new world.new) out.old out.new result }
    ensures rest { IsAtRest world.new.pages world.new.noted.items world.new.row.cells }
{
    match item {
        Item::Attr(attr) => set_attr(out, world, clock, *attr),
        Item::Report(report) => tell_report(out, world, *report),
        Item::Phase(_) => unreachable!(),
    }
}

// Items that are no phases, with their lines, from this time on.
fn run_items<K: Sink, D: Backing>(
    out: &mut Output<'_, K>,
    world: &mut World<D>,
    clock: &mut u64,
    job: &[Item],
) -> Result<(), Stop>
    requires may { MayStand world.old.pages clock.old job.now }
    requires none { NoPhases job.now }
    requires rest { IsAtRest world.old.pages world.old.noted.items world.old.row.cells }
    ensures items { ItemsTold (disk_of clock.old world.old) job.now (disk_of clock.new world.new)
        out.old out.new result }
    ensures rest { IsAtRest world.new.pages world.new.noted.items world.new.row.cells }
{
    for item in job {
        run_item(out, world, clock, item)?;
    }
    Ok(())
}

/// Runs items that are no phases, and sends their lines: whether something was refused.
pub(crate) fn send_items<K: Sink, D: Backing>(
    alloc: Global,
    sink: &mut K,
    world: &mut World<D>,
    clock: &mut u64,
    job: &[Item],
) -> Result<bool, Stop>
    requires may { MayStand world.old.pages clock.old job.now }
    requires none { NoPhases job.now }
    requires rest { IsAtRest world.old.pages world.old.noted.items world.old.row.cells }
    ensures items { ItemsSent (disk_of clock.old world.old) job.now (disk_of clock.new world.new)
        (K.written sink.old) (K.written sink.new) result }
    ensures rest { IsAtRest world.new.pages world.new.noted.items world.new.row.cells }
    ensures later { K.fault_count sink.old ≤ K.fault_count sink.new }
    ensures cause { IfErr result
        (StopCause (K.fault_count sink.old) (K.fault_count sink.new) (K.has_stopped sink.new)) }
{
    let mut out = Output::new(alloc, sink);
    let run = run_items(&mut out, world, clock, job);
    let Output {
        sink,
        buffer,
        refused,
        ..
    } = out;
    run?;
    send(sink, &buffer)?;
    Ok(refused)
}

/// Sends the lines of a phase whose actors are all finished: whether something was refused.
pub(crate) fn send_phase<K: Sink, D: Backing>(
    alloc: Global,
    sink: &mut K,
    world: &World<D>,
    phase: &Phase<D>,
    actors: &[ActorOps],
) -> Result<bool, Stop>
    requires few { length actors.now ≤ MOST_ACTORS }
    requires can { CanGoOn (playing world.now phase.now actors.now) }
    requires over { AllOver actors.now phase.now.workers.items }
    requires rest { IsAtRest world.now.pages world.now.noted.items world.now.row.cells }
    ensures lines { LinesSent (lines_shown (playing world.now phase.now actors.now))
        (K.written sink.old) (K.written sink.new) result }
    ensures later { K.fault_count sink.old ≤ K.fault_count sink.new }
    ensures cause { IfErr result
        (StopCause (K.fault_count sink.old) (K.fault_count sink.new) (K.has_stopped sink.new)) }
{
    let mut out = Output::new(alloc, sink);
    let told = tell_phase(&mut out, world, phase, actors);
    let Output {
        sink,
        buffer,
        refused,
        ..
    } = out;
    told?;
    send(sink, &buffer)?;
    Ok(refused)
}
