//! The lines of a phase that was run: its operations, actor by actor, and then the orders of its
//! pages. And the lines of reports.

ghost use Rattle.std.specs.Prelude.{◌≡◌, ℕ, ◌<◌, ◌≤◌, Bool, [], length, get_or};
ghost use Rattle.zr_base.specs.declared.limits.TheConstants.{MOST_ACTORS};
ghost use Rattle.plain_disk.specs.Output.{order_lines, actor_lines, actors_lines};
ghost use Rattle.page_steps.specs.Steps.{Terms};
ghost use Rattle.zr_core.specs.Machines.{orders_of};
ghost use Rattle.zr_core.specs.Playing.{playing, lines_shown};
ghost use Rattle.zr_core.specs.Runs.{AllOver};
ghost use Rattle.zr_core.specs.Rests.{IsAtRest};
ghost use Rattle.zr_core.specs.States.{ends_shown, sectors_shown, AreFit, CanGoOn, HasEnded};
ghost use Rattle.joint_rule.specs.Ends.{value_at};
ghost use Rattle.disk_rest.specs.Rows.{used_at};
ghost use Rattle.disk_rest.specs.Printed.{state_in, row_report};
ghost use Rattle.plain_disk.specs.Rests.{class_line, states, classes};
ghost use Rattle.zr_core.specs.declared.limits.TheConstants.{MOST_CHAIN};
ghost use Rattle.job_session.specs.Stepped.{disk_of, report_of};
ghost use Rattle.job_session.specs.Telling.{Tells};

use crate::output::Output;
use crate::stop::Stop;
use backing_dev::Backing;
use disk_rest::pools_count;
use job_text::Report;
use size_class::CLASSES;
use slot_entry::Kept;
use zr_base::{ActorOps, PageIx, Sink, Tag};
use zr_core::{Phase, World};

// The operations of an actor.
fn tell_actor<K: Sink, D: Backing>(
    out: &mut Output<'_, K>,
    phase: &Phase<D>,
    actor: u32,
    ops: u32,
) -> Result<(), Stop>
    requires ends { length (get_or (ends_shown phase.now.workers.items) actor []) ≡ ops }
    requires sectors { length (get_or (sectors_shown phase.now.workers.items) actor []) ≡ ops }
    requires over { (op : ℕ) → op < ops → HasEnded phase.now.workers.items actor op }
    ensures { Tells out.old out.new result (actor_lines actor 0
        (get_or (ends_shown phase.now.workers.items) actor [])
        (get_or (sectors_shown phase.now.workers.items) actor [])) }
{
    for op in 0..ops {
        let end = *phase.end(actor, op);
        out.tell_op(Tag { actor, op }, end, phase.sectors(actor, op))?;
    }
    Ok(())
}

// The operations of all actors.
fn tell_actors<K: Sink, D: Backing>(
    out: &mut Output<'_, K>,
    phase: &Phase<D>,
    actors: &[ActorOps],
) -> Result<(), Stop>
    requires few { length actors.now ≤ MOST_ACTORS }
    requires fit { (t : Terms) × (backed : Bool)
        × AreFit t backed actors.now phase.now.workers.items }
    requires over { AllOver actors.now phase.now.workers.items }
    ensures { Tells out.old out.new result (actors_lines 0
        (ends_shown phase.now.workers.items) (sectors_shown phase.now.workers.items)) }
{
    for actor in 0..actors.len() {
        let ops = actors[actor].as_slice().len() as u32;
        tell_actor(out, phase, actor as u32, ops)?;
    }
    Ok(())
}

// The orders of all pages: only those that are noted can have one.
fn tell_orders<K: Sink, D: Backing>(out: &mut Output<'_, K>, world: &World<D>) -> Result<(), Stop>
    requires { IsAtRest world.now.pages world.now.noted.items world.now.row.cells }
    ensures { Tells out.old out.new result
        (order_lines 0 (orders_of world.now.pages world.now.row.cells)) }
{
    let noted = world.noted();
    for page in noted {
        out.tell_order(*page, world.entry(PageIx(*page)).order())?;
    }
    Ok(())
}

/// The lines of a phase that was run.
pub(crate) fn tell_phase<K: Sink, D: Backing>(
    out: &mut Output<'_, K>,
    world: &World<D>,
    phase: &Phase<D>,
    actors: &[ActorOps],
) -> Result<(), Stop>
    requires few { length actors.now ≤ MOST_ACTORS }
    requires can { CanGoOn (playing world.now phase.now actors.now) }
    requires over { AllOver actors.now phase.now.workers.items }
    requires rest { IsAtRest world.now.pages world.now.noted.items world.now.row.cells }
    ensures { Tells out.old out.new result (lines_shown (playing world.now phase.now actors.now)) }
{
    tell_actors(out, phase, actors)?;
    tell_orders(out, world)
}

// A page, where it isn't empty.
fn tell_state<K: Sink, D: Backing>(
    out: &mut Output<'_, K>,
    world: &World<D>,
    page: u32,
) -> Result<(), Stop>
    requires rest { IsAtRest world.now.pages world.now.noted.items world.now.row.cells }
    requires page { page < world.now.pages }
    ensures { Tells out.old out.new result (state_in page (value_at world.now.row.cells page)) }
{
    let entry = world.entry(PageIx(page));
    match entry.kept() {
        Kept::Empty => Ok(()),
        _ => out.tell_state(page, &entry.letters(), entry.touched()),
    }
}

// The pages that aren't empty.
fn tell_states<K: Sink, D: Backing>(out: &mut Output<'_, K>, world: &World<D>) -> Result<(), Stop>
    requires { IsAtRest world.now.pages world.now.noted.items world.now.row.cells }
    ensures { Tells out.old out.new result
        (row_report world.now.pages MOST_CHAIN world.now.row.cells states) }
{
    for page in 0..world.pages() {
        tell_state(out, world, page)?;
    }
    Ok(())
}

// A class, where it has zspages.
fn tell_class<K: Sink, D: Backing>(
    out: &mut Output<'_, K>,
    world: &World<D>,
    class: u8,
) -> Result<(), Stop>
    requires rest { IsAtRest world.now.pages world.now.noted.items world.now.row.cells }
    requires class { class < 255 }
    ensures { Tells out.old out.new result
        (class_line MOST_CHAIN class (used_at world.now.pages world.now.row.cells class)) }
{
    pools_count();
    match world.class_stat(class) {
        Some(stat) => out.tell_class(&stat),
        None => Ok(()),
    }
}

// The classes that have zspages.
fn tell_classes<K: Sink, D: Backing>(out: &mut Output<'_, K>, world: &World<D>) -> Result<(), Stop>
    requires { IsAtRest world.now.pages world.now.noted.items world.now.row.cells }
    ensures { Tells out.old out.new result
        (row_report world.now.pages MOST_CHAIN world.now.row.cells classes) }
{
    for class in 0..CLASSES {
        tell_class(out, world, class)?;
    }
    Ok(())
}

/// The lines of a report.
pub(crate) fn tell_report<K: Sink, D: Backing>(
    out: &mut Output<'_, K>,
    world: &World<D>,
    report: Report,
) -> Result<(), Stop>
    requires { IsAtRest world.now.pages world.now.noted.items world.now.row.cells }
    ensures { (clock : ℕ) → Tells out.old out.new result (report_of (disk_of clock world.now) report) }
{
    match report {
        Report::MmStat => out.tell_memory(&world.mm_stat()),
        Report::IoStat => out.tell_calls(&world.io_stat()),
        Report::BdStat => out.tell_device(&world.bd_stat()),
        Report::States => tell_states(out, world),
        Report::Classes => tell_classes(out, world),
    }
}
