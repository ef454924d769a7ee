//! The job that the generator makes, run as any other: of its lines the last three alone are written,
//! which are those of its reports.

ghost use Rattle.std.specs.Prelude.{◌≡◌, ℕ, ◌≤◌, false, IfOk, OnOk, IfErr};
ghost use Rattle.std.specs.Io.KnownBytes.{Appends};
ghost use Rattle.plain_disk.specs.Rests.{Rest};
ghost use Rattle.job_text.specs.Jobs.{MayFollow, nothing_used};
ghost use Rattle.job_text.specs.Generator.{generated};
ghost use Rattle.job_text.specs.declared.limits.TheConstants.{MOST_GENERATED};
ghost use Rattle.job_session.specs.Stands.{Stands};
ghost use Rattle.job_session.specs.Stepped.{without_pages};
ghost use Rattle.job_session.specs.Runs.{seen, WriteCause, IsGenerated};
ghost use Rattle.job_session.specs.Sessions.{place, left_at, session_disk, IsHome, IsBetween};
ghost use Rattle.job_session.specs.Telling.{StopCause};
ghost use Rattle.job_session.specs.Generated.{HasPhase, Passes, PassStops, LastRan, GenEnds, GenStops};

use crate::laws::jobs_are_legal;
use crate::quiet::Quiet;
use crate::session::{Next, Session, ended};
use crate::sim::{Status, outcome, run_phase};
use crate::stop::{Stop, stopped};
use backing_dev::Backing;
use job_text::gen_job;
use std::alloc::Global;
use zr_base::Sink;

// How many phases a generated job has.
const PHASES: usize = 3;

// Runs the items up to the next phase, and this phase. Nobody reads their lines.
fn pass_phase<D: Backing>(session: &mut Session<D>) -> Result<(), Stop>
    requires between { IsBetween session.old }
    requires phase { HasPhase (left_at (place session.old)) }
    ensures passes { OnOk result (Passes session.old session.new) }
    ensures stops { IfErr result (PassStops session.old session.new) }
{
    let mut quiet = Quiet;
    match session.next(&mut quiet) {
        Next::Phase => {}
        Next::Ended(_) => return Err(Stop::Memory),
    }
    match run_phase(session, &mut quiet) {
        Ok(()) => Ok(()),
        Err(_) => Err(Stop::Memory),
    }
}

// Runs a generated job to its end: whether something was refused.
fn run_to_reports<K: Sink, D: Backing>(session: &mut Session<D>, sink: &mut K) -> Result<bool, Stop>
    requires between { IsBetween session.old }
    requires none { session.old.at ≡ 0 }
    requires quiet { session.old.refused ≡ false }
    requires generated { (pages : ℕ) × (seed : ℕ) × (session.old.job ≡ generated pages seed) }
    requires lawful { MayFollow nothing_used session.old.job }
    ensures runs { (first : Rest) → Stands first (session_disk session.old)
        → session_disk session.old ≡ without_pages first.device
        → LastRan first session.old.job (session_disk session.new)
        (K.written sink.old) (K.written sink.new) result }
    ensures home { IsHome session.new }
    ensures cause { IfErr result
        (StopCause (K.fault_count sink.old) (K.fault_count sink.new) (K.has_stopped sink.new)) }
{
    jobs_are_legal();
    for _done in 0..PHASES {
        pass_phase(session)?;
    }
    match session.next(sink) {
        Next::Phase => unreachable!(),
        Next::Ended(status) => outcome(status),
    }
}

// Runs the job of so many pages and this seed: whether something was refused.
fn run_generated<K: Sink, D: Backing>(
    alloc: Global,
    pages: u32,
    seed: u64,
    sink: &mut K,
    dev: &mut D,
) -> Result<bool, Stop>
    requires some { 1 ≤ pages }
    requires most { pages ≤ MOST_GENERATED }
    ensures written { IfOk result (IsGenerated pages seed
        (seen D.block_count D.contents D.fault_count D.calls dev.old)
        (seen D.block_count D.contents D.fault_count D.calls dev.new)
        (Appends (K.written sink.old) (K.written sink.new))) }
    ensures cut { IfErr result (GenStops pages seed
        (seen D.block_count D.contents D.fault_count D.calls dev.old)
        (seen D.block_count D.contents D.fault_count D.calls dev.new)
        (K.written sink.old) (K.written sink.new) (dev.new ≡ dev.old)) }
    ensures same { D.references dev.new ≡ D.references dev.old }
    ensures cause { IfErr result
        (StopCause (K.fault_count sink.old) (K.fault_count sink.new) (K.has_stopped sink.new)) }
{
    let job = gen_job(alloc, pages, seed)?;
    let mut session = Session::new(alloc, job, dev);
    let run = run_to_reports(&mut session, sink);
    let _dev = session.close();
    run
}

/// Runs the job of so many pages and this seed, and writes its last three lines.
pub(crate) fn generate<K: Sink, D: Backing>(
    alloc: Global,
    pages: u32,
    seed: u64,
    sink: &mut K,
    dev: &mut D,
) -> Status
    requires some { 1 ≤ pages }
    requires most { pages ≤ MOST_GENERATED }
    ensures ends { GenEnds pages seed
        (seen D.block_count D.contents D.fault_count D.calls dev.old)
        (seen D.block_count D.contents D.fault_count D.calls dev.new)
        (K.written sink.old) (K.written sink.new) (dev.new ≡ dev.old) result }
    ensures same { D.references dev.new ≡ D.references dev.old }
    ensures cause { result ≡ Status.WriteFault
        → WriteCause (K.fault_count sink.old) (K.fault_count sink.new) (K.has_stopped sink.new) }
{
    match run_generated(alloc, pages, seed, sink, dev) {
        Ok(refused) => ended(refused),
        Err(stop) => stopped(stop),
    }
}
