//! The top call of `zramsim`, and the exit statuses.
//!
//! | Status | What came of the run | What was written |
//! |---|---|---|
//! | 0 `Done` | the job was read to its end and carried out | the text of lines that it may print |
//! | 1 `Refused` | the same, but some operation was refused | the same; some line tells of it |
//! | 2 `Words` | the words are neither `run` nor `gen` with its two numbers | the usage line |
//! | 3 `Job` | the text is no job, or too long for one | the line of its first fault |
//! | 4 `ReadFault` | the source failed | nothing |
//! | 5 `WriteFault` | the sink failed, or took nothing | a beginning of what 0 to 3 would write |
//! | 6 `NoMemory` | there was no memory left | nothing, or a beginning of what 0 or 1 would write |
//!
//! For `run` the job is read from the source. For `gen` it is the one that the generator makes,
//! nothing is read, and of the output the last three lines alone are written. The backing device is
//! used where there is a job, and is untouched else.
//!
//! Of the lines of the output at 0 and 1 the contract says two facts. They are *legal*: by each page's order,
//! each read tells what the plain disk holds (`Legal`), which can be checked without knowing of
//! locks and turns. They are *stepped*: the machine prints them where each phase makes the turns of
//! its schedule, and then rounds (`Stepped`, `AreOwn`).

ghost use Rattle.std.specs.Prelude.{◌≡◌, ◌⊎◌, ℕ, ◌≤◌, List, ◌<◌, false, true, IsTrue, ◌↔◌, [], Ok, IfOk, OnOk, OnErr, IfErr};
ghost use Rattle.std.specs.Io.KnownBytes.{Appends};
ghost use Rattle.plain_disk.specs.Rests.{Rest};
ghost use Rattle.job_text.specs.Jobs.{MayFollow, nothing_used};
ghost use Rattle.job_session.specs.Stands.{Stands};
ghost use Rattle.job_session.specs.Stepped.{Disk, without_pages, IsBySchedule};
ghost use Rattle.job_session.specs.Sessions.{place, session_disk, IsHome, IsBetween, IsReady, FinishIs};
ghost use Rattle.job_session.specs.Advances.{SessionRan, outcome_of};
ghost use Rattle.job_session.specs.Runs.{status_number, seen, WriteCause, BeginsWith, IsRunWord, IsGenWith, IsOtherWords, IsWritten, IsRun, IsCut, IsCutRun, IsGenerated, IsCutGenerated, IsRefused};
ghost use Rattle.job_session.specs.Telling.{StopCause, LineStops, TextEnds, TextStops};
ghost use Rattle.job_print.specs.Texts.{usage_text, fault_text};

use crate::generated::generate;
use crate::io::{read_all, send};
use crate::session::{Next, Running, Session};
use crate::stop::{NoText, Stop, stopped};
use crate::words::{Asked, asked_by};
use backing_dev::Backing;
use job_print::put_fault;
use job_text::{Cause, Job, JobFault, PhaseText, ReadFault, read_job};
use std::alloc::Global;
use zr_base::{Failed, Sink, Source};

// The fault of a text that is too long.
const TOO_LONG: JobFault = JobFault {
    line: 0,
    cause: Cause::TooMany,
};

/// How a run ended.
#[derive(Clone, Copy, PartialEq, Eq, Debug)]
pub enum Status {
    /// The job was carried out.
    Done,
    /// The same, but some operation was refused.
    Refused,
    /// The words aren't in the grammar: the one word `run`, or `gen` and two numbers.
    Words,
    /// The text is no job.
    Job,
    /// The source failed.
    ReadFault,
    /// The sink failed, or took nothing of some bytes.
    WriteFault,
    /// There was no memory left.
    NoMemory,
}

impl Status {
    /// The exit status of the program, 0 to 6.
    pub fn number(self) -> u8
        ensures number { result ≡ status_number self }
    {
        match self {
            Status::Done => 0,
            Status::Refused => 1,
            Status::Words => 2,
            Status::Job => 3,
            Status::ReadFault => 4,
            Status::WriteFault => 5,
            Status::NoMemory => 6,
        }
    }
}

// The usage line.
#[tactic(auto, unfolding(job_print::specs::Texts::name_of, job_print::specs::Texts::words_of))]
fn usage() -> &'static [u8]
    ensures { result.now ≡ usage_text }
{
    b"usage: zramsim run | zramsim gen PAGES SEED\n"
}

/// Whether something was refused, where a job has ended at one of the statuses that a job has.
pub(crate) fn outcome(status: Status) -> Result<bool, Stop>
    ensures { result ≡ outcome_of status }
{
    match status {
        Status::Done => Ok(false),
        Status::Refused => Ok(true),
        Status::NoMemory => Err(Stop::Memory),
        _ => Err(Stop::Write),
    }
}

/// Runs the phase that is prepared, by its schedule and then by rounds.
pub(crate) fn run_phase<K: Sink, D: Backing>(
    session: &mut Session<D>,
    sink: &mut K,
) -> Result<(), Status>
    requires ready { (d : Disk) × (text : PhaseText) × IsReady session.old d text }
    ensures runs { (d : Disk) (text : PhaseText) → IsReady session.old d text
        → (turns : List ℕ) × IsBySchedule text.actors text.schedule turns
        × FinishIs (place session.old) session.new (K.written sink.old) (K.written sink.new)
        (K.fault_count sink.old) (K.fault_count sink.new) (K.has_stopped sink.new)
        d text turns result }
    ensures later { K.fault_count sink.old ≤ K.fault_count sink.new }
{
    let Some(running) = session.start() else {
        unreachable!()
    };
    let Running {
        mut world,
        mut phase,
    } = running;
    let text = session.text();
    world.run(&mut phase, text.actors.as_slice(), text.schedule.as_slice());
    session.finish(Running { world, phase }, sink)
}

// Runs a job to its end: whether something was refused.
fn run_session<K: Sink, D: Backing>(session: &mut Session<D>, sink: &mut K) -> Result<bool, Stop>
    requires between { IsBetween session.old }
    requires none { session.old.at ≡ 0 }
    requires quiet { session.old.refused ≡ false }
    ensures runs { (first : Rest) → Stands first (session_disk session.old)
        → session_disk session.old ≡ without_pages first.device
        → SessionRan first session.old.job (session_disk session.new)
        (K.written sink.old) (K.written sink.new) result }
    ensures home { IsHome session.new }
    ensures cause { IfErr result
        (StopCause (K.fault_count sink.old) (K.fault_count sink.new) (K.has_stopped sink.new)) }
{
    'phases: loop {
        match session.next(sink) {
            Next::Phase => {}
            Next::Ended(status) => return outcome(status),
        }
        if let Err(status) = run_phase(session, sink) {
            return outcome(status);
        }
    }
}

// Runs a lawful job: whether something was refused.
fn run_all<K: Sink, D: Backing>(
    alloc: Global,
    sink: &mut K,
    dev: &mut D,
    job: Job,
) -> Result<bool, Stop>
    requires { MayFollow nothing_used job }
    ensures written { IfOk result (IsWritten job
        (seen D.block_count D.contents D.fault_count D.calls dev.old)
        (seen D.block_count D.contents D.fault_count D.calls dev.new)
        (Appends (K.written sink.old) (K.written sink.new))) }
    ensures cut { OnErr result (IsCut job
        (seen D.block_count D.contents D.fault_count D.calls dev.old)
        (seen D.block_count D.contents D.fault_count D.calls dev.new)
        (BeginsWith (K.written sink.old) (K.written sink.new))) }
    ensures same { D.references dev.new ≡ D.references dev.old }
    ensures cause { IfErr result
        (StopCause (K.fault_count sink.old) (K.fault_count sink.new) (K.has_stopped sink.new)) }
{
    let mut session = Session::new(alloc, job, dev);
    let run = run_session(&mut session, sink);
    let _dev = session.close();
    run
}

// Writes the line of a text that is no job.
fn refuse<K: Sink>(alloc: Global, fault: JobFault, sink: &mut K) -> Result<Status, Stop>
    ensures status { IfOk result (λ status. status ≡ Status.Job) }
    ensures told { OnOk result
        (Appends (K.written sink.old) (K.written sink.new) (fault_text fault)) }
    ensures cut { IfErr result
        (LineStops (fault_text fault) (K.written sink.old) (K.written sink.new)) }
    ensures cause { IfErr result
        (StopCause (K.fault_count sink.old) (K.fault_count sink.new) (K.has_stopped sink.new)) }
{
    let mut line = Vec::new(alloc);
    put_fault(&mut line, fault)?;
    send(sink, &line)?;
    Ok(Status::Job)
}

// Runs the job that a text is, or writes the line of its fault.
fn run_text<K: Sink, D: Backing>(
    alloc: Global,
    text: &[u8],
    sink: &mut K,
    dev: &mut D,
) -> Result<Status, Stop>
    ensures ends { IfOk result (TextEnds text.now (dev.new ≡ dev.old)
        (seen D.block_count D.contents D.fault_count D.calls dev.old)
        (seen D.block_count D.contents D.fault_count D.calls dev.new)
        (K.written sink.old) (K.written sink.new)) }
    ensures cut { IfErr result (TextStops text.now (dev.new ≡ dev.old)
        (seen D.block_count D.contents D.fault_count D.calls dev.old)
        (seen D.block_count D.contents D.fault_count D.calls dev.new)
        (K.written sink.old) (K.written sink.new)) }
    ensures same { D.references dev.new ≡ D.references dev.old }
    ensures cause { IfErr result
        (StopCause (K.fault_count sink.old) (K.fault_count sink.new) (K.has_stopped sink.new)) }
{
    let job = match read_job(alloc, text) {
        Ok(job) => job,
        Err(ReadFault::Bad(fault)) => return refuse(alloc, fault, sink),
        Err(ReadFault::Memory(_)) => return Err(Stop::Memory),
    };
    match run_all(alloc, sink, dev, job)? {
        false => Ok(Status::Done),
        true => Ok(Status::Refused),
    }
}

/// Does all that `zramsim` does: it takes the words of the command line after the program's name,
/// reads a job from `job`, or makes one, runs it over the backing device `dev` and writes its output,
/// or the end of it, to `out`. It returns for every source, sink and device.
///
/// A job's text has at most 16,777,216 bytes; source and sink are asked for at most 64 KiB at once.
pub fn sim_main<S: Source, K: Sink, D: Backing>(
    alloc: Global,
    words: &[&str],
    job: &mut S,
    out: &mut K,
    dev: &mut D,
) -> Status
    requires { K.has_stopped out.old ≡ false }

    // The job was read to its end, and what it may print was written, over the device as it was and
    // as it is; or the job was generated, and the last three lines of what it may print were written.
    ensures done { result ≡ Status.Done → (IsRunWord words.now
        × IsRun (S.left job.old) (S.left job.new)
        (seen D.block_count D.contents D.fault_count D.calls dev.old)
        (seen D.block_count D.contents D.fault_count D.calls dev.new)
        (Appends (K.written out.old) (K.written out.new)) false)
        ⊎ IsGenWith words.now (λ pages seed. IsGenerated pages seed
        (seen D.block_count D.contents D.fault_count D.calls dev.old)
        (seen D.block_count D.contents D.fault_count D.calls dev.new)
        (Appends (K.written out.old) (K.written out.new)) false) }
    ensures refused { result ≡ Status.Refused → (IsRunWord words.now
        × IsRun (S.left job.old) (S.left job.new)
        (seen D.block_count D.contents D.fault_count D.calls dev.old)
        (seen D.block_count D.contents D.fault_count D.calls dev.new)
        (Appends (K.written out.old) (K.written out.new)) true)
        ⊎ IsGenWith words.now (λ pages seed. IsGenerated pages seed
        (seen D.block_count D.contents D.fault_count D.calls dev.old)
        (seen D.block_count D.contents D.fault_count D.calls dev.new)
        (Appends (K.written out.old) (K.written out.new)) true) }

    // Any other words are answered by the usage line alone, and the device is left alone. Nothing is
    // read but for the word `run`.
    ensures words { result ≡ Status.Words → IsOtherWords words.now
        × Appends (K.written out.old) (K.written out.new) usage_text }
    ensures other_words { IsOtherWords words.now → (job.new ≡ job.old) × (dev.new ≡ dev.old)
        × (result ≡ Status.Words ⊎ result ≡ Status.WriteFault) }
    ensures unread { ¬ IsRunWord words.now → job.new ≡ job.old }

    // A text that is no job, or too long for one, is answered by the one line of its first fault.
    ensures job { result ≡ Status.Job → IsRunWord words.now
        × IsRefused (S.left job.old) (S.left job.new)
        (Appends (K.written out.old) (K.written out.new)) × (dev.new ≡ dev.old) }

    // A fault is answered only where the source failed, or the sink failed or stopped.
    ensures read { result ≡ Status.ReadFault → IsRunWord words.now
        × (S.fault_count job.old < S.fault_count job.new)
        × Appends (K.written out.old) (K.written out.new) [] × (dev.new ≡ dev.old) }
    ensures write { result ≡ Status.WriteFault
        → WriteCause (K.fault_count out.old) (K.fault_count out.new) (K.has_stopped out.new) }

    // What was written then is a beginning of the usage line, of the line of the first fault, of an
    // output that the job may print, cut after the item in work, or of the last three lines of one.
    ensures cut_write { result ≡ Status.WriteFault
        → (IsOtherWords words.now × BeginsWith (K.written out.old) (K.written out.new) usage_text)
        ⊎ (IsRunWord words.now
        × ((IsRefused (S.left job.old) (S.left job.new)
        (BeginsWith (K.written out.old) (K.written out.new)) × (dev.new ≡ dev.old))
        ⊎ IsCutRun (S.left job.old) (S.left job.new)
        (seen D.block_count D.contents D.fault_count D.calls dev.old)
        (seen D.block_count D.contents D.fault_count D.calls dev.new)
        (BeginsWith (K.written out.old) (K.written out.new))))
        ⊎ IsGenWith words.now (λ pages seed. (refused : _) × IsGenerated pages seed
        (seen D.block_count D.contents D.fault_count D.calls dev.old)
        (seen D.block_count D.contents D.fault_count D.calls dev.new)
        (BeginsWith (K.written out.old) (K.written out.new)) refused) }
    ensures cut_memory { result ≡ Status.NoMemory → (IsRunWord words.now
        × ((Appends (K.written out.old) (K.written out.new) [] × (dev.new ≡ dev.old))
        ⊎ IsCutRun (S.left job.old) (S.left job.new)
        (seen D.block_count D.contents D.fault_count D.calls dev.old)
        (seen D.block_count D.contents D.fault_count D.calls dev.new)
        (BeginsWith (K.written out.old) (K.written out.new))))
        ⊎ IsGenWith words.now (λ pages seed. IsCutGenerated pages seed
        (seen D.block_count D.contents D.fault_count D.calls dev.old)
        (seen D.block_count D.contents D.fault_count D.calls dev.new) (dev.new ≡ dev.old)
        (K.written out.old) (K.written out.new)) }

    // The device is reached by the same references in every case.
    ensures same { D.references dev.new ≡ D.references dev.old }
{
    match asked_by(words) {
        Asked::Run => {}
        Asked::Gen { pages, seed } => return generate(alloc, pages, seed, out, dev),
        Asked::Nothing => {
            return match send(out, usage()) {
                Ok(()) => Status::Words,
                Err(Failed) => Status::WriteFault,
            };
        }
    }
    let run = match read_all(alloc, job) {
        Ok(text) => run_text(alloc, &text, out, dev),
        Err(NoText::Long) => refuse(alloc, TOO_LONG, out),
        Err(NoText::Failed) => return Status::ReadFault,
        Err(NoText::Memory) => return Status::NoMemory,
    };
    match run {
        Ok(status) => status,
        Err(stop) => stopped(stop),
    }
}
