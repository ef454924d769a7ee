//! A session: a job and its world, phase by phase. Whoever runs the phases says how; the session does
//! all else, and writes the output.
//!
//! | Stage | Where the world is | Call | Stage then |
//! |---|---|---|---|
//! | `Here` | here, between two items | `next` | `Ready` before a phase, else `Here`, and the job has ended |
//! | `Ready` | here, with the next phase prepared | `start` | `Out` |
//! | `Out` | out, with the phase | `finish` | `Here` |
//!
//! Each call says what it adds to every output so far: to what the plain disk allows, and to what the
//! machine prints by its turns.

ghost use Rattle.std.specs.Prelude.{◌≡◌, ℕ, ◌+◌, ◌<◌, ◌≤◌, ◌++◌, [], length, Some, None, Ok, Err, IfSome, IfOk, IfErr, OnOk, OnErr, slice_get, ⊤};
ghost use Rattle.std.specs.Io.KnownBytes.{Appends};
ghost use Rattle.zr_core.specs.Playing.{playing, lines_shown};
ghost use Rattle.zr_core.specs.Rests.{IsAtRest, device_by};
ghost use Rattle.job_text.specs.Jobs.{MayFollow, nothing_used};
ghost use Rattle.job_session.specs.Runs.{BeginsWith, WriteCause};
ghost use Rattle.job_session.specs.Stepped.{Disk, disk_of};
ghost use Rattle.job_session.specs.Telling.{StopCause, LinesSent, stop_status};
ghost use Rattle.job_session.specs.Sessions.{place, session_disk, IsHome, IsBetween, IsReady, IsOut, IsNext, IsAt, IsAtPhase, IsStarted, IsNew, ComesBack, GoesOn, GivesUp, NextIs, FinishIs};
ghost use Rattle.job_session.specs.Advances.{Prepares, GoesTo, Advances, ended_status};

use crate::items::{before_phase, send_items, send_phase};
use crate::laws::jobs_are_legal;
use crate::sim::Status;
use crate::stop::{Stop, stopped};
use backing_dev::Backing;
use job_text::{Item, Job, PhaseText};
use std::alloc::{AllocError, Global};
use std::mem;
use zr_base::Sink;
use zr_core::{Phase, World};

/// What `next` has come to.
#[derive(Clone, Copy, PartialEq, Eq, Debug)]
pub enum Next {
    /// The next item is a phase, and it is prepared.
    Phase,
    /// The job has ended, at one of the statuses `Done`, `Refused`, `WriteFault` and `NoMemory`.
    Ended(Status),
}

/// A world and its phase, as they are handed out.
#[derive(Drop)]
pub struct Running<D: Backing> {
    pub world: World<D>,
    pub phase: Phase<D>,
}

/// Where the world of a session is.
#[derive(Drop)]
pub(crate) enum Stage<D: Backing> {
    Here(World<D>),
    Ready(Running<D>),
    Out,
}

/// A job that is carried out over a device, item by item.
#[derive(Drop)]
pub struct Session<D: Backing> {
    pub(crate) alloc: Global,
    pub(crate) job: Job,
    // how many items are done
    pub(crate) at: usize,
    // the time that is set, in seconds
    pub(crate) clock: u64,
    // some line has told of a refusal
    pub(crate) refused: bool,
    pub(crate) stage: Stage<D>,
}

/// The status of a job that has ended.
pub(crate) fn ended(refused: bool) -> Status
    ensures { result ≡ ended_status refused }
{
    match refused {
        false => Status::Done,
        true => Status::Refused,
    }
}

// The place after an item.
fn after(job: &[Item], at: usize) -> usize
    requires { at < length job.now }
    ensures { result ≡ at + 1 }
{
    at + 1
}

impl<D: Backing> Session<D> {
    /// A session of a lawful job, before its first item. It takes no memory.
    pub fn new(alloc: Global, job: Job, dev: D) -> Session<D>
        requires lawful { MayFollow nothing_used job }
        ensures new { IsNew result job (record {
          blocks = D.block_count dev;
          contents = D.contents dev;
          faults = D.fault_count dev;
          calls = D.calls dev;
          references = D.references dev;
          reads = 0;
          writes = 0;
        }) }
        ensures between { IsBetween result }
    {
        Session {
            alloc,
            job,
            at: 0,
            clock: 0,
            refused: false,
            stage: Stage::Here(World::new(alloc, dev)),
        }
    }

    // Runs the items before the next phase.
    fn go_on<K: Sink>(&mut self, world: &mut World<D>, sink: &mut K) -> Result<(), Stop>
        requires at { IsAt (place self.old) self.old.clock world.old }
        ensures goes { GoesTo (place self.old) (place self.new)
            (disk_of self.old.clock world.old) (disk_of self.new.clock world.new)
            (K.written sink.old) (K.written sink.new) result }
        ensures at { OnOk result (IsAt (place self.new) self.new.clock world.new) }
        ensures rest { IsAtRest world.new.pages world.new.noted.items world.new.row.cells }
        ensures next { OnOk result (self.new.at < length self.new.job
            → (text : _) × IsNext (place self.new) text) }
        ensures later { K.fault_count sink.old ≤ K.fault_count sink.new }
        ensures cause { IfErr result
            (StopCause (K.fault_count sink.old) (K.fault_count sink.new) (K.has_stopped sink.new)) }
    {
        jobs_are_legal();
        let items = &self.job.as_slice()[self.at..];
        let front = before_phase(items);
        let refused = send_items(self.alloc, sink, world, &mut self.clock, &items[..front])?;
        self.refused = self.refused | refused;
        self.at += front;
        Ok(())
    }

    // Prepares the next item, which is a phase, where there is one.
    fn prepare(&self, world: &mut World<D>) -> Result<Option<Phase<D>>, AllocError>
        requires at { IsAt (place self.now) self.now.clock world.old }
        requires next { self.now.at < length self.now.job
            → (text : _) × IsNext (place self.now) text }
        ensures ready { IfOk result (Prepares (place self.now) self.now.clock
            (disk_of self.now.clock world.old) world.new) }
        ensures rest { OnErr result
            (IsAtRest world.new.pages world.new.noted.items world.new.row.cells) }
        ensures device { (disk_of self.now.clock world.new).device
            ≡ (disk_of self.now.clock world.old).device }
    {
        let items = self.job.as_slice();
        if self.at == items.len() {
            return Ok(None);
        }
        let Item::Phase(text) = &items[self.at] else {
            unreachable!()
        };
        let phase = world.prepare(text.actors.as_slice(), self.clock)?;
        Ok(Some(phase))
    }

    // Runs the items before the next phase, and prepares this, where there is one.
    fn advance<K: Sink>(
        &mut self,
        world: &mut World<D>,
        sink: &mut K,
    ) -> Result<Option<Phase<D>>, Stop>
        requires at { IsAt (place self.old) self.old.clock world.old }
        ensures goes { Advances (place self.old) (place self.new) self.new.clock
            (disk_of self.old.clock world.old) world.new
            (K.written sink.old) (K.written sink.new) result }
        ensures later { K.fault_count sink.old ≤ K.fault_count sink.new }
        ensures cause { IfErr result
            (StopCause (K.fault_count sink.old) (K.fault_count sink.new) (K.has_stopped sink.new)) }
    {
        self.go_on(world, sink)?;
        let ready = self.prepare(world)?;
        Ok(ready)
    }

    /// Carries out the attributes and reports up to the next phase, which it prepares, or up to the
    /// end of the job, and writes their lines to `out`.
    pub fn next<K: Sink>(&mut self, out: &mut K) -> Next
        requires between { IsBetween self.old }
        ensures goes { NextIs self.old self.new (K.written out.old) (K.written out.new)
            (K.fault_count out.old) (K.fault_count out.new) (K.has_stopped out.new) result }
        ensures later { K.fault_count out.old ≤ K.fault_count out.new }
    {
        let Stage::Here(mut world) = mem::replace(&mut self.stage, Stage::Out) else {
            unreachable!()
        };
        let went = self.advance(&mut world, out);
        match went {
            Ok(Some(phase)) => {
                self.stage = Stage::Ready(Running { world, phase });
                Next::Phase
            }
            Ok(None) => {
                self.stage = Stage::Here(world);
                Next::Ended(ended(self.refused))
            }
            Err(stop) => {
                self.stage = Stage::Here(world);
                Next::Ended(stopped(stop))
            }
        }
    }

    /// Hands out the world and the phase that is prepared. None comes exactly where no phase is
    /// prepared, or it is out already; then nothing changes.
    pub fn start(&mut self) -> Option<Running<D>>
        ensures ready { (d : Disk) (text : PhaseText) → IsReady self.old d text
            → IfSome result (λ running. IsStarted d text.actors
            (playing running.world running.phase text.actors)) }
        ensures some { IfSome result (λ running. self.old.stage ≡ Stage.Ready running) }
        ensures none { result ≡ None → (self.new ≡ self.old) × ((running : _)
            → self.old.stage ≡ Stage.Ready running → ⊥) }
        ensures out { (d : Disk) (text : PhaseText) → IsReady self.old d text
            → IsOut self.new d text }
        ensures place { place self.new ≡ place self.old }
    {
        match mem::replace(&mut self.stage, Stage::Out) {
            Stage::Ready(running) => Some(running),
            other => {
                self.stage = other;
                None
            }
        }
    }

    /// The operations and the schedule of the phase that is out, or prepared.
    pub fn text(&self) -> &PhaseText
        requires phase { (text : PhaseText) × IsNext (place self.now) text }
        ensures text { (text : PhaseText) → IsNext (place self.now) text → result.now ≡ text }
    {
        let Item::Phase(text) = &self.job.as_slice()[self.at] else {
            unreachable!()
        };
        text
    }

    // Sends the lines of the phase that comes back: whether something was refused.
    fn tell<K: Sink>(&self, world: &World<D>, phase: &Phase<D>, sink: &mut K) -> Result<bool, Stop>
        requires back { ComesBack self.now world.now phase.now }
        ensures lines { (text : PhaseText) → IsNext (place self.now) text
            → LinesSent (lines_shown (playing world.now phase.now text.actors))
            (K.written sink.old) (K.written sink.new) result }
        ensures later { K.fault_count sink.old ≤ K.fault_count sink.new }
        ensures cause { IfErr result
            (StopCause (K.fault_count sink.old) (K.fault_count sink.new) (K.has_stopped sink.new)) }
    {
        let text = self.text();
        send_phase(self.alloc, sink, world, phase, text.actors.as_slice())
    }

    /// Takes back what `start` gave, after turns of that phase alone, with all its actors finished,
    /// and writes the phase's lines to `out`. Err is `WriteFault` or `NoMemory`, and ends the session.
    pub fn finish<K: Sink>(&mut self, running: Running<D>, out: &mut K) -> Result<(), Status>
        requires back { ComesBack self.old running.world running.phase }
        ensures goes { (back : ComesBack self.old running.world running.phase)
            → FinishIs (place self.old) self.new (K.written out.old) (K.written out.new)
            (K.fault_count out.old) (K.fault_count out.new) (K.has_stopped out.new)
            back.disk back.text back.turns result }
        ensures later { K.fault_count out.old ≤ K.fault_count out.new }
    {
        jobs_are_legal();
        let Running { world, phase } = running;
        let told = self.tell(&world, &phase, out);
        self.stage = Stage::Here(world);
        match told {
            Ok(refused) => {
                self.refused = self.refused | refused;
                self.at = after(self.job.as_slice(), self.at);
                Ok(())
            }
            Err(stop) => Err(stopped(stop)),
        }
    }

    /// Gives the device back.
    pub fn close(self) -> D
        requires home { IsHome self }
        ensures blocks { D.block_count result ≡ (session_disk self).device.blocks }
        ensures contents { D.contents result ≡ (session_disk self).device.contents }
        ensures faults { D.fault_count result ≡ (session_disk self).device.faults }
        ensures calls { D.calls result ≡ (session_disk self).device.calls }
        ensures same { D.references result ≡ (session_disk self).device.references }
    {
        let Session { stage, .. } = self;
        let Stage::Here(world) = stage else {
            unreachable!()
        };
        world.close()
    }
}
