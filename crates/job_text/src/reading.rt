//! What of a job was read so far.

ghost use Rattle.std.specs.Prelude.{◌≡◌, ℕ, ◌≤◌};
ghost use Rattle.zr_base.specs.declared.limits.TheConstants.{MOST_ACTORS, MOST_OPERATIONS, MOST_PAGES};
ghost use Rattle.job_text.specs.declared.limits.TheConstants.{MOST_PHASES, MOST_PIECES, MOST_SCANNED, MOST_SECTORS_READ, MOST_TURNS};
ghost use Rattle.job_text.specs.Jobs.{is_disk_size, sectors_to_read, pages_to_scan};

use crate::begun::{Begun, empty_phase, more_turns, names_actors, push_all};
use crate::fault::{Cause, JobFault, NotTaken};
use crate::job::{Attr, Item, Job, Report, TurnList, push};
use crate::limits::{MOST_PHASES, MOST_PIECES, MOST_SCANNED, MOST_SECTORS_READ};
use crate::line::Line;
use std::alloc::Global;
use zr_base::{MOST_ACTORS, MOST_OPERATIONS, Op};

/// The items so far, the phase that has begun and the line of its first actor, the disk's size that
/// was given first, the time, and what of the job's limits was used.
#[derive(Drop)]
pub(crate) struct Reading {
    items: Job,
    begun: Option<Begun>,
    first: u32,
    has_disk: bool,
    pages: u32,
    clock: u64,
    phases: u32,
    operations: u32,
    pieces: u32,
    sectors: u32,
    scanned: u32,
    turns: u32,
    ghost some_pages: { pages ≤ MOST_PAGES },
    ghost some_phases: { phases ≤ MOST_PHASES },
    ghost some_operations: { operations ≤ MOST_OPERATIONS },
    ghost some_pieces: { pieces ≤ MOST_PIECES },
    ghost some_sectors: { sectors ≤ MOST_SECTORS_READ },
    ghost some_scanned: { scanned ≤ MOST_SCANNED },
    ghost some_turns: { turns ≤ MOST_TURNS },
}

fn is_disk_size(attr: Attr) -> bool
    ensures { result ≡ is_disk_size attr }
{
    match attr {
        Attr::DiskPages(_) => true,
        Attr::LimitPages(_)
        | Attr::Backing(_)
        | Attr::WritebackLimit(_)
        | Attr::WritebackLimitEnable(_)
        | Attr::Clock(_)
        | Attr::LowerMax => false,
    }
}

// The sectors that an operation reads.
fn sectors_to_read(op: &Op) -> u32
    ensures { result ≡ sectors_to_read op.now }
{
    match op {
        Op::Read { count, .. } => *count,
        Op::Write { .. }
        | Op::Discard { .. }
        | Op::Idle { .. }
        | Op::Writeback { .. }
        | Op::Compact => 0,
    }
}

// The pages that an operation scans, on a disk of so many.
fn pages_to_scan(pages: u32, op: &Op) -> u32
    ensures { result ≡ pages_to_scan pages op.now }
{
    match op {
        Op::Idle { .. } | Op::Writeback { .. } => pages,
        Op::Write { .. } | Op::Read { .. } | Op::Discard { .. } | Op::Compact => 0,
    }
}

impl Reading {
    ghost use Rattle.std.specs.Prelude.{◌≡◌, ℕ, ◌≤◌, ◌++◌, List, [], ◌∷◌, length, None, Some, Err, OnOk, IfErr, IfOk};
    ghost use Rattle.zr_base.specs.Plain.{IsRequest};
    ghost use Rattle.job_text.specs.declared.line.Line.TheVariants as said;
    ghost use Rattle.job_text.specs.Jobs.{MaySet, MayTurn, nothing_used, pages_with, clock_with, is_set_back};
    ghost use Rattle.job_text.specs.Faults.{used_with, phase_with};
    ghost use Rattle.job_text.specs.Answers.{IsInRange};
    ghost use Rattle.job_text.specs.Reading.{used_by, phase_of, phase_at, is_scheduled_in, outside_of, place_cause, IsNotTaken, IsRefusedAt, IsNext, fault_after, begun_with, items_by};

    pub(crate) fn new(alloc: Global) -> Reading
        ensures used { used_by result ≡ nothing_used }
        ensures begun { result.begun ≡ None }
        ensures items { result.items ≡ [] }
    {
        Reading {
            items: Job::new(alloc),
            begun: None,
            first: 0,
            has_disk: false,
            pages: 0,
            clock: 0,
            phases: 0,
            operations: 0,
            pieces: 0,
            sectors: 0,
            scanned: 0,
            turns: 0,
        }
    }

    fn is_scheduled(&self) -> bool
        ensures { result ≡ is_scheduled_in self.now.begun }
    {
        match &self.begun {
            Some(begun) => begun.is_scheduled(),
            None => false,
        }
    }

    // Attributes and reports stand outside a phase.
    fn outside(&self) -> Result<(), Cause>
        ensures { result ≡ outside_of self.now.begun }
    {
        match &self.begun {
            Some(_) => Err(Cause::Order),
            None => Ok(()),
        }
    }

    fn is_set_back(&self, attr: Attr) -> bool
        ensures { result ≡ is_set_back (used_by self.now) attr }
    {
        match attr {
            Attr::Clock(seconds) => seconds < self.clock,
            Attr::DiskPages(_)
            | Attr::LimitPages(_)
            | Attr::Backing(_)
            | Attr::WritebackLimit(_)
            | Attr::WritebackLimitEnable(_)
            | Attr::LowerMax => false,
        }
    }

    // The pages of the disk that were given first, with an attribute.
    fn pages_with(&self, attr: Attr) -> u32
        requires { MaySet attr }
        ensures given { result ≡ pages_with (used_by self.now) attr }
        ensures few { result ≤ MOST_PAGES }
    {
        match attr {
            Attr::DiskPages(pages) => if self.has_disk { self.pages } else { pages },
            Attr::LimitPages(_)
            | Attr::Backing(_)
            | Attr::WritebackLimit(_)
            | Attr::WritebackLimitEnable(_)
            | Attr::Clock(_)
            | Attr::LowerMax => self.pages,
        }
    }

    // The time with an attribute.
    fn clock_with(&self, attr: Attr) -> u64
        ensures { result ≡ clock_with (used_by self.now) attr }
    {
        match attr {
            Attr::Clock(seconds) => seconds,
            Attr::DiskPages(_)
            | Attr::LimitPages(_)
            | Attr::Backing(_)
            | Attr::WritebackLimit(_)
            | Attr::WritebackLimitEnable(_)
            | Attr::LowerMax => self.clock,
        }
    }

    fn attribute(&mut self, attr: Attr) -> Result<(), NotTaken>
        requires { MaySet attr }
        ensures fault { IfErr result (IsRefusedAt self.old (said.Attribute attr)) }
        ensures taken { OnOk result (IsNext self.old 0 (said.Attribute attr) self.new) }
    {
        if self.is_set_back(attr) {
            return Err(NotTaken::Faulty(Cause::Range));
        }
        self.outside()?;
        push(&mut self.items, Item::Attr(attr))?;
        self.pages = self.pages_with(attr);
        self.clock = self.clock_with(attr);
        self.has_disk = is_disk_size(attr) || self.has_disk;
        Ok(())
    }

    fn tell(&mut self, report: Report) -> Result<(), NotTaken>
        ensures fault { IfErr result (IsRefusedAt self.old (said.Tell report)) }
        ensures taken { OnOk result (IsNext self.old 0 (said.Tell report) self.new) }
    {
        self.outside()?;
        push(&mut self.items, Item::Report(report))?;
        Ok(())
    }

    fn actor(&mut self, alloc: Global, number: u32) -> Result<(), NotTaken>
        ensures fault { IfErr result (IsRefusedAt self.old said.Actor) }
        ensures taken { OnOk result (IsNext self.old number said.Actor self.new) }
    {
        if self.is_scheduled() {
            return Err(NotTaken::Faulty(Cause::Order));
        }
        if !self.has_disk {
            return Err(NotTaken::Faulty(Cause::NoDisk));
        }
        match self.begun.take() {
            None => {
                if self.phases >= MOST_PHASES {
                    return Err(NotTaken::Faulty(Cause::TooMany));
                }
                self.begun = Some(Begun::new(alloc));
                self.first = number;
                self.phases += 1;
                Ok(())
            }
            Some(begun) => {
                if begun.actors() >= MOST_ACTORS {
                    return Err(NotTaken::Faulty(Cause::TooMany));
                }
                self.begun = Some(begun.next_actor(alloc)?);
                Ok(())
            }
        }
    }

    fn operation(&mut self, op: Op) -> Result<(), NotTaken>
        requires { IsRequest op }
        ensures fault { IfErr result (IsRefusedAt self.old (said.Operation op)) }
        ensures taken { OnOk result (IsNext self.old 0 (said.Operation op) self.new) }
    {
        let Some(mut begun) = self.begun.take() else {
            return Err(NotTaken::Faulty(Cause::Order));
        };
        if begun.is_scheduled() {
            return Err(NotTaken::Faulty(Cause::Order));
        }
        let operations = self.operations + 1;
        let pieces = self.pieces + op.pages();
        let sectors = self.sectors + sectors_to_read(&op);
        let scanned = self.scanned + pages_to_scan(self.pages, &op);
        if operations > MOST_OPERATIONS
            || pieces > MOST_PIECES
            || sectors > MOST_SECTORS_READ
            || scanned > MOST_SCANNED
        {
            return Err(NotTaken::Faulty(Cause::TooMany));
        }
        push(&mut begun.last, op)?;
        self.begun = Some(begun);
        self.operations = operations;
        self.pieces = pieces;
        self.sectors = sectors;
        self.scanned = scanned;
        Ok(())
    }

    fn schedule(&mut self, turns: TurnList) -> Result<(), NotTaken>
        requires some { 1 ≤ length turns }
        requires each { MayTurn MOST_ACTORS turns }
        ensures fault { IfErr result (IsRefusedAt self.old (said.Schedule turns)) }
        ensures taken { OnOk result (IsNext self.old 0 (said.Schedule turns) self.new) }
    {
        let Some(mut begun) = self.begun.take() else {
            return Err(NotTaken::Faulty(Cause::Range));
        };
        if !names_actors(turns.as_slice(), begun.actors()) {
            return Err(NotTaken::Faulty(Cause::Range));
        }
        let Some(total) = more_turns(self.turns, turns.as_slice()) else {
            return Err(NotTaken::Faulty(Cause::TooMany));
        };
        push_all(&mut begun.schedule, turns.as_slice())?;
        self.begun = Some(begun);
        self.turns = total;
        Ok(())
    }

    fn run(&mut self, alloc: Global) -> Result<(), NotTaken>
        ensures fault { IfErr result (IsRefusedAt self.old said.Run) }
        ensures taken { OnOk result (IsNext self.old 0 said.Run self.new) }
    {
        match self.begun.take() {
            None => {
                if self.phases >= MOST_PHASES {
                    return Err(NotTaken::Faulty(Cause::TooMany));
                }
                push(&mut self.items, Item::Phase(empty_phase(alloc)))?;
                self.phases += 1;
                Ok(())
            }
            Some(begun) => {
                push(&mut self.items, Item::Phase(begun.ended()?))?;
                Ok(())
            }
        }
    }

    /// Takes the line of this number.
    pub(crate) fn take(&mut self, alloc: Global, number: u32, line: Line) -> Result<(), NotTaken>
        requires { IsInRange line }
        ensures fault { IfErr result (IsRefusedAt self.old line) }
        ensures taken { OnOk result (IsNext self.old number line self.new) }
    {
        match line {
            Line::Blank => Ok(()),
            Line::Attribute(attr) => self.attribute(attr),
            Line::Tell(report) => self.tell(report),
            Line::Actor => self.actor(alloc, number),
            Line::Operation(op) => self.operation(op),
            Line::Schedule(turns) => self.schedule(turns),
            Line::Run => self.run(alloc),
        }
    }

    /// The items, where no phase was left without a `run`.
    pub(crate) fn finish(self) -> Result<Job, JobFault>
        ensures done { IfOk result (λ job. (self.begun ≡ None) × (job ≡ self.items)) }
        ensures left { IfErr result (λ fault. (number : ℕ)
            → fault_after self number [] ≡ Some fault) }
    {
        match self.begun {
            None => Ok(self.items),
            Some(_) => Err(JobFault {
                line: self.first,
                cause: Cause::Order,
            }),
        }
    }
}
