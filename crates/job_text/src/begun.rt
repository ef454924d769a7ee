//! A phase that has begun.

ghost use Rattle.std.specs.Prelude.{◌≡◌, ℕ, ◌+◌, ◌≤◌, List, [], ◌∷◌, ◌++◌, length, OnOk, nat_le, nat_lt, if◌then◌else◌};
ghost use Rattle.std.specs.List.{list_all};
ghost use Rattle.zr_base.specs.declared.limits.TheConstants.{MOST_ACTORS};
ghost use Rattle.job_text.specs.declared.limits.TheConstants.{MOST_TURNS};
ghost use Rattle.job_text.specs.Jobs.{turns_in, MayTurn};
ghost use Rattle.job_text.specs.Reading.{text_of};

use crate::job::{ActorList, PhaseText, TurnList, push};
use crate::limits::MOST_TURNS;
use std::alloc::{AllocError, Global};
use zr_base::{ActorOps, Turns};

/// A phase that has begun: its actors but the last, the last actor's operations, and its turns.
#[derive(Drop)]
pub(crate) struct Begun {
    pub(crate) actors: ActorList,
    pub(crate) last: ActorOps,
    pub(crate) schedule: TurnList,
}

/// Puts turns after those of a schedule.
pub(crate) fn push_all(schedule: &mut TurnList, turns: &[Turns]) -> Result<(), AllocError>
    ensures { OnOk result (schedule.new ≡ schedule.old ++ turns.now) }
{
    for given in turns {
        push(schedule, *given)?;
    }
    Ok(())
}

/// Whether each turn is one of the actors.
pub(crate) fn names_actors(turns: &[Turns], actors: usize) -> bool
    ensures { result ≡ list_all (λ t. nat_lt t.actor actors) turns.now }
{
    turns.iter().all(|given| (given.actor as usize) < actors)
}

/// The turns so far with those of a schedule, where a job may have so many.
pub(crate) fn more_turns(so_far: u32, turns: &[Turns]) -> Option<u32>
    requires some { so_far ≤ MOST_TURNS }
    requires each { MayTurn MOST_ACTORS turns.now }
    ensures { result ≡ (if nat_le (so_far + turns_in turns.now) MOST_TURNS
        then Some (so_far + turns_in turns.now) else None) }
{
    let mut total = so_far;
    for given in turns {
        total += given.times;
        if total > MOST_TURNS {
            return None;
        }
    }
    Some(total)
}

pub(crate) fn empty_phase(alloc: Global) -> PhaseText
    ensures { result ≡ text_of None }
{
    PhaseText {
        actors: ActorList::new(alloc),
        schedule: TurnList::new(alloc),
    }
}

impl Begun {
    ghost use Rattle.std.specs.Prelude.{◌≡◌, ℕ, ◌+◌, [], length, not, ◌==◌, Some, IfOk};
    ghost use Rattle.job_text.specs.Reading.{is_scheduled, fresh, with_actor, text_of};

    pub(crate) fn is_scheduled(&self) -> bool
        ensures { result ≡ is_scheduled self.now }
    {
        !self.schedule.as_slice().is_empty()
    }

    /// How many actors there are.
    pub(crate) fn actors(&self) -> usize
        ensures { result ≡ length self.now.actors + 1 }
    {
        self.actors.as_slice().len() + 1
    }

    /// A phase of one actor.
    pub(crate) fn new(alloc: Global) -> Begun
        ensures { result ≡ fresh }
    {
        Begun {
            actors: ActorList::new(alloc),
            last: ActorOps::new(alloc),
            schedule: TurnList::new(alloc),
        }
    }

    /// The same with one more actor.
    pub(crate) fn next_actor(self, alloc: Global) -> Result<Begun, AllocError>
        ensures { IfOk result (λ begun. begun ≡ with_actor self) }
    {
        let mut actors = self.actors;
        push(&mut actors, self.last)?;
        Ok(Begun {
            actors,
            last: ActorOps::new(alloc),
            schedule: self.schedule,
        })
    }

    pub(crate) fn ended(self) -> Result<PhaseText, AllocError>
        ensures { IfOk result (λ text. text ≡ text_of (Some self)) }
    {
        let mut actors = self.actors;
        push(&mut actors, self.last)?;
        Ok(PhaseText {
            actors,
            schedule: self.schedule,
        })
    }
}
