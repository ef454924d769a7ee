//! The world of a disk: its row of locks, on whose values the actors of a phase work by turns.
//!
//! `prepare` sets a phase up; its workers then stand before their first turns, and the row and they
//! are the phase's start. `step` makes one turn of one actor, and `run` all turns of a schedule and
//! then rounds until all actors are finished. Between any two turns the phase can go on (`CanGoOn`):
//! each worker is fit for its operations, and the joint rule holds. Each call says so for every
//! phase's beginning for which the rule holds, and of every start from which the state is reached.

ghost use Rattle.std.specs.Prelude.{◌≡◌, ℕ, ◌<◌, ◌≤◌, ◌++◌, [], length, vec_len, replicate, slice_get, Some, IfOk, OnErr};
ghost use Rattle.std.specs.Bool.{OnTrue, OnFalse};
ghost use Rattle.std.specs.List.{range_with_len};
ghost use Rattle.zr_base.specs.declared.limits.TheConstants.{MOST_ACTORS};
ghost use Rattle.actor_steps.specs.Places.{IsWork};
ghost use Rattle.joint_rule.specs.Begins.{Begin};
ghost use Rattle.zr_core.specs.Machines.{rounds_of, KeepsValues, PhaseSteps};
ghost use Rattle.zr_core.specs.Playing.{playing, lines_shown, HasEndedAs};
ghost use Rattle.zr_core.specs.Rests.{device_by, blocks_by, IsTime, IsAtRest, RestsAs, begun};
ghost use Rattle.zr_core.specs.Runs.{turns_of, Plays, RunsOut, IsBusy, AllOver, left_of};
ghost use Rattle.zr_core.specs.States.{CanGoOn, HasKept, HasRule, IsPrepared, IsReachedFrom, IsSetUpOn, TurnsOnce};

use crate::disk::World;
use crate::limits::MOST_CHAIN;
use crate::phase::Phase;
use crate::prepare::{noted_pages, reserve_all};
use actor_steps::{Turn, count_pieces, new_workers};
use backing_dev::Backing;
use joint_rule::{disks_begin, locks_are_of_the_disk, phases_go_on, rule_keeps, values_fit};
use lock_row::{names_have_places, sums_move};
use page_steps::DiskHeld;
use std::alloc::AllocError;
use zr_base::{ActorOps, Turns};

impl<D: Backing> World<D> {
    /// Sets a phase up, at this time, which isn't before the last access of any page: empties the
    /// orders, makes their room for the phase's calls, and takes the memory for what its reads will
    /// tell. On Err every order is unspecified until a call that succeeds, and all else is as before.
    pub fn prepare(&mut self, actors: &[ActorOps], now: u64) -> Result<Phase<D>, AllocError>
        requires rest { IsAtRest self.old.pages self.old.noted.items self.old.row.cells }
        requires work { IsWork actors.now }
        requires none { self.old.pages ≡ 0 → actors.now ≡ [] }
        requires time { IsTime now self.old.row.cells }
        ensures device { device_by self.new.spare self.new.pages self.new.row.cells
            ≡ device_by self.old.spare self.old.pages self.old.row.cells }
        ensures blocks { blocks_by self.new.spare self.new.pages self.new.row.cells
            ≡ blocks_by self.old.spare self.old.pages self.old.row.cells }
        ensures pages { self.new.pages ≡ self.old.pages }
        ensures limit { self.new.limit ≡ self.old.limit }
        ensures backed { self.new.backed ≡ self.old.backed }
        ensures clock { IfOk result (λ phase. phase.clock ≡ now) }
        ensures can { IfOk result (λ phase. CanGoOn (playing self.new phase actors.now)) }
        ensures set_up { IfOk result (λ phase. IsSetUpOn self.old.row.cells (playing self.new phase actors.now)) }

        // What the phase begins with is the disk as it rests, whatever it is known as.
        ensures start { IfOk result (λ phase. (g : Begin) → RestsAs g self.old.pages self.old.row.cells
            → IsPrepared (begun g self.old.backed actors.now now) (playing self.new phase actors.now)) }
        ensures rest { OnErr result (IsAtRest self.new.pages self.new.noted.items self.new.row.cells) }
        ensures same { OnErr result (KeepsValues self.old.row.cells self.new.row.cells) }
        ensures rests_as { OnErr result ((g : Begin) → RestsAs g self.old.pages self.old.row.cells
            → RestsAs g self.new.pages self.new.row.cells) }
    {
        rule_keeps();
        phases_go_on();
        disks_begin();
        let counts = count_pieces(self.alloc, self.pages, actors)?;
        let workers = new_workers(self.alloc, self.pages, self.backed, MOST_CHAIN, actors)?;
        let noted = noted_pages(self.alloc, &counts)?;
        reserve_all(&mut self.row, self.pages, &counts, &self.noted, &noted)?;
        self.noted = noted;
        Ok(Phase {
            clock: now,
            workers,
        })
    }

    /// One turn of an actor.
    pub fn step(&mut self, phase: &mut Phase<D>, actors: &[ActorOps], actor: u32) -> Turn
        requires actor { actor < length actors.now }
        requires can { CanGoOn (playing self.old phase.old actors.now) }
        ensures same { (playing self.new phase.new actors.now).terms ≡ (playing self.old phase.old actors.now).terms }
        ensures spare { self.new.spare ≡ self.old.spare }
        ensures limit { self.new.limit ≡ self.old.limit }
        ensures backed { self.new.backed ≡ self.old.backed }
        ensures can { CanGoOn (playing self.new phase.new actors.now) }
        ensures turn { (dones : _) → HasKept (playing self.old phase.old actors.now) dones
            → TurnsOnce actor (playing self.old phase.old actors.now) (playing self.new phase.new actors.now) result dones }
        ensures rule { (g : Begin) → HasRule g (playing self.old phase.old actors.now)
            → HasRule g (playing self.new phase.new actors.now) }
        ensures reached { (start : _) → IsReachedFrom start (playing self.old phase.old actors.now)
            → IsReachedFrom start (playing self.new phase.new actors.now) }
    {
        rule_keeps();
        values_fit();
        locks_are_of_the_disk();
        names_have_places();
        let now = phase.clock;
        let worker = &mut phase.workers[actor as usize];
        let mut hand = self.row.hand(actor);
        worker.advance(
            self.pages,
            self.backed,
            now,
            actors[actor as usize].as_slice(),
            &mut hand,
        )
    }

    // Whether some actor of the phase isn't finished.
    fn is_busy(phase: &Phase<D>, actors: &[ActorOps]) -> bool
        requires { vec_len phase.now.workers ≡ length actors.now }
        ensures busy { OnTrue result (IsBusy actors.now phase.now.workers.items) }
        ensures over { OnFalse result (AllOver actors.now phase.now.workers.items) }
    {
        for actor in 0..actors.len() {
            if !phase.workers[actor].is_done(actors[actor].as_slice()) {
                return true;
            }
        }
        false
    }

    // One turn of each actor.
    fn round(&mut self, phase: &mut Phase<D>, actors: &[ActorOps])
        requires few { length actors.now ≤ MOST_ACTORS }
        requires can { CanGoOn (playing self.old phase.old actors.now) }
        ensures plays { Plays (range_with_len 0 (length actors.now)) (playing self.old phase.old actors.now)
            (playing self.new phase.new actors.now) }
        ensures falls { IsBusy actors.now phase.old.workers.items
            → left_of (playing self.new phase.new actors.now)
            < left_of (playing self.old phase.old actors.now) }
    {
        rule_keeps();
        values_fit();
        locks_are_of_the_disk();
        sums_move::<DiskHeld<D>>();
        for actor in 0..actors.len() as u32 {
            let _turn = self.step(phase, actors, actor);
        }
    }

    // So many turns of an actor. After one that changes nothing the rest change nothing either:
    // they cost nothing.
    fn repeat(&mut self, phase: &mut Phase<D>, actors: &[ActorOps], turns: Turns)
        requires actor { turns.actor < length actors.now }
        requires can { CanGoOn (playing self.old phase.old actors.now) }
        ensures { Plays (replicate turns.times turns.actor) (playing self.old phase.old actors.now)
            (playing self.new phase.new actors.now) }
    {
        for time in 0..turns.times {
            match self.step(phase, actors, turns.actor) {
                Turn::Went => {}
                Turn::Waited(_) => return,
                Turn::Finished => return,
            }
        }
    }

    // The turns of a schedule, one after the other.
    fn play(&mut self, phase: &mut Phase<D>, actors: &[ActorOps], schedule: &[Turns])
        requires actors { (k : ℕ) (t : _) → slice_get schedule.now k ≡ Some t → t.actor < length actors.now }
        requires can { CanGoOn (playing self.old phase.old actors.now) }
        ensures { Plays (turns_of schedule.now) (playing self.old phase.old actors.now)
            (playing self.new phase.new actors.now) }
    {
        for turns in schedule {
            self.repeat(phase, actors, *turns);
        }
    }

    // Rounds, until all actors are finished.
    fn finish(&mut self, phase: &mut Phase<D>, actors: &[ActorOps])
        requires few { length actors.now ≤ MOST_ACTORS }
        requires can { CanGoOn (playing self.old phase.old actors.now) }
        ensures plays { (rounds : ℕ) × Plays (rounds_of (length actors.now) rounds) (playing self.old phase.old actors.now)
            (playing self.new phase.new actors.now) }
        ensures over { AllOver actors.now phase.new.workers.items }
    {
        while World::is_busy(phase, actors) {
            self.round(phase, actors);
        }
    }

    /// The schedule's turns, and then rounds of a turn for each actor, until all actors are
    /// finished.
    pub fn run(&mut self, phase: &mut Phase<D>, actors: &[ActorOps], schedule: &[Turns])
        requires few { length actors.now ≤ MOST_ACTORS }
        requires actors { (k : ℕ) (t : _) → slice_get schedule.now k ≡ Some t → t.actor < length actors.now }
        requires can { CanGoOn (playing self.old phase.old actors.now) }
        ensures same { (playing self.new phase.new actors.now).terms ≡ (playing self.old phase.old actors.now).terms }
        ensures spare { self.new.spare ≡ self.old.spare }
        ensures limit { self.new.limit ≡ self.old.limit }
        ensures backed { self.new.backed ≡ self.old.backed }
        ensures can { CanGoOn (playing self.new phase.new actors.now) }
        ensures runs { (dones : _) → HasKept (playing self.old phase.old actors.now) dones
            → RunsOut (turns_of schedule.now) (playing self.old phase.old actors.now)
            (playing self.new phase.new actors.now) dones }
        ensures over { AllOver actors.now phase.new.workers.items }
        ensures rest { IsAtRest self.new.pages self.new.noted.items self.new.row.cells }
        ensures rule { (g : Begin) → HasRule g (playing self.old phase.old actors.now)
            → HasRule g (playing self.new phase.new actors.now) }
        ensures reached { (start : _) → IsReachedFrom start (playing self.old phase.old actors.now)
            → IsReachedFrom start (playing self.new phase.new actors.now) }

        // From the phase's start: what it prints is what the machine's run does.
        ensures steps { (before : _) → IsSetUpOn before (playing self.old phase.old actors.now)
            → (rounds : ℕ) × PhaseSteps (playing self.old phase.old actors.now).terms self.old.backed actors.now before
            (turns_of schedule.now ++ rounds_of (length actors.now) rounds)
            (lines_shown (playing self.new phase.new actors.now)) self.new.row.cells }
        ensures ended { (g : Begin) → HasRule g (playing self.old phase.old actors.now)
            → HasEndedAs g (playing self.new phase.new actors.now) }
    {
        rule_keeps();
        phases_go_on();
        disks_begin();
        self.play(phase, actors, schedule);
        self.finish(phase, actors);
    }
}
