//! The words after `schedule`.

ghost use Rattle.std.specs.Prelude.{◌≡◌, ℕ, map, true, false, IfOk, IfErr, OnOk, ◌++◌, [], ◌∷◌};
ghost use Rattle.std.specs.List.{list_all};
ghost use Rattle.job_text.specs.Numbers.{is_turn, turn_of};
ghost use Rattle.job_text.specs.Lines.{may_give};
ghost use Rattle.job_text.specs.Answers.{Answers, turns_with};

use crate::fault::{Cause, NotTaken};
use crate::job::{TurnList, push};
use crate::limits::MOST_TURNS;
use crate::number::turn;
use std::alloc::Global;
use zr_base::{MOST_ACTORS, Turns};

fn has_turn(word: &[u8]) -> bool
    ensures { result ≡ is_turn word.now }
{
    turn(word).is_ok()
}

pub(crate) fn are_turns(words: &[&[u8]]) -> bool
    ensures { result ≡ list_all is_turn (map (λ word. word.now) words.now) }
{
    words.iter().all(|word| has_turn(word))
}

// The turns that a word gives, where they may be given.
fn allowed(word: &[u8]) -> Result<Turns, Cause>
    requires { is_turn word.now ≡ true }
    ensures given { IfOk result (λ turns. (turns ≡ turn_of word.now) × (may_give turns ≡ true)) }
    ensures range { IfErr result (λ cause. (cause ≡ Cause.Range)
        × (may_give (turn_of word.now) ≡ false)) }
{
    let (actor, times) = turn(word)?;
    if actor < MOST_ACTORS as u64 && 1 <= times && times <= MOST_TURNS as u64 {
        Ok(Turns {
            actor: actor as u32,
            times: times as u32,
        })
    } else {
        Err(Cause::Range)
    }
}

/// The turns that words give.
pub(crate) fn turns(alloc: Global, words: &[&[u8]]) -> Result<TurnList, NotTaken>
    requires { list_all is_turn (map (λ word. word.now) words.now) ≡ true }
    ensures { Answers (turns_with (map (λ word. word.now) words.now)) result }
{
    let mut list = TurnList::new(alloc);
    for word in words {
        let turns = allowed(word)?;
        push(&mut list, turns)?;
    }
    Ok(list)
}
