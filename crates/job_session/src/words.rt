//! The words of the command line.

ghost use Rattle.std.specs.Prelude.{◌≡◌, ◌^◌, ◌<◌, SomeIff};
ghost use Rattle.std.specs.Str.Parse.{IsNumeral, digits_value};
ghost use Rattle.job_session.specs.Generated.{Asks, GenAsks};

use job_text::MOST_GENERATED;

/// What the words of the command line ask for.
#[derive(Clone, Copy, PartialEq, Eq, Debug)]
pub(crate) enum Asked {
    /// To run the job that is read.
    Run,
    /// To run the job that the generator makes.
    Gen { pages: u32, seed: u64 },
    /// Nothing that is in the grammar.
    Nothing,
}

// The number of a word of decimal digits alone, where it is below 2^64.
fn decimal(word: &str) -> Option<u64>
    ensures { SomeIff result (IsNumeral 10 word.now × (digits_value 10 word.now < 2 ^ 64))
        (digits_value 10 word.now) }
{
    match word.as_bytes() {
        [b'+', ..] => None,
        _ => word.parse().ok(),
    }
}

// What two words after `gen` ask for.
fn asked_after(first: &str, second: &str) -> Asked
    ensures { GenAsks first.now second.now result }
{
    let Some(pages) = decimal(first) else {
        return Asked::Nothing;
    };
    let Some(seed) = decimal(second) else {
        return Asked::Nothing;
    };
    if pages < 1 || pages > u64::from(MOST_GENERATED) {
        return Asked::Nothing;
    }
    Asked::Gen {
        pages: pages as u32,
        seed,
    }
}

/// What these words ask for.
pub(crate) fn asked_by(words: &[&str]) -> Asked
    ensures { Asks words.now result }
{
    match words {
        [word] => {
            if *word == "run" {
                Asked::Run
            } else {
                Asked::Nothing
            }
        }
        [word, first, second] => {
            if *word == "gen" {
                asked_after(first, second)
            } else {
                Asked::Nothing
            }
        }
        _ => Asked::Nothing,
    }
}
