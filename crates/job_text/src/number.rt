//! The words of numbers: decimal, hexadecimal, sizes with a suffix, and turns.
//! A number of `2^64` or more is read as `2^64 - 1`, which the lines that read it so don't allow.

ghost use Rattle.std.specs.Prelude.{◌≡◌, ℕ, ◌≤◌, ◌==◌, if◌then◌else◌, position};
ghost use Rattle.job_text.specs.Numbers.{digit_value, are_digits, value_from, is_number, number_of, is_word, word_of, is_size, bytes_of, star_in, is_turn, turn_of};
ghost use Rattle.job_text.specs.Answers.{saturated, with_last, exact_of, saturated_pages, saturated_turn};

use crate::fault::Cause;

/// What a digit stands for, 0 to 15; 16 where it is none.
pub(crate) fn digit(c: u8) -> u64
    ensures { result ≡ digit_value c }
{
    let value = match c {
        b'0'..=b'9' => c - b'0',
        b'a'..=b'f' => c - b'a' + 10,
        b'A'..=b'F' => c - b'A' + 10,
        _ => 16,
    };
    value as u64
}

fn digits(base: u64, word: &[u8]) -> Result<u64, Cause>
    requires low { 1 ≤ base }
    requires high { base ≤ 16 }
    ensures { result ≡ (if are_digits base word.now
        then Ok (saturated (value_from base 0 word.now)) else Err Cause.Number) }
{
    let mut value: u64 = 0;
    for c in word {
        let digit = digit(*c);
        if digit >= base {
            return Err(Cause::Number);
        }
        value = value.saturating_mul(base).saturating_add(digit);
    }
    Ok(value)
}

/// A number of one or more decimal digits.
pub(crate) fn number(word: &[u8]) -> Result<u64, Cause>
    ensures { result ≡ (if is_number word.now
        then Ok (saturated (number_of word.now)) else Err Cause.Number) }
{
    if word.is_empty() {
        return Err(Cause::Number);
    }
    digits(10, word)
}

// A number with one more decimal digit.
fn with_last(value: u64, digit: u64) -> Result<u64, Cause>
    ensures { result ≡ with_last value digit }
{
    if digit >= 10 {
        return Err(Cause::Number);
    }
    match value.checked_mul(10) {
        None => Err(Cause::Range),
        Some(tens) => match tens.checked_add(digit) {
            None => Err(Cause::Range),
            Some(value) => Ok(value),
        },
    }
}

/// A number of decimal digits that 8 bytes hold.
pub(crate) fn exact(word: &[u8]) -> Result<u64, Cause>
    ensures { result ≡ exact_of word.now }
{
    match word {
        [] => Err(Cause::Number),
        [front @ .., last] => match digits(10, front) {
            Ok(value) => with_last(value, digit(*last)),
            Err(cause) => Err(cause),
        },
    }
}

/// A word of 8 bytes, by one to sixteen hexadecimal digits.
pub(crate) fn word64(word: &[u8]) -> Result<u64, Cause>
    ensures { result ≡ (if is_word word.now then Ok (word_of word.now) else Err Cause.Number) }
{
    if word.is_empty() || word.len() > 16 {
        return Err(Cause::Number);
    }
    digits(16, word)
}

/// A size in pages of 4096 bytes, rounded up.
pub(crate) fn pages(word: &[u8]) -> Result<u64, Cause>
    ensures { result ≡ (if is_size word.now
        then Ok (saturated_pages (bytes_of word.now)) else Err Cause.Number) }
{
    let bytes = match word {
        [front @ .., b'K' | b'k'] => number(front)?.saturating_mul(1 << 10),
        [front @ .., b'M' | b'm'] => number(front)?.saturating_mul(1 << 20),
        [front @ .., b'G' | b'g'] => number(front)?.saturating_mul(1 << 30),
        _ => number(word)?,
    };
    Ok(bytes.div_ceil(4096))
}

fn star(word: &[u8]) -> Option<usize>
    ensures { result ≡ star_in word.now }
{
    word.iter().position(|c| *c == b'*')
}

/// The number of an actor, and how many turns it gets.
pub(crate) fn turn(word: &[u8]) -> Result<(u64, u64), Cause>
    ensures { result ≡ (if is_turn word.now
        then Ok (saturated_turn (turn_of word.now)) else Err Cause.Number) }
{
    match star(word) {
        None => Ok((number(word)?, 1)),
        Some(at) => Ok((number(&word[..at])?, number(&word[at + 1..])?)),
    }
}
