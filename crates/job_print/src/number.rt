//! Numbers in decimal.

ghost use Rattle.std.specs.Prelude.{◌≡◌, ◌<◌, ◌^◌, ◌++◌, List, length, map, Some, None, OnOk, if◌then◌else◌};
ghost use Rattle.std.specs.Fmt.{decimal};
ghost use Rattle.job_print.specs.Reading.{with_digit, digits_from, is_bare, number_in, short_in, all_in};

use std::alloc::AllocError;

/// A number without leading zeros.
pub(crate) fn put_number(out: &mut Vec<u8>, n: u64) -> Result<(), AllocError>
    ensures { OnOk result (out.new.items ≡ out.old.items ++ decimal n) }
{
    if n >= 10 {
        put_number(out, n / 10)?;
    }
    out.push(b'0' + (n % 10) as u8)?;
    Ok(())
}

fn with_digit(value: u64, c: u8) -> Option<u64>
    ensures { result ≡ with_digit value c }
{
    if c.is_ascii_digit() {
        value.checked_mul(10)?.checked_add(u64::from(c - b'0'))
    } else {
        None
    }
}

fn digits(word: &[u8]) -> Option<u64>
    ensures { result ≡ digits_from 0 word.now }
{
    let mut value = 0;
    for c in word {
        value = with_digit(value, *c)?;
    }
    Some(value)
}

/// A number without leading zeros.
#[tactic(auto, unfolding(crate::specs::Reading::number_in))]
pub(crate) fn number(word: &[u8]) -> Option<u64>
    ensures { result ≡ number_in word.now }
{
    if word.is_empty() || (word.len() > 1 && word[0] == b'0') {
        return None;
    }
    digits(word)
}

/// The same, of 4 bytes.
#[tactic(auto, unfolding(crate::specs::Reading::short_in))]
pub(crate) fn short(word: &[u8]) -> Option<u32>
    ensures { result ≡ short_in word.now }
{
    let n = number(word)?;
    if n < 1 << 32 { Some(n as u32) } else { None }
}

/// Numbers of 8 bytes, by a word each.
pub(crate) fn numbers(words: &[&[u8]], into: &mut [u64]) -> bool
    requires { length words.now ≡ length into.old }
    ensures { all_in number_in (map (λ word. word.now) words.now)
        ≡ (if result then Some into.new else None) }
{
    for k in 0..words.len() {
        match number(words[k]) {
            Some(n) => into[k] = n,
            None => return false,
        }
    }
    true
}

/// Numbers of 4 bytes, by a word each.
pub(crate) fn shorts(words: &[&[u8]], into: &mut [u32]) -> bool
    requires { length words.now ≡ length into.old }
    ensures { all_in short_in (map (λ word. word.now) words.now)
        ≡ (if result then Some into.new else None) }
{
    for k in 0..words.len() {
        match short(words[k]) {
            Some(n) => into[k] = n,
            None => return false,
        }
    }
    true
}
