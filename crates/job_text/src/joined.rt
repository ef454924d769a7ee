//! The digits after `hex`, of several words joined.

ghost use Rattle.std.specs.Prelude.{◌≡◌, ℕ, ◌+◌, ◌*◌, ◌<◌, map, IfOk, true, OnOk, ◌++◌, [], ◌∷◌};
ghost use Rattle.std.specs.List.{concat};
ghost use Rattle.job_text.specs.Numbers.{digit_value, are_digits, bytes_by};

use crate::job::push;
use crate::number::digit;
use std::alloc::{AllocError, Global};
use zr_base::Bytes;

/// The letters of all words, one word after the other.
pub(crate) fn joined(alloc: Global, words: &[&[u8]]) -> Result<Vec<u8>, AllocError>
    ensures { IfOk result (λ v. v.items ≡ concat (map (λ word. word.now) words.now)) }
{
    let mut all = Vec::new(alloc);
    for word in words {
        all.extend_from_slice(word)?;
    }
    Ok(all)
}

pub(crate) fn are_hex(digits: &[u8]) -> bool
    ensures { result ≡ are_digits 16 digits.now }
{
    digits.iter().all(|c| digit(*c) < 16)
}

// The byte of two digits.
fn byte(high: u8, low: u8) -> u8
    requires high { digit_value high < 16 }
    requires low { digit_value low < 16 }
    ensures { result ≡ 16 * digit_value high + digit_value low }
{
    (16 * digit(high) + digit(low)) as u8
}

/// The bytes of digits, two for each.
pub(crate) fn bytes(alloc: Global, digits: &[u8]) -> Result<Bytes, AllocError>
    requires { are_digits 16 digits.now ≡ true }
    ensures { IfOk result (λ bytes. bytes ≡ bytes_by digits.now) }
{
    let mut bytes = Bytes::new(alloc);
    for k in 0..digits.len() / 2 {
        push(&mut bytes, byte(digits[2 * k], digits[2 * k + 1]))?;
    }
    Ok(bytes)
}
