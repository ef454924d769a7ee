//! Bytes as lower-case digits, two a byte: sixteen bytes at a time, and those that are left one by
//! one.

ghost use Rattle.std.specs.Prelude.{◌≡◌, ◌+◌, ◌*◌, ◌/◌, ◌%◌, ◌<◌, ◌≤◌, ◌++◌, length, map, take};
ghost use Rattle.std.specs.List.{flat_map};
ghost use Rattle.std.specs.Simd.Lanes.{Each1};
ghost use Rattle.job_print.specs.Texts.{hex_digit, hex_byte};

use std::simd::prelude::*;

// A sum without a branch, so that many digits are made at once.
fn hex_of(digit: u8) -> u8
    requires { digit ≤ 15 }
    ensures { result ≡ hex_digit digit }
{
    let above = if digit < 10 { 0 } else { b'a' - b'0' - 10 };
    b'0' + digit + above
}

// The digit of each number.
#[inline(always)]
fn digits_of(numbers: u8x16) -> u8x16
    requires { Each1 (λ n. n < 16) numbers }
    ensures { result ≡ map hex_digit numbers }
{
    u8x16::from_array(*b"0123456789abcdef").swizzle_dyn(numbers)
}

#[inline(always)]
fn high_digits(bytes: u8x16) -> u8x16
    ensures { result ≡ map (λ b. hex_digit (b / 16)) bytes }
{
    digits_of(bytes >> u8x16::splat(4))
}

#[inline(always)]
fn low_digits(bytes: u8x16) -> u8x16
    ensures { result ≡ map (λ b. hex_digit (b % 16)) bytes }
{
    digits_of(bytes & u8x16::splat(15))
}

// Puts the digits of sixteen bytes at `at`.
#[inline(always)]
fn put_sixteen(digits: &mut [u8], at: usize, bytes: u8x16)
    requires { at + 32 ≤ length digits.old }
    ensures size { length digits.new ≡ length digits.old }
    ensures put { take (at + 32) digits.new ≡ take at digits.old ++ flat_map hex_byte bytes }
{
    let (front, back) = high_digits(bytes).interleave(low_digits(bytes));
    front.copy_to_slice(&mut digits[at..]);
    back.copy_to_slice(&mut digits[at + 16..]);
}

// Puts the digits of the bytes from `first` on, where those before it are put.
fn put_rest(digits: &mut [u8], bytes: &[u8], first: usize)
    requires size { length digits.old ≡ 2 * length bytes.now }
    requires within { first ≤ length bytes.now }
    requires so_far { take (2 * first) digits.old ≡ flat_map hex_byte (take first bytes.now) }
    ensures { digits.new ≡ flat_map hex_byte bytes.now }
{
    for k in first..bytes.len() {
        digits[2 * k] = hex_of(bytes[k] / 16);
        digits[2 * k + 1] = hex_of(bytes[k] % 16);
    }
}

/// Puts the digits of bytes, two lower-case ones each, over a text that is as long.
pub(crate) fn set_hex(digits: &mut [u8], bytes: &[u8])
    requires { length digits.old ≡ 2 * length bytes.now }
    ensures { digits.new ≡ flat_map hex_byte bytes.now }
{
    let whole = bytes.len() / 16;
    for k in 0..whole {
        put_sixteen(digits, 32 * k, u8x16::from_slice(&bytes[16 * k..]));
    }
    put_rest(digits, bytes, 16 * whole);
}
