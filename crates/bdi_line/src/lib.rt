//! A line of 64 bytes coded by Base-Delta-Immediate compression (PACT 2012), with two bases, one of
//! them zero, and bytes are read back only where they are what a line is packed as.
//!
//! Values of 8, 4 or 2 bytes are read little endian. A value is small where its signed reading fits
//! the delta's width; a value that isn't must be near the base, the first such value. The code of a
//! line is the smallest that fits, the lower number on a tie.
//!
//! | Number | Code | Value | Delta | Payload | Bytes |
//! |---|---|---|---|---|---|
//! | 0 | Zeros | | | none; all bytes are 0 | 0 |
//! | 1 | Repeated | 8 | | the word that all eight words equal | 8 |
//! | 2 | B8D1 | 8 | 1 | mask 1, base 8, deltas 8 | 17 |
//! | 3 | B8D2 | 8 | 2 | mask 1, base 8, deltas 16 | 25 |
//! | 4 | B8D4 | 8 | 4 | mask 1, base 8, deltas 32 | 41 |
//! | 5 | B4D1 | 4 | 1 | mask 2, base 4, deltas 16 | 22 |
//! | 6 | B4D2 | 4 | 2 | mask 2, base 4, deltas 32 | 38 |
//! | 7 | B2D1 | 2 | 1 | mask 4, base 2, deltas 32 | 38 |
//! | 8 | Raw | | | the line | 64 |
#![tactic(auto)]

mod codes;
mod halves;
mod laws;
mod pack;
mod quarters;
mod read;
mod words;

pub use codes::Code;
pub use laws::{codings_have_one_line, lines_have_one_coding, payloads_are_bytes};
pub use pack::pack_line;
pub use read::{decode_line, unpack_line};

#[cfg(test)]
mod tests;
