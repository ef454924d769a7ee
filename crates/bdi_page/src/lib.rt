//! A page of 4096 bytes packed line by line: 32 bytes of codes, two codes a byte, and then the
//! payloads of its 64 lines. Byte j holds the number of line 2j in its low four bits and that of
//! line 2j + 1 in its high four bits.
//!
//! Bytes are unpacked only where they are a page's packing, so each page has one packing, and each
//! packing one page. Bytes that are known to be a packing are decoded, without these checks.
#![tactic(auto)]

mod laws;
mod reader;
mod writer;

pub use laws::{packings_are_bytes, packings_have_one_page, pages_have_one_packing};
pub use reader::{decode, unpack};
pub use writer::pack;

#[cfg(test)]
mod tests;
