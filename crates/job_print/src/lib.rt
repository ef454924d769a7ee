//! The lines of an output, and their text, both ways.
#![tactic(auto)]

mod find;
mod hex;
mod laws;
mod line;
mod lines;
mod number;
mod put;
mod reader;
mod text;
mod words;

pub use laws::equal_words_fill;
pub use line::{OutLine, OutText, Refusal, TagList};
pub use put::{
    put_calls, put_class, put_device, put_fault, put_memory, put_op, put_order, put_refused,
    put_state, put_usage,
};
pub use reader::{OutFault, read_output};
pub use text::print;

#[cfg(test)]
mod tests;
