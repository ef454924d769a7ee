//! The text of a line.

ghost use Rattle.std.specs.Prelude.{◌≡◌, ◌++◌, OnOk, OnErr};
ghost use Rattle.job_print.specs.Texts.{out_line};
ghost use Rattle.job_print.specs.Proper.{IsProper};

use crate::line::OutLine;
use crate::put::{
    put_bytes, put_calls, put_class, put_device, put_ended, put_fault, put_fill, put_memory,
    put_ordered, put_refused, put_state, put_usage,
};
use std::alloc::AllocError;

// The text of a line, put after other text.
fn put_line(out: &mut Vec<u8>, line: &OutLine) -> Result<(), AllocError>
    ensures { OnOk result (out.new.items ≡ out.old.items ++ out_line line.now) }
{
    match line {
        OutLine::Op { actor, op, end } => put_ended(out, *actor, *op, *end),
        OutLine::Fill(word) => put_fill(out, *word),
        OutLine::Hex(bytes) => put_bytes(out, bytes.as_slice()),
        OutLine::Order { page, tags } => put_ordered(out, *page, tags.as_slice()),
        OutLine::Mm(stat) => put_memory(out, stat),
        OutLine::Io(stat) => put_calls(out, stat),
        OutLine::Bd(stat) => put_device(out, stat),
        OutLine::Refused(refusal) => put_refused(out, *refusal),
        OutLine::State {
            page,
            letters,
            touched,
        } => put_state(out, *page, letters, *touched),
        OutLine::Class(stat) => put_class(out, stat),
        OutLine::Job(fault) => put_fault(out, *fault),
        OutLine::Usage => put_usage(out),
    }
}

/// Puts the text of a line after other text. Err says that memory was refused.
pub fn print(line: &OutLine, out: &mut Vec<u8>) -> Result<(), AllocError>
    requires { IsProper line.now }
    ensures ok { OnOk result (out.new.items ≡ out.old.items ++ out_line line.now) }
    ensures err { OnErr result (out.new.items ≡ out.old.items) }
{
    let mut text = Vec::new(*out.allocator());
    put_line(&mut text, line)?;
    out.extend_from_slice(&text)?;
    Ok(())
}
