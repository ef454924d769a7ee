//! The strict reader of outputs.

ghost use Rattle.std.specs.Prelude.{◌≡◌, ℕ, ◌+◌, ◌<◌, ◌≤◌, ◌^◌, ◌++◌, List, Err, None, IfOk, IfSome, length, drop};
ghost use Rattle.job_print.specs.declared.line.OutLine.{OutLine as Line};
ghost use Rattle.job_print.specs.Texts.{out_line};
ghost use Rattle.job_print.specs.Proper.{IsProper};
ghost use Rattle.job_print.specs.Outputs.{IsText, IsFaulty, HasFault};

use crate::find::find;
use crate::line::{OutLine, OutText};
use crate::lines::line;
use crate::words::push;
use std::alloc::{AllocError, Global};

/// Why no output was read.
#[derive(Clone, Copy, PartialEq, Eq, Debug)]
pub enum OutFault {
    /// The line of this number, from 1, isn't one.
    Line(u32),
    /// Memory was refused.
    Memory(AllocError),
}

// The line that a text begins with, and how many bytes it has.
fn first_line(alloc: Global, text: &[u8]) -> Result<Option<(OutLine, usize)>, AllocError>
    ensures proper { IfOk result (λ o. IfSome o (λ found. IsProper found.0)) }
    ensures parts { IfOk result (λ o. IfSome o (λ found. text.now
        ≡ out_line found.0 ++ drop found.1 text.now)) }
    ensures some { IfOk result (λ o. IfSome o (λ found. 1 ≤ found.1)) }
    ensures within { IfOk result (λ o. IfSome o (λ found. found.1 ≤ length text.now)) }
    ensures none { IfOk result (λ o. o ≡ None → IsFaulty text.now) }
{
    let Some(at) = find(b'\n', text) else {
        return Ok(None);
    };
    match line(alloc, &text[..at])? {
        None => Ok(None),
        Some(line) => Ok(Some((line, at + 1))),
    }
}

fn read_lines(alloc: Global, bytes: &[u8]) -> Result<OutText, OutFault>
    requires { length bytes.now < 2 ^ 32 }
    ensures found { IfOk result (IsText bytes.now) }
    ensures fault { (number : ℕ) → result ≡ Err (OutFault.Line number)
        → HasFault bytes.now number }
{
    let mut text = OutText::new(alloc);
    let mut rest = bytes;
    let mut number: u32 = 0;
    while !rest.is_empty() {
        number += 1;
        let (line, len) = match first_line(alloc, rest) {
            Ok(Some(found)) => found,
            Ok(None) => return Err(OutFault::Line(number)),
            Err(e) => return Err(OutFault::Memory(e)),
        };
        if push(&mut text, line).is_err() {
            return Err(OutFault::Memory(AllocError));
        }
        rest = &rest[len..];
    }
    Ok(text)
}

/// The lines of an output, or the first line that isn't one.
pub fn read_output(alloc: Global, bytes: &[u8]) -> Result<OutText, OutFault>
    requires { length bytes.now < 2 ^ 32 }
    ensures found { IfOk result (IsText bytes.now) }
    ensures only { IfOk result (λ text. (other : List Line) → IsText bytes.now other
        → other ≡ text) }
    ensures fault { (number : ℕ) → result ≡ Err (OutFault.Line number)
        → HasFault bytes.now number }
    ensures no_text { (number : ℕ) → result ≡ Err (OutFault.Line number)
        → (other : List Line) → IsText bytes.now other → ⊥ }
{
    read_lines(alloc, bytes)
}
