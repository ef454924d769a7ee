//! The reader of a job's text.

ghost use Rattle.std.specs.Prelude.{◌≡◌, ℕ, ◌+◌, ◌<◌, ◌≤◌, List, ◌∷◌, Some, Err, IfOk, IfErr, OnOk, length, ◌==◌, position};
ghost use Rattle.job_text.specs.declared.job.Item.{Item as JobItem};
ghost use Rattle.job_text.specs.Jobs.{IsJob, text_lines};
ghost use Rattle.job_text.specs.Totals.{IsWithinLimits};
ghost use Rattle.job_text.specs.Faults.{first_fault};
ghost use Rattle.job_text.specs.Reading.{IsNotTaken, cause_at, KeepsFault, KeepsItems, HasFault, job_of, lines_left, bytes_left};

use crate::fault::{Cause, JobFault, NotTaken, ReadFault};
use crate::job::Job;
use crate::limits::MOST_BYTES;
use crate::line::{line_by_words, words};
use crate::reading::Reading;
use std::alloc::Global;

// Where the first line of a text ends, if another follows.
fn line_end(text: &[u8]) -> Option<usize>
    ensures { result ≡ position (λ byte. byte == 10) text.now }
{
    text.iter().position(|byte| *byte == b'\n')
}

// The first line of a text, and the text after it.
fn first_line(text: &[u8]) -> (&[u8], Option<&[u8]>)
    ensures lines { text_lines text.now ≡ result.0.now ∷ lines_left result.1 }
    ensures shorter { bytes_left result.1 < length text.now + 1 }
{
    match line_end(text) {
        Some(at) => (&text[..at], Some(&text[at + 1..])),
        None => (text, None),
    }
}

// The line of this number is taken.
fn take_line(reading: &mut Reading, alloc: Global, number: u32, line: &[u8]) -> Result<(), NotTaken>
    ensures fault { IfErr result (IsNotTaken (cause_at reading.old line.now)) }
    ensures faultless { OnOk result (KeepsFault reading.old number line.now reading.new) }
    ensures goes_on { OnOk result (KeepsItems reading.old line.now reading.new) }
{
    let words = words(alloc, line)?;
    let line = line_by_words(alloc, &words)?;
    reading.take(alloc, number, line)
}

// The same, with the line told where it is faulty.
fn numbered(reading: &mut Reading, alloc: Global, number: u32, line: &[u8]) -> Result<(), ReadFault>
    ensures bad { (fault : JobFault) → result ≡ Err (ReadFault.Bad fault)
        → HasFault reading.old number line.now fault }
    ensures faultless { OnOk result (KeepsFault reading.old number line.now reading.new) }
    ensures goes_on { OnOk result (KeepsItems reading.old line.now reading.new) }
{
    match take_line(reading, alloc, number, line) {
        Ok(()) => Ok(()),
        Err(NotTaken::Faulty(cause)) => Err(ReadFault::Bad(JobFault {
            line: number,
            cause,
        })),
        Err(NotTaken::Memory(e)) => Err(ReadFault::Memory(e)),
    }
}

// The same as `read_job`, by the function that the reader is.
fn read_exact(alloc: Global, bytes: &[u8]) -> Result<Job, ReadFault>
    ensures found { IfOk result (λ job. job_of bytes.now ≡ Some job) }
    ensures bad { (fault : JobFault) → result ≡ Err (ReadFault.Bad fault)
        → first_fault bytes.now ≡ Some fault }
{
    if bytes.len() > MOST_BYTES {
        return Err(ReadFault::Bad(JobFault {
            line: 0,
            cause: Cause::TooMany,
        }));
    }
    let mut reading = Reading::new(alloc);
    let mut rest = Some(bytes);
    let mut number: u32 = 1;
    while let Some(text) = rest {
        let (line, more) = first_line(text);
        numbered(&mut reading, alloc, number, line)?;
        number += 1;
        rest = more;
    }
    match reading.finish() {
        Ok(job) => Ok(job),
        Err(fault) => Err(ReadFault::Bad(fault)),
    }
}

/// The job that a text is, or its first faulty line with the first of the causes that this line
/// has.
pub fn read_job(alloc: Global, bytes: &[u8]) -> Result<Job, ReadFault>
    ensures found { IfOk result (λ job. IsJob bytes.now job) }
    ensures only { IfOk result (λ job. (other : List JobItem) → IsJob bytes.now other
        → other ≡ job) }
    ensures within { IfOk result IsWithinLimits }
    ensures bad { (fault : JobFault) → result ≡ Err (ReadFault.Bad fault)
        → first_fault bytes.now ≡ Some fault }
    ensures no_job { (fault : JobFault) → result ≡ Err (ReadFault.Bad fault)
        → (job : List JobItem) → IsJob bytes.now job → ⊥ }
{
    read_exact(alloc, bytes)
}
