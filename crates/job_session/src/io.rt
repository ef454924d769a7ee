//! Bytes to a sink and from a source.

ghost use Rattle.std.specs.Prelude.{◌≡◌, ℕ, ◌≤◌, ◌<◌, true, List, [], IfOk, OnOk, OnErr, IfErr, length, take};
ghost use Rattle.std.specs.Io.KnownBytes.{Appends, Consumes, IsAtEnd};
ghost use Rattle.job_session.specs.Runs.{BeginsWith, WriteCause};
ghost use Rattle.job_session.specs.Telling.{ReadCause};

use crate::stop::NoText;
use job_text::MOST_BYTES;
use std::alloc::Global;
use zr_base::{Failed, Sink, Source};

/// The most bytes of one read or write.
pub(crate) const PIECE: usize = 65_536;

// One write of at most 64 KiB, which takes some bytes.
fn send_some<K: Sink>(out: &mut K, bytes: &[u8]) -> Result<usize, Failed>
    requires { 0 < length bytes.now }
    ensures some { IfOk result (λ n. (1 ≤ n) × (n ≤ length bytes.now)) }
    ensures sent { IfOk result
        (λ n. Appends (K.written out.old) (K.written out.new) (take n bytes.now)) }
    ensures none { OnErr result (Appends (K.written out.old) (K.written out.new) []) }
    ensures later { K.fault_count out.old ≤ K.fault_count out.new }
    ensures stays { K.has_stopped out.old ≡ true → K.has_stopped out.new ≡ true }
    ensures cause { OnErr result
        (WriteCause (K.fault_count out.old) (K.fault_count out.new) (K.has_stopped out.new)) }
{
    let (piece, _) = bytes.split_at(bytes.len().min(PIECE));
    match out.write(piece) {
        Ok(0) => Err(Failed),
        Ok(n) => Ok(n),
        Err(Failed) => Err(Failed),
    }
}

/// Sends all bytes to the sink, in pieces of at most 64 KiB.
pub(crate) fn send<K: Sink>(out: &mut K, bytes: &[u8]) -> Result<(), Failed>
    ensures all { OnOk result (Appends (K.written out.old) (K.written out.new) bytes.now) }
    ensures some { BeginsWith (K.written out.old) (K.written out.new) bytes.now }
    ensures later { K.fault_count out.old ≤ K.fault_count out.new }
    ensures stays { K.has_stopped out.old ≡ true → K.has_stopped out.new ≡ true }
    ensures cause { OnErr result
        (WriteCause (K.fault_count out.old) (K.fault_count out.new) (K.has_stopped out.new)) }
{
    let mut at = 0;
    while at < bytes.len() {
        at += send_some(out, &bytes[at..])?;
    }
    Ok(())
}

/// Reads a source to its end, or until it has given more bytes than a job's text may have.
pub(crate) fn read_all<S: Source>(alloc: Global, job: &mut S) -> Result<Vec<u8>, NoText>
    ensures done { IfOk result (λ text. Consumes (S.left job.old) (S.left job.new) text.items
        × IsAtEnd (S.left job.new)) }
    ensures cause { IfErr result (ReadCause (S.left job.old) (S.left job.new)
        (S.fault_count job.old) (S.fault_count job.new)) }
{
    let mut chunk = [0; PIECE];
    let mut text = Vec::new(alloc);
    while text.len() <= MOST_BYTES {
        let n = match job.read(&mut chunk) {
            Ok(0) => return Ok(text),
            Ok(n) => n,
            Err(Failed) => return Err(NoText::Failed),
        };
        text.extend_from_slice(&chunk[..n])?;
    }
    Err(NoText::Long)
}
