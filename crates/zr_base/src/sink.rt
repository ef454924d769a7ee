//! Where an output's bytes go.

ghost use Rattle.std.specs.Prelude.{◌≡◌, ◌⊎◌, ℕ, ◌+◌, ◌-◌, ◌^◌, ◌≤◌, ◌↔◌, Bool, true, false, IsTrue, List, [], Option, None, Some, min, length, cond, is_err, IsErr, IfOk, OnErr};
ghost use Rattle.std.specs.Io.{WritesAtMost};
ghost use Rattle.std.specs.Io.KnownBytes.{WriteAppends};
ghost use Rattle.zr_base.specs.Faults.{HasCause, FailsNext, TookNone};

use crate::page::Failed;
use crate::planned::Planned;
use std::alloc::{AllocError, Global};
use std::io::Write;
use std::marker::Model;

/// Bytes to be written. A sink that took 0 bytes of a non-empty piece has stopped.
pub trait Sink {
    // The bytes written, where the sink tells them.
    ghost written: { Self → Option (List ℕ) };

    // How many writes have failed. The count never falls, and stands still at 2^64 - 1.
    ghost fault_count: { Self → ℕ };

    // Whether some call took nothing of a non-empty piece.
    ghost has_stopped: { Self → Bool };

    /// Appends a prefix of `from`, and answers its length.
    /// `Failed` comes only where the count of faults rose; then nothing is appended.
    fn write(&mut self, from: &[u8]) -> Result<usize, Failed>
        ensures bound { WritesAtMost result from.now }
        ensures bytes { WriteAppends (written self.old) (written self.new) result from.now }
        ensures cause { HasCause (fault_count self.old) (fault_count self.new) result }
        ensures stops { IsTrue (has_stopped self.new)
            ↔ (IsTrue (has_stopped self.old) ⊎ TookNone result from.now) };

    /// The count of faults.
    fn faults(&self) -> u64
        ensures { result ≡ fault_count self.now };
}

/// A sink in memory that takes so many bytes in all and then 0, and whose calls with planned
/// numbers fail.
#[derive(Drop)]
pub struct MemSink {
    bytes: Vec<u8>,
    room: usize,
    planned: Planned,
    stopped: bool,
}

impl Model for MemSink {
    ghost use Rattle.std.specs.Prelude.{ℕ, ◌+◌, ◌≤◌, Bool, List, vec_len, vec_capacity};
    ghost use Rattle.zr_base.specs.Memory.{Store};

    ghost Value = { Store };

    ghost view = { λ s. record {
      written = s.bytes.items;
      room = s.room;
      calls = s.planned.calls;
      failing = s.planned.failing.items;
      faults = s.planned.faults;
      stopped = s.stopped;
    } };

    ghost invariant = { λ s. vec_len s.bytes + s.room ≤ vec_capacity s.bytes };
}

impl MemSink {
    /// A sink that takes `room` bytes in all; the calls with the numbers in `failing`, from 1,
    /// fail.
    /// It takes the memory of all bytes here. Err is refused memory.
    pub fn new(alloc: Global, room: usize, failing: &[u64]) -> Result<MemSink, AllocError>
        ensures { IfOk result (λ s. s ≡ record {
          written = [];
          room = room;
          calls = 0;
          failing = failing.now;
          faults = 0;
          stopped = false;
        }) }
    {
        Ok(MemSink {
            bytes: Vec::with_capacity(alloc, room)?,
            room,
            planned: Planned::new(alloc, failing)?,
            stopped: false,
        })
    }

    /// What was written.
    pub fn bytes(&self) -> &[u8]
        ensures { result.now ≡ self.now.written }
    {
        &self.bytes
    }
}

impl Sink for MemSink {
    ghost use Rattle.std.specs.Prelude.{◌≡◌, ◌⊎◌, ℕ, ◌+◌, ◌-◌, ◌^◌, ◌↔◌, IsTrue, Some, min, length, cond, is_err, IsErr, IfOk, OnErr};
    ghost use Rattle.std.specs.Io.{WritesAtMost};
    ghost use Rattle.std.specs.Io.KnownBytes.{WriteAppends};
    ghost use Rattle.zr_base.specs.Faults.{HasCause, FailsNext, TookNone};

    ghost written = { λ s. Some s.written };

    ghost fault_count = { λ s. s.faults };

    ghost has_stopped = { λ s. s.stopped };

    fn write(&mut self, from: &[u8]) -> Result<usize, Failed>
        ensures bound { WritesAtMost result from.now }
        ensures bytes { WriteAppends (Some self.old.written) (Some self.new.written)
            result from.now }
        ensures cause { HasCause self.old.faults self.new.faults result }
        ensures stops { IsTrue self.new.stopped
            ↔ (IsTrue self.old.stopped ⊎ TookNone result from.now) }

        // It fails exactly at the planned calls, and else takes all that there is room for.
        ensures planned { IsErr result ↔ FailsNext self.old.calls self.old.failing }
        ensures calls { self.new.calls ≡ min (self.old.calls + 1) (2 ^ 64 - 1) }
        ensures failing { self.new.failing ≡ self.old.failing }
        ensures faults { self.new.faults ≡ self.old.faults + cond (is_err result) 1 0 }
        ensures most { IfOk result (λ n. n ≡ min (length from.now) self.old.room) }
        ensures room_shrinks { IfOk result (λ n. self.new.room ≡ self.old.room - n) }
        ensures room_stays { OnErr result (self.new.room ≡ self.old.room) }
    {
        if self.planned.fails() {
            return Err(Failed);
        }
        let n = from.len().min(self.room);
        match self.bytes.extend_from_slice(&from[..n]) {
            Ok(()) => {}
            Err(_) => unreachable!(),
        }
        self.room -= n;
        self.stopped = self.stopped || (n == 0 && !from.is_empty());
        Ok(n)
    }

    fn faults(&self) -> u64 {
        self.planned.faults
    }
}

/// A sink over a writer of std. It tells no bytes. Each error of the writer raises the count of
/// faults.
#[derive(Drop)]
pub struct StdSink<W> {
    inner: W,
    faults: u64,
    stopped: bool,
}

impl<W: Write> StdSink<W> {
    /// A sink to the writer. It hasn't stopped.
    pub fn new(inner: W) -> StdSink<W>
        ensures goes_on { result.stopped ≡ false }
        ensures faultless { result.faults ≡ 0 }
    {
        StdSink {
            inner,
            faults: 0,
            stopped: false,
        }
    }
}

impl<W: Write> Sink for StdSink<W> {
    ghost use Rattle.std.specs.Prelude.{None};

    ghost written = { λ s. None };

    ghost fault_count = { λ s. s.faults };

    ghost has_stopped = { λ s. s.stopped };

    fn write(&mut self, from: &[u8]) -> Result<usize, Failed> {
        let taken = match self.inner.write(from) {
            Ok(n) => n,
            Err(_) if self.faults < u64::MAX => {
                self.faults += 1;
                return Err(Failed);
            }
            Err(_) => 0,
        };
        self.stopped = self.stopped || (taken == 0 && !from.is_empty());
        Ok(taken)
    }

    fn faults(&self) -> u64 {
        self.faults
    }
}
