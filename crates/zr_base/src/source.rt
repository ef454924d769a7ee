//! Where a job's bytes come from.

ghost use Rattle.std.specs.Prelude.{◌≡◌, ℕ, ◌+◌, ◌-◌, ◌^◌, ◌≤◌, ◌↔◌, List, Option, None, Some, min, length, cond, is_err, IsErr, IfOk, OnErr};
ghost use Rattle.std.specs.Io.{ReadsAtMost};
ghost use Rattle.std.specs.Io.KnownBytes.{ReadConsumes};
ghost use Rattle.zr_base.specs.Faults.{HasCause, FailsNext};

use crate::page::Failed;
use crate::planned::Planned;
use std::alloc::{AllocError, Global};
use std::io::Read;
use std::marker::Model;

/// Bytes to be read. A read of 0 bytes into some room is the end of the input.
pub trait Source {
    // The bytes left, where the source tells them.
    ghost left: { Self → Option (List ℕ) };

    // How many reads have failed. The count never falls, and stands still at 2^64 - 1.
    ghost fault_count: { Self → ℕ };

    /// Puts a prefix of what is left at the front of `into`, and answers its length.
    /// `Failed` comes only where the count of faults rose; then what is left stays.
    fn read(&mut self, into: &mut [u8]) -> Result<usize, Failed>
        ensures bound { ReadsAtMost result into.new }
        ensures bytes { ReadConsumes (left self.old) (left self.new) result into.new }
        ensures cause { HasCause (fault_count self.old) (fault_count self.new) result };

    /// The count of faults.
    fn faults(&self) -> u64
        ensures { result ≡ fault_count self.now };
}

/// A source in memory, whose calls with planned numbers fail.
#[derive(Drop)]
pub struct MemSource {
    bytes: Vec<u8>,
    at: usize,
    planned: Planned,
}

impl Model for MemSource {
    ghost use Rattle.std.specs.Prelude.{ℕ, ◌≤◌, List, drop, vec_len};
    ghost use Rattle.zr_base.specs.Memory.{Supply};

    ghost Value = { Supply };

    ghost view = { λ s. record {
      left = drop s.at s.bytes.items;
      calls = s.planned.calls;
      failing = s.planned.failing.items;
      faults = s.planned.faults;
    } };

    ghost invariant = { λ s. s.at ≤ vec_len s.bytes };
}

impl MemSource {
    /// A source of these bytes; the calls with the numbers in `failing`, from 1, fail. Err is want
    /// of memory.
    pub fn new(alloc: Global, bytes: &[u8], failing: &[u64]) -> Result<MemSource, AllocError>
        ensures { IfOk result (λ s. s ≡ record {
          left = bytes.now;
          calls = 0;
          failing = failing.now;
          faults = 0;
        }) }
    {
        Ok(MemSource {
            bytes: bytes.to_vec(alloc)?,
            at: 0,
            planned: Planned::new(alloc, failing)?,
        })
    }
}

impl Source for MemSource {
    ghost use Rattle.std.specs.Prelude.{◌≡◌, ℕ, ◌+◌, ◌-◌, ◌^◌, ◌↔◌, List, Option, Some, min, length, cond, is_err, IsErr, IfOk};
    ghost use Rattle.std.specs.Io.{ReadsAtMost};
    ghost use Rattle.std.specs.Io.KnownBytes.{ReadConsumes};
    ghost use Rattle.zr_base.specs.Faults.{HasCause, FailsNext};

    ghost left = { λ s. Some s.left };

    ghost fault_count = { λ s. s.faults };

    fn read(&mut self, into: &mut [u8]) -> Result<usize, Failed>
        ensures bound { ReadsAtMost result into.new }
        ensures bytes { ReadConsumes (Some self.old.left) (Some self.new.left) result into.new }
        ensures cause { HasCause self.old.faults self.new.faults result }

        // It fails exactly at the planned calls, and else gives all that fits.
        ensures planned { IsErr result ↔ FailsNext self.old.calls self.old.failing }
        ensures calls { self.new.calls ≡ min (self.old.calls + 1) (2 ^ 64 - 1) }
        ensures failing { self.new.failing ≡ self.old.failing }
        ensures faults { self.new.faults ≡ self.old.faults + cond (is_err result) 1 0 }
        ensures most { IfOk result (λ n. n ≡ min (length into.old) (length self.old.left)) }
    {
        if self.planned.fails() {
            return Err(Failed);
        }
        let n = into.len().min(self.bytes.len() - self.at);
        into[..n].copy_from_slice(&self.bytes[self.at..self.at + n]);
        self.at += n;
        Ok(n)
    }

    fn faults(&self) -> u64 {
        self.planned.faults
    }
}

/// A source over a reader of std. It tells no bytes. Each error of the reader raises the count of
/// faults.
#[derive(Drop)]
pub struct StdSource<R> {
    inner: R,
    faults: u64,
}

impl<R: Read> StdSource<R> {
    /// A source of what the reader gives.
    pub fn new(inner: R) -> StdSource<R>
        ensures { result.faults ≡ 0 }
    {
        StdSource { inner, faults: 0 }
    }
}

impl<R: Read> Source for StdSource<R> {
    ghost use Rattle.std.specs.Prelude.{None};

    ghost left = { λ s. None };

    ghost fault_count = { λ s. s.faults };

    fn read(&mut self, into: &mut [u8]) -> Result<usize, Failed> {
        match self.inner.read(into) {
            Ok(n) => Ok(n),
            Err(_) if self.faults < u64::MAX => {
                self.faults += 1;
                Err(Failed)
            }
            Err(_) => Ok(0),
        }
    }

    fn faults(&self) -> u64 {
        self.faults
    }
}
