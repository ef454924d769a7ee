//! A sink for lines that nobody reads.

use zr_base::{Failed, Sink};

/// A sink that takes all bytes and keeps none.
#[derive(Clone, Copy, Debug)]
pub(crate) struct Quiet;

impl Sink for Quiet {
    ghost use Rattle.std.specs.Prelude.{None, false};

    ghost written = { λ s. None };

    ghost fault_count = { λ s. 0 };

    ghost has_stopped = { λ s. false };

    fn write(&mut self, from: &[u8]) -> Result<usize, Failed> {
        Ok(from.len())
    }

    fn faults(&self) -> u64 {
        0
    }
}
