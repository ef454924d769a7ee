//! A device with the counters of zram's `bd_stat`: a call is one call of the device, and counts
//! where it succeeds.

ghost use Rattle.std.specs.Prelude.{◌≡◌, ◌<◌, OnOk, OnErr, IfErr};
ghost use Rattle.backing_dev.specs.Dev.{DeviceState, ReadsBlock, FailsToRead, WritesBlock, FailsToWrite};

use crate::backing::Backing;
use std::marker::Model;
use zr_base::Page;

/// A device, and how many of its calls succeeded. A count stands still at 2^64 - 1.
#[derive(Drop)]
pub struct Dev<D: Backing> {
    dev: D,
    reads: u64,
    writes: u64,
}

impl<D: Backing> Model for Dev<D> {
    ghost use Rattle.backing_dev.specs.Dev.{DeviceState};

    ghost Value = { DeviceState };

    ghost view = { λ d. record {
      blocks = D.block_count d.dev;
      contents = D.contents d.dev;
      faults = D.fault_count d.dev;
      calls = D.calls d.dev;
      references = D.references d.dev;
      reads = d.reads;
      writes = d.writes;
    } };
}

impl<D: Backing> Dev<D> {
    /// Takes the device, with no calls counted.
    pub fn new(dev: D) -> Dev<D>
        ensures { result ≡ record {
          blocks = D.block_count dev;
          contents = D.contents dev;
          faults = D.fault_count dev;
          calls = D.calls dev;
          references = D.references dev;
          reads = 0;
          writes = 0;
        } }
    {
        Dev {
            dev,
            reads: 0,
            writes: 0,
        }
    }

    /// Gives the device back.
    pub fn into_inner(self) -> D
        ensures blocks { D.block_count result ≡ self.blocks }
        ensures contents { D.contents result ≡ self.contents }
        ensures faults { D.fault_count result ≡ self.faults }
        ensures calls { D.calls result ≡ self.calls }
        ensures same { D.references result ≡ self.references }
    {
        let Dev {
            dev,
            reads: _,
            writes: _,
        } = self;
        dev
    }

    /// How many blocks the device has.
    pub fn blocks(&self) -> u32
        ensures { result ≡ self.now.blocks }
    {
        self.dev.blocks()
    }

    /// How many reads succeeded.
    pub fn reads(&self) -> u64
        ensures count { result ≡ self.now.reads }
    {
        self.reads
    }

    /// How many writes succeeded.
    pub fn writes(&self) -> u64
        ensures count { result ≡ self.now.writes }
    {
        self.writes
    }

    /// Reads a block of the device. An error is the device's count of faults after the call.
    pub fn read(&mut self, b: u32, into: &mut Page) -> Result<(), u64>
        requires { b < self.old.blocks }
        ensures read { OnOk result (ReadsBlock self.old self.new b into.new) }
        ensures fault { IfErr result (FailsToRead self.old self.new) }
        ensures failed { OnErr result (into.new ≡ into.old) }
    {
        match self.dev.read(b, into) {
            Ok(()) => {
                self.reads = self.reads.saturating_add(1);
                Ok(())
            }
            Err(_failed) => Err(self.dev.faults()),
        }
    }

    /// Writes a block of the device. An error is the device's count of faults after the call; the
    /// block may have changed then, but no other.
    pub fn write(&mut self, b: u32, from: &Page) -> Result<(), u64>
        requires { b < self.old.blocks }
        ensures written { OnOk result (WritesBlock self.old self.new b from.now) }
        ensures fault { IfErr result (FailsToWrite self.old self.new b) }
    {
        match self.dev.write(b, from) {
            Ok(()) => {
                self.writes = self.writes.saturating_add(1);
                Ok(())
            }
            Err(_failed) => Err(self.dev.faults()),
        }
    }
}
