//! What a backing device is: numbered blocks, each read and written as a whole.
//!
//! | Meaning | What it is | A call |
//! |---|---|---|
//! | `block_count` | how many blocks there are | never changes it |
//! | `contents` | the bytes of the blocks, if the device tells | a write changes its block alone |
//! | `fault_count` | how many calls failed | raises it exactly where it fails |
//! | `calls` | how many calls were made, if the device tells | raises it by one |
//! | `references` | the `&mut`s by which the device is reached | never changes them |

ghost use Rattle.std.specs.Prelude.{◌≡◌, ℕ, ◌<◌, ◌≤◌, List, ◌∷◌, Option, OnOk, OnErr};
ghost use Rattle.backing_dev.specs.Contents.{HasBlock, ChangesOnly, IsHonest};
ghost use Rattle.backing_dev.specs.Calls.{HasOneCallMore};
ghost use Rattle.zr_base.specs.Faults.{HasCause};

use zr_base::{Failed, Page};

/// A device of numbered blocks of 4096 bytes. Both calls name a block that the device has.
pub trait Backing: Drop {
    // How many blocks the device has.
    ghost block_count: { Self → ℕ };

    // The bytes of each block in order, where the device tells them.
    ghost contents: { Self → Option (List (List ℕ)) };

    // How many calls failed so far. The count never falls, and stands still at 2^64 - 1.
    ghost fault_count: { Self → ℕ };

    // How many reads and writes were made so far, where the device tells. The count stands still
    // at 2^64 - 1.
    ghost calls: { Self → Option ℕ };

    // The references by which the device is reached, the outermost first. No call changes them. So
    // whoever lends a device by a `&mut` that others keep knows its state when they have let it go.
    ghost references: { Self → List ℕ };

    /// How many blocks the device has, from 0 on. No call changes it.
    fn blocks(&self) -> u32
        ensures count { result ≡ block_count self.now };

    /// Reads a block. On an error `into` is as before.
    fn read(&mut self, b: u32, into: &mut Page) -> Result<(), Failed>
        requires { b < block_count self.old }
        ensures blocks { block_count self.new ≡ block_count self.old }
        ensures same { references self.new ≡ references self.old }
        ensures contents { contents self.new ≡ contents self.old }
        ensures read { OnOk result (HasBlock (contents self.new) b into.new) }
        ensures failed { OnErr result (into.new ≡ into.old) }
        ensures cause { HasCause (fault_count self.old) (fault_count self.new) result }
        ensures steady { OnOk result (fault_count self.new ≡ fault_count self.old) }
        ensures once { HasOneCallMore (calls self.old) (calls self.new) }
        ensures honest { IsHonest (contents self.old) (block_count self.old)
            → IsHonest (contents self.new) (block_count self.new) };

    /// Writes a block. On an error the block may have changed, but no other.
    fn write(&mut self, b: u32, from: &Page) -> Result<(), Failed>
        requires { b < block_count self.old }
        ensures blocks { block_count self.new ≡ block_count self.old }
        ensures same { references self.new ≡ references self.old }
        ensures written { OnOk result (HasBlock (contents self.new) b from.now) }
        ensures others { ChangesOnly (contents self.old) (contents self.new) b }
        ensures cause { HasCause (fault_count self.old) (fault_count self.new) result }
        ensures steady { OnOk result (fault_count self.new ≡ fault_count self.old) }
        ensures once { HasOneCallMore (calls self.old) (calls self.new) }
        ensures honest { IsHonest (contents self.old) (block_count self.old)
            → IsHonest (contents self.new) (block_count self.new) };

    /// How many calls failed so far. The count never falls.
    fn faults(&self) -> u64
        ensures count { result ≡ fault_count self.now };
}

impl<D: Backing> Backing for &mut D {
    ghost block_count = { λ d. D.block_count d.now };

    ghost contents = { λ d. D.contents d.now };

    ghost fault_count = { λ d. D.fault_count d.now };

    ghost calls = { λ d. D.calls d.now };

    ghost references = { λ d. d.ghost_name ∷ D.references d.now };

    fn blocks(&self) -> u32 {
        (**self).blocks()
    }

    fn read(&mut self, b: u32, into: &mut Page) -> Result<(), Failed> {
        (**self).read(b, into)
    }

    fn write(&mut self, b: u32, from: &Page) -> Result<(), Failed> {
        (**self).write(b, from)
    }

    fn faults(&self) -> u64 {
        (**self).faults()
    }
}
