//! What the values of locks are, once they are taken.

ghost use Rattle.std.specs.Prelude.{◌≡◌};
ghost use Rattle.lock_row.specs.declared.names.Held.TheVariants as holds;
ghost use Rattle.slot_entry.specs.Entries.{weight_of};

use crate::stage::DiskHeld;
use backing_dev::{Backing, Dev};
use block_map::Blocks;
use class_pool::ClassPool;
use lock_row::Held;
use mem_account::{Account, Weight};
use slot_entry::{Entry, Kept};

/// The entry of a page's slot.
pub fn entry_of<D: Backing>(value: DiskHeld<D>) -> Entry
    requires { (e : _) × (value ≡ holds.Slot e) }
    ensures { value ≡ holds.Slot result }
{
    match value {
        Held::Slot(entry) => entry,
        _ => unreachable!(),
    }
}

/// The pool of a class, from what its lock guards.
pub fn pool_of<D: Backing>(value: DiskHeld<D>) -> ClassPool
    requires { (q : _) × (value ≡ holds.Class q) }
    ensures { value ≡ holds.Class result }
{
    match value {
        Held::Class(pool) => pool,
        _ => unreachable!(),
    }
}

/// The account, from what its lock guards.
pub fn account_of<D: Backing>(value: DiskHeld<D>) -> Account
    requires { (a : _) × (value ≡ holds.Account a) }
    ensures { value ≡ holds.Account result }
{
    match value {
        Held::Account(account) => account,
        _ => unreachable!(),
    }
}

/// The map of blocks, from what its lock guards.
pub fn blocks_of<D: Backing>(value: DiskHeld<D>) -> Blocks
    requires { (x : _) × (value ≡ holds.Blocks x) }
    ensures { value ≡ holds.Blocks result }
{
    match value {
        Held::Blocks(blocks) => blocks,
        _ => unreachable!(),
    }
}

/// The device, from what its lock guards.
pub fn device_of<D: Backing>(value: DiskHeld<D>) -> Dev<D>
    requires { (d : _) × (value ≡ holds.Device d) }
    ensures { value ≡ holds.Device result }
{
    match value {
        Held::Device(device) => device,
        _ => unreachable!(),
    }
}

/// How a page of this form weighs.
pub fn weight_in(kept: Kept) -> Weight
    ensures { result ≡ weight_of kept }
{
    match kept {
        Kept::Empty => Weight::Empty,
        Kept::Same(_) => Weight::Same,
        Kept::Obj(object) => {
            if object.huge {
                Weight::Huge
            } else {
                Weight::Packed(object.len)
            }
        }
        Kept::Wb(_) => Weight::Back,
    }
}
