//! Bytes by their address. What has pointers in this crate is this file.
//!
//! A chain is one block, which is cut into the cells and the rest after them:
//!
//! ```text
//! frames  [-------- 4096 bytes --------][-------- 4096 bytes --------] ... [-----------]
//! cells   [ cell 0 ][ cell 1 ][ cell 2 ][ cell 3 ][ cell 4 ]  ...  [ cell n - 1 ][ rest ]
//!         [- size -][- size -]
//! ```
//!
//! A cell may lie over the border of two frames; the rest is shorter than a cell. Each of these parts
//! is a `Strip`, the owner of its bytes, and so no byte is in two of them. The right to free the
//! block is the `Deed`, which stays with whoever has the chain whole or can make it whole again.

ghost use Rattle.std.specs.Prelude.{◌≡◌, ℕ, ◌^◌, ◌<◌, ◌≤◌, ◌++◌, List, length, take, drop, IfOk};
ghost use Rattle.std.specs.Borrow.{sem};
ghost use Rattle.core.specs.Mem.Slots.{slots_ptr, slots_len, slots_items, lease_ptr, lease_len, lease_heap, IsFull};
ghost use base.Fml.{ftrue};
ghost use denote.RawPtr.{Ptr, ◌+ₚ◌};
ghost use Rattle.cell_arena.specs.Ownership.{bytes_own, bytes_lent};

use core::slots::{Lease, Slots, release, reserve};
use std::alloc::{AllocError, Global};
use std::marker::{Model, Send, Sync};
use std::slice;

/// The owner of bytes side by side in a chain. Dropped, it frees nothing.
#[derive(Drop)]
pub struct Strip {
    pub(crate) ptr: *mut u8,
    ghost chain: { Ptr },
    ghost bytes: { List ℕ },
}

impl Model for Strip {
    ghost also_owns = { λ s. bytes_own s.ptr s.bytes };

    ghost also_shares = { λ s _ κ. bytes_lent s.ptr s.bytes κ };
}

unsafe impl Send for Strip {}

unsafe impl Sync for Strip {}

/// The right to free a chain. It can't be dropped, so it is not lost unseen.
pub struct Deed {
    pub(crate) lease: Lease<u8, Global>,
}

impl Model for Deed {
    ghost also_owns = { λ _. ftrue };
}

unsafe impl Send for Deed {}

unsafe impl Sync for Deed {}

/// A new block with these bytes.
pub(crate) fn allocate(alloc: &Global, bytes: &[u8]) -> Result<(Strip, Deed), AllocError>
    ensures { IfOk result (λ r. (r.0.chain ≡ r.0.ptr) × (r.0.bytes ≡ bytes.now)
        × (lease_ptr r.1.lease ≡ r.0.ptr) × (lease_len r.1.lease ≡ length bytes.now)
        × (lease_heap r.1.lease ≡ alloc.now)) }
{
    let (mut row, lease) = unsafe { reserve(alloc, bytes) }?;
    row.copy_in(0, bytes);
    Ok(detach(row, lease))
}

/// Frees the block of a whole chain.
pub(crate) fn free(alloc: &Global, strip: Strip, len: usize, deed: Deed)
    requires { (len ≡ length strip.bytes) × (len < 2 ^ 63) × (lease_ptr deed.lease ≡ strip.ptr)
        × (lease_len deed.lease ≡ len) × (lease_heap deed.lease ≡ alloc.now) }
{
    let (row, lease) = attach(strip, len, deed);
    release(alloc, row, lease);
}

/// The bytes of a block, and the right to free it.
fn detach(row: Slots<u8>, lease: Lease<u8, Global>) -> (Strip, Deed)
    requires { IsFull row }
    ensures { (result.0.ptr ≡ slots_ptr row) × (result.0.chain ≡ slots_ptr row)
        × (result.0.bytes ≡ slots_items row) × (result.1.lease ≡ lease) }
{
    let parts = unsafe { row.into_raw_parts() };
    (Strip { ptr: parts.0 }, Deed { lease })
}

/// The block again.
fn attach(strip: Strip, len: usize, deed: Deed) -> (Slots<u8>, Lease<u8, Global>)
    requires { (len ≡ length strip.bytes) × (len < 2 ^ 63) }
    ensures { (slots_ptr result.0 ≡ strip.ptr) × (slots_len result.0 ≡ len)
        × (result.1 ≡ deed.lease) }
{
    let Strip { ptr } = strip;
    let Deed { lease } = deed;
    (unsafe { Slots::from_raw_parts(ptr, len) }, lease)
}

impl Strip {
    ghost use Rattle.cell_arena.specs.Lends.{lends_bytes};

    /// The first `count` bytes, and those after them.
    pub(crate) fn cut(self, count: usize) -> (Strip, Strip)
        requires { count ≤ length self.bytes }
        ensures { (result.0 ≡ record self { bytes = take count self.bytes })
            × (result.1 ≡ record self { ptr = self.ptr +ₚ count; bytes = drop count self.bytes }) }
    {
        let Strip { ptr } = self;
        (
            Strip { ptr },
            Strip {
                ptr: unsafe { ptr.add(count) },
            },
        )
    }

    /// One strip of this one and the next.
    pub(crate) fn glue(self, next: Strip) -> Strip
        requires { next.ptr ≡ self.ptr +ₚ length self.bytes }
        ensures { result ≡ record self { bytes = self.bytes ++ next.bytes } }
    {
        let Strip { ptr } = self;
        let Strip { ptr: _ } = next;
        Strip { ptr }
    }

    /// The bytes, of which there are `len`.
    pub(crate) fn bytes(&self, len: usize) -> &[u8]
        requires { (len ≡ length self.now.bytes) × (len < 2 ^ 63) }
        ensures { result.now ≡ self.now.bytes }
    {
        unsafe { slice::from_raw_parts(self.ptr, len) }
    }

    /// The bytes, of which there are `len`, to be changed.
    pub(crate) fn bytes_mut(&mut self, len: usize) -> &mut [u8]
        requires { (len ≡ length self.old.bytes) × (len < 2 ^ 63) }
        ensures* writes_back { sem 𝓛 (lends_bytes self.entry result) }
        ensures value { result.now ≡ self.old.bytes }
    {
        unsafe { slice::from_raw_parts_mut(self.ptr, len) }
    }
}
