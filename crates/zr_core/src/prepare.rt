//! How the entries are set up for a phase: their orders are emptied and get room for the pieces that
//! the phase has on each page.

ghost use Rattle.std.specs.Prelude.{◌≡◌, ℕ, ◌<◌, Bool, true, IfOk, OnOk, OnErr};
ghost use Rattle.std.specs.BTreeMap.{IsOrdered, keys};
ghost use Rattle.std.specs.Ordering.{nat_cmp};
ghost use Rattle.zr_core.specs.Noted.{is_in, ArePages, AreCounted, HasAllOrders};
ghost use Rattle.zr_core.specs.Rests.{names_by, HasEntries};
ghost use Rattle.zr_core.specs.Preparing.{IsReserved, AreReserved};

use crate::row::entry_of;
use backing_dev::Backing;
use lock_row::{Hand, Held, LockNo, SimRow, Still, names_have_places};
use page_steps::DiskHeld;
use std::alloc::{AllocError, Global};
use std::collections::BTreeMap;
use zr_base::PageIx;

/// The pages that have a count, in rising order.
pub(crate) fn noted_pages(
    alloc: Global,
    counts: &BTreeMap<u32, u32>,
) -> Result<Vec<u32>, AllocError>
    ensures keys { IfOk result (λ noted. noted.items ≡ keys counts.now) }
    ensures ordered { IsOrdered nat_cmp counts.now }
{
    counts.keys().copied().collect(alloc)
}

// Empties the order of a page's entry, and makes its room. On Err nothing changed.
fn reserve<D: Backing>(
    row: &mut SimRow<DiskHeld<D>>,
    size: u32,
    page: u32,
    count: u32,
) -> Result<(), AllocError>
    requires names { row.old.names ≡ names_by size }
    requires rest { HasEntries size row.old.cells }
    requires page { page < size }
    ensures names { row.new.names ≡ row.old.names }
    ensures reserved { OnOk result (IsReserved page count row.old.cells row.new.cells) }
    ensures err { OnErr result (row.new.cells ≡ row.old.cells) }
{
    names_have_places();
    let slot = LockNo::Slot(PageIx(page));
    let mut hand = row.hand(0);
    let Some(value) = hand.try_take::<Still>(slot) else {
        unreachable!()
    };
    let mut entry = entry_of(value);
    let reserved = entry.reserve_order(count);
    hand.give::<Still>(slot, Held::Slot(entry));
    reserved
}

// Empties the orders of these pages, and makes room for what is counted. On Err each page is as
// before, and so is its order, or it is empty.
fn reserve_pages<D: Backing>(
    row: &mut SimRow<DiskHeld<D>>,
    size: u32,
    counts: &BTreeMap<u32, u32>,
    pages: &[u32],
) -> Result<(), AllocError>
    requires names { row.old.names ≡ names_by size }
    requires rest { HasEntries size row.old.cells }
    requires pages { ArePages size pages.now }
    ensures names { row.new.names ≡ row.old.names }
    ensures reserved { OnOk result (AreReserved (is_in pages.now) counts.now size row.old.cells row.new.cells) }
    ensures kept { (done : ℕ → Bool) × AreReserved done counts.now size row.old.cells row.new.cells }
{
    for page in pages {
        reserve(row, size, *page, counts.get(page).copied().unwrap_or(0))?;
    }
    Ok(())
}

/// Empties all orders, and makes room for what is counted. `before` has the pages with an order,
/// and `noted` those with a count. On Err each page is as before, and so is its order, or it is
/// empty.
pub(crate) fn reserve_all<D: Backing>(
    row: &mut SimRow<DiskHeld<D>>,
    size: u32,
    counts: &BTreeMap<u32, u32>,
    before: &[u32],
    noted: &[u32],
) -> Result<(), AllocError>
    requires names { row.old.names ≡ names_by size }
    requires rest { HasEntries size row.old.cells }
    requires orders { HasAllOrders size before.now row.old.cells }
    requires counted { AreCounted size counts.now noted.now }
    ensures names { row.new.names ≡ row.old.names }
    ensures reserved { OnOk result (AreReserved (λ p. true) counts.now size row.old.cells row.new.cells) }
    ensures kept { (done : ℕ → Bool) × AreReserved done counts.now size row.old.cells row.new.cells }
{
    reserve_pages(row, size, counts, before)?;
    reserve_pages(row, size, counts, noted)?;
    Ok(())
}
