//! The values of a row of tags before its first turn.

ghost use Rattle.std.specs.Prelude.{IfOk};
ghost use Rattle.bench_lock_table.specs.declared.rows.Locks.{Locks};
ghost use Rattle.bench_lock_table.specs.Names.{AreAmong};
ghost use Rattle.bench_lock_table.specs.Made.{CanMake};

use crate::tags::Tags;
use lock_row::LockNo;
use std::alloc::{AllocError, Global};
use zr_base::PageIx;

/// The account and so many slots, each without tags.
pub fn new_values(alloc: Global, slots: u32) -> Result<Vec<(LockNo, Tags)>, AllocError>
    ensures { IfOk result (λ v. (locks : Locks) → AreAmong slots locks → CanMake v.items locks) }
{
    let mut values = Vec::with_capacity(alloc, slots as usize + 1)?;
    values.push_reserved((LockNo::Account, Tags::new(alloc)));
    for page in 0..slots {
        values.push_reserved((LockNo::Slot(PageIx(page)), Tags::new(alloc)));
    }
    Ok(values)
}
