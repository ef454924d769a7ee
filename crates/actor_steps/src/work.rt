//! The sectors of a piece: those that a write puts into the page that it makes, and those that a
//! read appends to its operation's reply.

ghost use Rattle.std.specs.Prelude.{◌≡◌, ◌⊎◌, ℕ, ◌+◌, ◌-◌, ◌*◌, ◌<◌, ◌≤◌, ◌^◌, true, ◌++◌, map, vec_len, vec_capacity};
ghost use Rattle.std.specs.List.{range_with_len};
ghost use Rattle.zr_base.specs.Sectors.{page_sector};
ghost use Rattle.zr_base.specs.Plain.{InBounds, HasSectors, stuff_sector, covers};
ghost use Rattle.zr_base.specs.declared.op.Op.TheVariants.{Read};
ghost use Rattle.zr_base.specs.Pieces.{piece_on, IsPieceOf};
ghost use Rattle.call_history.specs.Parts.{got_by};
ghost use Rattle.actor_steps.specs.Work.{reads};

use zr_base::{Page, Piece, Stuff};

// Puts the request's sectors from the `from`-th on into a page, from its `first`-th sector on.
fn put_sectors(stuff: &Stuff, from: u32, page: &mut Page, first: u8, count: u8)
    requires within { first + count ≤ 8 }
    requires small { from < 2 ^ 31 }
    requires there { HasSectors stuff.now (from + count) }
    ensures { (k : ℕ) → first ≤ k → k < first + count
        → page_sector page.new k ≡ stuff_sector stuff.now (from + (k - first)) }
{
    let mut sector = [0; 512];
    for at in first..first + count {
        stuff.sector(from + (at - first) as u32, &mut sector);
        page.put_sector(at, &sector);
    }
}

/// Puts the sectors that a write has on a page into this one, each at its place.
pub(crate) fn bring(start: u64, count: u32, stuff: &Stuff, piece: Piece, fresh: &mut Page)
    requires bounds { InBounds start count }
    requires there { HasSectors stuff.now count }
    requires piece { piece ≡ piece_on start count piece.page.0 }
    requires first { start < 8 * piece.page.0 + 8 }
    requires last { 8 * piece.page.0 < start + count }
    requires cut { IsPieceOf start count piece.page.0 piece }
    ensures { (k : ℕ) → k < 8 → covers start count (8 * piece.page.0 + k) ≡ true
        → page_sector fresh.new k ≡ stuff_sector stuff.now (8 * piece.page.0 + k - start) }
{
    let from = (8 * piece.page.0 as u64 + piece.first as u64 - start) as u32;
    put_sectors(stuff, from, fresh, piece.first, piece.count);
}

// Appends the sectors of a page from the `first`-th on, all at once.
fn append_sectors(page: &Page, first: u8, count: u8, sectors: &mut Vec<[u8; 512]>)
    requires within { first + count ≤ 8 }
    requires room { vec_len sectors.old + count ≤ vec_capacity sectors.old }
    ensures items { sectors.new.items
        ≡ sectors.old.items ++ map (page_sector page.now) (range_with_len first count) }
    ensures len { vec_len sectors.new ≡ vec_len sectors.old + count }
    ensures capacity { vec_capacity sectors.old ≤ vec_capacity sectors.new }
{
    let (all, _) = page.bytes().as_chunks::<512>();
    let from = first as usize;
    sectors
        .extend_from_slice(&all[from..from + count as usize])
        .unwrap();
}

/// Appends the sectors that a read has on a page.
pub(crate) fn append_read(
    start: u64,
    count: u32,
    piece: Piece,
    page: &Page,
    sectors: &mut Vec<[u8; 512]>,
)
    requires bounds { InBounds start count }
    requires piece { piece ≡ piece_on start count piece.page.0 }
    requires first { start < 8 * piece.page.0 + 8 }
    requires last { 8 * piece.page.0 < start + count }
    requires room { vec_len sectors.old + reads (Read start count) piece.page.0 ≤ vec_capacity sectors.old }
    ensures got { sectors.new.items ≡ sectors.old.items
        ++ got_by (Read start count) piece.page.0 (λ s. page_sector page.now (s - 8 * piece.page.0)) }
    ensures len { vec_len sectors.new ≡ vec_len sectors.old + reads (Read start count) piece.page.0 }
    ensures capacity { vec_capacity sectors.old ≤ vec_capacity sectors.new }
{
    append_sectors(page, piece.first, piece.count, sectors);
}
