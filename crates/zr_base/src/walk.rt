//! The walk over the pieces of a request.

ghost use Rattle.std.specs.Prelude.{◌≡◌, ℕ, ◌<◌, ◌≤◌, ◌^◌, ◌↔◌, IsTrue};
ghost use Rattle.std.specs.List.{AllByRecursion};
ghost use Rattle.zr_base.specs.declared.limits.TheConstants.{MOST_SECTORS};
ghost use Rattle.zr_base.specs.Plain.{touches};
ghost use Rattle.zr_base.specs.Pieces.{pieces_of, IsPieceOf, IsTouched};

use crate::op::Piece;
use crate::page::PageIx;
use std::marker::Model;

/// The pieces of a request that are left, one for each page, in rising order.
#[derive(Drop)]
pub struct PieceWalk {
    from: u64,
    to: u64,
}

impl Model for PieceWalk {
    ghost use Rattle.std.specs.Prelude.{ℕ, ◌-◌, ◌<◌, ◌^◌, List};
    ghost use Rattle.zr_base.specs.declared.op.Piece.{Piece};
    ghost use Rattle.zr_base.specs.Pieces.{pieces_of};

    ghost Value = { List Piece };

    ghost view = { λ w. pieces_of w.from (w.to - w.from) };

    ghost invariant = { λ w. w.to < 2 ^ 33 };
}

/// The pieces of the request of `count` sectors from sector `start` on: the request's sectors on
/// each page that it touches.
pub fn pieces(start: u64, count: u32) -> PieceWalk
    requires start { start < 2 ^ 32 }
    requires count { count ≤ MOST_SECTORS }
    ensures pieces { result ≡ pieces_of start count }
    ensures pages { (page : ℕ) → IsTrue (touches start count page) ↔ IsTouched start count page }
    ensures sectors { AllByRecursion (λ piece. IsPieceOf start count piece.page.0 piece) result }
{
    PieceWalk {
        from: start,
        to: start + count as u64,
    }
}

impl Iterator for PieceWalk {
    ghost use Rattle.std.specs.Iterator.{YieldsFirst, item_count};

    type Item = Piece;

    ghost next_gives = { YieldsFirst (λ w. w) };

    ghost remaining = { item_count (λ w. w) };

    fn next(&mut self) -> Option<Piece> {
        if self.from >= self.to {
            return None;
        }
        let page = self.from / 8;
        let first = (self.from % 8) as u8;
        let count = (self.to - self.from).min(8 - first as u64) as u8;
        self.from += count as u64;
        Some(Piece {
            page: PageIx(page as u32),
            first,
            count,
        })
    }
}
