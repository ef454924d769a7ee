//! The arithmetic of requests: the pages that an operation touches, and its sectors on each of
//! them.

ghost use Rattle.std.specs.Prelude.{◌≡◌, ◌+◌, ◌≤◌, ◌<◌, ◌^◌, IsTrue};
ghost use Rattle.zr_base.specs.Plain.{start_of, count_of, touches, is_beyond, is_void, has_event, IsRequest};
ghost use Rattle.zr_base.specs.Pieces.{first_page, pages_of, piece_on, IsPieceOf};

use crate::op::{Op, Piece};
use crate::page::PageIx;

impl Op {
    /// The first sector of the request.
    pub fn start(&self) -> u64
        ensures { result ≡ start_of self.now }
    {
        match self {
            Op::Write { start, .. } | Op::Read { start, .. } | Op::Discard { start, .. } => *start,
            Op::Idle { .. } | Op::Writeback { .. } | Op::Compact => 0,
        }
    }

    /// How many sectors the request has; what is no request has none.
    pub fn count(&self) -> u32
        ensures { result ≡ count_of self.now }
    {
        match self {
            Op::Write { count, .. } | Op::Read { count, .. } | Op::Discard { count, .. } => *count,
            Op::Idle { .. } | Op::Writeback { .. } | Op::Compact => 0,
        }
    }

    // The sector after the request's last.
    fn end(&self) -> u64
        requires { IsRequest self.now }
        ensures { result ≡ start_of self.now + count_of self.now }
    {
        self.start() + self.count() as u64
    }

    /// The first page that the request touches.
    pub fn first_page(&self) -> u32
        requires { IsRequest self.now }
        ensures { result ≡ first_page self.now }
    {
        (self.start() / 8) as u32
    }

    /// How many pages the request touches.
    pub fn pages(&self) -> u32
        requires { IsRequest self.now }
        ensures pages { result ≡ pages_of self.now }
        ensures some { 1 ≤ count_of self.now → 1 ≤ result }
        ensures few { result ≤ 257 }
    {
        if self.count() == 0 {
            return 0;
        }
        ((self.end() - 1) / 8 + 1 - self.start() / 8) as u32
    }

    /// Whether the request has a sector beyond a disk of so many pages.
    pub fn is_beyond(&self, pages: u32) -> bool
        requires { IsRequest self.now }
        ensures { result ≡ is_beyond pages self.now }
    {
        8 * (pages as u64) < self.end()
    }

    /// Whether it is a writeback on a disk without a backing, which does nothing.
    pub fn is_void(&self, backed: bool) -> bool
        ensures { result ≡ is_void backed self.now }
    {
        matches!(self, Op::Writeback { .. }) && !backed
    }

    /// Whether the piece on a page is carried out: that of a discard only where it has the whole
    /// page.
    pub fn has_event(&self, page: u32) -> bool
        requires { IsRequest self.now }
        ensures { result ≡ has_event self.now page }
    {
        match self {
            Op::Write { .. } | Op::Read { .. } => true,
            Op::Discard { start, .. } => {
                let first = 8 * page as u64;
                *start <= first && first + 8 <= self.end()
            }
            Op::Idle { .. } | Op::Writeback { .. } | Op::Compact => false,
        }
    }

    /// The request's sectors on a page that it touches.
    pub fn piece_on(&self, page: u32) -> Piece
        requires request { IsRequest self.now }
        requires touched { IsTrue (touches (start_of self.now) (count_of self.now) page) }
        ensures piece { result ≡ piece_on (start_of self.now) (count_of self.now) page }
        ensures sectors { IsPieceOf (start_of self.now) (count_of self.now) page result }
    {
        let low = 8 * page as u64;
        let from = self.start().max(low);
        let to = self.end().min(low + 8);
        Piece {
            page: PageIx(page),
            first: (from - low) as u8,
            count: (to - from) as u8,
        }
    }
}
