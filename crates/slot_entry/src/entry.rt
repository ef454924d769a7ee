//! The entry of one page.

ghost use Rattle.std.specs.Prelude.{◌≡◌, ◌+◌, ◌-◌, ◌<◌, ◌≤◌, [], ◌∷◌, ◌++◌, false, None, OnOk, OnErr};
ghost use Rattle.slot_entry.specs.Entries.{letters_of, touched_at, marked, is_new_mark, is_eligible};
ghost use Rattle.slot_entry.specs.declared.kept.Kept.TheVariants.{Empty};

use crate::kept::Kept;
use std::alloc::{AllocError, Global};
use std::marker::Model;
use zr_base::{Mode, Tag};

/// What a page's slot has: the form in which the page is kept, the order of the phase's calls on
/// it, its marks, and the time of its last access.
#[derive(Drop)]
pub struct Entry {
    kept: Kept,
    order: Vec<Tag>,
    under: Option<u32>,
    idle: bool,
    touched: u64,
}

impl Model for Entry {
    ghost use Rattle.std.specs.Prelude.{◌-◌, vec_len, vec_capacity};
    ghost use Rattle.slot_entry.specs.Entries.{EntryState};

    ghost Value = { EntryState };

    ghost view = { λ e. record { kept = e.kept; order = e.order.items; room = vec_capacity e.order - vec_len e.order; under = e.under; idle = e.idle; touched = e.touched } };
}

impl Entry {
    /// An empty page without marks and without calls. It takes no memory.
    pub fn new(alloc: Global) -> Entry
        ensures kept { result.kept ≡ Empty }
        ensures order { result.order ≡ [] }
        ensures under { result.under ≡ None }
        ensures idle { result.idle ≡ false }
        ensures touched { result.touched ≡ 0 }
    {
        Entry {
            kept: Kept::Empty,
            order: Vec::new(alloc),
            under: None,
            idle: false,
            touched: 0,
        }
    }

    /// Empties the order, and makes its spare room at least `n` tags. On Err nothing changed.
    pub fn reserve_order(&mut self, n: u32) -> Result<(), AllocError>
        ensures emptied { OnOk result (self.new.order ≡ []) }
        ensures room { OnOk result (n ≤ self.new.room) }
        ensures rest { self.new ≡ record self.old { order = self.new.order; room = self.new.room } }
        ensures err { OnErr result (self.new ≡ self.old) }
    {
        let more = (n as usize).saturating_sub(self.order.len());
        self.order.reserve_exact(more)?;
        self.order.clear();
        Ok(())
    }

    /// Puts the tag last in the order, which has spare room.
    pub fn note(&mut self, tag: Tag)
        requires { 0 < self.old.room }
        ensures noted { self.new.order ≡ self.old.order ++ tag ∷ [] }
        ensures room { self.new.room + 1 ≡ self.old.room }
        ensures rest { self.new ≡ record self.old { order = self.new.order; room = self.new.room } }
    {
        self.order.push_reserved(tag);
    }

    /// Keeps the page in this form from now on; all else stays.
    pub fn put(&mut self, kept: Kept)
        ensures { self.new ≡ record self.old { kept = kept } }
    {
        self.kept = kept;
    }

    /// Notes an access at this time, which removes both marks. A writeback that has marked the page
    /// (`mark` of post_steps) looks for its mark when it comes back (`land`), and leaves the page where
    /// that is gone: examples/race_writeback_new_page.job.
    pub fn accessed(&mut self, now: u64)
        ensures { self.new ≡ touched_at now self.old }
    {
        self.under = None;
        self.idle = false;
        self.touched = now;
    }

    /// Marks the page as under writeback to this block, or as under none.
    pub fn set_under(&mut self, block: Option<u32>)
        ensures { self.new ≡ record self.old { under = block } }
    {
        self.under = block;
    }

    /// Removes the idle mark.
    pub fn clear_idle(&mut self)
        ensures { self.new ≡ record self.old { idle = false } }
    {
        self.idle = false;
    }

    /// Marks the page idle where it is in the pool, not under writeback, and last accessed more than
    /// `age` seconds before `now`, or at any time. Whether the mark is new.
    pub fn mark_idle(&mut self, now: u64, age: Option<u64>) -> bool
        requires time { self.old.touched ≤ now }
        ensures marked { self.new ≡ marked now age self.old }
        ensures new { result ≡ is_new_mark now age self.old }
    {
        let old = match age {
            None => true,
            Some(age) => now - self.touched > age,
        };
        let may = matches!(self.kept, Kept::Obj(_)) && self.under.is_none() && old;
        let new = may && !self.idle;
        self.idle |= may;
        new
    }

    /// Whether a writeback of this mode takes the page: it is in the pool, not under writeback, and
    /// idle, huge, or both.
    pub fn eligible(&self, mode: Mode) -> bool
        ensures { result ≡ is_eligible mode self.now }
    {
        let Kept::Obj(object) = self.kept else {
            return false;
        };
        let meant = match mode {
            Mode::Idle => self.idle,
            Mode::Huge => object.huge,
            Mode::HugeIdle => object.huge && self.idle,
        };
        self.under.is_none() && meant
    }

    /// The form in which the page is kept.
    pub fn kept(&self) -> Kept
        ensures { result ≡ self.now.kept }
    {
        self.kept
    }

    /// The block of the writeback that has marked the page.
    pub fn under(&self) -> Option<u32>
        ensures { result ≡ self.now.under }
    {
        self.under
    }

    /// Whether the page is marked idle.
    pub fn idle(&self) -> bool
        ensures { result ≡ self.now.idle }
    {
        self.idle
    }

    /// The time of the last access.
    pub fn touched(&self) -> u64
        ensures { result ≡ self.now.touched }
    {
        self.touched
    }

    /// How the page is printed: one letter for each mark that holds, or a dot, in the order
    /// same-filled, on the device, huge, idle.
    pub fn letters(&self) -> [u8; 4]
        ensures { result ≡ letters_of self.now.kept self.now.idle }
    {
        match self.kept {
            Kept::Empty => *b"....",
            Kept::Same(_) => *b"s...",
            Kept::Obj(object) => match (object.huge, self.idle) {
                (true, true) => *b"..hi",
                (true, false) => *b"..h.",
                (false, true) => *b"...i",
                (false, false) => *b"....",
            },
            Kept::Wb(_) => *b".w..",
        }
    }

    /// The tags of the calls on the page, in their order.
    pub fn order(&self) -> &[Tag]
        ensures { result.now ≡ self.now.order }
    {
        &self.order
    }
}

#[cfg(test)]
mod tests {
    use super::*;
    use std::test::Fail;

    #[test]
    fn reserves_an_order(rt: HostRuntime) -> Result<(), Fail> {
        let mut entry = Entry::new(rt.alloc());
        entry.reserve_order(2)?;
        entry.note(Tag { actor: 1, op: 0 });
        assert_eq!(rt; entry.order(), [Tag { actor: 1, op: 0 }].as_slice());
        Ok(())
    }
}
