//! Which pages are marked idle and which a writeback takes, by form, writeback, mark and age; and
//! that an access removes both marks.

ghost use Rattle.std.specs.Prelude.{◌≡◌};

use super::{Entry, Kept, Stored};
use std::alloc::Global;
use std::process::Abort;
use zr_base::{Handle, Mode};

// When each page was accessed last.
const TOUCHED: u64 = 100;

const PACKED: Kept = Kept::Obj(Stored {
    class: 9,
    handle: Handle(4),
    len: 176,
    huge: false,
});

const HUGE: Kept = Kept::Obj(Stored {
    class: 254,
    handle: Handle(5),
    len: 4096,
    huge: true,
});

// How a page is kept, the block of its writeback, whether it is idle, the seconds since its last
// access, and the age that is asked for; whether the mark is new, and whether the page is idle then.
const MARKS: [(Kept, Option<u32>, bool, u32, Option<u64>, bool, bool); 11] = [
    (PACKED, None, false, 7, Some(8), false, false),
    (PACKED, None, false, 8, Some(8), false, false),
    (PACKED, None, false, 9, Some(8), true, true),
    (HUGE, None, false, 0, Some(0), false, false),
    (HUGE, None, false, 0, None, true, true),
    (HUGE, None, true, 9, None, false, true),
    (PACKED, None, true, 7, Some(8), false, true),
    (PACKED, Some(3), false, 9, None, false, false),
    (Kept::Empty, None, false, 9, None, false, false),
    (Kept::Same(7), None, false, 9, None, false, false),
    (Kept::Wb(3), None, false, 9, None, false, false),
];

// How a page is kept, the block of its writeback, and whether it is idle; whether a writeback of idle
// pages takes it, one of huge pages, and one of those that are both.
const MEANT: [(Kept, Option<u32>, bool, bool, bool, bool); 7] = [
    (PACKED, None, false, false, false, false),
    (PACKED, None, true, true, false, false),
    (HUGE, None, false, false, true, false),
    (HUGE, None, true, true, true, true),
    (HUGE, Some(3), true, false, false, false),
    (Kept::Same(7), None, true, false, false, false),
    (Kept::Wb(3), None, true, false, false, false),
];

// A page that was accessed at `TOUCHED`, with these marks.
fn entry_of(alloc: Global, kept: Kept, under: Option<u32>, idle: bool) -> Entry
    ensures touched { result.touched ≡ 100 }
{
    let mut entry = Entry::new(alloc);
    entry.accessed(TOUCHED);
    entry.put(PACKED);
    if idle {
        entry.mark_idle(TOUCHED, None);
    }
    entry.put(kept);
    entry.set_under(under);
    entry
}

#[test]
fn marks_old_pages_of_the_pool(rt: HostRuntime) {
    for (kept, under, idle, seconds, age, new, after) in MARKS.iter() {
        let mut entry = entry_of(rt.alloc(), *kept, *under, *idle);
        assert_eq!(rt; entry.mark_idle(TOUCHED + *seconds as u64, *age), *new);
        assert_eq!(rt; entry.idle(), *after);
        assert_eq!(rt; entry.under(), *under);
        entry.accessed(TOUCHED + 1);
        assert!(rt; !entry.idle());
        assert!(rt; entry.under().is_none());
    }
}

#[test]
fn takes_what_is_meant(rt: HostRuntime) {
    for (kept, under, idle, by_idle, by_huge, by_both) in MEANT.iter() {
        let entry = entry_of(rt.alloc(), *kept, *under, *idle);
        assert_eq!(rt; entry.eligible(Mode::Idle), *by_idle);
        assert_eq!(rt; entry.eligible(Mode::Huge), *by_huge);
        assert_eq!(rt; entry.eligible(Mode::HugeIdle), *by_both);
    }
}
