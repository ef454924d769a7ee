//! A page of one word, the two pages beside the threshold, and one that no code packs: each is kept
//! and read back.

use super::form::is_page;
use super::{Form, Kept, expand, form_of, restore, thaw};
use arrayvec::ArrayVec;
use bdi_page::pack;
use std::process::Abort;
use zr_base::{Page, Stuff};

// The fractional part of the golden ratio: lines of its multiples fit no code.
const GOLD: u64 = 0x9e37_79b9_7f4a_7c15;

// The base and the step of the words of the last three sectors, the form, and the packing's length.
const PAGES: [([(u64, u64); 3], Form, usize); 3] = [
    (
        [(1000000, 0x0100_0000), (1000000, 1), (1000000, 0x100)],
        Form::Packed,
        3256,
    ),
    (
        [
            (0, 0x1500_0000),
            (0x000f_4240_000f_4240, 0x0000_0001_0000_0001),
            (0, 0),
        ],
        Form::Huge,
        3257,
    ),
    ([(1, GOLD), (2, GOLD), (3, GOLD)], Form::Huge, 4128),
];

// Five sectors that no code packs, and three more.
fn page_of(tail: &[(u64, u64); 3]) -> Page {
    let mut page = Page::zero();
    let mut sector = [0; 512];
    let gold = Stuff::Seq {
        base: 0,
        step: GOLD,
    };
    for k in 0..5u8 {
        gold.sector(k as u32, &mut sector);
        page.put_sector(k, &sector);
    }
    for (k, (base, step)) in tail.iter().enumerate() {
        let words = Stuff::Seq {
            base: *base,
            step: *step,
        };
        words.sector(0, &mut sector);
        page.put_sector(5 + k as u8, &sector);
    }
    page
}

// Checks that the page is read back from what is kept of it, and answers its form.
fn check_back(rt: &impl Abort, page: &Page) -> Form {
    is_page(page);
    let mut packed = ArrayVec::<u8, 4128>::new();
    let form = form_of(page, &mut packed);
    let mut again = Page::zero();
    match form {
        Form::Same(word) => expand(Kept::Same(word), &mut again),
        Form::Packed => restore(packed.as_slice(), &[], false, &mut again),
        Form::Huge => restore(page.bytes(), &[], true, &mut again),
    }
    assert_eq!(rt; *again.bytes(), *page.bytes());
    form
}

// Whether the page is kept as its bytes, which come in two parts.
fn thaw_as_it_is(page: &Page, again: &mut Page) -> bool {
    let bytes = page.bytes();
    thaw(&bytes[..1000], &bytes[1000..], true, again)
}

#[test]
fn keeps_pages(rt: HostRuntime) {
    for (tail, form, len) in PAGES.iter() {
        let page = page_of(tail);
        assert_eq!(rt; check_back(&rt, &page), *form);
        let mut packed = ArrayVec::<u8, 4128>::new();
        pack(&page, &mut packed);
        assert_eq!(rt; packed.len(), *len);
        let huge = *form == Form::Huge;
        let mut again = Page::zero();
        assert_eq!(rt; thaw_as_it_is(&page, &mut again), huge);
        assert_eq!(rt; thaw(packed.as_slice(), &[], false, &mut again), !huge);
        assert_eq!(rt; *again.bytes(), *page.bytes());
    }
}

#[test]
fn keeps_a_word(rt: HostRuntime) {
    let mut page = Page::zero();
    expand(Kept::Same(7), &mut page);
    assert_eq!(rt; page.bytes()[4088], 7);
    assert_eq!(rt; check_back(&rt, &page), Form::Same(7));
    let mut again = Page::zero();
    assert!(rt; !thaw(page.bytes(), &[], true, &mut again));
}
