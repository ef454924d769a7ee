//! The form in which a page has to be kept, and back: the page that kept bytes or a kept word stand
//! for.
//!
//! | Call | Kept bytes | What is checked |
//! |---|---|---|
//! | `thaw` | any | that some page is kept as these bytes: bytes of no page are refused |
//! | `restore` | known to be a page's | nothing |

ghost use Rattle.std.specs.Prelude.{◌≡◌, ◌≢◌, ℕ, ◌+◌, ◌<◌, ◌≤◌, List, [], ◌++◌, length, false, true, IsTrue, IfSome, IsNone, All};
ghost use Rattle.bdi_page.specs.Packing.{IsPage, IsPacking};
ghost use Rattle.slot_entry.specs.Forms.{Pooled, form_of, page_kept_as, IsSame, IsKeptAs};
ghost use Rattle.slot_entry.specs.Entries.{IsPlain, plain_page};
ghost use Rattle.slot_entry.specs.Answers.{TellsForm, IsFormOf};

use crate::kept::Kept;
use crate::laws::{forms_tell_pages, kept_bytes_have_one_page};
use crate::limits::MOST_PACKED;
use arrayvec::ArrayVec;
use bdi_page::{decode, pack, unpack};
use same_fill::{fill, same_word};
use zr_base::Page;

/// How a page has to be kept: as its word, in the pool as its packing, or there as it is.
#[derive(Clone, Copy, PartialEq, Eq, Debug)]
pub enum Form {
    Same(u64),
    Packed,
    Huge,
}

/// The form of a page that was written. For a packed page its packing is left in `packed`, which
/// is else empty afterwards.
pub fn form_of(page: &Page, packed: &mut ArrayVec<u8, 4128>) -> Form
    ensures form { TellsForm page.now packed.new.items result }
    ensures is { IsFormOf page.now packed.new.items result }
    ensures len { result ≡ Form.Packed → (32 ≤ length packed.new.items)
        × (length packed.new.items ≤ MOST_PACKED) }
    ensures empty { result ≢ Form.Packed → packed.new.items ≡ [] }
{
    forms_tell_pages();
    packed.clear();
    is_page(page);
    if let Some(word) = same_word(page) {
        return Form::Same(word);
    }
    pack(page, packed);
    if packed.len() > MOST_PACKED as usize {
        packed.clear();
        return Form::Huge;
    }
    Form::Packed
}

/// Sets the page that is kept as the two parts joined, and answers whether there is one; where
/// there is none the page stays.
pub fn thaw(first: &[u8], second: &[u8], huge: bool, page: &mut Page) -> bool
    ensures yes { IsTrue result → IsKeptAs page.new (first.now ++ second.now) huge }
    ensures only { IsTrue result → (other : List ℕ)
        → IsKeptAs other (first.now ++ second.now) huge → other ≡ page.new }
    ensures no { result ≡ false → page.new ≡ page.old }
    ensures none { result ≡ false → (other : List ℕ)
        → IsKeptAs other (first.now ++ second.now) huge → ⊥ }
{
    kept_bytes_have_one_page();
    if second.is_empty() {
        return thaw_whole(first, huge, page);
    }
    if first.len() > 4096 || second.len() > 4096 - first.len() {
        return false;
    }
    thaw_whole(joined(first, second).as_slice(), huge, page)
}

// The two parts as one.
fn joined(first: &[u8], second: &[u8]) -> ArrayVec<u8, 4096>
    requires { length first.now + length second.now ≤ 4096 }
    ensures { result.items ≡ first.now ++ second.now }
{
    let mut bytes = ArrayVec::<u8, 4096>::new();
    bytes.try_extend_from_slice(first).unwrap();
    bytes.try_extend_from_slice(second).unwrap();
    bytes
}

// Sets the page that is kept as these bytes, and answers whether there is one.
fn thaw_whole(bytes: &[u8], huge: bool, page: &mut Page) -> bool
    ensures yes { IsTrue result → IsKeptAs page.new bytes.now huge }
    ensures no { result ≡ false → page.new ≡ page.old }
    ensures none { result ≡ false → (other : List ℕ) → IsKeptAs other bytes.now huge → ⊥ }
{
    let mut read = Page::zero();
    let is = if huge {
        thaw_huge(bytes, &mut read)
    } else {
        thaw_packed(bytes, &mut read)
    };
    if is {
        page.put_bytes(read.bytes());
    }
    is
}

// Sets a page that is kept as it is, and answers whether there is one.
fn thaw_huge(bytes: &[u8], page: &mut Page) -> bool
    ensures yes { IsTrue result → IsKeptAs page.new bytes.now true }
    ensures none { result ≡ false → (other : List ℕ) → IsKeptAs other bytes.now true → ⊥ }
{
    forms_tell_pages();
    let Some(all) = whole(bytes) else {
        return false;
    };
    page.put_bytes(all);
    is_page(page);
    let mut packed = ArrayVec::<u8, 4128>::new();
    form_of(page, &mut packed) == Form::Huge
}

// Sets a page that is kept packed, and answers whether there is one.
fn thaw_packed(bytes: &[u8], page: &mut Page) -> bool
    ensures yes { IsTrue result → IsKeptAs page.new bytes.now false }
    ensures none { result ≡ false → (other : List ℕ) → IsKeptAs other bytes.now false → ⊥ }
{
    forms_tell_pages();
    if bytes.len() > MOST_PACKED as usize || !unpack(bytes, page) {
        return false;
    }
    is_page(page);
    same_word(page).is_none()
}

// The bytes as those of a page, where they are as many.
fn whole(bytes: &[u8]) -> Option<&[u8; 4096]>
    ensures some { IfSome result (λ all. all.now ≡ bytes.now) }
    ensures none { IsNone result → length bytes.now ≢ 4096 }
{
    if bytes.len() != 4096 {
        return None;
    }
    bytes.first_chunk::<4096>()
}

/// Sets the page whose kept bytes the two parts joined are known to be: what `thaw` sets, without
/// its checks. Where there is no second part, nothing is joined.
pub fn restore(first: &[u8], second: &[u8], huge: bool, page: &mut Page)
    requires kept { (known : List ℕ) × IsPage known
        × (form_of known ≡ Pooled (first.now ++ second.now) huge) }
    ensures page { page.new ≡ page_kept_as (first.now ++ second.now) huge }
    ensures known { (known : List ℕ) → IsPage known
        → form_of known ≡ Pooled (first.now ++ second.now) huge → page.new ≡ known }
{
    kept_bytes_have_one_page();
    forms_tell_pages();
    if second.is_empty() {
        restore_whole(first, huge, page);
    } else {
        restore_whole(joined(first, second).as_slice(), huge, page);
    }
}

// Sets the page whose kept bytes these are known to be.
fn restore_whole(bytes: &[u8], huge: bool, page: &mut Page)
    requires kept { (known : List ℕ) × IsPage known × (form_of known ≡ Pooled bytes.now huge) }
    ensures known { (known : List ℕ) → IsPage known → form_of known ≡ Pooled bytes.now huge
        → page.new ≡ known }
{
    forms_tell_pages();
    if !huge {
        decode(bytes, page);
        return;
    }
    match whole(bytes) {
        Some(all) => page.put_bytes(all),
        None => unreachable!(),
    }
}

// A page has bytes.
#[inline]
pub(crate) fn is_page(page: &Page)
    ensures { IsPage page.now }
{
    are_bytes(page.bytes());
}

#[inline]
fn are_bytes(bytes: &[u8])
    ensures { All (λ b. b < 256) bytes.now }
{
    let _count = bytes.len();
}

/// Sets the page for which a form without an object or a block stands.
pub fn expand(kept: Kept, page: &mut Page)
    requires { IsPlain kept }
    ensures { page.new ≡ plain_page kept }
{
    forms_tell_pages();
    match kept {
        Kept::Empty => *page = Page::zero(),
        Kept::Same(word) => {
            fill(page, word);
            is_page(page);
        }
        Kept::Obj(_) | Kept::Wb(_) => unreachable!(),
    }
}
