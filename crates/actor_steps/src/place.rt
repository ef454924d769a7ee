//! Where an actor is among the pieces of its operations.

ghost use Rattle.std.specs.Prelude.{◌≡◌, ◌<◌, ◌≤◌, Bool, false, Some, length, drop, slice_get, if◌then◌else◌};
ghost use Rattle.std.specs.Bool.{OnTrue, OnFalse};
ghost use Rattle.zr_base.specs.Plain.{IsRequest};
ghost use Rattle.plain_disk.specs.Ends.{is_single};
ghost use Rattle.call_history.specs.Parts.{program, without};
ghost use Rattle.actor_steps.specs.Places.{AreRequests, is_part, pages_to_do, todo_at, behind, IsPlace, IsSettled, IsOnward, steps_left};

use zr_base::Op;

/// The operation in work, counted from 0, the page of its next piece, and how many of its pages are
/// left.
#[derive(Clone, Copy)]
pub struct Place {
    pub nr: usize,
    pub page: u32,
    pub left: u32,
}

/// Whether an operation is over in one piece: a scan that marks pages, a writeback, a compaction, or a
/// request beyond the disk.
pub(crate) fn is_single(size: u32, op: &Op) -> bool
    requires { IsRequest op.now }
    ensures { result ≡ is_single size op.now }
{
    matches!(op, Op::Idle { .. } | Op::Writeback { .. } | Op::Compact) || op.is_beyond(size)
}

// How many pages an operation has pieces on: one that is over in one piece has one.
fn pages_to_do(size: u32, op: &Op) -> u32
    requires { IsRequest op.now }
    ensures { result ≡ pages_to_do size op.now }
{
    if is_single(size, op) { 1 } else { op.pages() }
}

// Whether an operation has a piece with events on a page, on a disk that has a backing or none.
fn is_part(size: u32, backed: bool, op: &Op, page: u32) -> bool
    requires { IsRequest op.now }
    ensures { result ≡ is_part size backed op.now page }
{
    !op.is_void(backed) && (is_single(size, op) || op.has_event(page))
}

/// The first page of an operation, whether or not it has a piece with events.
pub fn first_piece(size: u32, ops: &[Op], nr: usize) -> Place
    requires requests { AreRequests ops.now }
    ensures nr { result.nr ≡ nr }
    ensures todo { (backed : Bool) → todo_at size backed ops.now result
        ≡ program size backed nr (drop nr ops.now) }
    ensures place { IsPlace ops.now result }
    ensures few { result.left < 1000 }
{
    if nr >= ops.len() {
        return Place {
            nr,
            page: 0,
            left: 0,
        };
    }
    let op = &ops[nr];
    Place {
        nr,
        page: op.first_page(),
        left: pages_to_do(size, op),
    }
}

// Whether the next page has a piece with events, or no operation is left.
fn is_settled(size: u32, backed: bool, ops: &[Op], place: Place) -> bool
    requires { AreRequests ops.now }
    ensures on { OnTrue result (IsSettled size backed ops.now place) }
    ensures off { OnFalse result
        ((place.nr < length ops.now)
        × ((op : _) → slice_get ops.now place.nr ≡ Some op → 1 ≤ place.left
        → is_part size backed op place.page ≡ false)) }
{
    if place.nr >= ops.len() {
        return true;
    }
    place.left > 0 && is_part(size, backed, &ops[place.nr], place.page)
}

// The page after this one, whose piece has no event, or the first one of the next operation.
fn passed(size: u32, backed: bool, ops: &[Op], place: Place) -> Place
    requires requests { AreRequests ops.now }
    requires place { IsPlace ops.now place }
    requires more { place.nr < length ops.now }
    requires off { (op : _) → slice_get ops.now place.nr ≡ Some op → 1 ≤ place.left
        → is_part size backed op place.page ≡ false }
    ensures place { IsPlace ops.now result }
    ensures same { todo_at size backed ops.now result ≡ todo_at size backed ops.now place }
    ensures onward { IsOnward place result }
    ensures falls { steps_left ops.now result < steps_left ops.now place }
{
    if place.left == 0 {
        return first_piece(size, ops, place.nr + 1);
    }
    Place {
        nr: place.nr,
        page: place.page + 1,
        left: place.left - 1,
    }
}

/// The next page that has a piece with events, or the place past all operations.
pub fn settled(size: u32, backed: bool, ops: &[Op], from: Place) -> Place
    requires requests { AreRequests ops.now }
    requires place { IsPlace ops.now from }
    ensures place { IsPlace ops.now result }
    ensures same { todo_at size backed ops.now result ≡ todo_at size backed ops.now from }
    ensures onward { IsOnward from result }
    ensures settled { IsSettled size backed ops.now result }
{
    let mut place = from;
    while !is_settled(size, backed, ops, place) {
        place = passed(size, backed, ops, place);
    }
    place
}

/// The next piece once the one at a place is over: the next of its operation where that goes on, or
/// else the first of the next operation.
pub fn next_place(size: u32, backed: bool, ops: &[Op], place: Place, goes_on: bool) -> Place
    requires requests { AreRequests ops.now }
    requires place { IsPlace ops.now place }
    requires settled { IsSettled size backed ops.now place }
    requires more { place.nr < length ops.now }
    ensures place { IsPlace ops.now result }
    ensures todo { todo_at size backed ops.now result
        ≡ (if goes_on then todo_at size backed ops.now (behind place)
        else without place.nr (todo_at size backed ops.now (behind place))) }
    ensures onward { IsOnward (behind place) result }
    ensures later { goes_on ≡ false → place.nr < result.nr }
    ensures settled { IsSettled size backed ops.now result }
{
    if !goes_on {
        return settled(size, backed, ops, first_piece(size, ops, place.nr + 1));
    }
    let behind = Place {
        nr: place.nr,
        page: place.page + 1,
        left: place.left - 1,
    };
    settled(size, backed, ops, behind)
}
