//! The making of a row.

ghost use Rattle.std.specs.Prelude.{◌≡◌, ◌<◌, ◌≤◌, ℕ, [], ◌∷◌, map, length, replicate, IfOk, IfErr, Some, slice_get, vec_len, vec_capacity};
ghost use Rattle.lock_row.specs.declared.names.LockNo.{LockNo};
ghost use Rattle.lock_row.specs.declared.names.State.{State};
ghost use Rattle.lock_row.specs.declared.names.Local.{Local};
ghost use Rattle.lock_table.specs.declared.view.View.TheVariants.{Open};
ghost use Rattle.lock_table.specs.declared.view.Seated.{Seated};
ghost use Rattle.lock_table.specs.Starts.{all_home, StandAt, MayBegin, CanOpen, fresh, fresh_from, seats_from, newly, IsFirst};

use crate::hands::TableHands;
use crate::row::{TableHand, TableRow, find};
use crate::view::View;
use atomic_table::{Refused, Seat, Split, Table};
use lock_row::{LockNo, PhaseStart, RowValue};
use std::alloc::{AllocError, Global};
use std::marker::PhantomData;
use std::snapshot::Snapshot;
use zr_base::PageIx;

/// The first step: the seat stands for all actors of the start.
pub(crate) struct Opens<P> {
    of: PhantomData<P>,
}

impl<V, P: PhaseStart<V>> Split<View<V>> for Opens<P> {
    ghost use Rattle.lock_table.specs.declared.view.View.TheVariants.{Open, Blank};
    ghost use Rattle.lock_table.specs.Starts.{seats_from};

    ghost left = { λ v. Open P.start (seats_from 0 P.start.locals) };

    ghost right = { λ v. Blank };
}

/// The first actor gets a seat of its own.
pub(crate) struct Deals;

impl<V> Split<View<V>> for Deals {
    ghost use Rattle.lock_table.specs.Starts.{first_of, others_of};

    ghost left = { others_of };

    ghost right = { first_of };
}

// What a table is made of, and the empty list in which the row's values come back.
struct Parts<V> {
    names: Vec<LockNo>,
    words: Vec<u64>,
    slots: Vec<Option<V>>,
    back: Vec<(LockNo, V)>,
}

fn names_of<V>(alloc: Global, values: &[(LockNo, V)]) -> Result<Vec<LockNo>, AllocError>
    ensures { IfOk result (λ names. names.items ≡ map (λ x. x.0) values.now) }
{
    values
        .iter()
        .map(|value: &(LockNo, V)| value.0)
        .collect(alloc)
}

// The values go to the slots in their order, and the memory of their list is given up.
fn move_out<V>(mut values: Vec<(LockNo, V)>, slots: &mut Vec<Option<V>>)
    requires empty { slots.old.items ≡ [] }
    requires room { vec_len values ≤ vec_capacity slots.old }
    ensures { slots.new.items ≡ all_home values.items }
{
    values.reverse();
    while let Some((_, value)) = values.pop() {
        slots.push_reserved(Some(value));
    }
    values.destroy_empty();
}

// The values come back.
fn move_back<V>(names: &[LockNo], mut slots: Vec<Option<V>>, values: &mut Vec<(LockNo, V)>)
    requires empty { values.old.items ≡ [] }
    requires room { vec_len slots ≤ vec_capacity values.old }
    requires parts { (was : _) × (names.now ≡ map (λ (x : LockNo × _). x.0) was) × (slots.items ≡ all_home was) }
    ensures { (was : _) → names.now ≡ map (λ (x : LockNo × _). x.0) was → slots.items ≡ all_home was
        → values.new.items ≡ was }
{
    while let Some(slot) = slots.pop() {
        let Some(value) = slot else { unreachable!() };
        values.push_reserved((names[slots.len()], value));
    }
    slots.destroy_empty();
    values.reverse();
}

// A row, a seat that stands for all actors, and the empty list in which the row's values come back.
struct Opened<V: RowValue<R>, R> {
    row: TableRow<V, R>,
    seat: Seat<Option<V>, View<V>>,
    back: Vec<(LockNo, V)>,
}

// The parts of a row's table, still without the values.
fn reserve<V>(alloc: Global, values: &[(LockNo, V)]) -> Result<Parts<V>, AllocError>
    ensures names { IfOk result (λ p. p.names.items ≡ map (λ (x : LockNo × _). x.0) values.now) }
    ensures words { IfOk result (λ p. p.words.items ≡ replicate (length values.now) 0) }
    ensures slots { IfOk result (λ p. (p.slots.items ≡ []) × (length values.now ≤ vec_capacity p.slots)) }
    ensures back { IfOk result (λ p. (p.back.items ≡ []) × (length values.now ≤ vec_capacity p.back)) }
{
    let names = names_of(alloc, values)?;
    let words = vec![in alloc; 0u64; values.len()]?;
    let slots = Vec::with_capacity(alloc, values.len())?;
    let Ok(back) = Vec::with_capacity(alloc, values.len()) else {
        slots.destroy_empty();
        return Err(AllocError);
    };
    Ok(Parts {
        names,
        words,
        slots,
        back,
    })
}

// The parts of a row's table. On Err the values are as they were.
fn part<V>(alloc: Global, values: Vec<(LockNo, V)>) -> Result<Parts<V>, Vec<(LockNo, V)>>
    ensures names { IfOk result (λ p. p.names.items ≡ map (λ (x : LockNo × _). x.0) values.items) }
    ensures words { IfOk result (λ p. p.words.items ≡ replicate (length values.items) 0) }
    ensures slots { IfOk result (λ p. p.slots.items ≡ all_home values.items) }
    ensures back { IfOk result (λ p. (p.back.items ≡ []) × (length values.items ≤ vec_capacity p.back)) }
    ensures err { IfErr result (λ v. v.items ≡ values.items) }
{
    let Ok(mut parts) = reserve(alloc, &values) else {
        return Err(values);
    };
    move_out(values, &mut parts.slots);
    Ok(parts)
}

impl<V: RowValue<R>, R> TableRow<V, R> {
    // The row of these parts.
    fn open<P: PhaseStart<V>>(
        alloc: Global,
        parts: Parts<V>,
    ) -> Result<Opened<V, R>, Vec<(LockNo, V)>>
        requires can { CanOpen V.rule P.start parts.names.items parts.words.items parts.slots.items }
        requires empty { parts.back.items ≡ [] }
        requires room { vec_len parts.names ≤ vec_capacity parts.back }
        ensures names { IfOk result (λ t. t.row.names ≡ parts.names.items) }
        ensures own { IfOk result (λ t. t.seat.table_id ≡ t.row.id) }
        ensures all { IfOk result (λ t. t.seat.me ≡ (Open P.start (seats_from 0 P.start.locals), [])) }
        ensures back { IfOk result (λ t. t.back ≡ parts.back) }
        ensures err { IfErr result
            (λ v. (was : _) → parts.names.items ≡ map (λ (x : LockNo × _). x.0) was
            → parts.slots.items ≡ all_home was → v.items ≡ was) }
    {
        let Parts {
            names,
            words,
            slots,
            mut back,
        } = parts;
        let first = find(&names, 0, LockNo::Slot(PageIx(0))).unwrap_or(0);
        let key = Snapshot::of(&slots);
        match Table::new(alloc, words.as_slice(), slots, &key) {
            Ok((table, mut seat)) => {
                table.shared.split_seat::<Opens<P>>(&mut seat);
                let row = TableRow {
                    table,
                    names,
                    first,
                };
                Ok(Opened { row, seat, back })
            }
            Err(Refused { slots }) => {
                move_back(&names, slots, &mut back);
                Err(back)
            }
        }
    }

    // The hand of the first actor for which the seat stands.
    fn deal(&self, seat: &mut Seat<Option<V>, View<V>>, actor: u32) -> TableHand<V, R>
        requires own { seat.old.table_id ≡ self.now.id }
        requires first { IsFirst actor seat.old.me }
        ensures own { seat.new.table_id ≡ seat.old.table_id }
        ensures dealt { (start : _) (l : _) (xs : _) → seat.old.me ≡ (Open start (newly actor l ∷ xs), [])
            → (seat.new.me ≡ (Open start xs, [])) × (result ≡ fresh self.now.id start actor l) }
    {
        let seat = self.table.shared.split_seat::<Deals>(seat);
        TableHand {
            actor,
            seat,
            of: PhantomData,
        }
    }

    /// The row of these values, and a hand for each actor of the phase, whose start `P` names. Err
    /// is want of memory, and hands the values back.
    pub fn make<P: PhaseStart<V>>(
        alloc: Global,
        values: Vec<(LockNo, V)>,
        actors: u32,
    ) -> Result<(TableRow<V, R>, TableHands<V, R>), Vec<(LockNo, V)>>
        requires some { 0 < length values.items }
        requires actors { (1 ≤ actors) × (actors ≤ 64) }
        requires placed { StandAt V.rule.spot values.items }
        requires begins { MayBegin V.rule P.start values.items actors }
        ensures names { IfOk result (λ t. t.0.names ≡ map (λ (x : LockNo × _). x.0) values.items) }
        ensures hands { IfOk result (λ t. t.1.list ≡ fresh_from t.0.id P.start 0 P.start.locals) }
        ensures most { IfOk result (λ t. t.1.most ≡ actors) }
        ensures locks { IfOk result (λ t. t.1.locks ≡ length values.items) }
        ensures err { IfErr result (λ v. v.items ≡ values.items) }
    {
        let Ok(mut hands) = Vec::with_capacity(alloc, actors as usize) else {
            return Err(values);
        };
        let parts = part(alloc, values)?;
        let locks = parts.names.len();
        let Opened {
            row,
            mut seat,
            back,
        } = Self::open::<P>(alloc, parts)?;
        for actor in 0..actors {
            hands.push_reserved(row.deal(&mut seat, actor));
        }
        let most = actors as usize;
        let hands = TableHands {
            hands,
            most,
            back,
            locks,
        };
        Ok((row, hands))
    }
}
