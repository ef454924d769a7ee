//! The plan of compaction after zsmalloc's: objects move from the emptiest zspage to the fullest
//! one with room, so that zspages become empty and can be given up. A zspage that became a
//! destination stays one until it is full.
#![tactic(auto)]

mod laws;

ghost use Rattle.std.specs.Prelude.{ℕ, ◌≡◌, ◌≢◌, ◌++◌, ◌∷◌, [], ◌⊎◌, List, MatchOption, IfSome};
ghost use Rattle.zs_plan.specs.Plan.{IsFuller, IsEmptier, IsPlan, HasNoPlan, GoesOn, IsPartial, HasMovable, IsBest, AreBest, HaveOwnIds};
ghost use Rattle.zs_plan.specs.declared.Row.{Row};

pub use laws::plans_go_on;

/// What a plan reads of a zspage.
#[derive(Clone, Copy, PartialEq, Eq, Debug)]
pub struct Row {
    /// The zspage's id, which no other zspage of its pool has.
    pub id: u32,
    /// The used cells.
    pub used: u32,
    /// Whether some used cell is at home, so that its object can be moved.
    pub movable: bool,
}

/// The ids of the zspage that an object moves from and of the one that it moves to, for zspages of
/// `per` cells each. None where there is no destination or no source.
pub fn choose(rows: &[Row], per: u32) -> Option<(u32, u32)>
    requires { HaveOwnIds rows.now }
    ensures plan { IfSome result (λ p. IsPlan per rows.now p.0 p.1) }
    ensures none { MatchOption result (HasNoPlan per rows.now) (λ p. p.0 ≢ p.1) }

    // After the move the destination is full, or it is the destination of the next one.
    ensures goes_on { IfSome result (λ p. GoesOn per rows.now p.0 p.1) }
{
    let mut destination = None;
    let mut source = None;
    for row in rows {
        destination = next_destination(destination, *row, per);
        source = next_source(source, *row, per);
    }
    plan_of(source, destination)
}

/// The plan, from the best source and the best destination of some rows. They are one zspage only
/// where no other can give an object: one that could would be as full, and would come before the
/// destination as a source.
pub fn plan_of(source: Option<Row>, destination: Option<Row>) -> Option<(u32, u32)>
    ensures plan { (per : ℕ) (rows : List Row) → AreBest per rows source destination
        → IfSome result (λ p. IsPlan per rows p.0 p.1) }
    ensures none { (per : ℕ) (rows : List Row) → AreBest per rows source destination
        → MatchOption result (HasNoPlan per rows) (λ p. p.0 ≢ p.1) }

    // After the move the destination is full, or it is the destination of the next one.
    ensures goes_on { (per : ℕ) (rows : List Row) → AreBest per rows source destination
        → IfSome result (λ p. GoesOn per rows p.0 p.1) }
{
    let to = destination?;
    let from = source?;
    if from.id == to.id {
        return None;
    }
    Some((from.id, to.id))
}

/// The best destination of some rows, from that of those before the last.
fn next_destination(best: Option<Row>, row: Row, per: u32) -> Option<Row>
    ensures { (rows : List Row) → IsBest IsFuller (IsPartial per) rows best
        → IsBest IsFuller (IsPartial per) (rows ++ row ∷ []) result }
{
    if row.used == 0 || per <= row.used {
        return best;
    }
    match best {
        Some(found) => Some(fuller(found, row)),
        None => Some(row),
    }
}

/// The best source of some rows, from that of those before the last.
fn next_source(best: Option<Row>, row: Row, per: u32) -> Option<Row>
    ensures { (rows : List Row) → IsBest IsEmptier (HasMovable per) rows best
        → IsBest IsEmptier (HasMovable per) (rows ++ row ∷ []) result }
{
    let all_out = !row.movable;
    if row.used == 0 || per <= row.used || all_out {
        return best;
    }
    match best {
        Some(found) => Some(emptier(found, row)),
        None => Some(row),
    }
}

/// The fuller of two rows, on a tie the one with the lesser id.
fn fuller(a: Row, b: Row) -> Row
    ensures one { (result ≡ a) ⊎ (result ≡ b) }
    ensures first { IsFuller result a }
    ensures second { IsFuller result b }
{
    if b.used < a.used || (b.used == a.used && a.id <= b.id) {
        a
    } else {
        b
    }
}

/// The emptier of two rows, on a tie the one with the greater id.
fn emptier(a: Row, b: Row) -> Row
    ensures one { (result ≡ a) ⊎ (result ≡ b) }
    ensures first { IsEmptier result a }
    ensures second { IsEmptier result b }
{
    if a.used < b.used || (a.used == b.used && b.id <= a.id) {
        a
    } else {
        b
    }
}

#[cfg(test)]
mod tests {
    use super::*;

    fn plan(a: (u32, bool), b: (u32, bool), c: (u32, bool)) -> Option<(u32, u32)> {
        let rows = [
            Row {
                id: 0,
                used: a.0,
                movable: a.1,
            },
            Row {
                id: 1,
                used: b.0,
                movable: b.1,
            },
            Row {
                id: 2,
                used: c.0,
                movable: c.1,
            },
        ];
        choose(&rows, 7)
    }

    #[test]
    fn plans(rt: HostRuntime) {
        assert_eq!(rt; plan((2, true), (5, true), (7, true)), Some((0, 1)));
        assert_eq!(rt; plan((5, true), (5, true), (5, true)), Some((2, 0)));
        assert_eq!(rt; plan((1, false), (6, true), (2, true)), Some((2, 1)));
        assert_eq!(rt; plan((1, false), (6, true), (7, true)), None);
        assert_eq!(rt; plan((0, false), (4, true), (7, true)), None);
    }
}
