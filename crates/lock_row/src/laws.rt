//! What a turn of the machine keeps, whatever its user's events are. Each law is a function with an
//! empty
//! body: who wants it calls it, and has its clauses.

ghost use Rattle.lock_row.specs.Laws.{TakingStaysApart, GivingStaysApart, TakingKeepsTotal, GivingMovesTotal, SumMoves, IsPartOfSum, NamesHavePlaces, OthersHaveNone};

/// Each value is in the row or with one actor, after a taking and after a giving too.
pub fn values_stay_apart<V>()
    ensures taken { TakingStaysApart V }
    ensures given { GivingStaysApart V }
{}

/// A sum over each value wherever it is and over all actors: a taking leaves it, and a giving
/// changes it by
/// what it changes in the actor and in the value.
pub fn totals_move<V>()
    ensures taken { TakingKeepsTotal V }
    ensures given { GivingMovesTotal V }
{}

/// A sum over actors: it changes by what one of them changes, and none is above it.
pub fn sums_move<V>()
    ensures moves { SumMoves V }
    ensures part { IsPartOfSum V }
{}

/// The places of locks among names: that of one that stands there, and that of one that doesn't.
pub fn names_have_places()
    ensures there { NamesHavePlaces }
    ensures none { OthersHaveNone }
{}
