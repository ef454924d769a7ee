//! What a row for several threads is told by types: the rule of its values, and the start of a phase.
//! Neither trait has a method that runs.

ghost use Rattle.std.specs.Prelude.{[]};
ghost use Rattle.lock_row.specs.declared.names.State.{State};
ghost use Rattle.lock_row.specs.Rules.{RowRule};

use std::marker::Brand;

/// Names the rule of a row of values of this type. `R` is a type of the crate that states the rule.
pub trait RowValue<R> {
    ghost rule: { RowRule Self };
}

/// Names the state from which a phase starts.
pub trait PhaseStart<V> {
    ghost start: { State V };
}

/// The start that the proof of a call picks.
impl<V> PhaseStart<V> for Brand {
    ghost start = { record { row = []; locals = [] } };
}
