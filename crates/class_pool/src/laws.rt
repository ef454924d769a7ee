//! What calls of a pool do to sums over its used cells, whatever the weight is, and what moves come
//! to, whoever makes them. A law is a function that does nothing: who wants it calls it, and has its
//! clauses.

ghost use Rattle.class_pool.specs.Laws.{StoringAddsOne, MakingAddsOne, FreeingTakesOne, ChangingSwapsOne, MovingKeepsAll, UseIsPart};
ghost use Rattle.class_pool.specs.Endings.{SomeMayMove, FewerMayMove, NoneMayMove, RestIsLeast, TightHasNoPlan};

use zs_plan::plans_go_on;

/// An object that is put adds its weight, one that is freed takes its weight away, and one whose
/// cell is lent or comes back, or that moves into another cell, changes its weight alone; and the
/// frames of zspages.
pub fn objects_move()
    ensures stored { StoringAddsOne }
    ensures made { MakingAddsOne }
    ensures freed { FreeingTakesOne }
    ensures changed { ChangingSwapsOne }
    ensures moved { MovingKeepsAll }
    ensures part { UseIsPart }
{}

/// Moves by the plan come to an end: fewer objects may move after each, and where none may, and
/// nothing is out, the pool has the least number of zspages.
pub fn compactions_end()
    ensures most { SomeMayMove }
    ensures fewer { FewerMayMove }
    ensures rest { NoneMayMove }
    ensures least { RestIsLeast }
    ensures tight { TightHasNoPlan }
{
    plans_go_on();
}
