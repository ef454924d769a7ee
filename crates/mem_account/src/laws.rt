//! What follows of counters that are the sums over the disk's pages.

ghost use Rattle.std.specs.Prelude.{List, ◌∷◌, ◌++◌};
ghost use Rattle.mem_account.specs.Counters.{Counters, IsCounted};
ghost use Rattle.mem_account.specs.Tally.{IsTally};
ghost use Rattle.mem_account.specs.declared.weight.Weight.{Weight};

/// A page among those that the counters sum up is counted, as `Account::count` needs of its weight.
pub fn tallied_pages_are_counted()
    ensures { (c : Counters) (front : List Weight) (rest : List Weight) (old : Weight)
        → IsTally c (front ++ old ∷ rest) → IsCounted c old }
{}
