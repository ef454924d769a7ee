//! The locals that follow events of these calls, where their hand is told them.

use backing_dev::Backing;
use lock_row::NextLocal;
use page_steps::DiskHeld;

/// A call that marks pages takes the first one.
pub(crate) struct Enters;

impl<D: Backing> NextLocal<DiskHeld<D>> for Enters {
    ghost use Rattle.post_steps.specs.Idle.{entering};

    ghost next = { entering };
}

/// A compaction takes its first class.
pub(crate) struct Begins;

impl<D: Backing> NextLocal<DiskHeld<D>> for Begins {
    ghost use Rattle.post_steps.specs.Compact.{beginning};

    ghost next = { beginning };
}

/// The frames that a move freed are given back.
pub(crate) struct Shrinks;

impl<D: Backing> NextLocal<DiskHeld<D>> for Shrinks {
    ghost use Rattle.page_steps.specs.Compactions.{shrinking};

    ghost next = { shrinking };
}

/// A writeback that got no block is over.
pub(crate) struct LeavesAll;

impl<D: Backing> NextLocal<DiskHeld<D>> for LeavesAll {
    ghost use Rattle.page_steps.specs.Visits.{leaving_all};

    ghost next = { leaving_all };
}

/// The cell that a page was copied from is back.
pub(crate) struct Copies;

impl<D: Backing> NextLocal<DiskHeld<D>> for Copies {
    ghost use Rattle.page_steps.specs.Visits.{copied};

    ghost next = { copied };
}

/// The slot of a page that is written to a block is given with its mark.
pub(crate) struct Flies;

impl<D: Backing> NextLocal<DiskHeld<D>> for Flies {
    ghost use Rattle.page_steps.specs.Visits.{flying};

    ghost next = { flying };
}

/// The block was written.
pub(crate) struct Stores;

impl<D: Backing> NextLocal<DiskHeld<D>> for Stores {
    ghost use Rattle.page_steps.specs.Visits.{storing};

    ghost next = { storing };
}

/// The block is the page's.
pub(crate) struct Commits;

impl<D: Backing> NextLocal<DiskHeld<D>> for Commits {
    ghost use Rattle.page_steps.specs.Visits.{committing};

    ghost next = { committing };
}

/// The slot is given without the mark.
pub(crate) struct Loses;

impl<D: Backing> NextLocal<DiskHeld<D>> for Loses {
    ghost use Rattle.page_steps.specs.Visits.{losing};

    ghost next = { losing };
}
