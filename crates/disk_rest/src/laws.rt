//! What the row of a disk tells between two items of a job. Each law is a function whose body calls
//! the laws that it rests on: who wants it calls it, and has its clauses.

ghost use Rattle.disk_rest.specs.Laws.{PrintsPhase, LeavesRest, PrintsReports, PrintsNothing, EntriesTell, PoolsTell, AccountTells, MapTells, CountsTell, BeginsPhase, BeginsProper, BeginsDisk, StandsStill, SetsLimit, SetsBudget, SetsClock, LowersMax};

use call_history::histories_tell;
use joint_rule::phases_go_on;

/// A phase of which no actor has a piece left is one that the plain disk allows, and its row stands
/// for the rest that it leaves.
pub fn phases_end()
    ensures prints { PrintsPhase }
    ensures leaves { LeavesRest }
{
    histories_tell();
    phases_go_on();
}

/// A row that stands for a rest prints its reports, by the values of the account, of entries and of
/// pools; and its map has the blocks and the writes of the rest. Before there is a disk, all is none
/// but the limit.
pub fn rows_print()
    ensures reports { PrintsReports }
    ensures entries { EntriesTell }
    ensures pools { PoolsTell }
    ensures account { AccountTells }
    ensures map { MapTells }
    ensures nothing { PrintsNothing }
{}

/// The used counts of a pool's zspages add up to what its statistics say.
pub fn pools_count()
    ensures { CountsTell }
{}

/// A phase that is set up on a row that stands for a rest begins as the joint rule wants it.
pub fn phases_begin()
    ensures start { BeginsPhase }
    ensures proper { BeginsProper }
{
    phases_go_on();
    joint_rule::disks_begin();
}

/// The row of a new disk stands for it.
pub fn disks_begin()
    ensures { BeginsDisk }
{
    joint_rule::disks_begin();
}

/// Orders are no part of a rest; another limit of the account is another limit of the rest; what the
/// map has left of a limit on writebacks is what the rest has; a later time is one of the rest; and a
/// lowered maximum is its greatest number of frames.
pub fn rows_stand()
    ensures kept { StandsStill }
    ensures limit { SetsLimit }
    ensures budget { SetsBudget }
    ensures clock { SetsClock }
    ensures max { LowersMax }
{
    phases_go_on();
}
