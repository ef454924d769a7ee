//! What a job prints, whatever the turns of its actors are.

ghost use Rattle.std.specs.Prelude.{◌≡◌, false};
ghost use Rattle.job_text.specs.Jobs.{MayFollow};
ghost use Rattle.plain_disk.specs.Rests.{Rest};
ghost use Rattle.job_session.specs.Legal.{Legal};
ghost use Rattle.job_session.specs.Complete.{IsComplete};
ghost use Rattle.job_session.specs.Budgets.{BudgetIsSpent};
ghost use Rattle.job_session.specs.Stands.{Stands};
ghost use Rattle.job_session.specs.Stepped.{Stepped};

use disk_rest::{disks_begin, phases_begin, phases_end, rows_print, rows_stand};
use joint_rule::rule_keeps;

/// A job prints what the plain disk allows, whatever its turns are: from a rest that its disk stands
/// for, it leads to one that the last disk stands for.
pub fn jobs_are_legal()
    ensures legal { (u : _) (r : Rest) (d : _) (job : _) (turns : _) (lines : _) (last : _)
        → MayFollow u job → (d.size ≡ 0 → u.disk ≡ false) → u.clock ≡ d.clock → Stands r d
        → Stepped d job turns lines last
        → (m : Rest) × Legal r job lines m × Stands m last }
{
    rule_keeps();
    phases_begin();
    phases_end();
    disks_begin();
    rows_stand();
    rows_print();
}

/// A job that asks for no more than there is, over a device that doesn't fail, is refused for want of
/// memory alone; and while the limit on writebacks is on and no line sets it, the writes that are
/// tried are taken from what it has left.
pub fn outputs_are_bounded()
    ensures complete { IsComplete }
    ensures spent { BudgetIsSpent }
{}
