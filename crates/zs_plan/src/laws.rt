//! What holds of plans whoever finds them. The law is a function with an empty body: who wants it
//! calls it, and has its clauses.

ghost use Rattle.zs_plan.specs.Plan.{HasPlanOrNone, PlansGoOn};

/// Zspages with ids of their own have a plan or none, and after a plan's move the destination is
/// full or stays.
pub fn plans_go_on()
    ensures found { HasPlanOrNone }
    ensures goes_on { PlansGoOn }
{}
