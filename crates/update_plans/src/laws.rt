//! Laws of plans over logs.
ghost use Rattle.std.specs.Prelude.{List};
ghost use Rattle.update_log.specs.declared.event.Event.{Event as Happened};
ghost use Rattle.update_plans.specs.Following.{IsAcceptedNext};
ghost use Rattle.update_plans.specs.Plans.{Scene};
ghost use Rattle.update_plans.specs.declared.plan.PlanStep.{PlanStep};

/// The next step of a good plan is accepted after every legal log that goes on by plays of the steps before and by
/// nothing else, in a boot that isn't off and is below its limit, where each of these plays ended well and its device
/// shows what was planned.
pub fn next_is_accepted()
    ensures { (s : Scene) (done : List PlanStep) (step : PlanStep) (more : List PlanStep) (past now : List Happened) → IsAcceptedNext s done step more past now }
{}
