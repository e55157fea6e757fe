//! Plans, made and checked over a state that stays as it is.
ghost use Rattle.std.specs.Prelude.{◌≡◌, ◌≤◌, ◌⊎◌, ℕ, List, None, Some, IfOk, MatchResult, length};
ghost use Rattle.history_keeper.specs.declared.row.Row.{Row};
ghost use Rattle.core_state.specs.Core.{Stands};
ghost use Rattle.update_log.specs.Pasts.{past_of};
ghost use Rattle.update_log.specs.Known.{basis_of};
ghost use Rattle.update_plans.specs.Following.{IsQuiet};
ghost use Rattle.update_plans.specs.Plans.{first_bad, plan, scene};
ghost use Rattle.update_plans.specs.Tags.{IsTag};

use crate::making::{check_all, plan_all};
use crate::plan::{Plan, PlanStop};
use crate::planner::Asker;
use core_state::CoreState;
use fw_base::{Listed, Name, NoMemory};
use std::alloc::Global;
use update_log::Facts;

/// The plan over the log that the state stands for: for each device in the order of the walk, as long as
/// there is one, the highest release that it can reach next. Each of its steps is good after those before
/// it.
///
/// The facts are those that the state was made with. The boot isn't off, nobody has a hold or a live
/// entry, the client isn't 0, and the tag has at most 56 bytes.
pub fn make_plan(
    alloc: Global,
    facts: &Facts,
    state: &CoreState,
    client: u32,
    tag: &Name,
) -> Result<Plan, NoMemory>
    ghost opening: { List Row }
    requires tag { IsTag tag.now }
    requires stands { Stands (basis_of facts.now opening) state.now }
    requires quiet { IsQuiet (scene (basis_of facts.now opening) client tag.now) (past_of state.now.log) }
    ensures planned { IfOk result (λ made. made.steps ≡ plan (scene (basis_of facts.now opening) client tag.now) (past_of state.now.log)) }
    ensures tagged { IfOk result (λ made. made.tag ≡ tag.now) }
    ensures few { IfOk result (λ made. length made.steps ≤ 8192) }
    ensures good { IfOk result (λ made. first_bad (scene (basis_of facts.now opening) client tag.now) 1 made.steps (past_of state.now.log) ≡ None) }
{
    let mut own = state.copy(alloc)?;
    let asker = Asker { facts, client, tag };
    Ok(Plan {
        tag: *tag,
        steps: Listed::of(plan_all(alloc, &asker, &mut own)?),
    })
}

/// Whether each step of the plan, which has at most 8,192, is good after those before it. The conditions
/// are those of `make_plan`.
pub fn check_plan(
    alloc: Global,
    facts: &Facts,
    state: &CoreState,
    client: u32,
    plan: &Plan,
) -> Result<(), PlanStop>
    ghost opening: { List Row }
    requires tag { IsTag plan.now.tag }
    requires few_steps { length plan.now.steps ≤ 8192 }
    requires stands { Stands (basis_of facts.now opening) state.now }
    requires quiet { IsQuiet (scene (basis_of facts.now opening) client plan.now.tag) (past_of state.now.log) }
    ensures { MatchResult result
        (λ _. first_bad (scene (basis_of facts.now opening) client plan.now.tag) 1 plan.now.steps (past_of state.now.log) ≡ None)
        (λ stop. (stop ≡ PlanStop.NoMemory) ⊎ ((number : ℕ) × (stop ≡ PlanStop.No number) × (first_bad (scene (basis_of facts.now opening) client plan.now.tag) 1 plan.now.steps (past_of state.now.log) ≡ Some number))) }
{
    let mut own = state.copy(alloc)?;
    let asker = Asker {
        facts,
        client,
        tag: &plan.tag,
    };
    check_all(&asker, &mut own, plan.steps.items())
}
