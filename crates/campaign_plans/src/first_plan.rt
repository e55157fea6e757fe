//! The plan of a campaign's first boot.
ghost use Rattle.std.specs.Prelude.{◌≡◌, ◌≤◌, List, None, length, map, IfOk};
ghost use Rattle.history_keeper.specs.Histories.{IsHistory};
ghost use Rattle.history_keeper.specs.declared.row.Row.{Row};
ghost use Rattle.core_state.specs.Core.{Stands};
ghost use Rattle.update_log.specs.Pasts.{past_of};
ghost use Rattle.update_log.specs.Known.{basis_of};
ghost use Rattle.first_boots.specs.FirstBoot.{shown_by};
ghost use Rattle.update_plans.specs.Plans.{first_bad, scene};
ghost use Rattle.update_plans.specs.Tags.{IsTag};
ghost use Rattle.campaign_inputs.specs.Begin.{CanBegin};
ghost use Rattle.campaign_plans.specs.FirstPlans.{CanBePlanned, IsFirstPlan, first_log, plan_after};

use core_state::CoreState;
use first_boots::{state_at_first_boot, state_before};
use fw_base::{Listed, Name, NoMemory};
use history_keeper::Row;
use site_types::Campaign;
use std::alloc::Global;
use update_log::Facts;
use update_plans::{Plan, PlanStop, check_plan, make_plan};

/// For which client plans are made.
const CLIENT: u32 = 1;

/// A plan, and the state over which it was made.
#[derive(Drop)]
pub struct FirstPlan {
    pub state: CoreState,
    pub plan: Plan,
}

/// The plan for client 1 over the first boot of a campaign, before which there were those rows, a valid
/// history. Without a boot it has no steps. The tag has at most 56 bytes.
pub fn plan_first(
    alloc: Global,
    campaign: &Campaign,
    rows: &[Row],
    tag: &Name,
) -> Result<FirstPlan, NoMemory>
    requires begins { CanBegin campaign.now }
    requires history { IsHistory rows.now }
    requires tag { IsTag tag.now }
    ensures { IfOk result (IsFirstPlan campaign.now.facts (map shown_by campaign.now.boards.items) campaign.now.boots rows.now tag.now) }
{
    let state = first_state(alloc, campaign, rows)?;
    let plan = plan_over(alloc, &campaign.facts, &state, tag)?;
    Ok(FirstPlan { state, plan })
}

/// The same plan, once each of its steps was found to be good.
pub fn plan_checked(
    alloc: Global,
    campaign: &Campaign,
    rows: &[Row],
    tag: &Name,
) -> Result<FirstPlan, NoMemory>
    requires begins { CanBegin campaign.now }
    requires history { IsHistory rows.now }
    requires tag { IsTag tag.now }
    ensures { IfOk result (IsFirstPlan campaign.now.facts (map shown_by campaign.now.boards.items) campaign.now.boots rows.now tag.now) }
{
    let first = plan_first(alloc, campaign, rows, tag)?;
    check(alloc, &campaign.facts, &first)?;
    Ok(first)
}

// The state that stands for the log of the first boot, where there is one.
fn first_state(alloc: Global, campaign: &Campaign, rows: &[Row]) -> Result<CoreState, NoMemory>
    requires begins { CanBegin campaign.now }
    requires history { IsHistory rows.now }
    ensures log { IfOk result (λ state. state.log ≡ first_log campaign.now.boots (map shown_by campaign.now.boards.items)) }
    ensures stands { IfOk result (Stands (basis_of campaign.now.facts rows.now)) }
{
    match campaign.boots.items().get(0) {
        Some(boot) => state_at_first_boot(alloc, &campaign.facts, &campaign.boards, rows, boot),
        None => state_before(alloc, &campaign.facts, rows),
    }
}

// The plan over the log that the state stands for; the empty one where nothing was booted.
fn plan_over(alloc: Global, facts: &Facts, state: &CoreState, tag: &Name) -> Result<Plan, NoMemory>
    ghost opening: { List Row }
    requires tag { IsTag tag.now }
    requires stands { Stands (basis_of facts.now opening) state.now }
    requires can { CanBePlanned facts.now opening tag.now (past_of state.now.log) }
    ensures tag { IfOk result (λ plan. plan.tag ≡ tag.now) }
    ensures steps { IfOk result (λ plan. plan.steps ≡ plan_after facts.now opening tag.now (past_of state.now.log)) }
    ensures few { IfOk result (λ plan. length plan.steps ≤ 8192) }
    ensures good { IfOk result (λ plan. first_bad (scene (basis_of facts.now opening) 1 tag.now) 1 plan.steps (past_of state.now.log) ≡ None) }
{
    if state.boots() == 0 {
        return Ok(Plan {
            tag: *tag,
            steps: Listed::of(Vec::new(alloc)),
        });
    }
    make_plan(alloc, facts, state, CLIENT, tag)
}

// Looks at each step of a plan again. Only memory may be wanting, since each is good.
fn check(alloc: Global, facts: &Facts, first: &FirstPlan) -> Result<(), NoMemory>
    ghost opening: { List Row }
    requires tag { IsTag first.now.plan.tag }
    requires few_steps { length first.now.plan.steps ≤ 8192 }
    requires stands { Stands (basis_of facts.now opening) first.now.state }
    requires can { CanBePlanned facts.now opening first.now.plan.tag (past_of first.now.state.log) }
    requires good { first_bad (scene (basis_of facts.now opening) 1 first.now.plan.tag) 1 first.now.plan.steps (past_of first.now.state.log) ≡ None }
{
    if first.state.boots() == 0 {
        return Ok(());
    }
    match check_plan(alloc, facts, &first.state, CLIENT, &first.plan) {
        Ok(()) => Ok(()),
        Err(PlanStop::NoMemory) => Err(NoMemory),
        Err(PlanStop::No { .. }) => unreachable!(),
    }
}
