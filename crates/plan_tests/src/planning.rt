//! Plans of campaigns, and what a check says of one.
ghost use Rattle.std.specs.Prelude.{◌≡◌, ◌≤◌, List, length, map, codes, IfOk, OnOk};
ghost use Rattle.first_boots.specs.FirstBoot.{shown_by};
ghost use Rattle.history_keeper.specs.Histories.{IsHistory};
ghost use Rattle.history_keeper.specs.declared.row.Row.{Row};
ghost use Rattle.core_state.specs.Core.{Stands};
ghost use Rattle.update_log.specs.Pasts.{past_of};
ghost use Rattle.update_log.specs.Known.{basis_of};
ghost use Rattle.update_plans.specs.Tags.{IsTag};
ghost use Rattle.campaign_inputs.specs.Begin.{CanBegin};
ghost use Rattle.campaign_plans.specs.FirstPlans.{CanBePlanned, IsFirstPlan};

use crate::pasts::told_valid;
use campaign_plans::{FirstPlan, plan_first};
use core_state::CoreState;
use fw_base::Name;
use history_keeper::Row;
use site_types::Campaign;
use std::alloc::Global;
use std::test::Fail;
use update_log::Facts;
use update_plans::{Plan, PlanStop, check_plan};

/// What a check says of a plan: nothing, or the number of the first step that isn't good.
pub(crate) type Said = Result<(), PlanStop>;

/// The tag of the plans.
#[tactic(auto, using(crate::proofs::Tags::tag_read))]
fn tag() -> Result<Name, Fail>
    ensures { IfOk result (λ tag. tag ≡ codes "u") }
{
    let tag = Name::read(b"u")?;
    Ok(tag)
}

/// The plan of a campaign's first boot, before which there were these rows, which are to be a history.
pub(crate) fn planned(alloc: Global, campaign: &Campaign, rows: &[Row]) -> Result<FirstPlan, Fail>
    requires { CanBegin campaign.now }
    ensures history { OnOk result (IsHistory rows.now) }
    ensures planned { IfOk result (IsFirstPlan campaign.now.facts (map shown_by campaign.now.boards.items) campaign.now.boots rows.now (codes "u")) }
{
    told_valid(alloc, rows)?;
    let tag = tag()?;
    let first = plan_first(alloc, campaign, rows, &tag)?;
    Ok(first)
}

/// What a check says of a plan for client 1 over a state.
fn said(alloc: Global, facts: &Facts, state: &CoreState, plan: &Plan) -> Result<Said, Fail>
    ghost opening: { List Row }
    requires tag { IsTag plan.now.tag }
    requires few_steps { length plan.now.steps ≤ 8192 }
    requires stands { Stands (basis_of facts.now opening) state.now }
    requires can { CanBePlanned facts.now opening plan.now.tag (past_of state.now.log) }
{
    if state.boots() == 0 {
        return Ok(Err("no boot")?);
    }
    Ok(check_plan(alloc, facts, state, 1, plan))
}

/// How many steps are planned over these rows, and what a check says over them of another plan.
pub(crate) fn over_rows(
    alloc: Global,
    campaign: &Campaign,
    rows: &[Row],
    plan: &Plan,
) -> Result<(usize, Said), Fail>
    requires begins { CanBegin campaign.now }
    requires tag { plan.now.tag ≡ codes "u" }
    requires few_steps { length plan.now.steps ≤ 8192 }
{
    let first = planned(alloc, campaign, rows)?;
    let told = said(alloc, &campaign.facts, &first.state, plan)?;
    Ok((first.plan.steps.items().len(), told))
}
