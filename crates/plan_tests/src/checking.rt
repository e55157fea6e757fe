//! Plans of chains of releases, and what is said of them over another history, or with other steps.
ghost use Rattle.std.specs.Prelude.{◌≡◌, ◌≤◌, length, codes, IfOk};
ghost use Rattle.campaign_inputs.specs.Begin.{CanBegin};

use crate::documents::{EIGHT, TWO, campaign_of};
use crate::pasts::row;
use crate::planning::{Said, over_rows, planned};
use fw_base::Listed;
use history_keeper::{Row, RowState};
use site_types::Campaign;
use std::alloc::Global;
use std::test::Fail;
use update_plans::{Plan, PlanStop};

/// The raw numbers that the device shows after the steps of the plan.
fn raws_in(alloc: Global, campaign: &Campaign) -> Result<Vec<u32>, Fail>
    requires { CanBegin campaign.now }
{
    let first = planned(alloc, campaign, &[])?;
    let steps = first.plan.steps.items();
    Ok(steps.iter().map(|step| step.raw).collect(alloc)?)
}

/// The same, of the campaign of a document.
fn raws(alloc: Global, document: &str) -> Result<Vec<u32>, Fail> {
    let campaign = campaign_of(alloc, document)?;
    raws_in(alloc, &campaign)
}

/// Documents, and the raw numbers of 1.1.0 and so on, one after the other.
const CHAINS: [(&str, &[u32]); 2] = [
    (TWO, &[0x0101_0000, 0x0102_0000]),
    (
        EIGHT,
        &[
            0x0101_0000,
            0x0102_0000,
            0x0103_0000,
            0x0104_0000,
            0x0105_0000,
            0x0106_0000,
            0x0107_0000,
            0x0108_0000,
        ],
    ),
];

#[test]
fn a_chain_is_planned_release_by_release(rt: HostRuntime) -> Result<(), Fail> {
    for (document, wanted) in &CHAINS {
        assert_eq!(rt; raws(rt.alloc(), document)?.as_slice(), *wanted);
    }
    Ok(())
}

/// The plan with the steps that stand at these two places.
fn with_steps(alloc: Global, plan: &Plan, places: [usize; 2]) -> Result<Plan, Fail>
    ensures tag { IfOk result (λ made. made.tag ≡ plan.now.tag) }
    ensures few { IfOk result (λ made. length made.steps ≤ 8192) }
{
    let steps = plan.steps.items();
    let first = steps.get(places[0]).ok_or("no such step")?;
    let second = steps.get(places[1]).ok_or("no such step")?;
    Ok(Plan {
        tag: plan.tag,
        steps: Listed::of([*first, *second].to_vec(alloc)?),
    })
}

/// What is said of a plan that has its steps at these places alone.
fn said_with(
    alloc: Global,
    campaign: &Campaign,
    plan: &Plan,
    places: [usize; 2],
) -> Result<Said, Fail>
    requires begins { CanBegin campaign.now }
    requires tag { plan.now.tag ≡ codes "u" }
{
    let plan = with_steps(alloc, plan, places)?;
    let (_, said) = over_rows(alloc, campaign, &[], &plan)?;
    Ok(said)
}

fn said_in(alloc: Global, campaign: &Campaign, places: [usize; 2]) -> Result<Said, Fail>
    requires { CanBegin campaign.now }
{
    let first = planned(alloc, campaign, &[])?;
    said_with(alloc, campaign, &first.plan, places)
}

/// What is said of the plan of a document's chain, once it has its steps at these places alone.
fn said_of(alloc: Global, document: &str, places: [usize; 2]) -> Result<Said, Fail> {
    let campaign = campaign_of(alloc, document)?;
    said_in(alloc, &campaign, places)
}

/// A document, places of steps of its plan, and what is said of a plan with these steps. No step is good that
/// comes before the one which its release requires, none between them is left out, and none brings a release
/// that the device shows already.
const ORDERS: [(&str, [usize; 2], Said); 6] = [
    (TWO, [0, 1], Ok(())),
    (TWO, [1, 0], Err(PlanStop::No { step: 1 })),
    (TWO, [0, 0], Err(PlanStop::No { step: 2 })),
    (EIGHT, [0, 1], Ok(())),
    (EIGHT, [0, 2], Err(PlanStop::No { step: 2 })),
    (EIGHT, [1, 2], Err(PlanStop::No { step: 1 })),
];

#[test]
fn the_first_step_that_is_not_good_is_told(rt: HostRuntime) -> Result<(), Fail> {
    for (document, places, wanted) in &ORDERS {
        assert_eq!(rt; said_of(rt.alloc(), document, *places)?, *wanted);
    }
    Ok(())
}

/// How many steps are planned over these rows, and what is said over them of the plan without rows.
fn beside_in(alloc: Global, campaign: &Campaign, rows: &[Row]) -> Result<(usize, Said), Fail>
    requires { CanBegin campaign.now }
{
    let first = planned(alloc, campaign, &[])?;
    over_rows(alloc, campaign, rows, &first.plan)
}

/// The same of the plan of the chain of two, over a row of its board in a state.
fn beside(alloc: Global, state: RowState) -> Result<(usize, Said), Fail> {
    let rows = [row(state)?];
    let campaign = campaign_of(alloc, TWO)?;
    beside_in(alloc, &campaign, &rows)
}

/// States of a row of the board, with the number of steps that are planned over it, and what is said of the
/// plan without it: a device with a row that isn't settled has no step, and none of it is good.
const STATES: [(RowState, (usize, Said)); 5] = [
    (RowState::Pending, (0, Err(PlanStop::No { step: 1 }))),
    (RowState::Begun, (0, Err(PlanStop::No { step: 1 }))),
    (RowState::NeedsReboot, (0, Err(PlanStop::No { step: 1 }))),
    (RowState::Success, (2, Ok(()))),
    (RowState::Failed, (2, Ok(()))),
];

#[test]
fn a_device_with_an_open_row_has_no_step(rt: HostRuntime) -> Result<(), Fail> {
    for (state, wanted) in &STATES {
        assert_eq!(rt; beside(rt.alloc(), *state)?, *wanted);
    }
    Ok(())
}
