//! The campaign that plays a plan.
ghost use Rattle.std.specs.Prelude.{◌≡◌, ◌≤◌, ◌++◌, ◌∷◌, [], length, map, IfOk, OnOk};
ghost use Rattle.client_scripts.specs.declared.item.Item.{Item};
ghost use Rattle.history_keeper.specs.Histories.{IsHistory};
ghost use Rattle.first_boots.specs.FirstBoot.{shown_by};
ghost use Rattle.update_plans.specs.Tags.{IsTag};
ghost use Rattle.update_plans.specs.Plans.{scene};
ghost use Rattle.campaign_inputs.specs.Begin.{CanBegin};
ghost use Rattle.campaign_plans.specs.FirstPlans.{first_steps};
ghost use Rattle.campaign_plans.specs.Updating.{Plays, first_alone, install_of, installs_from, one_script};
ghost use Rattle.update_log.specs.Known.{basis_of};

use crate::first_plan::{FirstPlan, plan_checked};
use client_scripts::Item;
use device_list::Selector;
use fw_base::{Listed, Name, NoMemory};
use history_keeper::Row;
use site_types::Campaign;
use std::alloc::Global;
use update_log::{BootPlan, Facts, Query, Request};
use update_plans::{Plan, PlanStep, request_of, version_at};

/// The campaign of the first boot alone, with the planned installs as the one script of client 1. The plan
/// is made over those rows, a valid history, and checked. The tag has at most 56 bytes.
pub fn updated(
    alloc: Global,
    campaign: Campaign,
    rows: &[Row],
    tag: &Name,
) -> Result<Campaign, NoMemory>
    requires begins { CanBegin campaign }
    requires history { IsHistory rows.now }
    requires tag { IsTag tag.now }
    ensures { IfOk result (λ made. Plays
        (installs_from (scene (basis_of campaign.facts rows.now) 1 tag.now) 1 (first_steps campaign.facts (map shown_by campaign.boards.items) campaign.boots rows.now tag.now))
        campaign made) }
{
    let items = first_installs(alloc, &campaign, rows, tag)?;
    with_script(alloc, campaign, items)
}

// The installs of the plan over the first boot, once each was found to be good.
fn first_installs(
    alloc: Global,
    campaign: &Campaign,
    rows: &[Row],
    tag: &Name,
) -> Result<Vec<Item>, NoMemory>
    requires begins { CanBegin campaign.now }
    requires history { IsHistory rows.now }
    requires tag { IsTag tag.now }
    ensures { IfOk result (λ items. items.items ≡
        installs_from (scene (basis_of campaign.now.facts rows.now) 1 tag.now) 1 (first_steps campaign.now.facts (map shown_by campaign.now.boards.items) campaign.now.boots rows.now tag.now)) }
{
    let first = plan_checked(alloc, campaign, rows, tag)?;
    let items = script_of(alloc, &campaign.facts, &first.plan)?;
    Ok(items)
}

// The installs of a plan.
fn script_of(alloc: Global, facts: &Facts, plan: &Plan) -> Result<Vec<Item>, NoMemory>
    requires tag { IsTag plan.now.tag }
    requires few { length plan.now.steps ≤ 8192 }
    ensures { IfOk result (λ items. items.items ≡ installs_from (scene (basis_of facts.now []) 1 plan.now.tag) 1 plan.now.steps) }
{
    let mut items = Vec::new(alloc);
    for (index, step) in plan.steps.items().iter().enumerate() {
        put_install(&mut items, facts, &plan.tag, index as u32 + 1, step)?;
    }
    Ok(items)
}

// Puts the install of a step behind the items.
fn put_install(
    items: &mut Vec<Item>,
    facts: &Facts,
    tag: &Name,
    number: u32,
    step: &PlanStep,
) -> Result<(), NoMemory>
    requires tag { IsTag tag.now }
    requires few { number ≤ 8192 }
    ensures { OnOk result (items.new.items ≡ items.old.items ++ install_of (scene (basis_of facts.now []) 1 tag.now) number step.now) }
{
    match version_at(facts, step.release) {
        Some(version) => {
            let request = request_of(tag, number, step, *version);
            push_request(items, &request)
        }
        None => Ok(()),
    }
}

// Puts the install of a request behind the items.
fn push_request(items: &mut Vec<Item>, request: &Request) -> Result<(), NoMemory>
    ensures { OnOk result (items.new.items ≡ items.old.items ++ Item.Install request.now ∷ []) }
{
    // The checker of borrows wants the types of an item's parts among the locals.
    let _device: Option<Selector> = None;
    let _query: Option<Query> = None;
    let _retry_of: Option<u32> = None;
    items.push(Item::Install(*request))?;
    Ok(())
}

// The campaign with its first boot alone, and one script for it.
fn with_script(alloc: Global, campaign: Campaign, items: Vec<Item>) -> Result<Campaign, NoMemory>
    ensures { IfOk result (λ made. Plays items.items campaign made) }
{
    let Campaign {
        facts,
        boards,
        boots,
        scripts: _,
    } = campaign;
    let first = first_alone(alloc, boots.items())?;
    let scripts = one_script(alloc, boots.items(), items)?;
    Ok(Campaign {
        facts,
        boards,
        boots: first,
        scripts,
    })
}

fn first_alone(alloc: Global, boots: &[BootPlan]) -> Result<Listed<BootPlan>, NoMemory>
    ensures { IfOk result (λ first. first ≡ first_alone boots.now) }
{
    let mut first = Vec::new(alloc);
    if let Some(boot) = boots.get(0) {
        first.push(copied(alloc, boot)?)?;
    }
    Ok(Listed::of(first))
}

fn copied(alloc: Global, boot: &BootPlan) -> Result<BootPlan, NoMemory>
    ensures { IfOk result (λ copy. copy ≡ boot.now) }
{
    Ok(BootPlan {
        time: boot.time,
        limit: boot.limit,
        absent: Listed::of(Vec::from_slice(alloc, boot.absent.items())?),
    })
}

fn one_script(
    alloc: Global,
    boots: &[BootPlan],
    items: Vec<Item>,
) -> Result<Listed<Listed<Listed<Item>>>, NoMemory>
    ensures { IfOk result (λ scripts. scripts ≡ one_script boots.now items.items) }
{
    let mut of_boots = Vec::new(alloc);
    if !boots.is_empty() {
        let mut of_boot = Vec::new(alloc);
        of_boot.push(Listed::of(items))?;
        of_boots.push(Listed::of(of_boot))?;
    }
    Ok(Listed::of(of_boots))
}
