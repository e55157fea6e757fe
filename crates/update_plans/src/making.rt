//! The steps of plans, made and checked over a log that goes on by them.
ghost use Rattle.std.specs.Prelude.{◌≡◌, ◌≤◌, ◌<◌, ◌+◌, ◌-◌, ◌++◌, ◌∷◌, [], ◌⊎◌, true, ℕ, None, Some, List, IfOk, IfSome, OnOk, MatchResult, length, map, slice_get};
ghost use Rattle.std.specs.List.{AllByRecursion};
ghost use Rattle.history_keeper.specs.declared.row.Row.{Row};
ghost use Rattle.core_state.specs.Core.{Stands};
ghost use Rattle.update_log.specs.Pasts.{past_of};
ghost use Rattle.update_log.specs.Known.{basis_of};
ghost use Rattle.update_plans.specs.Following.{IsQuiet};
ghost use Rattle.std.specs.Ordering.{is_gt};
ghost use Rattle.version_formats.specs.VersionOrder.{version_cmp};
ghost use Rattle.fw_facts.specs.Views.{guids_of};
ghost use Rattle.update_plans.specs.Choosing.{IsHighestFirst, found_cmp, good_step, side_of, tried, version_found};
ghost use Rattle.update_plans.specs.Plans.{after, chain, chains, device_at, first_bad, installed, is_good, next_step, plan, scene};
ghost use Rattle.update_plans.specs.Tags.{IsTag};

use crate::plan::{PlanStep, PlanStop, STEPS_MAX};
use crate::planner::Asker;
use crate::raw_of;
use crate::releases::version_at;
use crate::walk::order;
use core_state::CoreState;
use fw_base::NoMemory;
use fw_facts::{DeviceView, Mode, Seen};
use release_catalogue::ReleaseRef;
use std::alloc::Global;
use std::cmp::Ordering;
use update_log::Facts;
use version_formats::{Version, compare};

/// Puts the steps of the plan over the log behind that log: for each device in the order of the walk, as
/// long as there is one, the highest release that it can reach next.
pub fn plan_all(
    alloc: Global,
    asker: &Asker,
    state: &mut CoreState,
) -> Result<Vec<PlanStep>, NoMemory>
    ghost opening: { List Row }
    requires tag { IsTag asker.now.tag.now }
    requires stands { Stands (basis_of asker.now.facts.now opening) state.old }
    requires quiet { IsQuiet (scene (basis_of asker.now.facts.now opening) asker.now.client asker.now.tag.now) (past_of state.old.log) }
    ensures { IfOk result (λ steps. steps.items ≡ plan (scene (basis_of asker.now.facts.now opening) asker.now.client asker.now.tag.now) (past_of state.old.log)) }
{
    let places = order(alloc, state.views())?;
    plan_places(alloc, asker, state, &places)
}

// Puts the steps of the devices at these places behind the log.
fn plan_places(
    alloc: Global,
    asker: &Asker,
    state: &mut CoreState,
    places: &[usize],
) -> Result<Vec<PlanStep>, NoMemory>
    ghost opening: { List Row }
    requires tag { IsTag asker.now.tag.now }
    requires places { AllByRecursion (λ at. at < length state.old.views) places.now }
    requires stands { Stands (basis_of asker.now.facts.now opening) state.old }
    requires quiet { IsQuiet (scene (basis_of asker.now.facts.now opening) asker.now.client asker.now.tag.now) (past_of state.old.log) }
    ensures { IfOk result (λ steps. steps.items ≡ chains (scene (basis_of asker.now.facts.now opening) asker.now.client asker.now.tag.now) (map (device_at state.old.views) places.now) 8192 1 (past_of state.old.log)) }
{
    let mut steps = Vec::new(alloc);
    for at in places {
        plan_device(alloc, asker, state, *at, &mut steps)?;
    }
    Ok(steps)
}

/// Whether each step is good after those before it. They are put behind the log.
pub fn check_all(asker: &Asker, state: &mut CoreState, steps: &[PlanStep]) -> Result<(), PlanStop>
    ghost opening: { List Row }
    requires tag { IsTag asker.now.tag.now }
    requires few_steps { length steps.now ≤ 8192 }
    requires stands { Stands (basis_of asker.now.facts.now opening) state.old }
    requires quiet { IsQuiet (scene (basis_of asker.now.facts.now opening) asker.now.client asker.now.tag.now) (past_of state.old.log) }
    ensures { MatchResult result
        (λ _. first_bad (scene (basis_of asker.now.facts.now opening) asker.now.client asker.now.tag.now) 1 steps.now (past_of state.old.log) ≡ None)
        (λ stop. (stop ≡ PlanStop.NoMemory) ⊎ ((number : ℕ) × (stop ≡ PlanStop.No number) × (first_bad (scene (basis_of asker.now.facts.now opening) asker.now.client asker.now.tag.now) 1 steps.now (past_of state.old.log) ≡ Some number))) }
{
    for index in 0..steps.len() {
        let step = step_at(steps, index);
        let number = index as u32 + 1;
        if !asker.is_good(state, number, &step) {
            return Err(PlanStop::No { step: number });
        }
        asker.install(state, number, &step)?;
    }
    Ok(())
}

fn step_at(steps: &[PlanStep], at: usize) -> PlanStep
    requires { at < length steps.now }
    ensures { slice_get steps.now at ≡ Some result }
{
    steps[at]
}

// Puts the steps of the device at a place behind the others, and takes them.
fn plan_device(
    alloc: Global,
    asker: &Asker,
    state: &mut CoreState,
    at: usize,
    steps: &mut Vec<PlanStep>,
) -> Result<(), NoMemory>
    ghost opening: { List Row }
    requires place { at < length state.old.views }
    requires tag { IsTag asker.now.tag.now }
    requires few_steps { length steps.old.items ≤ 8192 }
    requires stands { Stands (basis_of asker.now.facts.now opening) state.old }
    requires quiet { IsQuiet (scene (basis_of asker.now.facts.now opening) asker.now.client asker.now.tag.now) (past_of state.old.log) }
    ensures steps { OnOk result (steps.new.items ≡ steps.old.items ++ chain (scene (basis_of asker.now.facts.now opening) asker.now.client asker.now.tag.now) (device_at state.old.views at) (8192 - length steps.old.items) (length steps.old.items + 1) (past_of state.old.log)) }
    ensures past { OnOk result (past_of state.new.log ≡ after (scene (basis_of asker.now.facts.now opening) asker.now.client asker.now.tag.now) (length steps.old.items + 1) (chain (scene (basis_of asker.now.facts.now opening) asker.now.client asker.now.tag.now) (device_at state.old.views at) (8192 - length steps.old.items) (length steps.old.items + 1) (past_of state.old.log)) (past_of state.old.log)) }
    ensures few_steps { OnOk result (length steps.new.items ≤ 8192) }
    ensures stands { OnOk result (Stands (basis_of asker.now.facts.now opening) state.new) }
    ensures quiet { OnOk result (IsQuiet (scene (basis_of asker.now.facts.now opening) asker.now.client asker.now.tag.now) (past_of state.new.log)) }
{
    let mut releases = highest_first(alloc, asker.facts, device(state, at))?;
    for taken in steps.len()..STEPS_MAX {
        let number = taken as u32 + 1;
        match next_step(asker, state, number, at, &releases) {
            Some(step) => {
                releases = take_step(alloc, asker, state, number, at, step, steps, releases)?;
            }
            None => return Ok(()),
        }
    }
    Ok(())
}

// Takes a step, which is good, puts it behind the others, and gives the releases for the side that the device shows then.
fn take_step(
    alloc: Global,
    asker: &Asker,
    state: &mut CoreState,
    number: u32,
    at: usize,
    step: PlanStep,
    steps: &mut Vec<PlanStep>,
    releases: Vec<ReleaseRef>,
) -> Result<Vec<ReleaseRef>, NoMemory>
    ghost opening: { List Row }
    requires place { at < length state.old.views }
    requires tag { IsTag asker.now.tag.now }
    requires number { number ≤ 8192 }
    requires stands { Stands (basis_of asker.now.facts.now opening) state.old }
    requires quiet { IsQuiet (scene (basis_of asker.now.facts.now opening) asker.now.client asker.now.tag.now) (past_of state.old.log) }
    requires good { is_good (scene (basis_of asker.now.facts.now opening) asker.now.client asker.now.tag.now) number step (past_of state.old.log) ≡ true }
    requires releases { IfSome (slice_get state.old.views at) (λ view. IsHighestFirst asker.now.facts.now (guids_of view) releases.items) }
    ensures past { OnOk result (past_of state.new.log ≡ installed (scene (basis_of asker.now.facts.now opening) asker.now.client asker.now.tag.now) number step (past_of state.old.log)) }
    ensures stands { OnOk result (Stands (basis_of asker.now.facts.now opening) state.new) }
    ensures steps { OnOk result (steps.new.items ≡ steps.old.items ++ step ∷ []) }
    ensures releases { IfOk result (λ places. IfSome (slice_get state.new.views at) (λ view. IsHighestFirst asker.now.facts.now (guids_of view) places.items)) }
{
    let side = side_of(device(state, at).seen);
    asker.install(state, number, &step)?;
    steps.push(step)?;
    on_side(alloc, asker.facts, device(state, at), side, releases)
}

// The device at a place.
#[tactic(auto, using(crate::proofs::Taking::got_at))]
fn device(state: &CoreState, at: usize) -> &DeviceView
    requires { at < length state.now.views }
    ensures { slice_get state.now.views at ≡ Some result.now }
{
    &state.views()[at]
}

// The releases for the side that the device shows, where these are those for another side.
fn on_side(
    alloc: Global,
    facts: &Facts,
    view: &DeviceView,
    side: Option<Mode>,
    releases: Vec<ReleaseRef>,
) -> Result<Vec<ReleaseRef>, NoMemory>
    requires { side_of view.now.seen ≡ side → IsHighestFirst facts.now (guids_of view.now) releases.items }
    ensures { IfOk result (λ places. IsHighestFirst facts.now (guids_of view.now) places.items) }
{
    if side_of(view.seen) == side {
        return Ok(releases);
    }
    highest_first(alloc, facts, view)
}

// The side that a port shows: runtime or boot loader, of a board that is there.
fn side_of(seen: Seen) -> Option<Mode>
    ensures { result ≡ side_of seen }
{
    match seen {
        Seen::Home { mode, .. } => Some(mode),
        Seen::Gone | Seen::Stranger => None,
    }
}

// The releases for the side that the device shows, the highest first, and those of one version in
// catalogue order.
fn highest_first(
    alloc: Global,
    facts: &Facts,
    view: &DeviceView,
) -> Result<Vec<ReleaseRef>, NoMemory>
    ensures { IfOk result (λ places. IsHighestFirst facts.now (guids_of view.now) places.items) }
{
    let mut releases = facts.catalogue.releases_for(alloc, view.guids())?;
    releases.sort_by(|left, right| compare_at(facts, *right, *left))?;
    Ok(releases)
}

fn compare_at(facts: &Facts, left: ReleaseRef, right: ReleaseRef) -> Ordering
    ensures { result ≡ found_cmp (version_found facts.now left) (version_found facts.now right) }
{
    match (version_at(facts, left), version_at(facts, right)) {
        (Some(left), Some(right)) => compare(left, right),
        (Some(_), None) => Ordering::Greater,
        (None, Some(_)) => Ordering::Less,
        (None, None) => Ordering::Equal,
    }
}

// The first step that is good, of releases above the version shown.
fn next_step(
    asker: &Asker,
    state: &CoreState,
    number: u32,
    at: usize,
    releases: &[ReleaseRef],
) -> Option<PlanStep>
    requires place { at < length state.now.views }
    requires tag { IsTag asker.now.tag.now }
    requires number { number ≤ 8192 }
    requires releases { IfSome (slice_get state.now.views at) (λ view. IsHighestFirst asker.now.facts.now (guids_of view) releases.now) }
    ensures { (opening : List Row) → Stands (basis_of asker.now.facts.now opening) state.now
        → IsQuiet (scene (basis_of asker.now.facts.now opening) asker.now.client asker.now.tag.now) (past_of state.now.log)
        → result ≡ next_step (scene (basis_of asker.now.facts.now opening) asker.now.client asker.now.tag.now) number (device_at state.now.views at) (past_of state.now.log) }
{
    let view = device(state, at);
    let shown = view.version()?;
    first_good(asker, state, number, view, &shown, releases)
}

// The same, of releases from the highest down, as long as they are above the version shown.
fn first_good(
    asker: &Asker,
    state: &CoreState,
    number: u32,
    view: &DeviceView,
    shown: &Version,
    releases: &[ReleaseRef],
) -> Option<PlanStep>
    requires tag { IsTag asker.now.tag.now }
    requires number { number ≤ 8192 }
    ensures { (opening : List Row) → Stands (basis_of asker.now.facts.now opening) state.now
        → IsQuiet (scene (basis_of asker.now.facts.now opening) asker.now.client asker.now.tag.now) (past_of state.now.log)
        → result ≡ tried (scene (basis_of asker.now.facts.now opening) asker.now.client asker.now.tag.now) number view.now shown.now (past_of state.now.log) releases.now }
{
    for index in 0..releases.len() {
        let release = release_at(releases, index);
        let version = version_at(asker.facts, release)?;
        if !is_above(version, shown) {
            return None;
        }
        let found = good_step(asker, state, number, view, release, version);
        if found.is_some() {
            return found;
        }
    }
    None
}

fn release_at(releases: &[ReleaseRef], at: usize) -> ReleaseRef
    requires { at < length releases.now }
    ensures { slice_get releases.now at ≡ Some result }
{
    releases[at]
}

fn good_step(
    asker: &Asker,
    state: &CoreState,
    number: u32,
    view: &DeviceView,
    release: ReleaseRef,
    version: &Version,
) -> Option<PlanStep>
    requires tag { IsTag asker.now.tag.now }
    requires number { number ≤ 8192 }
    ensures { (opening : List Row) → Stands (basis_of asker.now.facts.now opening) state.now
        → IsQuiet (scene (basis_of asker.now.facts.now opening) asker.now.client asker.now.tag.now) (past_of state.now.log)
        → result ≡ good_step (scene (basis_of asker.now.facts.now opening) asker.now.client asker.now.tag.now) number view.now release version.now (past_of state.now.log) }
{
    let step = PlanStep {
        device: view.sheet.device,
        release,
        raw: raw_of(view.sheet.format, version)?,
    };
    if asker.is_good(state, number, &step) {
        Some(step)
    } else {
        None
    }
}

fn is_above(version: &Version, shown: &Version) -> bool
    ensures { result ≡ is_gt (version_cmp version.now shown.now) }
{
    match compare(version, shown) {
        Ordering::Greater => true,
        Ordering::Less | Ordering::Equal => false,
    }
}
