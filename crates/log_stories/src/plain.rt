//! The plain program: the verdict on a request by scans of the rows, the devices and the log, without an
//! index and without memory.
ghost use Rattle.std.specs.Prelude.{◌≡◌, ◌<◌, ◌-◌, ◌^◌, ◌&&◌, ◌==◌, not, Some, None, List, if◌then◌else◌, slice_get, IsTrue, IfSome, length, find, option_map, option_copied, option_and_then, unwrap_or, is_some, true, false};
ghost use Rattle.std.specs.Str.{bytes_eq};
ghost use Rattle.fw_facts.specs.Views.{is_home};
ghost use Rattle.history_keeper.specs.Histories.{is_unsettled};
ghost use Rattle.history_keeper.specs.declared.row.Row.{Row as KnownRow};
ghost use Rattle.core_state.specs.Core.{Stands};
ghost use Rattle.update_log.specs.Holding.{is_live, live};
ghost use Rattle.update_log.specs.Known.{basis_of, target, row_of, row_with_tag};
ghost use Rattle.update_log.specs.Pasts.{past_of};
ghost use Rattle.update_log.specs.Verdicts.{decided, pending_of, release_asked, present, is_release, fault_of, retry, row_fault, first_refusal, first_unmet_for, refusals, features_for, client_for, wants_room, wants_row, on_target, on_found, on_present, verdict};
ghost use Rattle.request_verdicts.specs.Cases.{HasFew, IsPresent, target_with, row_refusals, device_refusals, version_refusals, rule_refusals, room_refusals};
ghost use Rattle.log_stories.specs.Plain.{case_over};

use crate::lookups::{in_the_way, is_home, place, row_of, row_with_tag};
use crate::refusing::{
    busy, hindered, installed, locked, no_room, not_updatable, older, out_of_size, rows_full,
    vetoed,
};
use crate::retrying::{not_failed, of_other_device, of_other_release, retried};
use crate::scans::{blocks_of, free_blocks};
use crate::target::{Target, target_at};
use core_state::CoreState;
use fw_base::{Digest, Name};
use fw_facts::DeviceView;
use history_keeper::Row;
use release_catalogue::ReleaseRef;
use requirements::{Unmet, first_unmet};
use update_log::{Decision, Event, Facts, Refusal, Request, RetryFault, Stage};

/// All that a decision reads.
#[derive(Drop)]
pub struct Case<'a> {
    pub facts: &'a Facts,
    pub views: &'a [DeviceView],
    pub rows: &'a [Row],
    pub log: &'a [Event],
    pub client: u32,
    pub request: &'a Request,
    pub stage: Stage,
}

/// What is decided of a client's request at a stage, over the log that the state stands for. A device's
/// place fits 32 bits.
pub fn plain_verdict(
    facts: &Facts,
    state: &CoreState,
    client: u32,
    request: &Request,
    stage: Stage,
) -> Decision
    requires { length state.now.views < 2 ^ 32 }
    ensures { (opening : List KnownRow) → Stands (basis_of facts.now opening) state.now → result ≡ verdict (basis_of facts.now opening) (past_of state.now.log) client request.now stage }
{
    facts.catalogue.within_limits();
    decided(&Case {
        facts,
        views: state.views(),
        rows: state.rows(),
        log: state.log(),
        client,
        request,
        stage,
    })
}

// The entry of the pending row that makes the request, where one does.
fn pending_of(stage: Stage) -> Option<u32>
    ensures { result ≡ pending_of stage }
{
    match stage {
        Stage::AskPending { entry } | Stage::Resume { entry, .. } => Some(entry),
        Stage::Ask | Stage::Claim { .. } | Stage::Schedule => None,
    }
}

// The release that the ask found, where there was an ask before.
fn release_asked(stage: Stage) -> Option<ReleaseRef>
    ensures { result ≡ release_asked stage }
{
    match stage {
        Stage::Claim { release } | Stage::Resume { release, .. } => Some(release),
        Stage::Ask | Stage::AskPending { .. } | Stage::Schedule => None,
    }
}

fn wants_room(stage: Stage) -> bool
    ensures { result ≡ wants_room stage }
{
    match stage {
        Stage::Ask | Stage::AskPending { .. } => true,
        Stage::Claim { .. } | Stage::Schedule | Stage::Resume { .. } => false,
    }
}

fn wants_row(stage: Stage) -> bool
    ensures { result ≡ wants_row stage }
{
    match stage {
        Stage::Claim { .. } | Stage::Schedule => true,
        Stage::Ask | Stage::AskPending { .. } | Stage::Resume { .. } => false,
    }
}

// The row of the pending request, where one makes it.
fn own_row(rows: &[Row], stage: Stage) -> Option<&Row>
    ensures { option_copied result ≡ option_and_then (row_of rows.now) (pending_of stage) }
{
    match pending_of(stage) {
        Some(entry) => row_of(rows, entry),
        None => None,
    }
}

// The row that has the request's tag. A pending row's request passes.
fn kept<'a>(rows: &'a [Row], tag: &Name, stage: Stage) -> Option<&'a Row>
    ensures { option_copied result ≡ (if is_some (pending_of stage) then None else row_with_tag rows.now tag.now) }
{
    match pending_of(stage) {
        Some(_) => None,
        None => row_with_tag(rows, tag),
    }
}

// The features of a client, from client 1 on. Any other has none.
fn features_for(facts: &Facts, client: u32) -> &[Name]
    ensures { result.now ≡ features_for facts.now client }
{
    if client == 0 {
        return &[];
    }
    match facts.features.items().get(client as usize - 1) {
        Some(features) => features.items(),
        None => &[],
    }
}

// The client whose features count: that of a pending row where one makes the request.
fn client_for(own: Option<&Row>, client: u32) -> u32
    ensures { result ≡ unwrap_or (option_map (λ r. r.client) (option_copied own.entry)) client }
{
    match own {
        Some(row) => row.client,
        None => client,
    }
}

// The release is the one of the ask, where there was an ask.
fn is_asked(stage: Stage, at: ReleaseRef) -> bool
    ensures { result ≡ unwrap_or (option_map (λ r. is_release r at) (release_asked stage)) true }
{
    match release_asked(stage) {
        Some(asked) => is_release(asked, at),
        None => true,
    }
}

fn is_release(a: ReleaseRef, b: ReleaseRef) -> bool
    ensures { result ≡ is_release a b }
{
    a.component == b.component && a.release == b.release
}

// The release has the digest of the pending row, where one makes the request.
fn has_digest(own: Option<&Row>, digest: &Digest) -> bool
    ensures { result ≡ unwrap_or (option_map (λ r. bytes_eq r.digest digest.now) (option_copied own.entry)) true }
{
    match own {
        Some(row) => row.digest == *digest,
        None => true,
    }
}

// The place of the device that the request names, where that device is present.
fn present(case: &Case) -> Option<usize>
    ensures exact { result ≡ present (case_over case.now.facts.now case.now.views.now case.now.rows.now case.now.log.now case.now.client case.now.request.now case.now.stage) }
    ensures there { IfSome result (λ at. IsPresent case.now.views.now case.now.request.now.device at) }
{
    let at = place(case.views, &case.request.device)?;
    if is_home(case.views[at].seen) {
        Some(at)
    } else {
        None
    }
}

// The entry of the device's row that is in the way.
fn unsettled(case: &Case, view: &DeviceView) -> Option<Refusal>
    ensures { result ≡ option_map (λ r. Refusal.Unsettled r.entry) (find (λ r. bytes_eq r.device view.now.sheet.device && is_unsettled r.state && not (is_live (live (past_of case.now.log.now)) r.entry) && not (unwrap_or (option_map (λ entry. entry == r.entry) (pending_of case.now.stage)) false)) case.now.rows.now) }
{
    let own = pending_of(case.stage);
    match in_the_way(case.rows, case.log, &view.sheet.device, own) {
        Some(row) => Some(Refusal::Unsettled { entry: row.entry }),
        None => None,
    }
}

// The request names a row that it can't try again.
fn retry(case: &Case, target: &Target) -> Option<Refusal>
    ensures { result ≡ retry (case_over case.now.facts.now case.now.views.now case.now.rows.now case.now.log.now case.now.client case.now.request.now case.now.stage) (target_with target.now.place target.now.view.now target.now.at target.now.component.now target.now.release.now) }
{
    let entry = case.request.retry_of?;
    match fault_of(case, target, entry) {
        Some(fault) => Some(Refusal::Retry(fault)),
        None => None,
    }
}

// Why the row of that entry can't be tried again for the target.
fn fault_of(case: &Case, target: &Target, entry: u32) -> Option<RetryFault>
    ensures { result ≡ fault_of (case_over case.now.facts.now case.now.views.now case.now.rows.now case.now.log.now case.now.client case.now.request.now case.now.stage) (target_with target.now.place target.now.view.now target.now.at target.now.component.now target.now.release.now) entry (row_of case.now.rows.now entry) }
{
    match row_of(case.rows, entry) {
        Some(row) => row_fault(case, target, entry, row),
        None => Some(RetryFault::NoRow),
    }
}

fn row_fault(case: &Case, target: &Target, entry: u32, row: &Row) -> Option<RetryFault>
    ensures { result ≡ row_fault (case_over case.now.facts.now case.now.views.now case.now.rows.now case.now.log.now case.now.client case.now.request.now case.now.stage) (target_with target.now.place target.now.view.now target.now.at target.now.component.now target.now.release.now) entry row.now }
{
    if let Some(fault) = of_other_device(row, &target.view.sheet.device) {
        return Some(fault);
    }
    if let Some(fault) = not_failed(row) {
        return Some(fault);
    }
    let own = pending_of(case.stage);
    if let Some(fault) = retried(case.rows, entry, own) {
        return Some(fault);
    }
    of_other_release(row, &target.release.digest)
}

// What refuses it by an update of the device that runs or waits, and by the row that it tries again.
fn of_rows(case: &Case, target: &Target) -> Option<Refusal>
    ensures { result ≡ first_refusal (row_refusals (case_over case.now.facts.now case.now.views.now case.now.rows.now case.now.log.now case.now.client case.now.request.now case.now.stage) (target_with target.now.place target.now.view.now target.now.at target.now.component.now target.now.release.now)) }
{
    if let Some(refusal) = busy(target.view) {
        return Some(refusal);
    }
    if let Some(refusal) = unsettled(case, target.view) {
        return Some(refusal);
    }
    retry(case, target)
}

// What refuses it by the device itself.
fn of_device(case: &Case, target: &Target) -> Option<Refusal>
    ensures { result ≡ first_refusal (device_refusals (case_over case.now.facts.now case.now.views.now case.now.rows.now case.now.log.now case.now.client case.now.request.now case.now.stage) (target_with target.now.place target.now.view.now target.now.at target.now.component.now target.now.release.now)) }
{
    let view = target.view;
    if let Some(refusal) = not_updatable(view) {
        return Some(refusal);
    }
    if let Some(refusal) = locked(view) {
        return Some(refusal);
    }
    hindered(&case.facts.machine, view)
}

// What refuses it by the versions.
fn of_versions(case: &Case, target: &Target) -> Option<Refusal>
    requires { IsTrue (is_home target.now.view.now.seen) }
    ensures { result ≡ first_refusal (version_refusals (case_over case.now.facts.now case.now.views.now case.now.rows.now case.now.log.now case.now.client case.now.request.now case.now.stage) (target_with target.now.place target.now.view.now target.now.at target.now.component.now target.now.release.now)) }
{
    let shown = target.view.version()?;
    let release = &target.release.version;
    let flags = case.request.flags;
    if let Some(refusal) = installed(release, &shown, flags.allow_reinstall) {
        return Some(refusal);
    }
    older(release, &shown, flags.allow_older)
}

// What refuses it by rules.
fn of_rules(case: &Case, target: &Target) -> Option<Refusal>
    requires home { IsTrue (is_home target.now.view.now.seen) }
    requires place { target.now.place < length case.now.views.now }
    requires there { slice_get case.now.views.now target.now.place ≡ Some target.now.view.now }
    requires few { length target.now.component.now.requirements < 2 ^ 32 }
    ensures { result ≡ first_refusal (rule_refusals (case_over case.now.facts.now case.now.views.now case.now.rows.now case.now.log.now case.now.client case.now.request.now case.now.stage) (target_with target.now.place target.now.view.now target.now.at target.now.component.now target.now.release.now)) }
{
    if let Some(unmet) = unmet_of(case, target) {
        return Some(Refusal::Unmet(unmet));
    }
    vetoed(&case.facts.machine, target.view, case.facts.vetoes.items())
}

fn unmet_of(case: &Case, target: &Target) -> Option<Unmet>
    requires home { IsTrue (is_home target.now.view.now.seen) }
    requires place { target.now.place < length case.now.views.now }
    requires there { slice_get case.now.views.now target.now.place ≡ Some target.now.view.now }
    requires few { length target.now.component.now.requirements < 2 ^ 32 }
    ensures { let c = case_over case.now.facts.now case.now.views.now case.now.rows.now case.now.log.now case.now.client case.now.request.now case.now.stage in result ≡ first_unmet_for c.facts (client_for c) c.views (target_with target.now.place target.now.view.now target.now.at target.now.component.now target.now.release.now) }
{
    let client = client_for(own_row(case.rows, case.stage), case.client);
    first_unmet(
        &case.facts.machine,
        features_for(case.facts, client),
        case.views,
        target.place,
        target.component.requirements.items(),
    )
}

// What refuses it by the room that it takes.
fn of_room(case: &Case, target: &Target) -> Option<Refusal>
    ensures { result ≡ first_refusal (room_refusals (case_over case.now.facts.now case.now.views.now case.now.rows.now case.now.log.now case.now.client case.now.request.now case.now.stage) (target_with target.now.place target.now.view.now target.now.at target.now.component.now target.now.release.now)) }
{
    let size = target.release.size;
    let sheet = &target.view.sheet;
    if let Some(refusal) = out_of_size(size, sheet.size_min, sheet.size_max) {
        return Some(refusal);
    }
    let free = free_blocks(case.facts.pool, case.log);
    if let Some(refusal) = no_room(wants_room(case.stage), blocks_of(size), free) {
        return Some(refusal);
    }
    rows_full(wants_row(case.stage), case.rows.len())
}

// The first refusal of a request for a target.
fn refusal(case: &Case, target: &Target) -> Option<Refusal>
    requires place { target.now.place < length case.now.views.now }
    requires there { slice_get case.now.views.now target.now.place ≡ Some target.now.view.now }
    requires home { IsTrue (is_home target.now.view.now.seen) }
    requires few { length target.now.component.now.requirements < 2 ^ 32 }
    ensures { result ≡ first_refusal (refusals (case_over case.now.facts.now case.now.views.now case.now.rows.now case.now.log.now case.now.client case.now.request.now case.now.stage) (target_with target.now.place target.now.view.now target.now.at target.now.component.now target.now.release.now)) }
{
    if let Some(refusal) = of_rows(case, target) {
        return Some(refusal);
    }
    if let Some(refusal) = of_device(case, target) {
        return Some(refusal);
    }
    if let Some(refusal) = of_versions(case, target) {
        return Some(refusal);
    }
    if let Some(refusal) = of_rules(case, target) {
        return Some(refusal);
    }
    of_room(case, target)
}

// The decision on a request whose device is present and has the release.
fn on_target(case: &Case, target: &Target) -> Decision
    requires devices { length case.now.views.now < 2 ^ 32 }
    requires place { target.now.place < length case.now.views.now }
    requires there { slice_get case.now.views.now target.now.place ≡ Some target.now.view.now }
    requires home { IsTrue (is_home target.now.view.now.seen) }
    requires few { length target.now.component.now.requirements < 2 ^ 32 }
    ensures { result ≡ on_target (case_over case.now.facts.now case.now.views.now case.now.rows.now case.now.log.now case.now.client case.now.request.now case.now.stage) (target_with target.now.place target.now.view.now target.now.at target.now.component.now target.now.release.now) }
{
    match refusal(case, target) {
        Some(refusal) => Decision::Refused(refusal),
        None => Decision::Accept {
            device: target.place as u32,
            release: target.at,
            blocks: blocks_of(target.release.size),
        },
    }
}

// The decision on a request whose device is present, at that place.
fn on_found(case: &Case, at: usize) -> Decision
    requires devices { length case.now.views.now < 2 ^ 32 }
    requires few { HasFew case.now.facts.now.catalogue }
    requires present { IsPresent case.now.views.now case.now.request.now.device at }
    ensures { let c = case_over case.now.facts.now case.now.views.now case.now.rows.now case.now.log.now case.now.client case.now.request.now case.now.stage in result ≡ on_found c (target c.facts c.views c.request) }
{
    match target_at(case.facts, case.views, &case.request.version, at) {
        Some(target) => on_release(case, &target),
        None => Decision::Refused(Refusal::NoRelease),
    }
}

fn on_release(case: &Case, target: &Target) -> Decision
    requires devices { length case.now.views.now < 2 ^ 32 }
    requires place { target.now.place < length case.now.views.now }
    requires there { slice_get case.now.views.now target.now.place ≡ Some target.now.view.now }
    requires home { IsTrue (is_home target.now.view.now.seen) }
    requires few { length target.now.component.now.requirements < 2 ^ 32 }
    ensures { result ≡ on_found (case_over case.now.facts.now case.now.views.now case.now.rows.now case.now.log.now case.now.client case.now.request.now case.now.stage) (Some (target_with target.now.place target.now.view.now target.now.at target.now.component.now target.now.release.now)) }
{
    let own = own_row(case.rows, case.stage);
    if is_asked(case.stage, target.at) && has_digest(own, &target.release.digest) {
        on_target(case, target)
    } else {
        Decision::Refused(Refusal::NoRelease)
    }
}

// The decision on a request whose tag is new.
fn on_present(case: &Case) -> Decision
    requires devices { length case.now.views.now < 2 ^ 32 }
    requires few { HasFew case.now.facts.now.catalogue }
    ensures { let c = case_over case.now.facts.now case.now.views.now case.now.rows.now case.now.log.now case.now.client case.now.request.now case.now.stage in result ≡ on_present c (present c) }
{
    match present(case) {
        Some(at) => on_found(case, at),
        None => Decision::Refused(Refusal::NoDevice),
    }
}

/// What is decided of a request.
pub fn decided(case: &Case) -> Decision
    requires devices { length case.now.views.now < 2 ^ 32 }
    requires few { HasFew case.now.facts.now.catalogue }
    ensures { result ≡ decided (case_over case.now.facts.now case.now.views.now case.now.rows.now case.now.log.now case.now.client case.now.request.now case.now.stage) }
{
    match kept(case.rows, &case.request.tag, case.stage) {
        Some(row) => Decision::Kept {
            entry: row.entry,
            state: row.state,
        },
        None => on_present(case),
    }
}
