//! A log that goes on by the installs of a plan.
ghost use Rattle.std.specs.Prelude.{◌≡◌, ◌<◌, ◌≤◌, ◌+◌, ◌∷◌, ◌++◌, [], ◌&&◌, true, nat_lt, length, List, Some, find, slice_get, option_copied, option_map, OnOk, IsSome, Ok};
ghost use Rattle.history_keeper.specs.declared.row.Row.{Row};
ghost use Rattle.release_catalogue.specs.Lookup.{Chosen};
ghost use Rattle.core_state.specs.Core.{Stands};
ghost use Rattle.update_log.specs.Known.{Basis, basis_of, rows};
ghost use Rattle.update_log.specs.Holding.{blocks_of, live_entry};
ghost use Rattle.update_log.specs.Pasts.{past_of};
ghost use Rattle.update_log.specs.Shows.{marks};
ghost use Rattle.update_log.specs.Legal.{next_entry};
ghost use Rattle.update_log.specs.Steps.{all_ops, trace};
ghost use Rattle.update_log.specs.declared.trace.Trace.{Trace};
ghost use Rattle.update_log.specs.Verdicts.{verdict};
ghost use Rattle.update_log.specs.declared.decision.Stage.TheVariants.{Ask};
ghost use Rattle.update_plans.specs.Following.{IsQuiet};
ghost use Rattle.update_plans.specs.Plans.{accepts, has_id, installed, is_good, release_at, request_of, scene};
ghost use Rattle.update_plans.specs.Putting.{Begins, IsPutting, Making, end_on, ops_before, shown_on};
ghost use Rattle.update_plans.specs.Tags.{IsTag};

use crate::course::{ends_well, is_next, shown_after};
use crate::plan::PlanStep;
use crate::raw::is_same;
use crate::releases::{component_of, release_at, release_of};
use crate::requests::request_of;
use core_state::{CoreState, step as append, verdict};
use device_list::Selector;
use emulated_boards::Mark;
use fw_base::{Digest, Name, NoMemory};
use fw_facts::{Component, DeviceFlag, DeviceView, Release, Seen};
use guid_ids::DeviceId;
use history_keeper::RowState;
use release_catalogue::ReleaseRef;
use update_log::{
    AskAnswer, ClaimAnswer, Decision, Event, Facts, FetchNote, Op, Request, Stage, Stored, Told,
    closing, next_op,
};
use version_formats::render;

/// The most events of an install: an ask, a claim, six steps that begin and end, and a finish.
const EVENTS_MAX: usize = 15;

/// The most rows of a history.
const ROWS_MAX: usize = 65_536;

/// Who asks for steps: over which facts, for which client, and the tag that the requests begin with.
#[derive(Drop)]
pub struct Asker<'a> {
    pub facts: &'a Facts,
    pub client: u32,
    pub tag: &'a Name,
}

impl<'a> Asker<'a> {
    /// Whether the step of that number is good as the next one.
    pub fn is_good(&self, state: &CoreState, number: u32, step: &PlanStep) -> bool
        requires tag { IsTag self.now.tag.now }
        requires number { number ≤ 8192 }
        ensures { (opening : List Row) → Stands (basis_of self.now.facts.now opening) state.now
            → IsQuiet (scene (basis_of self.now.facts.now opening) self.now.client self.now.tag.now) (past_of state.now.log)
            → result ≡ is_good (scene (basis_of self.now.facts.now opening) self.now.client self.now.tag.now) number step.now (past_of state.now.log) }
    {
        match component_of(self.facts, step.release) {
            Some(component) => self.is_good_of(state, number, step, component),
            None => false,
        }
    }

    fn is_good_of(
        &self,
        state: &CoreState,
        number: u32,
        step: &PlanStep,
        component: &Component,
    ) -> bool
        requires tag { IsTag self.now.tag.now }
        requires number { number ≤ 8192 }
        requires component { slice_get self.now.facts.now.catalogue step.now.release.component ≡ Some component.now }
        ensures { (opening : List Row) → Stands (basis_of self.now.facts.now opening) state.now
            → IsQuiet (scene (basis_of self.now.facts.now opening) self.now.client self.now.tag.now) (past_of state.now.log)
            → result ≡ is_good (scene (basis_of self.now.facts.now opening) self.now.client self.now.tag.now) number step.now (past_of state.now.log) }
    {
        match release_of(component, step.release) {
            Some(release) => self.is_good_with(state, number, step, component, release),
            None => false,
        }
    }

    fn is_good_with(
        &self,
        state: &CoreState,
        number: u32,
        step: &PlanStep,
        component: &Component,
        release: &Release,
    ) -> bool
        requires tag { IsTag self.now.tag.now }
        requires number { number ≤ 8192 }
        requires component { slice_get self.now.facts.now.catalogue step.now.release.component ≡ Some component.now }
        requires release { slice_get component.now.releases step.now.release.release ≡ Some release.now }
        ensures { (opening : List Row) → Stands (basis_of self.now.facts.now opening) state.now
            → IsQuiet (scene (basis_of self.now.facts.now opening) self.now.client self.now.tag.now) (past_of state.now.log)
            → result ≡ is_good (scene (basis_of self.now.facts.now opening) self.now.client self.now.tag.now) number step.now (past_of state.now.log) }
    {
        match view_of(state, &step.device) {
            Some(view) => self.goes_well(state, number, step, component, release, view),
            None => false,
        }
    }

    // Its version is written, its request is accepted, and it ends well.
    fn goes_well(
        &self,
        state: &CoreState,
        number: u32,
        step: &PlanStep,
        component: &Component,
        release: &Release,
        view: &DeviceView,
    ) -> bool
        requires tag { IsTag self.now.tag.now }
        requires number { number ≤ 8192 }
        requires component { slice_get self.now.facts.now.catalogue step.now.release.component ≡ Some component.now }
        requires release { slice_get component.now.releases step.now.release.release ≡ Some release.now }
        requires view { find (has_id step.now.device) state.now.views ≡ Some view.now }
        ensures { (opening : List Row) → Stands (basis_of self.now.facts.now opening) state.now
            → IsQuiet (scene (basis_of self.now.facts.now opening) self.now.client self.now.tag.now) (past_of state.now.log)
            → result ≡ is_good (scene (basis_of self.now.facts.now opening) self.now.client self.now.tag.now) number step.now (past_of state.now.log) }
    {
        if !is_same(&render(view.sheet.format, step.raw), &release.version) {
            return false;
        }
        if !self.is_accepted(state, number, step, release) {
            return false;
        }
        ends_well(view, component, &release.version, step.raw)
    }

    // Whether its request is accepted, at its ask and at its claim, with its very release. A claim finds
    // what the ask found, and wants place for a row.
    fn is_accepted(
        &self,
        state: &CoreState,
        number: u32,
        step: &PlanStep,
        release: &Release,
    ) -> bool
        requires tag { IsTag self.now.tag.now }
        requires number { number ≤ 8192 }
        ensures { (opening : List Row) (chosen : Chosen) → Stands (basis_of self.now.facts.now opening) state.now → chosen.release ≡ release.now
            → result ≡ (accepts step.now.release (verdict (basis_of self.now.facts.now opening) (past_of state.now.log) self.now.client (request_of (scene (basis_of self.now.facts.now opening) self.now.client self.now.tag.now) number step.now chosen) Ask)
            && nat_lt (length (rows (basis_of self.now.facts.now opening) (past_of state.now.log))) 65536) }
    {
        let request = self.request(number, step, release);
        let decision = verdict(self.facts, state, self.client, &request, Stage::Ask);
        accepts(decision, step.release) && state.rows().len() < ROWS_MAX
    }

    fn request(&self, number: u32, step: &PlanStep, release: &Release) -> Request
        requires tag { IsTag self.now.tag.now }
        requires number { number ≤ 8192 }
        ensures { (opening : List Row) (chosen : Chosen) → chosen.release ≡ release.now
            → result ≡ request_of (scene (basis_of self.now.facts.now opening) self.now.client self.now.tag.now) number step.now chosen }
    {
        request_of(self.tag, number, step, release.version)
    }

    /// Puts the install of a step, which is good, behind the log.
    pub fn install(
        &self,
        state: &mut CoreState,
        number: u32,
        step: &PlanStep,
    ) -> Result<(), NoMemory>
        ghost at: { Making }
        requires tag { IsTag self.now.tag.now }
        requires number { number ≤ 8192 }
        requires numbered { number ≡ at.number }
        requires before { past_of state.old.log ≡ at.before }
        requires stands { Stands (basis_of self.now.facts.now at.opening) state.old }
        requires quiet { IsQuiet (scene (basis_of self.now.facts.now at.opening) self.now.client self.now.tag.now) at.before }
        requires good { is_good (scene (basis_of self.now.facts.now at.opening) self.now.client self.now.tag.now) at.number step.now at.before ≡ true }
        ensures past { OnOk result (past_of state.new.log ≡ installed (scene (basis_of self.now.facts.now at.opening) self.now.client self.now.tag.now) at.number step.now at.before) }
        ensures stands { OnOk result (Stands (basis_of self.now.facts.now at.opening) state.new) }
    {
        match release_at(self.facts, step.release) {
            Some(release) => self.put(state, number, step, release),
            None => Ok(()),
        }
    }

    // The same, where that is its release.
    fn put(
        &self,
        state: &mut CoreState,
        number: u32,
        step: &PlanStep,
        release: &Release,
    ) -> Result<(), NoMemory>
        ghost at: { Making }
        requires tag { IsTag self.now.tag.now }
        requires number { number ≤ 8192 }
        requires numbered { number ≡ at.number }
        requires before { past_of state.old.log ≡ at.before }
        requires stands { Stands (basis_of self.now.facts.now at.opening) state.old }
        requires quiet { IsQuiet (scene (basis_of self.now.facts.now at.opening) self.now.client self.now.tag.now) at.before }
        requires good { is_good (scene (basis_of self.now.facts.now at.opening) self.now.client self.now.tag.now) at.number step.now at.before ≡ true }
        requires release { option_map (λ chosen. chosen.release) (release_at (scene (basis_of self.now.facts.now at.opening) self.now.client self.now.tag.now) step.now.release) ≡ Some release.now }
        ensures past { OnOk result (past_of state.new.log ≡ installed (scene (basis_of self.now.facts.now at.opening) self.now.client self.now.tag.now) at.number step.now at.before) }
        ensures stands { OnOk result (Stands (basis_of self.now.facts.now at.opening) state.new) }
    {
        state.reserve(EVENTS_MAX)?;
        let entry = state.rows().len() as u32 + 1;
        let request = self.request(number, step, release);
        self.take(state, &request, step, release, entry);
        self.make_all(state, step, entry, release.digest);
        self.finish(state, step, entry);
        Ok(())
    }

    // The ask and the claim of a good step, whose release that is.
    fn take(
        &self,
        state: &mut CoreState,
        request: &Request,
        step: &PlanStep,
        release: &Release,
        entry: u32,
    )
        ghost at: { Making }
        requires request { (chosen : Chosen) → chosen.release ≡ release.now → request.now ≡ request_of (scene (basis_of self.now.facts.now at.opening) self.now.client self.now.tag.now) at.number step.now chosen }
        requires begins { Begins (scene (basis_of self.now.facts.now at.opening) self.now.client self.now.tag.now) step.now at release.now entry state.old }
        requires room { 2 ≤ state.old.room }
        requires row { 1 ≤ state.old.row_room }
        ensures put { IsPutting (scene (basis_of self.now.facts.now at.opening) self.now.client self.now.tag.now) step.now (record at { gone = [] }) state.new }
        ensures room { state.old.room ≤ state.new.room + 2 }
    {
        append(
            self.facts,
            state,
            Event::Ask {
                client: self.client,
                request: *request,
                pending: None,
                answer: AskAnswer::Hold {
                    blocks: blocks_of(release.size),
                    release: step.release,
                },
            },
        );
        append(
            self.facts,
            state,
            Event::Claim {
                client: self.client,
                request: *request,
                fetched: FetchNote::Whole {
                    digest: release.digest,
                    len: release.size,
                    raw: step.raw,
                },
                answer: ClaimAnswer::Entry(entry),
            },
        );
    }

    // All steps of the entry.
    fn make_all(&self, state: &mut CoreState, step: &PlanStep, entry: u32, digest: Digest)
        ghost at: { Making }
        requires put { IsPutting (scene (basis_of self.now.facts.now at.opening) self.now.client self.now.tag.now) step.now (record at { gone = [] }) state.old }
        requires digest { option_map (λ chosen. chosen.release.digest) (release_at (scene (basis_of self.now.facts.now at.opening) self.now.client self.now.tag.now) step.now.release) ≡ Some digest }
        requires entry { entry ≡ next_entry (basis_of self.now.facts.now at.opening) at.before }
        requires room { 12 ≤ state.old.room }
        ensures put { IsPutting (scene (basis_of self.now.facts.now at.opening) self.now.client self.now.tag.now) step.now (record at { gone = all_ops }) state.new }
        ensures room { state.old.room ≤ state.new.room + 12 }
    {
        self.make(state, Op::Prepare, step, entry, digest);
        self.make(state, Op::Detach, step, entry, digest);
        self.make(state, Op::Write, step, entry, digest);
        self.make(state, Op::Attach, step, entry, digest);
        self.make(state, Op::Reload, step, entry, digest);
        self.make(state, Op::Cleanup, step, entry, digest);
    }

    // A step of the entry, behind those that come before it, where it is the next one.
    fn make(&self, state: &mut CoreState, op: Op, step: &PlanStep, entry: u32, digest: Digest)
        ghost at: { Making }
        requires put { IsPutting (scene (basis_of self.now.facts.now at.opening) self.now.client self.now.tag.now) step.now at state.old }
        requires gone { at.gone ≡ ops_before op }
        requires digest { option_map (λ chosen. chosen.release.digest) (release_at (scene (basis_of self.now.facts.now at.opening) self.now.client self.now.tag.now) step.now.release) ≡ Some digest }
        requires entry { entry ≡ next_entry (basis_of self.now.facts.now at.opening) at.before }
        requires room { 2 ≤ state.old.room }
        ensures put { IsPutting (scene (basis_of self.now.facts.now at.opening) self.now.client self.now.tag.now) step.now (record at { gone = at.gone ++ op ∷ [] }) state.new }
        ensures room { state.old.room ≤ state.new.room + 2 }
    {
        if !is_next(next_op(&state.trace(entry)), op) {
            return;
        }
        let client = self.client;
        let told = marks(op, entry, digest);
        let seen = shown(state, op, step);
        append(self.facts, state, Event::Start { client, entry, op });
        append(
            self.facts,
            state,
            Event::End {
                client,
                entry,
                op,
                outcome: Ok(()),
                told,
                seen,
            },
        );
    }

    fn finish(&self, state: &mut CoreState, step: &PlanStep, entry: u32)
        ghost at: { Making }
        requires put { IsPutting (scene (basis_of self.now.facts.now at.opening) self.now.client self.now.tag.now) step.now (record at { gone = all_ops }) state.old }
        requires entry { entry ≡ next_entry (basis_of self.now.facts.now at.opening) at.before }
        requires room { 1 ≤ state.old.room }
        ensures past { past_of state.new.log ≡ installed (scene (basis_of self.now.facts.now at.opening) self.now.client self.now.tag.now) at.number step.now at.before }
        ensures stands { Stands (basis_of self.now.facts.now at.opening) state.new }
    {
        let ended = end_of(state, &step.device, entry);
        append(
            self.facts,
            state,
            Event::Finish {
                client: self.client,
                entry,
                state: ended,
                stored: Stored::Yes,
            },
        );
    }
}

// The device with that ID.
fn view_of<'a>(state: &'a CoreState, device: &DeviceId) -> Option<&'a DeviceView>
    ensures { option_copied result ≡ find (has_id device.now) state.now.views }
{
    let at = state.resolve(&Selector::Id(*device))?;
    view_at(state.views(), at)
}

fn view_at(views: &[DeviceView], at: usize) -> Option<&DeviceView>
    ensures { option_copied result ≡ slice_get views.now at }
{
    views.get(at)
}

// What the device of a step shows at the end of a step of its entry.
fn shown(state: &CoreState, op: Op, step: &PlanStep) -> Seen
    ensures { result ≡ shown_on state.now.views op step.now }
{
    match view_of(state, &step.device) {
        Some(view) => shown_after(
            op,
            view.sheet.flags.has(DeviceFlag::NeedsReboot),
            step.raw,
            view.seen,
        ),
        None => Seen::Gone,
    }
}

// In which state the entry ends.
fn end_of(state: &CoreState, device: &DeviceId, entry: u32) -> RowState
    requires { IsSome (live_entry (past_of state.now.log) entry) }
    ensures { (basis : Basis) (t : Trace) → Stands basis state.now
        → trace basis entry (past_of state.now.log) ≡ Some t
        → result ≡ end_on state.now.rows state.now.views device.now entry t }
{
    match (state.row(entry), view_of(state, device)) {
        (Some(row), Some(view)) => closing(&state.trace(entry), row, view),
        (Some(_), None) | (None, Some(_)) | (None, None) => RowState::Begun,
    }
}

fn accepts(decision: Decision, at: ReleaseRef) -> bool
    ensures { result ≡ accepts at decision }
{
    match decision {
        Decision::Accept { release, .. } => release == at,
        Decision::Kept { .. } | Decision::Refused(_) => false,
    }
}

fn blocks_of(size: u32) -> u32
    ensures { result ≡ blocks_of size }
{
    ((u64::from(size) + 4095) / 4096) as u32
}

// The marks of a step that goes well.
fn marks(op: Op, entry: u32, digest: Digest) -> Told
    ensures { result ≡ marks op entry digest }
{
    match op {
        Op::Detach => Told::one(Mark::Entered),
        Op::Write => Told::two(Mark::Began { entry }, Mark::Ended { entry, digest }),
        Op::Attach => Told::one(Mark::Left),
        Op::Prepare | Op::Reload | Op::Cleanup => Told::none(),
    }
}
