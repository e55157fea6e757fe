//! A log that grows by legal events, so that the verdict can be asked of it.
ghost use Rattle.std.specs.Prelude.{◌≡◌, ◌≤◌, ◌<◌, ◌+◌, ◌&&◌, ◌==◌, ◌∷◌, [], List, None, Some, IfOk, OnErr, OnOk, is_none, is_some, length, not, true, false, if◌then◌else◌};
ghost use Rattle.std.specs.List.{list_any};
ghost use Rattle.history_keeper.specs.Histories.{IsHistory};
ghost use Rattle.history_keeper.specs.declared.row.Row.{Row as KnownRow};
ghost use Rattle.core_state.specs.Core.{Stands};
ghost use Rattle.update_log.specs.Holding.{hold, live};
ghost use Rattle.update_log.specs.Known.{basis_of, rows, target, target_at};
ghost use Rattle.fw_facts.specs.Views.{is_home};
ghost use Rattle.update_log.specs.Legal.{IsFree, Legal, ask_answer, found_view, is_fetched, is_whole};
ghost use Rattle.update_log.specs.Pasts.{past_of};
ghost use Rattle.update_log.specs.Verdicts.{verdict};
ghost use Rattle.update_log.specs.Shows.{campaign_on};
ghost use Rattle.log_stories.specs.Stories.{RunsOn, board_shown, boards_from, first_boot, is_accepted, is_settle, mode_of, unplug_answer, waits};
ghost use Rattle.fw_facts.specs.declared.seen.Seen.{Seen};
ghost use Rattle.update_log.specs.declared.event.Event.{Event};
ghost use Rattle.update_log.specs.declared.event.Query.{Query};
ghost use Rattle.update_log.specs.declared.facts.BootPlan.{BootPlan};

use crate::lookups::place;
use crate::target::{Target, target_at};
use core_state::{CoreState, step, verdict};
use device_list::Selector;
use fw_base::{Listed, NoMemory};
use fw_facts::{DeviceView, Mode, Seen};
use history_keeper::{Row, RowState};
use std::alloc::Global;
use std::marker::Model;
use update_log::{
    AskAnswer, BoardSeen, ClaimAnswer, Decision, Event, Facts, FetchNote, Found, Held, Log,
    PlugAnswer, Query, Request, Stage, Told,
};

/// The facts of a story, the rows before its log, and the log.
#[derive(Drop)]
pub struct StoryParts {
    pub facts: Facts,
    pub rows: Vec<Row>,
    pub log: Log,
}

/// A machine that was booted once with all its boards at home, and what its clients did since.
#[derive(Drop)]
pub struct Story {
    facts: Facts,
    opening: Vec<Row>,
    state: CoreState,
}

impl Model for Story {
    ghost use Rattle.log_stories.specs.Stories.{IsStory, StoryTold};
    ghost use Rattle.update_log.specs.Known.{basis_of};

    ghost Value = { StoryTold };

    ghost view = { λ s. record { basis = basis_of s.facts s.opening.items; core = s.state } };

    ghost invariant = { λ s. IsStory (record { basis = basis_of s.facts s.opening.items; core = s.state }) };
}

impl Story {
    ghost use Rattle.log_stories.specs.Stories.{Grown, GrownBy, HasBegun, IsStory, Stayed, ask_event, ask_if_free, claim_event, claim_if_claimable, claim_if_held, is_claimable, is_free, past, settle_if_none_waits, unplug_event};

    /// The machine is booted over these rows, and its boards have these raw versions.
    pub fn booted(
        alloc: Global,
        facts: Facts,
        rows: Vec<Row>,
        raws: &[u32],
    ) -> Result<Story, NoMemory>
        requires each { length facts.sheets ≡ length raws.now }
        requires few { length raws.now ≤ 256 }
        requires history { IsHistory rows.items }
        ensures begun { IfOk result (λ story. HasBegun facts rows.items raws.now story) }
    {
        let opening = Vec::from_slice(alloc, &rows)?;
        let boards = boards_shown(alloc, raws)?;
        let mut state = CoreState::new(alloc, &facts)?;
        state.set_rows(rows);
        // This makes the index of the rows too, so that what is decided from here on goes by it.
        state.reserve(1)?;
        boot(&facts, &mut state, boards, raws);
        Ok(Story {
            facts,
            opening,
            state,
        })
    }

    /// The facts.
    pub fn facts(&self) -> &Facts
        ensures { result.now ≡ self.now.basis.facts }
    {
        &self.facts
    }

    /// Its facts, the rows before its log, and the log, which is legal.
    pub fn into_parts(self) -> StoryParts
        ensures facts { result.facts ≡ self.basis.facts }
        ensures rows { result.rows.items ≡ self.basis.opening }
        ensures log { result.log ≡ self.core.log }
        ensures history { IsHistory result.rows.items }
        ensures legal { (first : List Seen) × (plans : List BootPlan) × Legal (campaign_on (basis_of result.facts result.rows.items) first plans) result.log }
    {
        self.known();
        let Story {
            facts,
            opening,
            state,
        } = self;
        StoryParts {
            facts,
            rows: opening,
            log: state.into_log(),
        }
    }

    /// What stands for the log.
    pub fn state(&self) -> &CoreState
        ensures { result.now ≡ self.now.core }
    {
        &self.state
    }

    // Makes room for an event and a row.
    fn reserve(&mut self) -> Result<(), NoMemory>
        ensures room { OnOk result (1 ≤ self.new.core.room) }
        ensures row_room { OnOk result (1 ≤ self.new.core.row_room) }
        ensures stayed { Stayed self.old self.new }
    {
        self.state.reserve(1)?;
        Ok(())
    }

    // Puts an event behind the log.
    fn append(&mut self, event: Event)
        ghost before: { List KnownRow }
        requires before { self.old.basis.opening ≡ before }
        requires runs { RunsOn (basis_of self.old.basis.facts before) (event ∷ past self.old) }
        requires room { 1 ≤ self.old.core.room }
        requires row { length (rows (basis_of self.old.basis.facts before) (event ∷ past self.old)) ≤ length self.old.core.rows + self.old.core.row_room }
        ensures grown { Grown event self.old self.new }
    {
        step(&self.facts, &mut self.state, event);
    }

    // What is always true of it, for a caller that needs it.
    fn known(&self)
        ensures { IsStory self.now }
    {
        let _ = &self.opening;
    }

    // What is decided of a client's request at a stage.
    fn decided(&self, client: u32, request: &Request, stage: Stage) -> Decision
        ensures { result ≡ verdict self.now.basis (past self.now) client request.now stage }
    {
        verdict(&self.facts, &self.state, client, request, stage)
    }

    // The hold of a client.
    fn hold(&self, client: u32) -> Option<Held>
        ensures { result ≡ hold (past self.now) client }
    {
        self.state.hold(client)
    }

    // Whether the payload that was fetched is that of the request's release.
    fn is_fetched(&self, request: &Request, note: &FetchNote) -> bool
        ensures { result ≡ is_fetched note.now (target self.now.basis.facts self.now.core.views request.now) }
    {
        is_fetched(&self.facts, self.state.views(), request, note)
    }

    // How many rows there are.
    fn row_count(&self) -> usize
        ensures { result ≡ length self.now.core.rows }
    {
        self.state.rows().len()
    }

    // Whether the client has nothing out.
    fn is_free(&self, client: u32) -> bool
        ensures { result ≡ is_free (past self.now) client }
    {
        self.state.hold(client).is_none() && !has_live(&self.state, client)
    }

    // A client asks, and is answered by the verdict.
    fn ask_free(&mut self, client: u32, request: &Request)
        requires free { IsFree (past self.old) client }
        requires room { 1 ≤ self.old.core.room }
        ensures grown { Grown (ask_event self.old client request.now) self.old self.new }
    {
        self.known();
        let decision = self.decided(client, request, Stage::Ask);
        let answer = ask_answer(&decision);
        self.append(Event::Ask {
            client,
            request: *request,
            pending: None,
            answer,
        });
    }

    /// A client asks for an install, where it has nothing out: whether it did.
    pub fn ask(&mut self, client: u32, request: &Request) -> Result<bool, NoMemory>
        ensures grown { OnOk result (GrownBy (ask_if_free self.old client request.now) self.old self.new) }
        ensures told { IfOk result (λ did. did ≡ is_free (past self.old) client) }
        ensures stayed { OnErr result (Stayed self.old self.new) }
    {
        self.reserve()?;
        if !self.is_free(client) {
            return Ok(false);
        }
        self.ask_free(client, request);
        Ok(true)
    }

    // Whether the client may claim the hold with this payload.
    fn is_claimable(&self, client: u32, held: &Held, note: &FetchNote) -> bool
        ensures { result ≡ is_claimable self.now client note.now held.now }
    {
        let stage = Stage::Claim {
            release: held.release,
        };
        let decision = self.decided(client, &held.request, stage);
        held.pending.is_none() && self.is_fetched(&held.request, note) && is_accept(&decision)
    }

    // A client claims what it holds, which is accepted.
    fn claim_held(&mut self, client: u32, held: &Held, note: &FetchNote)
        requires held { hold (past self.old) client ≡ Some held.now }
        requires claimable { is_claimable self.old client note.now held.now ≡ true }
        requires few { length self.old.core.rows < 65536 }
        requires room { 1 ≤ self.old.core.room }
        requires row_room { 1 ≤ self.old.core.row_room }
        ensures grown { Grown (claim_event self.old client note.now held.now) self.old self.new }
    {
        self.known();
        let entry = self.row_count() as u32 + 1;
        self.append(Event::Claim {
            client,
            request: held.request,
            fetched: *note,
            answer: ClaimAnswer::Entry(entry),
        });
    }

    /// A client asks a question other than to settle a device.
    pub fn query(&mut self, client: u32, query: &Query) -> Result<(), NoMemory>
        requires { is_settle query.now ≡ false }
        ensures grown { OnOk result (Grown (Event.Query client query.now) self.old self.new) }
        ensures stayed { OnErr result (Stayed self.old self.new) }
    {
        self.reserve()?;
        self.query_now(client, query);
        Ok(())
    }

    fn query_now(&mut self, client: u32, query: &Query)
        requires other { is_settle query.now ≡ false }
        requires room { 1 ≤ self.old.core.room }
        ensures grown { Grown (Event.Query client query.now) self.old self.new }
    {
        self.known();
        self.append(Event::Query {
            client,
            query: *query,
        });
    }

    /// A client asks to settle a device, where no row waits: whether it did.
    pub fn settle(&mut self, client: u32, device: &Selector) -> Result<bool, NoMemory>
        ensures grown { OnOk result (GrownBy (settle_if_none_waits self.old client device.now) self.old self.new) }
        ensures told { IfOk result (λ did. did ≡ not (list_any waits self.old.core.rows)) }
        ensures stayed { OnErr result (Stayed self.old self.new) }
    {
        self.reserve()?;
        if self.has_waiting() {
            return Ok(false);
        }
        self.settle_now(client, device);
        Ok(true)
    }

    // Whether a row is begun or waits for a boot.
    fn has_waiting(&self) -> bool
        ensures { result ≡ list_any waits self.now.core.rows }
    {
        self.state.rows().iter().any(waits)
    }

    fn settle_now(&mut self, client: u32, device: &Selector)
        requires none { list_any waits self.old.core.rows ≡ false }
        requires room { 1 ≤ self.old.core.room }
        ensures grown { Grown (Event.Query client (Query.Settle device.now)) self.old self.new }
    {
        self.known();
        self.append(Event::Query {
            client,
            query: Query::Settle(*device),
        });
    }

    /// A client takes a board out of its port, or is told why not.
    pub fn unplug(&mut self, client: u32, device: &Selector) -> Result<(), NoMemory>
        ensures grown { OnOk result (Grown (unplug_event self.old client device.now) self.old self.new) }
        ensures stayed { OnErr result (Stayed self.old self.new) }
    {
        self.reserve()?;
        self.unplug_now(client, device);
        Ok(())
    }

    fn unplug_now(&mut self, client: u32, device: &Selector)
        requires room { 1 ≤ self.old.core.room }
        ensures grown { Grown (unplug_event self.old client device.now) self.old self.new }
    {
        self.known();
        let answer = self.unplug_answer(device);
        self.append(Event::Unplug {
            client,
            device: *device,
            answer,
        });
    }

    fn unplug_answer(&self, device: &Selector) -> PlugAnswer
        ensures { result ≡ unplug_answer (found_view self.now.core.views device.now) }
    {
        let views = self.state.views();
        match place(views, device) {
            Some(at) => unplug_answer(&views[at]),
            None => PlugAnswer::NoDevice,
        }
    }

    /// A client claims what it holds, where that is accepted and this was fetched: whether it did.
    pub fn claim(&mut self, client: u32, note: &FetchNote) -> Result<bool, NoMemory>
        ensures grown { OnOk result (GrownBy (claim_if_held self.old client note.now) self.old self.new) }
        ensures told { IfOk result (λ did. did ≡ is_some (claim_if_held self.old client note.now)) }
        ensures stayed { OnErr result (Stayed self.old self.new) }
    {
        self.reserve()?;
        match self.hold(client) {
            Some(held) => Ok(self.claim_if(client, &held, note)),
            None => Ok(false),
        }
    }

    // The same of the client's hold.
    fn claim_if(&mut self, client: u32, held: &Held, note: &FetchNote) -> bool
        requires held { hold (past self.old) client ≡ Some held.now }
        requires room { 1 ≤ self.old.core.room }
        requires row_room { 1 ≤ self.old.core.row_room }
        ensures grown { GrownBy (claim_if_claimable self.old client note.now held.now) self.old self.new }
        ensures told { result ≡ is_claimable self.old client note.now held.now }
    {
        self.known();
        if !self.is_claimable(client, held, note) {
            return false;
        }
        self.claim_held(client, held, note);
        true
    }
}

fn has_live(state: &CoreState, client: u32) -> bool
    ensures { result ≡ list_any (λ l. l.client == client) (live (past_of state.now.log)) }
{
    state.live().iter().any(|l| l.client == client)
}

fn waits(row: &Row) -> bool
    ensures { result ≡ waits row.now }
{
    match row.state {
        RowState::Begun | RowState::NeedsReboot => true,
        RowState::Pending | RowState::Success | RowState::Failed => false,
    }
}

// The answer to an unplug of that device.
fn unplug_answer(view: &DeviceView) -> PlugAnswer
    ensures { result ≡ unplug_answer (Some view.now) }
{
    match view.claim {
        Some(entry) => PlugAnswer::Busy { entry },
        None => unplug_there(view.seen),
    }
}

fn unplug_there(seen: Seen) -> PlugAnswer
    ensures { result ≡ (if is_home seen then PlugAnswer.Done Seen.Gone else PlugAnswer.NotThere) }
{
    match seen {
        Seen::Home { .. } => PlugAnswer::Done { seen: Seen::Gone },
        Seen::Gone | Seen::Stranger => PlugAnswer::NotThere,
    }
}

fn is_accept(decision: &Decision) -> bool
    ensures { result ≡ is_accepted decision.now }
{
    match decision {
        Decision::Accept { .. } => true,
        Decision::Kept { .. } | Decision::Refused(_) => false,
    }
}

// The answer to an ask on which that was decided.
fn ask_answer(decision: &Decision) -> AskAnswer
    ensures { result ≡ ask_answer decision.now }
{
    match decision {
        Decision::Accept {
            release,
            blocks,
            ..
        } => AskAnswer::Hold {
            blocks: *blocks,
            release: *release,
        },
        Decision::Kept { entry, state } => AskAnswer::Kept {
            entry: *entry,
            state: *state,
        },
        Decision::Refused(refusal) => AskAnswer::Refused(*refusal),
    }
}

// Whether the payload that was fetched is that of the request's release.
fn is_fetched(facts: &Facts, views: &[DeviceView], request: &Request, note: &FetchNote) -> bool
    ensures { result ≡ is_fetched note.now (target facts.now views.now request.now) }
{
    match place(views, &request.device) {
        Some(at) => is_fetched_at(facts, views, request, at, note),
        None => false,
    }
}

fn is_fetched_at(
    facts: &Facts,
    views: &[DeviceView],
    request: &Request,
    at: usize,
    note: &FetchNote,
) -> bool
    requires { at < length views.now }
    ensures { result ≡ is_fetched note.now (target_at facts.now views.now request.now.version at) }
{
    match target_at(facts, views, &request.version, at) {
        Some(target) => is_whole(note, &target),
        None => false,
    }
}

fn is_whole(note: &FetchNote, target: &Target) -> bool
    ensures { result ≡ is_whole note.now (record { at = target.now.at; component = target.now.component.now; release = target.now.release.now }) }
{
    match note {
        FetchNote::Whole { digest, len, .. } => {
            *digest == target.release.digest && *len == target.release.size
        }
        FetchNote::Missing
        | FetchNote::Length { .. }
        | FetchNote::Mismatch { .. }
        | FetchNote::ShelfFault => false,
    }
}

fn boards_shown(alloc: Global, raws: &[u32]) -> Result<Vec<BoardSeen>, NoMemory>
    requires { length raws.now ≤ 256 }
    ensures { IfOk result (λ boards. boards.items ≡ boards_from 0 raws.now) }
{
    let mut boards = Vec::new(alloc);
    for (at, raw) in raws.iter().enumerate() {
        boards.push(board_shown(at as u32, *raw))?;
    }
    Ok(boards)
}

// The mode of a board with that image: the raw version 0 is that of no good image.
fn mode_of(raw: u32) -> Mode
    ensures { result ≡ mode_of raw }
{
    if raw == 0 {
        Mode::Bootloader
    } else {
        Mode::Runtime
    }
}

fn board_shown(board: u32, raw: u32) -> BoardSeen
    ensures { result ≡ board_shown board raw }
{
    BoardSeen {
        board,
        seen: Seen::Home {
            raw,
            mode: mode_of(raw),
        },
        untold: Told::none(),
    }
}

// The first boot of a machine whose boards are all at home.
fn boot(facts: &Facts, state: &mut CoreState, boards: Vec<BoardSeen>, raws: &[u32])
    requires each { length facts.now.sheets ≡ length raws.now }
    requires shown { boards.items ≡ boards_from 0 raws.now }
    requires stands { Stands (basis_of facts.now state.old.rows) state.old }
    requires empty { state.old.log ≡ [] }
    requires room { 1 ≤ state.old.room }
    ensures log { state.new.log ≡ first_boot raws.now ∷ [] }
    ensures stands { Stands (basis_of facts.now state.old.rows) state.new }
    ensures runs { RunsOn (basis_of facts.now state.old.rows) (past_of state.new.log) }
{
    step(
        facts,
        state,
        Event::Boot {
            boot: 1,
            time: 1000,
            limit: None,
            found: Found::Plain,
            boards: Listed::of(boards),
        },
    );
}
