//! The log's side of a house.
ghost use Rattle.std.specs.Prelude.{◌≡◌, ◌≤◌, ◌<◌, ◌+◌, ◌-◌, ◌*◌, ◌^◌, ◌∷◌, [], true, false, List, length, slice_get, IfOk, OnOk, MatchBool, Some};
ghost use Rattle.fw_facts.specs.declared.seen.Seen.{Seen};
ghost use Rattle.history_keeper.specs.declared.row.Row.{Row};
ghost use Rattle.update_log.specs.Pasts.{AllFaults, boots, counted, is_boot, limit_of, time_of};
ghost use Rattle.update_log.specs.Known.{rows};
ghost use Rattle.update_log.specs.Legal.{BelowLimit, BootTakes};
ghost use Rattle.update_log.specs.Verdicts.{verdict};

mod boots;
mod claims;
mod closings;
mod going;
mod opening;
mod parting;
mod resumes;

use crate::house_log::opening::{Opening, opening_row};
use crate::stop::Stop;
use core_state::{CoreState, step, verdict};
use fw_base::NoMemory;
use fw_facts::{Release, Seen};
use history_keeper::{Change, Row};
use release_catalogue::ReleaseRef;
use std::alloc::Global;
use std::marker::Model;
use update_log::{ClaimAnswer, Decision, Event, Facts, Request, Stage};

/// The log's side of a house: the facts, what each first image shows, the rows that a boot loaded and whether
/// it took them, whether the keeper was opened again and no boot behind the log says yet what became of the
/// change in doubt, what stands for the log, and who made each of its events.
#[derive(Drop)]
pub struct HouseLog {
    facts: Facts,
    first: Vec<Seen>,
    opening: Opening,
    reopened: bool,
    core: CoreState,
    makers: Vec<u32>,
}

impl Model for HouseLog {
    ghost use Rattle.daemon_core.specs.Housed.{HouseLogView};
    ghost use Rattle.daemon_core.specs.Openings.{IsKept, house_log_of};

    ghost Value = { HouseLogView };

    ghost view = { house_log_of };

    ghost invariant = { IsKept };
}

impl HouseLog {
    ghost use Rattle.daemon_core.specs.HouseLog.{Appended, Entered, IsAllowedSo, IsBlank, IsHouseLog, IsLegalSo, IsMadeBy, roomier};
    ghost use Rattle.fw_facts.specs.declared.release.Release.{Release as FoundRelease};
    ghost use Rattle.daemon_core.specs.Holds.{IsReleaseAt};
    ghost use Rattle.daemon_core.specs.PutOff.{IsAccept};
    ghost use Rattle.history_keeper.specs.Changes.{IsTimely, Suits};
    ghost use Rattle.history_keeper.specs.declared.change.Change.{Change};
    ghost use Rattle.history_keeper.specs.declared.row.RowState.{RowState};
    ghost use Rattle.update_log.specs.Holding.{live};
    ghost use Rattle.update_log.specs.Known.{basis_of, addition, known};
    ghost use Rattle.update_log.specs.declared.decision.Stage.{Stage};
    ghost use Rattle.daemon_core.specs.Housed.{basis_in, past_in, rows_before};
    ghost use Rattle.daemon_core.specs.Owed.{owed};

    /// The house log before the first boot. There are at most 256 sheets, and what the first image of each
    /// board shows; only memory may be wanting.
    pub fn new(alloc: Global, facts: Facts, first: Vec<Seen>) -> Result<HouseLog, NoMemory>
        requires few { length facts.sheets ≤ 256 }
        requires firsts { length first.items ≡ length facts.sheets }
        ensures blank { IfOk result (λ house_log. IsBlank facts first.items house_log) }
    {
        let core = CoreState::new(alloc, &facts)?;
        Ok(HouseLog {
            facts,
            first,
            opening: Opening::Untaken(Vec::new(alloc)),
            reopened: false,
            core,
            makers: Vec::new(alloc),
        })
    }

    /// The facts.
    pub fn facts(&self) -> &Facts
        ensures { result.now ≡ self.now.facts }
    {
        &self.facts
    }

    /// The row at a place of those that the last boot loaded, and none before it.
    pub fn opening(&self, at: usize) -> Option<Row>
        ensures { result ≡ slice_get self.now.opening at }
    {
        opening_row(&self.opening, self.core.rows(), at)
    }

    /// What stands for the log.
    pub fn core(&self) -> &CoreState
        ensures { result.now ≡ self.now.core }
    {
        &self.core
    }

    /// What is always true of them, for a caller that needs it.
    pub fn known(&self)
        ensures { IsHouseLog self.now }
    {
        let _ = &self.reopened;
    }

    /// What is decided of a client's request at a stage.
    pub fn decided(&self, client: u32, request: &Request, stage: Stage) -> Decision
        ensures { result ≡ verdict (basis_in self.now) (past_in self.now) client request.now stage }
    {
        verdict(&self.facts, &self.core, client, request, stage)
    }

    /// The release at a place of the catalogue.
    pub fn release(&self, at: ReleaseRef) -> &Release
        requires { (release : FoundRelease) × IsReleaseAt self.now.facts.catalogue at release }
        ensures { IsReleaseAt self.now.facts.catalogue at result.now }
    {
        let component = self.facts.catalogue.component(at.component);
        &component.releases.items()[at.release as usize]
    }

    /// The row that a request adds which is accepted and put off.
    pub fn row_put_off(&self, client: u32, request: &Request) -> Row
        requires { IsAccept (verdict (basis_in self.now) (past_in self.now) client request.now Stage.Schedule) }
        ensures added { addition self.now.facts (time_of (past_in self.now)) (live (past_in self.now)) (known (basis_in self.now) (past_in self.now)) client request.now RowState.Pending ≡ Some (Change.Add result) }
        ensures entry { result.entry ≡ length self.now.core.rows + 1 }
        ensures suits { Suits (Change.Add result) self.now.core.rows }
        ensures timely { IsTimely (Change.Add result) }
    {
        let entry = self.core.rows().len() as u32 + 1;
        let event = Event::Schedule {
            client,
            request: *request,
            answer: ClaimAnswer::Entry(entry),
        };
        match self.core.asked(&self.facts, &event) {
            Some(Change::Add(row)) => row,
            Some(Change::Advance { .. }) | None => unreachable!(),
        }
    }

    /// Makes room for what is owed and so many events more, and for a row.
    pub fn reserve(&mut self, events: usize) -> Result<(), NoMemory>
        ensures room { OnOk result (owed (past_in self.old) + events ≤ self.new.room) }
        ensures row_room { OnOk result (1 ≤ self.new.core.row_room) }
        ensures same { self.new ≡ roomier self.old self.new }
        ensures known { IsHouseLog self.new }
    {
        let wanted = room_for(self.core.holds().len(), self.core.live().len(), events)?;
        self.core.reserve(wanted)?;
        self.makers.reserve(wanted)?;
        Ok(())
    }

    // Puts an event behind the log.
    fn append(&mut self, client: u32, event: Event)
        ghost before: { List Row }
        requires before { rows_before self.old ≡ before }
        requires legal { IsLegalSo (basis_of self.old.facts before) self.old.first (event ∷ past_in self.old) }
        requires made { IsMadeBy event client }
        requires room { owed (event ∷ past_in self.old) + 1 ≤ self.old.room }
        requires row { length (rows (basis_of self.old.facts before) (event ∷ past_in self.old)) ≤ length self.old.core.rows + self.old.core.row_room }
        requires unloaded { self.old.loaded ≡ false → AllFaults (event ∷ past_in self.old) }
        requires few_boots { boots (event ∷ past_in self.old) < 2 ^ 32 }
        requires timely { time_of (event ∷ past_in self.old) ≤ 2 ^ 63 - 1 }
        ensures appended { Appended client event self.old self.new }
        ensures known { IsHouseLog self.new }
        ensures room { self.old.room ≤ self.new.room + 1 }
    {
        step(&self.facts, &mut self.core, event);
        self.makers.push_reserved(client);
    }

    /// Puts an event behind the log that isn't a boot.
    pub fn note(&mut self, client: u32, event: Event)
        requires no_boot { is_boot event ≡ false }
        requires loaded { self.old.loaded ≡ true }
        requires takes { BootTakes (past_in self.old) event }
        requires allowed { IsAllowedSo (basis_in self.old) self.old.first (past_in self.old) event }
        requires made { IsMadeBy event client }
        requires room { owed (event ∷ past_in self.old) + 1 ≤ self.old.room }
        requires row { length (rows (basis_in self.old) (event ∷ past_in self.old)) ≤ length self.old.core.rows + self.old.core.row_room }
        ensures appended { Appended client event self.old self.new }
        ensures known { IsHouseLog self.new }
        ensures room { self.old.room ≤ self.new.room + 1 }
    {
        self.known();
        self.append(client, event);
    }

    // Whether the power is to be cut before the next counted event.
    fn is_cut(&self) -> bool
        ensures { MatchBool result (limit_of (past_in self.now) ≡ Some (counted (past_in self.now))) (BelowLimit (past_in self.now)) }
    {
        match self.core.limit() {
            Some(limit) => limit as usize <= self.core.counted(),
            None => false,
        }
    }

    /// Enters a turn of a client, with room for so many events beside what is owed. Where the boot's
    /// limit is reached, its power is cut instead.
    pub fn enter(&mut self, client: u32, events: usize) -> Result<(), Stop>
        requires booted { 0 < boots (past_in self.old) }
        requires some { 1 ≤ events }
        ensures entered { Entered client events result self.old self.new }
        ensures was { IsHouseLog self.old }
        ensures known { IsHouseLog self.new }
    {
        self.known();
        if self.core.off() {
            return Err(Stop::Off);
        }
        self.reserve(events)?;
        if self.is_cut() {
            self.note(client, Event::Cut);
            return Err(Stop::Off);
        }
        Ok(())
    }
}

// The most room that so many holds and live entries may want, and so many events beside it.
fn room_for(holds: usize, live: usize, events: usize) -> Result<usize, NoMemory>
    ensures { IfOk result (λ room. 2 * holds + 15 * live + events ≤ room) }
{
    let for_holds = holds.checked_mul(2).ok_or(NoMemory)?;
    let for_live = live.checked_mul(15).ok_or(NoMemory)?;
    let both = for_holds.checked_add(for_live).ok_or(NoMemory)?;
    both.checked_add(events).ok_or(NoMemory)
}
