//! The plain state of the daemon.
ghost use Rattle.std.specs.Prelude.{◌≡◌, ◌≤◌, ◌<◌, ◌+◌, ℕ, true, None, Some, IfOk, IfErr, IfSome, length, slice_get};
ghost use Rattle.update_log.specs.declared.event.Event.{Event};
ghost use Rattle.emulated_boards.specs.Boards.{BoardState};
ghost use Rattle.history_keeper.specs.declared.row.Row.{Row};
ghost use Rattle.update_log.specs.declared.answer.AskAnswer.{AskAnswer};
ghost use Rattle.update_log.specs.declared.decision.Decision.{Decision};
ghost use Rattle.update_log.specs.Legal.{BootTakes, IsFree, PendingAllowed, QueryAllowed, ask_stage, request_of_row};
ghost use Rattle.history_keeper.specs.declared.row.RowState.{RowState};
ghost use Rattle.update_log.specs.Known.{row_of};
ghost use Rattle.update_log.specs.Verdicts.{verdict};
ghost use Rattle.update_log.specs.Pasts.{boots, off};

mod boot;
mod claiming;
mod finishing;
mod giving;
mod judging;
mod keeping;
mod knowing;
mod parting;
mod plugging;
mod resuming;
mod scheduling;
mod settling;
mod steps;

use crate::hold::{Asked, Hold, Ticket};
use crate::house_log::HouseLog;
use crate::making::{RefusedHouse, empty_places, fill_places, shown_by};
use crate::pending::request_of_row;
use crate::place::BoardPlace;
use crate::stop::Stop;
use block_pool::Pool;
use emulated_boards::Board;
use history_keeper::{Keeper, Row};
use release_catalogue::ReleaseRef;
use std::alloc::Global;
use std::marker::Model;
use update_log::{AskAnswer, Decision, Event, Facts, Query, Refusal, Request, Stage};

/// The plain state of the daemon: the facts and what stands for the log, the boards at home, the pool and
/// the keeper.
pub struct House<K: Keeper> {
    house_log: HouseLog,
    places: Vec<BoardPlace>,
    pool: Pool,
    keeper: K,
}

impl<K: Keeper> Model for House<K> {
    ghost use Rattle.history_keeper.specs.Signs.{signs_of};
    ghost use Rattle.daemon_core.specs.Housed.{Housed};
    ghost use Rattle.daemon_core.specs.House.{IsHouse};

    ghost Value = { Housed K };

    ghost view = { λ h. record { house_log = h.house_log; places = h.places.items; pool = h.pool; keeper = h.keeper } };

    ghost invariant = { λ h. IsHouse (signs_of K.tells K.doubt K.faults) (record { house_log = h.house_log; places = h.places.items; pool = h.pool; keeper = h.keeper }) };
}

impl<K: Keeper> House<K> {
    ghost use Rattle.daemon_core.specs.HouseLog.{Appended, Entered, IsAllowedSo, IsHouseLog, IsMadeBy, Runs};
    ghost use Rattle.daemon_core.specs.Holds.{HoldsFor, IsHoldFor, answer_of};
    ghost use Rattle.daemon_core.specs.House.{IsNewBoard, IsNewHouse, SameElsewhere};
    ghost use Rattle.daemon_core.specs.Housed.{basis_in, past};
    ghost use Rattle.daemon_core.specs.Owed.{owed};
    ghost use Rattle.daemon_core.specs.Quiet.{is_quiet};
    ghost use Rattle.daemon_core.specs.Turns.{Turned};

    /// The house before the first boot. There are at most 256 sheets and one board for each, in their
    /// order and as it is made; the keeper is in no doubt; and the pool is all free, and is the facts'.
    /// Only memory may be wanting.
    pub fn new(
        alloc: Global,
        facts: Facts,
        boards: Vec<Board>,
        pool: Pool,
        keeper: K,
    ) -> Result<House<K>, RefusedHouse<K>>
        requires few { length facts.sheets ≤ 256 }
        requires count { length boards.items ≡ length facts.sheets }
        requires fresh { (number : ℕ) (b : BoardState) → slice_get boards.items number ≡ Some b → IsNewBoard b }
        requires no_doubt { K.doubt keeper ≡ None }
        requires capacity { pool.capacity ≡ facts.pool }
        requires free { pool.free ≡ pool.capacity }
        ensures made { IfOk result (λ house. IsNewHouse facts boards.items pool keeper house) }
        ensures refused { IfErr result (λ refused. (refused.boards.items ≡ boards.items) × (refused.keeper ≡ keeper)) }
    {
        let Ok(first) = shown_by(alloc, &boards) else {
            return Err(RefusedHouse { boards, keeper });
        };
        let Ok(mut places) = empty_places(alloc, boards.len()) else {
            return Err(RefusedHouse { boards, keeper });
        };
        let Ok(house_log) = HouseLog::new(alloc, facts, first) else {
            return Err(RefusedHouse { boards, keeper });
        };
        fill_places(&mut places, boards);
        Ok(House {
            house_log,
            places,
            pool,
            keeper,
        })
    }

    /// The facts.
    pub fn facts(&self) -> &Facts
        ensures { result.now ≡ self.now.house_log.facts }
    {
        self.house_log.facts()
    }

    /// The row at a place of those that the first boot loaded which took them for the rows before the log, before
    /// it of those that the last boot loaded which refused them, and else none.
    pub fn opening(&self, at: usize) -> Option<Row>
        ensures { result ≡ slice_get self.now.house_log.opening at }
    {
        self.house_log.opening(at)
    }

    /// The rows of the log.
    pub fn rows(&self) -> &[Row]
        ensures { result.now ≡ self.now.house_log.core.rows }
    {
        self.house_log.core().rows()
    }

    /// Whether the boot that runs is off: its power was cut, or the history couldn't be read or written.
    pub fn is_off(&self) -> bool
        ensures { result ≡ off (past self.now) }
    {
        self.house_log.core().off()
    }

    // Enters a turn of a client, with room for so many events beside what is owed. Where the boot's limit
    // is reached, its power is cut instead.
    pub(crate) fn enter(&mut self, client: u32, events: usize) -> Result<(), Stop>
        requires booted { 0 < boots (past self.old) }
        requires some { 1 ≤ events }
        ensures entered { Entered client events result self.old.house_log self.new.house_log }
        ensures known { IsHouseLog self.new.house_log }
        ensures elsewhere { SameElsewhere self.old self.new }
    {
        self.house_log.enter(client, events)
    }

    // Puts an event behind the log that changes nothing else.
    pub(crate) fn note(&mut self, client: u32, event: Event)
        requires quiet { is_quiet event ≡ true }
        requires loaded { self.old.house_log.loaded ≡ true }
        requires takes { BootTakes (past self.old) event }
        requires allowed { IsAllowedSo (basis_in self.old.house_log) self.old.house_log.first (past self.old) event }
        requires made { IsMadeBy event client }
        requires room { owed (past self.old) + 1 ≤ self.old.house_log.room }
        ensures appended { Appended client event self.old.house_log self.new.house_log }
        ensures known { IsHouseLog self.new.house_log }
        ensures elsewhere { SameElsewhere self.old self.new }
    {
        self.house_log.known();
        self.house_log.note(client, event);
    }

    /// Answers a question.
    pub fn query(&mut self, client: u32, query: &Query) -> Result<(), Stop>
        requires booted { 0 < boots (past self.old) }
        requires allowed { QueryAllowed (basis_in self.old.house_log) (past self.old) query.now }
        ensures turn { Turned client (λ _. Event.Query client query.now) result self.old.house_log self.new.house_log }
        ensures elsewhere { SameElsewhere self.old self.new }
    {
        self.enter(client, 1)?;
        self.note(
            client,
            Event::Query {
                client,
                query: *query,
            },
        );
        Ok(())
    }

    // Holds the blocks of a request that was accepted.
    fn hold(
        &mut self,
        client: u32,
        request: &Request,
        pending: Option<u32>,
        release: ReleaseRef,
        blocks: u32,
    ) -> Hold
        requires booted { 0 < boots (past self.old) }
        requires runs { Runs self.old.house_log }
        requires loaded { self.old.house_log.loaded ≡ true }
        requires free { IsFree (past self.old) client }
        requires pending { IfSome pending (λ entry. (row : Row) × PendingAllowed (basis_in self.old.house_log) (past self.old) client request.now entry row) }
        requires accepted { (device : ℕ) × (verdict (basis_in self.old.house_log) (past self.old) client request.now (ask_stage pending) ≡ Decision.Accept device release blocks) }
        requires room { owed (past self.old) + 3 ≤ self.old.house_log.room }
        ensures appended { Appended client (Event.Ask client request.now pending (AskAnswer.Hold result.blocks.count result.ticket.release)) self.old.house_log self.new.house_log }
        ensures holds { IsHoldFor self.old.house_log.facts client request.now pending result }
        ensures places { self.new.places ≡ self.old.places }
        ensures keeper { self.new.keeper ≡ self.old.keeper }
    {
        self.house_log.known();
        let held = match self.pool.take(blocks) {
            Ok(held) => held,
            Err(_) => unreachable!(),
        };
        let found = *self.house_log.release(release);
        let digest = found.digest;
        self.house_log.note(
            client,
            Event::Ask {
                client,
                request: *request,
                pending,
                answer: AskAnswer::Hold { blocks, release },
            },
        );
        Hold {
            ticket: Ticket {
                client,
                request: *request,
                release,
                pending,
            },
            blocks: held,
            digest,
            size: found.size,
        }
    }

    // Asks for an install, or for one that was put off.
    fn ask_for(
        &mut self,
        client: u32,
        request: &Request,
        pending: Option<u32>,
    ) -> Result<Asked, Stop>
        requires booted { 0 < boots (past self.old) }
        requires free { IsFree (past self.old) client }
        requires pending { IfSome pending (λ entry. (row : Row) × PendingAllowed (basis_in self.old.house_log) (past self.old) client request.now entry row) }
        ensures turn { Turned client (λ asked. Event.Ask client request.now pending (answer_of asked)) result self.old.house_log self.new.house_log }
        ensures holds { IfOk result (HoldsFor self.old.house_log.facts client request.now pending) }
        ensures places { self.new.places ≡ self.old.places }
        ensures keeper { self.new.keeper ≡ self.old.keeper }
    {
        self.enter(client, 3)?;
        let decision = self.house_log.decided(client, request, ask_stage(pending));
        match decision {
            Decision::Accept {
                device: _,
                release,
                blocks,
            } => {
                let hold = self.hold(client, request, pending, release, blocks);
                Ok(Asked::Held(hold))
            }
            Decision::Kept { entry, state } => {
                self.note(
                    client,
                    Event::Ask {
                        client,
                        request: *request,
                        pending,
                        answer: AskAnswer::Kept { entry, state },
                    },
                );
                Ok(Asked::Kept { entry, state })
            }
            Decision::Refused(refusal) => {
                self.note(client, ask_refused(client, request, pending, &refusal));
                Ok(Asked::Refused(refusal))
            }
        }
    }

    /// Asks for an install. Where it is accepted, blocks are held for its payload; the client must have
    /// nothing out.
    pub fn ask(&mut self, client: u32, request: &Request) -> Result<Asked, Stop>
        requires booted { 0 < boots (past self.old) }
        requires free { IsFree (past self.old) client }
        ensures turn { Turned client (λ asked. Event.Ask client request.now None (answer_of asked)) result self.old.house_log self.new.house_log }
        ensures holds { IfOk result (HoldsFor self.old.house_log.facts client request.now None) }
        ensures places { self.new.places ≡ self.old.places }
        ensures keeper { self.new.keeper ≡ self.old.keeper }
    {
        self.ask_for(client, request, None)
    }

    /// Asks for the install of this row, which was put off. It is the daemon's own ask; it must have
    /// nothing out.
    pub fn ask_pending(&mut self, entry: u32) -> Result<Asked, Stop>
        requires booted { 0 < boots (past self.old) }
        requires free { IsFree (past self.old) 0 }
        requires pending { (row : Row) × (row_of self.old.house_log.core.rows entry ≡ Some row) × (row.state ≡ RowState.Pending) }
        ensures turn { (row : Row) → row_of self.old.house_log.core.rows entry ≡ Some row → Turned 0 (λ asked. Event.Ask 0 (request_of_row row) (Some entry) (answer_of asked)) result self.old.house_log self.new.house_log }
        ensures holds { (row : Row) → row_of self.old.house_log.core.rows entry ≡ Some row → IfOk result (HoldsFor self.old.house_log.facts 0 (request_of_row row) (Some entry)) }
        ensures places { self.new.places ≡ self.old.places }
        ensures keeper { self.new.keeper ≡ self.old.keeper }
    {
        self.house_log.known();
        let request = match self.house_log.core().row(entry) {
            Some(row) => request_of_row(row),
            None => unreachable!(),
        };
        self.ask_for(0, &request, Some(entry))
    }
}

// The stage at which an ask is decided.
fn ask_stage(pending: Option<u32>) -> Stage
    ensures { result ≡ ask_stage pending }
{
    match pending {
        Some(entry) => Stage::AskPending { entry },
        None => Stage::Ask,
    }
}

// The ask that was refused so.
fn ask_refused(client: u32, request: &Request, pending: Option<u32>, refusal: &Refusal) -> Event
    ensures { result ≡ Event.Ask client request.now pending (AskAnswer.Refused refusal.now) }
{
    Event::Ask {
        client,
        request: *request,
        pending,
        answer: AskAnswer::Refused(*refusal),
    }
}
