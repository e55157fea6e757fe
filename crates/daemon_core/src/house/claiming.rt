//! Claims.
ghost use Rattle.std.specs.Prelude.{◌≡◌, ◌≤◌, ◌<◌, ◌+◌, false, IfSome, IsSome, None, OnOk, Some, Ok, length, unwrap_or};
ghost use Rattle.update_log.specs.declared.answer.ClaimAnswer.{ClaimAnswer};
ghost use Rattle.update_log.specs.declared.event.Event.{Event};
ghost use Rattle.core_state.specs.CoreSteps.{is_taken};
ghost use Rattle.update_log.specs.Holding.{hold, live_entry};
ghost use Rattle.update_log.specs.Steps.{trace};
ghost use Rattle.update_log.specs.Pasts.{boots};
ghost use Rattle.daemon_core.specs.declared.fetched.Fetched.{Fetched};
ghost use Rattle.daemon_core.specs.Claims.{ClaimGave, IsToStore, MayAnswer, MayClaim, RoomierPlaces, claim_event, claim_verdict, place_given, places_without, plugin_at, stopped_by};
ghost use Rattle.daemon_core.specs.Fetches.{IsFetchOf, IsPayloadOf, block_count, is_payload, note_of};
ghost use Rattle.daemon_core.specs.Holds.{held_by};
ghost use Rattle.daemon_core.specs.Housed.{basis_in, past_in};
ghost use Rattle.daemon_core.specs.PutOff.{IsAccept};
ghost use Rattle.daemon_core.specs.Returns.{place_at};

use super::House;
use super::steps::put;
use crate::claimed::{ClaimStop, Claimed, Taken};
use crate::fetched::{Fetched, whole_note};
use crate::hold::Ticket;
use crate::house_log::HouseLog;
use crate::place::BoardPlace;
use crate::stop::Stop;
use block_pool::Payload;
use emulated_boards::Board;
use fw_base::NoMemory;
use history_keeper::{Change, Keeper, KeeperRefusal, Row};
use update_log::{ClaimAnswer, Decision, Event, FetchNote, Refusal, Stage};

impl<K: Keeper> House<K> {
    ghost use Rattle.history_keeper.specs.Signs.{signs_of};
    ghost use Rattle.daemon_core.specs.HouseLog.{Appended};
    ghost use Rattle.daemon_core.specs.Housed.{past};
    ghost use Rattle.daemon_core.specs.Turns.{KeeperFared, Turned};

    /// Claims what was asked for. The ticket is of the client's open hold, which no row that was put off
    /// made; the blocks of the fetch are the hold's, and a whole payload is that of the ticket's release. A
    /// claim that takes no entry gives the blocks to the pool; one that is stopped hands all back.
    pub fn claim(
        &mut self,
        client: u32,
        ticket: Ticket,
        fetched: Fetched,
    ) -> Result<Claimed, ClaimStop>
        requires booted { 0 < boots (past self.old) }
        requires held { hold (past self.old) client ≡ Some (held_by ticket (block_count fetched)) }
        requires asked { ticket.pending ≡ None }
        requires whole { IsFetchOf self.old.house_log.facts ticket.release fetched }
        ensures turn { Turned client (claim_event client ticket.request fetched) (stopped_by result) self.old.house_log self.new.house_log }
        ensures gave { ClaimGave client ticket fetched result self.old self.new }
        ensures fared { KeeperFared (signs_of K.tells K.doubt K.faults) self.old self.new }
        ensures counts { K.faults self.old.keeper ≤ K.faults self.new.keeper }
    {
        match self.enter(client, 16) {
            Ok(()) => self.claim_in(client, ticket, fetched),
            Err(stop) => Err(ClaimStop {
                stop,
                ticket,
                fetched,
            }),
        }
    }

    // Claims in a turn that began.
    fn claim_in(
        &mut self,
        client: u32,
        ticket: Ticket,
        fetched: Fetched,
    ) -> Result<Claimed, ClaimStop>
        requires may { MayClaim self.old.house_log client ticket (block_count fetched) }
        requires whole { IsFetchOf self.old.house_log.facts ticket.release fetched }
        ensures turn { Turned client (claim_event client ticket.request fetched) (stopped_by result) self.old.house_log self.new.house_log }
        ensures gave { ClaimGave client ticket fetched result self.old self.new }
        ensures fared { KeeperFared (signs_of K.tells K.doubt K.faults) self.old self.new }
        ensures counts { K.faults self.old.keeper ≤ K.faults self.new.keeper }
    {
        let decision = self.decided_claim(client, &ticket);
        match decision {
            Decision::Accept { .. } => self.accept(client, ticket, fetched),
            Decision::Kept { entry, state } => {
                let answer = ClaimAnswer::Kept { entry, state };
                self.end_claim(client, ticket, fetched, &answer);
                Ok(Claimed::Kept { entry, state })
            }
            Decision::Refused(refusal) => {
                self.end_claim(client, ticket, fetched, &refused(&refusal));
                Ok(Claimed::Refused(refusal))
            }
        }
    }

    // What is decided of a claim with a ticket.
    fn decided_claim(&self, client: u32, ticket: &Ticket) -> Decision
        ensures { result ≡ claim_verdict self.now.house_log client ticket.now }
    {
        let stage = Stage::Claim {
            release: ticket.release,
        };
        self.house_log.decided(client, &ticket.request, stage)
    }

    // Goes on with a claim that is accepted, if its payload is whole.
    fn accept(
        &mut self,
        client: u32,
        ticket: Ticket,
        fetched: Fetched,
    ) -> Result<Claimed, ClaimStop>
        requires may { MayClaim self.old.house_log client ticket (block_count fetched) }
        requires accepted { IsAccept (claim_verdict self.old.house_log client ticket) }
        requires whole { IsFetchOf self.old.house_log.facts ticket.release fetched }
        ensures turn { Turned client (claim_event client ticket.request fetched) (stopped_by result) self.old.house_log self.new.house_log }
        ensures gave { ClaimGave client ticket fetched result self.old self.new }
        ensures fared { KeeperFared (signs_of K.tells K.doubt K.faults) self.old self.new }
        ensures counts { K.faults self.old.keeper ≤ K.faults self.new.keeper }
    {
        match fetched.into_payload() {
            Ok(payload) => self.take(client, ticket, payload),
            Err(other) => Ok(self.refuse(client, ticket, other)),
        }
    }

    // Refuses a claim whose payload isn't whole.
    fn refuse(&mut self, client: u32, ticket: Ticket, fetched: Fetched) -> Claimed
        requires may { MayClaim self.old.house_log client ticket (block_count fetched) }
        requires accepted { IsAccept (claim_verdict self.old.house_log client ticket) }
        requires broken { is_payload fetched ≡ false }
        ensures appended { Appended client (claim_event client ticket.request fetched result) self.old.house_log self.new.house_log }
        ensures gave { ClaimGave client ticket fetched (Ok result) self.old self.new }
        ensures fared { KeeperFared (signs_of K.tells K.doubt K.faults) self.old self.new }
        ensures counts { K.faults self.old.keeper ≤ K.faults self.new.keeper }
    {
        let refusal = Refusal::Payload(fetched.note());
        self.end_claim(client, ticket, fetched, &refused(&refusal));
        Claimed::Refused(refusal)
    }

    // Puts a claim behind the log that took no entry.
    fn end_claim(&mut self, client: u32, ticket: Ticket, fetched: Fetched, answer: &ClaimAnswer)
        requires may { MayClaim self.old.house_log client ticket (block_count fetched) }
        requires answered { MayAnswer self.old.house_log client ticket (note_of fetched) answer.now }
        requires none { is_taken answer.now ≡ false }
        ensures appended { Appended client (Event.Claim client ticket.request (note_of fetched) answer.now) self.old.house_log self.new.house_log }
        ensures places { self.new.places ≡ self.old.places }
        ensures pool { self.new.pool.free ≡ self.old.pool.free + block_count fetched }
        ensures keeper { self.new.keeper ≡ self.old.keeper }
    {
        self.house_log.known();
        let note = fetched.note();
        self.pool.give(fetched.into_blocks());
        self.house_log
            .note(client, claimed(client, ticket, &note, answer));
    }

    // Takes an entry for a request that is accepted, whose payload is whole.
    fn take(&mut self, client: u32, ticket: Ticket, payload: Payload) -> Result<Claimed, ClaimStop>
        requires may { MayClaim self.old.house_log client ticket payload.count }
        requires accepted { IsAccept (claim_verdict self.old.house_log client ticket) }
        requires whole { IsPayloadOf self.old.house_log.facts ticket.release payload }
        ensures turn { Turned client (claim_event client ticket.request (Fetched.Whole payload)) (stopped_by result) self.old.house_log self.new.house_log }
        ensures gave { ClaimGave client ticket (Fetched.Whole payload) result self.old self.new }
        ensures fared { KeeperFared (signs_of K.tells K.doubt K.faults) self.old self.new }
        ensures counts { K.faults self.old.keeper ≤ K.faults self.new.keeper }
    {
        self.house_log.known();
        let row = self
            .house_log
            .row_begun(client, &ticket.request, ticket.release);
        let number = self.house_log.board_with(&row.device).unwrap_or(0) as usize;
        match self.reserve_marks(number) {
            Ok(()) => self.store_claim(client, ticket, payload, row, number),
            Err(NoMemory) => Err(ClaimStop {
                stop: Stop::NoMemory,
                ticket,
                fetched: Fetched::Whole(payload),
            }),
        }
    }

    // Makes room for eight marks on a board at home.
    pub(crate) fn reserve_marks(&mut self, number: usize) -> Result<(), NoMemory>
        requires within { number < length self.old.places }
        requires home { IsSome (place_at self.old.places number).board }
        ensures house_log { self.new.house_log ≡ self.old.house_log }
        ensures roomier { RoomierPlaces self.old.places self.new.places }
        ensures room { OnOk result (IfSome (place_at self.new.places number).board (λ b. 8 ≤ b.room)) }
        ensures pool { self.new.pool ≡ self.old.pool }
        ensures keeper { self.new.keeper ≡ self.old.keeper }
    {
        let mut board = take_out(&mut self.places, number);
        let reserved = board.reserve_marks(8);
        put(&mut self.places, number, board);
        reserved
    }

    // Stores the row of a claim, and takes its entry.
    fn store_claim(
        &mut self,
        client: u32,
        ticket: Ticket,
        payload: Payload,
        row: Row,
        number: usize,
    ) -> Result<Claimed, ClaimStop>
        requires may { MayClaim self.old.house_log client ticket payload.count }
        requires whole { IsPayloadOf self.old.house_log.facts ticket.release payload }
        requires store { IsToStore self.old.house_log client ticket row number }
        requires marks { IfSome (place_at self.old.places number).board (λ b. 8 ≤ b.room) }
        ensures turn { Turned client (claim_event client ticket.request (Fetched.Whole payload)) (stopped_by result) self.old.house_log self.new.house_log }
        ensures gave { ClaimGave client ticket (Fetched.Whole payload) result self.old self.new }
        ensures fared { KeeperFared (signs_of K.tells K.doubt K.faults) self.old self.new }
        ensures counts { K.faults self.old.keeper ≤ K.faults self.new.keeper }
    {
        self.house_log.known();
        let entry = row.entry;
        let note = whole_note(&payload);
        match self.keeper.commit(&Change::Add(row)) {
            Ok(()) => {
                self.house_log.note(
                    client,
                    claimed(client, ticket, &note, &ClaimAnswer::Entry(entry)),
                );
                let board = take_out(&mut self.places, number);
                Ok(Claimed::Taken(taken(&self.house_log, entry, number, board, payload)))
            }
            Err(KeeperRefusal::Fault) => {
                let answer = ClaimAnswer::Refused(Refusal::KeeperFault);
                self.house_log
                    .note(client, claimed(client, ticket, &note, &answer));
                self.pool.give(payload.into_blocks());
                Ok(Claimed::Refused(Refusal::KeeperFault))
            }
            Err(KeeperRefusal::NoMemory) => Err(ClaimStop {
                stop: Stop::NoMemory,
                ticket,
                fetched: Fetched::Whole(payload),
            }),
        }
    }
}

// The answer that refuses so.
fn refused(refusal: &Refusal) -> ClaimAnswer
    ensures { result ≡ ClaimAnswer.Refused refusal.now }
{
    ClaimAnswer::Refused(*refusal)
}

// The event of a claim with a ticket, which was answered so.
fn claimed(client: u32, ticket: Ticket, fetched: &FetchNote, answer: &ClaimAnswer) -> Event
    ensures { result ≡ Event.Claim client ticket.request fetched.now answer.now }
{
    let Ticket {
        client: _,
        request,
        release: _,
        pending: _,
    } = ticket;
    Event::Claim {
        client,
        request,
        fetched: *fetched,
        answer: *answer,
    }
}

// A board goes out.
pub(crate) fn take_out(places: &mut Vec<BoardPlace>, number: usize) -> Board
    requires within { number < length places.old.items }
    requires home { IsSome (place_at places.old.items number).board }
    ensures board { (place_at places.old.items number).board ≡ Some result }
    ensures places { places.new.items ≡ places_without places.old.items number }
{
    leave(&mut places[number])
}

// The board of a place leaves it.
fn leave(place: &mut BoardPlace) -> Board
    requires { IsSome place.old.board }
    ensures board { place.old.board ≡ Some result }
    ensures place { place.new ≡ record place.old { board = None } }
{
    place.board.take().unwrap()
}

// An entry that was taken.
pub(crate) fn taken(
    house_log: &HouseLog,
    entry: u32,
    number: usize,
    board: Board,
    payload: Payload,
) -> Taken
    requires live { IsSome (live_entry (past_in house_log.now) entry) }
    requires within { number < length house_log.now.facts.sheets }
    ensures entry { result.entry ≡ entry }
    ensures plugin { result.plugin ≡ place_given (unwrap_or (plugin_at house_log.now.facts number) 0) }
    ensures board { result.board ≡ board }
    ensures payload { result.payload ≡ payload }
    ensures traced { trace (basis_in house_log.now) entry (past_in house_log.now) ≡ Some result.trace }
{
    Taken {
        entry,
        plugin: house_log.plugin(number),
        board,
        payload,
        trace: house_log.trace(entry),
    }
}
