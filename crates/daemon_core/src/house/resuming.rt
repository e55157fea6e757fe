//! Resumptions of installs that were put off.
ghost use Rattle.std.specs.Prelude.{◌≡◌, ◌≤◌, ◌<◌, ◌+◌, false, IfSome, IsSome, None, Some};
ghost use Rattle.update_log.specs.declared.answer.ResumeAnswer.{ResumeAnswer};
ghost use Rattle.update_log.specs.declared.refusal.Refusal.{Refusal};
ghost use Rattle.update_log.specs.Pasts.{boots};
ghost use Rattle.daemon_core.specs.declared.fetched.Fetched.{Fetched};
ghost use Rattle.daemon_core.specs.Fetches.{note_of};
ghost use Rattle.daemon_core.specs.PutOff.{IsAccept};
ghost use Rattle.daemon_core.specs.Resumes.{ComesIn, IsOpenHold, IsPutOff, IsToResume, MayFail, MayResume, ResumeGave, ResumeTurned, WasRefused, blocks_in, begun_event, doubt_event, failed_event, note_in, resume_verdict};
ghost use Rattle.daemon_core.specs.Returns.{place_at};

use super::House;
use super::claiming::{take_out, taken};
use super::keeping::commit;
use crate::claimed::Claimed;
use crate::fetched::{Fetched, whole_note};
use crate::hold::Ticket;
use crate::resumed::ResumeStop;
use crate::stop::Stop;
use block_pool::{Payload, Pool};
use fw_base::NoMemory;
use history_keeper::{Keeper, KeeperRefusal};
use update_log::{Decision, Event, FetchNote, Refusal, ResumeAnswer, Stage, Stored};

impl<K: Keeper> House<K> {
    ghost use Rattle.history_keeper.specs.Signs.{signs_of};
    ghost use Rattle.daemon_core.specs.Housed.{past};
    ghost use Rattle.daemon_core.specs.Turns.{KeeperFared};

    /// Resumes the install of a row that was put off, which is the daemon's own. What comes in is the open
    /// hold that this row made, with a fetch of its blocks, whose payload, if it is whole, is that of the
    /// ticket's release. Or nothing does, where the daemon has nothing out, and its last event in this boot
    /// is the ask for this row, which was refused; then it is refused again. A refused resumption gives its
    /// blocks to the pool; one that is stopped hands all back, and its row is still put off.
    pub fn resume(
        &mut self,
        entry: u32,
        held: Option<(Ticket, Fetched)>,
    ) -> Result<Claimed, ResumeStop>
        requires booted { 0 < boots (past self.old) }
        requires put_off { IsPutOff self.old.house_log entry }
        requires held { ComesIn self.old.house_log entry held }
        ensures turn { ResumeTurned entry (note_in held) result self.old.house_log self.new.house_log }
        ensures gave { ResumeGave entry held result self.old self.new }
        ensures fared { KeeperFared (signs_of K.tells K.doubt K.faults) self.old self.new }
        ensures counts { K.faults self.old.keeper ≤ K.faults self.new.keeper }
    {
        match self.enter(0, 16) {
            Ok(()) => self.resume_in(entry, held),
            Err(stop) => Err(ResumeStop { stop, held }),
        }
    }

    // Resumes in a turn that began.
    fn resume_in(
        &mut self,
        entry: u32,
        held: Option<(Ticket, Fetched)>,
    ) -> Result<Claimed, ResumeStop>
        requires may { MayResume self.old.house_log entry }
        requires held { ComesIn self.old.house_log entry held }
        ensures turn { ResumeTurned entry (note_in held) result self.old.house_log self.new.house_log }
        ensures gave { ResumeGave entry held result self.old self.new }
        ensures fared { KeeperFared (signs_of K.tells K.doubt K.faults) self.old self.new }
        ensures counts { K.faults self.old.keeper ≤ K.faults self.new.keeper }
    {
        match held {
            Some((ticket, fetched)) => self.resume_held(entry, ticket, fetched),
            None => self.repeat(entry),
        }
    }

    // Answers the refusal of the ask again.
    fn repeat(&mut self, entry: u32) -> Result<Claimed, ResumeStop>
        requires may { MayResume self.old.house_log entry }
        requires refused { (refusal : Refusal) × WasRefused self.old.house_log entry refusal }
        ensures turn { ResumeTurned entry None result self.old.house_log self.new.house_log }
        ensures gave { ResumeGave entry None result self.old self.new }
        ensures fared { KeeperFared (signs_of K.tells K.doubt K.faults) self.old self.new }
        ensures counts { K.faults self.old.keeper ≤ K.faults self.new.keeper }
    {
        self.house_log.known();
        match self.house_log.refused_last() {
            Some(refusal) => self.fail(entry, None, refusal),
            None => unreachable!(),
        }
    }

    // Resumes with a hold.
    fn resume_held(
        &mut self,
        entry: u32,
        ticket: Ticket,
        fetched: Fetched,
    ) -> Result<Claimed, ResumeStop>
        requires may { MayResume self.old.house_log entry }
        requires held { IsOpenHold self.old.house_log entry ticket fetched }
        ensures turn { ResumeTurned entry (Some (note_of fetched)) result self.old.house_log self.new.house_log }
        ensures gave { ResumeGave entry (Some (ticket, fetched)) result self.old self.new }
        ensures fared { KeeperFared (signs_of K.tells K.doubt K.faults) self.old self.new }
        ensures counts { K.faults self.old.keeper ≤ K.faults self.new.keeper }
    {
        let decision = self.decided_resume(entry, &ticket);
        match decision {
            Decision::Accept { .. } => self.resume_accepted(entry, ticket, fetched),
            Decision::Kept { .. } => unreachable!(),
            Decision::Refused(refusal) => self.fail(entry, Some((ticket, fetched)), refusal),
        }
    }

    // What is decided of a resumption with a ticket.
    fn decided_resume(&self, entry: u32, ticket: &Ticket) -> Decision
        ensures { result ≡ resume_verdict self.now.house_log entry ticket.now }
    {
        let stage = Stage::Resume {
            entry,
            release: ticket.release,
        };
        self.house_log.decided(0, &ticket.request, stage)
    }

    // Goes on with a resumption that is accepted, if its payload is whole.
    fn resume_accepted(
        &mut self,
        entry: u32,
        ticket: Ticket,
        fetched: Fetched,
    ) -> Result<Claimed, ResumeStop>
        requires may { MayResume self.old.house_log entry }
        requires held { IsOpenHold self.old.house_log entry ticket fetched }
        requires accepted { IsAccept (resume_verdict self.old.house_log entry ticket) }
        ensures turn { ResumeTurned entry (Some (note_of fetched)) result self.old.house_log self.new.house_log }
        ensures gave { ResumeGave entry (Some (ticket, fetched)) result self.old self.new }
        ensures fared { KeeperFared (signs_of K.tells K.doubt K.faults) self.old self.new }
        ensures counts { K.faults self.old.keeper ≤ K.faults self.new.keeper }
    {
        match fetched.into_payload() {
            Ok(payload) => self.resume_whole(entry, ticket, payload),
            Err(other) => {
                let refusal = Refusal::Payload(other.note());
                self.fail(entry, Some((ticket, other)), refusal)
            }
        }
    }

    // Resumes with a whole payload what is accepted.
    fn resume_whole(
        &mut self,
        entry: u32,
        ticket: Ticket,
        payload: Payload,
    ) -> Result<Claimed, ResumeStop>
        requires may { MayResume self.old.house_log entry }
        requires held { IsOpenHold self.old.house_log entry ticket (Fetched.Whole payload) }
        requires accepted { IsAccept (resume_verdict self.old.house_log entry ticket) }
        ensures turn { ResumeTurned entry (Some (note_of (Fetched.Whole payload))) result self.old.house_log self.new.house_log }
        ensures gave { ResumeGave entry (Some (ticket, Fetched.Whole payload)) result self.old self.new }
        ensures fared { KeeperFared (signs_of K.tells K.doubt K.faults) self.old self.new }
        ensures counts { K.faults self.old.keeper ≤ K.faults self.new.keeper }
    {
        self.house_log.known();
        let number = self.house_log.board_of(entry).unwrap_or(0) as usize;
        match self.reserve_marks(number) {
            Ok(()) => self.store_begin(entry, ticket, payload, number),
            Err(NoMemory) => Err(ResumeStop {
                stop: Stop::NoMemory,
                held: Some((ticket, Fetched::Whole(payload))),
            }),
        }
    }

    // Stores that the row is begun, and takes its entry.
    fn store_begin(
        &mut self,
        entry: u32,
        ticket: Ticket,
        payload: Payload,
        number: usize,
    ) -> Result<Claimed, ResumeStop>
        requires begins { IsToResume self.old.house_log entry ticket payload number }
        requires marks { IfSome (place_at self.old.places number).board (λ b. 8 ≤ b.room) }
        ensures turn { ResumeTurned entry (Some (note_of (Fetched.Whole payload))) result self.old.house_log self.new.house_log }
        ensures gave { ResumeGave entry (Some (ticket, Fetched.Whole payload)) result self.old self.new }
        ensures fared { KeeperFared (signs_of K.tells K.doubt K.faults) self.old self.new }
        ensures counts { K.faults self.old.keeper ≤ K.faults self.new.keeper }
    {
        self.house_log.known();
        let note = whole_note(&payload);
        let change = self.house_log.resumption(entry, &ResumeAnswer::Begun);
        match self.keeper.commit(&change) {
            Ok(()) => {
                self.house_log.note(0, begun(entry, &note));
                spend(ticket);
                let board = take_out(&mut self.places, number);
                Ok(Claimed::Taken(taken(&self.house_log, entry, number, board, payload)))
            }
            Err(KeeperRefusal::Fault) => {
                self.house_log.note(0, begin_in_doubt(entry, &note));
                spend(ticket);
                self.pool.give(payload.into_blocks());
                Ok(Claimed::Refused(Refusal::KeeperFault))
            }
            Err(KeeperRefusal::NoMemory) => Err(ResumeStop {
                stop: Stop::NoMemory,
                held: Some((ticket, Fetched::Whole(payload))),
            }),
        }
    }

    // Stores that the row has failed, for the reason that the refusal gives.
    fn fail(
        &mut self,
        entry: u32,
        held: Option<(Ticket, Fetched)>,
        refusal: Refusal,
    ) -> Result<Claimed, ResumeStop>
        requires may { MayResume self.old.house_log entry }
        requires fails { MayFail self.old.house_log entry held refusal }
        ensures turn { ResumeTurned entry (note_in held) result self.old.house_log self.new.house_log }
        ensures gave { ResumeGave entry held result self.old self.new }
        ensures fared { KeeperFared (signs_of K.tells K.doubt K.faults) self.old self.new }
        ensures counts { K.faults self.old.keeper ≤ K.faults self.new.keeper }
    {
        self.house_log.known();
        let change = self
            .house_log
            .resumption(entry, &ResumeAnswer::Refused(refusal));
        let stored = commit(&mut self.keeper, &change);
        if let Stored::NoMemory = stored {
            return Err(ResumeStop {
                stop: Stop::NoMemory,
                held,
            });
        }
        let note = note_in(&held);
        self.house_log
            .note(0, failed(entry, &note, &refusal, stored));
        give_in(&mut self.pool, held);
        Ok(Claimed::Refused(refusal))
    }
}

// What the log says of what came in.
fn note_in(held: &Option<(Ticket, Fetched)>) -> Option<FetchNote>
    ensures { result ≡ note_in held.now }
{
    match held {
        Some((_, fetched)) => Some(fetched.note()),
        None => None,
    }
}

// The blocks that came in go to the pool.
fn give_in(pool: &mut Pool, held: Option<(Ticket, Fetched)>)
    requires { pool.old.free + blocks_in held ≤ pool.old.capacity }
    ensures free { pool.new.free ≡ pool.old.free + blocks_in held }
    ensures capacity { pool.new.capacity ≡ pool.old.capacity }
{
    match held {
        Some((ticket, fetched)) => {
            spend(ticket);
            pool.give(fetched.into_blocks());
        }
        None => {}
    }
}

fn spend(ticket: Ticket) {
    let Ticket {
        client: _,
        request: _,
        release: _,
        pending: _,
    } = ticket;
}

// The event of a row that is begun.
fn begun(entry: u32, note: &FetchNote) -> Event
    ensures { result ≡ begun_event entry note.now }
{
    Event::Resume {
        client: 0,
        entry,
        fetched: Some(*note),
        answer: ResumeAnswer::Begun,
        stored: Stored::Yes,
    }
}

// That of a row whose begin met a fault of the keeper.
fn begin_in_doubt(entry: u32, note: &FetchNote) -> Event
    ensures { result ≡ doubt_event entry note.now }
{
    Event::Resume {
        client: 0,
        entry,
        fetched: Some(*note),
        answer: ResumeAnswer::Refused(Refusal::KeeperFault),
        stored: Stored::Fault,
    }
}

// That of a row that has failed.
fn failed(entry: u32, note: &Option<FetchNote>, refusal: &Refusal, stored: Stored) -> Event
    ensures { result ≡ failed_event entry note.now refusal.now stored }
{
    Event::Resume {
        client: 0,
        entry,
        fetched: *note,
        answer: ResumeAnswer::Refused(*refusal),
        stored,
    }
}
