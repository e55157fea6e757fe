//! Installs that are put off to the next boot.
ghost use Rattle.std.specs.Prelude.{◌≡◌, ◌≤◌, ◌<◌, ◌+◌, true};
ghost use Rattle.update_log.specs.declared.decision.Stage.{Stage};
ghost use Rattle.update_log.specs.declared.event.Event.{Event};
ghost use Rattle.update_log.specs.Legal.{IsFree};
ghost use Rattle.update_log.specs.Pasts.{boots};
ghost use Rattle.update_log.specs.Verdicts.{verdict};

use super::House;
use crate::stop::Stop;
use history_keeper::{Change, Keeper, KeeperRefusal};
use update_log::{ClaimAnswer, Decision, Event, Refusal, Request, Stage};

impl<K: Keeper> House<K> {
    ghost use Rattle.history_keeper.specs.Signs.{signs_of};
    ghost use Rattle.daemon_core.specs.HouseLog.{Appended, Runs};
    ghost use Rattle.daemon_core.specs.Housed.{basis_in, past};
    ghost use Rattle.daemon_core.specs.Owed.{owed};
    ghost use Rattle.daemon_core.specs.PutOff.{IsAccept, PutOff};
    ghost use Rattle.daemon_core.specs.Turns.{KeeperFared, Turned};

    /// Puts an install off to the next boot; the client must have nothing out. Where it is accepted, its
    /// row is stored as pending.
    pub fn schedule(&mut self, client: u32, request: &Request) -> Result<ClaimAnswer, Stop>
        requires booted { 0 < boots (past self.old) }
        requires free { IsFree (past self.old) client }
        ensures turn { Turned client (λ answer. Event.Schedule client request.now answer) result self.old.house_log self.new.house_log }
        ensures fared { KeeperFared (signs_of K.tells K.doubt K.faults) self.old self.new }
        ensures counts { K.faults self.old.keeper ≤ K.faults self.new.keeper }
        ensures places { self.new.places ≡ self.old.places }
        ensures pool { self.new.pool ≡ self.old.pool }
    {
        self.enter(client, 1)?;
        let decision = self.house_log.decided(client, request, Stage::Schedule);
        match decision {
            Decision::Accept { .. } => self.put_off(client, request),
            Decision::Kept { entry, state } => {
                let answer = ClaimAnswer::Kept { entry, state };
                self.note(client, put_off(client, request, &answer));
                Ok(answer)
            }
            Decision::Refused(refusal) => {
                let answer = ClaimAnswer::Refused(refusal);
                self.note(client, put_off(client, request, &answer));
                Ok(answer)
            }
        }
    }

    // Stores the row of a request that was accepted.
    fn put_off(&mut self, client: u32, request: &Request) -> Result<ClaimAnswer, Stop>
        requires booted { 0 < boots (past self.old) }
        requires runs { Runs self.old.house_log }
        requires loaded { self.old.house_log.loaded ≡ true }
        requires free { IsFree (past self.old) client }
        requires accepted { IsAccept (verdict (basis_in self.old.house_log) (past self.old) client request.now Stage.Schedule) }
        requires room { owed (past self.old) + 1 ≤ self.old.house_log.room }
        requires row_room { 1 ≤ self.old.house_log.core.row_room }
        ensures done { PutOff client request.now result self.old.house_log self.new.house_log }
        ensures fared { KeeperFared (signs_of K.tells K.doubt K.faults) self.old self.new }
        ensures counts { K.faults self.old.keeper ≤ K.faults self.new.keeper }
        ensures places { self.new.places ≡ self.old.places }
        ensures pool { self.new.pool ≡ self.old.pool }
    {
        self.house_log.known();
        let row = self.house_log.row_put_off(client, request);
        let entry = row.entry;
        match self.keeper.commit(&Change::Add(row)) {
            Ok(()) => {
                let answer = ClaimAnswer::Entry(entry);
                self.house_log
                    .note(client, put_off(client, request, &answer));
                Ok(answer)
            }
            Err(KeeperRefusal::Fault) => {
                let answer = ClaimAnswer::Refused(Refusal::KeeperFault);
                self.house_log
                    .note(client, put_off(client, request, &answer));
                Ok(answer)
            }
            Err(KeeperRefusal::NoMemory) => Err(Stop::NoMemory),
        }
    }
}

// The event of an install that was put off, and answered so.
fn put_off(client: u32, request: &Request, answer: &ClaimAnswer) -> Event
    ensures { result ≡ Event.Schedule client request.now answer.now }
{
    Event::Schedule {
        client,
        request: *request,
        answer: *answer,
    }
}
