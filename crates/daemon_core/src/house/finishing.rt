//! The finish of a live entry.
ghost use Rattle.std.specs.Prelude.{◌≡◌, ◌≢◌, ◌≤◌, ◌<◌, ◌+◌, ◌-◌, ◌^◌, ◌∷◌, [], ◌⊎◌, ℕ, List, true, None, Any, IfOk, length};
ghost use Rattle.outer_traits.specs.Faults.{Rose};
ghost use Rattle.history_keeper.specs.declared.change.Change.{Change};
ghost use Rattle.history_keeper.specs.declared.row.Row.{Row};
ghost use Rattle.history_keeper.specs.declared.row.RowState.{RowState};
ghost use Rattle.history_keeper.specs.Signs.{signs_of};
ghost use Rattle.update_log.specs.declared.event.Event.{Event};
ghost use Rattle.update_log.specs.declared.event.Stored.{Stored};
ghost use Rattle.update_log.specs.declared.live.LiveEntry.{LiveEntry};
ghost use Rattle.update_log.specs.Known.{reason_of};
ghost use Rattle.update_log.specs.Legal.{closing_stored};
ghost use Rattle.update_log.specs.Pasts.{boots, time_of};
ghost use Rattle.daemon_core.specs.Housed.{past_in};
ghost use Rattle.daemon_core.specs.Finishes.{AdvancesForFree, ClosedAs, FinishedSo, IsDone};
ghost use Rattle.daemon_core.specs.Returns.{ComesHome, number_of, places_with};

use super::House;
use super::keeping::commit;
use super::steps::put;
use crate::finished::{FinishStop, Finished};
use crate::house_log::HouseLog;
use crate::off::Off;
use block_pool::Payload;
use emulated_boards::Board;
use history_keeper::{Keeper, RowState};
use update_log::{Event, Stored};

impl<K: Keeper> House<K> {
    ghost use Rattle.history_keeper.specs.Signs.{signs_of};
    ghost use Rattle.daemon_core.specs.HouseLog.{Appended, Runs};
    ghost use Rattle.daemon_core.specs.Housed.{basis_in, past};
    ghost use Rattle.daemon_core.specs.Turns.{KeeperFared};

    /// Finishes a live entry that has no next step: its row gets the state in which the entry ends, its
    /// board comes home, and its blocks go to the pool. Of want of memory the row stays begun. It takes no
    /// memory but the keeper's, and none where the keeper needs none to give a row another state.
    pub fn finish(
        &mut self,
        client: u32,
        entry: u32,
        board: Board,
        payload: Payload,
    ) -> Result<Finished, FinishStop>
        requires booted { 0 < boots (past self.old) }
        requires comes { (number : ℕ) × (l : LiveEntry) × ComesHome (basis_in self.old.house_log) self.old.house_log.first (past self.old) client entry number l [] board payload.count }
        requires done { (closed : RowState) × IsDone (basis_in self.old.house_log) (past self.old) entry closed }
        ensures turn { FinishedSo client entry (number_of (basis_in self.old.house_log) (past self.old) entry) board payload result self.old self.new }
        ensures memory { AdvancesForFree K.takes_none → IfOk result (λ finished. finished.stored ≢ Stored.NoMemory) }
        ensures fared { KeeperFared (signs_of K.tells K.doubt K.faults) self.old self.new }
        ensures counts { K.faults self.old.keeper ≤ K.faults self.new.keeper }
    {
        match self.go_on(client) {
            Ok(()) => Ok(self.close(client, entry, board, payload)),
            Err(Off) => Err(FinishStop { board, payload }),
        }
    }

    // Puts the finish behind the log.
    fn close(&mut self, client: u32, entry: u32, board: Board, payload: Payload) -> Finished
        requires loaded { self.old.house_log.loaded ≡ true }
        requires runs { Runs self.old.house_log }
        requires booted { 0 < boots (past self.old) }
        requires comes { (number : ℕ) × (l : LiveEntry) × ComesHome (basis_in self.old.house_log) self.old.house_log.first (past self.old) client entry number l [] board payload.count }
        requires done { (closed : RowState) × IsDone (basis_in self.old.house_log) (past self.old) entry closed }
        ensures appended { Appended client (Event.Finish client entry result.state result.stored) self.old.house_log self.new.house_log }
        ensures places { self.new.places ≡ places_with self.old.places (number_of (basis_in self.old.house_log) (past self.old) entry) board }
        ensures pool { self.new.pool.free ≡ self.old.pool.free + payload.count }
        ensures memory { AdvancesForFree K.takes_none → result.stored ≢ Stored.NoMemory }
        ensures fared { KeeperFared (signs_of K.tells K.doubt K.faults) self.old self.new }
        ensures counts { K.faults self.old.keeper ≤ K.faults self.new.keeper }
    {
        self.house_log.known();
        let number = self.house_log.board_of(entry).unwrap_or(0) as usize;
        let closed = self.house_log.closing(entry).unwrap_or(RowState::Begun);
        let stored = store(&self.house_log, &mut self.keeper, entry, closed);
        let state = closing_stored(closed, stored);
        put(&mut self.places, number, board);
        self.pool.give(payload.into_blocks());
        self.house_log.note(
            client,
            Event::Finish {
                client,
                entry,
                state,
                stored,
            },
        );
        Finished { state, stored }
    }
}

// Stores in which state an entry ends. Nothing is stored where its row stays begun.
fn store<K: Keeper>(house_log: &HouseLog, keeper: &mut K, entry: u32, closed: RowState) -> Stored
    requires no_doubt { K.doubt keeper.old ≡ None }
    requires suits { (all : List Row) → K.tells keeper.old all → Any (λ row. row.entry ≡ entry) all }
    requires timely { time_of (past_in house_log.now) ≤ 2 ^ 63 - 1 }
    ensures stored { ClosedAs (signs_of K.tells K.doubt K.faults) closed (Change.Advance entry closed (reason_of house_log.now.core.rows entry) (time_of (past_in house_log.now))) result keeper.old keeper.new }
    ensures memory { AdvancesForFree K.takes_none → result ≢ Stored.NoMemory }
    ensures cause { result ≡ Stored.Fault → Rose (K.faults keeper.old) (K.faults keeper.new) }
    ensures quiet { (result ≡ Stored.Fault) ⊎ (K.faults keeper.new ≡ K.faults keeper.old) }
    ensures counts { K.faults keeper.old ≤ K.faults keeper.new }
{
    match closed {
        RowState::Begun => Stored::Unchanged,
        RowState::Pending | RowState::Success | RowState::Failed | RowState::NeedsReboot => {
            commit(keeper, &house_log.advance(entry, closed))
        }
    }
}

// Under want of memory the row stays begun.
fn closing_stored(closed: RowState, stored: Stored) -> RowState
    ensures { result ≡ closing_stored closed stored }
{
    match stored {
        Stored::Yes | Stored::Fault | Stored::Unchanged => closed,
        Stored::NoMemory => RowState::Begun,
    }
}
