//! The steps of a live entry, its finish, and what is given back.
ghost use Rattle.std.specs.Prelude.{◌≡◌, ◌≢◌, [], List, ℕ, IfOk, Some, true};
ghost use Rattle.emulated_boards.specs.declared.mark.Mark.{Mark};
ghost use Rattle.emulated_boards.specs.Conditions.{view_of};
ghost use Rattle.history_keeper.specs.declared.row.RowState.{RowState};
ghost use Rattle.update_log.specs.declared.event.Back.{Back};
ghost use Rattle.update_log.specs.declared.event.Event.{Event};
ghost use Rattle.update_log.specs.declared.event.Stored.{Stored};
ghost use Rattle.update_log.specs.declared.live.LiveEntry.{LiveEntry};
ghost use Rattle.update_log.specs.Legal.{StartAllowed};
ghost use Rattle.update_log.specs.Pasts.{off};
ghost use Rattle.daemon_core.specs.Finishes.{AdvancesForFree, IsDone};
ghost use Rattle.daemon_core.specs.Returns.{ComesHome, StepEnds, new_marks};
ghost use Rattle.shared_daemon.specs.Calls.{Adds, FinishedIn, Took, TurnedOrOffIn, WasSeen};
ghost use Rattle.shared_daemon.specs.Entries.{chronicle, past_seen};
ghost use Rattle.shared_daemon.specs.Names.{IsPass};
ghost use Rattle.shared_daemon.specs.Steps.{EndsOwn, GoesHome, MayFinish, MayStart};

use crate::daemon::{Daemon, Pass};
use crate::named::Named;
use crate::naming::Naming;
use block_pool::Payload;
use daemon_core::{FinishStop, Finished, Off};
use emulated_boards::{Board, BoardFault};
use history_keeper::Keeper;
use std::sync::Wait;
use update_log::Op;

impl<K: Keeper, N: Naming> Named<K, N> {
    pub(crate) fn start(&mut self, client: u32, entry: u32, op: Op) -> Result<(), Off>
        requires { WasSeen N.name client (MayStart N.name client entry op) (chronicle self.old) }
        ensures { TurnedOrOffIn client (λ _. Event.Start client entry op) result (chronicle self.old) (chronicle self.new) }
    {
        self.house.known();
        self.house.start(client, entry, op)
    }

    pub(crate) fn end(
        &mut self,
        client: u32,
        entry: u32,
        op: Op,
        outcome: Result<(), BoardFault>,
        board: &Board,
    ) -> Result<(), Off>
        requires { WasSeen N.name client (EndsOwn N.name client entry op outcome board.now) (chronicle self.old) }
        ensures { TurnedOrOffIn client (λ _. Event.End client entry op outcome (new_marks N.name.basis (past_seen (chronicle self.old)) entry board.now.journal) (view_of board.now.condition)) result (chronicle self.old) (chronicle self.new) }
    {
        self.house.known();
        self.house.end(client, entry, op, outcome, board)
    }

    pub(crate) fn finish(
        &mut self,
        client: u32,
        entry: u32,
        board: Board,
        payload: Payload,
    ) -> Result<Finished, FinishStop>
        requires { WasSeen N.name client (MayFinish N.name client entry board payload.count) (chronicle self.old) }
        ensures turn { FinishedIn client entry board payload result (chronicle self.old) (chronicle self.new) }
        ensures memory { AdvancesForFree K.takes_none → IfOk result (λ finished. finished.stored ≢ Stored.NoMemory) }
    {
        self.house.known();
        self.house.finish(client, entry, board, payload)
    }

    pub(crate) fn give_back(&mut self, client: u32, entry: u32, board: Board, payload: Payload)
        requires { WasSeen N.name client (GoesHome N.name client entry board payload.count) (chronicle self.old) }
        ensures { Adds client (Event.GiveBack client (Back.Entry entry)) (chronicle self.old) (chronicle self.new) }
    {
        self.house.known();
        self.house.give_back(client, entry, board, payload);
    }
}

impl<K: Keeper, N: Naming> Daemon<K, N> {
    /// Starts the next step of a live entry of the client. It takes no memory.
    pub fn start<R: Wait>(&self, rt: &R, pass: &mut Pass, entry: u32, op: Op) -> Result<(), Off>
        requires pass { IsPass self.now.id N.name pass.old }
        requires next { MayStart N.name pass.old.number entry op pass.old.seen }
        ensures pass { IsPass self.now.id N.name pass.new }
        ensures same { pass.new.number ≡ pass.old.number }
        ensures turn { Took N.name (TurnedOrOffIn pass.old.number (λ _. Event.Start pass.old.number entry op) result) pass.old pass.new }
    {
        let mut turn = self.enter(rt, pass);
        let answer = turn.state().start(pass.number(), entry, op);
        self.leave(turn, pass);
        answer
    }

    /// Ends the open step of a live entry of the client, with its answer. The event shows what the board
    /// shows, and tells the marks of its journal that weren't told yet. It takes no memory.
    pub fn end<R: Wait>(
        &self,
        rt: &R,
        pass: &mut Pass,
        entry: u32,
        op: Op,
        outcome: Result<(), BoardFault>,
        board: &Board,
    ) -> Result<(), Off>
        requires pass { IsPass self.now.id N.name pass.old }
        requires ends { EndsOwn N.name pass.old.number entry op outcome board.now pass.old.seen }
        ensures pass { IsPass self.now.id N.name pass.new }
        ensures same { pass.new.number ≡ pass.old.number }
        ensures turn { Took N.name (TurnedOrOffIn pass.old.number (λ _. Event.End pass.old.number entry op outcome (new_marks N.name.basis (past_seen pass.old.seen) entry board.now.journal) (view_of board.now.condition)) result) pass.old pass.new }
    {
        let mut turn = self.enter(rt, pass);
        let answer = turn.state().end(pass.number(), entry, op, outcome, board);
        self.leave(turn, pass);
        answer
    }

    /// Finishes a live entry of the client that has no next step: its board comes home, and its blocks go
    /// to the pool. It takes no memory but the keeper's, and none where the keeper needs none to give a row
    /// another state.
    pub fn finish<R: Wait>(
        &self,
        rt: &R,
        pass: &mut Pass,
        entry: u32,
        board: Board,
        payload: Payload,
    ) -> Result<Finished, FinishStop>
        requires pass { IsPass self.now.id N.name pass.old }
        requires done { MayFinish N.name pass.old.number entry board payload.count pass.old.seen }
        ensures pass { IsPass self.now.id N.name pass.new }
        ensures same { pass.new.number ≡ pass.old.number }
        ensures turn { Took N.name (FinishedIn pass.old.number entry board payload result) pass.old pass.new }
        ensures memory { AdvancesForFree K.takes_none → IfOk result (λ finished. finished.stored ≢ Stored.NoMemory) }
    {
        let mut turn = self.enter(rt, pass);
        let answer = turn.state().finish(pass.number(), entry, board, payload);
        self.leave(turn, pass);
        answer
    }

    /// Gives a live entry of the client back, in a boot that was seen to be off: its board comes home, and
    /// its blocks go to the pool. It takes no memory.
    pub fn give_back<R: Wait>(
        &self,
        rt: &R,
        pass: &mut Pass,
        entry: u32,
        board: Board,
        payload: Payload,
    )
        requires pass { IsPass self.now.id N.name pass.old }
        requires comes { GoesHome N.name pass.old.number entry board payload.count pass.old.seen }
        ensures pass { IsPass self.now.id N.name pass.new }
        ensures same { pass.new.number ≡ pass.old.number }
        ensures turn { Took N.name (Adds pass.old.number (Event.GiveBack pass.old.number (Back.Entry entry))) pass.old pass.new }
    {
        let mut turn = self.enter(rt, pass);
        turn.state().give_back(pass.number(), entry, board, payload);
        self.leave(turn, pass);
    }
}
