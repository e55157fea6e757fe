//! Questions, asks, and what is put off.
ghost use Rattle.std.specs.Prelude.{◌≡◌, IfOk, None, Some};
ghost use Rattle.history_keeper.specs.declared.row.Row.{Row};
ghost use Rattle.history_keeper.specs.declared.row.RowState.{RowState};
ghost use Rattle.update_log.specs.declared.event.Event.{Event};
ghost use Rattle.update_log.specs.Holding.{hold};
ghost use Rattle.update_log.specs.Known.{row_of, rows};
ghost use Rattle.update_log.specs.Legal.{IsFree, request_of_row};
ghost use Rattle.daemon_core.specs.Fetches.{block_count};
ghost use Rattle.daemon_core.specs.Holds.{HoldsFor, answer_of, back_of, held_by};
ghost use Rattle.shared_daemon.specs.Calls.{Adds, Took, TurnedIn, WasSeen};
ghost use Rattle.shared_daemon.specs.Entries.{chronicle, past_seen};
ghost use Rattle.shared_daemon.specs.Names.{IsPass};
ghost use Rattle.shared_daemon.specs.Questions.{MayAsk};

use crate::daemon::{Daemon, Pass};
use crate::named::Named;
use crate::naming::Naming;
use block_pool::Blocks;
use daemon_core::{Asked, Fetched, Stop, Ticket};
use history_keeper::Keeper;
use std::sync::Wait;
use update_log::{ClaimAnswer, Query, Request};

impl<K: Keeper, N: Naming> Named<K, N> {
    pub(crate) fn query(&mut self, client: u32, query: &Query) -> Result<(), Stop>
        requires { MayAsk query.now }
        ensures { TurnedIn client (λ _. Event.Query client query.now) result (chronicle self.old) (chronicle self.new) }
    {
        self.house.known();
        self.house.query(client, query)
    }

    pub(crate) fn ask(&mut self, client: u32, request: &Request) -> Result<Asked, Stop>
        requires { WasSeen N.name client (λ seen. IsFree (past_seen seen) client) (chronicle self.old) }
        ensures turn { TurnedIn client (λ asked. Event.Ask client request.now None (answer_of asked)) result (chronicle self.old) (chronicle self.new) }
        ensures holds { IfOk result (HoldsFor N.name.basis.facts client request.now None) }
    {
        self.house.known();
        self.house.ask(client, request)
    }

    pub(crate) fn ask_pending(&mut self, entry: u32) -> Result<Asked, Stop>
        requires free { WasSeen N.name 0 (λ seen. IsFree (past_seen seen) 0) (chronicle self.old) }
        requires pending { (row : Row) × (row_of (rows N.name.basis (past_seen (chronicle self.old))) entry ≡ Some row) × (row.state ≡ RowState.Pending) }
        ensures turn { (row : Row) → row_of (rows N.name.basis (past_seen (chronicle self.old))) entry ≡ Some row → TurnedIn 0 (λ asked. Event.Ask 0 (request_of_row row) (Some entry) (answer_of asked)) result (chronicle self.old) (chronicle self.new) }
        ensures holds { (row : Row) → row_of (rows N.name.basis (past_seen (chronicle self.old))) entry ≡ Some row → IfOk result (HoldsFor N.name.basis.facts 0 (request_of_row row) (Some entry)) }
    {
        self.house.known();
        self.house.ask_pending(entry)
    }

    pub(crate) fn schedule(&mut self, client: u32, request: &Request) -> Result<ClaimAnswer, Stop>
        requires { WasSeen N.name client (λ seen. IsFree (past_seen seen) client) (chronicle self.old) }
        ensures { TurnedIn client (λ answer. Event.Schedule client request.now answer) result (chronicle self.old) (chronicle self.new) }
    {
        self.house.known();
        self.house.schedule(client, request)
    }

    pub(crate) fn give_up(&mut self, client: u32, ticket: Ticket, blocks: Blocks)
        requires { WasSeen N.name client (λ seen. hold (past_seen seen) client ≡ Some (held_by ticket blocks.count)) (chronicle self.old) }
        ensures { Adds client (Event.GiveBack client (back_of ticket.pending ticket.request)) (chronicle self.old) (chronicle self.new) }
    {
        self.house.known();
        self.house.give_up(client, ticket, blocks);
    }
}

impl<K: Keeper, N: Naming> Daemon<K, N> {
    /// Answers a question. To settle a device there is a call of its own.
    pub fn query<R: Wait>(&self, rt: &R, pass: &mut Pass, query: &Query) -> Result<(), Stop>
        requires pass { IsPass self.now.id N.name pass.old }
        requires question { MayAsk query.now }
        ensures pass { IsPass self.now.id N.name pass.new }
        ensures same { pass.new.number ≡ pass.old.number }
        ensures turn { Took N.name (TurnedIn pass.old.number (λ _. Event.Query pass.old.number query.now) result) pass.old pass.new }
    {
        let mut turn = self.enter(rt, pass);
        let answer = turn.state().query(pass.number(), query);
        self.leave(turn, pass);
        answer
    }

    /// Asks for an install. Where it is accepted, blocks are held for its payload; the client must have
    /// nothing out.
    pub fn ask<R: Wait>(&self, rt: &R, pass: &mut Pass, request: &Request) -> Result<Asked, Stop>
        requires pass { IsPass self.now.id N.name pass.old }
        requires free { IsFree (past_seen pass.old.seen) pass.old.number }
        ensures pass { IsPass self.now.id N.name pass.new }
        ensures same { pass.new.number ≡ pass.old.number }
        ensures turn { Took N.name (TurnedIn pass.old.number (λ asked. Event.Ask pass.old.number request.now None (answer_of asked)) result) pass.old pass.new }
        ensures holds { IfOk result (HoldsFor N.name.basis.facts pass.old.number request.now None) }
    {
        let mut turn = self.enter(rt, pass);
        let answer = turn.state().ask(pass.number(), request);
        self.leave(turn, pass);
        answer
    }

    /// Asks for the install of this row, which was put off. It is the daemon's own ask, by pass 0, which
    /// must have nothing out.
    pub fn ask_pending<R: Wait>(&self, rt: &R, pass: &mut Pass, entry: u32) -> Result<Asked, Stop>
        requires pass { IsPass self.now.id N.name pass.old }
        requires own { pass.old.number ≡ 0 }
        requires free { IsFree (past_seen pass.old.seen) 0 }
        requires pending { (row : Row) × (row_of (rows N.name.basis (past_seen pass.old.seen)) entry ≡ Some row) × (row.state ≡ RowState.Pending) }
        ensures pass { IsPass self.now.id N.name pass.new }
        ensures same { pass.new.number ≡ pass.old.number }
        ensures turn { (row : Row) → row_of (rows N.name.basis (past_seen pass.old.seen)) entry ≡ Some row → Took N.name (TurnedIn 0 (λ asked. Event.Ask 0 (request_of_row row) (Some entry) (answer_of asked)) result) pass.old pass.new }
        ensures holds { (row : Row) → row_of (rows N.name.basis (past_seen pass.old.seen)) entry ≡ Some row → IfOk result (HoldsFor N.name.basis.facts 0 (request_of_row row) (Some entry)) }
    {
        let mut turn = self.enter(rt, pass);
        let answer = turn.state().ask_pending(entry);
        self.leave(turn, pass);
        answer
    }

    /// Puts an install off to the next boot; the client must have nothing out. Where it is accepted, its
    /// row is stored as pending.
    pub fn schedule<R: Wait>(
        &self,
        rt: &R,
        pass: &mut Pass,
        request: &Request,
    ) -> Result<ClaimAnswer, Stop>
        requires pass { IsPass self.now.id N.name pass.old }
        requires free { IsFree (past_seen pass.old.seen) pass.old.number }
        ensures pass { IsPass self.now.id N.name pass.new }
        ensures same { pass.new.number ≡ pass.old.number }
        ensures turn { Took N.name (TurnedIn pass.old.number (λ answer. Event.Schedule pass.old.number request.now answer) result) pass.old pass.new }
    {
        let mut turn = self.enter(rt, pass);
        let answer = turn.state().schedule(pass.number(), request);
        self.leave(turn, pass);
        answer
    }

    /// Gives a hold back: its ticket, and its blocks in what was fetched. The ticket is of the client's
    /// open hold. It takes no memory.
    pub fn give_up<R: Wait>(&self, rt: &R, pass: &mut Pass, ticket: Ticket, fetched: Fetched)
        requires pass { IsPass self.now.id N.name pass.old }
        requires held { hold (past_seen pass.old.seen) pass.old.number ≡ Some (held_by ticket (block_count fetched)) }
        ensures pass { IsPass self.now.id N.name pass.new }
        ensures same { pass.new.number ≡ pass.old.number }
        ensures turn { Took N.name (Adds pass.old.number (Event.GiveBack pass.old.number (back_of ticket.pending ticket.request))) pass.old pass.new }
    {
        let mut turn = self.enter(rt, pass);
        turn.state()
            .give_up(pass.number(), ticket, fetched.into_blocks());
        self.leave(turn, pass);
    }
}
