//! Claims.
ghost use Rattle.std.specs.Prelude.{◌≡◌, None, Some};
ghost use Rattle.update_log.specs.Holding.{hold};
ghost use Rattle.daemon_core.specs.Claims.{claim_event, stopped_by};
ghost use Rattle.daemon_core.specs.Fetches.{IsFetchOf, block_count};
ghost use Rattle.daemon_core.specs.Holds.{held_by};
ghost use Rattle.shared_daemon.specs.Calls.{Took, TurnedIn, WasSeen};
ghost use Rattle.shared_daemon.specs.Entries.{chronicle, past_seen};
ghost use Rattle.shared_daemon.specs.Names.{IsPass};
ghost use Rattle.shared_daemon.specs.Taking.{ClaimGaveIn};

use crate::daemon::{Daemon, Pass};
use crate::named::Named;
use crate::naming::Naming;
use daemon_core::{ClaimStop, Claimed, Fetched, Ticket};
use history_keeper::Keeper;
use std::sync::Wait;

impl<K: Keeper, N: Naming> Named<K, N> {
    pub(crate) fn claim(
        &mut self,
        client: u32,
        ticket: Ticket,
        fetched: Fetched,
    ) -> Result<Claimed, ClaimStop>
        requires held { WasSeen N.name client (λ seen. hold (past_seen seen) client ≡ Some (held_by ticket (block_count fetched))) (chronicle self.old) }
        requires asked { ticket.pending ≡ None }
        requires whole { IsFetchOf N.name.basis.facts ticket.release fetched }
        ensures turn { TurnedIn client (claim_event client ticket.request fetched) (stopped_by result) (chronicle self.old) (chronicle self.new) }
        ensures gave { ClaimGaveIn N.name client ticket fetched result (chronicle self.new) }
    {
        self.house.known();
        let claimed = self.house.claim(client, ticket, fetched);
        self.house.known();
        claimed
    }
}

impl<K: Keeper, N: Naming> Daemon<K, N> {
    /// Claims what was asked for. The ticket is of the client's open hold, which no row that was put off
    /// made; the blocks of the fetch are the hold's, and a whole payload is that of the ticket's release. A
    /// claim that takes no entry gives the blocks to the pool; one that is stopped hands all back.
    pub fn claim<R: Wait>(
        &self,
        rt: &R,
        pass: &mut Pass,
        ticket: Ticket,
        fetched: Fetched,
    ) -> Result<Claimed, ClaimStop>
        requires pass { IsPass self.now.id N.name pass.old }
        requires held { hold (past_seen pass.old.seen) pass.old.number ≡ Some (held_by ticket (block_count fetched)) }
        requires asked { ticket.pending ≡ None }
        requires whole { IsFetchOf N.name.basis.facts ticket.release fetched }
        ensures pass { IsPass self.now.id N.name pass.new }
        ensures same { pass.new.number ≡ pass.old.number }
        ensures turn { Took N.name (TurnedIn pass.old.number (claim_event pass.old.number ticket.request fetched) (stopped_by result)) pass.old pass.new }
        ensures gave { ClaimGaveIn N.name pass.old.number ticket fetched result pass.new.seen }
    {
        let mut turn = self.enter(rt, pass);
        let answer = turn.state().claim(pass.number(), ticket, fetched);
        self.leave(turn, pass);
        answer
    }
}
