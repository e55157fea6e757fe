//! What a client gives back.
ghost use Rattle.std.specs.Prelude.{◌≡◌, ◌<◌, Some, None};
ghost use Rattle.update_log.specs.declared.event.Event.{Event};
ghost use Rattle.update_log.specs.Holding.{hold};
ghost use Rattle.update_log.specs.Pasts.{boots};
ghost use Rattle.daemon_core.specs.Holds.{back_of, held_by};

use super::House;
use crate::hold::Ticket;
use block_pool::Blocks;
use history_keeper::Keeper;
use update_log::{Back, Event, Request};

impl<K: Keeper> House<K> {
    ghost use Rattle.daemon_core.specs.HouseLog.{Appended};
    ghost use Rattle.daemon_core.specs.Housed.{past};

    /// Gives a hold back: its ticket, and its blocks, as they are after a fetch. The hold is the
    /// client's. It takes no memory.
    pub fn give_up(&mut self, client: u32, ticket: Ticket, blocks: Blocks)
        requires booted { 0 < boots (past self.old) }
        requires held { hold (past self.old) client ≡ Some (held_by ticket blocks.count) }
        ensures appended { Appended client (Event.GiveBack client (back_of ticket.pending ticket.request)) self.old.house_log self.new.house_log }
        ensures places { self.new.places ≡ self.old.places }
        ensures keeper { self.new.keeper ≡ self.old.keeper }
    {
        let Ticket {
            client: _,
            request,
            release: _,
            pending,
        } = ticket;
        self.house_log.known();
        self.pool.give(blocks);
        self.house_log.note(
            client,
            Event::GiveBack {
                client,
                what: back_of(pending, &request),
            },
        );
    }
}

// What is given back of a request, which a row that was put off may have made.
fn back_of(pending: Option<u32>, request: &Request) -> Back
    ensures { result ≡ back_of pending request.now }
{
    match pending {
        None => Back::Tag(request.tag),
        Some(entry) => Back::Pending(entry),
    }
}
