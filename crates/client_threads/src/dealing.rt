//! Passes and shelves are dealt out to clients, and come back.
//!
//! The last of a vector is taken first, so both are reversed before and afterwards. Nothing here takes memory.
ghost use Rattle.std.specs.Prelude.{◌≡◌, ◌∷◌, ◌++◌, ◌+◌, ◌≤◌, [], length, map, reverse, vec_capacity};
ghost use Rattle.std.specs.List.{list_any};

use crate::clients::Client;
use daemon_tasks::either;
use shared_daemon::Pass;

// Deals out all these passes, each with a shelf, the last ones first.
fn equip<P>(passes: &mut Vec<Pass>, shelves: &mut Vec<P>, clients: &mut Vec<Client<P>>)
    requires none { clients.old.items ≡ [] }
    requires room { length passes.old.items ≤ vec_capacity clients.old }
    requires shelves { length passes.old.items ≤ length shelves.old.items }
    ensures none { passes.new.items ≡ [] }
    ensures passes { passes.old.items ≡ reverse (map (λ c. c.pass) clients.new.items) }
    ensures shelves { shelves.old.items ≡ shelves.new.items ++ reverse (map (λ c. c.shelf) clients.new.items) }
    ensures passes_room { vec_capacity passes.new ≡ vec_capacity passes.old }
    ensures shelves_room { vec_capacity shelves.new ≡ vec_capacity shelves.old }
{
    while let Some(pass) = passes.pop() {
        let Some(shelf) = shelves.pop() else {
            unreachable!()
        };
        clients.push_reserved(Client {
            pass,
            shelf,
            wanting: false,
        });
    }
}

/// Deals out the passes but the first, which is the daemon's own, and so many shelves, in order.
pub(crate) fn deal_out<P>(
    passes: &mut Vec<Pass>,
    shelves: &mut Vec<P>,
    clients: &mut Vec<Client<P>>,
) -> Pass
    requires none { clients.old.items ≡ [] }
    requires own { 1 ≤ length passes.old.items }
    requires room { length passes.old.items ≤ vec_capacity clients.old + 1 }
    requires shelves { length passes.old.items ≤ length shelves.old.items + 1 }
    ensures none { passes.new.items ≡ [] }
    ensures passes { passes.old.items ≡ result ∷ map (λ c. c.pass) clients.new.items }
    ensures shelves { shelves.old.items ≡ map (λ c. c.shelf) clients.new.items ++ reverse shelves.new.items }
    ensures passes_room { vec_capacity passes.new ≡ vec_capacity passes.old }
    ensures shelves_room { vec_capacity shelves.new ≡ vec_capacity shelves.old }
{
    passes.reverse();
    shelves.reverse();
    let Some(own) = passes.pop() else {
        unreachable!()
    };
    equip(passes, shelves, clients);
    own
}

// Takes the passes and the shelves back, the last ones first. Says whether memory was wanting for one of the
// clients.
fn dismiss<P>(clients: &mut Vec<Client<P>>, passes: &mut Vec<Pass>, shelves: &mut Vec<P>) -> bool
    requires passes_room { length passes.old.items + length clients.old.items ≤ vec_capacity passes.old }
    requires shelves_room { length shelves.old.items + length clients.old.items ≤ vec_capacity shelves.old }
    ensures none { clients.new.items ≡ [] }
    ensures passes { passes.new.items ≡ passes.old.items ++ reverse (map (λ c. c.pass) clients.old.items) }
    ensures shelves { shelves.new.items ≡ shelves.old.items ++ reverse (map (λ c. c.shelf) clients.old.items) }
    ensures passes_room { vec_capacity passes.new ≡ vec_capacity passes.old }
    ensures wanting { result ≡ list_any (λ c. c.wanting) clients.old.items }
{
    let mut wanting = false;
    while let Some(client) = clients.pop() {
        let Client {
            pass,
            shelf,
            wanting: now,
        } = client;
        passes.push_reserved(pass);
        shelves.push_reserved(shelf);
        wanting = either(now, wanting);
    }
    wanting
}

/// Takes all passes and shelves back, in order. Says whether memory was wanting for one of the clients.
pub(crate) fn take_back<P>(
    own: Pass,
    clients: Vec<Client<P>>,
    passes: &mut Vec<Pass>,
    shelves: &mut Vec<P>,
) -> bool
    requires none { passes.old.items ≡ [] }
    requires passes_room { 1 + length clients.items ≤ vec_capacity passes.old }
    requires shelves_room { length shelves.old.items + length clients.items ≤ vec_capacity shelves.old }
    ensures passes { passes.new.items ≡ own ∷ map (λ c. c.pass) clients.items }
    ensures shelves { shelves.new.items ≡ map (λ c. c.shelf) clients.items ++ reverse shelves.old.items }
    ensures wanting { result ≡ list_any (λ c. c.wanting) clients.items }
{
    let mut clients = clients;
    let wanting = dismiss(&mut clients, passes, shelves);
    clients.destroy_empty();
    passes.push_reserved(own);
    passes.reverse();
    shelves.reverse();
    wanting
}
