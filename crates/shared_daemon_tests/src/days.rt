//! Days of a daemon with two clients, from its beginning to its close.
ghost use Rattle.std.specs.Prelude.{◌≡◌, ◌<◌, All, length, map};
ghost use Rattle.std.specs.List.{range_with_len};
ghost use Rattle.history_keeper.specs.Signs.{signs_of};
ghost use Rattle.daemon_core.specs.Housed.{past};
ghost use Rattle.update_log.specs.Pasts.{boots};
ghost use Rattle.shared_daemon.specs.Closings.{IsFreePass};
ghost use Rattle.shared_daemon.specs.Entries.{chronicle};
ghost use Rattle.shared_daemon.specs.Names.{HasNothing, IsPass, KeepsName};

use crate::clients::{ask_held, ask_refused, claim_taken, give_up, run};
use daemon_core::{House, HouseParts};
use history_keeper::Keeper;
use outer_traits::{Gate, MemoryShelf};
use plugin_trait::Plugin;
use shared_daemon::{Daemon, Naming, Pass};
use std::alloc::Global;
use std::process::Abort;
use std::sync::Wait;
use update_log::{Refusal, Request};

/// What the two clients do.
#[derive(Clone, Copy)]
pub enum Plan {
    /// The second client asks while the first has an entry, which is run then.
    AsksWhileClaimed,
    /// The second client asks while the first has a hold, and again once the first has given that up.
    AsksWhileHeld,
}

/// What the clients ask for, and what they work with.
#[derive(Drop)]
pub struct Asks<'a, G> {
    pub plan: Plan,
    pub first: &'a Request,
    pub second: &'a Request,
    pub plugins: &'a [Box<dyn Plugin>],
    pub gate: &'a G,
}

/// The first client has an entry while the second asks.
fn claimed_first<R: Abort + Wait, K: Keeper, N: Naming, G: Gate>(
    rt: &R,
    daemon: &Daemon<K, N>,
    one: &mut Pass,
    two: &mut Pass,
    shelf: &mut MemoryShelf,
    asks: &Asks<G>,
) -> Refusal
    requires one { IsPass daemon.now.id N.name one.old }
    requires two { IsPass daemon.now.id N.name two.old }
    requires one_free { IsFreePass one.old }
    requires two_free { IsFreePass two.old }
    ensures one { IsPass daemon.now.id N.name one.new }
    ensures two { IsPass daemon.now.id N.name two.new }
    ensures one_same { one.new.number ≡ one.old.number }
    ensures two_same { two.new.number ≡ two.old.number }
    ensures one_free { IsFreePass one.new }
    ensures two_free { IsFreePass two.new }
{
    let given = ask_held(rt, daemon, one, asks.first);
    let taken = claim_taken(rt, daemon, one, asks.first, shelf, given);
    let told = ask_refused(rt, daemon, two, asks.second);
    let _finished = run(rt, daemon, one, taken, asks.plugins, asks.gate);
    told
}

/// The first client has a hold while the second asks, and then the second has one.
fn held_first<R: Abort + Wait, K: Keeper, N: Naming>(
    rt: &R,
    daemon: &Daemon<K, N>,
    one: &mut Pass,
    two: &mut Pass,
    first: &Request,
    second: &Request,
) -> Refusal
    requires one { IsPass daemon.now.id N.name one.old }
    requires two { IsPass daemon.now.id N.name two.old }
    requires one_free { IsFreePass one.old }
    requires two_free { IsFreePass two.old }
    ensures one { IsPass daemon.now.id N.name one.new }
    ensures two { IsPass daemon.now.id N.name two.new }
    ensures one_same { one.new.number ≡ one.old.number }
    ensures two_same { two.new.number ≡ two.old.number }
    ensures one_free { IsFreePass one.new }
    ensures two_free { IsFreePass two.new }
{
    let given = ask_held(rt, daemon, one, first);
    let told = ask_refused(rt, daemon, two, second);
    give_up(rt, daemon, one, given);
    let other = ask_held(rt, daemon, two, second);
    give_up(rt, daemon, two, other);
    told
}

fn play<R: Abort + Wait, K: Keeper, N: Naming, G: Gate>(
    rt: &R,
    daemon: &Daemon<K, N>,
    one: &mut Pass,
    two: &mut Pass,
    shelf: &mut MemoryShelf,
    asks: &Asks<G>,
) -> Refusal
    requires one { IsPass daemon.now.id N.name one.old }
    requires two { IsPass daemon.now.id N.name two.old }
    requires one_free { IsFreePass one.old }
    requires two_free { IsFreePass two.old }
    ensures one { IsPass daemon.now.id N.name one.new }
    ensures two { IsPass daemon.now.id N.name two.new }
    ensures one_same { one.new.number ≡ one.old.number }
    ensures two_same { two.new.number ≡ two.old.number }
    ensures one_free { IsFreePass one.new }
    ensures two_free { IsFreePass two.new }
{
    match asks.plan {
        Plan::AsksWhileClaimed => claimed_first(rt, daemon, one, two, shelf, asks),
        Plan::AsksWhileHeld => held_first(rt, daemon, one, two, asks.first, asks.second),
    }
}

/// Takes the passes of the two clients out of all, and puts them back.
fn play_all<R: Abort + Wait, K: Keeper, N: Naming, G: Gate>(
    rt: &R,
    daemon: &Daemon<K, N>,
    passes: &mut Vec<Pass>,
    shelf: &mut MemoryShelf,
    asks: &Asks<G>,
) -> Refusal
    requires passes { All (IsPass daemon.now.id N.name) passes.old.items }
    requires free { All IsFreePass passes.old.items }
    ensures numbers { map (λ p. p.number) passes.new.items ≡ map (λ p. p.number) passes.old.items }
    ensures passes { All (IsPass daemon.now.id N.name) passes.new.items }
    ensures free { All IsFreePass passes.new.items }
{
    let Some(mut two) = passes.pop() else {
        panic!(rt; "no pass")
    };
    let Some(mut one) = passes.pop() else {
        panic!(rt; "one pass")
    };
    let told = play(rt, daemon, &mut one, &mut two, shelf, asks);
    if passes.push(one).is_err() {
        panic!(rt; "no memory");
    }
    if passes.push(two).is_err() {
        panic!(rt; "no memory");
    }
    told
}

/// A day of a daemon round this house. Says why the second client was refused.
pub fn day<R: Abort + Wait, K: Keeper + Drop, N: Naming, G: Gate>(
    rt: &R,
    alloc: Global,
    house: House<K>,
    shelf: &mut MemoryShelf,
    asks: &Asks<G>,
) -> Refusal
    requires name { KeepsName (signs_of K.tells K.doubt K.faults) N.name house }
    requires start { chronicle house ≡ N.name.start }
    requires nothing { HasNothing (chronicle house) }
{
    match Daemon::<K, N>::begin(alloc, house, 2, 1) {
        Ok((daemon, mut passes)) => {
            let told = play_all(rt, &daemon, &mut passes, shelf, asks);
            let house = daemon.close(passes);
            house.known();
            let HouseParts {
                facts: _,
                log: _,
                boards: _,
                keeper: _,
                opening: _,
            } = house.into_parts();
            told
        }
        Err(_refused) => panic!(rt; "no memory"),
    }
}
