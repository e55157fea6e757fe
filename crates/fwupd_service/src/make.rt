//! The command `make`: a campaign that is generated.
ghost use Rattle.std.specs.Prelude.{◌≡◌, ◌⊎◌, ◌≤◌, replicate, length, IfOk};
ghost use Rattle.outer_traits.specs.Faults.{Rose};
ghost use Rattle.fwupd_service.specs.Begins.{CanBePlayed, IsReadyFor};
ghost use Rattle.command_outputs.specs.Summed.{summary};
ghost use Rattle.fwupd_service.specs.Ends.{IsReported};
ghost use Rattle.fwupd_service.specs.Tops.{IsLeft};
ghost use Rattle.fwupd_service.specs.Plugged.{plugins_of};
ghost use Rattle.plugin_trait.specs.Steps.{steps_at};
ghost use Rattle.fwupd_service.specs.Makes.{MadeOrNothing, MakeEnds, order_status, own_memory};

use crate::own_keeper::OwnKeeper;
use crate::playing::{Played, play};
use crate::ran::RunLeft;
use crate::reporting::{status_of, write_summed};
use campaign_inputs::make_campaign;
use fw_base::NoMemory;
use outer_traits::{Gate, MemoryShelf, Sink};
use plugin_order::OrderFault;
use plugin_trait::Plugin;
use run_status::Status;
use sha2::{Digest as _, Sha256};
use site_types::Campaign;
use std::alloc::Global;
use std::sync::Wait;
use std::thread::Threads;

/// The payload of the release that is installed.
const PAYLOAD: &[u8] = b"EMU1 01010000\n";

/// Plays the generated campaign of so many boards and clients over a keeper and shelves of its own, and
/// writes what its log counts. The keeper and the shelves that came stay as they are.
pub(crate) fn make<R: Threads + Wait + Sync, P, K, T: Sink, G: Gate + Sync>(
    rt: &R,
    alloc: Global,
    boards: u32,
    clients: u32,
    shelves: Vec<P>,
    keeper: K,
    plugins: Vec<Box<dyn Plugin>>,
    gate: &G,
    out: &mut T,
) -> RunLeft<P, K>
    requires some_boards { 1 ≤ boards }
    requires few_boards { boards ≤ 256 }
    requires some_clients { 1 ≤ clients }
    requires few_clients { clients ≤ 16 }
    requires few_plugins { length plugins.items ≤ 64 }
    ensures ends { MakeEnds boards clients (plugins_of (λ p. own_sheet p) (λ p. vetoes_on p) (λ p. own_vetoes p) (λ p. steps p) plugins.items) result.status keeper
        (record { log = result.log; opening = result.opening; boards = result.boards; keeper = result.keeper })
        (T.taken out.old) (T.taken out.new) }
    ensures sink_fault { result.status ≡ Status.SinkFault → Rose (T.faults out.old) (T.faults out.new) }
    ensures sink_quiet { (result.status ≡ Status.SinkFault) ⊎ (T.faults out.new ≡ T.faults out.old) }
    ensures sink_counts { T.faults out.old ≤ T.faults out.new }
    ensures shelves { result.shelves.items ≡ shelves.items }
{
    match make_campaign(alloc, boards, clients, plugins) {
        Ok(ready) => make_ready(
            rt,
            alloc,
            boards,
            clients,
            ready.campaign,
            ready.plugins,
            shelves,
            keeper,
            gate,
            out,
        ),
        Err(fault) => RunLeft::nothing(alloc, order_status(fault), shelves, keeper),
    }
}

/// How a status tells that plugins can't be arranged.
fn order_status(fault: OrderFault) -> Status
    ensures { result ≡ order_status fault }
{
    match fault {
        OrderFault::DuplicateName { name } => Status::Plugins(OrderFault::DuplicateName { name }),
        OrderFault::Cycle { names } => Status::Plugins(OrderFault::Cycle { names }),
        OrderFault::NoMemory => Status::NoMemory,
    }
}

/// A shelf for each client, with the one payload.
fn own_shelves(alloc: Global, clients: u32) -> Result<Vec<MemoryShelf>, NoMemory>
    ensures { IfOk result (λ shelves. shelves.items ≡ replicate clients own_memory) }
{
    let mut shelves = Vec::new(alloc);
    for _ in 0..clients {
        shelves.push(own_shelf(alloc)?)?;
    }
    Ok(shelves)
}

fn own_shelf(alloc: Global) -> Result<MemoryShelf, NoMemory>
    ensures { IfOk result (λ shelf. shelf ≡ own_memory) }
{
    let mut files = Vec::new(alloc);
    files.push((Sha256::digest(PAYLOAD), Vec::from_slice(alloc, PAYLOAD)?))?;
    Ok(MemoryShelf::new(files, Vec::new(alloc)))
}

/// Plays a generated campaign over shelves and a keeper of its own.
fn make_ready<R: Threads + Wait + Sync, P, K, T: Sink, G: Gate + Sync>(
    rt: &R,
    alloc: Global,
    boards: u32,
    clients: u32,
    campaign: Campaign,
    plugins: Vec<Box<dyn Plugin>>,
    shelves: Vec<P>,
    keeper: K,
    gate: &G,
    out: &mut T,
) -> RunLeft<P, K>
    requires ready { CanBePlayed campaign }
    requires shelves { IsReadyFor clients (length plugins.items) campaign }
    ensures went { MadeOrNothing boards clients (steps_at (λ p. steps p) plugins.items) result.status campaign keeper
        (record { log = result.log; opening = result.opening; boards = result.boards; keeper = result.keeper })
        (T.taken out.old) (T.taken out.new) }
    ensures sink_fault { result.status ≡ Status.SinkFault → Rose (T.faults out.old) (T.faults out.new) }
    ensures sink_quiet { (result.status ≡ Status.SinkFault) ⊎ (T.faults out.new ≡ T.faults out.old) }
    ensures sink_counts { T.faults out.old ≤ T.faults out.new }
    ensures shelves { result.shelves.items ≡ shelves.items }
{
    let own = match own_shelves(alloc, clients) {
        Ok(own) => own,
        Err(NoMemory) => return RunLeft::nothing(alloc, Status::NoMemory, shelves, keeper),
    };
    let own_keeper = OwnKeeper::new(alloc);
    let (outcome, _own) = play(rt, alloc, campaign, plugins, own, own_keeper, gate);
    match outcome {
        Ok(played) => summed(alloc, boards, clients, played, shelves, keeper, out),
        Err(_own_keeper) => RunLeft::nothing(alloc, Status::NoMemory, shelves, keeper),
    }
}

/// Writes what the log of a generated campaign counts.
fn summed<P, K, T: Sink>(
    alloc: Global,
    boards: u32,
    clients: u32,
    played: Played<OwnKeeper>,
    shelves: Vec<P>,
    keeper: K,
    out: &mut T,
) -> RunLeft<P, K>
    ensures reported { IsReported result.status played.ran.ending played.ran.wanting played.log
        (summary boards clients played.log) (T.taken out.old) (T.taken out.new) }
    ensures left { IsLeft played.log played.opening played.boards keeper
        (record { log = result.log; opening = result.opening; boards = result.boards; keeper = result.keeper }) }
    ensures shelves { result.shelves.items ≡ shelves.items }
    ensures sink_fault { result.status ≡ Status.SinkFault → Rose (T.faults out.old) (T.faults out.new) }
    ensures sink_quiet { (result.status ≡ Status.SinkFault) ⊎ (T.faults out.new ≡ T.faults out.old) }
    ensures sink_counts { T.faults out.old ≤ T.faults out.new }
{
    let Played {
        ran,
        facts: _,
        log,
        boards: made,
        keeper: _,
        opening,
    } = played;
    let written = write_summed(alloc, boards, clients, &log, out);
    RunLeft {
        status: status_of(written, &ran, &log),
        log,
        opening,
        boards: Some(made),
        keeper,
        shelves,
    }
}
