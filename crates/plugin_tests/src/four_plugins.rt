//! What no clause says: the order of the four, and whole updates through the box of each.
ghost use Rattle.std.specs.Prelude.{◌≡◌, ◌≤◌, ◌+◌};

use crate::payloads::{NEW, OLD, sealed};
use block_pool::{Payload, Pool};
use board_plugins::{Capsule, Flash, Loader, Power};
use emulated_boards::{Board, Mark};
use fw_base::Listed;
use fw_facts::{DeviceFlag, MachineFacts, MachineTest, Mode, Seen, VetoRule};
use plugin_order::{PluginSheet, arrange};
use plugin_trait::{Plugin, start_all};
use sha2::{Digest as _, Sha256};
use std::alloc::Global;
use std::process::Abort;
use std::test::Fail;

// The sheets of these plugins.
fn sheets(alloc: Global, plugins: &[Box<dyn Plugin>]) -> Result<Vec<PluginSheet>, Fail> {
    let mut all = Vec::new(alloc);
    for plugin in plugins {
        all.push(plugin.sheet().copy(alloc)?)?;
    }
    Ok(all)
}

/// One of the four.
#[derive(Clone, Copy)]
enum Kind {
    Power,
    Capsule,
    Flash,
    Loader,
}

// Puts a plugin behind the others.
fn put(alloc: Global, plugins: &mut Vec<Box<dyn Plugin>>, kind: Kind) -> Result<(), Fail> {
    match kind {
        Kind::Power => plugins.push(Box::new(alloc, Power::new(alloc)?)?)?,
        Kind::Capsule => plugins.push(Box::new(alloc, Capsule::new(alloc)?)?)?,
        Kind::Flash => plugins.push(Box::new(alloc, Flash::new(alloc)?)?)?,
        Kind::Loader => plugins.push(Box::new(alloc, Loader::new(alloc)?)?)?,
    }
    Ok(())
}

const UNORDERED: [Kind; 4] = [Kind::Flash, Kind::Loader, Kind::Capsule, Kind::Power];

// The sheets of the four, in this order.
fn four_sheets(alloc: Global) -> Result<Vec<PluginSheet>, Fail> {
    let mut plugins: Vec<Box<dyn Plugin>> = Vec::new(alloc);
    for kind in &UNORDERED {
        put(alloc, &mut plugins, *kind)?;
    }
    sheets(alloc, &plugins)
}

#[test]
fn power_runs_first_and_capsule_is_better_than_flash(rt: HostRuntime) -> Result<(), Fail> {
    let alloc = rt.alloc();
    let four = four_sheets(alloc)?;
    assert_eq!(rt; four.len(), 4);
    let plan = arrange(alloc, &four)?;
    assert_eq!(rt; plan.order.items(), [3, 2, 0, 1].as_slice());
    assert_eq!(rt; plan.priority.items(), [0, 0, 1, 0].as_slice());
    Ok(())
}

fn machine(alloc: Global, on_ac: bool) -> MachineFacts {
    MachineFacts {
        ids: Listed::of(Vec::new(alloc)),
        hardware: Listed::of(Vec::new(alloc)),
        on_ac,
        power_low: false,
        lid_closed: false,
    }
}

// How many rules forbid updates of built-in devices on battery.
fn battery_rules(rules: &[VetoRule]) -> usize {
    rules
        .iter()
        .filter(|rule| rule.when == MachineTest::OnBattery && rule.flags.has(DeviceFlag::Internal))
        .count()
}

const TURNS: [(bool, usize); 3] = [(true, 0), (false, 1), (true, 0)];

#[test]
fn power_vetoes_built_in_devices_on_battery(rt: HostRuntime) -> Result<(), Fail> {
    let alloc = rt.alloc();
    let mut plugins: Vec<Box<dyn Plugin>> = Vec::new(alloc);
    put(alloc, &mut plugins, Kind::Power)?;
    for (on_ac, wanted) in &TURNS {
        start_all(&mut plugins, &machine(alloc, *on_ac));
        for plugin in &plugins {
            assert_eq!(rt; battery_rules(plugin.vetoes()), *wanted);
        }
    }
    Ok(())
}

fn shows(raw: u32) -> Seen {
    Seen::Home {
        raw,
        mode: Mode::Runtime,
    }
}

// The steps of an update before its write.
fn begin(plugin: &dyn Plugin, board: &mut Board) -> Result<(), Fail> {
    plugin.prepare(board)?;
    board.reserve_marks(1)?;
    plugin.detach(board)?;
    Ok(())
}

// The write of an update, where the device is there.
fn write(plugin: &dyn Plugin, board: &mut Board, payload: &Payload) -> Result<(), Fail> {
    board.reserve_marks(2)?;
    if let Seen::Home { raw: _, mode: _ } = board.view() {
        plugin.write(board, 7, payload)?;
    }
    Ok(())
}

// The steps of an update behind its write.
fn end(plugin: &dyn Plugin, board: &mut Board) -> Result<(), Fail> {
    board.reserve_marks(1)?;
    plugin.attach(board)?;
    plugin.reload(board)?;
    plugin.cleanup(board)?;
    Ok(())
}

// The six steps of an update, in their order.
fn update(plugin: &dyn Plugin, board: &mut Board, payload: &Payload) -> Result<(), Fail> {
    begin(plugin, board)?;
    write(plugin, board, payload)?;
    end(plugin, board)
}

fn updated(rt: &impl Abort, alloc: Global, plugin: &dyn Plugin) -> Result<Board, Fail> {
    let mut pool = Pool::new(alloc, 1)?;
    let mut board = Board::new(alloc, OLD, Vec::new(alloc));
    let payload = sealed(rt, &mut pool, NEW);
    let outcome = update(plugin, &mut board, &payload);
    pool.give(payload.into_blocks());
    outcome?;
    Ok(board)
}

const BEGAN: Mark = Mark::Began { entry: 7 };

fn ended() -> Mark {
    Mark::Ended {
        entry: 7,
        digest: Sha256::digest(NEW),
    }
}

// Whether the board has the marks of an update that goes by the bootloader, or of one that doesn't.
fn has_marks(board: &Board, by_loader: bool) -> bool {
    if by_loader {
        board.marks() == [Mark::Entered, BEGAN, ended(), Mark::Left].as_slice()
    } else {
        board.marks() == [BEGAN, ended()].as_slice()
    }
}

// Whether a plugin's update shows the raw version at once, and the new one at the next boot, with its marks.
fn updates(
    rt: &impl Abort,
    alloc: Global,
    kind: Kind,
    by_loader: bool,
    raw: u32,
) -> Result<bool, Fail> {
    let mut plugins: Vec<Box<dyn Plugin>> = Vec::new(alloc);
    put(alloc, &mut plugins, kind)?;
    let Some(plugin) = plugins.first() else {
        return Ok(false);
    };
    let mut board = updated(rt, alloc, &**plugin)?;
    let at_once = board.view() == shows(raw) && has_marks(&board, by_loader);
    board.boot(false);
    Ok(at_once && board.view() == shows(0x0001_0100))
}

#[test]
fn each_plugin_updates_a_board(rt: HostRuntime) -> Result<(), Fail> {
    let alloc = rt.alloc();
    assert!(rt; updates(&rt, alloc, Kind::Power, false, 0x0001_0100)?);
    assert!(rt; updates(&rt, alloc, Kind::Capsule, false, 0x0001_0000)?);
    assert!(rt; updates(&rt, alloc, Kind::Flash, false, 0x0001_0100)?);
    assert!(rt; updates(&rt, alloc, Kind::Loader, true, 0x0001_0100)?);
    Ok(())
}
