//! What one event tells of boards.
ghost use Rattle.std.specs.Prelude.{◌≡◌, ◌≤◌, None, length};
ghost use Rattle.core_state.specs.CoreSteps.{board_of_entry, board_on, tells_on};
ghost use Rattle.core_state.specs.CoreViews.{told_on};
ghost use Rattle.update_log.specs.Known.{for_board};

use crate::showing::{show_all, show_board};
use device_list::{Devices, Selector};
use fw_facts::Seen;
use row_index::IndexedRows;
use update_log::{Event, PlugAnswer};

/// Each port shows what the event tells of it.
pub fn tell(devices: &mut Devices, boards: &[u32], rows: &IndexedRows, event: &Event)
    requires { length boards.now ≤ length devices.old }
    ensures { devices.new ≡ told_on (tells_on boards.now devices.old rows.now.rows event.now) boards.now devices.old }
{
    match event {
        Event::Boot { boards: seen, .. } => show_all(devices, boards, seen.items()),
        Event::End { entry, seen, .. } => show_entry(devices, boards, rows, *entry, *seen),
        Event::Plug {
            device,
            answer: PlugAnswer::Done { seen },
            ..
        } => show_device(devices, boards, device, *seen),
        Event::Unplug {
            device,
            answer: PlugAnswer::Done { seen },
            ..
        } => show_device(devices, boards, device, *seen),
        Event::Query { .. }
        | Event::Ask { .. }
        | Event::Claim { .. }
        | Event::Schedule { .. }
        | Event::Resume { .. }
        | Event::Start { .. }
        | Event::Finish { .. }
        | Event::Judge { .. }
        | Event::Unplug { .. }
        | Event::Plug { .. }
        | Event::GiveBack { .. }
        | Event::Cut => stay(devices, boards),
    }
}

// Nothing is told of any board.
fn stay(devices: &mut Devices, boards: &[u32])
    ensures { devices.new ≡ told_on (λ number. None) boards.now devices.old }
{}

fn show_entry(devices: &mut Devices, boards: &[u32], rows: &IndexedRows, entry: u32, seen: Seen)
    requires { length boards.now ≤ length devices.old }
    ensures { devices.new ≡ told_on (λ number. for_board (board_of_entry boards.now devices.old rows.now.rows entry) number seen) boards.now devices.old }
{
    let board = board_of_entry(devices, boards, rows, entry);
    show_board(devices, boards, board, seen);
}

fn show_device(devices: &mut Devices, boards: &[u32], device: &Selector, seen: Seen)
    requires { length boards.now ≤ length devices.old }
    ensures { devices.new ≡ told_on (λ number. for_board (board_on boards.now devices.old device.now) number seen) boards.now devices.old }
{
    let board = board_on(devices, boards, device);
    show_board(devices, boards, board, seen);
}

fn board_of_entry(devices: &Devices, boards: &[u32], rows: &IndexedRows, entry: u32) -> Option<u32>
    ensures { result ≡ board_of_entry boards.now devices.now rows.now.rows entry }
{
    match rows.row_of(entry) {
        Some(row) => board_on(devices, boards, &Selector::Id(row.device)),
        None => None,
    }
}

fn board_on(devices: &Devices, boards: &[u32], selector: &Selector) -> Option<u32>
    ensures { result ≡ board_on boards.now devices.now selector.now }
{
    match devices.resolve(selector) {
        Some(place) => boards.get(place).copied(),
        None => None,
    }
}
