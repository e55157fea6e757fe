//! What one event makes of the views.
ghost use Rattle.std.specs.Prelude.{◌≡◌, ◌≤◌, List, find, length, map, option_copied, option_map, slice_get, if◌then◌else◌};
ghost use Rattle.update_log.specs.declared.live.LiveEntry.{LiveEntry};
ghost use Rattle.core_state.specs.CoreSteps.{entry_changed};
ghost use Rattle.core_state.specs.CoreViews.{claimed, told_on, unclaimed};
ghost use Rattle.update_log.specs.Holding.{live_after, without_entry};
ghost use Rattle.update_log.specs.Known.{for_board, is_on};
ghost use Rattle.update_log.specs.Pasts.{is_boot};

use crate::clock::is_boot;
use device_list::Devices;
use fw_facts::Seen;
use guid_ids::DeviceId;
use row_index::IndexedRows;
use update_log::{Back, BoardSeen, ClaimAnswer, Event, LiveEntry, ResumeAnswer};

/// A port shows something else from now on: that of the board of this number, if there is one.
pub fn show_board(devices: &mut Devices, boards: &[u32], board: Option<u32>, seen: Seen)
    requires { length boards.now ≤ length devices.old }
    ensures told { devices.new ≡ told_on (λ number. for_board board number seen) boards.now devices.old }
{
    for (at, number) in boards.iter().enumerate() {
        if let Some(seen) = for_board(board, *number, seen) {
            devices.set_seen(at, seen);
        }
    }
}

fn for_board(board: Option<u32>, number: u32, seen: Seen) -> Option<Seen>
    ensures { result ≡ for_board board number seen }
{
    match board {
        Some(told) => if told == number { Some(seen) } else { None },
        None => None,
    }
}

/// Each port shows what a boot tells.
pub fn show_all(devices: &mut Devices, boards: &[u32], seen: &[BoardSeen])
    requires { length boards.now ≤ length devices.old }
    ensures told { devices.new ≡ told_on (λ number. option_map (λ b. b.seen) (slice_get seen.now number)) boards.now devices.old }
{
    for (at, number) in boards.iter().enumerate() {
        if let Some(seen) = seen_of(seen, *number) {
            devices.set_seen(at, seen);
        }
    }
}

fn seen_of(seen: &[BoardSeen], number: u32) -> Option<Seen>
    ensures { result ≡ option_map (λ b. b.seen) (slice_get seen.now number) }
{
    match seen.get(number as usize) {
        Some(board) => Some(board.seen),
        None => None,
    }
}

/// Each device has its live entry after an event, over the rows after it, where each had its own over
/// the live entries before.
pub fn claims_after(devices: &mut Devices, rows: &IndexedRows, live: &[LiveEntry], event: &Event)
    ensures { (before : List LiveEntry) → live.now ≡ live_after event.now before → map (claimed rows.now.rows before) devices.old ≡ devices.old → devices.new ≡ map (claimed rows.now.rows live.now) devices.old }
{
    match entry_changed(event) {
        Some(entry) => claim_of_entry(devices, rows, live, entry),
        None => unclaim_at_boot(devices, event),
    }
}

fn entry_changed(event: &Event) -> Option<u32>
    ensures { result ≡ entry_changed event.now }
{
    match event {
        Event::Claim {
            answer: ClaimAnswer::Entry(entry),
            ..
        } => Some(*entry),
        Event::Resume {
            entry,
            answer: ResumeAnswer::Begun,
            ..
        } => Some(*entry),
        Event::Finish { entry, .. } => Some(*entry),
        Event::GiveBack {
            what: Back::Entry(entry),
            ..
        } => Some(*entry),
        Event::Claim { .. }
        | Event::Resume { .. }
        | Event::GiveBack { .. }
        | Event::Boot { .. }
        | Event::Query { .. }
        | Event::Ask { .. }
        | Event::Schedule { .. }
        | Event::Start { .. }
        | Event::End { .. }
        | Event::Judge { .. }
        | Event::Unplug { .. }
        | Event::Plug { .. }
        | Event::Cut => None,
    }
}

// One live entry came or went: the device of its row has the first live entry that is of it now, and
// every other device has the one that it had.
fn claim_of_entry(devices: &mut Devices, rows: &IndexedRows, live: &[LiveEntry], entry: u32)
    ensures { (before : List LiveEntry) → without_entry entry before ≡ without_entry entry live.now → map (claimed rows.now.rows before) devices.old ≡ devices.old → devices.new ≡ map (claimed rows.now.rows live.now) devices.old }
{
    match rows.row_of(entry) {
        Some(row) => devices.set_claim_of(&row.device, claim_on(rows, live, &row.device)),
        None => {}
    }
}

// The first live entry whose row is of that device.
fn claim_on(rows: &IndexedRows, live: &[LiveEntry], device: &DeviceId) -> Option<u32>
    ensures { result ≡ option_map (λ l. l.entry) (find (is_on rows.now.rows device.now) live.now) }
{
    match first_on(rows, live, device) {
        Some(first) => Some(first.entry),
        None => None,
    }
}

fn first_on<'a>(
    rows: &IndexedRows,
    live: &'a [LiveEntry],
    device: &DeviceId,
) -> Option<&'a LiveEntry>
    ensures { option_copied result ≡ find (is_on rows.now.rows device.now) live.now }
{
    live.iter().find(|l| is_on(rows, device, l))
}

fn is_on(rows: &IndexedRows, device: &DeviceId, l: &LiveEntry) -> bool
    ensures { result ≡ is_on rows.now.rows device.now l.now }
{
    match rows.row_of(l.entry) {
        Some(row) => row.device == *device,
        None => false,
    }
}

fn unclaim_at_boot(devices: &mut Devices, event: &Event)
    ensures { devices.new ≡ (if is_boot event.now then map unclaimed devices.old else devices.old) }
{
    if is_boot(event) {
        unclaim(devices);
    }
}

fn unclaim(devices: &mut Devices)
    ensures { devices.new ≡ map unclaimed devices.old }
{
    for at in 0..devices.views().len() {
        devices.set_claim(at, None);
    }
}
