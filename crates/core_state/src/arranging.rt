//! Which boards are devices.
ghost use Rattle.std.specs.Prelude.{◌≡◌, ◌≤◌, ◌<◌, true, length, filter, map, position, is_some, IfOk, OnOk, ◌++◌, ◌∷◌, [], None};
ghost use Rattle.std.specs.List.{list_any};
ghost use Rattle.std.specs.Str.{bytes_eq};
ghost use Rattle.device_list.specs.Lists.{refused};
ghost use Rattle.update_log.specs.Boards.{all_boards, devices, goes_before, is_beaten, is_device, is_earlier, is_same_place};
ghost use Rattle.core_state.specs.CoreBoards.{board, first_view};

use device_list::Devices;
use fw_base::NoMemory;
use fw_facts::{DeviceView, Seen, Sheet};
use std::alloc::Global;
use update_log::Facts;

/// The devices before the first boot, of which none is there, and the number of the board of each.
pub fn arrange(alloc: Global, facts: &Facts) -> Result<(Devices, Vec<u32>), NoMemory>
    requires { length facts.now.sheets ≤ 256 }
    ensures devices { IfOk result (λ found. found.0 ≡ map first_view (devices facts.now)) }
    ensures boards { IfOk result (λ found. found.1.items ≡ map (λ b. b.number) (devices facts.now)) }
    ensures few { IfOk result (λ found. length found.0 ≤ 256) }
    ensures matched { IfOk result (λ found. length found.1.items ≡ length found.0) }
{
    let mut devices = Devices::new(alloc);
    let mut boards = Vec::new(alloc);
    for (number, sheet) in facts.sheets.items().iter().enumerate() {
        consider(alloc, facts, &mut devices, &mut boards, number, sheet)?;
    }
    Ok((devices, boards))
}

// The board's device and its number stand at the end from now on, if it is a device.
fn consider(
    alloc: Global,
    facts: &Facts,
    devices: &mut Devices,
    boards: &mut Vec<u32>,
    number: usize,
    sheet: &Sheet,
) -> Result<(), NoMemory>
    requires few { number < 256 }
    requires free { is_device facts.now (board number sheet.now) ≡ true → refused devices.old sheet.now.device ≡ None }
    ensures devices { OnOk result (devices.new ≡ devices.old ++ map first_view (filter (is_device facts.now) (board number sheet.now ∷ []))) }
    ensures boards { OnOk result (boards.new.items ≡ boards.old.items ++ map (λ b. b.number) (filter (is_device facts.now) (board number sheet.now ∷ []))) }
{
    if is_device(facts, number, sheet) {
        add(devices, first_view(alloc, sheet)?)?;
        boards.push(number as u32)?;
    }
    Ok(())
}

// One device more, of an ID that no other has, in a list that isn't full: only memory may be wanting.
fn add(devices: &mut Devices, view: DeviceView) -> Result<(), NoMemory>
    requires { refused devices.old view.sheet.device ≡ None }
    ensures { OnOk result (devices.new ≡ devices.old ++ view ∷ []) }
{
    match devices.add(view) {
        Ok(()) => Ok(()),
        Err(_) => Err(NoMemory),
    }
}

fn first_view(alloc: Global, sheet: &Sheet) -> Result<DeviceView, NoMemory>
    ensures { IfOk result (λ view. view ≡ record { sheet = sheet.now; seen = Seen.Gone; claim = None }) }
{
    Ok(DeviceView {
        sheet: sheet.copy(alloc)?,
        seen: Seen::Gone,
        claim: None,
    })
}

// Whether the board of that number, which has this sheet, is a device.
fn is_device(facts: &Facts, number: usize, sheet: &Sheet) -> bool
    ensures { result ≡ is_device facts.now (board number sheet.now) }
{
    is_served(facts, sheet) && !is_beaten(facts, number, sheet)
}

// Some other board of the same device ID goes before it.
fn is_beaten(facts: &Facts, number: usize, sheet: &Sheet) -> bool
    ensures { result ≡ list_any (is_beaten facts.now (board number sheet.now)) (all_boards facts.now) }
{
    for (other, its) in facts.sheets.items().iter().enumerate() {
        if beats(facts, other, its, number, sheet) {
            return true;
        }
    }
    false
}

fn beats(facts: &Facts, other: usize, its: &Sheet, number: usize, sheet: &Sheet) -> bool
    ensures { result ≡ is_beaten facts.now (board number sheet.now) (board other its.now) }
{
    its.device == sheet.device
        && is_served(facts, its)
        && goes_before(facts, other, its, number, sheet)
}

fn goes_before(facts: &Facts, other: usize, its: &Sheet, number: usize, sheet: &Sheet) -> bool
    ensures { result ≡ goes_before facts.now (board other its.now) (board number sheet.now) }
{
    if its.priority != sheet.priority {
        return sheet.priority < its.priority;
    }
    let own = plugin_place(facts, sheet);
    let others = plugin_place(facts, its);
    is_earlier(others, own) || (is_same_place(others, own) && other < number)
}

fn plugin_place(facts: &Facts, sheet: &Sheet) -> Option<usize>
    ensures { result ≡ position (λ vetoes. bytes_eq vetoes.plugin sheet.now.plugin) facts.now.vetoes }
{
    facts
        .vetoes
        .items()
        .iter()
        .position(|vetoes| vetoes.plugin == sheet.plugin)
}

fn is_served(facts: &Facts, sheet: &Sheet) -> bool
    ensures { result ≡ is_some (position (λ vetoes. bytes_eq vetoes.plugin sheet.now.plugin) facts.now.vetoes) }
{
    plugin_place(facts, sheet).is_some()
}

fn is_earlier(a: Option<usize>, b: Option<usize>) -> bool
    ensures { result ≡ is_earlier a b }
{
    match (a, b) {
        (Some(a), Some(b)) => a < b,
        (Some(_), None) | (None, Some(_)) | (None, None) => false,
    }
}

fn is_same_place(a: Option<usize>, b: Option<usize>) -> bool
    ensures { result ≡ is_same_place a b }
{
    match (a, b) {
        (Some(a), Some(b)) => a == b,
        (Some(_), None) | (None, Some(_)) | (None, None) => false,
    }
}
