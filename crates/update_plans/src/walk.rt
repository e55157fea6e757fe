//! The order in which devices are visited.
ghost use Rattle.std.specs.Prelude.{◌≡◌, ◌++◌, ◌&&◌, ℕ, List, map, not, is_some, position, IfOk, OnOk};
ghost use Rattle.std.specs.Str.{bytes_eq};
ghost use Rattle.update_plans.specs.Walks.{is_child, kin_of, related, parent_of, turn_of, visit, visit_roots, walk};

use fw_base::{Name, NoMemory};
use fw_facts::{DeviceFlag, DeviceView};
use std::alloc::Global;

/// When a device is visited, seen from its parent.
#[derive(Clone, Copy, Debug, PartialEq, Eq)]
pub enum Turn {
    BeforeParent,
    AfterParent,
}

/// A device among the others: the place of its parent, where that is a device, and its turn.
#[derive(Clone, Copy, Debug)]
pub struct Kin {
    pub parent: Option<usize>,
    pub turn: Turn,
}

/// The places of the devices in the order in which they are visited. A device comes behind its children,
/// but before those that want their parent installed first. Devices of one parent, and those whose
/// parent is none of the devices, come in their own order.
pub fn order(alloc: Global, views: &[DeviceView]) -> Result<Vec<usize>, NoMemory>
    ensures { IfOk result (λ places. places.items ≡ walk views.now) }
{
    let kin = related(alloc, views)?;
    let mut order = Vec::new(alloc);
    visit_roots(&kin, &mut order)?;
    Ok(order)
}

fn related(alloc: Global, views: &[DeviceView]) -> Result<Vec<Kin>, NoMemory>
    ensures { IfOk result (λ all. all.items ≡ related views.now) }
{
    Ok(views.iter().map(|view| kin_of(views, view)).collect(alloc)?)
}

fn kin_of(views: &[DeviceView], view: &DeviceView) -> Kin
    ensures { result ≡ kin_of views.now view.now }
{
    Kin {
        parent: parent_of(views, view),
        turn: turn_of(view),
    }
}

fn parent_of(views: &[DeviceView], view: &DeviceView) -> Option<usize>
    ensures { result ≡ parent_of views.now view.now }
{
    match &view.sheet.parent {
        Some(port) => first_in_port(views, port),
        None => None,
    }
}

fn first_in_port(views: &[DeviceView], port: &Name) -> Option<usize>
    ensures { result ≡ position (λ view. bytes_eq port.now view.sheet.port) views.now }
{
    views.iter().position(|view| *port == view.sheet.port)
}

fn turn_of(view: &DeviceView) -> Turn
    ensures { result ≡ turn_of view.now }
{
    if view.sheet.flags.has(DeviceFlag::InstallParentFirst) {
        Turn::AfterParent
    } else {
        Turn::BeforeParent
    }
}

// Puts the visits of all devices without a parent behind the order.
fn visit_roots(kin: &[Kin], order: &mut Vec<usize>) -> Result<(), NoMemory>
    ensures { OnOk result (order.new.items ≡ order.old.items ++ visit_roots kin.now) }
{
    for (at, device) in kin.iter().enumerate() {
        if device.parent.is_none() {
            visit(kin, kin.len(), at, order)?;
        }
    }
    Ok(())
}

// Puts the visit of a device behind the order, with its descendants of so many generations.
fn visit(kin: &[Kin], generations: usize, at: usize, order: &mut Vec<usize>) -> Result<(), NoMemory>
    ensures { OnOk result (order.new.items ≡ order.old.items ++ visit kin.now generations at) }
{
    if generations == 0 {
        return Ok(());
    }
    for (place, child) in kin.iter().enumerate() {
        if is_child(child, at, Turn::BeforeParent) {
            visit(kin, generations - 1, place, order)?;
        }
    }
    order.push(at)?;
    for (late, child) in kin.iter().enumerate() {
        if is_child(child, at, Turn::AfterParent) {
            visit(kin, generations - 1, late, order)?;
        }
    }
    Ok(())
}

fn is_child(child: &Kin, at: usize, turn: Turn) -> bool
    ensures { result ≡ is_child turn at child.now }
{
    child.parent == Some(at) && child.turn == turn
}
