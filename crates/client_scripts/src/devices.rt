//! The devices, as a client is told of them.
ghost use Rattle.std.specs.Prelude.{◌≡◌, ◌++◌, ◌&&◌, ℕ, List, Some, if◌then◌else◌, OnOk, IfOk, flat_map};
ghost use Rattle.std.specs.Str.{bytes_eq};
ghost use Rattle.indexmap.specs.IndexMap.{get};
ghost use Rattle.update_log.specs.Once.{is_pending};
ghost use Rattle.client_scripts.specs.Replies.{device_line, name_text, reply_line, shown_text, told_text, waiting};

use crate::commas::{put_flags, put_guids, put_problems};
use crate::parts::put_seen;
use fw_base::Line;
use fw_facts::{DeviceView, MachineFacts};
use guid_ids::DeviceId;
use history_keeper::{Row, RowState};
use indexmap::IndexMap;
use std::alloc::{AllocError, Global};

/// For each device that has a row which waits for the next boot, the entry of the newest.
type Waiting = IndexMap<DeviceId, u32>;

/// Puts the lines of all devices behind the text.
pub fn put_devices(
    out: &mut Vec<u8>,
    machine: &MachineFacts,
    rows: &[Row],
    views: &[DeviceView],
) -> Result<(), AllocError>
    ensures { OnOk result (out.new.items ≡ out.old.items ++ flat_map (device_line machine.now rows.now) views.now) }
{
    let waiting = waiting(*out.allocator(), rows)?;
    for view in views {
        let entry = entry_of(&waiting, &view.sheet.device);
        put_device(out, machine, view, entry)?;
    }
    Ok(())
}

// The entry of each device's newest row that waits for the next boot.
fn waiting(alloc: Global, rows: &[Row]) -> Result<Waiting, AllocError>
    ensures { IfOk result (λ waits. (device : List ℕ) → get bytes_eq waits device ≡ waiting rows.now device) }
{
    let mut waiting = IndexMap::new(alloc);
    for row in rows {
        note(&mut waiting, row)?;
    }
    Ok(waiting)
}

fn note(waiting: &mut Waiting, row: &Row) -> Result<(), AllocError>
    ensures { OnOk result ((device : List ℕ) → get bytes_eq waiting.new device ≡ (if is_pending row.now.state && bytes_eq row.now.device device then Some row.now.entry else get bytes_eq waiting.old device)) }
{
    if is_pending(row.state) {
        waiting.insert(row.device, row.entry)?;
    }
    Ok(())
}

fn entry_of(waiting: &Waiting, device: &DeviceId) -> Option<u32>
    ensures { result ≡ get bytes_eq waiting.now device.now }
{
    waiting.get(device).copied()
}

fn put_device(
    out: &mut Vec<u8>,
    machine: &MachineFacts,
    view: &DeviceView,
    waits: Option<u32>,
) -> Result<(), AllocError>
    ensures { OnOk result (out.new.items ≡ out.old.items ++ reply_line (told_text machine.now view.now waits)) }
{
    out.extend_from_slice(b"  ")?;
    put_told(out, machine, view, waits)?;
    out.extend_from_slice(b"\n")
}

#[tactic(auto, unfolding(crate::specs::Replies::told_text))]
fn put_told(
    out: &mut Vec<u8>,
    machine: &MachineFacts,
    view: &DeviceView,
    waits: Option<u32>,
) -> Result<(), AllocError>
    ensures { OnOk result (out.new.items ≡ out.old.items ++ told_text machine.now view.now waits) }
{
    put_shown(out, view)?;
    out.extend_from_slice(b" problems ")?;
    put_problems(out, machine, view, waits)?;
    out.extend_from_slice(b" guids ")?;
    put_guids(out, view.guids())?;
    out.extend_from_slice(b" name")?;
    put_name(out, &view.sheet.name)
}

// The front of a device's line.
#[tactic(auto, unfolding(crate::specs::Replies::shown_text))]
fn put_shown(out: &mut Vec<u8>, view: &DeviceView) -> Result<(), AllocError>
    ensures { OnOk result (out.new.items ≡ out.old.items ++ shown_text view.now) }
{
    out.extend_from_slice(view.sheet.port.bytes())?;
    out.extend_from_slice(b" ")?;
    put_seen(out, Some(&view.sheet), view.seen)?;
    out.extend_from_slice(b" flags ")?;
    put_flags(out, view.flags())
}

fn put_name(out: &mut Vec<u8>, name: &Line) -> Result<(), AllocError>
    ensures { OnOk result (out.new.items ≡ out.old.items ++ name_text name.now) }
{
    if name.bytes().is_empty() {
        return Ok(());
    }
    out.extend_from_slice(b" ")?;
    out.extend_from_slice(name.bytes())
}

fn is_pending(state: RowState) -> bool
    ensures { result ≡ is_pending state }
{
    match state {
        RowState::Pending => true,
        RowState::Success | RowState::Failed | RowState::NeedsReboot | RowState::Begun => false,
    }
}
