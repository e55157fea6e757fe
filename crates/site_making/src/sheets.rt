//! The boards' sheets of a generated site.
ghost use Rattle.std.specs.Prelude.{◌≡◌, ◌≤◌, ◌∷◌, [], IfOk};
ghost use Rattle.site_making.specs.Made.{made_port, made_sheet, board_guid};

use crate::words::{board_guid, name, numbered, numbered_name};
use fw_base::{Line, Listed, Name, NoMemory};
use fw_facts::{DeviceFlag, DeviceFlags, Sheet};
use guid_ids::{Guid, device_id};
use std::alloc::Global;
use version_formats::Format;

/// The most bytes of a payload.
const SIZE_MAX: u32 = 4_194_304;

/// The port of a board.
pub(crate) fn made_port(alloc: Global, board: u32) -> Result<Name, NoMemory>
    requires { board ≤ 256 }
    ensures { IfOk result (λ port. port ≡ made_port board) }
{
    numbered_name(alloc, b'b', board)
}

/// The sheet of a board.
pub(crate) fn made_sheet(alloc: Global, board: u32) -> Result<Sheet, NoMemory>
    requires { board ≤ 256 }
    ensures { IfOk result (λ sheet. sheet ≡ made_sheet board) }
{
    let physical = numbered(alloc, b'p', board)?;
    Ok(Sheet {
        port: made_port(alloc, board)?,
        device: device_id(&physical, None),
        priority: 0,
        plugin: name(b"flash"),
        name: Line::empty(),
        vendor: Line::empty(),
        vendor_ids: Listed::of(Vec::new(alloc)),
        runtime_guids: board_guids(alloc)?,
        loader_guids: board_guids(alloc)?,
        counterparts: Listed::of(Vec::new(alloc)),
        flags: DeviceFlags::empty().with(DeviceFlag::Updatable),
        format: Format::Triplet,
        protocol: None,
        bootloader: None,
        size_min: 0,
        size_max: SIZE_MAX,
        duration: 0,
        parent: None,
        unreachable: false,
        power_low: false,
        lid: false,
    })
}

/// The GUIDs of each board.
pub(crate) fn board_guids(alloc: Global) -> Result<Listed<Guid>, NoMemory>
    ensures { IfOk result (λ guids. guids ≡ board_guid ∷ []) }
{
    Ok(Listed::of(Vec::from_slice(alloc, &[board_guid()])?))
}
