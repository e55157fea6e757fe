//! A board's fixed description.
ghost use Rattle.std.specs.Prelude.{◌≡◌};
ghost use Rattle.std.specs.Result.{IfOk};

use crate::flags::DeviceFlags;
use fw_base::{Line, Listed, Name, NoMemory};
use guid_ids::{DeviceId, Guid};
use std::alloc::Global;
use version_formats::{Format, Version};

/// What is fixed of a board.
#[derive(Drop)]
pub struct Sheet {
    /// The port that it stands in.
    pub port: Name,
    pub device: DeviceId,
    /// Of two boards with one device ID, the one of the higher priority is the device.
    pub priority: u32,
    /// The plugin that updates it.
    pub plugin: Name,
    pub name: Line,
    pub vendor: Line,
    pub vendor_ids: Listed<Name>,
    /// The GUIDs that it has in runtime mode.
    pub runtime_guids: Listed<Guid>,
    /// The GUIDs that it has in bootloader mode.
    pub loader_guids: Listed<Guid>,
    /// The GUIDs that it may come back with during an update.
    pub counterparts: Listed<Guid>,
    pub flags: DeviceFlags,
    /// How its version is written.
    pub format: Format,
    pub protocol: Option<Name>,
    /// The version of its boot loader, where it states one.
    pub bootloader: Option<Version>,
    /// The least and the largest size of a payload, in bytes.
    pub size_min: u32,
    pub size_max: u32,
    /// How long an update takes, in seconds.
    pub duration: u32,
    /// The port of the board that it is attached to.
    pub parent: Option<Name>,
    /// Whether it can't be reached.
    pub unreachable: bool,
    /// Whether its battery is too low for an update.
    pub power_low: bool,
    /// Whether it wants the lid open.
    pub lid: bool,
}

impl Sheet {
    /// An equal sheet.
    pub fn copy(&self, alloc: Global) -> Result<Sheet, NoMemory>
        ensures { IfOk result (λ copy. copy ≡ self.now) }
    {
        Ok(Sheet {
            port: self.port,
            device: self.device,
            priority: self.priority,
            plugin: self.plugin,
            name: self.name,
            vendor: self.vendor,
            vendor_ids: copied(alloc, &self.vendor_ids)?,
            runtime_guids: copied(alloc, &self.runtime_guids)?,
            loader_guids: copied(alloc, &self.loader_guids)?,
            counterparts: copied(alloc, &self.counterparts)?,
            flags: self.flags,
            format: self.format,
            protocol: self.protocol,
            bootloader: self.bootloader,
            size_min: self.size_min,
            size_max: self.size_max,
            duration: self.duration,
            parent: self.parent,
            unreachable: self.unreachable,
            power_low: self.power_low,
            lid: self.lid,
        })
    }
}

fn copied<T: Copy + Drop>(alloc: Global, list: &Listed<T>) -> Result<Listed<T>, NoMemory>
    ensures { IfOk result (λ copy. copy ≡ list.now) }
{
    Ok(Listed::of(Vec::from_slice(alloc, list.items())?))
}
