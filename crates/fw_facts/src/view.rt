//! A device as it stands.
ghost use Rattle.std.specs.Prelude.{◌≡◌};
ghost use Rattle.fw_facts.specs.Views.{guids_of, version_of, flags_of};

use crate::flags::{DeviceFlag, DeviceFlags};
use crate::seen::{Mode, Seen};
use crate::sheet::Sheet;
use guid_ids::Guid;
use version_formats::{Version, render};

/// A device: its sheet, what its port shows, and the entry that has a claim on it, if one has. A
/// device that is `Home` is present.
#[derive(Drop)]
pub struct DeviceView {
    pub sheet: Sheet,
    pub seen: Seen,
    pub claim: Option<u32>,
}

impl DeviceView {
    /// The version that the device shows: its raw number in its format. One that isn't present shows
    /// none.
    pub fn version(&self) -> Option<Version>
        ensures { result ≡ version_of self.now }
    {
        match self.seen {
            Seen::Home { raw, .. } => Some(render(self.sheet.format, raw)),
            Seen::Gone | Seen::Stranger => None,
        }
    }

    /// The GUIDs of the side that the device shows. One that isn't present shows none.
    pub fn guids(&self) -> &[Guid]
        ensures { result.now ≡ guids_of self.now }
    {
        match self.seen {
            Seen::Home {
                mode: Mode::Runtime,
                ..
            } => self.sheet.runtime_guids.items(),
            Seen::Home {
                mode: Mode::Bootloader,
                ..
            } => self.sheet.loader_guids.items(),
            Seen::Gone | Seen::Stranger => &[],
        }
    }

    /// The device's flags: those of its sheet, with `IsBootloader` exactly in bootloader mode.
    pub fn flags(&self) -> DeviceFlags
        ensures { result ≡ flags_of self.now }
    {
        match self.seen {
            Seen::Home {
                mode: Mode::Bootloader,
                ..
            } => self.sheet.flags.with(DeviceFlag::IsBootloader),
            Seen::Home {
                mode: Mode::Runtime,
                ..
            }
            | Seen::Gone
            | Seen::Stranger => self.sheet.flags.without(DeviceFlag::IsBootloader),
        }
    }
}
