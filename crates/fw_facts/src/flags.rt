//! The flags of a device.
ghost use Rattle.std.specs.Prelude.{◌≡◌, ◌||◌, ◌&&◌, not, false, true};
ghost use Rattle.fw_facts.specs.Flags.{flag_word, has_flag, no_flags, set_flag, has_all, is_flag};

use std::marker::Model;

/// A flag of a device. The words are those of fwupd's device flags.
#[derive(Clone, Copy, Debug, PartialEq, Eq)]
pub enum DeviceFlag {
    /// The device can't be taken out of the machine.
    Internal,
    /// The device takes updates.
    Updatable,
    /// An update wants the machine on external power.
    RequireAc,
    /// The device is locked against updates.
    Locked,
    /// The device takes a firmware in bootloader mode alone.
    NeedsBootloader,
    /// The device is in bootloader mode. No sheet states it: it is there in that mode, and only then.
    IsBootloader,
    /// A new firmware comes in at the next boot.
    NeedsReboot,
    /// The device leaves its port for a moment during an update.
    WaitForReplug,
    /// The device's parent is updated first.
    InstallParentFirst,
    /// The device is emulated.
    Emulated,
}

/// How many flags there are.
pub const FLAG_COUNT: usize = 10;

impl DeviceFlag {
    /// All flags, in the order in which a device's flags are written.
    pub const ALL: [DeviceFlag; FLAG_COUNT] = [
        DeviceFlag::Internal,
        DeviceFlag::Updatable,
        DeviceFlag::RequireAc,
        DeviceFlag::Locked,
        DeviceFlag::NeedsBootloader,
        DeviceFlag::IsBootloader,
        DeviceFlag::NeedsReboot,
        DeviceFlag::WaitForReplug,
        DeviceFlag::InstallParentFirst,
        DeviceFlag::Emulated,
    ];

    /// The flag's word: fwupd's own.
    pub fn word(self) -> &'static [u8]
        ensures { result.now ≡ flag_word self }
    {
        match self {
            DeviceFlag::Internal => b"internal",
            DeviceFlag::Updatable => b"updatable",
            DeviceFlag::RequireAc => b"require-ac",
            DeviceFlag::Locked => b"locked",
            DeviceFlag::NeedsBootloader => b"needs-bootloader",
            DeviceFlag::IsBootloader => b"is-bootloader",
            DeviceFlag::NeedsReboot => b"needs-reboot",
            DeviceFlag::WaitForReplug => b"wait-for-replug",
            DeviceFlag::InstallParentFirst => b"install-parent-first",
            DeviceFlag::Emulated => b"emulated",
        }
    }
}

/// A set of flags. Contracts see whether each is in it, in the order of `DeviceFlag::ALL`.
#[derive(Clone, Copy, Debug, PartialEq, Eq)]
pub struct DeviceFlags {
    held: [bool; FLAG_COUNT],
}

impl Model for DeviceFlags {
    ghost use Rattle.std.specs.Prelude.{Bool, List};

    ghost Value = { List Bool };

    ghost view = { λ flags. flags.held };

    ghost inverse = { λ held. record { held = held } };
}

impl DeviceFlags {
    /// No flag.
    pub fn empty() -> DeviceFlags
        ensures { result ≡ no_flags }
    {
        DeviceFlags {
            held: [false; FLAG_COUNT],
        }
    }

    /// Whether the flag is in the set.
    pub fn has(self, flag: DeviceFlag) -> bool
        ensures { result ≡ has_flag flag self }
    {
        self.held[flag as usize]
    }

    /// The set with the flag.
    pub fn with(self, flag: DeviceFlag) -> DeviceFlags
        ensures exact { result ≡ set_flag flag true self }
        ensures members { (other : _) → has_flag other result ≡ (is_flag other flag || has_flag other self) }
    {
        let mut held = self.held;
        held[flag as usize] = true;
        DeviceFlags { held }
    }

    /// The set without the flag.
    pub fn without(self, flag: DeviceFlag) -> DeviceFlags
        ensures exact { result ≡ set_flag flag false self }
        ensures members { (other : _) → has_flag other result ≡ (not (is_flag other flag) && has_flag other self) }
    {
        let mut held = self.held;
        held[flag as usize] = false;
        DeviceFlags { held }
    }

    /// Whether all of the other set's flags are in this one.
    pub fn has_all(self, others: DeviceFlags) -> bool
        ensures { result ≡ has_all others self }
    {
        DeviceFlag::ALL
            .iter()
            .all(|flag| !others.has(*flag) || self.has(*flag))
    }
}
