//! What is known of the machine, and the rules of plugins that look at it.
ghost use Rattle.std.specs.Prelude.{◌≡◌};
ghost use Rattle.fw_facts.specs.Machines.{test_holds, rule_holds};

use crate::flags::DeviceFlags;
use crate::view::DeviceView;
use fw_base::{Listed, Name};
use guid_ids::Guid;
use version_formats::Version;

/// The machine that the daemon runs on.
#[derive(Drop)]
pub struct MachineFacts {
    /// What runs on it, by AppStream ID, with its version. The daemon's own version stands first,
    /// under `org.freedesktop.fwupd`.
    pub ids: Listed<(Name, Version)>,
    /// Its hardware IDs.
    pub hardware: Listed<Guid>,
    /// Whether it runs on external power.
    pub on_ac: bool,
    /// Whether its battery is too low for an update.
    pub power_low: bool,
    /// Whether its lid is closed.
    pub lid_closed: bool,
}

/// A test of the machine.
#[derive(Clone, Copy, Debug, PartialEq, Eq)]
pub enum MachineTest {
    Always,
    /// Without external power.
    OnBattery,
    /// With a battery that is too low.
    PowerLow,
    LidClosed,
}

impl MachineTest {
    /// Whether the test passes on the machine.
    pub fn holds(self, machine: &MachineFacts) -> bool
        ensures { result ≡ test_holds self machine.now }
    {
        match self {
            MachineTest::Always => true,
            MachineTest::OnBattery => !machine.on_ac,
            MachineTest::PowerLow => machine.power_low,
            MachineTest::LidClosed => machine.lid_closed,
        }
    }
}

/// What keeps a plugin from letting a device be updated: the machine passes the test, and the device
/// has all of the flags.
#[derive(Clone, Copy, Debug, PartialEq, Eq)]
pub struct VetoRule {
    pub when: MachineTest,
    pub flags: DeviceFlags,
}

impl VetoRule {
    /// Whether the rule forbids an update of the device.
    pub fn holds(&self, machine: &MachineFacts, view: &DeviceView) -> bool
        ensures { result ≡ rule_holds machine.now view.now self.now }
    {
        self.when.holds(machine) && view.flags().has_all(self.flags)
    }
}
