//! Device problems.
ghost use Rattle.std.specs.Prelude.{◌≡◌, None, find};
ghost use Rattle.std.specs.Option.{option_copied};
ghost use Rattle.fw_facts.specs.Problems.{has_problem, hindrance};

use crate::flags::DeviceFlag;
use crate::machine::MachineFacts;
use crate::view::DeviceView;

/// Why a device can't be updated just now, in the order in which problems are looked for. The words
/// are those of fwupd's device problems.
#[derive(Clone, Copy, Debug, PartialEq, Eq)]
pub enum Problem {
    /// The machine's battery is too low.
    SystemPowerTooLow,
    /// The device can't be reached.
    Unreachable,
    /// The device's battery is too low.
    PowerTooLow,
    /// An update of the device waits for the next boot.
    UpdatePending,
    /// The device wants external power, and the machine has none.
    RequireAcPower,
    /// The device wants the lid open, and it is closed.
    LidIsClosed,
    /// The device is being updated.
    UpdateInProgress,
}

impl Problem {
    /// All problems, in their order.
    pub const ALL: [Problem; 7] = [
        Problem::SystemPowerTooLow,
        Problem::Unreachable,
        Problem::PowerTooLow,
        Problem::UpdatePending,
        Problem::RequireAcPower,
        Problem::LidIsClosed,
        Problem::UpdateInProgress,
    ];

    /// The problems that refuse a request. The other two are shown alone: a request meets an entry
    /// that waits or is live as such.
    pub const REFUSING: [Problem; 5] = [
        Problem::SystemPowerTooLow,
        Problem::Unreachable,
        Problem::PowerTooLow,
        Problem::RequireAcPower,
        Problem::LidIsClosed,
    ];

    /// Whether the device has the problem. `pending` is the entry of its row that waits for the next
    /// boot, where it has one.
    pub fn holds(self, machine: &MachineFacts, view: &DeviceView, pending: Option<u32>) -> bool
        ensures { result ≡ has_problem machine.now view.now pending self }
    {
        match self {
            Problem::SystemPowerTooLow => machine.power_low,
            Problem::Unreachable => view.sheet.unreachable,
            Problem::PowerTooLow => view.sheet.power_low,
            Problem::UpdatePending => pending.is_some(),
            Problem::RequireAcPower => view.flags().has(DeviceFlag::RequireAc) && !machine.on_ac,
            Problem::LidIsClosed => view.sheet.lid && machine.lid_closed,
            Problem::UpdateInProgress => view.claim.is_some(),
        }
    }

    /// The first problem of the device that refuses a request.
    pub fn first_refusing(machine: &MachineFacts, view: &DeviceView) -> Option<Problem>
        ensures { result ≡ hindrance machine.now view.now }
    {
        first_of(&Problem::REFUSING, machine, view).copied()
    }
}

// The first of the problems that the device has.
fn first_of<'a>(
    problems: &'a [Problem],
    machine: &MachineFacts,
    view: &DeviceView,
) -> Option<&'a Problem>
    ensures { option_copied result ≡ find (has_problem machine.now view.now None) problems.now }
{
    problems
        .iter()
        .find(|problem| problem.holds(machine, view, None))
}
