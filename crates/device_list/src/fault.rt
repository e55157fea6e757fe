//! Why a device is not added.
use guid_ids::DeviceId;
use thiserror::Error;

/// Why a device was not added to a list. The faults stand in their order: the first that holds is
/// answered. Want of memory may take the place of none of the others.
#[derive(Clone, Copy, Debug, PartialEq, Eq, Error)]
pub enum ListFault {
    /// A device with this ID is in the list.
    #[error("there is a device of this ID")]
    Duplicate { device: DeviceId },
    /// The list has its 256 devices.
    #[error("the list of devices is full")]
    Full,
    #[error("no memory")]
    NoMemory,
}

impl From<fw_base::NoMemory> for ListFault {
    ghost use Rattle.std.specs.Prelude.{◌≡◌};
    ghost use Rattle.device_list.specs.declared.fault.ListFault.TheVariants as faults;

    ghost from_gives = { λ _ e. e ≡ faults.NoMemory };

    fn from(_refused: fw_base::NoMemory) -> ListFault {
        ListFault::NoMemory
    }
}
