//! Why a boot didn't go well.
use fw_base::NoMemory;
use thiserror::Error;

/// Why a boot of a house didn't go well.
#[derive(Clone, Copy, Debug, Error, PartialEq, Eq)]
pub enum BootStop {
    /// The history couldn't be read. The boards were started, and the boot is off.
    #[error("the history couldn't be read")]
    KeeperFault,
    /// The rows that were loaded are no valid history, or not those of the log. Nothing was put behind the
    /// log. `entry` is the place, counted from 1, of the first row that breaks a rule or is another one
    /// than the log's, or 2^32 - 1 where that is less.
    #[error("the history is another one from row {entry} on")]
    BadHistory { entry: u32 },
    /// There wasn't enough memory.
    #[error("not enough memory")]
    NoMemory,
}

impl From<NoMemory> for BootStop {
    ghost use Rattle.std.specs.Prelude.{◌≡◌};
    ghost use Rattle.daemon_core.specs.declared.booting.BootStop.TheVariants as stops;

    ghost from_gives = { λ _ s. s ≡ stops.NoMemory };

    fn from(_refused: NoMemory) -> BootStop {
        BootStop::NoMemory
    }
}
