//! Why a call put no event of its own behind the log.
ghost use Rattle.std.specs.Prelude.{◌≡◌};

use fw_base::NoMemory;
use thiserror::Error;

/// Why a call of the daemon put no event of its own behind the log.
#[derive(Clone, Copy, Debug, Error, PartialEq, Eq)]
pub enum Stop {
    /// The boot is off: its power was cut, in this turn or before, or the history couldn't be read or
    /// written.
    #[error("the boot is off")]
    Off,
    /// There wasn't enough memory. Nothing changed.
    #[error("not enough memory")]
    NoMemory,
}

impl From<NoMemory> for Stop {
    ghost use Rattle.std.specs.Prelude.{◌≡◌};
    ghost use Rattle.daemon_core.specs.declared.stop.Stop.TheVariants as stops;

    ghost from_gives = { λ _ s. s ≡ stops.NoMemory };

    fn from(_refused: NoMemory) -> Stop {
        Stop::NoMemory
    }
}
