//! The answer: an arrangement, or why there is none.
use fw_base::{Listed, Name};
use thiserror::Error;

/// How the plugins run. A plugin is the place of its sheet, from 0.
#[derive(Debug, Drop)]
pub struct Arrangement {
    /// Each plugin once, in the order in which they run.
    pub order: Listed<u32>,
    /// Whether each plugin, in the order of the sheets, is enabled.
    pub enabled: Listed<bool>,
    /// The priority of each plugin, in the order of the sheets.
    pub priority: Listed<u32>,
}

/// Why plugins can't be arranged.
#[derive(Debug, Drop, Error)]
pub enum OrderFault {
    /// The first sheet that repeats the name of an earlier one has this name.
    #[error("two plugins have one name")]
    DuplicateName { name: Name },
    /// Order rules or better-than rules lead from each of these to the next, and from the last to the
    /// first, which is the least.
    #[error("plugins in a cycle")]
    Cycle { names: Listed<Name> },
    #[error("no memory")]
    NoMemory,
}

impl From<fw_base::NoMemory> for OrderFault {
    ghost use Rattle.std.specs.Prelude.{◌≡◌};
    ghost use Rattle.plugin_order.specs.declared.arrangement.OrderFault.TheVariants.{NoMemory};

    ghost from_gives = { λ _ e. e ≡ NoMemory };

    fn from(_refused: fw_base::NoMemory) -> OrderFault {
        OrderFault::NoMemory
    }
}
