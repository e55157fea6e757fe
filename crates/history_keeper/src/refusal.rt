//! Why a keeper refuses.
use fw_base::NoMemory;
use thiserror::Error;

/// Why a keeper did not do what it was asked.
#[derive(Clone, Copy, Debug, PartialEq, Eq, Error)]
pub enum KeeperRefusal {
    /// It failed, and its count of faults rose.
    #[error("the history's keeper failed")]
    Fault,
    /// Want of memory. Nothing was changed.
    #[error("no memory")]
    NoMemory,
}

impl From<NoMemory> for KeeperRefusal {
    ghost use Rattle.std.specs.Prelude.{◌≡◌};
    ghost use Rattle.history_keeper.specs.declared.refusal.KeeperRefusal.TheVariants as refusals;

    ghost from_gives = { λ _ e. e ≡ refusals.NoMemory };

    fn from(_refused: NoMemory) -> KeeperRefusal {
        KeeperRefusal::NoMemory
    }
}
