//! Plans and their steps.
use fw_base::{Listed, Name};
use guid_ids::DeviceId;
use release_catalogue::ReleaseRef;
use thiserror::Error;

/// The most steps of a plan.
pub const STEPS_MAX: usize = 8192;

/// The most bytes of the tag that a plan's requests begin with.
pub const TAG_MAX: usize = 56;

/// One install: of which release, on which device, and the raw number that the device shows then.
#[derive(Clone, Copy, Debug)]
pub struct PlanStep {
    pub device: DeviceId,
    pub release: ReleaseRef,
    pub raw: u32,
}

/// Installs in their order. Step `k`, counted from 1, asks for its release with the tag `TAG-k` and no
/// flags.
#[derive(Drop)]
pub struct Plan {
    pub tag: Name,
    pub steps: Listed<PlanStep>,
}

/// Why a plan isn't one that can be carried out.
#[derive(Clone, Copy, Debug, PartialEq, Eq, Error)]
pub enum PlanStop {
    /// The first step, counted from 1, that isn't good after those before it.
    #[error("step {step} of the plan can't be carried out")]
    No { step: u32 },
    #[error("no memory")]
    NoMemory,
}

impl From<fw_base::NoMemory> for PlanStop {
    ghost use Rattle.std.specs.Prelude.{◌≡◌};
    ghost use Rattle.update_plans.specs.declared.plan.PlanStop.TheVariants as stops;

    ghost from_gives = { λ _ e. e ≡ stops.NoMemory };

    fn from(_refused: fw_base::NoMemory) -> PlanStop {
        PlanStop::NoMemory
    }
}
