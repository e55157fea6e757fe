//! Why a report stops.
ghost use Rattle.std.specs.Prelude.{◌≡◌};
ghost use Rattle.report_text.specs.declared.stop.ReportStop.TheVariants.{NoMemory, SinkFault};

use outer_traits::Failed;
use std::alloc::AllocError;
use thiserror::Error;

/// Why a report was not written to its end.
#[derive(Clone, Copy, Debug, Error, PartialEq, Eq)]
pub enum ReportStop {
    #[error("the report couldn't be written")]
    SinkFault,
    #[error("no memory for a line of the report")]
    NoMemory,
}

impl From<AllocError> for ReportStop {
    ghost from_gives = { λ _ e. e ≡ NoMemory };

    fn from(_refused: AllocError) -> ReportStop {
        ReportStop::NoMemory
    }
}

impl From<Failed> for ReportStop {
    ghost from_gives = { λ _ e. e ≡ SinkFault };

    fn from(_failed: Failed) -> ReportStop {
        ReportStop::SinkFault
    }
}

impl From<fw_base::NoMemory> for ReportStop {
    ghost from_gives = { λ _ e. e ≡ NoMemory };

    fn from(_refused: fw_base::NoMemory) -> ReportStop {
        ReportStop::NoMemory
    }
}
