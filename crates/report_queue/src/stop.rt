//! Why the sending stops.
ghost use Rattle.std.specs.Prelude.{◌≡◌};
ghost use Rattle.report_queue.specs.declared.stop.SendStop.TheVariants.{NoMemory, SinkFault};
ghost use Rattle.report_queue.specs.Stops.{stop_of};

use history_keeper::KeeperRefusal;
use outer_traits::Failed;
use std::alloc::AllocError;
use thiserror::Error;

/// Why the reports were not sent to their end.
#[derive(Clone, Copy, Debug, Error, PartialEq, Eq)]
pub enum SendStop {
    /// The output failed, and its count of faults rose.
    #[error("a report couldn't be written")]
    SinkFault,
    /// The keeper of marks failed, and its count of faults rose.
    #[error("the keeper of marks failed")]
    KeeperFault,
    /// Want of memory.
    #[error("no memory for a report")]
    NoMemory,
}

impl From<Failed> for SendStop {
    ghost from_gives = { λ _ e. e ≡ SinkFault };

    fn from(_failed: Failed) -> SendStop {
        SendStop::SinkFault
    }
}

impl From<KeeperRefusal> for SendStop {
    ghost from_gives = { λ refusal e. e ≡ stop_of refusal };

    fn from(refusal: KeeperRefusal) -> SendStop {
        match refusal {
            KeeperRefusal::Fault => SendStop::KeeperFault,
            KeeperRefusal::NoMemory => SendStop::NoMemory,
        }
    }
}

impl From<AllocError> for SendStop {
    ghost from_gives = { λ _ e. e ≡ NoMemory };

    fn from(_refused: AllocError) -> SendStop {
        SendStop::NoMemory
    }
}

impl From<fw_base::NoMemory> for SendStop {
    ghost from_gives = { λ _ e. e ≡ NoMemory };

    fn from(_refused: fw_base::NoMemory) -> SendStop {
        SendStop::NoMemory
    }
}
