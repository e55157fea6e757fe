//! Why a value is no catalogue.
ghost use Rattle.std.specs.Prelude.{◌≡◌};
ghost use Rattle.release_catalogue.specs.Faults.{told_stop};

use crate::place::Place;
use crate::reason::Reason;
use crate::spot::ReadStop;
use thiserror::Error;

/// Why a value is no catalogue.
#[derive(Clone, Copy, Debug, Error)]
pub enum CatalogueFault {
    /// The first fault: its place in the document, and what is wrong there.
    #[error("{place}: {reason}")]
    At { place: Place, reason: Reason },
    /// No memory was to be had.
    #[error("no memory")]
    NoMemory,
}

impl CatalogueFault {
    /// Why reading stopped, with the place's words spelled out.
    pub fn from_stop(stop: ReadStop) -> CatalogueFault
        ensures { result ≡ told_stop stop }
    {
        match stop {
            ReadStop::At(fault) => CatalogueFault::At {
                place: fault.spot.place(),
                reason: fault.reason,
            },
            ReadStop::NoMemory => CatalogueFault::NoMemory,
        }
    }
}
