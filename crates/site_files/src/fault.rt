//! Why a text is no document.
ghost use Rattle.std.specs.Prelude.{◌≡◌};
ghost use Rattle.site_files.specs.Told.{told_stop};

use release_catalogue::{Place, ReadStop, Reason};
use thiserror::Error;

/// Why a text is no document.
#[derive(Clone, Copy, Debug, Error)]
pub enum SiteFault {
    /// The first fault: its place in the document, and what is wrong there.
    #[error("{place}: {reason}")]
    Document { place: Place, reason: Reason },
    /// No memory was to be had.
    #[error("no memory")]
    NoMemory,
}

impl SiteFault {
    /// Why reading stopped, with the place's words spelled out.
    pub fn from_stop(stop: ReadStop) -> SiteFault
        ensures { result ≡ told_stop stop }
    {
        match stop {
            ReadStop::At(fault) => SiteFault::Document {
                place: fault.spot.place(),
                reason: fault.reason,
            },
            ReadStop::NoMemory => SiteFault::NoMemory,
        }
    }
}
