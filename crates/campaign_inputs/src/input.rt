//! Reads the input, and the site that it states.
ghost use Rattle.std.specs.Prelude.{◌≡◌, ◌⊎◌, ◌≤◌, IsErrOf, IfOk};
ghost use Rattle.outer_traits.specs.Faults.{Rose};
ghost use Rattle.campaign_inputs.specs.Inputs.{HeardInput, TellsSite, stated};
ghost use Rattle.campaign_inputs.specs.Limits.{CanBeRun};

use outer_traits::{ReadStop, Source, read_whole};
use release_catalogue::{Place, Reason};
use site_files::{SiteFault, read_site};
use site_types::Site;
use std::alloc::Global;

/// The most bytes of a document.
pub const DOCUMENT_MAX: usize = 16_777_216;

/// Why there is no site.
#[derive(Clone, Copy, Debug)]
pub enum InputStop {
    SourceFault,
    /// More bytes came than a document may have.
    TooLong,
    /// The bytes are no document: the first fault and its place.
    Document { place: Place, reason: Reason },
    NoMemory,
}

/// Reads the whole input, and the site that it states. A campaign can be made of that site, and run.
pub fn read_input<S: Source>(alloc: Global, source: &mut S) -> Result<Site, InputStop>
    ensures heard { HeardInput result (S.left source.old) (S.left source.new) }
    ensures limits { IfOk result CanBeRun }
    ensures fault { IsErrOf result InputStop.SourceFault → Rose (S.faults source.old) (S.faults source.new) }
    ensures quiet { IsErrOf result InputStop.SourceFault ⊎ (S.faults source.new ≡ S.faults source.old) }
    ensures counts { S.faults source.old ≤ S.faults source.new }
{
    match read_whole(alloc, source, DOCUMENT_MAX) {
        Ok(bytes) => site(alloc, &bytes),
        Err(ReadStop::SourceFault) => Err(InputStop::SourceFault),
        Err(ReadStop::TooLong) => Err(InputStop::TooLong),
        Err(ReadStop::NoMemory) => Err(InputStop::NoMemory),
    }
}

/// The site that bytes state.
fn site(alloc: Global, bytes: &[u8]) -> Result<Site, InputStop>
    ensures told { TellsSite (stated bytes.now) result }
{
    match read_site(alloc, bytes) {
        Ok(site) => Ok(site),
        Err(SiteFault::Document { place, reason }) => Err(InputStop::Document { place, reason }),
        Err(SiteFault::NoMemory) => Err(InputStop::NoMemory),
    }
}
