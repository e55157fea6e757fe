//! How a command ends that reads a document.
use plugin_order::OrderFault;
use release_catalogue::{Place, Reason};

/// How a command ended that reads a document and runs no campaign.
#[derive(Debug, Drop)]
pub enum Ended {
    /// The input was read to its end, and the output was written whole.
    Done,
    /// The input couldn't be read.
    SourceFault,
    /// The input is longer than a document may be.
    TooLong,
    /// The input is no document: what is wrong with it first, and where.
    Document { place: Place, reason: Reason },
    /// The plugins can't be arranged. Want of memory is none of these faults.
    Plugins(OrderFault),
    /// The output couldn't be written.
    SinkFault,
    /// There was no memory.
    NoMemory,
}
