//! What clients have out in a boot.
use crate::event::Op;
use crate::request::Request;
use release_catalogue::ReleaseRef;

/// An entry that was taken in this boot and isn't done: whose it is, and the blocks of its payload.
#[derive(Clone, Copy, Debug)]
pub struct LiveEntry {
    pub client: u32,
    pub entry: u32,
    pub blocks: u32,
}

/// Blocks that are held for a client between its ask and its claim: for which request, of which
/// pending entry if it was put off, how many, and for which release.
#[derive(Clone, Copy, Debug)]
pub struct Held {
    pub client: u32,
    pub request: Request,
    pub pending: Option<u32>,
    pub blocks: u32,
    pub release: ReleaseRef,
}

/// A step that began and hasn't ended.
#[derive(Clone, Copy, Debug)]
pub struct OpenStep {
    pub client: u32,
    pub entry: u32,
    pub op: Op,
}
