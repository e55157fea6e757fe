//! Installs: the fetch of a payload from a shelf into blocks.
//!
//! What a fetch finds follows from the file under the digest alone, wherever the shelf tells its
//! files, and no payload comes out of it that doesn't have the digest and the size asked for. Nothing
//! here takes memory.
#![tactic(auto)]

mod fetching;

pub use fetching::{fetch, fetch_blocks};
