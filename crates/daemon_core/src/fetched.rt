//! What a fetch gave.
ghost use Rattle.std.specs.Prelude.{◌≡◌, false, IfErr, IfOk};
ghost use Rattle.daemon_core.specs.Fetches.{raw_number, whole_note};

use block_pool::{Blocks, Payload};
use emulated_boards::Image;
use fw_base::Digest;
use update_log::FetchNote;

/// What the fetch of a payload gave. It must be spent: the blocks go on in it.
pub enum Fetched {
    /// The payload, with the digest and the size that were asked for.
    Whole(Payload),
    /// Nothing lies under the digest.
    Missing(Blocks),
    /// Another number of bytes than the size lies there, or came.
    Length { found: u64, blocks: Blocks },
    /// The bytes have another SHA-256 than the digest.
    Mismatch { found: Digest, blocks: Blocks },
    /// A call of the shelf failed.
    ShelfFault(Blocks),
}

impl Fetched {
    ghost use Rattle.daemon_core.specs.declared.fetched.Fetched.{Fetched};
    ghost use Rattle.daemon_core.specs.Fetches.{block_count, is_payload, note_of};

    /// The blocks alone, for a caller that wants no payload.
    pub fn into_blocks(self) -> Blocks
        ensures { result.count ≡ block_count self }
    {
        match self {
            Fetched::Whole(payload) => payload.into_blocks(),
            Fetched::Missing(blocks) | Fetched::ShelfFault(blocks) => blocks,
            Fetched::Length { found: _, blocks } => blocks,
            Fetched::Mismatch { found: _, blocks } => blocks,
        }
    }

    // The payload, where there is one.
    pub(crate) fn into_payload(self) -> Result<Payload, Fetched>
        ensures whole { IfOk result (λ payload. self ≡ Fetched.Whole payload) }
        ensures other { IfErr result (λ other. (other ≡ self) × (is_payload other ≡ false)) }
    {
        match self {
            Fetched::Whole(payload) => Ok(payload),
            Fetched::Missing(blocks) => Err(Fetched::Missing(blocks)),
            Fetched::Length { found, blocks } => Err(Fetched::Length { found, blocks }),
            Fetched::Mismatch { found, blocks } => Err(Fetched::Mismatch { found, blocks }),
            Fetched::ShelfFault(blocks) => Err(Fetched::ShelfFault(blocks)),
        }
    }

    /// What the log says of it.
    pub fn note(&self) -> FetchNote
        ensures { result ≡ note_of self.now }
    {
        match self {
            Fetched::Whole(payload) => whole_note(payload),
            Fetched::Missing(_) => FetchNote::Missing,
            Fetched::Length { found, blocks: _ } => FetchNote::Length { found: *found },
            Fetched::Mismatch { found, blocks: _ } => FetchNote::Mismatch { found: *found },
            Fetched::ShelfFault(_) => FetchNote::ShelfFault,
        }
    }
}

/// What the log says of a whole payload.
pub(crate) fn whole_note(payload: &Payload) -> FetchNote
    ensures { result ≡ whole_note payload.now }
{
    FetchNote::Whole {
        digest: payload.digest(),
        len: payload.len(),
        raw: raw_number(payload),
    }
}

// The raw version of a payload, and 0 of an image that is no good.
fn raw_number(payload: &Payload) -> u32
    ensures { result ≡ raw_number payload.now }
{
    Image::of_payload(payload).raw.unwrap_or(0)
}
