//! Images of a board, and payloads of them.
ghost use Rattle.std.specs.Prelude.{◌≡◌, ◌+◌};

use block_pool::{BadBlocks, Payload, Pool};
use sha2::{Digest as _, Sha256};
use std::process::Abort;

/// The image that a board has at first.
pub const OLD: &[u8] = b"EMU1 00010000\n";

/// The image that is written.
pub const NEW: &[u8] = b"EMU1 00010100\n";

/// A payload of these bytes, of one block of the pool.
pub fn sealed(rt: &impl Abort, pool: &mut Pool, bytes: &[u8]) -> Payload
    ensures conserved { pool.new.free + result.count ≡ pool.old.free }
    ensures capacity { pool.new.capacity ≡ pool.old.capacity }
{
    assert!(rt; bytes.len() <= 4096);
    let digest = Sha256::digest(bytes);
    let mut blocks = pool.take(1).expect(rt, "a block");
    blocks.fill(0, bytes);
    match blocks.seal(bytes.len() as u32, &digest) {
        Ok(payload) => payload,
        Err(BadBlocks { found: _, blocks }) => {
            pool.give(blocks);
            panic!(rt; "the bytes have this digest")
        }
    }
}
