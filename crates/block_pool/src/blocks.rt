//! Blocks that are out of the pool.
ghost use Rattle.std.specs.Prelude.{◌≡◌, ◌+◌, ◌*◌, ◌<◌, ◌≤◌, ◌↔◌, ◌^◌, length, take, IsOk, IfOk, IfErr};
ghost use Rattle.std.specs.List.{concat};
ghost use Rattle.sha2.specs.Sha256.{sha256};
ghost use Rattle.block_pool.specs.Bytes.{overwritten, unwound};

use crate::BLOCK_BYTES;
use crate::payload::{BadBlocks, Payload};
use crate::stack::Stack;
use fw_base::Digest;
use std::marker::Model;

/// Blocks of 4,096 bytes, in order. They must be spent: given back to a pool, or sealed.
///
/// Contracts see how many they are and the bytes in them. What stands in blocks fresh from a pool is
/// left open.
pub struct Blocks {
    // The blocks before the one that was written last, wound up: so writing on is quick.
    passed: Stack,
    rest: Stack,
    count: u32,
    ghost counted: { passed.count + rest.count ≡ count },
    ghost sized: { length (concat (unwound passed.blocks rest.blocks)) ≡ 4096 * count },
}

impl Model for Blocks {
    ghost use Rattle.block_pool.specs.Views.{BlockBytes};

    ghost Value = { BlockBytes };

    ghost use Rattle.std.specs.List.{concat};
    ghost use Rattle.block_pool.specs.Bytes.{unwound};

    ghost view = { λ a. record { count = a.count; bytes = concat (unwound a.passed.blocks a.rest.blocks); sized = a.sized } };
}

impl Blocks {
    /// The blocks of a stack.
    pub(crate) fn of(stack: Stack) -> Blocks
        ensures count { result.count ≡ stack.count }
        ensures bytes { result.bytes ≡ concat stack.blocks }
    {
        let count = stack.count();
        Blocks {
            passed: Stack::empty(),
            rest: stack,
            count,
        }
    }

    /// The blocks as one stack again.
    pub(crate) fn into_stack(self) -> Stack
        ensures count { result.count ≡ self.count }
        ensures bytes { concat result.blocks ≡ self.bytes }
    {
        let count = self.count();
        let Blocks {
            passed: mut from,
            rest: mut onto,
            count: _,
        } = self;
        'wind: for _ in 0..count - onto.count() {
            from.move_first(&mut onto);
        }
        onto
    }

    /// How many blocks there are.
    pub fn count(&self) -> u32
        ensures { result ≡ self.now.count }
    {
        self.count
    }

    /// Writes a piece from this byte on, across blocks where it is longer. No other byte changes.
    pub fn fill(&mut self, at: u32, piece: &[u8])
        requires { at + length piece.now ≤ 4096 * self.old.count }
        ensures count { self.new.count ≡ self.old.count }
        ensures written { self.new.bytes ≡ overwritten self.old.bytes at piece.now }
    {
        // Where the count is read, it is known to be below 2^32, so that no sum below overflows.
        let _count = self.count;
        let mut at = at as usize;
        let mut left = piece;
        'pieces: while !left.is_empty() {
            let start = at % BLOCK_BYTES;
            let (now, later) = left.split_at(left.len().min(BLOCK_BYTES - start));
            self.write_block(at / BLOCK_BYTES, start, now);
            at += now.len();
            left = later;
        }
    }

    /// Writes a piece into one block.
    fn write_block(&mut self, block: usize, start: usize, piece: &[u8])
        requires there { block < self.old.count }
        requires fits { start + length piece.now ≤ 4096 }
        ensures count { self.new.count ≡ self.old.count }
        ensures written { self.new.bytes ≡ overwritten self.old.bytes (4096 * block + start) piece.now }
    {
        let _count = self.count;
        wind_to(&mut self.passed, &mut self.rest, block);
        self.rest.write_first(start, piece);
    }

    /// Makes the payload of the first `len` bytes, where they have this digest.
    ///
    /// Where they have another, the answer is that one, and the blocks as they were.
    pub fn seal(self, len: u32, digest: &Digest) -> Result<Payload, BadBlocks>
        requires { len ≤ 4096 * self.count }
        ensures sealed { IsOk result ↔ (sha256 (take len self.bytes) ≡ digest.now) }
        ensures bytes { IfOk result (λ payload. payload.bytes ≡ take len self.bytes) }
        ensures digest { IfOk result (λ payload. payload.digest ≡ digest.now) }
        ensures count { IfOk result (λ payload. payload.count ≡ self.count) }
        ensures found { IfErr result (λ bad. bad.found ≡ sha256 (take len self.bytes)) }
        ensures handed_back { IfErr result (λ bad. bad.blocks ≡ self) }
    {
        let stack = self.into_stack();
        let found = stack.digest_of_first(len);
        if found == *digest {
            Ok(Payload::of(stack, len, found))
        } else {
            Err(BadBlocks {
                found,
                blocks: Blocks::of(stack),
            })
        }
    }
}

/// Winds a chain that is partly wound up to where so many blocks are passed.
fn wind_to(passed: &mut Stack, rest: &mut Stack, place: usize)
    requires there { place ≤ passed.old.count + rest.old.count }
    requires fits { passed.old.count + rest.old.count < 2 ^ 32 }
    ensures place { passed.new.count ≡ place }
    ensures rest { passed.new.count + rest.new.count ≡ passed.old.count + rest.old.count }
    ensures same { unwound passed.new.blocks rest.new.blocks ≡ unwound passed.old.blocks rest.old.blocks }
{
    'on: while (passed.count() as usize) < place {
        rest.move_first(passed);
    }
    'back: while passed.count() as usize > place {
        passed.move_first(rest);
    }
}
