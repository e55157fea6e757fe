//! A chain with the number of its blocks.
ghost use Rattle.std.specs.Prelude.{◌≡◌, ◌+◌, ◌<◌, ◌≤◌, ◌^◌, [], length, take, OnOk, OnErr};
ghost use Rattle.std.specs.List.{concat};
ghost use Rattle.sha2.specs.Sha256.{sha256};
ghost use Rattle.block_pool.specs.Bytes.{AreBlocks, first_block, unwound};
ghost use Rattle.block_pool.specs.Moves.{first_overwritten};

use crate::chain::Chain;
use fw_base::{Digest, NoMemory};
use std::alloc::Global;

/// A chain and how many blocks it has. It can be let go of; what must be spent is built over it.
#[derive(Drop)]
pub(crate) struct Stack {
    blocks: Chain,
    count: u32,
    // Each block has 4,096 bytes.
    ghost whole: { AreBlocks blocks },
    ghost counted: { length blocks ≡ count },
}

impl Stack {
    /// No block.
    pub(crate) fn empty() -> Stack
        ensures { result.blocks ≡ [] }
    {
        Stack {
            blocks: Chain::empty(),
            count: 0,
        }
    }

    /// How many blocks there are.
    pub(crate) fn count(&self) -> u32
        ensures { result ≡ self.now.count }
    {
        self.count
    }

    /// Makes one more block.
    pub(crate) fn grow(&mut self, alloc: Global) -> Result<(), NoMemory>
        requires { self.old.count + 1 < 2 ^ 32 }
        ensures made { OnOk result (self.new.count ≡ self.old.count + 1) }
        ensures unchanged { OnErr result (self.new.count ≡ self.old.count) }
    {
        self.blocks.grow(alloc)?;
        self.count += 1;
        Ok(())
    }

    /// Moves the first block of one stack to the front of another.
    pub(crate) fn move_first(&mut self, to: &mut Stack)
        requires there { 0 < self.old.count }
        requires room { to.old.count + 1 < 2 ^ 32 }
        ensures taken { self.new.count + 1 ≡ self.old.count }
        ensures given { to.new.count ≡ to.old.count + 1 }

        // One stack wound up over the other stays the same row of blocks, whichever is in front.
        ensures forth { unwound to.new.blocks self.new.blocks ≡ unwound to.old.blocks self.old.blocks }
        ensures back { unwound self.new.blocks to.new.blocks ≡ unwound self.old.blocks to.old.blocks }
    {
        self.blocks.move_first(&mut to.blocks);
        self.count -= 1;
        to.count += 1;
    }

    /// Writes a piece into the first block.
    pub(crate) fn write_first(&mut self, at: usize, piece: &[u8])
        requires { at + length piece.now ≤ 4096 }
        ensures { self.new.blocks ≡ first_overwritten self.old.blocks at piece.now }
    {
        self.blocks.write_first(at, piece);
    }

    /// The bytes of the first block, none where there is no block.
    pub(crate) fn front(&self) -> &[u8]
        ensures { result.now ≡ first_block self.now.blocks }
    {
        self.blocks.front()
    }

    /// The SHA-256 of the first `len` bytes.
    pub(crate) fn digest_of_first(&self, len: u32) -> Digest
        ensures { result ≡ sha256 (take len (concat self.now.blocks)) }
    {
        self.blocks.digest_of_first(len as usize)
    }
}
