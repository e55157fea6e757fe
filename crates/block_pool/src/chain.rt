//! A chain of blocks, each in a box of its own, so that a block moves without memory.
ghost use Rattle.std.specs.Prelude.{◌≡◌, ◌+◌, ◌≤◌, [], length, take, OnOk, OnErr};
ghost use Rattle.std.specs.List.{concat};
ghost use Rattle.sha2.specs.Sha256.{sha256};
ghost use Rattle.block_pool.specs.Bytes.{first_block};
ghost use Rattle.block_pool.specs.Moves.{AddsFirst, MovesFirst, first_overwritten};

use crate::BLOCK_BYTES;
use fw_base::Digest;
use sha2::{Digest as _, Sha256};
use std::alloc::{AllocError, Global};
use std::marker::Model;
use std::mem;

/// Blocks, one behind the other. Contracts see the list of the blocks, each the list of its bytes.
#[cycle(chain)]
pub(crate) struct Chain {
    link: Link,
}

#[cycle(chain)]
#[derive(Drop)]
enum Link {
    End,
    More(Box<Block>),
}

#[cycle(chain)]
#[derive(Drop)]
struct Block {
    bytes: [u8; BLOCK_BYTES],
    rest: Chain,
}

impl Model for Chain {
    ghost use Rattle.std.specs.Prelude.{List, ℕ, length};

    ghost Value = { List (List ℕ) };

    ghost use Rattle.block_pool.specs.Chains.{linked};

    ghost view = { λ a. linked a.link };

    ghost size = { length };

    ghost use Rattle.std.proofs.Common.{arith};

    ghost size_decreases = { λ a h. Prim.grind arith };
}

impl Drop for Chain {
    // A loop: a chain may be longer than the stack is deep.
    fn drop(mut self) {
        loop {
            match self {
                Chain { link: Link::End } => return,
                Chain {
                    link: Link::More(block),
                } => {
                    let Block { bytes: _, rest } = Box::into_inner(block);
                    self = rest;
                }
            }
        }
    }
}

impl Chain {
    /// No block.
    pub(crate) fn empty() -> Chain
        ensures { result ≡ [] }
    {
        Chain { link: Link::End }
    }

    /// Makes one more block, in front. This alone takes memory.
    pub(crate) fn grow(&mut self, alloc: Global) -> Result<(), AllocError>
        ensures made { OnOk result (AddsFirst self.old self.new) }
        ensures unchanged { OnErr result (self.new ≡ self.old) }
    {
        let mut block = Box::new(
            alloc,
            Block {
                bytes: [0; BLOCK_BYTES],
                rest: Chain::empty(),
            },
        )?;
        mem::swap(self, &mut block.rest);
        self.link = Link::More(block);
        Ok(())
    }

    /// Moves the first block of one chain to the front of another.
    pub(crate) fn move_first(&mut self, to: &mut Chain)
        ensures { MovesFirst self.old to.old self.new to.new }
    {
        match mem::replace(&mut self.link, Link::End) {
            Link::End => {}
            Link::More(mut block) => {
                mem::swap(self, &mut block.rest);
                mem::swap(to, &mut block.rest);
                to.link = Link::More(block);
            }
        }
    }

    /// Writes a piece into the first block.
    pub(crate) fn write_first(&mut self, at: usize, piece: &[u8])
        requires { at + length piece.now ≤ 4096 }
        ensures { self.new ≡ first_overwritten self.old at piece.now }
    {
        match &mut self.link {
            Link::End => {}
            Link::More(block) => {
                let bytes = &mut block.bytes;
                bytes[at..at + piece.len()].copy_from_slice(piece);
            }
        }
    }

    /// The bytes of the first block, none where there is no block.
    pub(crate) fn front(&self) -> &[u8]
        ensures { result.now ≡ first_block self.now }
    {
        match &self.link {
            Link::End => &[],
            Link::More(block) => &block.bytes,
        }
    }

    /// The SHA-256 of the first `len` bytes, block by block.
    pub(crate) fn digest_of_first(&self, len: usize) -> Digest
        ensures { result ≡ sha256 (take len (concat self.now)) }
    {
        let mut hasher = Sha256::new();
        let mut left = len;
        let mut here = self;
        'walk: while let Link::More(block) = &here.link {
            let block: &Block = block;
            let piece = first_of(&block.bytes, left);
            hasher.update(piece);
            left -= piece.len();
            here = &block.rest;
        }
        hasher.finalize()
    }
}

/// At most this many bytes from the start of a block.
fn first_of(bytes: &[u8; BLOCK_BYTES], most: usize) -> &[u8]
    ensures { result.now ≡ take most bytes.now }
{
    &bytes[..most.min(BLOCK_BYTES)]
}
