//! Payloads: blocks whose first bytes have a known digest.
ghost use Rattle.std.specs.Prelude.{◌≡◌, ◌*◌, ◌≤◌, length, take, min};
ghost use Rattle.std.specs.List.{concat};
ghost use Rattle.sha2.specs.Sha256.{sha256};

use crate::blocks::Blocks;
use crate::stack::Stack;
use fw_base::Digest;
use std::marker::Model;

/// The most bytes that the head of a payload shows.
pub const HEAD_BYTES: usize = 14;

/// The first bytes of some blocks, with their SHA-256. It must be spent: its blocks go back.
///
/// Contracts see the bytes, how many blocks they lie in, and the digest. The type keeps that the
/// digest is that of the bytes.
pub struct Payload {
    stack: Stack,
    len: u32,
    digest: Digest,
    ghost fits: { len ≤ length (concat stack.blocks) },
    ghost within: { length (take len (concat stack.blocks)) ≤ 4096 * stack.count },
    ghost hashed: { digest ≡ sha256 (take len (concat stack.blocks)) },
}

impl Model for Payload {
    ghost use Rattle.block_pool.specs.Views.{SealedBytes};

    ghost Value = { SealedBytes };

    ghost use Rattle.std.specs.Prelude.{take};
    ghost use Rattle.std.specs.List.{concat};

    ghost view = { λ a. record { bytes = take a.len (concat a.stack.blocks); count = a.stack.count; digest = a.digest; within = a.within; hashed = a.hashed } };
}

/// Blocks whose first bytes have another digest than the one that was asked for.
///
/// The blocks must be spent, so this is no error of std's kind.
pub struct BadBlocks {
    /// The SHA-256 of the bytes.
    pub found: Digest,
    /// The blocks, as they were.
    pub blocks: Blocks,
}

impl Payload {
    /// The payload of the first bytes of a stack, whose digest is known.
    pub(crate) fn of(stack: Stack, len: u32, digest: Digest) -> Payload
        requires within { len ≤ 4096 * stack.count }
        requires hashed { digest ≡ sha256 (take len (concat stack.blocks)) }
        ensures bytes { result.bytes ≡ take len (concat stack.blocks) }
        ensures count { result.count ≡ stack.count }
    {
        Payload { stack, len, digest }
    }

    /// The SHA-256 of the bytes.
    pub fn digest(&self) -> Digest
        ensures { result ≡ self.now.digest }
    {
        self.digest
    }

    /// How many bytes there are.
    pub fn len(&self) -> u32
        ensures { result ≡ length self.now.bytes }
    {
        self.len
    }

    /// The first bytes, up to 14, and how many of them count.
    pub fn head(&self) -> ([u8; HEAD_BYTES], usize)
        ensures known { result.1 ≡ min 14 (length self.now.bytes) }
        ensures bytes { take result.1 result.0 ≡ take 14 self.now.bytes }
    {
        let mut head = [0; HEAD_BYTES];
        let front = self.stack.front();
        let known = HEAD_BYTES.min(self.len as usize);
        head[..known].copy_from_slice(&front[..known]);
        (head, known)
    }

    /// The blocks, with the bytes as they are.
    pub fn into_blocks(self) -> Blocks
        ensures count { result.count ≡ self.count }
        ensures bytes { take (length self.bytes) result.bytes ≡ self.bytes }
    {
        let Payload {
            stack,
            len: _,
            digest: _,
        } = self;
        Blocks::of(stack)
    }
}
