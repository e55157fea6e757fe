//! Room for payloads: a pool of blocks of 4,096 bytes, and the chains that it lends out.
//!
//! The pool makes all blocks once. From then on a block moves between the pool and the chains that
//! are out, and nothing here takes memory. Free and lent blocks together stay the capacity. A chain
//! whose first bytes have the digest that was asked for becomes a payload, whose type keeps that.
#![tactic(auto)]

mod blocks;
mod chain;
mod payload;
mod pool;
mod stack;

pub use blocks::Blocks;
pub use payload::{BadBlocks, HEAD_BYTES, Payload};
pub use pool::{NoRoom, POOL_BLOCKS, Pool};

/// The bytes of a block.
pub const BLOCK_BYTES: usize = 4096;
