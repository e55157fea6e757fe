//! The pool of blocks.
ghost use Rattle.std.specs.Prelude.{◌≡◌, ◌+◌, ◌<◌, ◌≤◌, ◌↔◌, IsErr, IfOk, IfErr, OnErr};

use crate::blocks::Blocks;
use crate::stack::Stack;
use fw_base::NoMemory;
use std::alloc::Global;
use std::marker::Model;
use thiserror::Error;

/// The most blocks of a pool.
pub const POOL_BLOCKS: u32 = 16_384;

/// Blocks of 4,096 bytes, made once. Contracts see how many there are and how many lie here.
///
/// A block moves between the pool and the blocks that are out. Those that lie here go when the pool is
/// dropped.
#[derive(Drop)]
pub struct Pool {
    free: Stack,
    capacity: u32,
    ghost within: { free.count ≤ capacity },
}

impl Model for Pool {
    ghost use Rattle.block_pool.specs.Views.{PoolCounts};

    ghost Value = { PoolCounts };

    ghost view = { λ a. record { capacity = a.capacity; free = a.free.count; within = a.within } };
}

/// More blocks were asked for than lie in the pool.
#[derive(Clone, Copy, Debug, Error, PartialEq, Eq)]
#[error("{need} blocks are needed, and {free} are free")]
pub struct NoRoom {
    /// The blocks that were asked for.
    pub need: u32,
    /// The blocks that lie in the pool.
    pub free: u32,
}

impl Pool {
    /// Makes all blocks, at most 16,384. This alone takes memory.
    pub fn new(alloc: Global, count: u32) -> Result<Pool, NoMemory>
        requires { count ≤ POOL_BLOCKS }
        ensures capacity { IfOk result (λ pool. pool.capacity ≡ count) }
        ensures free { IfOk result (λ pool. pool.free ≡ count) }
    {
        let mut free = Stack::empty();
        'made: for _ in 0..count {
            free.grow(alloc)?;
        }
        Ok(Pool {
            free,
            capacity: count,
        })
    }

    /// Takes blocks out, where so many lie here. What stands in them is left open.
    pub fn take(&mut self, need: u32) -> Result<Blocks, NoRoom>
        ensures no_room { IsErr result ↔ (self.old.free < need) }
        ensures refused { IfErr result (λ e. (e.need ≡ need) × (e.free ≡ self.old.free)) }
        ensures unchanged { OnErr result (self.new ≡ self.old) }
        ensures taken { IfOk result (λ blocks. blocks.count ≡ need) }
        ensures conserved { IfOk result (λ blocks. self.new.free + blocks.count ≡ self.old.free) }
        ensures capacity { self.new.capacity ≡ self.old.capacity }
    {
        let free = self.free.count();
        if need > free {
            return Err(NoRoom { need, free });
        }
        let mut out = Stack::empty();
        'moved: for _ in 0..need {
            self.free.move_first(&mut out);
        }
        Ok(Blocks::of(out))
    }

    /// Takes blocks back.
    pub fn give(&mut self, blocks: Blocks)
        requires { self.old.free + blocks.count ≤ self.old.capacity }
        ensures conserved { self.new.free ≡ self.old.free + blocks.count }
        ensures capacity { self.new.capacity ≡ self.old.capacity }
    {
        // Where the capacity is read, it is known to be below 2^32.
        let _capacity = self.capacity;
        let mut back = blocks.into_stack();
        'moved: for _ in 0..back.count() {
            back.move_first(&mut self.free);
        }
    }
}
