//! A sink in memory.
ghost use Rattle.std.specs.Prelude.{◌≡◌, ◌≤◌, ◌<◌, ◌-◌, ◌++◌, ◌↔◌, ◌⊎◌, [], min, length, take, OnOk, OnErr, IfOk, IsErr};
ghost use Rattle.outer_traits.specs.Plans.{fresh, FailsNext, after_call, after_fault};

use crate::failed::Failed;
use crate::plan::Plan;
use crate::sink::Sink;
use fw_base::NoMemory;
use std::alloc::Global;
use std::marker::Model;

/// A buffer of a fixed size. It fails where it is full, and at the calls whose numbers it was given.
#[derive(Drop)]
pub struct MemorySink {
    taken: Vec<u8>,
    room: usize,
    plan: Plan,
}

impl Model for MemorySink {
    ghost use Rattle.std.specs.Prelude.{◌≤◌, vec_len, vec_capacity};
    ghost use Rattle.outer_traits.specs.Plans.{MemoryOutput};

    ghost Value = { MemoryOutput };

    ghost view = { λ s. record { taken = s.taken.items; room = s.room; plan = s.plan } };

    ghost invariant = { λ s. (vec_len s.taken ≤ s.room) × (s.room ≤ vec_capacity s.taken) };
}

impl MemorySink {
    /// A sink that can hold `room` bytes, whose calls with the numbers in `failing` fail, counted
    /// from 1. It takes its memory now.
    pub fn new(alloc: Global, room: usize, failing: Vec<u32>) -> Result<MemorySink, NoMemory>
        ensures { IfOk result (λ s. s ≡ record { taken = []; room = room; plan = fresh failing.items }) }
    {
        Ok(MemorySink {
            taken: Vec::with_capacity(alloc, room)?,
            room,
            plan: Plan::new(failing),
        })
    }

    /// The bytes that it took.
    pub fn bytes(&self) -> &[u8]
        ensures { result.now ≡ self.now.taken }
    {
        &self.taken
    }

    /// How many writes there were.
    pub fn calls(&self) -> u64
        ensures { result ≡ self.now.plan.calls }
    {
        self.plan.calls()
    }
}

impl Sink for MemorySink {
    ghost use Rattle.std.specs.Prelude.{Some};

    ghost taken = { λ s. Some s.taken };

    ghost faults = { λ s. s.plan.faults };

    fn write(&mut self, piece: &[u8]) -> Result<usize, Failed>
        ensures planned { IsErr result ↔ (FailsNext self.old.plan ⊎ ((0 < length piece.now) × (self.old.room ≤ length self.old.taken))) }
        ensures only_counts { OnErr result (self.new ≡ record self.old { plan = after_fault self.old.plan }) }
        ensures count { IfOk result (λ n. n ≡ min (length piece.now) (self.old.room - length self.old.taken)) }
        ensures added { IfOk result (λ n. self.new ≡ record self.old { taken = self.old.taken ++ take n piece.now; plan = after_call self.old.plan }) }

        ensures some { IfOk result (λ n. 0 < length piece.now → 0 < n) }
        ensures quiet { OnOk result (self.new.plan.faults ≡ self.old.plan.faults) }
        ensures counts { self.old.plan.faults ≤ self.new.plan.faults }
    {
        let space = self.room - self.taken.len();
        if self.plan.fails_next() || (space == 0 && !piece.is_empty()) {
            self.plan.count_fault();
            return Err(Failed);
        }
        self.plan.count_call();
        let count = piece.len().min(space);
        self.taken.extend_from_slice(&piece[..count]).unwrap();
        Ok(count)
    }
}
