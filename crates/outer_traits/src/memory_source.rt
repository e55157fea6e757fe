//! A source in memory.
ghost use Rattle.std.specs.Prelude.{◌≡◌, ◌≤◌, ◌<◌, ◌↔◌, ◌++◌, [], min, length, take, drop, OnOk, OnErr, IfOk, IsErr};
ghost use Rattle.outer_traits.specs.Plans.{fresh, FailsNext, after_call, after_fault};

use crate::copying::copy_front;
use crate::failed::Failed;
use crate::plan::Plan;
use crate::source::Source;
use std::marker::Model;

/// Bytes in memory, given in pieces. It fails at the calls whose numbers it was given.
#[derive(Drop)]
pub struct MemorySource {
    bytes: Vec<u8>,
    at: usize,
    piece: usize,
    plan: Plan,
}

impl Model for MemorySource {
    ghost use Rattle.std.specs.Prelude.{◌≤◌, ◌<◌, drop, length};
    ghost use Rattle.outer_traits.specs.Plans.{MemoryInput};

    ghost Value = { MemoryInput };

    ghost view = { λ s. record { left = drop s.at s.bytes.items; piece = s.piece; plan = s.plan } };

    ghost invariant = { λ s. (s.at ≤ length s.bytes.items) × (0 < s.piece) };
}

impl MemorySource {
    /// A source of these bytes, at most `piece` at a time, whose calls with the numbers in `failing`
    /// fail, counted from 1.
    pub fn new(bytes: Vec<u8>, piece: usize, failing: Vec<u32>) -> MemorySource
        requires { 0 < piece }
        ensures { result ≡ record { left = bytes.items; piece = piece; plan = fresh failing.items } }
    {
        MemorySource {
            bytes,
            at: 0,
            piece,
            plan: Plan::new(failing),
        }
    }

    /// How many reads there were.
    pub fn calls(&self) -> u64
        ensures { result ≡ self.now.plan.calls }
    {
        self.plan.calls()
    }
}

impl Source for MemorySource {
    ghost use Rattle.std.specs.Prelude.{Some};

    ghost left = { λ s. Some s.left };

    ghost faults = { λ s. s.plan.faults };

    fn read(&mut self, into: &mut [u8]) -> Result<usize, Failed>
        ensures planned { IsErr result ↔ FailsNext self.old.plan }
        ensures only_counts { OnErr result (self.new ≡ record self.old { plan = after_fault self.old.plan }) }
        ensures count { IfOk result (λ n. n ≡ min (min self.old.piece (length into.new)) (length self.old.left)) }
        ensures moved { IfOk result (λ n. self.new ≡ record self.old { left = drop n self.old.left; plan = after_call self.old.plan }) }

        ensures came { IfOk result (λ n. self.old.left ≡ take n into.new ++ self.new.left) }
        ensures ended { IfOk result (λ n. n ≡ 0 → 0 < length into.new → self.new.left ≡ []) }
        ensures quiet { OnOk result (self.new.plan.faults ≡ self.old.plan.faults) }
        ensures counts { self.old.plan.faults ≤ self.new.plan.faults }
    {
        if self.plan.fails_next() {
            self.plan.count_fault();
            return Err(Failed);
        }
        self.plan.count_call();
        let (_, left) = self.bytes.split_at(self.at);
        let count = copy_front(left, self.piece, into);
        self.at += count;
        Ok(count)
    }
}
