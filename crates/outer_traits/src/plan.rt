//! Which calls of an object in memory fail.
ghost use Rattle.std.specs.Prelude.{◌≡◌, ◌≤◌, ◌↔◌, IsTrue};
ghost use Rattle.outer_traits.specs.Plans.{Plan as PlanState, fresh, one_more, FailsNext, after_call, after_fault};

use std::marker::Model;

/// The numbers of the calls that fail, and the counts of calls and of faults.
#[derive(Drop)]
pub struct Plan {
    failing: Vec<u32>,
    calls: u64,
    faults: u64,
}

impl Model for Plan {
    ghost use Rattle.outer_traits.specs.Plans.{Plan as PlanState};

    ghost Value = { PlanState };

    ghost view = { λ p. record { failing = p.failing.items; calls = p.calls; faults = p.faults } };
}

impl Plan {
    /// A plan before its first call.
    pub fn new(failing: Vec<u32>) -> Plan
        ensures { result ≡ fresh failing.items }
    {
        Plan {
            failing,
            calls: 0,
            faults: 0,
        }
    }

    /// How many calls there were.
    pub fn calls(&self) -> u64
        ensures { result ≡ self.now.calls }
    {
        self.calls
    }

    /// Whether the next call is one of those that fail.
    pub fn fails_next(&self) -> bool
        ensures { IsTrue result ↔ FailsNext self.now }
    {
        let next = self.calls.saturating_add(1);
        self.failing.iter().any(|number| u64::from(*number) == next)
    }

    /// Counts a call that did not fail.
    pub fn count_call(&mut self)
        ensures { self.new ≡ after_call self.old }
    {
        self.calls = self.calls.saturating_add(1);
    }

    /// Counts a call that failed.
    pub fn count_fault(&mut self)
        ensures counted { self.new ≡ after_fault self.old }
        ensures no_fall { self.old.faults ≤ self.new.faults }
    {
        self.calls = self.calls.saturating_add(1);
        self.faults = self.faults.saturating_add(1);
    }
}
