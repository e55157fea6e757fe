//! How a step on a board may fail, and the plan of its faults.
ghost use Rattle.std.specs.Prelude.{◌≡◌, ◌+◌, ◌-◌, ◌<◌, ◌^◌, min, is_some, IsSome, if◌then◌else◌};
ghost use Rattle.emulated_boards.specs.Plans.{IsPlan, fault_count, planned};

use thiserror::Error;

/// How a step failed.
#[derive(Clone, Copy, Debug, Error, PartialEq, Eq)]
pub enum BoardFault {
    /// Nothing was done.
    #[error("the step failed")]
    Failed,
    /// The power went in the midst of a write.
    #[error("the write was torn")]
    Torn,
    /// The board left its port.
    #[error("the board is gone")]
    Gone,
    /// Another board stands in the port.
    #[error("another board stands in the port")]
    Stranger,
}

/// A fault, and the number of the call that has it. Calls count from 1.
#[derive(Clone, Copy, Debug, PartialEq, Eq)]
pub struct PlannedFault {
    pub call: u32,
    pub fault: BoardFault,
}

/// The faults that are planned for a board, and how far its calls have come.
#[derive(Drop)]
pub(crate) struct FaultPlan {
    planned: Vec<PlannedFault>,
    calls: u64,
    faults: usize,
    ghost rising: { IsPlan planned.items },
    ghost counted: { faults ≡ fault_count planned.items calls },
}

impl FaultPlan {
    /// The plan before the first call.
    pub(crate) fn new(planned: Vec<PlannedFault>) -> FaultPlan
        requires { IsPlan planned.items }
        ensures planned { result.planned.items ≡ planned.items }
        ensures calls { result.calls ≡ 0 }
        ensures faults { result.faults ≡ 0 }
    {
        FaultPlan {
            planned,
            calls: 0,
            faults: 0,
        }
    }

    /// Counts a call, and gives the fault that is planned for it.
    ///
    /// The count of calls stays at 2^64 - 1, a number that no plan names.
    pub(crate) fn next_call(&mut self) -> Option<BoardFault>
        ensures planned { self.new.planned.items ≡ self.old.planned.items }
        ensures calls { self.new.calls ≡ min (self.old.calls + 1) (2 ^ 64 - 1) }
        ensures fault { result ≡ planned self.old.planned.items self.new.calls }
        ensures faults { self.new.faults ≡ self.old.faults + (if is_some result then 1 else 0) }
    {
        self.calls = self.calls.saturating_add(1);
        let fault = fault_at(&self.planned, self.calls);
        if fault.is_some() {
            self.faults += 1;
        }
        fault
    }
}

/// The fault that is planned for this call.
fn fault_at(plan: &[PlannedFault], call: u64) -> Option<BoardFault>
    ensures fault { result ≡ planned plan.now call }
    ensures small { IsSome result → call < 2 ^ 32 }
{
    for next in plan {
        if u64::from(next.call) == call {
            return Some(next.fault);
        }
    }
    None
}
