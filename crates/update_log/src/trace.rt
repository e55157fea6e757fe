//! How far an entry has come.
ghost use Rattle.std.specs.Prelude.{◌≡◌, ◌<◌, ◌++◌, ◌∷◌, [], length};

use crate::event::Op;
use emulated_boards::BoardFault;
use fw_facts::{DeviceFlags, Mode, Seen};
use std::marker::Model;

/// A step that ended: how, and what the port showed then.
#[derive(Clone, Copy, Debug)]
pub struct TraceStep {
    pub op: Op,
    pub outcome: Result<(), BoardFault>,
    pub seen: Seen,
}

/// The most steps of an entry.
pub const STEPS_MAX: usize = 6;

/// What stands behind the steps that there are.
const NO_STEP: TraceStep = TraceStep {
    op: Op::Prepare,
    outcome: Ok(()),
    seen: Seen::Gone,
};

/// Up to six steps, kept inline. Contracts see their list.
#[derive(Clone, Copy, Debug)]
pub struct TraceSteps {
    kept: [TraceStep; 6],
    len: usize,
}

impl Model for TraceSteps {
    ghost use Rattle.std.specs.Prelude.{List, take, length};
    ghost use Rattle.update_log.specs.declared.trace.TraceStep.{TraceStep};

    ghost Value = { List TraceStep };

    ghost use Rattle.update_log.specs.Traces.{AreSteps, steps_kept, kept_again};

    ghost view = { λ s. take s.len s.kept };

    ghost invariant = { AreSteps };

    ghost inverse = { steps_kept };

    ghost inverse_ok = { kept_again };
}

/// How far an entry has come: the device's flags and mode as the entry was taken, whether each of
/// its sides fits the release, and the steps that ended since, in their order.
#[derive(Clone, Copy, Debug)]
pub struct Trace {
    pub flags: DeviceFlags,
    pub mode: Mode,
    pub runtime_fits: bool,
    pub loader_fits: bool,
    pub steps: TraceSteps,
}

/// How far a live entry has come.
#[derive(Clone, Copy, Debug)]
pub struct Traced {
    pub entry: u32,
    pub trace: Trace,
}

impl TraceSteps {
    /// No step.
    pub fn none() -> TraceSteps
        ensures { result ≡ [] }
    {
        TraceSteps {
            kept: [NO_STEP; 6],
            len: 0,
        }
    }

    /// The steps, in order.
    pub fn items(&self) -> &[TraceStep]
        ensures { result.now ≡ self.now }
    {
        &self.kept[..self.len]
    }

    /// Puts a step behind them.
    pub fn push(&mut self, step: TraceStep)
        requires room { length self.old < 6 }
        ensures { self.new ≡ self.old ++ step ∷ [] }
    {
        self.kept[self.len] = step;
        self.len += 1;
    }
}
