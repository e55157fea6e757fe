//! The steps of a claim, each from one state to the next.
//!
//! A step that fails gives the next state too: what comes after it is told by the trace.
ghost use Rattle.std.specs.Prelude.{◌≡◌, ◌≤◌, ◌<◌, ◌↔◌, [], IsTrue, length, None};
ghost use Rattle.emulated_boards.specs.Images.{payload_image};
ghost use Rattle.emulated_boards.specs.Conditions.{view_of};
ghost use Rattle.emulated_boards.specs.declared.condition.Presence.TheVariants.{Home};
ghost use Rattle.plugin_trait.specs.Steps.{Plain, Detached, Attached, Written};
ghost use Rattle.update_log.specs.Steps.{next_step, with_step};
ghost use Rattle.device_claims.specs.States.{IsNext};
ghost use Rattle.device_claims.specs.Claims.{Noted, StepGives};

use crate::claim::{Claim, Parts};
use crate::state::{
    Begun, BegunState, Closed, Flashed, FlashedState, Joined, JoinedState, Loose, LooseState,
    Ready, ReadyState, Reloaded, ReloadedState,
};
use block_pool::Payload;
use emulated_boards::{Board, BoardFault};
use plugin_trait::Plugin;
use std::marker::PhantomData;
use update_log::{Op, Trace, TraceStep, next_op};

impl Parts {
    /// Writes the payload to the board.
    fn write(&mut self, plugin: &dyn Plugin) -> Result<(), BoardFault>
        requires home { self.old.board.condition.presence ≡ Home }
        requires room { 2 ≤ self.old.board.room }
        ensures call { (steps plugin.now).write self.old.entry self.old.payload self.old.board result self.new.board }
        ensures board { Written self.old.entry (payload_image self.old.payload) self.old.board result self.new.board }
        ensures others { self.new ≡ record self.old { board = self.new.board } }
    {
        plugin.write(&mut self.board, self.entry, &self.payload)
    }

    /// Notes a step that ended, with its answer and what the board shows.
    fn note(&mut self, op: Op, outcome: Result<(), BoardFault>)
        requires { length self.old.trace.steps < 6 }
        ensures { self.new ≡ record self.old { trace = with_step (record { op = op; outcome = outcome; seen = view_of self.old.board.condition }) self.old.trace } }
    {
        let seen = self.board.view();
        self.trace.steps.push(TraceStep { op, outcome, seen });
    }

    /// Whether this is the next step.
    fn is_next(&self, op: Op) -> bool
        ensures { IsTrue result ↔ IsNext op self.now.trace }
    {
        next_op(&self.trace) == Some(op)
    }
}

impl Claim<BegunState> {
    /// A claim of an entry of the history, with its board and payload. The trace says how the board was
    /// found.
    pub fn new(entry: u32, board: Board, payload: Payload, trace: Trace) -> Begun
        requires steps { trace.steps ≡ [] }
        requires room { 4 ≤ board.room }
        ensures parts { result ≡ record { entry = entry; board = board; payload = payload; trace = trace } }
        ensures next { IsNext Op.Prepare result.trace }
    {
        let parts = Parts {
            entry,
            board,
            payload,
            trace,
        };
        let state = PhantomData;
        Claim { parts, state }
    }

    /// Prepares the board.
    pub fn prepare(self, plugin: &dyn Plugin) -> (Ready, Result<(), BoardFault>)
        ensures call { StepGives (steps plugin.now) Op.Prepare self.entry self.payload self.board result.1 result.0.board }
        ensures board { Plain self.board result.1 result.0.board }
        ensures noted { Noted Op.Prepare self result.1 result.0 }
    {
        let Claim {
            mut parts,
            state: _,
        } = self;
        let answer = plugin.prepare(&mut parts.board);
        parts.note(Op::Prepare, answer);
        let state = PhantomData;
        (Claim { parts, state }, answer)
    }
}

impl Claim<ReadyState> {
    /// Whether a detach comes next.
    pub fn may_detach(&self) -> bool
        ensures { IsTrue result ↔ IsNext Op.Detach self.now.trace }
    {
        self.parts.is_next(Op::Detach)
    }

    /// Detaches the board.
    pub fn detach(self, plugin: &dyn Plugin) -> (Loose, Result<(), BoardFault>)
        requires { IsNext Op.Detach self.trace }
        ensures call { StepGives (steps plugin.now) Op.Detach self.entry self.payload self.board result.1 result.0.board }
        ensures board { Detached self.board result.1 result.0.board }
        ensures noted { Noted Op.Detach self result.1 result.0 }
    {
        let Claim {
            mut parts,
            state: _,
        } = self;
        let answer = plugin.detach(&mut parts.board);
        parts.note(Op::Detach, answer);
        let state = PhantomData;
        (Claim { parts, state }, answer)
    }

    /// Leaves the board as it is.
    pub fn stay(self) -> Loose
        requires { ¬ IsNext Op.Detach self.trace }
        ensures { result ≡ self }
    {
        let Claim { parts, state: _ } = self;
        let state = PhantomData;
        Claim { parts, state }
    }
}

impl Claim<LooseState> {
    /// Whether a write comes next.
    pub fn may_write(&self) -> bool
        ensures { IsTrue result ↔ IsNext Op.Write self.now.trace }
    {
        self.parts.is_next(Op::Write)
    }

    /// Writes the payload to the board.
    pub fn write(self, plugin: &dyn Plugin) -> (Flashed, Result<(), BoardFault>)
        requires { IsNext Op.Write self.trace }
        ensures call { StepGives (steps plugin.now) Op.Write self.entry self.payload self.board result.1 result.0.board }
        ensures board { Written self.entry (payload_image self.payload) self.board result.1 result.0.board }
        ensures noted { Noted Op.Write self result.1 result.0 }
    {
        let Claim {
            mut parts,
            state: _,
        } = self;
        let answer = parts.write(plugin);
        parts.note(Op::Write, answer);
        let state = PhantomData;
        (Claim { parts, state }, answer)
    }

    /// Writes nothing.
    pub fn skip(self) -> Flashed
        requires { ¬ IsNext Op.Write self.trace }
        ensures { result ≡ self }
    {
        let Claim { parts, state: _ } = self;
        let state = PhantomData;
        Claim { parts, state }
    }
}

impl Claim<FlashedState> {
    /// Whether an attach comes next.
    pub fn may_attach(&self) -> bool
        ensures { IsTrue result ↔ IsNext Op.Attach self.now.trace }
    {
        self.parts.is_next(Op::Attach)
    }

    /// Attaches the board.
    pub fn attach(self, plugin: &dyn Plugin) -> (Joined, Result<(), BoardFault>)
        requires { IsNext Op.Attach self.trace }
        ensures call { StepGives (steps plugin.now) Op.Attach self.entry self.payload self.board result.1 result.0.board }
        ensures board { Attached self.board result.1 result.0.board }
        ensures noted { Noted Op.Attach self result.1 result.0 }
        ensures next { IsNext Op.Reload result.0.trace }
    {
        let Claim {
            mut parts,
            state: _,
        } = self;
        let answer = plugin.attach(&mut parts.board);
        parts.note(Op::Attach, answer);
        let state = PhantomData;
        (Claim { parts, state }, answer)
    }

    /// Leaves the board as it is.
    pub fn stay(self) -> Joined
        requires { ¬ IsNext Op.Attach self.trace }
        ensures parts { result ≡ self }
        ensures next { IsNext Op.Reload result.trace }
    {
        let Claim { parts, state: _ } = self;
        let state = PhantomData;
        Claim { parts, state }
    }
}

impl Claim<JoinedState> {
    /// Looks at the board again.
    pub fn reload(self, plugin: &dyn Plugin) -> (Reloaded, Result<(), BoardFault>)
        ensures call { StepGives (steps plugin.now) Op.Reload self.entry self.payload self.board result.1 result.0.board }
        ensures board { Plain self.board result.1 result.0.board }
        ensures noted { Noted Op.Reload self result.1 result.0 }
        ensures next { IsNext Op.Cleanup result.0.trace }
    {
        let Claim {
            mut parts,
            state: _,
        } = self;
        let answer = plugin.reload(&mut parts.board);
        parts.note(Op::Reload, answer);
        let state = PhantomData;
        (Claim { parts, state }, answer)
    }
}

impl Claim<ReloadedState> {
    /// Ends the update.
    pub fn cleanup(self, plugin: &dyn Plugin) -> (Closed, Result<(), BoardFault>)
        ensures call { StepGives (steps plugin.now) Op.Cleanup self.entry self.payload self.board result.1 result.0.board }
        ensures board { Plain self.board result.1 result.0.board }
        ensures noted { Noted Op.Cleanup self result.1 result.0 }
        ensures done { next_step result.0.trace ≡ None }
    {
        let Claim {
            mut parts,
            state: _,
        } = self;
        let answer = plugin.cleanup(&mut parts.board);
        parts.note(Op::Cleanup, answer);
        let state = PhantomData;
        (Claim { parts, state }, answer)
    }
}
