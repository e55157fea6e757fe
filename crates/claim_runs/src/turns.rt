//! The turns of a step: its start, with the gate behind it, its end, and the giving back.
ghost use Rattle.std.specs.Prelude.{◌≡◌, ◌∷◌, List, [], None, Some, IfOk, OnErr, OnOk};
ghost use Rattle.emulated_boards.specs.Conditions.{view_of};
ghost use Rattle.emulated_boards.specs.declared.mark.Mark.{Mark};
ghost use Rattle.update_log.specs.declared.event.Event.{Event};
ghost use Rattle.device_claims.specs.States.{IsNext};
ghost use Rattle.shared_daemon.specs.Names.{IsPass};
ghost use Rattle.shared_daemon.specs.Steps.{GoesHome};
ghost use Rattle.claim_runs.specs.Known.{RunsFor, StepToEnd};
ghost use Rattle.claim_runs.specs.Ran.{CameBack, Gained, IsOver, back_event};

use crate::runner::Runner;
use daemon_core::Off;
use device_claims::{Claim, State};
use emulated_boards::BoardFault;
use history_keeper::Keeper;
use outer_traits::Gate;
use shared_daemon::{Naming, Pass};
use std::sync::Wait;
use update_log::Op;

impl<'a, R: Wait, K: Keeper, N: Naming, G: Gate> Runner<'a, R, K, N, G> {
    // Gives a claim back, in a boot that is off.
    fn give_back<S: State>(&self, pass: &mut Pass, entry: u32, claim: Claim<S>) -> Off
        requires pass { IsPass self.now.daemon.now.id N.name pass.old }
        requires home { GoesHome N.name pass.old.number entry claim.board claim.payload.count pass.old.seen }
        ensures pass { IsPass self.now.daemon.now.id N.name pass.new }
        ensures gained { Gained (back_event pass.old.number entry ∷ []) pass.old pass.new }
        ensures over { IsOver pass.new }
    {
        let (board, payload) = claim.into_parts();
        self.daemon.give_back(self.rt, pass, entry, board, payload);
        Off
    }

    /// Starts the next step of a claim, and holds it up at the gate, outside of the turn.
    pub(crate) fn begin<S: State>(
        &self,
        pass: &mut Pass,
        entry: u32,
        op: Op,
        claim: Claim<S>,
    ) -> Result<Claim<S>, Off>
        requires pass { IsPass self.now.daemon.now.id N.name pass.old }
        requires runs { RunsFor N.name entry None pass.old claim }
        requires next { IsNext op claim.trace }
        ensures pass { IsPass self.now.daemon.now.id N.name pass.new }
        ensures same { IfOk result (λ next. next ≡ claim) }
        ensures runs { IfOk result (λ next. RunsFor N.name entry (Some op) pass.new next) }
        ensures gained { OnOk result (Gained (Event.Start pass.old.number entry op ∷ []) pass.old pass.new) }
        ensures gone { OnErr result (CameBack entry pass.old pass.new) }
    {
        match self.daemon.start(self.rt, pass, entry, op) {
            Ok(()) => {
                self.gate.at(pass.number(), entry, op as u8);
                Ok(claim)
            }
            Err(Off) => Err(self.give_back(pass, entry, claim)),
        }
    }

    /// Ends a step that the plugin made of a claim.
    pub(crate) fn end<S: State>(
        &self,
        pass: &mut Pass,
        entry: u32,
        op: Op,
        answer: Result<(), BoardFault>,
        claim: Claim<S>,
    ) -> Result<Claim<S>, Off>
        requires pass { IsPass self.now.daemon.now.id N.name pass.old }
        requires made { StepToEnd N.name entry op answer pass.old claim }
        ensures pass { IsPass self.now.daemon.now.id N.name pass.new }
        ensures same { IfOk result (λ next. next ≡ claim) }
        ensures runs { IfOk result (λ next. RunsFor N.name entry None pass.new next) }
        ensures gained { OnOk result ((told : List Mark) × Gained (Event.End pass.old.number entry op answer told (view_of claim.board.condition) ∷ []) pass.old pass.new) }
        ensures gone { OnErr result (CameBack entry pass.old pass.new) }
    {
        match self
            .daemon
            .end(self.rt, pass, entry, op, answer, claim.board())
        {
            Ok(()) => Ok(claim),
            Err(Off) => Err(self.give_back(pass, entry, claim)),
        }
    }
}
