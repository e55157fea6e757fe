//! The whole run of a claim.
ghost use Rattle.std.specs.Prelude.{◌≡◌, ◌≤◌, ◌<◌, length, None, IfOk, OnErr, []};
ghost use Rattle.plugin_trait.specs.Steps.{steps_at};
ghost use Rattle.update_log.specs.declared.event.Op.{Op};
ghost use Rattle.update_log.specs.Steps.{next_step};
ghost use Rattle.device_claims.specs.States.{IsNext};
ghost use Rattle.install_engine.specs.Runs.{parts_taken};
ghost use Rattle.shared_daemon.specs.Names.{IsPass};
ghost use Rattle.claim_runs.specs.Known.{RunsFor, RunsSeen};
ghost use Rattle.claim_runs.specs.Ran.{Closes, GaveBack, MadeSteps, Ran};

use crate::outcome::Outcome;
use crate::runner::Runner;
use daemon_core::{FinishStop, Off, Taken};
use device_claims::{Begun, Closed};
use history_keeper::Keeper;
use outer_traits::Gate;
use plugin_trait::Plugin;
use shared_daemon::{Naming, Pass};
use std::sync::Wait;

impl<'a, R: Wait, K: Keeper, N: Naming, G: Gate> Runner<'a, R, K, N, G> {
    // Makes each step that is wanted.
    fn make_steps(
        &self,
        pass: &mut Pass,
        entry: u32,
        claim: Begun,
        plugin: &dyn Plugin,
    ) -> Result<Closed, Off>
        requires pass { IsPass self.now.daemon.now.id N.name pass.old }
        requires runs { RunsFor N.name entry None pass.old claim }
        requires next { IsNext Op.Prepare claim.trace }
        ensures pass { IsPass self.now.daemon.now.id N.name pass.new }
        ensures runs { IfOk result (λ next. RunsFor N.name entry None pass.new next) }
        ensures done { IfOk result (λ next. next_step next.trace ≡ None) }
        ensures made { IfOk result (λ next. MadeSteps (steps plugin.now) entry claim next pass.old pass.new) }
        ensures gone { OnErr result (GaveBack (steps plugin.now) entry claim pass.old pass.new) }
    {
        let ready = self.prepare(pass, entry, claim, plugin)?;
        let loose = self.detach(pass, entry, ready, plugin)?;
        let flashed = self.write(pass, entry, loose, plugin)?;
        let joined = self.attach(pass, entry, flashed, plugin)?;
        let reloaded = self.reload(pass, entry, joined, plugin)?;
        self.cleanup(pass, entry, reloaded, plugin)
    }

    // Finishes a claim whose steps are done.
    fn finish(&self, pass: &mut Pass, entry: u32, claim: Closed) -> Outcome
        requires pass { IsPass self.now.daemon.now.id N.name pass.old }
        requires runs { RunsFor N.name entry None pass.old claim }
        requires done { next_step claim.trace ≡ None }
        ensures pass { IsPass self.now.daemon.now.id N.name pass.new }
        ensures closed { Closes entry result pass.old pass.new }
    {
        let (board, payload) = claim.into_parts();
        match self.daemon.finish(self.rt, pass, entry, board, payload) {
            Ok(finished) => Outcome::Finished(finished),
            Err(stop) => {
                let FinishStop { board, payload } = stop;
                self.daemon.give_back(self.rt, pass, entry, board, payload);
                Outcome::Off
            }
        }
    }

    /// Runs a claim that was taken to its end: each step that is wanted, and the finish. Each step is held up
    /// at the gate between its start and the plugin's work, outside of any turn. The entry is the live one
    /// of the pass's client with no step yet, with the board, payload and trace that its taking gave. The plugins
    /// are the enabled ones, in their order, and the one at the place that was taken makes each step. `Off` is
    /// answered where a call of the daemon was answered off; the board and the payload have gone back then.
    pub fn run_claim(&self, pass: &mut Pass, taken: Taken, plugins: &[Box<dyn Plugin>]) -> Outcome
        requires pass { IsPass self.now.daemon.now.id N.name pass.old }
        requires runs { RunsSeen N.name pass.old.number (parts_taken taken) None pass.old.seen }
        requires no_steps { taken.trace.steps ≡ [] }
        requires marks { 8 ≤ taken.board.room }
        requires served { taken.plugin < length plugins.now }
        ensures pass { IsPass self.now.daemon.now.id N.name pass.new }
        ensures ran { Ran (steps_at (λ p. steps p) plugins.now taken.plugin) taken.entry (parts_taken taken) result pass.old pass.new }
    {
        let Taken {
            entry,
            plugin,
            board,
            payload,
            trace,
        } = taken;
        let claim = Begun::new(entry, board, payload, trace);
        match self.make_steps(pass, entry, claim, &*plugins[plugin as usize]) {
            Ok(claim) => self.finish(pass, entry, claim),
            Err(Off) => Outcome::Off,
        }
    }
}
