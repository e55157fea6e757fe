//! The steps of a claim, each between its start and its end in the log. A step that isn't wanted is left out.
ghost use Rattle.std.specs.Prelude.{◌≡◌, None, IfOk, OnErr};
ghost use Rattle.update_log.specs.declared.event.Op.{Op};
ghost use Rattle.update_log.specs.Steps.{next_step};
ghost use Rattle.device_claims.specs.States.{IsNext};
ghost use Rattle.shared_daemon.specs.Names.{IsPass};
ghost use Rattle.claim_runs.specs.Known.{RunsFor};
ghost use Rattle.claim_runs.specs.Ran.{GaveBack, MadeSteps};

use crate::runner::Runner;
use daemon_core::Off;
use device_claims::{Begun, Closed, Flashed, Joined, Loose, Ready, Reloaded};
use history_keeper::Keeper;
use outer_traits::Gate;
use plugin_trait::Plugin;
use shared_daemon::{Naming, Pass};
use std::sync::Wait;
use update_log::Op;

impl<'a, R: Wait, K: Keeper, N: Naming, G: Gate> Runner<'a, R, K, N, G> {
    /// Prepares the board.
    pub(crate) fn prepare(
        &self,
        pass: &mut Pass,
        entry: u32,
        claim: Begun,
        plugin: &dyn Plugin,
    ) -> Result<Ready, Off>
        requires pass { IsPass self.now.daemon.now.id N.name pass.old }
        requires runs { RunsFor N.name entry None pass.old claim }
        requires next { IsNext Op.Prepare claim.trace }
        ensures pass { IsPass self.now.daemon.now.id N.name pass.new }
        ensures runs { IfOk result (λ next. RunsFor N.name entry None pass.new next) }
        ensures made { IfOk result (λ next. MadeSteps (steps plugin.now) entry claim next pass.old pass.new) }
        ensures gone { OnErr result (GaveBack (steps plugin.now) entry claim pass.old pass.new) }
    {
        let claim = self.begin(pass, entry, Op::Prepare, claim)?;
        let (claim, answer) = claim.prepare(plugin);
        self.end(pass, entry, Op::Prepare, answer, claim)
    }

    /// Detaches the board, where that is wanted.
    pub(crate) fn detach(
        &self,
        pass: &mut Pass,
        entry: u32,
        claim: Ready,
        plugin: &dyn Plugin,
    ) -> Result<Loose, Off>
        requires pass { IsPass self.now.daemon.now.id N.name pass.old }
        requires runs { RunsFor N.name entry None pass.old claim }
        ensures pass { IsPass self.now.daemon.now.id N.name pass.new }
        ensures runs { IfOk result (λ next. RunsFor N.name entry None pass.new next) }
        ensures made { IfOk result (λ next. MadeSteps (steps plugin.now) entry claim next pass.old pass.new) }
        ensures gone { OnErr result (GaveBack (steps plugin.now) entry claim pass.old pass.new) }
    {
        if !claim.may_detach() {
            return Ok(claim.stay());
        }
        let claim = self.begin(pass, entry, Op::Detach, claim)?;
        let (claim, answer) = claim.detach(plugin);
        self.end(pass, entry, Op::Detach, answer, claim)
    }

    /// Writes the payload to the board, where that is wanted.
    pub(crate) fn write(
        &self,
        pass: &mut Pass,
        entry: u32,
        claim: Loose,
        plugin: &dyn Plugin,
    ) -> Result<Flashed, Off>
        requires pass { IsPass self.now.daemon.now.id N.name pass.old }
        requires runs { RunsFor N.name entry None pass.old claim }
        ensures pass { IsPass self.now.daemon.now.id N.name pass.new }
        ensures runs { IfOk result (λ next. RunsFor N.name entry None pass.new next) }
        ensures made { IfOk result (λ next. MadeSteps (steps plugin.now) entry claim next pass.old pass.new) }
        ensures gone { OnErr result (GaveBack (steps plugin.now) entry claim pass.old pass.new) }
    {
        if !claim.may_write() {
            return Ok(claim.skip());
        }
        let claim = self.begin(pass, entry, Op::Write, claim)?;
        let (claim, answer) = claim.write(plugin);
        self.end(pass, entry, Op::Write, answer, claim)
    }

    /// Attaches the board, where that is wanted.
    pub(crate) fn attach(
        &self,
        pass: &mut Pass,
        entry: u32,
        claim: Flashed,
        plugin: &dyn Plugin,
    ) -> Result<Joined, Off>
        requires pass { IsPass self.now.daemon.now.id N.name pass.old }
        requires runs { RunsFor N.name entry None pass.old claim }
        ensures pass { IsPass self.now.daemon.now.id N.name pass.new }
        ensures runs { IfOk result (λ next. RunsFor N.name entry None pass.new next) }
        ensures next { IfOk result (λ next. IsNext Op.Reload next.trace) }
        ensures made { IfOk result (λ next. MadeSteps (steps plugin.now) entry claim next pass.old pass.new) }
        ensures gone { OnErr result (GaveBack (steps plugin.now) entry claim pass.old pass.new) }
    {
        if !claim.may_attach() {
            return Ok(claim.stay());
        }
        let claim = self.begin(pass, entry, Op::Attach, claim)?;
        let (claim, answer) = claim.attach(plugin);
        self.end(pass, entry, Op::Attach, answer, claim)
    }

    /// Looks at the board again.
    pub(crate) fn reload(
        &self,
        pass: &mut Pass,
        entry: u32,
        claim: Joined,
        plugin: &dyn Plugin,
    ) -> Result<Reloaded, Off>
        requires pass { IsPass self.now.daemon.now.id N.name pass.old }
        requires runs { RunsFor N.name entry None pass.old claim }
        requires next { IsNext Op.Reload claim.trace }
        ensures pass { IsPass self.now.daemon.now.id N.name pass.new }
        ensures runs { IfOk result (λ next. RunsFor N.name entry None pass.new next) }
        ensures next { IfOk result (λ next. IsNext Op.Cleanup next.trace) }
        ensures made { IfOk result (λ next. MadeSteps (steps plugin.now) entry claim next pass.old pass.new) }
        ensures gone { OnErr result (GaveBack (steps plugin.now) entry claim pass.old pass.new) }
    {
        let claim = self.begin(pass, entry, Op::Reload, claim)?;
        let (claim, answer) = claim.reload(plugin);
        self.end(pass, entry, Op::Reload, answer, claim)
    }

    /// Ends the update.
    pub(crate) fn cleanup(
        &self,
        pass: &mut Pass,
        entry: u32,
        claim: Reloaded,
        plugin: &dyn Plugin,
    ) -> Result<Closed, Off>
        requires pass { IsPass self.now.daemon.now.id N.name pass.old }
        requires runs { RunsFor N.name entry None pass.old claim }
        requires next { IsNext Op.Cleanup claim.trace }
        ensures pass { IsPass self.now.daemon.now.id N.name pass.new }
        ensures runs { IfOk result (λ next. RunsFor N.name entry None pass.new next) }
        ensures done { IfOk result (λ next. next_step next.trace ≡ None) }
        ensures made { IfOk result (λ next. MadeSteps (steps plugin.now) entry claim next pass.old pass.new) }
        ensures gone { OnErr result (GaveBack (steps plugin.now) entry claim pass.old pass.new) }
    {
        let claim = self.begin(pass, entry, Op::Cleanup, claim)?;
        let (claim, answer) = claim.cleanup(plugin);
        self.end(pass, entry, Op::Cleanup, answer, claim)
    }
}
