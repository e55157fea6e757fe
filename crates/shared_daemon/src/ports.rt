//! Devices that clients take out of their ports, and put back.
ghost use Rattle.std.specs.Prelude.{◌≡◌};
ghost use Rattle.update_log.specs.declared.event.Event.{Event};
ghost use Rattle.shared_daemon.specs.Calls.{Took, TurnedIn};
ghost use Rattle.shared_daemon.specs.Entries.{chronicle};
ghost use Rattle.shared_daemon.specs.Names.{IsPass};

use crate::daemon::{Daemon, Pass};
use crate::named::Named;
use crate::naming::Naming;
use daemon_core::Stop;
use device_list::Selector;
use history_keeper::Keeper;
use std::sync::Wait;
use update_log::PlugAnswer;

impl<K: Keeper, N: Naming> Named<K, N> {
    pub(crate) fn unplug(&mut self, client: u32, device: &Selector) -> Result<PlugAnswer, Stop>
        ensures { TurnedIn client (λ answer. Event.Unplug client device.now answer) result (chronicle self.old) (chronicle self.new) }
    {
        self.house.known();
        self.house.unplug(client, device)
    }

    pub(crate) fn plug(&mut self, client: u32, device: &Selector) -> Result<PlugAnswer, Stop>
        ensures { TurnedIn client (λ answer. Event.Plug client device.now answer) result (chronicle self.old) (chronicle self.new) }
    {
        self.house.known();
        self.house.plug(client, device)
    }
}

impl<K: Keeper, N: Naming> Daemon<K, N> {
    /// Takes a device out of its port. Nothing is done where none is found, where it is being updated, and
    /// where it isn't there.
    pub fn unplug<R: Wait>(
        &self,
        rt: &R,
        pass: &mut Pass,
        device: &Selector,
    ) -> Result<PlugAnswer, Stop>
        requires pass { IsPass self.now.id N.name pass.old }
        ensures pass { IsPass self.now.id N.name pass.new }
        ensures same { pass.new.number ≡ pass.old.number }
        ensures turn { Took N.name (TurnedIn pass.old.number (λ answer. Event.Unplug pass.old.number device.now answer) result) pass.old pass.new }
    {
        let mut turn = self.enter(rt, pass);
        let answer = turn.state().unplug(pass.number(), device);
        self.leave(turn, pass);
        answer
    }

    /// Puts a device back into its port, also in the place of a stranger. Nothing is done where none is
    /// found, where it is being updated, and where it is there already.
    pub fn plug<R: Wait>(
        &self,
        rt: &R,
        pass: &mut Pass,
        device: &Selector,
    ) -> Result<PlugAnswer, Stop>
        requires pass { IsPass self.now.id N.name pass.old }
        ensures pass { IsPass self.now.id N.name pass.new }
        ensures same { pass.new.number ≡ pass.old.number }
        ensures turn { Took N.name (TurnedIn pass.old.number (λ answer. Event.Plug pass.old.number device.now answer) result) pass.old pass.new }
    {
        let mut turn = self.enter(rt, pass);
        let answer = turn.state().plug(pass.number(), device);
        self.leave(turn, pass);
        answer
    }
}
