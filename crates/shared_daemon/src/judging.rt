//! Judgements.
ghost use Rattle.std.specs.Prelude.{◌≡◌, IsSome};
ghost use Rattle.update_log.specs.Known.{row_of, rows};
ghost use Rattle.shared_daemon.specs.Calls.{JudgedIn, SettledIn, Took, WasSeen};
ghost use Rattle.shared_daemon.specs.Entries.{chronicle, past_seen};
ghost use Rattle.shared_daemon.specs.Names.{IsPass};

use crate::daemon::{Daemon, Pass};
use crate::named::Named;
use crate::naming::Naming;
use daemon_core::{Judged, Settling, Stop};
use device_list::Selector;
use history_keeper::Keeper;
use std::sync::Wait;

impl<K: Keeper, N: Naming> Named<K, N> {
    pub(crate) fn judge(&mut self, client: u32, entry: u32) -> Result<Judged, Stop>
        requires { WasSeen N.name client (λ seen. IsSome (row_of (rows N.name.basis (past_seen seen)) entry)) (chronicle self.old) }
        ensures { JudgedIn N.name client entry result (chronicle self.old) (chronicle self.new) }
    {
        self.house.known();
        self.house.judge(client, entry)
    }

    pub(crate) fn settle(&mut self, client: u32, device: &Selector) -> Result<Settling, Stop>
        ensures { SettledIn N.name client device.now result (chronicle self.old) (chronicle self.new) }
    {
        self.house.known();
        self.house.settle(client, device)
    }
}

impl<K: Keeper, N: Naming> Daemon<K, N> {
    /// Judges the row of an entry by the version that its device shows. The entry has a row. Only a
    /// judgement that is done is put behind the log.
    pub fn judge<R: Wait>(&self, rt: &R, pass: &mut Pass, entry: u32) -> Result<Judged, Stop>
        requires pass { IsPass self.now.id N.name pass.old }
        requires row { IsSome (row_of (rows N.name.basis (past_seen pass.old.seen)) entry) }
        ensures pass { IsPass self.now.id N.name pass.new }
        ensures same { pass.new.number ≡ pass.old.number }
        ensures turn { Took N.name (JudgedIn N.name pass.old.number entry result) pass.old pass.new }
    {
        let mut turn = self.enter(rt, pass);
        let answer = turn.state().judge(pass.number(), entry);
        self.leave(turn, pass);
        answer
    }

    /// Judges the row of a device that isn't settled, where there is one and it can be judged. Else the
    /// question alone is put behind the log.
    pub fn settle<R: Wait>(
        &self,
        rt: &R,
        pass: &mut Pass,
        device: &Selector,
    ) -> Result<Settling, Stop>
        requires pass { IsPass self.now.id N.name pass.old }
        ensures pass { IsPass self.now.id N.name pass.new }
        ensures same { pass.new.number ≡ pass.old.number }
        ensures turn { Took N.name (SettledIn N.name pass.old.number device.now result) pass.old pass.new }
    {
        let mut turn = self.enter(rt, pass);
        let answer = turn.state().settle(pass.number(), device);
        self.leave(turn, pass);
        answer
    }
}
