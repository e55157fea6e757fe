//! Resumptions of installs that were put off.
ghost use Rattle.std.specs.Prelude.{◌≡◌};
ghost use Rattle.daemon_core.specs.Resumes.{note_in};
ghost use Rattle.shared_daemon.specs.Calls.{Took, WasSeen};
ghost use Rattle.shared_daemon.specs.Entries.{chronicle};
ghost use Rattle.shared_daemon.specs.Names.{IsPass};
ghost use Rattle.shared_daemon.specs.Resumed.{MayResumeRow, ResumeGaveIn, ResumedIn};

use crate::daemon::{Daemon, Pass};
use crate::named::Named;
use crate::naming::Naming;
use daemon_core::{Claimed, Fetched, ResumeStop, Ticket};
use history_keeper::Keeper;
use std::sync::Wait;

impl<K: Keeper, N: Naming> Named<K, N> {
    pub(crate) fn resume(
        &mut self,
        entry: u32,
        held: Option<(Ticket, Fetched)>,
    ) -> Result<Claimed, ResumeStop>
        requires { WasSeen N.name 0 (MayResumeRow N.name entry held) (chronicle self.old) }
        ensures turn { ResumedIn entry (note_in held) result (chronicle self.old) (chronicle self.new) }
        ensures gave { ResumeGaveIn N.name entry held result (chronicle self.new) }
    {
        self.house.known();
        let resumed = self.house.resume(entry, held);
        self.house.known();
        resumed
    }
}

impl<K: Keeper, N: Naming> Daemon<K, N> {
    /// Resumes the install of a row that was put off, which is the daemon's own, by pass 0. What comes in is
    /// the open hold that this row made, with a fetch of its blocks, whose payload, if it is whole, is that
    /// of the ticket's release. Or nothing does, where the daemon has nothing out, and its last event in
    /// this boot is the ask for this row, which was refused; then it is refused again.
    pub fn resume<R: Wait>(
        &self,
        rt: &R,
        pass: &mut Pass,
        entry: u32,
        held: Option<(Ticket, Fetched)>,
    ) -> Result<Claimed, ResumeStop>
        requires pass { IsPass self.now.id N.name pass.old }
        requires own { pass.old.number ≡ 0 }
        requires may { MayResumeRow N.name entry held pass.old.seen }
        ensures pass { IsPass self.now.id N.name pass.new }
        ensures same { pass.new.number ≡ pass.old.number }
        ensures turn { Took N.name (ResumedIn entry (note_in held) result) pass.old pass.new }
        ensures gave { ResumeGaveIn N.name entry held result pass.new.seen }
    {
        let mut turn = self.enter(rt, pass);
        let answer = turn.state().resume(entry, held);
        self.leave(turn, pass);
        answer
    }
}
