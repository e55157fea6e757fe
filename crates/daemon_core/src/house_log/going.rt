//! Turns for which room was kept.
ghost use Rattle.std.specs.Prelude.{◌≡◌, ◌≤◌, ◌<◌, ◌+◌, ◌∷◌, false};
ghost use Rattle.update_log.specs.declared.event.Event.{Event};
ghost use Rattle.update_log.specs.Known.{board_of};
ghost use Rattle.core_state.specs.CoreSteps.{board_of_entry, board_on};
ghost use Rattle.update_log.specs.Pasts.{boots, off};

use super::HouseLog;
use crate::off::Off;
use core_state::CoreState;
use device_list::Selector;
use update_log::Event;

impl HouseLog {
    ghost use Rattle.daemon_core.specs.HouseLog.{IsHouseLog};
    ghost use Rattle.daemon_core.specs.Goes.{GoesOn};
    ghost use Rattle.daemon_core.specs.Housed.{past_in};
    ghost use Rattle.daemon_core.specs.Owed.{owed};
    ghost use Rattle.daemon_core.specs.Plugging.{number_found};

    /// Enters a turn of a client for which room was kept. Where the boot's limit is reached, its power is
    /// cut instead.
    pub fn go_on(&mut self, client: u32) -> Result<(), Off>
        requires booted { 0 < boots (past_in self.old) }
        requires spared { off (past_in self.old) ≡ false → owed (Event.Cut ∷ past_in self.old) + 1 ≤ owed (past_in self.old) }
        ensures gone { GoesOn client result self.old self.new }
        ensures was { IsHouseLog self.old }
        ensures known { IsHouseLog self.new }
    {
        self.known();
        if self.core.off() {
            return Err(Off);
        }
        if self.is_cut() {
            self.note(client, Event::Cut);
            return Err(Off);
        }
        Ok(())
    }

    /// The number of the board on which an entry is installed.
    pub fn board_of(&self, entry: u32) -> Option<u32>
        ensures { result ≡ board_of self.now.facts self.now.core.rows entry }
    {
        board_of_entry(&self.core, entry)
    }

    /// The number of the board whose device a selector finds.
    pub fn board_found(&self, device: &Selector) -> Option<u32>
        ensures { result ≡ number_found self.now device.now }
    {
        board_on(&self.core, device)
    }
}

fn board_of_entry(core: &CoreState, entry: u32) -> Option<u32>
    ensures { result ≡ board_of_entry core.now.boards core.now.views core.now.rows entry }
{
    match core.row(entry) {
        Some(row) => board_on(core, &Selector::Id(row.device)),
        None => None,
    }
}

pub(crate) fn board_on(core: &CoreState, selector: &Selector) -> Option<u32>
    ensures { result ≡ board_on core.now.boards core.now.views selector.now }
{
    match core.resolve(selector) {
        Some(place) => core.boards().get(place).copied(),
        None => None,
    }
}
