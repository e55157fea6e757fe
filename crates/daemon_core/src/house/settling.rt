//! Devices that a client settles.
ghost use Rattle.std.specs.Prelude.{◌≡◌, ◌≤◌, ◌<◌, ◌+◌, true, Some};
ghost use Rattle.update_log.specs.declared.event.Event.{Event};
ghost use Rattle.update_log.specs.declared.event.Query.{Query};
ghost use Rattle.update_log.specs.Pasts.{boots};

use super::House;
use crate::judged::{DeviceRow, Settling, Standing};
use crate::settling::device_row;
use crate::standing::standing_of;
use crate::stop::Stop;
use device_list::Selector;
use history_keeper::Keeper;
use update_log::{Event, Query};

impl<K: Keeper> House<K> {
    ghost use Rattle.history_keeper.specs.Signs.{signs_of};
    ghost use Rattle.daemon_core.specs.declared.judged.DeviceRow.{DeviceRow};
    ghost use Rattle.daemon_core.specs.HouseLog.{Runs};
    ghost use Rattle.daemon_core.specs.Housed.{past};
    ghost use Rattle.daemon_core.specs.Owed.{owed};
    ghost use Rattle.daemon_core.specs.Settling.{SettleTurned, row_to_settle};
    ghost use Rattle.daemon_core.specs.Turns.{KeeperFared};

    // Settles the row of a device that isn't settled.
    fn settle_row(&mut self, client: u32, device: &Selector, entry: u32) -> Result<Settling, Stop>
        requires booted { 0 < boots (past self.old) }
        requires runs { Runs self.old.house_log }
        requires loaded { self.old.house_log.loaded ≡ true }
        requires found { row_to_settle self.old.house_log device.now ≡ DeviceRow.Waiting entry }
        requires room { owed (past self.old) + 1 ≤ self.old.house_log.room }
        ensures turn { SettleTurned client device.now result self.old.house_log self.new.house_log }
        ensures places { self.new.places ≡ self.old.places }
        ensures pool { self.new.pool ≡ self.old.pool }
        ensures fared { KeeperFared (signs_of K.tells K.doubt K.faults) self.old self.new }
        ensures counts { K.faults self.old.keeper ≤ K.faults self.new.keeper }
    {
        self.house_log.known();
        match standing_of(self.house_log.core(), entry) {
            Standing::Waits => {
                self.note(client, settle_query(client, device));
                Ok(Settling::Waits { entry })
            }
            Standing::Judged { version, state } => {
                let stored = self.judge_so(client, entry, version, state)?;
                Ok(Settling::Judged {
                    entry,
                    state,
                    stored,
                })
            }
            Standing::Settled | Standing::Absent => unreachable!(),
        }
    }

    /// Judges the row of a device that isn't settled, where there is one and it can be judged. Else the
    /// question alone is put behind the log.
    pub fn settle(&mut self, client: u32, device: &Selector) -> Result<Settling, Stop>
        requires booted { 0 < boots (past self.old) }
        ensures turn { SettleTurned client device.now result self.old.house_log self.new.house_log }
        ensures places { self.new.places ≡ self.old.places }
        ensures pool { self.new.pool ≡ self.old.pool }
        ensures fared { KeeperFared (signs_of K.tells K.doubt K.faults) self.old self.new }
        ensures counts { K.faults self.old.keeper ≤ K.faults self.new.keeper }
    {
        self.enter(client, 1)?;
        self.house_log.known();
        match device_row(self.house_log.core(), device) {
            DeviceRow::NoDevice => {
                self.note(client, settle_query(client, device));
                Ok(Settling::NoDevice)
            }
            DeviceRow::Nothing => {
                self.note(client, settle_query(client, device));
                Ok(Settling::Nothing)
            }
            DeviceRow::Waiting { entry } => self.settle_row(client, device, entry),
        }
    }
}

// The question of a client to settle a device.
fn settle_query(client: u32, device: &Selector) -> Event
    ensures { result ≡ Event.Query client (Query.Settle device.now) }
{
    Event::Query {
        client,
        query: Query::Settle(*device),
    }
}
