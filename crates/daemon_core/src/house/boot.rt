//! Boots.
ghost use Rattle.std.specs.Prelude.{◌≡◌, ◌≤◌, ◌<◌, ◌+◌, ◌-◌, ◌^◌, [], false, true, length, vec_capacity, IfOk, OnOk};
ghost use Rattle.update_log.specs.Holding.{holds, live};
ghost use Rattle.update_log.specs.Known.{rows_found};
ghost use Rattle.update_log.specs.Pasts.{boots};

use super::House;
use crate::booting::BootStop;
use crate::reading::{Loaded, read_history};
use crate::starting::start_all;
use fw_base::NoMemory;
use history_keeper::Keeper;
use std::alloc::Global;
use update_log::{BoardSeen, BootPlan, Found};

impl<K: Keeper> House<K> {
    ghost use Rattle.history_keeper.specs.Signs.{signs_of};
    ghost use Rattle.daemon_core.specs.HouseLog.{roomier};
    ghost use Rattle.daemon_core.specs.Booting.{BoardsStarted};
    ghost use Rattle.daemon_core.specs.Boots.{BootTurned, IsReady};
    ghost use Rattle.daemon_core.specs.House.{SameElsewhere};
    ghost use Rattle.daemon_core.specs.Housed.{past};
    ghost use Rattle.daemon_core.specs.Reading.{CanBootAfter, FirstRead, IsUngiven, LaterRead, WasRead};
    ghost use Rattle.daemon_core.specs.Turns.{KeeperFared};

    /// Starts the machine by that plan: loads the keeper's rows, reopening it first where an earlier boot
    /// went well, starts each board, and puts the boot behind the log. No client has a hold or a live entry,
    /// the plan's time fits a signed number of 64 bits, and there were fewer than 2^32 - 1 boots.
    ///
    /// `KeeperFault` comes where the history couldn't be read: the boards were started, and the boot is off.
    /// `BadHistory` comes, until a boot went well, exactly where the loaded rows aren't a valid history, and
    /// later exactly where they aren't those of the log with or without the change in doubt; then the log,
    /// the boards and the pool stay. Under `NoMemory` only the keeper may have been reopened.
    pub fn boot(&mut self, alloc: Global, plan: &BootPlan) -> Result<(), BootStop>
        requires holds { holds (past self.old) ≡ [] }
        requires live { live (past self.old) ≡ [] }
        requires few { boots (past self.old) + 1 < 2 ^ 32 }
        requires timely { plan.now.time ≤ 2 ^ 63 - 1 }
        ensures turn { BootTurned (signs_of K.tells K.doubt K.faults) K.settled plan.now result self.old self.new }
        ensures ungiven { IsUngiven K.settled self.old.keeper self.new.keeper }
        ensures fared { KeeperFared (signs_of K.tells K.doubt K.faults) self.old self.new }
        ensures counts { K.faults self.old.keeper ≤ K.faults self.new.keeper }
    {
        let Ok(listed) = self.make_room(alloc) else {
            return Err(BootStop::NoMemory);
        };
        let Ok(read) = self.read(alloc) else {
            return Err(BootStop::NoMemory);
        };
        match read {
            Loaded::Found(found) => {
                self.start_boards(plan, found, listed);
                Ok(())
            }
            Loaded::Fault => {
                self.start_boards(plan, Found::Fault, listed);
                Err(BootStop::KeeperFault)
            }
            Loaded::Bad(entry) => Err(BootStop::BadHistory { entry }),
        }
    }

    // Makes room for a boot, and a list for its boards.
    fn make_room(&mut self, alloc: Global) -> Result<Vec<BoardSeen>, NoMemory>
        ensures empty { IfOk result (λ listed. listed.items ≡ []) }
        ensures capacity { IfOk result (λ listed. length self.old.places ≤ vec_capacity listed) }
        ensures room { OnOk result (2 ≤ self.new.house_log.room) }
        ensures row_room { OnOk result (1 ≤ self.new.house_log.core.row_room) }
        ensures same { self.new.house_log ≡ roomier self.old.house_log self.new.house_log }
        ensures elsewhere { SameElsewhere self.old self.new }
    {
        self.house_log.known();
        let listed = Vec::with_capacity(alloc, self.places.len())?;
        self.house_log.reserve(2)?;
        Ok(listed)
    }

    // Reads the history.
    fn read(&mut self, alloc: Global) -> Result<Loaded, NoMemory>
        requires { 1 ≤ self.old.house_log.core.row_room }
        ensures ready { CanBootAfter (signs_of K.tells K.doubt K.faults) result self.new }
        ensures first { self.old.house_log.loaded ≡ false → FirstRead (signs_of K.tells K.doubt K.faults) result self.old.house_log self.new.house_log self.old.keeper self.new.keeper }
        ensures later { self.old.house_log.loaded ≡ true → (self.new.house_log ≡ record self.old.house_log { reopened = true }) × LaterRead (signs_of K.tells K.doubt K.faults) K.settled result self.old.house_log.core.rows self.old.house_log.core.doubt self.old.keeper self.new.keeper }
        ensures was_read { WasRead K.tells K.settled self.old.keeper self.new.keeper }
        ensures places { self.new.places ≡ self.old.places }
        ensures pool { self.new.pool ≡ self.old.pool }
        ensures counts { K.faults self.old.keeper ≤ K.faults self.new.keeper }
    {
        self.house_log.known();
        read_history(alloc, &mut self.house_log, &mut self.keeper)
    }

    // Starts the boards, and puts the boot behind the log.
    fn start_boards(&mut self, plan: &BootPlan, found: Found, listed: Vec<BoardSeen>)
        requires { IsReady (signs_of K.tells K.doubt K.faults) plan.now found listed.items (vec_capacity listed) self.old }
        ensures started { BoardsStarted plan.now found self.old.house_log self.new.house_log self.old.places self.new.places }
        ensures rows { self.new.house_log.core.rows ≡ rows_found found self.old.house_log.core.doubt self.old.house_log.core.rows }
        ensures keeper { self.new.keeper ≡ self.old.keeper }
        ensures pool { self.new.pool ≡ self.old.pool }
    {
        self.house_log.known();
        let mut boards = listed;
        start_all(&mut self.places, plan, &mut boards);
        self.house_log.note_boot(plan, found, boards);
        self.house_log.note_found(found);
    }
}
