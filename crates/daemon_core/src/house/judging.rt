//! Judgements.
ghost use Rattle.std.specs.Prelude.{◌≡◌, ◌≤◌, ◌<◌, ◌+◌, true, false, Some, IsSome};
ghost use Rattle.update_log.specs.declared.event.Event.{Event};
ghost use Rattle.update_log.specs.Known.{row_of};
ghost use Rattle.update_log.specs.Pasts.{boots, off};

use super::House;
use super::keeping::commit;
use crate::judged::{Judged, Standing};
use crate::standing::{advance, standing_of};
use crate::stop::Stop;
use fw_base::NoMemory;
use history_keeper::{Keeper, RowState};
use update_log::{Event, Stored};
use version_formats::Version;

impl<K: Keeper> House<K> {
    ghost use Rattle.history_keeper.specs.Signs.{signs_of};
    ghost use Rattle.daemon_core.specs.declared.judged.Standing.{Standing};
    ghost use Rattle.daemon_core.specs.HouseLog.{Runs, roomier};
    ghost use Rattle.daemon_core.specs.House.{SameElsewhere};
    ghost use Rattle.daemon_core.specs.Housed.{past};
    ghost use Rattle.daemon_core.specs.Judging.{JudgeTurned, standing_of};
    ghost use Rattle.daemon_core.specs.Owed.{owed};
    ghost use Rattle.daemon_core.specs.Turns.{KeeperFared, Turned};

    // Lets the keeper store a judgement, and puts it behind the log.
    pub(crate) fn judge_so(
        &mut self,
        client: u32,
        entry: u32,
        version: Version,
        state: RowState,
    ) -> Result<Stored, Stop>
        requires booted { 0 < boots (past self.old) }
        requires runs { Runs self.old.house_log }
        requires loaded { self.old.house_log.loaded ≡ true }
        requires stands { standing_of self.old.house_log entry ≡ Some (Standing.Judged version state) }
        requires room { owed (past self.old) + 1 ≤ self.old.house_log.room }
        ensures turn { Turned client (λ stored. Event.Judge client entry version state stored) result self.old.house_log self.new.house_log }
        ensures places { self.new.places ≡ self.old.places }
        ensures pool { self.new.pool ≡ self.old.pool }
        ensures fared { KeeperFared (signs_of K.tells K.doubt K.faults) self.old self.new }
        ensures counts { K.faults self.old.keeper ≤ K.faults self.new.keeper }
    {
        self.house_log.known();
        let change = advance(self.house_log.core(), entry, state);
        let stored = commit(&mut self.keeper, &change);
        if let Stored::NoMemory = stored {
            return Err(Stop::NoMemory);
        }
        self.house_log.note(
            client,
            Event::Judge {
                client,
                entry,
                version,
                state,
                stored,
            },
        );
        Ok(stored)
    }

    // Enters a turn for a judgement, and does it.
    fn judge_done(
        &mut self,
        client: u32,
        entry: u32,
        version: Version,
        state: RowState,
    ) -> Result<Judged, Stop>
        requires booted { 0 < boots (past self.old) }
        requires stands { standing_of self.old.house_log entry ≡ Some (Standing.Judged version state) }
        ensures turn { JudgeTurned client entry result self.old.house_log self.new.house_log }
        ensures places { self.new.places ≡ self.old.places }
        ensures pool { self.new.pool ≡ self.old.pool }
        ensures fared { KeeperFared (signs_of K.tells K.doubt K.faults) self.old self.new }
        ensures counts { K.faults self.old.keeper ≤ K.faults self.new.keeper }
    {
        self.enter(client, 1)?;
        let stored = self.judge_so(client, entry, version, state)?;
        Ok(Judged::Done { state, stored })
    }

    // Makes room for one event more. With it the rows get their index back, which they lose where a boot
    // takes them: else each row that is judged before a turn began would be sought among all.
    fn reserve(&mut self) -> Result<(), NoMemory>
        ensures same { self.new.house_log ≡ roomier self.old.house_log self.new.house_log }
        ensures elsewhere { SameElsewhere self.old self.new }
    {
        self.house_log.reserve(1)
    }

    // Judges the row of an entry as it stands.
    fn judge_standing(&mut self, client: u32, entry: u32) -> Result<Judged, Stop>
        requires on { off (past self.old) ≡ false }
        requires booted { 0 < boots (past self.old) }
        requires row { IsSome (row_of self.old.house_log.core.rows entry) }
        ensures turn { JudgeTurned client entry result self.old.house_log self.new.house_log }
        ensures places { self.new.places ≡ self.old.places }
        ensures pool { self.new.pool ≡ self.old.pool }
        ensures fared { KeeperFared (signs_of K.tells K.doubt K.faults) self.old self.new }
        ensures counts { K.faults self.old.keeper ≤ K.faults self.new.keeper }
    {
        match standing_of(self.house_log.core(), entry) {
            Standing::Settled => Ok(Judged::Settled),
            Standing::Waits => Ok(Judged::Waits),
            Standing::Absent => Ok(Judged::Absent),
            Standing::Judged { version, state } => self.judge_done(client, entry, version, state),
        }
    }

    /// Judges the row of an entry by the version that its device shows. The entry has a row. Only a
    /// judgement that is done is put behind the log: any other answer ends no boot whose limit is reached.
    /// Room for it is made first, so that memory may be wanting whatever the row's state.
    pub fn judge(&mut self, client: u32, entry: u32) -> Result<Judged, Stop>
        requires booted { 0 < boots (past self.old) }
        requires row { IsSome (row_of self.old.house_log.core.rows entry) }
        ensures turn { JudgeTurned client entry result self.old.house_log self.new.house_log }
        ensures places { self.new.places ≡ self.old.places }
        ensures pool { self.new.pool ≡ self.old.pool }
        ensures fared { KeeperFared (signs_of K.tells K.doubt K.faults) self.old self.new }
        ensures counts { K.faults self.old.keeper ≤ K.faults self.new.keeper }
    {
        if self.is_off() {
            return Err(Stop::Off);
        }
        self.reserve()?;
        self.judge_standing(client, entry)
    }
}
