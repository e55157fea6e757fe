//! The rows that wait for the daemon to judge them.
ghost use Rattle.std.specs.Prelude.{◌≡◌, ◌<◌, ◌∷◌, List, [], Some};
ghost use Rattle.history_keeper.specs.declared.row.Row.{Row};
ghost use Rattle.history_keeper.specs.Signs.{signs_of};
ghost use Rattle.update_log.specs.Known.{Basis, row_of};
ghost use Rattle.update_log.specs.Pasts.{boots};
ghost use Rattle.daemon_core.specs.Housed.{past};
ghost use Rattle.client_plays.specs.Endings.{IsIdle};
ghost use Rattle.client_plays.specs.Tools.{Files, files_alone};
ghost use Rattle.daemon_tasks.specs.Judged.{AllKnown, HouseTried, JudgeStays, JudgedAll, to_judge_in, told_by};
ghost use Rattle.daemon_tasks.specs.Stays.{rows_at};
ghost use Rattle.daemon_tasks.specs.Waits.{AreApart};

use daemon_core::{House, Judged, Stop};
use history_keeper::Keeper;

/// How the daemon went through its rows.
#[derive(Clone, Copy, Debug, PartialEq, Eq)]
pub(crate) enum Went {
    /// All were gone through. `wanting` says that memory was wanting for some.
    Through { wanting: bool },
    /// The boot is off.
    Off { wanting: bool },
}

// What is told of a judgement: whether memory was wanting so far, or nothing where the boot is off.
fn told(outcome: Result<Judged, Stop>, wanting: bool) -> Option<bool>
    ensures { result ≡ told_by outcome wanting }
{
    match outcome {
        Ok(_) => Some(wanting),
        Err(Stop::NoMemory) => Some(true),
        Err(Stop::Off) => None,
    }
}

// Judges one row more, if it can be judged.
fn judge_next<K: Keeper>(house: &mut House<K>, entry: u32, wanting: bool) -> Option<bool>
    requires booted { 0 < boots (past house.old) }
    requires idle { IsIdle (past house.old) }
    requires row { (row : Row) × (row_of (rows_at house.old.house_log) entry ≡ Some row) }
    ensures more { (basis : Basis) (files : Files) → HouseTried (signs_of K.tells K.doubt K.faults) basis (files_alone files) result wanting (to_judge_in house.old.house_log (entry ∷ [])) house.old house.new }
    ensures stays { JudgeStays (entry ∷ []) house.old.house_log house.new.house_log }
{
    house.known();
    let outcome = house.judge(0, entry);
    told(outcome, wanting)
}

// Judges each of these rows that can be judged, one after the other, until the boot is off.
pub(crate) fn judge_all<K: Keeper>(house: &mut House<K>, entries: &[u32]) -> Went
    requires booted { 0 < boots (past house.old) }
    requires idle { IsIdle (past house.old) }
    requires rows { AllKnown house.old.house_log entries.now }
    requires apart { AreApart entries.now }
    ensures { (basis : Basis) (files : Files) → JudgedAll (signs_of K.tells K.doubt K.faults) basis (files_alone files) result entries.now house.old house.new }
{
    let mut wanting = false;
    for entry in entries {
        match judge_next(house, *entry, wanting) {
            Some(now) => wanting = now,
            None => return Went::Off { wanting },
        }
    }
    Went::Through { wanting }
}
