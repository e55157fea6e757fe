//! Boots, and the rows that they load.
ghost use Rattle.std.specs.Prelude.{◌≡◌, ◌≤◌, ◌<◌, ◌+◌, ◌-◌, ◌^◌, true, false, length, map};
ghost use Rattle.history_keeper.specs.Histories.{IsHistory};
ghost use Rattle.row_index.specs.Formers.{former_of};
ghost use Rattle.update_log.specs.Crashes.{next_boot};
ghost use Rattle.update_log.specs.Holding.{holds, live};
ghost use Rattle.update_log.specs.Known.{rows_found};
ghost use Rattle.update_log.specs.Legal.{FoundAllowed};
ghost use Rattle.update_log.specs.Pasts.{boots, is_found_fault};
ghost use Rattle.daemon_core.specs.Keeping.{still_reopened};

use super::HouseLog;
use super::opening::{Opening, is_taken};
use fw_base::Listed;
use history_keeper::Row;
use row_index::Former;
use update_log::{BoardSeen, BootPlan, Event, Found};

impl HouseLog {
    ghost use Rattle.daemon_core.specs.HouseLog.{Appended, IsHouseLog};
    ghost use Rattle.daemon_core.specs.Booting.{AllListed, opened};
    ghost use Rattle.daemon_core.specs.Housed.{basis_in, past_in};

    /// Whether a boot took the rows that it loaded.
    pub(crate) fn is_loaded(&self) -> bool
        ensures { result ≡ self.now.loaded }
    {
        is_taken(&self.opening)
    }

    /// Takes the rows that were loaded for those before the log; the first list says what each of them is now.
    pub(crate) fn take_opening(&mut self, formers: Vec<Former>, rows: Vec<Row>)
        requires unloaded { self.old.loaded ≡ false }
        requires formers { formers.items ≡ map former_of rows.items }
        requires history { IsHistory rows.items }
        ensures opened { self.new ≡ opened rows.items self.new.core.row_room self.old }
    {
        self.known();
        self.opening = Opening::Taken(formers);
        self.core.set_rows(rows);
    }

    /// Keeps the rows that were loaded, and aren't taken.
    pub(crate) fn refuse_opening(&mut self, rows: Vec<Row>)
        requires unloaded { self.old.loaded ≡ false }
        ensures kept { self.new ≡ record self.old { opening = rows.items } }
    {
        self.opening = Opening::Untaken(rows);
    }

    /// Notes that the keeper is to be opened again.
    pub(crate) fn note_reopened(&mut self)
        requires loaded { self.old.loaded ≡ true }
        ensures { self.new ≡ record self.old { reopened = true } }
    {
        self.reopened = true;
    }

    /// Notes what the boot behind the log found: one that read the history says what became of the change
    /// in doubt.
    pub(crate) fn note_found(&mut self, found: Found)
        ensures { self.new ≡ record self.old { reopened = still_reopened found self.old.reopened } }
    {
        self.reopened = is_reopened(found, self.reopened);
    }

    /// Puts the next boot behind the log.
    pub(crate) fn note_boot(&mut self, plan: &BootPlan, found: Found, boards: Vec<BoardSeen>)
        requires listed { AllListed (basis_in self.old) self.old.first (past_in self.old) plan.now boards.items }
        requires found { FoundAllowed found self.old.core.doubt }
        requires loaded { self.old.loaded ≡ false → is_found_fault found ≡ true }
        requires room { 2 ≤ self.old.room }
        requires row { length (rows_found found self.old.core.doubt self.old.core.rows) ≤ length self.old.core.rows + self.old.core.row_room }
        requires few_boots { boots (past_in self.old) + 1 < 2 ^ 32 }
        requires timely { plan.now.time ≤ 2 ^ 63 - 1 }
        ensures appended { Appended 0 (next_boot (past_in self.old) plan.now found boards.items) self.old self.new }
        ensures rows { self.new.core.rows ≡ rows_found found self.old.core.doubt self.old.core.rows }
        ensures known { IsHouseLog self.new }
    {
        self.known();
        let boot = self.core.boots() as u32 + 1;
        self.append(
            0,
            Event::Boot {
                boot,
                time: plan.time,
                limit: plan.limit,
                found,
                boards: Listed::of(boards),
            },
        );
    }
}

// Whether the keeper still counts as opened again behind a boot that found this.
fn is_reopened(found: Found, reopened: bool) -> bool
    ensures { result ≡ still_reopened found reopened }
{
    match found {
        Found::Fault => reopened,
        Found::Plain | Found::Kept | Found::Lost => false,
    }
}
