//! In which state a live entry ends.
ghost use Rattle.std.specs.Prelude.{◌≡◌, IsSome, List, option_and_then, option_copied};
ghost use Rattle.history_keeper.specs.declared.row.Row.{Row};
ghost use Rattle.history_keeper.specs.declared.change.Change.{Change};
ghost use Rattle.core_state.specs.Core.{Stands};
ghost use Rattle.update_log.specs.Holding.{live_entry};
ghost use Rattle.update_log.specs.Known.{Basis, reason_of};
ghost use Rattle.update_log.specs.Pasts.{past_of, time_of};
ghost use Rattle.update_log.specs.Steps.{closing, closing_at, view_of_row};

use super::HouseLog;
use core_state::CoreState;
use fw_facts::DeviceView;
use history_keeper::{Change, Row, RowState};
use update_log::{Trace, closing};

impl HouseLog {
    ghost use Rattle.daemon_core.specs.Housed.{basis_in, past_in};

    /// In which state a live entry ends, as it stands now.
    pub fn closing(&self, entry: u32) -> Option<RowState>
        requires { IsSome (live_entry (past_in self.now) entry) }
        ensures { result ≡ closing (basis_in self.now) (past_in self.now) entry }
    {
        closing_in(&self.core, entry)
    }

    /// The change that gives a row another state, and leaves its reason.
    pub fn advance(&self, entry: u32, state: RowState) -> Change
        ensures { result ≡ Change.Advance entry state (reason_of self.now.core.rows entry) (time_of (past_in self.now)) }
    {
        let reason = reason_in(&self.core, entry);
        let time = self.core.time();
        Change::Advance {
            entry,
            state,
            reason,
            time,
        }
    }
}

fn reason_in(core: &CoreState, entry: u32) -> u8
    ensures { result ≡ reason_of core.now.rows entry }
{
    match core.row(entry) {
        Some(row) => row.reason,
        None => 0,
    }
}

fn closing_in(core: &CoreState, entry: u32) -> Option<RowState>
    requires { IsSome (live_entry (past_of core.now.log) entry) }
    ensures { (basis : Basis) → Stands basis core.now → result ≡ closing basis (past_of core.now.log) entry }
{
    let trace = core.trace(entry);
    closing_with(&trace, core.row(entry), core.views())
}

fn closing_with(trace: &Trace, row: Option<&Row>, views: &[DeviceView]) -> Option<RowState>
    ensures { result ≡ option_and_then (closing_at views.now trace.now) (option_copied row.entry) }
{
    match row {
        Some(row) => closing_at(trace, row, views),
        None => None,
    }
}

fn closing_at(trace: &Trace, row: &Row, views: &[DeviceView]) -> Option<RowState>
    ensures { result ≡ closing_at views.now trace.now row.now }
{
    match view_of(views, row) {
        Some(view) => Some(closing(trace, row, view)),
        None => None,
    }
}

fn view_of<'a>(views: &'a [DeviceView], row: &Row) -> Option<&'a DeviceView>
    ensures { option_copied result ≡ view_of_row views.now row.now }
{
    views.iter().find(|view| view.sheet.device == row.device)
}
