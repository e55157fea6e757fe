//! How a row stands to its judgement.
ghost use Rattle.std.specs.Prelude.{◌≡◌, ◌||◌, IsSome, Some, option_copied, option_map};
ghost use Rattle.history_keeper.specs.Histories.{is_unsettled};
ghost use Rattle.fw_facts.specs.Views.{version_of};
ghost use Rattle.core_state.specs.CoreSteps.{advance_on};
ghost use Rattle.update_log.specs.Holding.{is_live, live};
ghost use Rattle.update_log.specs.Known.{reason_of, row_of};
ghost use Rattle.update_log.specs.Pasts.{past_of, time_of};
ghost use Rattle.update_log.specs.Steps.{view_of_row};
ghost use Rattle.daemon_core.specs.Judging.{judged_by, judged_on, must_wait, standing};

use crate::judged::Standing;
use core_state::CoreState;
use fw_facts::DeviceView;
use history_keeper::{Change, Row, RowState};
use update_log::judge;

/// How the row of an entry stands to its judgement. The entry has a row.
pub fn standing_of(core: &CoreState, entry: u32) -> Standing
    requires { IsSome (row_of core.now.rows entry) }
    ensures { option_map (standing (past_of core.now.log) core.now.views entry) (row_of core.now.rows entry) ≡ Some result }
{
    match core.row(entry) {
        Some(row) => standing(core, entry, row),
        None => unreachable!(),
    }
}

fn standing(core: &CoreState, entry: u32, row: &Row) -> Standing
    ensures { result ≡ standing (past_of core.now.log) core.now.views entry row.now }
{
    if !is_unsettled(row.state) {
        return Standing::Settled;
    }
    if must_wait(core, entry, row.state) {
        return Standing::Waits;
    }
    judged_on(core.views(), row)
}

fn is_unsettled(state: RowState) -> bool
    ensures { result ≡ is_unsettled state }
{
    match state {
        RowState::Pending | RowState::NeedsReboot | RowState::Begun => true,
        RowState::Success | RowState::Failed => false,
    }
}

fn must_wait(core: &CoreState, entry: u32, state: RowState) -> bool
    ensures { result ≡ must_wait (past_of core.now.log) entry state }
{
    match state {
        RowState::Pending => true,
        RowState::Begun => is_live(core, entry),
        RowState::NeedsReboot => is_live(core, entry) || core.is_finished(entry),
        RowState::Success | RowState::Failed => false,
    }
}

fn is_live(core: &CoreState, entry: u32) -> bool
    ensures { result ≡ is_live (live (past_of core.now.log)) entry }
{
    core.live().iter().any(|live| live.entry == entry)
}

fn judged_on(views: &[DeviceView], row: &Row) -> Standing
    ensures { result ≡ judged_on row.now (view_of_row views.now row.now) }
{
    match view_of_row(views, row) {
        Some(view) => judged_by(view, row),
        None => Standing::Absent,
    }
}

fn view_of_row<'a>(views: &'a [DeviceView], row: &Row) -> Option<&'a DeviceView>
    ensures { option_copied result ≡ view_of_row views.now row.now }
{
    views.iter().find(|view| view.sheet.device == row.device)
}

fn judged_by(view: &DeviceView, row: &Row) -> Standing
    ensures { result ≡ judged_by row.now (version_of view.now) }
{
    match view.version() {
        Some(version) => Standing::Judged {
            version,
            state: judge(&version, row),
        },
        None => Standing::Absent,
    }
}

/// The change that gives an entry's row another state, and leaves its reason.
pub fn advance(core: &CoreState, entry: u32, state: RowState) -> Change
    ensures { result ≡ advance_on (time_of (past_of core.now.log)) core.now.rows entry state }
{
    Change::Advance {
        entry,
        state,
        reason: reason_of(core, entry),
        time: core.time(),
    }
}

fn reason_of(core: &CoreState, entry: u32) -> u8
    ensures { result ≡ reason_of core.now.rows entry }
{
    match core.row(entry) {
        Some(row) => row.reason,
        None => 0,
    }
}
