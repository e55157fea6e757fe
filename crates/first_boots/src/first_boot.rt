//! The state after a first boot.
ghost use Rattle.std.specs.Prelude.{◌≡◌, ◌≤◌, [], ◌∷◌, length, map, All, IfOk, OnOk};
ghost use Rattle.history_keeper.specs.Histories.{IsHistory};
ghost use Rattle.core_state.specs.Core.{Stands};
ghost use Rattle.update_log.specs.Legal.{is_absent};
ghost use Rattle.update_log.specs.Known.{basis_of};
ghost use Rattle.first_boots.specs.FirstBoot.{IsAsMade, IsFirstShown, first_boot, listed_from, seen_at, shown_by};

use core_state::{CoreState, step};
use emulated_boards::Board;
use fw_base::{Listed, NoMemory};
use fw_facts::Seen;
use history_keeper::Row;
use std::alloc::Global;
use update_log::{BoardSeen, BootPlan, Event, Facts, Found, Told};

/// The state that stands for a log of one boot by that plan, of new boards. The rows before it are a valid
/// history.
pub fn state_at_first_boot(
    alloc: Global,
    facts: &Facts,
    boards: &[Board],
    rows: &[Row],
    plan: &BootPlan,
) -> Result<CoreState, NoMemory>
    requires few { length facts.now.sheets ≤ 256 }
    requires count { length boards.now ≡ length facts.now.sheets }
    requires made { All IsAsMade boards.now }
    requires history { IsHistory rows.now }
    ensures log { IfOk result (λ state. state.log ≡ first_boot plan.now (map shown_by boards.now) ∷ []) }
    ensures stands { IfOk result (Stands (basis_of facts.now rows.now)) }
{
    let mut state = state_before(alloc, facts, rows)?;
    state.reserve(1)?;
    let shown = shown_by(alloc, boards)?;
    boot(alloc, facts, &mut state, plan, &shown)?;
    Ok(state)
}

/// The state before the first event, over rows that are a valid history.
pub fn state_before(alloc: Global, facts: &Facts, rows: &[Row]) -> Result<CoreState, NoMemory>
    requires few { length facts.now.sheets ≤ 256 }
    requires history { IsHistory rows.now }
    ensures empty { IfOk result (λ state. state.log ≡ []) }
    ensures stands { IfOk result (Stands (basis_of facts.now rows.now)) }
{
    let mut state = CoreState::new(alloc, facts)?;
    state.set_rows(Vec::from_slice(alloc, rows)?);
    Ok(state)
}

/// What each board shows.
fn shown_by(alloc: Global, boards: &[Board]) -> Result<Vec<Seen>, NoMemory>
    ensures { IfOk result (λ shown. shown.items ≡ map shown_by boards.now) }
{
    Ok(boards.iter().map(|board| board.view()).collect(alloc)?)
}

/// The boards as the boot of a plan lists them, of which nothing was told.
fn listed(alloc: Global, plan: &BootPlan, shown: &[Seen]) -> Result<Vec<BoardSeen>, NoMemory>
    requires { length shown.now ≤ 256 }
    ensures { IfOk result (λ listed. listed.items ≡ listed_from plan.now 0 shown.now) }
{
    let mut listed = Vec::new(alloc);
    for (number, seen) in shown.iter().enumerate() {
        listed.push(BoardSeen {
            board: number as u32,
            seen: seen_at(plan, number as u32, *seen),
            untold: Told::none(),
        })?;
    }
    Ok(listed)
}

/// What a board shows in the boot, by its number.
fn seen_at(plan: &BootPlan, number: u32, shown: Seen) -> Seen
    ensures { result ≡ seen_at plan.now number shown }
{
    if is_absent(plan, number) {
        Seen::Gone
    } else {
        shown
    }
}

fn is_absent(plan: &BootPlan, number: u32) -> bool
    ensures { result ≡ is_absent plan.now number }
{
    plan.absent.items().iter().any(|absent| *absent == number)
}

/// The boot.
fn boot(
    alloc: Global,
    facts: &Facts,
    state: &mut CoreState,
    plan: &BootPlan,
    shown: &[Seen],
) -> Result<(), NoMemory>
    requires stands { Stands (basis_of facts.now state.old.rows) state.old }
    requires empty { state.old.log ≡ [] }
    requires room { 1 ≤ state.old.room }
    requires few { length shown.now ≤ 256 }
    requires count { length shown.now ≡ length facts.now.sheets }
    requires made { All IsFirstShown shown.now }
    ensures log { OnOk result (state.new.log ≡ first_boot plan.now shown.now ∷ []) }
    ensures stands { OnOk result (Stands (basis_of facts.now state.old.rows) state.new) }
{
    let listed = listed(alloc, plan, shown)?;
    step(
        facts,
        state,
        Event::Boot {
            boot: 1,
            time: plan.time,
            limit: plan.limit,
            found: Found::Plain,
            boards: Listed::of(listed),
        },
    );
    Ok(())
}
