//! What no clause says of the state: that it is made and stepped with ample memory.
ghost use Rattle.std.specs.Prelude.{◌≡◌, ◌≤◌, [], IfOk};
ghost use Rattle.core_state.specs.Core.{Stands};
ghost use Rattle.update_log.specs.Known.{basis_of};

use core_state::{CoreState, step};
use fw_base::Listed;
use fw_facts::{MachineFacts, Sheet};
use release_catalogue::Catalogue;
use std::alloc::Global;
use std::test::Fail;
use update_log::{BoardSeen, Event, Facts, Found};

const POOL: u32 = 64;

fn machine(alloc: Global) -> MachineFacts {
    MachineFacts {
        ids: Listed::of(Vec::new(alloc)),
        hardware: Listed::of(Vec::new(alloc)),
        on_ac: true,
        power_low: false,
        lid_closed: false,
    }
}

fn facts_with(alloc: Global, sheets: Vec<Sheet>) -> Result<Facts, Fail>
    ensures { IfOk result (λ facts. facts.sheets ≡ sheets.items) }
{
    Ok(Facts {
        machine: machine(alloc),
        catalogue: Catalogue::of(alloc, Vec::new(alloc))?,
        features: Listed::of(Vec::new(alloc)),
        vetoes: Listed::of(Vec::new(alloc)),
        sheets: Listed::of(sheets),
        pool: POOL,
    })
}

/// A machine without boards is booted, and its power is cut at once.
fn boot_and_cut(facts: &Facts, state: &mut CoreState, boards: Vec<BoardSeen>)
    requires no_boards { facts.now.sheets ≡ [] }
    requires none_listed { boards.items ≡ [] }
    requires stands { Stands (basis_of facts.now []) state.old }
    requires empty { state.old.log ≡ [] }
    requires room { 2 ≤ state.old.room }
{
    step(
        facts,
        state,
        Event::Boot {
            boot: 1,
            time: 1000,
            limit: Some(0),
            found: Found::Plain,
            boards: Listed::of(boards),
        },
    );
    step(facts, state, Event::Cut);
}

/// The same, with room for both.
fn boot_and_cut_with_room(alloc: Global, facts: &Facts, state: &mut CoreState) -> Result<(), Fail>
    requires no_boards { facts.now.sheets ≡ [] }
    requires stands { Stands (basis_of facts.now []) state.old }
    requires empty { state.old.log ≡ [] }
{
    state.reserve(2)?;
    boot_and_cut(facts, state, Vec::new(alloc));
    Ok(())
}

fn are_logged(state: &CoreState) -> bool {
    let is_off = state.off() && state.boots() == 1 && state.time() == 1000;
    is_off && state.log().len() == 2
}

/// Whether both are logged by a new state.
fn are_logged_over(alloc: Global, facts: &Facts) -> Result<bool, Fail>
    requires no_boards { facts.now.sheets ≡ [] }
{
    let mut state = CoreState::new(alloc, facts)?;
    boot_and_cut_with_room(alloc, facts, &mut state)?;
    Ok(are_logged(&state))
}

fn are_logged_of_none(alloc: Global) -> Result<bool, Fail> {
    let facts = facts_with(alloc, Vec::new(alloc))?;
    are_logged_over(alloc, &facts)
}

#[test]
fn a_boot_and_a_cut_are_logged(rt: HostRuntime) -> Result<(), Fail> {
    assert!(rt; are_logged_of_none(rt.alloc())?);
    Ok(())
}
