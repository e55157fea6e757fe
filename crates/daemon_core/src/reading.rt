//! Reading the history at a boot.
ghost use Rattle.std.specs.Prelude.{◌≡◌, ◌≤◌, false, true, None, IfOk};
ghost use Rattle.history_keeper.specs.Signs.{signs_of};
ghost use Rattle.daemon_core.specs.Keeping.{Keeps};
ghost use Rattle.daemon_core.specs.Reading.{Became, FirstRead, LaterRead, WasRead, found_unchanged, place_told};

use crate::comparing::{first_difference, with_change};
use crate::house_log::HouseLog;
use core_state::CoreState;
use fw_base::NoMemory;
use history_keeper::{Change, Keeper, KeeperRefusal, Row, first_faulty};
use row_index::formers_of;
use std::alloc::Global;
use update_log::Found;

/// What a boot read.
#[derive(Clone, Copy)]
pub(crate) enum Loaded {
    /// The rows of the log, and what became of the change in doubt.
    Found(Found),
    /// The history couldn't be read.
    Fault,
    /// Other rows, from this place on, counted from 1.
    Bad(u32),
}

/// Reads the history: the rows before the log, until a boot took them, and later what became of the change
/// in doubt.
pub(crate) fn read_history<K: Keeper>(
    alloc: Global,
    house_log: &mut HouseLog,
    keeper: &mut K,
) -> Result<Loaded, NoMemory>
    requires fresh { house_log.old.loaded ≡ false → K.doubt keeper.old ≡ None }
    requires kept { house_log.old.loaded ≡ true → Keeps (signs_of K.tells K.doubt K.faults) keeper.old house_log.old.core.rows house_log.old.core.doubt }
    ensures first { house_log.old.loaded ≡ false → FirstRead (signs_of K.tells K.doubt K.faults) result house_log.old house_log.new keeper.old keeper.new }
    ensures later { house_log.old.loaded ≡ true → (house_log.new ≡ record house_log.old { reopened = true }) × LaterRead (signs_of K.tells K.doubt K.faults) K.settled result house_log.old.core.rows house_log.old.core.doubt keeper.old keeper.new }
    ensures was_read { WasRead K.tells K.settled keeper.old keeper.new }
    ensures counts { K.faults keeper.old ≤ K.faults keeper.new }
{
    if house_log.is_loaded() {
        house_log.note_reopened();
        later_history(alloc, house_log.core(), keeper)
    } else {
        first_history(alloc, house_log, keeper)
    }
}

// Reads the rows before the log, while no boot has taken any.
fn first_history<K: Keeper>(
    alloc: Global,
    house_log: &mut HouseLog,
    keeper: &mut K,
) -> Result<Loaded, NoMemory>
    requires unloaded { house_log.old.loaded ≡ false }
    requires no_doubt { K.doubt keeper.old ≡ None }
    ensures read { FirstRead (signs_of K.tells K.doubt K.faults) result house_log.old house_log.new keeper.old keeper.new }
    ensures was_read { WasRead K.tells K.settled keeper.old keeper.new }
    ensures counts { K.faults keeper.old ≤ K.faults keeper.new }
{
    let rows = match keeper.load(alloc) {
        Ok(rows) => rows,
        Err(KeeperRefusal::Fault) => return Ok(Loaded::Fault),
        Err(KeeperRefusal::NoMemory) => return Err(NoMemory),
    };
    match first_faulty(alloc, &rows)? {
        Some(at) => {
            house_log.refuse_opening(rows);
            Ok(Loaded::Bad(place_told(at)))
        }
        None => {
            let formers = formers_of(alloc, &rows)?;
            house_log.take_opening(formers, rows);
            Ok(Loaded::Found(Found::Plain))
        }
    }
}

// Reopens the keeper, and finds what became of the change in doubt.
fn later_history<K: Keeper>(
    alloc: Global,
    core: &CoreState,
    keeper: &mut K,
) -> Result<Loaded, NoMemory>
    requires { Keeps (signs_of K.tells K.doubt K.faults) keeper.old core.now.rows core.now.doubt }
    ensures read { LaterRead (signs_of K.tells K.doubt K.faults) K.settled result core.now.rows core.now.doubt keeper.old keeper.new }
    ensures was_read { WasRead K.tells K.settled keeper.old keeper.new }
    ensures counts { K.faults keeper.old ≤ K.faults keeper.new }
{
    match keeper.reopen() {
        Ok(()) => {}
        Err(KeeperRefusal::Fault) => return Ok(Loaded::Fault),
        Err(KeeperRefusal::NoMemory) => return Err(NoMemory),
    }
    let rows = match keeper.load(alloc) {
        Ok(rows) => rows,
        Err(KeeperRefusal::Fault) => return Ok(Loaded::Fault),
        Err(KeeperRefusal::NoMemory) => return Err(NoMemory),
    };
    what_became(alloc, &rows, core.rows(), &core.doubt())
}

fn what_became(
    alloc: Global,
    loaded: &[Row],
    rows: &[Row],
    doubt: &Option<Change>,
) -> Result<Loaded, NoMemory>
    ensures { IfOk result (λ read. Became read loaded.now rows.now doubt.now) }
{
    let Some(at) = first_difference(loaded, rows) else {
        return Ok(Loaded::Found(unchanged(doubt)));
    };
    if let Some(change) = doubt {
        let changed = with_change(alloc, rows, change)?;
        if first_difference(loaded, &changed).is_none() {
            return Ok(Loaded::Found(Found::Kept));
        }
    }
    Ok(Loaded::Bad(place_told(at)))
}

fn unchanged(doubt: &Option<Change>) -> Found
    ensures { result ≡ found_unchanged doubt.now }
{
    match doubt {
        Some(_) => Found::Lost,
        None => Found::Plain,
    }
}

// A place, counted from 1, in 32 bits.
fn place_told(at: usize) -> u32
    ensures { result ≡ place_told at }
{
    if at < u32::MAX as usize {
        at as u32 + 1
    } else {
        u32::MAX
    }
}
