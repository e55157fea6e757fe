//! A load of the history before anything is planned.
ghost use Rattle.std.specs.Prelude.{◌≡◌, [], None, Some};
ghost use Rattle.history_keeper.specs.Signs.{signs_of};
ghost use Rattle.daemon_core.specs.Reading.{place_told};
ghost use Rattle.fwupd_service.specs.Loads.{IsJudged, WasLoaded, load_status};

use fw_base::NoMemory;
use history_keeper::{Keeper, KeeperRefusal, Row, first_faulty};
use run_status::Status;
use std::alloc::Global;

/// Why nothing is planned over the rows that a load gave.
#[derive(Clone, Copy, Debug)]
pub enum LoadStop {
    /// The history couldn't be read: it gave no rows.
    KeeperFault,
    /// They are no valid history from this row on, counted from 1.
    BadHistory { entry: u32 },
    /// There was no memory.
    NoMemory,
}

/// The rows that a load gave, and why nothing is planned over them.
pub(crate) struct Loaded {
    pub rows: Vec<Row>,
    pub stop: Option<LoadStop>,
}

/// Loads the history, and looks whether it is a valid one.
#[tactic(auto, using(crate::proofs::LoadLaws::rows_told))]
pub(crate) fn load<K: Keeper>(alloc: Global, keeper: &mut K) -> Loaded
    requires no_doubt { K.doubt keeper.old ≡ None }
    ensures { WasLoaded (signs_of K.tells K.doubt K.faults) result.stop result.rows.items keeper.old keeper.new }
{
    match keeper.load(alloc) {
        Ok(rows) => {
            let stop = judged(alloc, &rows);
            Loaded { rows, stop }
        }
        Err(KeeperRefusal::Fault) => nothing(alloc, LoadStop::KeeperFault),
        Err(KeeperRefusal::NoMemory) => nothing(alloc, LoadStop::NoMemory),
    }
}

fn nothing(alloc: Global, stop: LoadStop) -> Loaded
    ensures rows { result.rows.items ≡ [] }
    ensures stop { result.stop ≡ Some stop }
{
    Loaded {
        rows: Vec::new(alloc),
        stop: Some(stop),
    }
}

// Why rows are no history over which anything is planned.
fn judged(alloc: Global, rows: &[Row]) -> Option<LoadStop>
    ensures { IsJudged result rows.now }
{
    match first_faulty(alloc, rows) {
        Ok(Some(at)) => Some(LoadStop::BadHistory {
            entry: place_told(at),
        }),
        Ok(None) => None,
        Err(NoMemory) => Some(LoadStop::NoMemory),
    }
}

/// A place, counted from 1, in 32 bits.
pub(crate) fn place_told(at: usize) -> u32
    ensures { result ≡ place_told at }
{
    if at < u32::MAX as usize {
        at as u32 + 1
    } else {
        u32::MAX
    }
}

/// How a status tells that nothing is planned.
pub(crate) fn load_status(stop: LoadStop) -> Status
    ensures { result ≡ load_status stop }
{
    match stop {
        LoadStop::KeeperFault => Status::KeeperFault,
        LoadStop::BadHistory { entry } => Status::BadHistory { entry },
        LoadStop::NoMemory => Status::NoMemory,
    }
}
