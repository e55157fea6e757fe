//! A history in a database, which outlives a run.
use crate::base::{WELL, document, over_database};
use crate::faults::{AGAIN, BEGIN, BOOT, INSTALL, OLD};
use history_keeper::Keeper;
use history_sqlite::SqlKeeper;
use std::alloc::Global;
use std::sync::Wait;
use std::test::Fail;
use std::thread::Threads;

/// What two runs of one document over one database tell otherwise.
fn second_run_unlike<R: Threads + Wait + Sync>(rt: &R, alloc: Global) -> Result<String, Fail> {
    let text = document(alloc, &[])?;
    let keeper = SqlKeeper::memory(alloc)?;
    let (left, mut keeper) = over_database(rt, alloc, &text, keeper, &WELL)?;
    let told = left.unlike(alloc, "done", &INSTALL)?;
    if !told.is_empty() {
        return Ok(told);
    }
    keeper.reopen()?;
    let (left, _keeper) = over_database(rt, alloc, &text, keeper, &WELL)?;
    left.unlike(alloc, "done", &[BEGIN, BOOT, OLD, AGAIN, "end 2\n"])
}

/// The rows of a database outlive a run of the program: the request is not done twice.
#[test]
fn a_database_outlives_a_run(rt: HostRuntime) -> Result<(), Fail> {
    let told = second_run_unlike(&rt, rt.alloc())?;
    assert_eq!(rt; told.as_str(), "");
    Ok(())
}
