//! Histories in real files.
use crate::campaigns::{Asked, Left, document, run};
use crate::files::{Failing, plan};
use history_file::HistoryFile;
use history_sqlite::SqlKeeper;
use history_sqlite::database_files::open_path;
use sqlite::Unknown;
use std::fs;
use std::rt::HostRuntime;
use std::sync::Wait;
use std::test::Fail;
use std::thread::Threads;

/// A run over the file at the path. Such calls of its keeper fail.
fn run_at<R: Threads + Wait + Sync>(
    rt: &R,
    host: &HostRuntime,
    path: &str,
    failing: Failing,
) -> Result<Left, Fail> {
    let alloc = host.alloc();
    let connection = open_path(host, path, Unknown)?;
    let keeper = SqlKeeper::adopt_planned(alloc, connection, plan(alloc, failing)?)?;
    HistoryFile::crosses();
    let text = document(alloc, Asked::Again)?;
    let (left, _keeper) = run(rt, alloc, &text, HistoryFile { keeper })?;
    Ok(left)
}

/// Whether the report tells a doubt, whose change was kept and is judged.
fn tells_the_doubt(left: &Left) -> bool {
    left.tells("client 1 claim t1 refused 16 keeper-fault\n")
        && left.tells("boot 2 time 2000 doubt kept\n")
        && left.tells("client 0 judge 1 1.0.0 failed\n")
}

/// A change in doubt is told as kept over a real file, and the next run finds it there.
#[test]
fn a_doubt_is_kept_in_a_file(rt: HostRuntime) -> Result<(), Fail> {
    let _ = fs::remove_dir_all(&rt, "store_tests_kept");
    fs::create_dir(&rt, "store_tests_kept")?;
    let first = run_at(&rt, &rt, "store_tests_kept/history.db", &[(2, true)])?;
    assert!(rt; tells_the_doubt(&first));
    let second = run_at(&rt, &rt, "store_tests_kept/history.db", &[])?;
    assert!(rt; second.tells("client 1 ask t1 usb1 1.1.0 kept 1 failed\n"));
    assert_eq!(rt; first.begun.saturating_add(second.begun), 0);
    fs::remove_dir_all(&rt, "store_tests_kept")?;
    Ok(())
}
