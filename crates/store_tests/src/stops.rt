//! The stop at each call of a file, from the first with which its database is made. A campaign runs over files of which
//! one stops, and then once more over what a crash left of them. In both runs together at most one write of the board
//! begins, the second run is done, and then each tag has one row.
ghost use Rattle.std.specs.Prelude.{◌≡◌, None};
ghost use Rattle.history_sqlite.specs.Keeping.{doubtful};

use crate::campaigns::{Asked, Left, document, run};
use crate::files::{
    CRASHES, Crashed, Failing, Halted, Stop, after, again, first, go_on, halt, has_wrong_tags,
    stopping,
};
use crate::stopping::{Stopping, StoppingKeeper};
use sqlite::Files;
use std::alloc::Global;
use std::sync::Wait;
use std::test::Fail;
use std::thread::Threads;

/// Stops counted up to here are enough for each campaign.
const MOST: u64 = 4000;

/// Runs a campaign over a keeper, and gives its files back.
fn run_over<R: Threads + Wait + Sync>(
    rt: &R,
    alloc: Global,
    text: &str,
    keeper: StoppingKeeper,
) -> Result<(Left, Files<Stopping>), Fail>
    requires { doubtful keeper.keeper ≡ None }
{
    StoppingKeeper::crosses();
    let (left, keeper) = run(rt, alloc, text, keeper)?;
    Ok((left, keeper.into_files()))
}

/// The first run over files that stop: how many writes began, and the files, where they were given back.
fn first_run<R: Threads + Wait + Sync>(
    rt: &R,
    alloc: Global,
    text: &str,
    failing: Failing,
    files: Files<Stopping>,
) -> Result<(usize, Option<Files<Stopping>>), Fail> {
    let (keeper, files) = first(alloc, files, failing)?;
    match keeper {
        None => Ok((0, files)),
        Some(keeper) => {
            let (left, files) = run_over(rt, alloc, text, keeper)?;
            Ok((left.begun, Some(files)))
        }
    }
}

/// The second run, over what such a crash left: how many writes began, or nothing, where it isn't done or not each tag
/// has one row after it.
fn second_run<R: Threads + Wait + Sync>(
    rt: &R,
    alloc: Global,
    text: &str,
    left: &Halted,
    crashed: Crashed,
) -> Result<Option<usize>, Fail> {
    let keeper = again(alloc, after(alloc, left, crashed)?)?;
    let (ran, files) = run_over(rt, alloc, text, keeper)?;
    let left = halt(alloc, files)?;
    if ran.status.as_str() != "done"
        || has_wrong_tags(alloc, after(alloc, &left, Crashed::Lost)?)?
    {
        return Ok(None);
    }
    Ok(Some(ran.begun))
}

/// The first crash after which a second run comes to something else: the writes that began in both runs are more than
/// one, it isn't done, or a tag has two rows.
fn first_wrong<R: Threads + Wait + Sync>(
    rt: &R,
    alloc: Global,
    text: &str,
    left: &Halted,
    begun: usize,
) -> Result<Option<Crashed>, Fail> {
    for crashed in CRASHES {
        match second_run(rt, alloc, text, left, crashed)? {
            Some(more) if begun.saturating_add(more) <= 1 => {}
            _ => return Ok(Some(crashed)),
        }
    }
    Ok(None)
}

/// What the runs come to.
#[derive(Clone, Copy, Debug, PartialEq, Eq)]
enum Told {
    /// All is well, and the first run met a stop.
    Stopped,
    /// All is well, and the first run met no stop.
    Whole,
    /// The files weren't given back.
    Gone,
    /// Something else after such a crash.
    Wrong(Crashed),
}

/// Runs the campaign over files of which one stops after so many calls, and then over what each crash left.
fn runs<R: Threads + Wait + Sync>(
    rt: &R,
    alloc: Global,
    text: &str,
    failing: Failing,
    stop: Stop,
    calls: u64,
) -> Result<Told, Fail> {
    let (begun, files) = first_run(rt, alloc, text, failing, stopping(alloc, stop, calls))?;
    let mut files = match files {
        Some(files) => files,
        None => return Ok(Told::Gone),
    };
    let told = if go_on(&mut files) {
        Told::Whole
    } else {
        Told::Stopped
    };
    let left = halt(alloc, files)?;
    match first_wrong(rt, alloc, text, &left, begun)? {
        Some(crashed) => Ok(Told::Wrong(crashed)),
        None => Ok(told),
    }
}

/// The number of calls after which a stop comes to something else, or at which no stop comes at all.
fn first_otherwise<R: Threads + Wait + Sync>(
    rt: &R,
    alloc: Global,
    text: &str,
    failing: Failing,
    stop: Stop,
) -> Result<(u64, Told), Fail> {
    for calls in 0..MOST {
        match runs(rt, alloc, text, failing, stop, calls)? {
            Told::Stopped => {}
            told => return Ok((calls, told)),
        }
    }
    Ok((MOST, Told::Stopped))
}

/// Nothing, where all is well at each stop of each file, up to a run that meets none; else the first stop that comes to
/// something else.
fn stops_unlike<R: Threads + Wait + Sync>(
    rt: &R,
    alloc: Global,
    asked: Asked,
    failing: Failing,
) -> Result<String, Fail> {
    let text = document(alloc, asked)?;
    for stop in [Stop::Log, Stop::Database] {
        let (calls, told) = first_otherwise(rt, alloc, &text, failing, stop)?;
        if calls == 0 || told != Told::Whole {
            return Ok(format!(in alloc; "{stop:?} {calls} {told:?}")?);
        }
    }
    Ok(String::new(alloc))
}

#[test]
fn two_installs_under_one_tag_and_a_second_boot(rt: HostRuntime) -> Result<(), Fail> {
    let told = stops_unlike(&rt, rt.alloc(), Asked::Repeated, &[])?;
    assert_eq!(rt; told.as_str(), "");
    Ok(())
}

#[test]
fn an_offline_install_over_two_boots(rt: HostRuntime) -> Result<(), Fail> {
    let told = stops_unlike(&rt, rt.alloc(), Asked::PutOff, &[])?;
    assert_eq!(rt; told.as_str(), "");
    Ok(())
}

/// The commit of the first claim fails, and the second boot asks again.
#[test]
fn a_retried_commit_kept(rt: HostRuntime) -> Result<(), Fail> {
    let told = stops_unlike(&rt, rt.alloc(), Asked::Again, &[(2, true)])?;
    assert_eq!(rt; told.as_str(), "");
    Ok(())
}

#[test]
fn a_retried_commit_lost(rt: HostRuntime) -> Result<(), Fail> {
    let told = stops_unlike(&rt, rt.alloc(), Asked::Again, &[(2, false)])?;
    assert_eq!(rt; told.as_str(), "");
    Ok(())
}
