//! The program: makes the real input, output and history, hands them to the top call over the program's own
//! plugins and shelves, and ends with its status.
#![tactic(auto)]

ghost use Rattle.std.specs.Prelude.{◌≡◌, [], None, map};
ghost use Rattle.board_plugins.specs.Sheets.{capsule_sheet, flash_sheet, loader_sheet, power_sheet};
ghost use Rattle.site_making.specs.Settled.{vetoes_of};
ghost use Rattle.host_service.specs.Brought.{AreProgram};

use board_plugins::{Capsule, Flash, Loader, Power};
use fw_base::NoMemory;
use fwupd_service::{Kept, Ran, Status, kept_by};
use history_file::{HistoryFile, OnHeap};
use history_keeper::{Keeper, KeeperRefusal, MemoryKeeper};
use host_service::{FileHistory, run_over_file, run_over_folder};
use marks_sqlite::FileMarks;
use outer_traits::{FolderShelf, ReadSource, Sink, Source, WriteSink};
use plugin_trait::Plugin;
use report_queue::{MarkKeeper, MemoryMarks};
use run_status::help_for;
use std::alloc::{AllocError, Global};
use std::io::{BufWriter, IsTerminal, Write};
use std::process::ExitCode;
use std::rt::{HostRuntime, Runtime};
use std::sync::Wait;
use std::thread::Threads;
use std::{env, io};

/// The folder of the payloads, in the folder where the program is called.
const SHELF: &str = "payloads";

/// The file of the history, in the folder where the program is called.
const HISTORY: &str = "history.db";

/// The file of the marks of reported rows, in the folder where the program is called.
const MARKS: &str = "reports.db";

/// How many bytes of the output are gathered before they are handed on.
const GATHERED: usize = 65_536;

/// How many bytes a block has that is larger than those that the store takes as it makes a file.
const LARGE_BLOCK: usize = 1_048_576;

/// Runs the command of the command line. `host` is the same runtime, of which the history's file and the shelves are
/// made. `NoMemory` comes only where the words, the shelves or the plugins couldn't be made.
fn run<R: Runtime + AllocGlobal + Threads + Wait + Sync>(
    rt: &R,
    host: &HostRuntime,
) -> Result<Status, NoMemory> {
    let args = match env::args(rt) {
        Ok(args) => args,
        Err(error) if error.kind() == io::ErrorKind::OutOfMemory => return Err(NoMemory),
        Err(_) => return Ok(Status::Usage),
    };
    let mut words = Vec::new(rt.alloc());
    for word in args.skip(1) {
        words.push(word)?;
    }
    let mut texts = Vec::new(rt.alloc());
    for word in &words {
        texts.push(word.as_bytes())?;
    }
    run_words(rt, host, &texts)
}

/// Makes the program's four plugins, and runs the command that the words say with them.
fn run_words<R: Runtime + AllocGlobal + Threads + Wait + Sync>(
    rt: &R,
    host: &HostRuntime,
    words: &[&[u8]],
) -> Result<Status, NoMemory> {
    let alloc = rt.alloc();
    let flash = Flash::new(alloc)?;
    let loader = Loader::new(alloc)?;
    let capsule = Capsule::new(alloc)?;
    let power = Power::new(alloc)?;
    run_over_plugins(rt, host, words, flash, loader, capsule, power)
}

/// Runs the command with these four plugins, in this order.
fn run_over_plugins<R: Runtime + AllocGlobal + Threads + Wait + Sync>(
    rt: &R,
    host: &HostRuntime,
    words: &[&[u8]],
    flash: Flash,
    loader: Loader,
    capsule: Capsule,
    power: Power,
) -> Result<Status, NoMemory>
    requires is_flash { flash ≡ flash_sheet }
    requires is_loader { loader ≡ loader_sheet }
    requires is_capsule { capsule ≡ capsule_sheet }
    requires is_power { power ≡ record { sheet = power_sheet; vetoes = [] } }
{
    let alloc = rt.alloc();
    let mut plugins: Vec<Box<dyn Plugin>> = Vec::new(alloc);
    plugins.push(Box::new(alloc, flash)?)?;
    plugins.push(Box::new(alloc, loader)?)?;
    plugins.push(Box::new(alloc, capsule)?)?;
    plugins.push(Box::new(alloc, power)?)?;
    run_over_kept(rt, host, words, plugins)
}

/// Runs the command over the keepers that it is about.
fn run_over_kept<R: Runtime + AllocGlobal + Threads + Wait + Sync>(
    rt: &R,
    host: &HostRuntime,
    words: &[&[u8]],
    plugins: Vec<Box<dyn Plugin>>,
) -> Result<Status, NoMemory>
    requires { AreProgram (map (λ p. own_sheet p) plugins.items) (λ machine. map (λ p. vetoes_of (own_sheet p) (vetoes_on p machine)) plugins.items) }
{
    match kept_by(rt.alloc(), words)? {
        Kept::Nothing => run_over_nothing(rt, host, words, plugins),
        Kept::History => run_over_history(rt, host, words, plugins),
        Kept::HistoryAndMarks => report_over_files(rt, host, words, plugins),
    }
}

/// Takes a large block, which nobody touches, and gives it back: a hint to the C library, of which no clause speaks.
/// The library maps a large block by itself, and unmaps it when it is given back; from then on smaller blocks come from
/// the heap. So what the store takes as it opens a file serves the rest of the run.
fn settle_heap(alloc: Global) {
    let _unused: Result<Vec<u8>, AllocError> = Vec::with_capacity(alloc, LARGE_BLOCK);
}

/// Runs over the history in its file. The output is gathered, so that a long report takes few calls of the system; what
/// can't be handed on at the end is a fault of writing, whatever came before.
fn run_over_history<R: Runtime + AllocGlobal + Threads + Wait + Sync>(
    rt: &R,
    host: &HostRuntime,
    words: &[&[u8]],
    plugins: Vec<Box<dyn Plugin>>,
) -> Result<Status, NoMemory>
    requires { AreProgram (map (λ p. own_sheet p) plugins.items) (λ machine. map (λ p. vetoes_of (own_sheet p) (vetoes_on p machine)) plugins.items) }
{
    HistoryFile::crosses();
    settle_heap(rt.alloc());
    let unused = MemoryMarks::new(Vec::new(rt.alloc()), Vec::new(rt.alloc()));
    let mut source = ReadSource::new(host.stdin());
    let Ok(gathered) = BufWriter::with_capacity(rt.alloc(), GATHERED, io::writer(rt)) else {
        return Err(NoMemory);
    };
    let mut sink = WriteSink::new(gathered);
    let status = status_over_file::<R, _, OnHeap<HistoryFile>, _, _>(
        rt,
        host,
        words,
        &mut source,
        plugins,
        unused,
        &mut sink,
    )?;
    match sink.into_inner().flush() {
        Ok(()) => Ok(status),
        Err(_) => Ok(Status::SinkFault),
    }
}

/// Opens the history in its file, runs over it and these streams, and says with which status that ended.
fn status_over_file<
    R: Runtime + AllocGlobal + Threads + Wait + Sync,
    S: Source,
    K: FileHistory + Send + Drop,
    M: MarkKeeper + Drop,
    T: Sink,
>(
    rt: &R,
    host: &HostRuntime,
    words: &[&[u8]],
    source: &mut S,
    plugins: Vec<Box<dyn Plugin>>,
    marks: M,
    out: &mut T,
) -> Result<Status, NoMemory>
    requires { AreProgram (map (λ p. own_sheet p) plugins.items) (λ machine. map (λ p. vetoes_of (own_sheet p) (vetoes_on p machine)) plugins.items) }
{
    let ran = run_over_file::<R, S, K, M, T>(
        rt, host, words, source, SHELF, plugins, HISTORY, marks, out,
    );
    match ran {
        Ok(ran) => Ok(status_of(ran)),
        Err(KeeperRefusal::Fault) => Ok(Status::KeeperFault),
        Err(KeeperRefusal::NoMemory) => Err(NoMemory),
    }
}

/// The status of a run. All else that it left is let go of.
fn status_of<K: Drop, M: Drop>(ran: Ran<FolderShelf<HostRuntime>, K, M>) -> Status {
    let Ran {
        status,
        log: _,
        opening: _,
        boards: _,
        keeper: _,
        marks: _,
        shelves: _,
    } = ran;
    status
}

/// Opens the history and the marks in their files, and reports the rows. Each line goes out by itself: a line that is
/// gathered would be lost by a stop, though its row is marked. It isn't inlined, so that the frame of a run over the
/// history hasn't its locals.
#[inline(never)]
fn report_over_files<R: Runtime + AllocGlobal + Threads + Wait + Sync>(
    rt: &R,
    host: &HostRuntime,
    words: &[&[u8]],
    plugins: Vec<Box<dyn Plugin>>,
) -> Result<Status, NoMemory>
    requires { AreProgram (map (λ p. own_sheet p) plugins.items) (λ machine. map (λ p. vetoes_of (own_sheet p) (vetoes_on p machine)) plugins.items) }
{
    let history = match OnHeap::<HistoryFile>::open_file(host, HISTORY) {
        Ok(history) => history,
        Err(KeeperRefusal::Fault) => return Ok(Status::KeeperFault),
        Err(KeeperRefusal::NoMemory) => return Ok(Status::NoMemory),
    };
    let marks = match FileMarks::open(host, MARKS) {
        Ok(marks) => marks,
        Err(KeeperRefusal::Fault) => return Ok(Status::KeeperFault),
        Err(KeeperRefusal::NoMemory) => return Ok(Status::NoMemory),
    };
    HistoryFile::crosses();
    let mut source = ReadSource::new(host.stdin());
    let mut output = io::writer(rt);
    let mut sink = WriteSink::new(&mut output);
    status_over(
        rt,
        host,
        words,
        &mut source,
        plugins,
        history,
        marks,
        &mut sink,
    )
}

/// Runs over these streams and keepers, and says with which status that ended. All else that it left is let go of.
fn status_over<
    R: Runtime + AllocGlobal + Threads + Wait + Sync,
    S: Source,
    K: Keeper + Send + Drop,
    M: MarkKeeper + Drop,
    T: Sink,
>(
    rt: &R,
    host: &HostRuntime,
    words: &[&[u8]],
    source: &mut S,
    plugins: Vec<Box<dyn Plugin>>,
    keeper: K,
    marks: M,
    out: &mut T,
) -> Result<Status, NoMemory>
    requires four { AreProgram (map (λ p. own_sheet p) plugins.items) (λ machine. map (λ p. vetoes_of (own_sheet p) (vetoes_on p machine)) plugins.items) }
    requires no_doubt { K.doubt keeper ≡ None }
{
    let ran = run_over_folder(rt, host, words, source, SHELF, plugins, keeper, marks, out)?;
    Ok(status_of(ran))
}

/// Runs a command that keeps no history, over keepers that stay unused. The output is gathered as by
/// `run_over_history`. It isn't inlined, as `report_over_files` isn't.
#[inline(never)]
fn run_over_nothing<R: Runtime + AllocGlobal + Threads + Wait + Sync>(
    rt: &R,
    host: &HostRuntime,
    words: &[&[u8]],
    plugins: Vec<Box<dyn Plugin>>,
) -> Result<Status, NoMemory>
    requires { AreProgram (map (λ p. own_sheet p) plugins.items) (λ machine. map (λ p. vetoes_of (own_sheet p) (vetoes_on p machine)) plugins.items) }
{
    let alloc = rt.alloc();
    let unused = MemoryKeeper::new(Vec::new(alloc), Vec::new(alloc));
    let unused_marks = MemoryMarks::new(Vec::new(alloc), Vec::new(alloc));
    let mut source = ReadSource::new(host.stdin());
    let Ok(gathered) = BufWriter::with_capacity(alloc, GATHERED, io::writer(rt)) else {
        return Err(NoMemory);
    };
    let mut sink = WriteSink::new(gathered);
    let status = status_over(
        rt,
        host,
        words,
        &mut source,
        plugins,
        unused,
        unused_marks,
        &mut sink,
    )?;
    match sink.into_inner().flush() {
        Ok(()) => Ok(status),
        Err(_) => Ok(Status::SinkFault),
    }
}

/// Tells how a run ended that didn't end well: in one line, and at a terminal with the help for it.
fn tell(rt: &HostRuntime, status: &Status) {
    if matches!(status, Status::Done) {
        return;
    }
    // Where standard error fails too, the exit status still tells.
    let _ = eprintln!(rt; "fwupdemu: {status}");
    if rt.stderr().is_terminal() {
        if let Some(help) = help_for(status) {
            let _ = eprintln!(rt; "{help}");
        }
    }
}

fn main(rt: HostRuntime) -> ExitCode {
    let status = run(&rt, &rt).unwrap_or(Status::NoMemory);
    tell(&rt, &status);
    ExitCode::from(status.exit_code())
}
