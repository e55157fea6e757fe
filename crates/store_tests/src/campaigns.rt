//! Campaigns of one board, and what a run of one leaves.
ghost use Rattle.std.specs.Prelude.{◌≡◌, IfOk, None, length};

use board_plugins::Flash;
use daemon_core::HomeBoards;
use emulated_boards::{Board, Mark};
use fw_base::{Digest, read_digest};
use fwupd_service::{Ran, run_campaign};
use history_keeper::Keeper;
use outer_traits::{MemoryShelf, MemorySink, MemorySource, NoGate};
use plugin_trait::Plugin;
use report_queue::MemoryMarks;
use std::alloc::Global;
use std::sync::Wait;
use std::test::Fail;
use std::thread::Threads;

/// A document of one board and one release, up to its boots.
const FRONT: &str =
    r#"{"format":1,"machine":{"daemon":"1.9.5","pool":16},"components":[{"id":"com.example.hub","name":"Hub","provides":["2082b5e0-7a64-478a-b1b2-e3404fab6dad"],"releases":[{"version":"1.1.0","sha256":"9770ab3285028befb05af65f2ad3bd2d36afb87626032bc8a9ac195219be71d7","size":14}]}],"boards":[{"port":"usb1","physical":"usb-1","plugin":"flash","instance-ids":["2082b5e0-7a64-478a-b1b2-e3404fab6dad"],"flags":["updatable"],"version-format":"triplet","image":"EMU1 01000000\n"}],"clients":[{}],"boots":["#;

/// An install, with its flags.
const INSTALL: &str = r#"{"do":"install","tag":"t1","device":"usb1","version":"1.1.0"}"#;

const OFFLINE: &str =
    r#"{"do":"install","tag":"t1","device":"usb1","version":"1.1.0","flags":["offline"]}"#;

/// What is asked for in two boots.
#[derive(Clone, Copy, Debug)]
pub(crate) enum Asked {
    /// Two installs under one tag, and the same in a second boot.
    Repeated,
    /// An install that is put off to the second boot.
    PutOff,
    /// One install in each boot.
    Again,
}

/// What is asked for in the first boot.
fn asked_first(alloc: Global, asked: Asked) -> Result<String, Fail> {
    match asked {
        Asked::Repeated => Ok(format!(in alloc; "{INSTALL},{INSTALL}")?),
        Asked::PutOff => Ok(String::from_str(alloc, OFFLINE)?),
        Asked::Again => Ok(String::from_str(alloc, INSTALL)?),
    }
}

/// The document of a campaign.
pub(crate) fn document(alloc: Global, asked: Asked) -> Result<String, Fail> {
    let first = asked_first(alloc, asked)?;
    let second = match asked {
        Asked::Repeated | Asked::Again => INSTALL,
        Asked::PutOff => "",
    };
    Ok(format!(in alloc;
        "{FRONT}{{\"time\":1000,\"scripts\":[[{first}]]}},{{\"time\":2000,\"scripts\":[[{second}]]}}]}}"
    )?)
}

/// What a run left: its status in words, its report, and how many writes of the board began.
#[derive(Drop)]
pub(crate) struct Left {
    pub(crate) status: String,
    pub(crate) report: Vec<u8>,
    pub(crate) begun: usize,
}

impl Left {
    /// Whether the report has this piece.
    pub(crate) fn tells(&self, piece: &str) -> bool {
        match std::str::from_utf8(&self.report) {
            Ok(text) => text.contains(piece),
            Err(_) => false,
        }
    }
}

/// The shelf with the payload of the release.
fn shelf(alloc: Global) -> Result<MemoryShelf, Fail> {
    let mut files: Vec<(Digest, Vec<u8>)> = Vec::new(alloc);
    if let Some(digest) = read_digest(
        b"9770ab3285028befb05af65f2ad3bd2d36afb87626032bc8a9ac195219be71d7",
    ) {
        files.push((digest, b"EMU1 01010000\n".to_vec(alloc)?))?;
    }
    Ok(MemoryShelf::new(files, Vec::new(alloc)))
}

fn begun_of(board: &Board) -> usize {
    let mut begun = 0usize;
    for mark in board.marks() {
        if let Mark::Began { entry: _ } = mark {
            begun = begun.saturating_add(1);
        }
    }
    begun
}

fn all_begun(boards: &Option<HomeBoards>) -> usize {
    match boards {
        Some(boards) => match boards.get(0) {
            Some(board) => begun_of(board),
            None => 0,
        },
        None => 0,
    }
}

/// What a run left, and its keeper.
fn left_by<K: Drop>(
    alloc: Global,
    ran: Ran<MemoryShelf, K, MemoryMarks>,
    sink: &MemorySink,
) -> Result<(Left, K), Fail> {
    let Ran {
        status,
        log: _,
        opening: _,
        boards,
        keeper,
        marks: _,
        shelves: _,
    } = ran;
    let left = Left {
        status: format!(in alloc; "{status}")?,
        report: sink.bytes().to_vec(alloc)?,
        begun: all_begun(&boards),
    };
    Ok((left, keeper))
}

/// The shelf of the only client.
fn shelves(alloc: Global) -> Result<Vec<MemoryShelf>, Fail> {
    let mut shelves = Vec::new(alloc);
    shelves.push(shelf(alloc)?)?;
    Ok(shelves)
}

/// The plugin of the board.
fn plugins(alloc: Global) -> Result<Vec<Box<dyn Plugin>>, Fail>
    ensures { IfOk result (λ plugins. length plugins.items ≡ 1) }
{
    let mut plugins: Vec<Box<dyn Plugin>> = Vec::new(alloc);
    plugins.push(Box::new(alloc, Flash::new(alloc)?)?)?;
    Ok(plugins)
}

/// Runs the campaign of a document over a keeper, which comes back.
pub(crate) fn run<R: Threads + Wait + Sync, K: Keeper + Send + Drop>(
    rt: &R,
    alloc: Global,
    document: &str,
    keeper: K,
) -> Result<(Left, K), Fail>
    requires no_doubt { K.doubt keeper ≡ None }
{
    let shelves = shelves(alloc)?;
    let bytes = document.as_bytes().to_vec(alloc)?;
    let mut source = MemorySource::new(bytes, 4096, Vec::new(alloc));
    let mut sink = MemorySink::new(alloc, 1_048_576, Vec::new(alloc))?;
    let plugins = plugins(alloc)?;
    let ran = run_campaign(
        rt,
        alloc,
        &[b"run"],
        &mut source,
        shelves,
        keeper,
        MemoryMarks::new(Vec::new(alloc), Vec::new(alloc)),
        plugins,
        &NoGate,
        &mut sink,
    );
    left_by(alloc, ran, &sink)
}
