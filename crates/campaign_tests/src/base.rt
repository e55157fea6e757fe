//! One document, and what a run of it leaves once some pieces of it are changed.
ghost use Rattle.std.specs.Prelude.{◌≡◌, IfOk, None, length};
ghost use Rattle.history_sqlite.specs.Keeping.{doubtful};

use crate::meeting::{Doors, Meeting, NOBODY, Pair, WaitingShelf};
use crate::named::{Named, PLAIN, Rules};
use crate::pasts::{Past, database, plan, rows};
use daemon_core::HomeBoards;
use emulated_boards::{Board, Mark};
use fw_base::{Digest, read_digest};
use fwupd_service::{Ran, run_campaign};
use history_keeper::{Keeper, MemoryKeeper};
use history_sqlite::SqlKeeper;
use outer_traits::{MemoryShelf, MemorySink, MemorySource};
use plugin_trait::Plugin;
use report_queue::MemoryMarks;
use sqlite::MemStore;
use std::alloc::Global;
use std::sync::{Arc, Wait};
use std::test::Fail;
use std::thread::Threads;

/// A document of one board, one release with requirements, and one install.
const DOCUMENT: &str =
    r#"{"format":1,"machine":{"daemon":"1.9.5","pool":16},"components":[{"id":"com.example.hub","name":"Hub","provides":["2082b5e0-7a64-478a-b1b2-e3404fab6dad"],"requires":[{"tag":"id","text":"org.freedesktop.fwupd","compare":"ge","version":"1.8.0"},{"tag":"firmware","text":"vendor-id","compare":"regex","version":"USB:0x0A5C|USB:0x17EF"},{"tag":"firmware","compare":"ge","version":"1.0.0"}],"releases":[{"version":"1.1.0","sha256":"9770ab3285028befb05af65f2ad3bd2d36afb87626032bc8a9ac195219be71d7","size":14},{"version":"1.0.0","sha256":"c9a69fece8c4c54b1942720921d0cc74b307337503b677c013941c03278e2c46","size":14}]}],"boards":[{"port":"usb1","physical":"usb-1","plugin":"flash","vendor-ids":["USB:0x0A5C"],"instance-ids":["2082b5e0-7a64-478a-b1b2-e3404fab6dad"],"flags":["updatable"],"version-format":"triplet","image":"EMU1 01000000\n"}],"clients":[{}],"boots":[{"time":1000,"scripts":[[{"do":"install","tag":"t1","device":"usb1","version":"1.1.0"}]]}]}"#;

/// Files of a shelf: the SHA-256 of each, and its text. They are the payloads of the versions 1.0.0 and 1.1.0,
/// and an empty one.
const FILES: [(&str, &str); 3] = [
    (
        "c9a69fece8c4c54b1942720921d0cc74b307337503b677c013941c03278e2c46",
        "EMU1 01000000\n",
    ),
    (
        "9770ab3285028befb05af65f2ad3bd2d36afb87626032bc8a9ac195219be71d7",
        "EMU1 01010000\n",
    ),
    (
        "e3b0c44298fc1c149afbf4c8996fb92427ae41e4649b934ca495991b7852b855",
        "",
    ),
];

/// A piece of a text, and what stands in its place.
pub(crate) type Change<'a> = (&'a str, &'a str);

/// The text with a piece changed, wherever it stands.
pub(crate) fn with(alloc: Global, text: &str, old: &str, new: &str) -> Result<String, Fail> {
    Ok(text.replace(alloc, old, new)?)
}

/// The text with these pieces changed, one after the other.
pub(crate) fn changed(alloc: Global, text: &str, changes: &[Change]) -> Result<String, Fail> {
    let mut text = String::from_str(alloc, text)?;
    for (old, new) in changes {
        text = with(alloc, &text, old, new)?;
    }
    Ok(text)
}

/// These pieces, one behind the other.
pub(crate) fn joined(alloc: Global, pieces: &[&str]) -> Result<String, Fail> {
    let mut text = String::new(alloc);
    for piece in pieces {
        text.push_str(piece)?;
    }
    Ok(text)
}

/// The document with these pieces changed, one after the other.
pub(crate) fn document(alloc: Global, changes: &[Change]) -> Result<String, Fail> {
    changed(alloc, DOCUMENT, changes)
}

/// Who keeps the history of a campaign.
#[derive(Clone, Copy, Debug)]
pub(crate) enum History {
    Memory,
    Database,
}

/// Both keepers: each test runs over one after the other.
pub(crate) const HISTORIES: [History; 2] = [History::Memory, History::Database];

/// What a campaign meets outside: the rows that the history holds before it; how many shelves there are; which calls
/// fail, counted from 1, of the keeper (of whose failed commit it is said whether its change is made after all), of each
/// shelf (where two clients meet, of the asker's alone), of the source and of the sink; the plugins; and who meets.
#[derive(Clone, Copy)]
pub(crate) struct Outside<'a> {
    pub(crate) past: &'a [Past],
    pub(crate) shelves: u32,
    pub(crate) keeper: &'a [(u32, bool)],
    pub(crate) shelf: &'a [u32],
    pub(crate) source: &'a [u32],
    pub(crate) sink: &'a [u32],
    pub(crate) rules: [Rules; 2],
    pub(crate) pair: Pair,
}

/// A history without rows, one shelf, no call that fails, plugins without rules, and nobody that meets.
pub(crate) const WELL: Outside = Outside {
    past: &[],
    shelves: 1,
    keeper: &[],
    shelf: &[],
    source: &[],
    sink: &[],
    rules: PLAIN,
    pair: NOBODY,
};

/// All files in memory, of which such calls fail.
fn files(alloc: Global, failing: &[u32]) -> Result<MemoryShelf, Fail> {
    let mut files: Vec<(Digest, Vec<u8>)> = Vec::new(alloc);
    for (name, text) in &FILES {
        if let Some(digest) = read_digest(name.as_bytes()) {
            let bytes = text.as_bytes().to_vec(alloc)?;
            files.push((digest, bytes))?;
        }
    }
    Ok(MemoryShelf::new(files, failing.to_vec(alloc)?))
}

/// A client's shelf with all files. The asker's waits for the holder.
fn shelf<'a>(
    alloc: Global,
    client: u32,
    outside: &Outside,
    meeting: &'a Meeting,
) -> Result<WaitingShelf<'a>, Fail> {
    let asker = outside.pair.asker;
    let failing: &[u32] = if asker == client || asker == 0 {
        outside.shelf
    } else {
        &[]
    };
    Ok(WaitingShelf {
        files: files(alloc, failing)?,
        meeting: if asker == client { Some(meeting) } else { None },
    })
}

/// The clients' shelves.
fn shelves<'a>(
    alloc: Global,
    outside: &Outside,
    meeting: &'a Meeting,
) -> Result<Vec<WaitingShelf<'a>>, Fail> {
    let mut shelves = Vec::new(alloc);
    for client in 1..=outside.shelves {
        shelves.push(shelf(alloc, client, outside, meeting)?)?;
    }
    Ok(shelves)
}

/// What a campaign left: its status in words, its report, the number of its events, the entries whose writes began, as
/// the boards' journals have them, and whether nobody waited in vain.
#[derive(Drop)]
pub(crate) struct Left {
    pub(crate) status: String,
    pub(crate) report: Vec<u8>,
    pub(crate) events: usize,
    pub(crate) begun: Vec<u32>,
    pub(crate) met: bool,
}

impl Left {
    /// The report as a text.
    pub(crate) fn text(&self) -> &str {
        match std::str::from_utf8(&self.report) {
            Ok(text) => text,
            Err(_) => "",
        }
    }

    /// Whether an entry's write began twice.
    pub(crate) fn wrote_twice(&self) -> bool {
        for entry in &self.begun {
            let mut same: usize = 0;
            for other in &self.begun {
                if other == entry {
                    same = same.saturating_add(1);
                }
            }
            if same > 1 {
                return true;
            }
        }
        false
    }

    /// Nothing, where the campaign ended so and reported these pieces; else how it ended and what it reported.
    pub(crate) fn unlike(
        &self,
        alloc: Global,
        status: &str,
        report: &[&str],
    ) -> Result<String, Fail> {
        let wanted = joined(alloc, report)?;
        if self.status.as_str() == status && self.text() == wanted.as_str() {
            return Ok(String::new(alloc));
        }
        Ok(format!(in alloc; "{}\n{}", self.status, self.text())?)
    }
}

fn note_begun(board: &Board, begun: &mut Vec<u32>) -> Result<(), Fail> {
    for mark in board.marks() {
        if let Mark::Began { entry } = mark {
            begun.push(*entry)?;
        }
    }
    Ok(())
}

/// The entries whose writes began.
fn all_begun(alloc: Global, boards: &Option<HomeBoards>) -> Result<Vec<u32>, Fail> {
    let mut begun = Vec::new(alloc);
    if let Some(boards) = boards {
        for number in 0..boards.len() {
            if let Some(board) = boards.get(number) {
                note_begun(board, &mut begun)?;
            }
        }
    }
    Ok(begun)
}

/// What a campaign left, and its keeper.
fn left_by<K: Drop>(
    alloc: Global,
    ran: Ran<WaitingShelf<'_>, K, MemoryMarks>,
    sink: &MemorySink,
    meeting: &Meeting,
) -> Result<(Left, K), Fail> {
    let Ran {
        status,
        log,
        opening: _,
        boards,
        keeper,
        marks: _,
        shelves: _,
    } = ran;
    let status = format!(in alloc; "{status}")?;
    let report = sink.bytes().to_vec(alloc)?;
    let begun = all_begun(alloc, &boards)?;
    let left = Left {
        status,
        report,
        events: log.items().len(),
        begun,
        met: meeting.was_kept(),
    };
    Ok((left, keeper))
}

/// A source of a document, of which such calls fail.
fn source(alloc: Global, document: &str, failing: &[u32]) -> Result<MemorySource, Fail> {
    let bytes = document.as_bytes().to_vec(alloc)?;
    let failing = failing.to_vec(alloc)?;
    Ok(MemorySource::new(bytes, 4096, failing))
}

/// A sink with room for a report, of which such calls fail.
fn sink(alloc: Global, failing: &[u32]) -> Result<MemorySink, Fail> {
    let failing = failing.to_vec(alloc)?;
    Ok(MemorySink::new(alloc, 1_048_576, failing)?)
}

/// The two plugins with these rules.
fn plugins(
    alloc: Global,
    rules: &[Rules; 2],
    meeting: &Arc<Meeting, Global>,
) -> Result<Vec<Box<dyn Plugin>>, Fail>
    ensures { IfOk result (λ plugins. length plugins.items ≡ 2) }
{
    let first = Named::new(alloc, &rules[0], meeting)?;
    let second = Named::new(alloc, &rules[1], meeting)?;
    let mut plugins: Vec<Box<dyn Plugin>> = Vec::new(alloc);
    plugins.push(Box::new(alloc, first)?)?;
    plugins.push(Box::new(alloc, second)?)?;
    Ok(plugins)
}

/// Runs the campaign of a document. The keeper comes back.
fn campaign<R: Threads + Wait + Sync, K: Keeper + Send + Drop>(
    rt: &R,
    alloc: Global,
    document: &str,
    keeper: K,
    outside: &Outside,
    meeting: &Arc<Meeting, Global>,
) -> Result<(Left, K), Fail>
    requires no_doubt { K.doubt keeper ≡ None }
{
    let shelves = shelves(alloc, outside, meeting)?;
    let gate = Doors {
        meeting,
        pair: outside.pair,
    };
    let mut source = source(alloc, document, outside.source)?;
    let mut sink = sink(alloc, outside.sink)?;
    let plugins = plugins(alloc, &outside.rules, meeting)?;
    let ran = run_campaign(
        rt,
        alloc,
        &[b"run"],
        &mut source,
        shelves,
        keeper,
        MemoryMarks::new(Vec::new(alloc), Vec::new(alloc)),
        plugins,
        &gate,
        &mut sink,
    );
    left_by(alloc, ran, &sink, meeting)
}

/// Runs the campaign of a document over a keeper in memory.
fn over_memory<R: Threads + Wait + Sync>(
    rt: &R,
    alloc: Global,
    document: &str,
    outside: &Outside,
) -> Result<Left, Fail> {
    let rows = rows(alloc, outside.past)?;
    let keeper = MemoryKeeper::new(rows, plan(alloc, outside.keeper)?);
    let meeting = Arc::new(alloc, Meeting::new())?;
    let (left, _keeper) = campaign(rt, alloc, document, keeper, outside, &meeting)?;
    Ok(left)
}

/// Runs the campaign of a document over a database. Its keeper comes back.
pub(crate) fn over_database<R: Threads + Wait + Sync>(
    rt: &R,
    alloc: Global,
    document: &str,
    keeper: SqlKeeper<MemStore>,
    outside: &Outside,
) -> Result<(Left, SqlKeeper<MemStore>), Fail>
    requires no_doubt { doubtful keeper ≡ None }
{
    let meeting = Arc::new(alloc, Meeting::new())?;
    campaign(rt, alloc, document, keeper, outside, &meeting)
}

/// Runs the campaign of a document over a history of this kind.
pub(crate) fn run<R: Threads + Wait + Sync>(
    rt: &R,
    alloc: Global,
    history: History,
    document: &str,
    outside: &Outside,
) -> Result<Left, Fail> {
    match history {
        History::Memory => over_memory(rt, alloc, document, outside),
        History::Database => {
            let keeper = database(alloc, outside.past, outside.keeper)?;
            let (left, _keeper) = over_database(rt, alloc, document, keeper, outside)?;
            Ok(left)
        }
    }
}
