//! What no clause says of reports: that the calls succeed, the text of a line as a JSON reader has it, and what stops between the
//! mark and the line come to.
ghost use Rattle.std.specs.Prelude.{OnOk};
ghost use Rattle.history_keeper.specs.Histories.{IsHistory};

use fw_base::Name;
use guid_ids::device_id;
use history_keeper::{KeeperPlan, Row, RowState, first_faulty};
use outer_traits::MemorySink;
use report_queue::{MarkKeeper, MemoryMarks, SendStop, line_of, send_reports};
use serde_json::Value;
use std::alloc::Global;
use std::test::Fail;
use version_formats::Version;

// The texts of a row, which are the same in each.
#[derive(Clone, Copy)]
struct Texts {
    component: Name,
    version_old: Version,
    version_new: Version,
}

fn read_texts() -> Result<Texts, Fail> {
    Ok(Texts {
        component: Name::read(b"com.example.hub")?,
        version_old: Version::read(b"1.0.0")?,
        version_new: Version::read(b"1.1.0")?,
    })
}

// A row of the board in this port: two rows that aren't settled are of two boards.
fn row(entry: u32, tag: &[u8], port: &[u8], state: RowState) -> Result<Row, Fail> {
    let texts = read_texts()?;
    Ok(Row {
        entry,
        tag: Name::read(tag)?,
        client: 1,
        device: device_id(port, None),
        component: texts.component,
        version_old: texts.version_old,
        version_new: texts.version_new,
        digest: [171; 32],
        flags: 0,
        state,
        reason: 0,
        time_added: 1000,
        time_changed: 1000,
        duration: 0,
        protocol: None,
        retry_of: None,
    })
}

fn rows() -> Result<[Row; 5], Fail> {
    Ok([
        row(1, b"t1", b"usb-1", RowState::Success)?,
        row(2, b"t2", b"usb-2", RowState::Begun)?,
        row(3, b"t3", b"usb-3", RowState::Failed)?,
        row(4, b"t4", b"usb-4", RowState::NeedsReboot)?,
        row(5, b"t5", b"usb-5", RowState::Pending)?,
    ])
}

fn marks(alloc: Global, marked: &[u32], plan: &[KeeperPlan]) -> Result<MemoryMarks, Fail> {
    Ok(MemoryMarks::new(
        Vec::from_slice(alloc, marked)?,
        Vec::from_slice(alloc, plan)?,
    ))
}

// Fails where the rows are no history.
fn told_valid(alloc: Global, rows: &[Row]) -> Result<(), Fail>
    ensures { OnOk result (IsHistory rows.now) }
{
    match first_faulty(alloc, rows)? {
        None => Ok(()),
        Some(_) => Ok(Err("the rows are no history")?),
    }
}

// One call over these rows, which are to be a history.
fn send(
    alloc: Global,
    rows: &[Row],
    keeper: &mut MemoryMarks,
    most: u32,
    out: &mut MemorySink,
) -> Result<Result<u32, SendStop>, Fail> {
    told_valid(alloc, rows)?;
    Ok(send_reports(alloc, rows, keeper, most, out))
}

// A sink that can take so many bytes.
fn sink(alloc: Global, room: usize) -> Result<MemorySink, Fail> {
    Ok(MemorySink::new(alloc, room, Vec::new(alloc))?)
}

#[test]
fn line_of_the_first_install(rt: HostRuntime) -> Result<(), Fail> {
    let rows = rows()?;
    let line = line_of(rt.alloc(), &rows[0])?;
    let want =
        b"{\"changed\":1000,\"component\":\"com.example.hub\",\"device\":\"3a49404014b67758fd430a9d09ba0807820b5c47\",\"digest\":\"abababababababababababababababababababababababababababababababab\",\"duration\":0,\"entry\":1,\"new\":\"1.1.0\",\"old\":\"1.0.0\",\"protocol\":null,\"reason\":0,\"retry-of\":null,\"state\":\"success\",\"tag\":\"t1\"}\n";
    assert_eq!(rt; line.as_slice(), want.as_slice());
    Ok(())
}

const WORDS: [(&str, &str); 8] = [
    ("component", "com.example.hub"),
    ("device", "3a49404014b67758fd430a9d09ba0807820b5c47"),
    (
        "digest",
        "abababababababababababababababababababababababababababababababab",
    ),
    ("new", "1.1.0"),
    ("old", "1.0.0"),
    ("protocol", "org.usb.dfu"),
    ("state", "failed"),
    ("tag", "a\"b\\c"),
];

const NUMBERS: [(&str, u64); 5] = [
    ("changed", 9223372036854775807),
    ("duration", 4294967295),
    ("entry", 8),
    ("reason", 16),
    ("retry-of", 7),
];

// A line of a row with the greatest numbers and a tag that JSON writes otherwise.
fn greatest_line(alloc: Global) -> Result<Vec<u8>, Fail> {
    let told = Row {
        duration: 4294967295,
        protocol: Some(Name::read(b"org.usb.dfu")?),
        retry_of: Some(7),
        reason: 16,
        time_changed: 9223372036854775807,
        ..row(8, b"a\"b\\c", b"usb-1", RowState::Failed)?
    };
    Ok(line_of(alloc, &told)?)
}

#[test]
fn words_are_read_by_a_json_reader(rt: HostRuntime) -> Result<(), Fail> {
    let line = greatest_line(rt.alloc())?;
    let value = Value::from_slice(rt.alloc(), &line)?;
    for (key, want) in &WORDS {
        assert!(rt; value.get(*key).and_then(Value::as_str) == Some(*want));
    }
    Ok(())
}

#[test]
fn numbers_are_read_by_a_json_reader(rt: HostRuntime) -> Result<(), Fail> {
    let line = greatest_line(rt.alloc())?;
    let value = Value::from_slice(rt.alloc(), &line)?;
    for (key, want) in &NUMBERS {
        assert!(rt; value.get(*key).and_then(Value::as_u64) == Some(*want));
    }
    Ok(())
}

#[test]
fn values_that_are_missing_are_null(rt: HostRuntime) -> Result<(), Fail> {
    let rows = rows()?;
    let line = line_of(rt.alloc(), &rows[0])?;
    let value = Value::from_slice(rt.alloc(), &line)?;
    for key in ["protocol", "retry-of"] {
        assert!(rt; value.get(key).is_some_and(Value::is_null));
    }
    Ok(())
}

// What one call over these rows answers, and the bytes that it sent.
fn sent(
    alloc: Global,
    rows: &[Row],
    keeper: &mut MemoryMarks,
    most: u32,
) -> Result<(Option<u32>, Vec<u8>), Fail> {
    let mut out = sink(alloc, 4096)?;
    let count = send(alloc, rows, keeper, most, &mut out)?.ok();
    Ok((count, Vec::from_slice(alloc, out.bytes())?))
}

// Whether one call over these rows sends the one row and no other.
fn sends_one(
    alloc: Global,
    rows: &[Row],
    keeper: &mut MemoryMarks,
    most: u32,
    row: &Row,
) -> Result<bool, Fail> {
    let (count, bytes) = sent(alloc, rows, keeper, most)?;
    let line = line_of(alloc, row)?;
    Ok(count == Some(1) && bytes.as_slice() == line.as_slice())
}

// Whether one call over these rows sends nothing.
fn sends_nothing(
    alloc: Global,
    rows: &[Row],
    keeper: &mut MemoryMarks,
    most: u32,
) -> Result<bool, Fail> {
    let (count, bytes) = sent(alloc, rows, keeper, most)?;
    Ok(count == Some(0) && bytes.is_empty())
}

#[test]
fn each_row_is_sent_once(rt: HostRuntime) -> Result<(), Fail> {
    let alloc = rt.alloc();
    let rows = rows()?;
    let mut keeper = marks(alloc, &[], &[])?;
    assert!(rt; sends_one(alloc, &rows, &mut keeper, 1, &rows[0])?);
    assert!(rt; sends_one(alloc, &rows, &mut keeper, 65536, &rows[2])?);
    assert!(rt; sends_nothing(alloc, &rows, &mut keeper, 65536)?);
    assert_eq!(rt; keeper.marks(), [1, 3].as_slice());
    Ok(())
}

// The first row is sent over a keeper whose third call, the mark, fails, and then all rows once more.
fn lengths_about_a_doubt(alloc: Global, keep: bool) -> Result<(bool, usize, usize), Fail> {
    let rows = [row(1, b"t1", b"usb-1", RowState::Success)?];
    let mut keeper = marks(alloc, &[], &[KeeperPlan { call: 3, keep }])?;
    let mut out = sink(alloc, 4096)?;
    let stop = send(alloc, &rows, &mut keeper, 1, &mut out)?;
    let refused = stop == Err(SendStop::KeeperFault);
    let (count, next) = sent(alloc, &rows, &mut keeper, 1)?;
    let refused = refused && count.is_some();
    Ok((refused, out.bytes().len(), next.len()))
}

#[test]
fn doubtful_mark_is_kept_or_lost(rt: HostRuntime) -> Result<(), Fail> {
    let alloc = rt.alloc();
    let rows = rows()?;
    let whole = line_of(alloc, &rows[0])?.len();
    assert!(rt; lengths_about_a_doubt(alloc, true)? == (true, 0, 0));
    assert!(rt; lengths_about_a_doubt(alloc, false)? == (true, 0, whole));
    Ok(())
}

// How many bytes a call leaves in a sink that has not room for the line, if the sink is at fault.
fn cut_off(
    alloc: Global,
    rows: &[Row],
    keeper: &mut MemoryMarks,
    room: usize,
) -> Result<Option<usize>, Fail> {
    let mut out = sink(alloc, room)?;
    let stop = send(alloc, rows, keeper, 9, &mut out)?;
    let left = out.bytes().len();
    Ok((stop == Err(SendStop::SinkFault)).then_some(left))
}

#[test]
fn line_that_was_cut_off_is_lost(rt: HostRuntime) -> Result<(), Fail> {
    let alloc = rt.alloc();
    let rows = rows()?;
    for room in [0, 1, 100] {
        let mut keeper = marks(alloc, &[], &[])?;
        assert!(rt; cut_off(alloc, &rows, &mut keeper, room)? == Some(room));
        assert_eq!(rt; keeper.marks(), [1].as_slice());
        assert!(rt; sends_one(alloc, &rows, &mut keeper, 9, &rows[2])?);
    }
    Ok(())
}

// Whether a call is refused for the keeper, with nothing sent and no mark made, where this call of the keeper fails.
fn is_refused_at(alloc: Global, rows: &[Row], call: u32) -> Result<bool, Fail> {
    let mut keeper = marks(alloc, &[2], &[KeeperPlan { call, keep: false }])?;
    let mut out = sink(alloc, 4096)?;
    let stop = send(alloc, rows, &mut keeper, 9, &mut out)?;
    let refused = stop == Err(SendStop::KeeperFault);
    Ok(refused && out.bytes().is_empty() && keeper.marks() == [2].as_slice())
}

#[test]
fn refused_before_the_first_row(rt: HostRuntime) -> Result<(), Fail> {
    let rows = rows()?;
    assert!(rt; is_refused_at(rt.alloc(), &rows, 1)?);
    assert!(rt; is_refused_at(rt.alloc(), &rows, 2)?);
    Ok(())
}
