//! What no clause says: how a report is found, how marks and rows read in HTML, and that a page can be written.
use outer_traits::{MemorySink, MemorySource};
use report_view::{Drawn, Finding, ViewStop, write_page};
use std::alloc::{AllocError, Global};
use std::test::Fail;

/// More bytes than a page of these reports has.
const ROOM: usize = 100_000;

const REFUSED: &str =
    "fwupdemu report 1\nboot 1 time 1000\n  board usb1 1.0.0 runtime\nclient 1 ask t1 usb1 1.1.0 refused 13 no-room 3 2\nend 2\n";

const TORN: &str =
    "fwupdemu report 1\nboot 1 time 1000\n  board usb1 1.0.0 runtime\nclient 1 ask t1 usb1 1.1.0 hold 1\nclient 1 claim t1 entry 1\nclient 1 entry 1 start prepare\nclient 1 entry 1 end prepare ok 1.0.0 runtime\nclient 1 entry 1 start write\ncut\nclient 1 gave-back entry 1\nboot 2 time 2000\n  told usb1 began\n  board usb1 0.0.0 bootloader\nclient 0 judge 1 0.0.0 failed\nend 10\n";

const SPECIAL: &str = "fwupdemu report 1\nclient 1 ask <i> \"&' 1.0 hold 1\nend 1\n";

const RETRIED: &str =
    "fwupdemu report 1\nboot 1 time 1000\n  board usb1 1.0.0 runtime\nclient 1 ask t2 usb1 1.1.0 retry-of 1 hold 1\nclient 1 schedule t3 usb1 1.1.0 retry-of 9 refused 17 retry no-row\nend 3\n";

/// A report, how many events of it are drawn and how many lines of it are none of a report, and how it is found.
type Case = (&'static str, u64, u64, Finding);

const REPORTS: [Case; 12] = [
    (REFUSED, 2, 0, Finding::Whole),
    (TORN, 10, 0, Finding::Whole),
    (SPECIAL, 1, 0, Finding::Whole),
    (RETRIED, 3, 0, Finding::Whole),
    ("fwupdemu report 1\nend 0\n", 0, 0, Finding::Whole),
    ("", 0, 0, Finding::CutOff { events: 0 }),
    (
        "fwupdemu report 1\nboot 1 time 1000\n  board usb1 1.0",
        1,
        0,
        Finding::CutOff { events: 1 },
    ),
    (
        "fwupdemu report 1\nhello\n  stray\nend 0\n",
        0,
        2,
        Finding::Unread { lines: 2 },
    ),
    (
        "fwupdemu report 1\nclient x ask\nend 0\n",
        0,
        1,
        Finding::Unread { lines: 1 },
    ),
    ("cut\nend 1\n", 1, 0, Finding::Untitled),
    (
        "fwupdemu report 1\ncut\nend 2\n",
        1,
        0,
        Finding::Miscounted { told: 2, events: 1 },
    ),
    ("fwupdemu report 1\ncut\nend 1\ncu", 1, 0, Finding::Trailing),
];

/// A report, and a part that its page has to have.
const PARTS: [(&str, &str); 12] = [
    (
        REFUSED,
        "<li id=drawn>events drawn <b>2</b></li>\n<li id=told class=fine>",
    ),
    (
        REFUSED,
        "\n<i id=e1 style=--x:1 class=\"boot odd\" title=\"boot 1 time 1000\n  board usb1 1.0.0 runtime\"><b>boot 1</b></i>\n<i id=e2 ",
    ),
    (
        REFUSED,
        "\n<i id=e2 style=--x:2 class=\"ask no c1\" title=\"client 1 ask t1 usb1 1.1.0 refused 13 no-room 3 2\"></i>\n",
    ),
    (
        REFUSED,
        "\n<tr class=refused data-e=2><td><td>t1<td>usb1<td>1.1.0<td>1<td><td>refused<td>client 1 ask t1 usb1 1.1.0 refused 13 no-room 3 2\n",
    ),
    (
        TORN,
        "<i id=e6 style=--x:6 class=\"start write n1\" title=\"client 1 entry 1 start write\"></i>\n<i id=e7 style=--x:7 class=\"cut yes\" title=\"cut\"><b>cut</b></i>\n",
    ),
    (
        TORN,
        "<u class=\"n1 failed\" style=\"--x:3;--w:4\"></u>\n<s class=\"n1 torn\" style=\"--x:6;--w:1\"></s>\n",
    ),
    (
        TORN,
        "<p style=order:1>client 1</p>\n<p class=board>usb1</p>\n",
    ),
    (
        TORN,
        ":root{--n:10;--c:1;--b:1}\n.c1{--y:0}\n.n1{--y:calc(1 + 0)}\n",
    ),
    (
        TORN,
        "\n<tr class=failed data-e=2><td>1<td>t1<td>usb1<td>1.1.0<td>1<td>6 to 7<td>failed<td>client 0 judge 1 0.0.0 failed\n",
    ),
    (
        SPECIAL,
        "title=\"client 1 ask &lt;i&gt; &quot;&amp;&#39; 1.0 hold 1\"></i>",
    ),
    (
        RETRIED,
        "title=\"client 1 ask t2 usb1 1.1.0 retry-of 1 hold 1\"></i>",
    ),
    (
        RETRIED,
        "title=\"client 1 schedule t3 usb1 1.1.0 retry-of 9 refused 17 retry no-row\"></i>",
    ),
];

fn source_of(alloc: Global, text: &str) -> Result<MemorySource, AllocError> {
    Ok(MemorySource::new(text.as_bytes().to_vec(alloc)?, 7, Vec::new(alloc)))
}

/// Draws a report into a sink in memory.
fn draw(alloc: Global, text: &str, sink: &mut MemorySink) -> Result<Drawn, ViewStop> {
    let mut source = source_of(alloc, text)?;
    write_page(alloc, &mut source, sink)
}

fn has_part(page: &[u8], part: &str) -> bool {
    match std::str::from_utf8(page) {
        Ok(text) => text.contains(part),
        Err(_) => false,
    }
}

#[test]
fn reports_are_found_as_they_are(rt: HostRuntime) -> Result<(), Fail> {
    for (text, events, unread, finding) in REPORTS {
        let mut sink = MemorySink::new(rt.alloc(), ROOM, Vec::new(rt.alloc()))?;
        let drawn = draw(rt.alloc(), text, &mut sink)?;
        assert_eq!(rt; drawn.events, events, "events of {text}");
        assert_eq!(rt; drawn.unread, unread, "unread lines of {text}");
        assert_eq!(rt; drawn.finding(), finding, "finding of {text}");
    }
    Ok(())
}

#[test]
fn pages_have_their_parts(rt: HostRuntime) -> Result<(), Fail> {
    for (text, part) in PARTS {
        let mut sink = MemorySink::new(rt.alloc(), ROOM, Vec::new(rt.alloc()))?;
        draw(rt.alloc(), text, &mut sink)?;
        assert!(rt; has_part(sink.bytes(), part), "{part}");
    }
    Ok(())
}

#[test]
fn a_full_sink_has_the_front_of_the_page(rt: HostRuntime) -> Result<(), Fail> {
    let mut whole = MemorySink::new(rt.alloc(), ROOM, Vec::new(rt.alloc()))?;
    draw(rt.alloc(), TORN, &mut whole)?;
    let mut full = MemorySink::new(rt.alloc(), 9000, Vec::new(rt.alloc()))?;
    let stop = draw(rt.alloc(), TORN, &mut full).err();
    assert_eq!(rt; stop, Some(ViewStop::SinkFault));
    assert_eq!(rt; full.bytes().len(), 9000);
    assert!(rt; whole.bytes().starts_with(full.bytes()));
    Ok(())
}

#[test]
fn a_read_that_fails_writes_nothing(rt: HostRuntime) -> Result<(), Fail> {
    let alloc = rt.alloc();
    let failing = [3].to_vec(alloc)?;
    let mut source = MemorySource::new(TORN.as_bytes().to_vec(alloc)?, 7, failing);
    let mut sink = MemorySink::new(alloc, ROOM, Vec::new(alloc))?;
    let stop = write_page(alloc, &mut source, &mut sink).err();
    assert_eq!(rt; stop, Some(ViewStop::SourceFault));
    assert_eq!(rt; sink.bytes().len(), 0);
    Ok(())
}
