//! Reports of a story that are stopped by their sink.
use crate::differences::differs_at;
use crate::scenes::{Hub, device_in, one_hub};
use log_stories::Story;
use outer_traits::MemorySink;
use report_text::{ReportStop, write_report};
use std::alloc::Global;
use std::test::Fail;
use update_log::Query;

/// What a client is told after an install, by the calls of the sink.
const PIECES: [&str; 10] = [
    "fwupdemu report 1\n",
    "boot 1 time 1000\n  board usb1 1.1.0 runtime\n",
    "client 1 get-devices\n  usb1 1.1.0 runtime flags updatable problems - guids 2082b5e0-7a64-478a-b1b2-e3404fab6dad name\n",
    "client 1 get-releases usb1\n  com.example.hub 1.1.0 urgency unknown size 14 same\n  com.example.hub 1.0.0 urgency unknown size 14 older\n",
    "client 1 get-upgrades usb1\n  none\n",
    "client 1 get-history\n  1 t1 usb1 1.0.0 1.1.0 success 0 0 -\n",
    "client 1 settle usb1\n  nothing\n",
    "client 1 unplug usb1 done\n",
    "client 1 get-upgrades usb1\n  refused 1 no-device\n",
    "end 8\n",
];

/// The first pieces, so many.
fn front(alloc: Global, count: usize) -> Result<String, Fail> {
    let mut front = String::new(alloc);
    for piece in PIECES.iter().take(count) {
        front.push_str(piece)?;
    }
    Ok(front)
}

/// How a report ended, and the sink that it was written to.
#[derive(Drop)]
struct Written {
    ended: Result<(), ReportStop>,
    sink: MemorySink,
}

/// Whether the report ended so, and the sink has taken that text and no more.
fn took(written: &Written, ended: Result<(), ReportStop>, text: &[u8]) -> bool {
    written.ended == ended && differs_at(written.sink.bytes(), text).is_none()
}

/// A sink of so much room, which fails at the call with that number.
fn sink(alloc: Global, room: usize, failing: u32) -> Result<MemorySink, Fail> {
    let mut calls = Vec::new(alloc);
    calls.push(failing)?;
    Ok(MemorySink::new(alloc, room, calls)?)
}

/// A client asks each question.
fn asks_each(story: &mut Story) -> Result<(), Fail> {
    let releases = Query::Releases(device_in("usb1")?);
    let upgrades = Query::Upgrades(device_in("usb1")?);
    story.query(1, &Query::Devices)?;
    story.query(1, &releases)?;
    story.query(1, &upgrades)?;
    story.query(1, &Query::History)?;
    Ok(())
}

/// Then it waits for the hub's row, takes the hub out of its port, and asks again: whether it could.
fn asks(story: &mut Story) -> Result<bool, Fail> {
    let hub = device_in("usb1")?;
    asks_each(story)?;
    let settled = story.settle(1, &hub)?;
    story.unplug(1, &hub)?;
    story.query(1, &Query::Upgrades(hub))?;
    Ok(settled)
}

/// The same, where it could.
fn asks_all(story: &mut Story) -> Result<(), Fail> {
    if asks(story)? {
        Ok(())
    } else {
        Ok(Err("the hub's row waits")?)
    }
}

fn story(alloc: Global) -> Result<Story, Fail> {
    let mut story = one_hub(alloc, Hub::Full, 1, 0)?;
    asks_all(&mut story)?;
    Ok(story)
}

/// Writes the report of a story, whose boards are few.
fn write(alloc: Global, story: Story, sink: &mut MemorySink) -> Option<Result<(), ReportStop>> {
    let parts = story.into_parts();
    if parts.facts.sheets.items().len() > 256 {
        return None;
    }
    Some(write_report(alloc, &parts.facts, &parts.rows, &parts.log, sink))
}

/// How the report of the story ended, in a sink of so much room that fails at that call.
fn report_to(alloc: Global, room: usize, failing: u32) -> Result<Written, Fail> {
    let mut sink = sink(alloc, room, failing)?;
    match write(alloc, story(alloc)?, &mut sink) {
        Some(ended) => Ok(Written { ended, sink }),
        None => Ok(Err("there are too many boards")?),
    }
}

/// The number of the first call, up to that one, at which a failing sink hasn't taken the pieces before.
fn call_missed(alloc: Global, calls: u32) -> Result<Option<u32>, Fail> {
    for call in 1..calls {
        let text = front(alloc, (call as usize).saturating_sub(1))?;
        let written = report_to(alloc, 4096, call)?;
        if !took(&written, Err(ReportStop::SinkFault), text.as_bytes()) {
            return Ok(Some(call));
        }
    }
    Ok(None)
}

/// The first room below that one which a sink hasn't filled with the report.
fn room_missed(alloc: Global, text: &[u8]) -> Result<Option<usize>, Fail> {
    for room in 0..text.len() {
        let written = report_to(alloc, room, 99)?;
        if !took(&written, Err(ReportStop::SinkFault), &text[..room]) {
            return Ok(Some(room));
        }
    }
    Ok(None)
}

/// The same of the whole report.
fn room_missed_of_all(alloc: Global) -> Result<Option<usize>, Fail> {
    let text = front(alloc, 10)?;
    room_missed(alloc, text.as_bytes())
}

/// Whether the report is whole where the sink has just room for it, and fails behind it.
fn is_whole(alloc: Global, text: &[u8]) -> Result<bool, Fail> {
    let written = report_to(alloc, text.len(), 11)?;
    Ok(took(&written, Ok(()), text))
}

fn just_fits(alloc: Global) -> Result<bool, Fail> {
    let text = front(alloc, 10)?;
    is_whole(alloc, text.as_bytes())
}

#[test]
fn a_sink_that_fails_has_taken_the_lines_before(rt: HostRuntime) -> Result<(), Fail> {
    assert_eq!(rt; call_missed(rt.alloc(), 11)?, None);
    Ok(())
}

#[test]
fn a_full_sink_has_taken_what_it_holds(rt: HostRuntime) -> Result<(), Fail> {
    assert_eq!(rt; room_missed_of_all(rt.alloc())?, None);
    Ok(())
}

#[test]
fn a_report_is_whole_in_just_its_room(rt: HostRuntime) -> Result<(), Fail> {
    assert!(rt; just_fits(rt.alloc())?);
    Ok(())
}
