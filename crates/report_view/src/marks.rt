//! The mark of each event.
ghost use Rattle.std.specs.Prelude.{◌≡◌, ◌+◌, ◌++◌, OnOk, drop, map};
ghost use Rattle.std.specs.List.{flat_map};
ghost use Rattle.report_view.specs.Reading.{line_read};
ghost use Rattle.report_view.specs.Marks.{answer_word, belongs, boot_word, detail, details, done_word, grade, label, lane, lane_of_entry, mark, mark_class, mark_head, mark_name, mark_place, resumed_word, state_word, step_word};

use crate::event::{Event, line_at};
use crate::html::{
    BOOT_LABEL, CLOSE_HEAD, CLOSE_MARK, CUT_LABEL, MARK_CLASS, MARK_PLACE, MARK_TITLE, OPEN_MARK,
};
use crate::lanes::{client_of, entry_of};
use crate::line::{Answer, Kind, Line, Resumed, State, Step};
use crate::pieces::{put_escaped, put_number};
use crate::reading::read_line;
use std::alloc::AllocError;

fn mark_name(kind: Kind) -> &'static str
    ensures { result.now ≡ mark_name kind }
{
    match kind {
        Kind::Boot { .. } => "boot",
        Kind::Cut => "cut",
        Kind::Ask { .. } => "ask",
        Kind::Recall { .. } => "recall",
        Kind::Claim { .. } => "claim",
        Kind::Schedule { .. } => "schedule",
        Kind::Resume { .. } => "resume",
        Kind::Start { .. } => "start",
        Kind::End { good: true, .. } => "end",
        Kind::End { good: false, .. } => "fault",
        Kind::Finish { .. } => "finish",
        Kind::Judge { .. } => "judge",
        Kind::Plug { .. } => "plug",
        Kind::Unplug { .. } => "unplug",
        Kind::GaveBack { .. } => "back",
        Kind::Question { .. } => "question",
    }
}

fn boot_word(number: u64) -> &'static str
    ensures { result.now ≡ boot_word number }
{
    if number % 2 == 0 { "even" } else { "odd" }
}

fn answer_word(answer: Answer) -> &'static str
    ensures { result.now ≡ answer_word answer }
{
    match answer {
        Answer::Hold | Answer::Entry(_) => "yes",
        Answer::Kept => "kept",
        Answer::Refused => "no",
    }
}

fn resumed_word(resumed: Resumed) -> &'static str
    ensures { result.now ≡ resumed_word resumed }
{
    match resumed {
        Resumed::Begun => "yes",
        Resumed::Failed | Resumed::Doubted => "no",
    }
}

/// The word of a step.
fn step_word(step: Step) -> &'static str
    ensures { result.now ≡ step_word step }
{
    match step {
        Step::Prepare => "prepare",
        Step::Detach => "detach",
        Step::Write => "write",
        Step::Attach => "attach",
        Step::Reload => "reload",
        Step::Cleanup => "cleanup",
    }
}

/// The word of a state.
fn state_word(state: State) -> &'static str
    ensures { result.now ≡ state_word state }
{
    match state {
        State::Pending => "pending",
        State::Begun => "begun",
        State::Success => "success",
        State::Failed => "failed",
        State::NeedsReboot => "needs-reboot",
    }
}

fn done_word(done: bool) -> &'static str
    ensures { result.now ≡ done_word done }
{
    if done { "yes" } else { "no" }
}

/// How the event went.
fn grade(kind: Kind) -> &'static str
    ensures { result.now ≡ grade kind }
{
    match kind {
        Kind::Boot { number } => boot_word(number),
        Kind::Ask { answer, .. }
        | Kind::Recall { answer, .. }
        | Kind::Claim { answer, .. }
        | Kind::Schedule { answer, .. } => answer_word(answer),
        Kind::Resume { resumed, .. } => resumed_word(resumed),
        Kind::Start { step, .. } | Kind::End { step, .. } => step_word(step),
        Kind::Finish { state, .. } | Kind::Judge { state, .. } => state_word(state),
        Kind::Plug { done, .. } | Kind::Unplug { done, .. } => done_word(done),
        Kind::Cut | Kind::GaveBack { .. } | Kind::Question { .. } => "yes",
    }
}

fn put_lane_of_entry(out: &mut Vec<u8>, entry: Option<u64>) -> Result<(), AllocError>
    ensures { OnOk result (out.new.items ≡ out.old.items ++ lane_of_entry entry) }
{
    match entry {
        Some(entry) => {
            out.extend_from_slice(b" n")?;
            put_number(out, entry)
        }
        None => Ok(()),
    }
}

/// Puts the class of the lane behind the page: that of a client, or of an entry.
fn put_lane(out: &mut Vec<u8>, client: Option<u64>, entry: Option<u64>) -> Result<(), AllocError>
    ensures { OnOk result (out.new.items ≡ out.old.items ++ lane client entry) }
{
    match client {
        Some(client) => {
            out.extend_from_slice(b" c")?;
            put_number(out, client)
        }
        None => put_lane_of_entry(out, entry),
    }
}

#[tactic(auto, unfolding(crate::specs::Marks::mark_place))]
fn put_mark_place(out: &mut Vec<u8>, number: u64) -> Result<(), AllocError>
    ensures { OnOk result (out.new.items ≡ out.old.items ++ mark_place number) }
{
    out.extend_from_slice(OPEN_MARK)?;
    put_number(out, number)?;
    out.extend_from_slice(MARK_PLACE)?;
    put_number(out, number)
}

#[tactic(auto, unfolding(crate::specs::Marks::mark_class))]
fn put_mark_class(out: &mut Vec<u8>, kind: Kind) -> Result<(), AllocError>
    ensures { OnOk result (out.new.items ≡ out.old.items ++ mark_class kind) }
{
    out.extend_from_slice(MARK_CLASS)?;
    out.extend_from_slice(mark_name(kind).as_bytes())?;
    out.extend_from_slice(b" ")?;
    out.extend_from_slice(grade(kind).as_bytes())
}

#[tactic(auto, unfolding(crate::specs::Marks::mark_head))]
fn put_mark_head(out: &mut Vec<u8>, event: Event) -> Result<(), AllocError>
    ensures { OnOk result (out.new.items ≡ out.old.items ++ mark_head event) }
{
    put_mark_place(out, event.number)?;
    put_mark_class(out, event.kind)?;
    put_lane(out, client_of(event.kind), entry_of(event.kind))
}

fn belongs(line: Line) -> bool
    ensures { result ≡ belongs line }
{
    match line {
        Line::Board | Line::Detail => true,
        Line::First | Line::Last(_) | Line::Event(_) | Line::Unread => false,
    }
}

/// Whether a line belongs to the one above it.
fn goes_on(line: &[u8]) -> bool
    ensures { result ≡ belongs (line_read line.now) }
{
    belongs(read_line(line))
}

fn put_detail(out: &mut Vec<u8>, line: &[u8]) -> Result<(), AllocError>
    ensures { OnOk result (out.new.items ≡ out.old.items ++ detail line.now) }
{
    out.extend_from_slice(b"\n")?;
    put_escaped(out, line)
}

/// Puts the lines that belong to an event behind the page: those from the first on, up to one that doesn't belong
/// to the line above it.
fn put_details(out: &mut Vec<u8>, lines: &[&[u8]]) -> Result<(), AllocError>
    ensures { OnOk result (out.new.items ≡ out.old.items ++ details (map (λ line. line.now) lines.now)) }
{
    for line in lines {
        if !goes_on(line) {
            return Ok(());
        }
        put_detail(out, line)?;
    }
    Ok(())
}

/// The lines behind a place.
fn behind<'a>(lines: &'a [&'a [u8]], at: usize) -> &'a [&'a [u8]]
    ensures { map (λ line. line.now) result.now ≡ drop (at + 1) (map (λ line. line.now) lines.now) }
{
    if at >= lines.len() {
        return &[];
    }
    let (_, behind) = lines.split_at(at + 1);
    behind
}

fn put_label(out: &mut Vec<u8>, kind: Kind) -> Result<(), AllocError>
    ensures { OnOk result (out.new.items ≡ out.old.items ++ label kind) }
{
    match kind {
        Kind::Boot { number } => {
            out.extend_from_slice(BOOT_LABEL)?;
            put_number(out, number)?;
            out.extend_from_slice(b"</b>")
        }
        Kind::Cut => out.extend_from_slice(CUT_LABEL),
        _ => Ok(()),
    }
}

/// Puts the mark of an event behind the page.
#[tactic(auto, unfolding(crate::specs::Marks::mark))]
pub fn put_mark(out: &mut Vec<u8>, lines: &[&[u8]], event: Event) -> Result<(), AllocError>
    ensures { OnOk result (out.new.items ≡ out.old.items ++ mark (map (λ line. line.now) lines.now) event) }
{
    put_mark_head(out, event)?;
    out.extend_from_slice(MARK_TITLE)?;
    put_escaped(out, line_at(lines, event.at))?;
    put_details(out, behind(lines, event.at))?;
    out.extend_from_slice(CLOSE_HEAD)?;
    put_label(out, event.kind)?;
    out.extend_from_slice(CLOSE_MARK)
}

/// Puts the mark of each event behind the page, in order.
pub fn put_marks(out: &mut Vec<u8>, lines: &[&[u8]], events: &[Event]) -> Result<(), AllocError>
    ensures { OnOk result (out.new.items ≡ out.old.items ++ flat_map (mark (map (λ line. line.now) lines.now)) events.now) }
{
    for event in events {
        put_mark(out, lines, *event)?;
    }
    Ok(())
}
