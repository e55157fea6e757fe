//! The lines of each event, put behind the bytes of a text.
ghost use Rattle.std.specs.Prelude.{◌≡◌, ◌++◌, OnOk, codes};
ghost use Rattle.std.specs.Option.{option_copied};
ghost use Rattle.std.specs.List.{flat_map};
ghost use Rattle.report_text.specs.Lines.{found_text, stored_text, resume_stored_text, boot_line, told_line, board_line, asked_text, entry_text, ask_line, claim_line, schedule_line, resume_line, end_line, finish_line, judge_line, plug_line, line_of, lines_of, client_text, query_text, back_text, entry_ended};
ghost use Rattle.report_text.specs.Words.{op_word};

use crate::answers::{put_ask, put_back, put_claim, put_plug, put_query, put_resume};
use crate::lookup::sheet_at;
use crate::parts::{put_client, put_told};
use crate::words::{op_word, outcome_word};
use client_scripts::parts::{put_number, put_port, put_retry, put_seen, put_selector};
use client_scripts::words::state_word;
use device_list::Selector;
use emulated_boards::BoardFault;
use fw_facts::{Seen, Sheet};
use history_keeper::RowState;
use std::alloc::AllocError;
use update_log::{
    AskAnswer, Back, BoardSeen, ClaimAnswer, Event, Found, Op, PlugAnswer, Query, Refusal, Request,
    ResumeAnswer, Stored, Told,
};
use version_formats::Version;

fn found_text(found: Found) -> &'static str
    ensures { result.now ≡ found_text found }
{
    match found {
        Found::Plain => "",
        Found::Kept => " doubt kept",
        Found::Lost => " doubt lost",
        Found::Fault => " keeper-fault",
    }
}

fn stored_text(stored: Stored) -> &'static str
    ensures { result.now ≡ stored_text stored }
{
    match stored {
        Stored::Yes => "",
        Stored::Fault => " keeper-fault",
        Stored::NoMemory => " no-memory",
        Stored::Unchanged => "",
    }
}

fn resume_stored_text(answer: &ResumeAnswer, stored: Stored) -> &'static str
    ensures { result.now ≡ resume_stored_text answer.now stored }
{
    match answer {
        ResumeAnswer::Refused(Refusal::KeeperFault) => "",
        ResumeAnswer::Refused(_) | ResumeAnswer::Begun => stored_text(stored),
    }
}

fn put_boot_line(out: &mut Vec<u8>, boot: u32, time: u64, found: Found) -> Result<(), AllocError>
    ensures { OnOk result (out.new.items ≡ out.old.items ++ boot_line boot time found) }
{
    out.extend_from_slice(b"boot ")?;
    put_number(out, u64::from(boot))?;
    out.extend_from_slice(b" time ")?;
    put_number(out, time)?;
    out.extend_from_slice(found_text(found).as_bytes())?;
    out.extend_from_slice(b"\n")
}

fn put_told_line(out: &mut Vec<u8>, sheets: &[Sheet], board: &BoardSeen) -> Result<(), AllocError>
    ensures { OnOk result (out.new.items ≡ out.old.items ++ told_line sheets.now board.now) }
{
    if board.untold.is_empty() {
        return Ok(());
    }
    out.extend_from_slice(b"  told ")?;
    put_port(out, sheet_at(sheets, board.board))?;
    put_told(out, &board.untold)?;
    out.extend_from_slice(b"\n")
}

fn put_told_lines(
    out: &mut Vec<u8>,
    sheets: &[Sheet],
    boards: &[BoardSeen],
) -> Result<(), AllocError>
    ensures { OnOk result (out.new.items ≡ out.old.items ++ flat_map (told_line sheets.now) boards.now) }
{
    for board in boards {
        put_told_line(out, sheets, board)?;
    }
    Ok(())
}

fn put_board_line(out: &mut Vec<u8>, sheets: &[Sheet], board: &BoardSeen) -> Result<(), AllocError>
    ensures { OnOk result (out.new.items ≡ out.old.items ++ board_line sheets.now board.now) }
{
    let sheet = sheet_at(sheets, board.board);
    out.extend_from_slice(b"  board ")?;
    put_port(out, sheet)?;
    out.extend_from_slice(b" ")?;
    put_seen(out, sheet, board.seen)?;
    out.extend_from_slice(b"\n")
}

fn put_board_lines(
    out: &mut Vec<u8>,
    sheets: &[Sheet],
    boards: &[BoardSeen],
) -> Result<(), AllocError>
    ensures { OnOk result (out.new.items ≡ out.old.items ++ flat_map (board_line sheets.now) boards.now) }
{
    for board in boards {
        put_board_line(out, sheets, board)?;
    }
    Ok(())
}

fn put_asked(out: &mut Vec<u8>, request: &Request, pending: Option<u32>) -> Result<(), AllocError>
    ensures { OnOk result (out.new.items ≡ out.old.items ++ asked_text request.now pending) }
{
    match pending {
        None => {
            out.extend_from_slice(request.tag.bytes())?;
            out.extend_from_slice(b" ")?;
            put_selector(out, &request.device)?;
            out.extend_from_slice(b" ")?;
            out.extend_from_slice(request.version.bytes())?;
            put_retry(out, request.retry_of)
        }
        Some(entry) => {
            out.extend_from_slice(b"entry ")?;
            put_number(out, u64::from(entry))
        }
    }
}

fn put_entry(out: &mut Vec<u8>, client: u32, entry: u32) -> Result<(), AllocError>
    ensures { OnOk result (out.new.items ≡ out.old.items ++ entry_text client entry) }
{
    put_client(out, client)?;
    out.extend_from_slice(b" entry ")?;
    put_number(out, u64::from(entry))
}

fn put_ask_line(
    out: &mut Vec<u8>,
    client: u32,
    request: &Request,
    pending: Option<u32>,
    answer: &AskAnswer,
) -> Result<(), AllocError>
    ensures { OnOk result (out.new.items ≡ out.old.items ++ ask_line client request.now pending answer.now) }
{
    put_client(out, client)?;
    out.extend_from_slice(b" ask ")?;
    put_asked(out, request, pending)?;
    out.extend_from_slice(b" ")?;
    put_ask(out, answer)
}

fn put_claim_line(
    out: &mut Vec<u8>,
    client: u32,
    request: &Request,
    answer: &ClaimAnswer,
) -> Result<(), AllocError>
    ensures { OnOk result (out.new.items ≡ out.old.items ++ claim_line client request.now answer.now) }
{
    put_client(out, client)?;
    out.extend_from_slice(b" claim ")?;
    out.extend_from_slice(request.tag.bytes())?;
    out.extend_from_slice(b" ")?;
    put_claim(out, answer)
}

fn put_schedule_line(
    out: &mut Vec<u8>,
    client: u32,
    request: &Request,
    answer: &ClaimAnswer,
) -> Result<(), AllocError>
    ensures { OnOk result (out.new.items ≡ out.old.items ++ schedule_line client request.now answer.now) }
{
    put_client(out, client)?;
    out.extend_from_slice(b" schedule ")?;
    put_asked(out, request, None)?;
    out.extend_from_slice(b" ")?;
    put_claim(out, answer)
}

fn put_resume_line(
    out: &mut Vec<u8>,
    client: u32,
    entry: u32,
    answer: &ResumeAnswer,
    stored: Stored,
) -> Result<(), AllocError>
    ensures { OnOk result (out.new.items ≡ out.old.items ++ resume_line client entry answer.now stored) }
{
    put_client(out, client)?;
    out.extend_from_slice(b" resume ")?;
    put_number(out, u64::from(entry))?;
    out.extend_from_slice(b" ")?;
    put_resume(out, answer)?;
    out.extend_from_slice(resume_stored_text(answer, stored).as_bytes())
}

fn put_start_line(out: &mut Vec<u8>, client: u32, entry: u32, op: Op) -> Result<(), AllocError>
    ensures { OnOk result (out.new.items ≡ out.old.items ++ entry_text client entry ++ codes " start " ++ op_word op) }
{
    put_entry(out, client, entry)?;
    out.extend_from_slice(b" start ")?;
    out.extend_from_slice(op_word(op).as_bytes())
}

/// How a step ended, as its line shows it.
#[derive(Drop)]
struct Ended<'a> {
    op: Op,
    outcome: &'a Result<(), BoardFault>,
    told: &'a Told,
    seen: Seen,
}

fn put_end_line(
    out: &mut Vec<u8>,
    sheet: Option<&Sheet>,
    client: u32,
    entry: u32,
    ended: &Ended<'_>,
) -> Result<(), AllocError>
    ensures { OnOk result (out.new.items ≡ out.old.items
        ++ end_line (option_copied sheet.entry) client entry ended.now.op ended.now.outcome.now ended.now.told.now ended.now.seen) }
{
    put_entry(out, client, entry)?;
    out.extend_from_slice(b" end ")?;
    out.extend_from_slice(op_word(ended.op).as_bytes())?;
    out.extend_from_slice(b" ")?;
    out.extend_from_slice(outcome_word(ended.outcome).as_bytes())?;
    out.extend_from_slice(b" ")?;
    put_seen(out, sheet, ended.seen)?;
    put_told(out, ended.told)
}

fn put_finish_line(
    out: &mut Vec<u8>,
    client: u32,
    entry: u32,
    state: RowState,
    stored: Stored,
) -> Result<(), AllocError>
    ensures { OnOk result (out.new.items ≡ out.old.items ++ finish_line client entry state stored) }
{
    put_entry(out, client, entry)?;
    out.extend_from_slice(b" finish ")?;
    out.extend_from_slice(state_word(state).as_bytes())?;
    out.extend_from_slice(stored_text(stored).as_bytes())
}

fn put_judge_line(
    out: &mut Vec<u8>,
    client: u32,
    entry: u32,
    version: &Version,
    state: RowState,
    stored: Stored,
) -> Result<(), AllocError>
    ensures { OnOk result (out.new.items ≡ out.old.items ++ judge_line client entry version.now state stored) }
{
    put_client(out, client)?;
    out.extend_from_slice(b" judge ")?;
    put_number(out, u64::from(entry))?;
    out.extend_from_slice(b" ")?;
    out.extend_from_slice(version.bytes())?;
    out.extend_from_slice(b" ")?;
    out.extend_from_slice(state_word(state).as_bytes())?;
    out.extend_from_slice(stored_text(stored).as_bytes())
}

fn put_plug_line(
    out: &mut Vec<u8>,
    client: u32,
    word: &[u8],
    device: &Selector,
    answer: &PlugAnswer,
) -> Result<(), AllocError>
    ensures { OnOk result (out.new.items ≡ out.old.items ++ plug_line client word.now device.now answer.now) }
{
    put_client(out, client)?;
    out.extend_from_slice(word)?;
    put_selector(out, device)?;
    out.extend_from_slice(b" ")?;
    put_plug(out, answer)
}

fn put_query_line(out: &mut Vec<u8>, client: u32, query: &Query) -> Result<(), AllocError>
    ensures { OnOk result (out.new.items ≡ out.old.items ++ client_text client ++ codes " " ++ query_text query.now) }
{
    put_client(out, client)?;
    out.extend_from_slice(b" ")?;
    put_query(out, query)
}

fn put_back_line(out: &mut Vec<u8>, client: u32, what: &Back) -> Result<(), AllocError>
    ensures { OnOk result (out.new.items ≡ out.old.items ++ client_text client ++ codes " gave-back " ++ back_text what.now) }
{
    put_client(out, client)?;
    out.extend_from_slice(b" gave-back ")?;
    put_back(out, what)
}

fn put_boot(
    out: &mut Vec<u8>,
    sheets: &[Sheet],
    boot: u32,
    time: u64,
    found: Found,
    boards: &[BoardSeen],
) -> Result<(), AllocError>
    ensures { OnOk result (out.new.items ≡ out.old.items
        ++ boot_line boot time found ++ flat_map (told_line sheets.now) boards.now ++ flat_map (board_line sheets.now) boards.now) }
{
    put_boot_line(out, boot, time, found)?;
    put_told_lines(out, sheets, boards)?;
    put_board_lines(out, sheets, boards)
}

/// Puts the line of an event that is no boot behind the text, without its end. The sheet is that of
/// the board whose step it ends.
fn put_line(out: &mut Vec<u8>, sheet: Option<&Sheet>, event: &Event) -> Result<(), AllocError>
    ensures { OnOk result (out.new.items ≡ out.old.items ++ line_of (option_copied sheet.entry) event.now) }
{
    match event {
        Event::Boot { .. } => Ok(()),
        Event::Query { client, query } => put_query_line(out, *client, query),
        Event::Ask {
            client,
            request,
            pending,
            answer,
        } => put_ask_line(out, *client, request, *pending, answer),
        Event::Claim {
            client,
            request,
            answer,
            ..
        } => put_claim_line(out, *client, request, answer),
        Event::Schedule {
            client,
            request,
            answer,
        } => put_schedule_line(out, *client, request, answer),
        Event::Resume {
            client,
            entry,
            answer,
            stored,
            ..
        } => put_resume_line(out, *client, *entry, answer, *stored),
        Event::Start { client, entry, op } => put_start_line(out, *client, *entry, *op),
        Event::End {
            client,
            entry,
            op,
            outcome,
            told,
            seen,
        } => {
            let ended = Ended {
                op: *op,
                outcome,
                told,
                seen: *seen,
            };
            put_end_line(out, sheet, *client, *entry, &ended)
        }
        Event::Finish {
            client,
            entry,
            state,
            stored,
        } => put_finish_line(out, *client, *entry, *state, *stored),
        Event::Judge {
            client,
            entry,
            version,
            state,
            stored,
        } => put_judge_line(out, *client, *entry, version, *state, *stored),
        Event::Unplug {
            client,
            device,
            answer,
        } => put_plug_line(out, *client, b" unplug ", device, answer),
        Event::Plug {
            client,
            device,
            answer,
        } => put_plug_line(out, *client, b" plug ", device, answer),
        Event::GiveBack { client, what } => put_back_line(out, *client, what),
        Event::Cut => out.extend_from_slice(b"cut"),
    }
}

/// Puts the lines of an event behind the text. The sheet is that of the board whose step it ends.
pub fn put_lines(
    out: &mut Vec<u8>,
    sheets: &[Sheet],
    sheet: Option<&Sheet>,
    event: &Event,
) -> Result<(), AllocError>
    ensures { OnOk result (out.new.items ≡ out.old.items ++ lines_of sheets.now (option_copied sheet.entry) event.now) }
{
    match event {
        Event::Boot {
            boot,
            time,
            found,
            boards,
            ..
        } => put_boot(out, sheets, *boot, *time, *found, boards.items()),
        _ => {
            put_line(out, sheet, event)?;
            out.extend_from_slice(b"\n")
        }
    }
}

/// The entry of a step that an event ends.
pub fn entry_ended(event: &Event) -> Option<u32>
    ensures { result ≡ entry_ended event.now }
{
    match event {
        Event::End { entry, .. } => Some(*entry),
        Event::Boot { .. }
        | Event::Query { .. }
        | Event::Ask { .. }
        | Event::Claim { .. }
        | Event::Schedule { .. }
        | Event::Resume { .. }
        | Event::Start { .. }
        | Event::Finish { .. }
        | Event::Judge { .. }
        | Event::Unplug { .. }
        | Event::Plug { .. }
        | Event::GiveBack { .. }
        | Event::Cut => None,
    }
}
