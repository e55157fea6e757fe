//! Which line a text is.
ghost use Rattle.std.specs.Prelude.{◌≡◌, ◌<◌};
ghost use Rattle.report_view.specs.Reading.{answer_place, answer_read, ask_read, claim_read, schedule_read, board_or_detail, boot_read, client_read, ended_read, entry_read, entry_says, is_question, judge_read, kind_read, last_read, line_read, finished_read, other_read, resume_read, resumed_read, said, started_read, state_read, step_read};

use crate::line::{Answer, Kind, Line, Resumed, State, Step};
use crate::words::{blanks, is, number, word};

fn step(line: &[u8], at: usize) -> Option<Step>
    ensures { result ≡ step_read at line.now }
{
    if is(line, at, b"prepare") {
        return Some(Step::Prepare);
    }
    if is(line, at, b"detach") {
        return Some(Step::Detach);
    }
    if is(line, at, b"write") {
        return Some(Step::Write);
    }
    if is(line, at, b"attach") {
        return Some(Step::Attach);
    }
    if is(line, at, b"reload") {
        return Some(Step::Reload);
    }
    if is(line, at, b"cleanup") {
        return Some(Step::Cleanup);
    }
    None
}

fn state(line: &[u8], at: usize) -> Option<State>
    ensures { result ≡ state_read at line.now }
{
    if is(line, at, b"pending") {
        return Some(State::Pending);
    }
    if is(line, at, b"begun") {
        return Some(State::Begun);
    }
    if is(line, at, b"success") {
        return Some(State::Success);
    }
    if is(line, at, b"failed") {
        return Some(State::Failed);
    }
    if is(line, at, b"needs-reboot") {
        return Some(State::NeedsReboot);
    }
    None
}

fn answer(line: &[u8], at: usize) -> Option<Answer>
    requires { at < 100 }
    ensures { result ≡ answer_read at line.now }
{
    if is(line, at, b"hold") {
        return Some(Answer::Hold);
    }
    if is(line, at, b"entry") {
        return Some(Answer::Entry(number(line, at + 1)?));
    }
    if is(line, at, b"kept") {
        return Some(Answer::Kept);
    }
    if is(line, at, b"refused") {
        return Some(Answer::Refused);
    }
    None
}

fn boot(line: &[u8]) -> Option<Kind>
    ensures { result ≡ boot_read line.now }
{
    let number_told = number(line, 1)?;
    let _time = number(line, 3)?;
    if is(line, 2, b"time") {
        Some(Kind::Boot {
            number: number_told,
        })
    } else {
        None
    }
}

// Where the answer to a request stands: behind its version, or behind the row that it tries again.
fn answer_place(line: &[u8]) -> usize
    ensures place { result ≡ answer_place line.now }
    ensures low { result < 100 }
{
    if is(line, 6, b"retry-of") { 8 } else { 6 }
}

fn ask(line: &[u8], client: u64) -> Option<Kind>
    ensures { result ≡ ask_read client line.now }
{
    if client == 0 {
        let entry = number(line, 4)?;
        let told = answer(line, 5)?;
        Some(Kind::Recall {
            entry,
            answer: told,
        })
    } else {
        let told = answer(line, answer_place(line))?;
        Some(Kind::Ask {
            client,
            answer: told,
        })
    }
}

fn resumed(line: &[u8]) -> Option<Resumed>
    ensures { result ≡ resumed_read line.now }
{
    if is(line, 4, b"begun") {
        return Some(Resumed::Begun);
    }
    if is(line, 4, b"refused") {
        if is(line, 5, b"16") {
            return Some(Resumed::Doubted);
        }
        return Some(Resumed::Failed);
    }
    None
}

fn resume(line: &[u8], client: u64) -> Option<Kind>
    ensures { result ≡ resume_read client line.now }
{
    let entry = number(line, 3)?;
    let told = resumed(line)?;
    Some(Kind::Resume {
        client,
        entry,
        resumed: told,
    })
}

fn started(line: &[u8], entry: u64) -> Option<Kind>
    ensures { result ≡ started_read entry line.now }
{
    let told = step(line, 5)?;
    Some(Kind::Start { entry, step: told })
}

fn ended(line: &[u8], entry: u64) -> Option<Kind>
    ensures { result ≡ ended_read entry line.now }
{
    let told = step(line, 5)?;
    Some(Kind::End {
        entry,
        step: told,
        good: is(line, 6, b"ok"),
    })
}

fn finished(line: &[u8], entry: u64) -> Option<Kind>
    ensures { result ≡ finished_read entry line.now }
{
    let told = state(line, 5)?;
    Some(Kind::Finish { entry, state: told })
}

fn entry_says(line: &[u8], entry: u64) -> Option<Kind>
    ensures { result ≡ entry_says entry line.now }
{
    if is(line, 4, b"start") {
        return started(line, entry);
    }
    if is(line, 4, b"end") {
        return ended(line, entry);
    }
    if is(line, 4, b"finish") {
        return finished(line, entry);
    }
    None
}

fn entry(line: &[u8]) -> Option<Kind>
    ensures { result ≡ entry_read line.now }
{
    let entry = number(line, 3)?;
    entry_says(line, entry)
}

fn judge(line: &[u8]) -> Option<Kind>
    ensures { result ≡ judge_read line.now }
{
    let entry = number(line, 3)?;
    let told = state(line, 5)?;
    Some(Kind::Judge { entry, state: told })
}

fn is_question(line: &[u8]) -> bool
    ensures { result ≡ is_question line.now }
{
    is(line, 2, b"get-devices")
        || is(line, 2, b"get-releases")
        || is(line, 2, b"get-upgrades")
        || is(line, 2, b"get-history")
        || is(line, 2, b"get-results")
        || is(line, 2, b"settle")
}

fn other(line: &[u8], client: u64) -> Option<Kind>
    ensures { result ≡ other_read client line.now }
{
    if is(line, 2, b"plug") && 4 <= blanks(line) {
        return Some(Kind::Plug {
            client,
            done: is(line, 4, b"done"),
        });
    }
    if is(line, 2, b"unplug") && 4 <= blanks(line) {
        return Some(Kind::Unplug {
            client,
            done: is(line, 4, b"done"),
        });
    }
    if is(line, 2, b"gave-back") && 3 <= blanks(line) {
        return Some(Kind::GaveBack {
            client,
            tagged: blanks(line) == 3,
        });
    }
    if is_question(line) {
        return Some(Kind::Question { client });
    }
    None
}

fn claim(line: &[u8], client: u64) -> Option<Kind>
    ensures { result ≡ claim_read client line.now }
{
    let told = answer(line, 4)?;
    Some(Kind::Claim {
        client,
        answer: told,
    })
}

fn schedule(line: &[u8], client: u64) -> Option<Kind>
    ensures { result ≡ schedule_read client line.now }
{
    let told = answer(line, answer_place(line))?;
    Some(Kind::Schedule {
        client,
        answer: told,
    })
}

fn said(line: &[u8], client: u64) -> Option<Kind>
    ensures { result ≡ said client line.now }
{
    if is(line, 2, b"ask") {
        return ask(line, client);
    }
    if is(line, 2, b"claim") {
        return claim(line, client);
    }
    if is(line, 2, b"schedule") {
        return schedule(line, client);
    }
    if is(line, 2, b"resume") {
        return resume(line, client);
    }
    if is(line, 2, b"entry") {
        return entry(line);
    }
    if is(line, 2, b"judge") {
        return judge(line);
    }
    other(line, client)
}

fn client(line: &[u8]) -> Option<Kind>
    ensures { result ≡ client_read line.now }
{
    let client = number(line, 1)?;
    said(line, client)
}

/// The event that a line tells, if it tells one.
#[tactic(auto, unfolding(crate::specs::Reading::kind_read))]
fn kind(line: &[u8]) -> Option<Kind>
    ensures { result ≡ kind_read line.now }
{
    if line == b"cut".as_slice() {
        return Some(Kind::Cut);
    }
    if is(line, 0, b"boot") {
        return boot(line);
    }
    if is(line, 0, b"client") {
        return client(line);
    }
    None
}

fn board_or_detail(line: &[u8]) -> Line
    ensures { result ≡ board_or_detail line.now }
{
    if is(line, 2, b"board") && (blanks(line) == 4 || blanks(line) == 5) {
        Line::Board
    } else {
        Line::Detail
    }
}

fn last(line: &[u8]) -> Line
    ensures { result ≡ last_read line.now }
{
    if blanks(line) != 1 {
        return Line::Unread;
    }
    match number(line, 1) {
        Some(events) => Line::Last(events),
        None => Line::Unread,
    }
}

/// What a line is.
#[tactic(auto, unfolding(crate::specs::Reading::line_read))]
pub fn read_line(line: &[u8]) -> Line
    ensures { result ≡ line_read line.now }
{
    if line.starts_with(b"  ") {
        return board_or_detail(line);
    }
    if line == b"fwupdemu report 1".as_slice() {
        return Line::First;
    }
    if is(line, 0, b"end") {
        return last(line);
    }
    match kind(line) {
        Some(kind) => Line::Event(kind),
        None => Line::Unread,
    }
}
