//! What a day leaves, in a form that tests compare.
use daemon_core::Judged;
use emulated_boards::BoardFault;
use fw_facts::Seen;
use history_keeper::{Row, RowState};
use std::alloc::Global;
use std::test::Fail;
use update_log::{AskAnswer, Event, FetchNote, Found, Op, ResumeAnswer, Stored};
use version_formats::Version;

/// What an event of the log tells. Each is of the daemon itself.
#[derive(Clone, Copy, Debug, PartialEq, Eq)]
pub enum Noted {
    Boot {
        boot: u32,
        found: Found,
    },
    /// A row that was put off was asked for, and these many blocks are held.
    Held {
        entry: u32,
        blocks: u32,
    },
    /// It was begun, with a whole payload of that length and version.
    Begun {
        entry: u32,
        len: u32,
        raw: u32,
        stored: Stored,
    },
    Started {
        entry: u32,
        op: Op,
    },
    Ended {
        entry: u32,
        op: Op,
        outcome: Result<(), BoardFault>,
        seen: Seen,
    },
    Finished {
        entry: u32,
        state: RowState,
        stored: Stored,
    },
    Judged {
        entry: u32,
        version: Version,
        state: RowState,
        stored: Stored,
    },
    /// Another event, or another answer, or one of a client.
    Other,
}

fn noted_ask(pending: Option<u32>, answer: &AskAnswer) -> Noted {
    match (pending, answer) {
        (Some(entry), AskAnswer::Hold { blocks, release: _ }) => Noted::Held {
            entry,
            blocks: *blocks,
        },
        _ => Noted::Other,
    }
}

fn noted_resume(
    entry: u32,
    fetched: Option<FetchNote>,
    answer: &ResumeAnswer,
    stored: Stored,
) -> Noted {
    match (fetched, answer) {
        (
            Some(
                FetchNote::Whole {
                    digest: _,
                    len,
                    raw,
                },
            ),
            ResumeAnswer::Begun,
        ) => Noted::Begun {
            entry,
            len,
            raw,
            stored,
        },
        _ => Noted::Other,
    }
}

fn noted_event(event: &Event) -> Noted {
    match event {
        Event::Boot {
            boot,
            time: _,
            limit: _,
            found,
            boards: _,
        } => Noted::Boot {
            boot: *boot,
            found: *found,
        },
        Event::Ask {
            client: 0,
            request: _,
            pending,
            answer,
        } => noted_ask(*pending, answer),
        Event::Resume {
            client: 0,
            entry,
            fetched,
            answer,
            stored,
        } => noted_resume(*entry, *fetched, answer, *stored),
        _ => noted_step(event),
    }
}

fn noted_step(event: &Event) -> Noted {
    match event {
        Event::Start {
            client: 0,
            entry,
            op,
        } => Noted::Started {
            entry: *entry,
            op: *op,
        },
        Event::End {
            client: 0,
            entry,
            op,
            outcome,
            told: _,
            seen,
        } => Noted::Ended {
            entry: *entry,
            op: *op,
            outcome: *outcome,
            seen: *seen,
        },
        _ => noted_end(event),
    }
}

fn noted_end(event: &Event) -> Noted {
    match event {
        Event::Finish {
            client: 0,
            entry,
            state,
            stored,
        } => Noted::Finished {
            entry: *entry,
            state: *state,
            stored: *stored,
        },
        Event::Judge {
            client: 0,
            entry,
            version,
            state,
            stored,
        } => Noted::Judged {
            entry: *entry,
            version: *version,
            state: *state,
            stored: *stored,
        },
        _ => Noted::Other,
    }
}

/// What the events of a log tell.
pub fn noted_log(alloc: Global, log: &[Event]) -> Result<Vec<Noted>, Fail> {
    let mut all = Vec::new(alloc);
    for event in log {
        all.push(noted_event(event))?;
    }
    Ok(all)
}

/// What a judgement was answered.
#[derive(Clone, Copy, Debug, PartialEq, Eq)]
pub enum Verdict {
    Done { state: RowState, stored: Stored },
    Absent,
    Waits,
    Settled,
}

impl Verdict {
    pub fn of(judged: &Judged) -> Verdict {
        match judged {
            Judged::Done { state, stored } => Verdict::Done {
                state: *state,
                stored: *stored,
            },
            Judged::Absent => Verdict::Absent,
            Judged::Waits => Verdict::Waits,
            Judged::Settled => Verdict::Settled,
        }
    }
}

/// How a row ended.
#[derive(Clone, Copy, Debug, PartialEq, Eq)]
pub struct RowEnd {
    pub entry: u32,
    pub state: RowState,
    pub reason: u8,
    pub time_added: u64,
    pub time_changed: u64,
}

/// How the rows ended.
pub fn row_ends(alloc: Global, rows: &[Row]) -> Result<Vec<RowEnd>, Fail> {
    let mut all = Vec::new(alloc);
    for row in rows {
        all.push(RowEnd {
            entry: row.entry,
            state: row.state,
            reason: row.reason,
            time_added: row.time_added,
            time_changed: row.time_changed,
        })?;
    }
    Ok(all)
}
