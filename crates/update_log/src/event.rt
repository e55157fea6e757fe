//! The events of the log.
ghost use Rattle.std.specs.Prelude.{◌≡◌, IfOk};

use crate::answer::{AskAnswer, ClaimAnswer, PlugAnswer, ResumeAnswer};
use crate::refusal::FetchNote;
use crate::request::Request;
use crate::told::Told;
use device_list::Selector;
use emulated_boards::BoardFault;
use fw_base::{Listed, Name, NoMemory};
use fw_facts::Seen;
use history_keeper::RowState;
use std::alloc::Global;
use version_formats::Version;

/// A step of an update, in the order in which steps are taken.
#[derive(Clone, Copy, Debug, PartialEq, Eq)]
pub enum Op {
    Prepare = 1,
    Detach = 2,
    Write = 3,
    Attach = 4,
    Reload = 5,
    Cleanup = 6,
}

/// What a boot found of a change whose commit had failed.
#[derive(Clone, Copy, Debug, PartialEq, Eq)]
pub enum Found {
    /// No change was in doubt.
    Plain,
    /// The change was made.
    Kept,
    /// The change was not made.
    Lost,
    /// The history couldn't be read.
    Fault,
}

/// Whether an event's change of the history was stored.
#[derive(Clone, Copy, Debug, PartialEq, Eq)]
pub enum Stored {
    Yes,
    /// The history couldn't be written, so the change is in doubt.
    Fault,
    NoMemory,
    /// There was nothing to change.
    Unchanged,
}

/// What is given back.
#[derive(Clone, Copy, Debug)]
pub enum Back {
    /// The hold of the request with this tag.
    Tag(Name),
    /// The hold of this entry, which was put off.
    Pending(u32),
    /// This entry, which was begun.
    Entry(u32),
}

/// A question to the daemon.
#[derive(Clone, Copy, Debug)]
pub enum Query {
    Devices,
    Releases(Selector),
    Upgrades(Selector),
    History,
    Results(Selector),
    /// To judge the device's row, where there was none to judge.
    Settle(Selector),
}

/// What a boot shows of a board, and the marks of its journal that no event had told.
#[derive(Clone, Copy, Debug)]
pub struct BoardSeen {
    /// The board's place in the document, from 0.
    pub board: u32,
    pub seen: Seen,
    pub untold: Told,
}

/// What one atomic step did. A client is 1 to 16, or 0 for the daemon itself; an entry is the number
/// of a row, from 1.
#[derive(Drop)]
pub enum Event {
    /// The machine started: the boot's number from 1, its time in seconds, after how many counted
    /// events the power is cut, what became of a doubtful change, and what each board shows.
    Boot {
        boot: u32,
        time: u64,
        limit: Option<u32>,
        found: Found,
        boards: Listed<BoardSeen>,
    },
    /// A question was answered.
    Query {
        client: u32,
        query: Query,
    },
    /// An install was asked for; `pending` is the entry of a row that was put off.
    Ask {
        client: u32,
        request: Request,
        pending: Option<u32>,
        answer: AskAnswer,
    },
    /// The install was to be begun, with the payload that was fetched.
    Claim {
        client: u32,
        request: Request,
        fetched: FetchNote,
        answer: ClaimAnswer,
    },
    /// The install was to be put off to the next boot.
    Schedule {
        client: u32,
        request: Request,
        answer: ClaimAnswer,
    },
    /// An install that was put off was to be begun.
    Resume {
        client: u32,
        entry: u32,
        fetched: Option<FetchNote>,
        answer: ResumeAnswer,
        stored: Stored,
    },
    /// A step began.
    Start {
        client: u32,
        entry: u32,
        op: Op,
    },
    /// A step ended: how, which marks it made, and what the port shows.
    End {
        client: u32,
        entry: u32,
        op: Op,
        outcome: Result<(), BoardFault>,
        told: Told,
        seen: Seen,
    },
    /// An entry was finished.
    Finish {
        client: u32,
        entry: u32,
        state: RowState,
        stored: Stored,
    },
    /// A row was judged by the version that its device shows.
    Judge {
        client: u32,
        entry: u32,
        version: Version,
        state: RowState,
        stored: Stored,
    },
    /// A board was to be taken from its port.
    Unplug {
        client: u32,
        device: Selector,
        answer: PlugAnswer,
    },
    /// A board was to be put back into its port.
    Plug {
        client: u32,
        device: Selector,
        answer: PlugAnswer,
    },
    /// What a client held was given back.
    GiveBack {
        client: u32,
        what: Back,
    },
    /// The power was cut.
    Cut,
}

/// All events, the oldest first.
pub type Log = Listed<Event>;

impl Event {
    /// An equal event.
    pub fn copy(&self, alloc: Global) -> Result<Event, NoMemory>
        ensures { IfOk result (λ copy. copy ≡ self.now) }
    {
        match self {
            Event::Boot {
                boot,
                time,
                limit,
                found,
                boards,
            } => Ok(Event::Boot {
                boot: *boot,
                time: *time,
                limit: *limit,
                found: *found,
                boards: copied(alloc, boards)?,
            }),
            Event::Query { client, query } => Ok(Event::Query {
                client: *client,
                query: *query,
            }),
            Event::Ask {
                client,
                request,
                pending,
                answer,
            } => Ok(Event::Ask {
                client: *client,
                request: *request,
                pending: *pending,
                answer: *answer,
            }),
            Event::Claim {
                client,
                request,
                fetched,
                answer,
            } => Ok(Event::Claim {
                client: *client,
                request: *request,
                fetched: *fetched,
                answer: *answer,
            }),
            Event::Schedule {
                client,
                request,
                answer,
            } => Ok(Event::Schedule {
                client: *client,
                request: *request,
                answer: *answer,
            }),
            Event::Resume {
                client,
                entry,
                fetched,
                answer,
                stored,
            } => Ok(Event::Resume {
                client: *client,
                entry: *entry,
                fetched: *fetched,
                answer: *answer,
                stored: *stored,
            }),
            Event::Start { client, entry, op } => Ok(Event::Start {
                client: *client,
                entry: *entry,
                op: *op,
            }),
            Event::End {
                client,
                entry,
                op,
                outcome,
                told,
                seen,
            } => Ok(Event::End {
                client: *client,
                entry: *entry,
                op: *op,
                outcome: *outcome,
                told: *told,
                seen: *seen,
            }),
            Event::Finish {
                client,
                entry,
                state,
                stored,
            } => Ok(Event::Finish {
                client: *client,
                entry: *entry,
                state: *state,
                stored: *stored,
            }),
            Event::Judge {
                client,
                entry,
                version,
                state,
                stored,
            } => Ok(Event::Judge {
                client: *client,
                entry: *entry,
                version: *version,
                state: *state,
                stored: *stored,
            }),
            Event::Unplug {
                client,
                device,
                answer,
            } => Ok(Event::Unplug {
                client: *client,
                device: *device,
                answer: *answer,
            }),
            Event::Plug {
                client,
                device,
                answer,
            } => Ok(Event::Plug {
                client: *client,
                device: *device,
                answer: *answer,
            }),
            Event::GiveBack { client, what } => Ok(Event::GiveBack {
                client: *client,
                what: *what,
            }),
            Event::Cut => Ok(Event::Cut),
        }
    }
}

fn copied(alloc: Global, boards: &Listed<BoardSeen>) -> Result<Listed<BoardSeen>, NoMemory>
    ensures { IfOk result (λ copy. copy ≡ boards.now) }
{
    Ok(Listed::of(Vec::from_slice(alloc, boards.items())?))
}
