//! What the client is answered, as the log has it and the tests compare it.
use history_keeper::RowState;
use requirements::Unmet;
use update_log::{AskAnswer, ClaimAnswer, Event, Found, Refusal, RetryFault, Stored};

/// A refusal that a test waits for.
#[derive(Clone, Copy, Debug, PartialEq, Eq)]
pub enum Why {
    Unsettled { entry: u32 },
    SameVersion,
    Unmet(Unmet),
    NoRoom { need: u32, free: u32 },
    RowsFull,
    KeeperFault,
    Retry(RetryFault),
    /// None of these.
    Another,
}

impl Why {
    /// The refusal, where a test waits for such a one.
    pub fn of(refusal: &Refusal) -> Why {
        match refusal {
            Refusal::Unsettled { entry } => Why::Unsettled { entry: *entry },
            Refusal::SameVersion => Why::SameVersion,
            Refusal::Unmet(unmet) => Why::Unmet(*unmet),
            Refusal::NoRoom { need, free } => Why::NoRoom {
                need: *need,
                free: *free,
            },
            Refusal::RowsFull => Why::RowsFull,
            Refusal::KeeperFault => Why::KeeperFault,
            Refusal::Retry(fault) => Why::Retry(*fault),
            Refusal::NoDevice
            | Refusal::NoRelease
            | Refusal::Busy { entry: _ }
            | Refusal::NotUpdatable
            | Refusal::Locked
            | Refusal::Problem(_)
            | Refusal::Older
            | Refusal::Veto { plugin: _ }
            | Refusal::Size {
                len: _,
                min: _,
                max: _,
            }
            | Refusal::Payload(_) => Why::Another,
        }
    }
}

/// What became of a request.
#[derive(Clone, Copy, Debug, PartialEq, Eq)]
pub enum Told {
    /// The tag was taken before, by this entry.
    Kept {
        entry: u32,
        state: RowState,
    },
    Refused(Why),
    /// It was installed under this entry.
    Finished {
        entry: u32,
        state: RowState,
        stored: Stored,
    },
    /// It was put off to the next boot under this entry.
    PutOff {
        entry: u32,
    },
    /// The boot is off.
    Off,
}

// An ask for which a payload is held isn't answered yet.
fn of_ask(answer: &AskAnswer) -> Option<Told> {
    match answer {
        AskAnswer::Hold {
            blocks: _,
            release: _,
        } => None,
        AskAnswer::Kept { entry, state } => Some(kept(*entry, *state)),
        AskAnswer::Refused(refusal) => Some(Told::Refused(Why::of(refusal))),
    }
}

// Nor is a claim whose entry is begun.
fn of_claim(answer: &ClaimAnswer) -> Option<Told> {
    match answer {
        ClaimAnswer::Entry(_) => None,
        ClaimAnswer::Kept { entry, state } => Some(kept(*entry, *state)),
        ClaimAnswer::Refused(refusal) => Some(Told::Refused(Why::of(refusal))),
    }
}

fn of_schedule(answer: &ClaimAnswer) -> Option<Told> {
    match answer {
        ClaimAnswer::Entry(entry) => Some(Told::PutOff { entry: *entry }),
        _ => of_claim(answer),
    }
}

// What became of a request of the client, where this event ends it.
fn of_event(event: &Event) -> Option<Told> {
    match event {
        Event::Ask {
            client: 1,
            request: _,
            pending: _,
            answer,
        } => of_ask(answer),
        Event::Claim {
            client: 1,
            request: _,
            fetched: _,
            answer,
        } => of_claim(answer),
        Event::Schedule {
            client: 1,
            request: _,
            answer,
        } => of_schedule(answer),
        Event::Finish {
            client: 1,
            entry,
            state,
            stored,
        } => Some(Told::Finished {
            entry: *entry,
            state: *state,
            stored: *stored,
        }),
        _ => None,
    }
}

// The number of the boot that begins here, if one does, and what it found.
fn boot_of(event: &Event) -> Option<(u32, Found)> {
    match event {
        Event::Boot {
            boot,
            time: _,
            limit: _,
            found,
            boards: _,
        } => Some((*boot, *found)),
        _ => None,
    }
}

/// What became of the request at this place, from 0, of those that were answered in a boot. Where there are not so
/// many, the boot was off.
pub fn told_in(log: &[Event], boot: u32, place: usize) -> Told {
    let mut now = 0;
    let mut answered: usize = 0;
    for event in log {
        if let Some((number, _)) = boot_of(event) {
            now = number;
        }
        let ended = if now == boot { of_event(event) } else { None };
        if let Some(told) = ended {
            if answered == place {
                return told;
            }
            answered = answered.wrapping_add(1);
        }
    }
    Told::Off
}

/// How a boot began.
#[derive(Clone, Copy, Debug, PartialEq, Eq)]
pub enum Start {
    Well,
    /// The history couldn't be read.
    KeeperFault,
}

/// How this boot began.
pub fn start_of(log: &[Event], boot: u32) -> Start {
    for event in log {
        match boot_of(event) {
            Some((number, Found::Fault)) if number == boot => return Start::KeeperFault,
            _ => {}
        }
    }
    Start::Well
}

/// An install that went well and was stored.
pub fn done(entry: u32) -> Told {
    finished(entry, RowState::Success)
}

/// An install that ended so and was stored.
pub fn finished(entry: u32, state: RowState) -> Told {
    Told::Finished {
        entry,
        state,
        stored: Stored::Yes,
    }
}

/// A request whose tag was taken before.
pub fn kept(entry: u32, state: RowState) -> Told {
    Told::Kept { entry, state }
}
