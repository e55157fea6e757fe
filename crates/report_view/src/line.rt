//! What a line of a report says, as far as the page needs it.

/// A step of an update.
#[derive(Clone, Copy, Debug, PartialEq, Eq)]
pub enum Step {
    Prepare,
    Detach,
    Write,
    Attach,
    Reload,
    Cleanup,
}

/// The state of an entry, as a finish or a judgement tells it.
#[derive(Clone, Copy, Debug, PartialEq, Eq)]
pub enum State {
    Pending,
    Begun,
    Success,
    Failed,
    NeedsReboot,
}

/// What a request was answered.
#[derive(Clone, Copy, Debug, PartialEq, Eq)]
pub enum Answer {
    /// Blocks are held for it.
    Hold,
    /// It is this entry.
    Entry(u64),
    /// Its tag has an entry already.
    Kept,
    /// It was refused.
    Refused,
}

/// What became of an entry that the daemon goes on with.
#[derive(Clone, Copy, Debug, PartialEq, Eq)]
pub enum Resumed {
    Begun,
    /// It failed by a refusal.
    Failed,
    /// The change couldn't be stored, so its row is in doubt.
    Doubted,
}

/// What happened at an event.
#[derive(Clone, Copy, Debug, PartialEq, Eq)]
pub enum Kind {
    Boot {
        number: u64,
    },
    Cut,
    Ask {
        client: u64,
        answer: Answer,
    },
    /// The daemon asks for what was put off.
    Recall {
        entry: u64,
        answer: Answer,
    },
    Claim {
        client: u64,
        answer: Answer,
    },
    Schedule {
        client: u64,
        answer: Answer,
    },
    Resume {
        client: u64,
        entry: u64,
        resumed: Resumed,
    },
    Start {
        entry: u64,
        step: Step,
    },
    End {
        entry: u64,
        step: Step,
        good: bool,
    },
    Finish {
        entry: u64,
        state: State,
    },
    Judge {
        entry: u64,
        state: State,
    },
    Plug {
        client: u64,
        done: bool,
    },
    Unplug {
        client: u64,
        done: bool,
    },
    /// A hold was given back, by its tag, or what an entry held.
    GaveBack {
        client: u64,
        tagged: bool,
    },
    Question {
        client: u64,
    },
}

/// What a line is.
#[derive(Clone, Copy, Debug, PartialEq, Eq)]
pub enum Line {
    /// The first line of a report.
    First,
    /// The last line, with the number of events.
    Last(u64),
    /// A board as it stands at a boot. It belongs to the line above it.
    Board,
    /// Any other line that belongs to the line above it.
    Detail,
    /// An event.
    Event(Kind),
    /// None of these.
    Unread,
}
