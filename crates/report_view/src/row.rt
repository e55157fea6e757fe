//! What a page knows of a request and of its entry, and what an event changes of it.
ghost use Rattle.std.specs.Prelude.{◌≡◌};
ghost use Rattle.report_view.specs.Rows.{answered, claimed, cut_off, write_cut_off, finished, is_entry, judged, resumed, standing_of, step_ended, step_started};

use crate::line::{Answer, Resumed, State, Step};

/// How a request or an entry stands.
#[derive(Clone, Copy, Debug, PartialEq, Eq)]
pub enum Standing {
    /// Blocks are held for it, and it has no entry.
    Held,
    /// Its hold was given back.
    GivenBack,
    /// It was refused.
    Refused,
    /// Its tag had an entry already.
    Kept,
    Pending,
    Begun,
    Success,
    Failed,
    NeedsReboot,
}

/// A request, and the entry that was made for it; or an entry whose request isn't in the report.
#[derive(Clone, Copy, Debug, PartialEq, Eq)]
pub struct Row {
    /// The place of the line that told it first.
    pub at: usize,
    /// Whether that line names a tag, a device and a version.
    pub named: bool,
    /// The place of the line that told its standing last.
    pub said: usize,
    pub client: u64,
    pub entry: Option<u64>,
    /// The events at which it was told first, was begun, its write began and ended, and it was closed.
    pub opened: u64,
    pub claimed: Option<u64>,
    pub began: Option<u64>,
    pub ended: Option<u64>,
    pub closed: Option<u64>,
    /// Whether its write was cut off, or ended with a fault.
    pub torn: bool,
    pub standing: Standing,
}

fn standing_of(state: State) -> Standing
    ensures { result ≡ standing_of state }
{
    match state {
        State::Pending => Standing::Pending,
        State::Begun => Standing::Begun,
        State::Success => Standing::Success,
        State::Failed => Standing::Failed,
        State::NeedsReboot => Standing::NeedsReboot,
    }
}

/// Whether this is the entry of a row.
pub fn is_entry(entry: u64, own: Option<u64>) -> bool
    ensures { result ≡ is_entry entry own }
{
    match own {
        Some(own) => own == entry,
        None => false,
    }
}

/// The row of a request that was answered; an entry begins with this standing.
pub fn answered(begins: Standing, answer: Answer, row: Row) -> Row
    ensures { result ≡ answered begins answer row }
{
    match answer {
        Answer::Hold => Row {
            standing: Standing::Held,
            ..row
        },
        Answer::Entry(entry) => Row {
            entry: Some(entry),
            standing: begins,
            ..row
        },
        Answer::Kept => Row {
            standing: Standing::Kept,
            ..row
        },
        Answer::Refused => Row {
            standing: Standing::Refused,
            ..row
        },
    }
}

/// The row whose hold was claimed at an event.
pub fn claimed(number: u64, answer: Answer, row: Row) -> Row
    ensures { result ≡ claimed number answer row }
{
    let begun = Row {
        claimed: Some(number),
        ..row
    };
    answered(Standing::Begun, answer, begun)
}

/// The row of an entry with which the daemon went on at an event.
pub fn resumed(number: u64, told: Resumed, row: Row) -> Row
    ensures { result ≡ resumed number told row }
{
    match told {
        Resumed::Begun => Row {
            claimed: Some(number),
            standing: Standing::Begun,
            ..row
        },
        Resumed::Failed => Row {
            closed: Some(number),
            standing: Standing::Failed,
            ..row
        },
        Resumed::Doubted => row,
    }
}

/// The row of an entry whose step began at an event.
pub fn step_started(number: u64, step: Step, row: Row) -> Row
    ensures { result ≡ step_started number step row }
{
    match step {
        Step::Write => Row {
            began: Some(number),
            ..row
        },
        _ => row,
    }
}

/// The row of an entry whose step ended at an event.
pub fn step_ended(number: u64, step: Step, good: bool, row: Row) -> Row
    ensures { result ≡ step_ended number step good row }
{
    match step {
        Step::Write => Row {
            ended: Some(number),
            torn: !good,
            ..row
        },
        _ => row,
    }
}

/// The row of an entry that ended at an event.
pub fn finished(number: u64, state: State, row: Row) -> Row
    ensures { result ≡ finished number state row }
{
    Row {
        closed: Some(number),
        standing: standing_of(state),
        ..row
    }
}

/// The row of an entry that was judged.
pub fn judged(state: State, row: Row) -> Row
    ensures { result ≡ judged state row }
{
    Row {
        standing: standing_of(state),
        ..row
    }
}

fn write_cut_off(number: u64, row: Row) -> Row
    ensures { result ≡ write_cut_off number row }
{
    match row.began {
        None => row,
        Some(_) => match row.ended {
            Some(_) => row,
            None => Row {
                ended: Some(number),
                torn: true,
                ..row
            },
        },
    }
}

/// The row as the power was cut at an event: its write and it itself end there, where they ran.
pub fn cut_off(number: u64, row: Row) -> Row
    ensures { result ≡ cut_off number row }
{
    match row.standing {
        Standing::Begun => match row.closed {
            Some(_) => row,
            None => write_cut_off(
                number,
                Row {
                    closed: Some(number),
                    ..row
                },
            ),
        },
        _ => row,
    }
}
