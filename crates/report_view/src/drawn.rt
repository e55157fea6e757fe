//! What was drawn, and why a page isn't written.
use fw_base::NoMemory;
use outer_traits::{Failed, ReadStop};
use std::alloc::AllocError;
use std::fmt;
use thiserror::Error;

/// Why no page was written, or only a front of it.
#[derive(Clone, Copy, Debug, Error, PartialEq, Eq)]
pub enum ViewStop {
    #[error("reading failed")]
    SourceFault,
    #[error("the report is longer than 1073741824 bytes")]
    TooLong,
    #[error("writing failed")]
    SinkFault,
    #[error("no memory")]
    NoMemory,
}

impl From<ReadStop> for ViewStop {
    ghost use Rattle.std.specs.Prelude.{◌≡◌};
    ghost use Rattle.report_view.specs.Stops.{stop_of};

    ghost from_gives = { λ e stop. stop ≡ stop_of e };

    fn from(stop: ReadStop) -> ViewStop {
        match stop {
            ReadStop::SourceFault => ViewStop::SourceFault,
            ReadStop::TooLong => ViewStop::TooLong,
            ReadStop::NoMemory => ViewStop::NoMemory,
        }
    }
}

impl From<NoMemory> for ViewStop {
    ghost use Rattle.std.specs.Prelude.{◌≡◌};
    ghost use Rattle.report_view.specs.declared.drawn.ViewStop.TheVariants.{NoMemory};

    ghost from_gives = { λ _ stop. stop ≡ NoMemory };

    fn from(_refused: NoMemory) -> ViewStop {
        ViewStop::NoMemory
    }
}

impl From<AllocError> for ViewStop {
    ghost use Rattle.std.specs.Prelude.{◌≡◌};
    ghost use Rattle.report_view.specs.declared.drawn.ViewStop.TheVariants.{NoMemory};

    ghost from_gives = { λ _ stop. stop ≡ NoMemory };

    fn from(_refused: AllocError) -> ViewStop {
        ViewStop::NoMemory
    }
}

impl From<Failed> for ViewStop {
    ghost use Rattle.std.specs.Prelude.{◌≡◌};
    ghost use Rattle.report_view.specs.declared.drawn.ViewStop.TheVariants.{SinkFault};

    ghost from_gives = { λ _ stop. stop ≡ SinkFault };

    fn from(_failed: Failed) -> ViewStop {
        ViewStop::SinkFault
    }
}

/// What a page shows: how many events and how many lines that are none of a report, the number that the last line
/// tells, and whether the first line is a report's.
#[derive(Clone, Copy, Debug, PartialEq, Eq)]
pub struct Drawn {
    pub events: u64,
    pub unread: u64,
    pub told: Option<u64>,
    pub titled: bool,
    /// Whether there is more behind the last newline.
    pub trailing: bool,
}

/// How the report that was drawn is.
#[derive(Clone, Copy, Debug, PartialEq, Eq)]
pub enum Finding {
    /// All of it was read, and it has as many events as it says.
    Whole,
    /// It has no last line, so it is the front of a report; each of its lines was read.
    CutOff { events: u64 },
    /// Lines of it are none of a report.
    Unread { lines: u64 },
    /// Its first line isn't a report's.
    Untitled,
    /// It goes on behind its last line, without a newline.
    Trailing,
    /// It says that it has another number of events.
    Miscounted { told: u64, events: u64 },
}

impl Drawn {
    ghost use Rattle.std.specs.Prelude.{◌≡◌, Some};
    ghost use Rattle.report_view.specs.Pages.{finding_of, finding_told};

    /// How the report is: lines that are none of a report are told before all else.
    pub fn finding(self) -> Finding
        ensures { result ≡ finding_of self }
    {
        if self.unread > 0 {
            return Finding::Unread { lines: self.unread };
        }
        if !self.titled {
            return Finding::Untitled;
        }
        match self.told {
            None => Finding::CutOff {
                events: self.events,
            },
            Some(told) => self.counted(told),
        }
    }

    fn counted(self, told: u64) -> Finding
        ensures { result ≡ finding_told (Some told) self }
    {
        if self.trailing {
            return Finding::Trailing;
        }
        if told == self.events {
            Finding::Whole
        } else {
            Finding::Miscounted {
                told,
                events: self.events,
            }
        }
    }
}

impl fmt::Display for Finding {
    fn fmt<W: fmt::Write>(&self, f: &mut fmt::Formatter<W>) -> fmt::Result {
        match self {
            Finding::Whole => write!(f, "the report is whole"),
            Finding::CutOff { events } => {
                write!(f, "the report has no last line; events drawn: {events}")
            }
            Finding::Unread { lines } => write!(f, "lines that are none of a report: {lines}"),
            Finding::Untitled => write!(f, "the first line is not fwupdemu report 1"),
            Finding::Trailing => write!(f, "there is more behind the last line"),
            Finding::Miscounted { told, events } => {
                write!(f, "the report counts {told}; events drawn: {events}")
            }
        }
    }
}
