//! How a run of the program ended.
ghost use Rattle.std.specs.Prelude.{◌≡◌};
ghost use Rattle.run_status.specs.Statuses.{exit_code};

use fw_base::Name;
use plugin_order::OrderFault;
use release_catalogue::{Place, Reason};
use std::fmt;

/// How a run of the program ended. Each has an exit status of its own kind, and a text that says what
/// went wrong.
#[derive(Debug, Drop)]
pub enum Status {
    /// The input was read to its end, the output was written whole, and nothing failed.
    Done,
    /// The words of the command line are no command.
    Usage,
    /// The input couldn't be read.
    SourceFault,
    /// The input is longer than 16,777,216 bytes.
    TooLong,
    /// The input is no document: what is wrong with it first, and where.
    Document { place: Place, reason: Reason },
    /// There are more clients than shelves.
    TooManyClients { asked: u32, shelves: u32 },
    /// The plugins can't be arranged.
    Plugins(OrderFault),
    /// The row of this entry makes the history no valid one.
    BadHistory { entry: u32 },
    /// The history couldn't be read or written.
    KeeperFault,
    /// The output couldn't be written.
    SinkFault,
    /// There was no memory.
    NoMemory,
}

impl Status {
    /// The exit status of the program.
    pub fn exit_code(&self) -> u8
        ensures { result ≡ exit_code self.now }
    {
        match self {
            Status::Done => 0,
            Status::Usage => 2,
            Status::TooLong | Status::Document { .. } | Status::TooManyClients { .. } => 3,
            Status::SourceFault => 4,
            Status::SinkFault => 5,
            Status::NoMemory => 6,
            Status::KeeperFault => 7,
            Status::Plugins(_) => 8,
            Status::BadHistory { .. } => 9,
        }
    }
}

impl fmt::Display for Status {
    fn fmt<W: fmt::Write>(&self, f: &mut fmt::Formatter<W>) -> fmt::Result {
        match self {
            Status::Done => write!(f, "done"),
            Status::Usage => write!(f, "usage"),
            Status::SourceFault => write!(f, "reading failed"),
            Status::TooLong => write!(f, "document is longer than 16777216 bytes"),
            Status::Document { place, reason } => write!(f, "document: {place}: {reason}"),
            Status::TooManyClients { asked, shelves } => {
                write!(f, "clients {asked} shelves {shelves}")
            }
            Status::Plugins(fault) => write_plugins(f, fault),
            Status::BadHistory { entry } => write!(f, "history row {entry}"),
            Status::KeeperFault => write!(f, "history failed"),
            Status::SinkFault => write!(f, "writing failed"),
            Status::NoMemory => write!(f, "no memory"),
        }
    }
}

/// Why plugins can't be arranged. Want of memory is none of these faults: it is a status of its own.
fn write_plugins<W: fmt::Write>(f: &mut fmt::Formatter<W>, fault: &OrderFault) -> fmt::Result {
    match fault {
        OrderFault::DuplicateName { name } => {
            f.write_str("plugins: duplicate")?;
            write_name(f, name)
        }
        OrderFault::Cycle { names } => {
            f.write_str("plugins: cycle")?;
            write_names(f, names.items())
        }
        OrderFault::NoMemory => f.write_str("no memory"),
    }
}

fn write_names<W: fmt::Write>(f: &mut fmt::Formatter<W>, names: &[Name]) -> fmt::Result {
    for name in names {
        write_name(f, name)?;
    }
    Ok(())
}

/// Writes a blank and a name, which is ASCII.
fn write_name<W: fmt::Write>(f: &mut fmt::Formatter<W>, name: &Name) -> fmt::Result {
    f.write_str(" ")?;
    match std::str::from_utf8(name.bytes()) {
        Ok(text) => f.write_str(text),
        Err(_) => Err(fmt::Error),
    }
}
