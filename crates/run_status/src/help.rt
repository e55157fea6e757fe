//! The help for a status.
ghost use Rattle.std.specs.Prelude.{◌≡◌};
ghost use Rattle.run_status.specs.Helps.{help_for};

use crate::meaning::{meaning, part};
use crate::status::Status;
use release_catalogue::Reason;
use std::fmt;

/// The commands with one line each, where the document is described, and an example.
const COMMANDS: &str = "
Commands:
  run                   plays the campaign of a document, and writes the report
  check                 counts a document's sections, or names its first fault
  remotes               counts what each remote has, and what of it is merged
  explain PORT VERSION  tells which requirements hold for the device there
  plan TAG              tells which installs bring each device as far as it can
  update TAG            makes these installs in the document's first boot
  ids TEXT ..           writes the GUID of each text
  make N [--clients C]  plays a generated campaign of N boards and C clients
  report [--max N]      writes a line for each settled install, and each once

The document comes on standard input; fwupdemu-document(5) and docs/FORMATS.md
describe it. `run` and `update` take payloads from the folder payloads/, and
keep their history in the file history.db, which `plan` and `report` read.

Example, in a copy of the folder examples/first-install:
  fwupdemu run < campaign.json";

/// What a terminal is shown behind the line of a status.
#[derive(Clone, Copy, Debug, PartialEq, Eq)]
pub enum Help {
    /// All commands.
    Commands,
    /// What this reason of a document's fault means, and where to look it up.
    Meaning(Reason),
}

/// The help for a status, where there is some: of all others the line says enough.
pub fn help_for(status: &Status) -> Option<Help>
    ensures { result ≡ help_for status.now }
{
    match status {
        Status::Usage => Some(Help::Commands),
        Status::Document { place: _, reason } => Some(Help::Meaning(*reason)),
        Status::Done
        | Status::SourceFault
        | Status::TooLong
        | Status::TooManyClients { .. }
        | Status::Plugins(_)
        | Status::BadHistory { .. }
        | Status::KeeperFault
        | Status::SinkFault
        | Status::NoMemory => None,
    }
}

impl fmt::Display for Help {
    fn fmt<W: fmt::Write>(&self, f: &mut fmt::Formatter<W>) -> fmt::Result {
        match self {
            Help::Commands => f.write_str(COMMANDS),
            Help::Meaning(reason) => {
                let meaning = meaning(*reason);
                let part = part(*reason);
                write!(
                    f,
                    "  {meaning}; look under \"{part}\" in fwupdemu-document(5) or docs/FORMATS.md"
                )
            }
        }
    }
}
