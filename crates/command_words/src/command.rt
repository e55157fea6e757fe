//! The commands.
use crate::text::Text;
use fw_base::{Listed, Name};
use std::alloc::AllocError;
use thiserror::Error;
use version_formats::Version;

/// What the program is told to do.
#[derive(Debug, Drop)]
pub enum Command {
    /// Plays the campaign of a document, and reports it.
    Run,
    /// Reads a document, and says what it has.
    Check,
    /// Reads a document, and says what its remotes have and how much of it is merged.
    Remotes,
    /// Says whether an install of this version at this port would be accepted, and why.
    Explain { port: Name, version: Version },
    /// Reads a document, and says which installs bring each device as far as it can come. Their tags begin
    /// with this one, which has at most 56 bytes.
    Plan { tag: Name },
    /// Plans these installs, and plays them in the first boot of the document.
    Update { tag: Name },
    /// Says the GUID of each text, of which there are 1 to 64.
    Ids { texts: Listed<Text> },
    /// Plays a campaign that is made for 1 to 256 boards and 1 to 16 clients.
    Make { boards: u32, clients: u32 },
    /// Writes a report of each judged row that wasn't reported yet, 1 to 65,536 of them.
    Report { max: u32 },
}

/// Why words are no command.
#[derive(Clone, Copy, Debug, Error, PartialEq, Eq)]
pub enum WordsFault {
    /// They are none of the forms.
    #[error("the words are no command")]
    Usage,
    /// There was no memory for the texts.
    #[error("no memory")]
    NoMemory,
}

impl From<AllocError> for WordsFault {
    ghost use Rattle.std.specs.Prelude.{◌≡◌};
    ghost use Rattle.command_words.specs.declared.command.WordsFault.TheVariants.{NoMemory};

    ghost from_gives = { λ _ e. e ≡ NoMemory };

    fn from(_refused: AllocError) -> WordsFault {
        WordsFault::NoMemory
    }
}
