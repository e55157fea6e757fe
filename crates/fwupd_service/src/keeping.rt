//! Which keepers the words are about.
ghost use Rattle.std.specs.Prelude.{◌≡◌, map, IfOk, Some};
ghost use Rattle.command_words.specs.Commands.{command_of};
ghost use Rattle.fwupd_service.specs.Keepers.{kept_by};

use command_words::{Command, WordsFault, read_words};
use fw_base::NoMemory;
use std::alloc::Global;

/// Which keepers a command is about. Each other it leaves as it comes.
#[derive(Clone, Copy, Debug, PartialEq, Eq)]
pub enum Kept {
    /// None of them.
    Nothing,
    /// The history.
    History,
    /// The history and the marks.
    HistoryAndMarks,
}

/// Which keepers the words are about.
pub fn kept_by(alloc: Global, words: &[&[u8]]) -> Result<Kept, NoMemory>
    ensures { IfOk result (λ kept. kept ≡ kept_by (command_of (map (λ word. word.now) words.now))) }
{
    match read_words(alloc, words) {
        Ok(command) => Ok(kept_of(&command)),
        Err(WordsFault::Usage) => Ok(Kept::Nothing),
        Err(WordsFault::NoMemory) => Err(NoMemory),
    }
}

fn kept_of(command: &Command) -> Kept
    ensures { result ≡ kept_by (Some command.now) }
{
    match command {
        Command::Run | Command::Plan { .. } | Command::Update { .. } => Kept::History,
        Command::Report { .. } => Kept::HistoryAndMarks,
        Command::Check
        | Command::Remotes
        | Command::Explain { .. }
        | Command::Ids { .. }
        | Command::Make { .. } => Kept::Nothing,
    }
}
