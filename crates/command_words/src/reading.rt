//! The command that the words are.
ghost use Rattle.std.specs.Prelude.{◌≡◌, ◌++◌, map};
ghost use Rattle.command_words.specs.Commands.{Reads, by_values, command_by, command_of};

use crate::command::{Command, WordsFault};
use crate::make::make;
use crate::parts::{any_dashed, part};
use crate::report::report;
use crate::values::{alone, explain, ids, plan, update};
use std::alloc::Global;

/// The command that the words behind the program's name are.
///
/// The first word names it. `--` once ends the options, and the words behind it are values; before it
/// no value begins with `-`. The answer is `Usage` exactly where the words are none of the forms.
pub fn read_words(alloc: Global, words: &[&[u8]]) -> Result<Command, WordsFault>
    ensures { Reads (command_of (map (λ word. word.now) words.now)) result }
{
    match words {
        [] => Err(WordsFault::Usage),
        [name, rest @ ..] => {
            let parts = part(rest);
            command(alloc, name, parts.before, parts.behind)
        }
    }
}

/// The command with this name, and these words before and behind `--`.
fn command(
    alloc: Global,
    name: &[u8],
    before: &[&[u8]],
    behind: &[&[u8]],
) -> Result<Command, WordsFault>
    ensures { Reads (command_by name.now (map (λ word. word.now) before.now) (map (λ word. word.now) behind.now)) result }
{
    if name == b"make".as_slice() {
        return make(before, behind).ok_or(WordsFault::Usage);
    }
    if name == b"report".as_slice() {
        return report(before, behind).ok_or(WordsFault::Usage);
    }
    if any_dashed(before) {
        return Err(WordsFault::Usage);
    }
    if name == b"ids".as_slice() {
        return ids(alloc, before, behind);
    }
    by_values(name, before, behind).ok_or(WordsFault::Usage)
}

/// A command with these values, that isn't `ids`.
fn by_values(name: &[u8], before: &[&[u8]], behind: &[&[u8]]) -> Option<Command>
    ensures { result ≡ by_values name.now (map (λ word. word.now) before.now ++ map (λ word. word.now) behind.now) }
{
    if name == b"run".as_slice() {
        return alone(Command::Run, before, behind);
    }
    if name == b"check".as_slice() {
        return alone(Command::Check, before, behind);
    }
    if name == b"remotes".as_slice() {
        return alone(Command::Remotes, before, behind);
    }
    if name == b"explain".as_slice() {
        return explain(before, behind);
    }
    if name == b"plan".as_slice() {
        return plan(before, behind);
    }
    if name == b"update".as_slice() {
        return update(before, behind);
    }
    None
}
