//! The words of `report`: how many lines at most.
ghost use Rattle.std.specs.Prelude.{◌≡◌, ◌∷◌, ◌&&◌, [], codes, if◌then◌else◌, map, None};
ghost use Rattle.std.specs.Str.{bytes_eq};
ghost use Rattle.command_words.specs.Commands.{max_of, number_within, report_of};

use crate::command::Command;
use crate::make::number_within;
use crate::values::is_none;

/// The option that says how many lines there are at most.
const MAX: &[u8] = b"--max";

/// The same, with its number behind it.
const JOINED: &[u8] = b"--max=";

/// The most lines, also where no option says how many.
const LINES_MAX: u32 = 65536;

/// A `report` with these words behind it.
pub fn report(before: &[&[u8]], behind: &[&[u8]]) -> Option<Command>
    ensures { result ≡ report_of (map (λ word. word.now) before.now) (map (λ word. word.now) behind.now) }
{
    match behind {
        [] => {
            let max = max_of(before)?;
            Some(Command::Report { max })
        }
        [_, ..] => None,
    }
}

fn max_of(words: &[&[u8]]) -> Option<u32>
    ensures { result ≡ max_of (map (λ word. word.now) words.now) }
{
    match words {
        [] => Some(LINES_MAX),
        [option, rest @ ..] => max_by(option, rest),
    }
}

/// The option, and the words behind it.
fn max_by(option: &[u8], rest: &[&[u8]]) -> Option<u32>
    ensures { result ≡ max_of (option.now ∷ map (λ word. word.now) rest.now) }
{
    match rest {
        [] => joined_max(option),
        [number, more @ ..] => next_max(option, number, is_none(&[], more)),
    }
}

/// The option and its number, and whether no word is behind them.
fn next_max(option: &[u8], number: &[u8], are_all: bool) -> Option<u32>
    ensures { result ≡ (if bytes_eq option.now (codes "--max") && are_all then number_within 1 65536 number.now else None) }
{
    if option == MAX && are_all {
        number_within(LINES_MAX, number)
    } else {
        None
    }
}

/// The option with its number in one word.
fn joined_max(option: &[u8]) -> Option<u32>
    ensures { result ≡ max_of (option.now ∷ []) }
{
    if !option.starts_with(JOINED) {
        return None;
    }
    let (_, number) = option.split_at(JOINED.len());
    number_within(LINES_MAX, number)
}
