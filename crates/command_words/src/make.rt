//! The words of `make`: how many boards, and how many clients.
ghost use Rattle.std.specs.Prelude.{◌≡◌, ◌++◌, ◌≤◌, drop, length, map, position, option_and_then};
ghost use Rattle.std.specs.List.{position_or_len};
ghost use Rattle.command_words.specs.Commands.{clients_by, clients_from, clients_next, clients_of, is_option, make_by, number_within};

use crate::command::Command;
use crate::parts::any_dashed;
use crate::values::sole;
use fw_base::read_decimal;

/// The option that says how many clients there are.
const CLIENTS: &[u8] = b"--clients";

/// The same, with its number behind it.
const JOINED: &[u8] = b"--clients=";

/// The clients, where no option says how many.
const CLIENTS_DEFAULT: u32 = 4;

/// The most clients.
const CLIENTS_MAX: u32 = 16;

/// The most boards.
const BOARDS_MAX: u32 = 256;

/// The boards and the clients of a `make` with these words behind it.
pub fn make(before: &[&[u8]], behind: &[&[u8]]) -> Option<Command>
    ensures { result ≡ option_and_then (make_by (map (λ word. word.now) behind.now)) (clients_of (map (λ word. word.now) before.now)) }
{
    let (front, rest) = before.split_at(option_place(before));
    make_from(front, rest, behind)
}

/// The place of the option, or behind all words where there is none.
fn option_place(words: &[&[u8]]) -> usize
    ensures place { result ≡ position_or_len is_option (map (λ word. word.now) words.now) }
    ensures within { result ≤ length words.now }
{
    option_among(words).unwrap_or(words.len())
}

fn option_among(words: &[&[u8]]) -> Option<usize>
    ensures { result ≡ position (λ word. is_option word.now) words.now }
{
    words.iter().position(|word| is_option(word))
}

fn is_option(word: &[u8]) -> bool
    ensures { result ≡ is_option word.now }
{
    word == CLIENTS || word.starts_with(JOINED)
}

/// The words before the option, and those from it on.
fn make_from(front: &[&[u8]], rest: &[&[u8]], behind: &[&[u8]]) -> Option<Command>
    ensures { result ≡ option_and_then (make_by (map (λ word. word.now) behind.now)) (clients_from (map (λ word. word.now) front.now) (map (λ word. word.now) rest.now)) }
{
    match rest {
        [] => made(CLIENTS_DEFAULT, &[], front, behind),
        [option, more @ ..] => {
            if option.starts_with(JOINED) {
                counted(number_joined(option), front, more, behind)
            } else {
                counted_next(front, more, behind)
            }
        }
    }
}

/// The number behind the option in one word.
fn number_joined(option: &[u8]) -> &[u8]
    requires { 10 ≤ length option.now }
    ensures { result.now ≡ drop 10 option.now }
{
    let (_, number) = option.split_at(JOINED.len());
    number
}

/// The words before the option, and those behind it.
fn counted_next(front: &[&[u8]], rest: &[&[u8]], behind: &[&[u8]]) -> Option<Command>
    ensures { result ≡ option_and_then (make_by (map (λ word. word.now) behind.now)) (clients_next (map (λ word. word.now) front.now) (map (λ word. word.now) rest.now)) }
{
    match rest {
        [] => None,
        [number, more @ ..] => counted(number, front, more, behind),
    }
}

/// The option's number, and the words before the option and behind the number.
fn counted(number: &[u8], front: &[&[u8]], more: &[&[u8]], behind: &[&[u8]]) -> Option<Command>
    ensures { result ≡ option_and_then (make_by (map (λ word. word.now) behind.now)) (clients_by (map (λ word. word.now) front.now) number.now (map (λ word. word.now) more.now)) }
{
    made(number_within(CLIENTS_MAX, number)?, front, more, behind)
}

/// So many clients, and the words that are neither the option nor its number.
fn made(clients: u32, front: &[&[u8]], more: &[&[u8]], behind: &[&[u8]]) -> Option<Command>
    ensures { result ≡ make_by (map (λ word. word.now) behind.now) (record { count = clients; others = map (λ word. word.now) front.now ++ map (λ word. word.now) more.now }) }
{
    if any_dashed(front) || any_dashed(more) {
        return None;
    }
    let boards = number_within(BOARDS_MAX, sole(front, more, behind)?)?;
    Some(Command::Make { boards, clients })
}

/// A number from 1 to a limit.
pub fn number_within(most: u32, word: &[u8]) -> Option<u32>
    ensures { result ≡ number_within 1 most word.now }
{
    let number = read_decimal(word).ok()?;
    if 1 <= number && number <= u64::from(most) {
        Some(number as u32)
    } else {
        None
    }
}
