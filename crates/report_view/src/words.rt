//! The words of a line: what stands between its blanks.
ghost use Rattle.std.specs.Prelude.{◌≡◌, ◌≤◌, count_by, length, position};
ghost use Rattle.std.specs.List.{after_first, before_first, position_or_len};
ghost use Rattle.std.specs.Str.{bytes_eq};
ghost use Rattle.report_view.specs.Words.{is_blank, word, is, number, number_of};

use fw_base::{NumberFault, read_decimal};

fn is_blank(b: u8) -> bool
    ensures { result ≡ is_blank b }
{
    b == b' '
}

fn blank_among(text: &[u8]) -> Option<usize>
    ensures { result ≡ position is_blank text.now }
{
    text.iter().position(|b| is_blank(*b))
}

/// The place of the first blank, or behind all bytes where there is none.
fn blank_place(text: &[u8]) -> usize
    ensures place { result ≡ position_or_len is_blank text.now }
    ensures within { result ≤ length text.now }
{
    blank_among(text).unwrap_or(text.len())
}

/// What stands before the first blank.
fn before_blank(text: &[u8]) -> &[u8]
    ensures { result.now ≡ before_first is_blank text.now }
{
    let (front, _) = text.split_at(blank_place(text));
    front
}

/// What stands behind the first blank.
fn after_blank(text: &[u8]) -> &[u8]
    ensures { result.now ≡ after_first is_blank text.now }
{
    let at = blank_place(text);
    if at == text.len() {
        return &[];
    }
    let (_, behind) = text.split_at(at + 1);
    behind
}

/// The word at a place from 0, or nothing where the line has fewer.
pub fn word(line: &[u8], at: usize) -> &[u8]
    ensures { result.now ≡ word at line.now }
{
    let mut rest = line;
    for passed in 0..at {
        rest = after_blank(rest);
    }
    before_blank(rest)
}

/// How many blanks a line has: one less than its words.
pub fn blanks(line: &[u8]) -> usize
    ensures { result ≡ count_by is_blank line.now }
{
    line.iter().filter(|b| is_blank(**b)).count()
}

/// Whether the word at a place is this text.
pub fn is(line: &[u8], at: usize, text: &[u8]) -> bool
    ensures { result ≡ is at text.now line.now }
{
    word(line, at) == text
}

fn number_of(read: Result<u64, NumberFault>) -> Option<u64>
    ensures { result ≡ number_of read }
{
    match read {
        Ok(value) => Some(value),
        Err(_) => None,
    }
}

/// The number that the word at a place writes.
pub fn number(line: &[u8], at: usize) -> Option<u64>
    ensures { result ≡ number at line.now }
{
    number_of(read_decimal(word(line, at)))
}
