//! What a line of a quirk file says by itself.
ghost use Rattle.std.specs.Prelude.{◌≡◌, ◌==◌, ◌||◌, not, IfOk};
ghost use Rattle.std.specs.List.{list_all};
ghost use Rattle.std.specs.Option.{option_copied};
ghost use Rattle.quirk_files.specs.Files.{is_passed_over, is_group_line, is_group_name, group_name, group_begun, equals_sign, form_fault, quirk_of, quirk_given, without_return};

use crate::fault::QuirkFault;
use crate::key::Key;
use crate::quirk::Quirk;
use crate::texts::trimmed;
use fw_base::{Listed, NoMemory};
use guid_ids::{Guid, guid_of};
use std::alloc::Global;

/// The most bytes of a group's name.
pub const GROUP_NAME_MAX: usize = 255;

/// The line without a carriage return at its end.
pub fn without_return(line: &[u8]) -> &[u8]
    ensures { result.now ≡ without_return line.now }
{
    if !line.is_empty() && line[line.len() - 1] == b'\r' {
        &line[..line.len() - 1]
    } else {
        line
    }
}

/// What is wrong with a line, where a group stands before it or not.
pub fn form_fault(in_group: bool, number: u32, line: &[u8]) -> Option<QuirkFault>
    ensures { result ≡ form_fault in_group number line.now }
{
    if is_passed_over(line) {
        return None;
    }
    if is_group_line(line) {
        return match group_name(line) {
            Some(_) => None,
            None => Some(QuirkFault::BadGroup { line: number }),
        };
    }
    if !in_group {
        return Some(QuirkFault::NoGroup { line: number });
    }
    match equals_sign(line) {
        Some(_) => None,
        None => Some(QuirkFault::NoEquals { line: number }),
    }
}

/// The group that the line begins, by its GUID.
pub fn group_begun(line: &[u8]) -> Option<Guid>
    ensures { result ≡ group_begun line.now }
{
    if !is_group_line(line) {
        return None;
    }
    match group_name(line) {
        Some(name) => Some(guid_of(name)),
        None => None,
    }
}

/// The quirk that a line of the group gives.
pub fn quirk_given(
    alloc: Global,
    group: Option<Guid>,
    line: &[u8],
) -> Result<Option<Quirk>, NoMemory>
    ensures { IfOk result (λ given. given ≡ quirk_given group line.now) }
{
    match group {
        None => Ok(None),
        Some(group) => quirk_in_group(alloc, group, line),
    }
}

fn quirk_in_group(alloc: Global, group: Guid, line: &[u8]) -> Result<Option<Quirk>, NoMemory>
    ensures { IfOk result (λ given. given ≡ quirk_given (Some group) line.now) }
{
    if is_passed_over(line) || is_group_line(line) {
        return Ok(None);
    }
    match equals_sign(line) {
        Some(at) => quirk_split(alloc, group, &line[..at], &line[at + 1..]),
        None => Ok(None),
    }
}

fn quirk_split(
    alloc: Global,
    group: Guid,
    word: &[u8],
    value: &[u8],
) -> Result<Option<Quirk>, NoMemory>
    ensures { IfOk result (λ given. given ≡ quirk_of group word.now value.now) }
{
    match Key::read(trimmed(word)) {
        Some(key) => {
            let value = Listed::of(Vec::from_slice(alloc, trimmed(value))?);
            Ok(Some(Quirk { group, key, value }))
        }
        None => Ok(None),
    }
}

fn is_passed_over(line: &[u8]) -> bool
    ensures { result ≡ is_passed_over line.now }
{
    line.is_empty() || line[0] == b'#'
}

fn is_group_line(line: &[u8]) -> bool
    ensures { result ≡ is_group_line line.now }
{
    !line.is_empty() && line[0] == b'['
}

fn group_name(line: &[u8]) -> Option<&[u8]>
    ensures { option_copied result ≡ group_name line.now }
{
    if line.len() < 2 || line[line.len() - 1] != b']' {
        return None;
    }
    let name = &line[1..line.len() - 1];
    if is_group_name(name) {
        Some(name)
    } else {
        None
    }
}

fn is_group_name(name: &[u8]) -> bool
    ensures { result ≡ is_group_name name.now }
{
    1 <= name.len() && name.len() <= GROUP_NAME_MAX && has_no_bracket(name)
}

fn has_no_bracket(name: &[u8]) -> bool
    ensures { result ≡ list_all (λ b. not ((b == 91) || (b == 93))) name.now }
{
    name.iter().all(|b| !(*b == b'[' || *b == b']'))
}

fn equals_sign(line: &[u8]) -> Option<usize>
    ensures value { result ≡ equals_sign line.now }
{
    line.iter().position(|b| *b == b'=')
}
