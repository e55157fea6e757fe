//! Classes: sets of bytes between brackets.
ghost use Rattle.std.specs.Prelude.{◌≡◌, ◌⊎◌, ◌==◌, ◌≤◌, MatchResult, Ok, Err, List, not, length};
ghost use Rattle.std.specs.List.{before_first, list_any, position_or_len};
ghost use Rattle.fw_patterns.specs.Reading.{Gives, begins_with, class_at, class_of, class_end, closes, in_front, last_ranges, member_step, members, range};
ghost use Rattle.fw_patterns.specs.declared.fault.PatternFault.TheVariants.{NoMemory};

use crate::signs::Sign;
use crate::{Atom, ByteRange, PatternFault};
use fw_base::Listed;
use std::alloc::Global;

/// What ends the members of a class.
#[derive(Clone, Copy, Debug, PartialEq, Eq)]
pub enum ClassEnd {
    /// A `]`.
    Closed,
    /// The pattern's end.
    PatternEnd,
    /// A fault that the signs of the pattern have there.
    Fault(PatternFault),
}

/// What stands directly in front of a member of a class. A member and a `-` wait for what is behind
/// them.
#[derive(Clone, Copy, Debug, PartialEq, Eq)]
pub enum Front {
    /// Nothing that counts.
    Nothing,
    /// A member, by its place and byte.
    Member(usize, u8),
    /// A member, by its place and byte, and a `-`.
    Dash(usize, u8),
    /// A range.
    Ranged,
    /// A range, and a `-` by its place.
    LastDash(usize),
}

/// What one sign more of a class is.
#[derive(Clone, Copy, Debug, PartialEq, Eq)]
pub enum MemberStep {
    /// A part of a range, which then stands in front.
    Wait(Front),
    /// The end of a range, and what then stands in front.
    Add(ByteRange, Front),
    /// A sign that has no meaning there.
    NoMember(PatternFault),
}

/// The class behind a `[` at the place `bracket`, where `end` is the fault behind all signs.
pub fn class_at(
    alloc: Global,
    bracket: usize,
    end: Option<PatternFault>,
    behind: &[Sign],
) -> Result<Atom, PatternFault>
    ensures { Gives (λ atom. atom) result (class_at bracket end behind.now) }
{
    if begins_with(behind, b'^') {
        class_of(alloc, bracket, true, end, &behind[1..])
    } else {
        class_of(alloc, bracket, false, end, behind)
    }
}

/// The class behind `[` and a `^` where there is one.
fn class_of(
    alloc: Global,
    bracket: usize,
    negated: bool,
    end: Option<PatternFault>,
    behind: &[Sign],
) -> Result<Atom, PatternFault>
    ensures { Gives (λ atom. atom) result (class_of bracket negated end behind.now) }
{
    if begins_with(behind, b']') {
        return Err(PatternFault::OutOfProfile { at: behind[0].at });
    }
    let content = &behind[..content_len(behind)];
    let end = class_end(any_closes(behind), end);
    let ranges = members(alloc, bracket, end, content)?;
    Ok(Atom::Class {
        negated,
        ranges: Listed::of(ranges),
    })
}

/// Whether the first sign is this byte without a backslash.
fn begins_with(signs: &[Sign], byte: u8) -> bool
    ensures { result ≡ begins_with byte signs.now }
{
    match signs.first() {
        Some(first) => first.is_plain(byte),
        None => false,
    }
}

/// How many signs stand in front of the first `]`.
fn content_len(signs: &[Sign]) -> usize
    ensures value { result ≡ position_or_len closes signs.now }
    ensures within { result ≤ length signs.now }
{
    signs.iter().take_while(|sign| !sign.is_plain(b']')).count()
}

fn any_closes(signs: &[Sign]) -> bool
    ensures { result ≡ list_any closes signs.now }
{
    signs.iter().any(|sign| sign.is_plain(b']'))
}

/// What ends a class's members, where `end` is the fault behind all signs.
fn class_end(closed: bool, end: Option<PatternFault>) -> ClassEnd
    ensures { result ≡ class_end closed end }
{
    if closed {
        return ClassEnd::Closed;
    }
    match end {
        None => ClassEnd::PatternEnd,
        Some(fault) => ClassEnd::Fault(fault),
    }
}

/// The ranges of a class's members, where `bracket` is the place of its `[`.
fn members(
    alloc: Global,
    bracket: usize,
    end: ClassEnd,
    signs: &[Sign],
) -> Result<Vec<ByteRange>, PatternFault>
    ensures { Gives (λ ranges. ranges.items) result (members bracket end Front.Nothing signs.now) }
{
    let mut ranges = Vec::new(alloc);
    let mut front = Front::Nothing;
    for sign in signs {
        match member_step(front, *sign) {
            MemberStep::Wait(next) => front = next,
            MemberStep::Add(range, next) => {
                ranges.push(range)?;
                front = next;
            }
            MemberStep::NoMember(fault) => return Err(fault),
        }
    }
    push_last(&mut ranges, bracket, end, front)?;
    Ok(ranges)
}

fn member_step(front: Front, sign: Sign) -> MemberStep
    ensures { result ≡ member_step front sign }
{
    match front {
        Front::LastDash(at) => MemberStep::NoMember(PatternFault::OutOfProfile { at }),
        _ if sign.is_plain(b'[') => MemberStep::NoMember(PatternFault::OutOfProfile {
            at: sign.at,
        }),
        Front::Member(at, low) if sign.is_plain(b'-') => MemberStep::Wait(Front::Dash(at, low)),
        Front::Ranged if sign.is_plain(b'-') => MemberStep::Wait(Front::LastDash(sign.at)),
        Front::Nothing | Front::Ranged => MemberStep::Wait(Front::Member(sign.at, sign.byte)),
        Front::Member(_, low) => MemberStep::Add(single(low), Front::Member(sign.at, sign.byte)),
        Front::Dash(at, low) if sign.byte < low => MemberStep::NoMember(PatternFault::BadRange {
            at,
        }),
        Front::Dash(_, low) => MemberStep::Add(range(low, sign.byte), Front::Ranged),
    }
}

fn range(low: u8, high: u8) -> ByteRange
    ensures { result ≡ range low high }
{
    ByteRange { low, high }
}

fn single(byte: u8) -> ByteRange
    ensures { result ≡ range byte byte }
{
    range(byte, byte)
}

/// Appends the ranges that wait in front of a class's end.
fn push_last(
    ranges: &mut Vec<ByteRange>,
    bracket: usize,
    end: ClassEnd,
    front: Front,
) -> Result<(), PatternFault>
    ensures { MatchResult result
        (λ _. in_front ranges.old.items (last_ranges bracket end front) ≡ Ok ranges.new.items)
        (λ fault. (fault ≡ NoMemory) ⊎ (last_ranges bracket end front ≡ Err fault)) }
{
    check_end(bracket, end, front)?;
    match front {
        Front::Nothing | Front::Ranged => {}
        Front::Member(_, low) => ranges.push(single(low))?,
        Front::Dash(_, low) => {
            ranges.push(single(low))?;
            ranges.push(single(b'-'))?;
        }
        Front::LastDash(_) => ranges.push(single(b'-'))?,
    }
    Ok(())
}

/// Whether a class may end there.
fn check_end(bracket: usize, end: ClassEnd, front: Front) -> Result<(), PatternFault>
    ensures { MatchResult result (λ _. end ≡ ClassEnd.Closed) (λ fault. last_ranges bracket end front ≡ Err fault) }
{
    match (end, front) {
        (ClassEnd::Closed, _) => Ok(()),
        (ClassEnd::PatternEnd, _) => Err(PatternFault::Unclosed { at: bracket }),
        (ClassEnd::Fault(_), Front::LastDash(at)) => Err(PatternFault::OutOfProfile { at }),
        (ClassEnd::Fault(fault), _) => Err(fault),
    }
}
