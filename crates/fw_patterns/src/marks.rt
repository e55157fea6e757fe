//! Marks: what the signs of a regular expression mean, a whole class as one of them.
ghost use Rattle.std.specs.Prelude.{◌≡◌, IfOk, false};
ghost use Rattle.fw_patterns.specs.Reading.{mark_of, mark_step, marks};

use crate::classes::class_at;
use crate::signs::Sign;
use crate::{Atom, PatternFault, Repeat};
use fw_base::NoMemory;
use std::alloc::Global;

/// What a sign means outside a class.
#[derive(Debug, Drop)]
pub enum Mark {
    /// Something that stands for one byte.
    AtomMark(Atom),
    /// `*`, `+` or `?`.
    RepeatMark(Repeat),
    /// `^`.
    StartMark,
    /// `$`.
    EndMark,
    /// `|`.
    BarMark,
    /// A bracket that has no meaning there.
    StrayMark,
}

/// A mark and its place.
#[derive(Debug, Drop)]
pub struct Placed {
    /// The place of the mark's first byte.
    pub at: usize,
    /// The mark.
    pub mark: Mark,
}

/// Marks in order, and the fault behind them: none at the pattern's end.
#[derive(Debug, Drop)]
pub struct Marks {
    /// The marks.
    pub items: Vec<Placed>,
    /// What ends them.
    pub end: Option<PatternFault>,
}

/// What one sign more is, and whether the next one stands within a class.
#[derive(Debug, Drop)]
pub enum MarkStep {
    /// A sign of a class that is an atom already.
    Skipped(bool),
    /// A mark.
    Marked(Placed, bool),
    /// A class with a fault.
    Stopped(PatternFault),
}

/// The marks of signs, where `end` is the fault behind all signs.
pub fn marks_of(alloc: Global, signs: &[Sign], end: Option<PatternFault>) -> Result<Marks, NoMemory>
    ensures items { IfOk result (λ all. all.items.items ≡ (marks false end signs.now).items) }
    ensures end { IfOk result (λ all. all.end ≡ (marks false end signs.now).end) }
{
    let mut items = Vec::new(alloc);
    let mut inside = false;
    for (index, sign) in signs.iter().enumerate() {
        match mark_step(alloc, inside, end, *sign, &signs[index + 1..])? {
            MarkStep::Skipped(within) => inside = within,
            MarkStep::Marked(placed, within) => {
                items.push(placed)?;
                inside = within;
            }
            MarkStep::Stopped(fault) => {
                let end = Some(fault);
                return Ok(Marks { items, end });
            }
        }
    }
    Ok(Marks { items, end })
}

fn mark_step(
    alloc: Global,
    inside: bool,
    end: Option<PatternFault>,
    sign: Sign,
    behind: &[Sign],
) -> Result<MarkStep, NoMemory>
    ensures { IfOk result (λ step. step ≡ mark_step inside end sign behind.now) }
{
    if inside {
        return Ok(MarkStep::Skipped(!sign.is_plain(b']')));
    }
    if !sign.is_plain(b'[') {
        let mark = mark_of(sign);
        return Ok(MarkStep::Marked(Placed { at: sign.at, mark }, false));
    }
    match class_at(alloc, sign.at, end, behind) {
        Ok(atom) => {
            let mark = Mark::AtomMark(atom);
            Ok(MarkStep::Marked(Placed { at: sign.at, mark }, true))
        }
        Err(PatternFault::NoMemory) => Err(NoMemory),
        Err(fault) => Ok(MarkStep::Stopped(fault)),
    }
}

/// What a sign means outside a class.
fn mark_of(sign: Sign) -> Mark
    ensures { result ≡ mark_of sign }
{
    if sign.escaped {
        return Mark::AtomMark(Atom::Byte(sign.byte));
    }
    match sign.byte {
        b'.' => Mark::AtomMark(Atom::Any),
        b'*' => Mark::RepeatMark(Repeat::AnyTimes),
        b'+' => Mark::RepeatMark(Repeat::SomeTimes),
        b'?' => Mark::RepeatMark(Repeat::AtMostOnce),
        b'^' => Mark::StartMark,
        b'$' => Mark::EndMark,
        b'|' => Mark::BarMark,
        b'(' | b')' | b'{' | b'}' | b']' => Mark::StrayMark,
        byte => Mark::AtomMark(Atom::Byte(byte)),
    }
}
