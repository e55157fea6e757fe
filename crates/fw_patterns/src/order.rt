//! The order of marks: a repeat stands directly behind an atom, `^` first in a branch, `$` last.
ghost use Rattle.std.specs.Prelude.{◌≡◌};
ghost use Rattle.fw_patterns.specs.Reading.{first_fault, last_fault, step};

use crate::PatternFault;
use crate::marks::{Mark, Placed};

/// What stands directly in front of a mark.
#[derive(Clone, Copy, Debug, PartialEq, Eq)]
pub enum Before {
    /// Nothing of its branch.
    BranchStart,
    /// `^`, or a repeat.
    Joint,
    /// An atom.
    AnAtom,
    /// `$`, by its place.
    AnEnd(usize),
}

/// The first fault of marks and of what ends them.
pub fn first_fault(marks: &[Placed], end: Option<PatternFault>) -> Option<PatternFault>
    ensures { result ≡ first_fault Before.BranchStart end marks.now }
{
    let mut before = Before::BranchStart;
    for placed in marks {
        match step(before, placed.at, &placed.mark) {
            Ok(next) => before = next,
            Err(fault) => return Some(fault),
        }
    }
    last_fault(before, end)
}

/// What a mark leaves directly in front of the next one.
fn step(before: Before, at: usize, mark: &Mark) -> Result<Before, PatternFault>
    ensures { result ≡ step before at mark.now }
{
    match (before, mark) {
        (Before::AnEnd(_), Mark::BarMark) => Ok(Before::BranchStart),
        (Before::AnEnd(at), _) => Err(PatternFault::OutOfProfile { at }),
        (Before::AnAtom, Mark::RepeatMark(_)) => Ok(Before::Joint),
        (_, Mark::RepeatMark(_)) => Err(PatternFault::OutOfProfile { at }),
        (Before::BranchStart, Mark::StartMark) => Ok(Before::Joint),
        (_, Mark::StartMark) => Err(PatternFault::OutOfProfile { at }),
        (_, Mark::AtomMark(_)) => Ok(Before::AnAtom),
        (_, Mark::EndMark) => Ok(Before::AnEnd(at)),
        (_, Mark::BarMark) => Ok(Before::BranchStart),
        (_, Mark::StrayMark) => Err(PatternFault::OutOfProfile { at }),
    }
}

fn last_fault(before: Before, end: Option<PatternFault>) -> Option<PatternFault>
    ensures { result ≡ last_fault before end }
{
    match (before, end) {
        (Before::AnEnd(at), Some(_)) => Some(PatternFault::OutOfProfile { at }),
        _ => end,
    }
}
