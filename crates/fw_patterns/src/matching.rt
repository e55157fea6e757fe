//! Matching: a set of places in the pattern, kept over the text from its end to its start.
ghost use Rattle.std.specs.Prelude.{◌≡◌, ◌≤◌, ◌<◌, ℕ, Bool, List, [], ◌∷◌, length};
ghost use Rattle.std.specs.List.{list_any};
ghost use Rattle.fw_patterns.specs.Places.{Tell, at_byte, branch_at, may_be_none};
ghost use Rattle.fw_patterns.specs.Relation.{in_range, stands_for};

use crate::{Atom, Branch, ByteRange, Piece, Repeat};

/// One place for each piece of the longest branch, and one behind them all.
const PLACES: usize = 256;

/// Whether a branch stands for a text.
pub fn branch_matches(branch: &Branch, text: &[u8]) -> bool
    requires { length branch.now.pieces ≤ 255 }
    ensures { result ≡ branch_at branch.now text.now }
{
    let mut places = [false; PLACES];
    places_at_end(&mut places, branch.pieces.items());
    let mut found = places[0];
    let mut left = text.len();
    while left > 0 {
        left -= 1;
        step_back(
            &mut places,
            branch.pieces.items(),
            text[left],
            branch.to_end,
        );
        found = places[0] || !branch.from_start && found;
    }
    found
}

/// The places at the text's end.
fn places_at_end(places: &mut [bool], pieces: &[Piece])
    requires { length pieces.now < length places.old }
    ensures len { length places.new ≡ length places.old }
    ensures tell { (to_end : Bool) → Tell to_end pieces.now [] places.new }
{
    let mut at = pieces.len();
    places[at] = true;
    while at > 0 {
        let behind = places[at];
        at -= 1;
        places[at] = may_be_none(pieces[at].repeat) && behind;
    }
}

/// The places one byte in front of where they are.
fn step_back(places: &mut [bool], pieces: &[Piece], byte: u8, to_end: bool)
    requires { length pieces.now < length places.old }
    ensures len { length places.new ≡ length places.old }
    ensures tell { (left : List ℕ) → Tell to_end pieces.now left places.old → Tell to_end pieces.now (byte ∷ left) places.new }
{
    let mut at = pieces.len();
    let mut behind = places[at];
    places[at] = !to_end;
    while at > 0 {
        let skipped = places[at];
        at -= 1;
        let again = places[at];
        let piece = &pieces[at];
        places[at] = at_byte(
            piece.repeat,
            stands_for(&piece.atom, byte),
            again,
            behind,
            skipped,
        );
        behind = again;
    }
}

fn may_be_none(repeat: Repeat) -> bool
    ensures { result ≡ may_be_none repeat }
{
    repeat == Repeat::AnyTimes || repeat == Repeat::AtMostOnce
}

fn at_byte(repeat: Repeat, stands: bool, again: bool, behind: bool, skipped: bool) -> bool
    ensures { result ≡ at_byte repeat stands again behind skipped }
{
    match repeat {
        Repeat::Once => stands && behind,
        Repeat::AnyTimes => skipped || stands && again,
        Repeat::SomeTimes => stands && (again || behind),
        Repeat::AtMostOnce => skipped || stands && behind,
    }
}

fn stands_for(atom: &Atom, byte: u8) -> bool
    ensures { result ≡ stands_for atom.now byte }
{
    match atom {
        Atom::Any => true,
        Atom::Byte(own) => byte == *own,
        Atom::Class { negated, ranges } => in_some(ranges.items(), byte) != *negated,
    }
}

fn in_some(ranges: &[ByteRange], byte: u8) -> bool
    ensures { result ≡ list_any (λ range. in_range range byte) ranges.now }
{
    ranges.iter().any(|range| in_range(*range, byte))
}

fn in_range(range: ByteRange, byte: u8) -> bool
    ensures { result ≡ in_range range byte }
{
    range.low <= byte && byte <= range.high
}
