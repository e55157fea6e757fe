//! Patterns: how they are read.
ghost use Rattle.std.specs.Prelude.{◌≡◌, ◌⊎◌, ◌≤◌, ◌↔◌, IsTrue, IfOk, MatchResult, List, ℕ, Ok, Err, length, map, position};
ghost use Rattle.fw_patterns.specs.Reading.{Gives, glob_pattern, glob_piece, glob_read, is_no_glob_byte, regex_marks, regex_read};
ghost use Rattle.fw_patterns.specs.Deciding.{in_pattern};
ghost use Rattle.fw_patterns.specs.Regexes.{InRegex, IsRegex, WritesRegex};
ghost use Rattle.fw_patterns.specs.Relation.{InGlob, InPattern};
ghost use Rattle.fw_patterns.specs.declared.fault.PatternFault.TheVariants.{NoMemory as OutOfMemory};

use crate::branches::branches_of;
use crate::marks::{Marks, marks_of};
use crate::matching::branch_matches;
use crate::order::first_fault;
use crate::signs::{Signs, is_profile, signs_of};
use crate::{Atom, Branch, PatternFault, Piece, Repeat};
use fw_base::{Listed, NoMemory};
use std::alloc::{AllocError, Global};
use std::marker::Model;

/// The most bytes of a pattern.
pub const PATTERN_MAX: usize = 255;

/// A pattern that was read. Contracts see its branches.
#[derive(Debug, Drop)]
pub struct Pattern {
    branches: Listed<Branch>,
}

impl Model for Pattern {
    ghost use Rattle.std.specs.Prelude.{List};
    ghost use Rattle.fw_patterns.specs.declared.syntax.Branch.{Branch};
    ghost use Rattle.fw_patterns.specs.Relation.{AllShort};

    ghost Value = { List Branch };

    ghost view = { λ p. p.branches };

    ghost invariant = { λ p. AllShort p.branches };
}

impl Pattern {
    /// Reads a glob: `*` stands for any run of bytes, `?` for one byte, every other byte of printable
    /// ASCII but `[`, `]` and `\` for itself. The whole text must match.
    ///
    /// The first fault in reading order is answered; a text of more than 255 bytes is refused first.
    pub fn glob(alloc: Global, text: &[u8]) -> Result<Pattern, PatternFault>
        ensures read { Gives (λ pattern. pattern) result (glob_read text.now) }
        ensures stands { IfOk result (λ pattern. (t : List ℕ) → InPattern pattern t ↔ InGlob text.now t) }
    {
        if text.len() > PATTERN_MAX {
            return Err(PatternFault::TooLong { len: text.len() });
        }
        match first_bad(text) {
            Some(at) => Err(PatternFault::OutOfProfile { at }),
            None => Pattern::of_glob(alloc, text),
        }
    }

    /// Reads a regular expression: branches between `|`, tied to the text's start by `^` and to its
    /// end by `$`; in a branch bytes, `.`, classes and punctuation behind `\`, each with `*`, `+`,
    /// `?` or none of them.
    ///
    /// The first fault in reading order is answered; a text of more than 255 bytes is refused first.
    pub fn regex(alloc: Global, text: &[u8]) -> Result<Pattern, PatternFault>
        ensures read { Gives (λ pattern. pattern) result (regex_read text.now) }
        ensures written { MatchResult result (λ pattern. WritesRegex pattern text.now) (λ fault. (fault ≡ OutOfMemory) ⊎ (length text.now ≤ 255 → IsRegex text.now → ⊥)) }
        ensures stands { IfOk result (λ pattern. (t : List ℕ) → InPattern pattern t ↔ InRegex text.now t) }
    {
        if text.len() > PATTERN_MAX {
            return Err(PatternFault::TooLong { len: text.len() });
        }
        let marks = read_marks(alloc, text)?;
        match first_fault(&marks.items, marks.end) {
            Some(fault) => Err(fault),
            None => {
                let branches = branches_of(alloc, marks.items)?;
                Ok(Pattern {
                    branches: Listed::of(branches),
                })
            }
        }
    }

    /// Whether the pattern stands for a text.
    ///
    /// The time is at most the pattern's length times the text's, for every pattern and every text.
    pub fn matches(&self, text: &[u8]) -> bool
        ensures stands { IsTrue result ↔ InPattern self.now text.now }
        ensures decided { result ≡ in_pattern self.now text.now }
    {
        for branch in self.branches.items() {
            if branch_matches(branch, text) {
                return true;
            }
        }
        false
    }

    fn of_glob(alloc: Global, text: &[u8]) -> Result<Pattern, PatternFault>
        requires { length text.now ≤ 255 }
        ensures { MatchResult result (λ pattern. pattern ≡ glob_pattern text.now) (λ fault. fault ≡ OutOfMemory) }
    {
        let pieces = glob_pieces(alloc, text)?;
        let mut branches = Vec::new(alloc);
        branches.push(Branch {
            from_start: true,
            to_end: true,
            pieces: Listed::of(pieces),
        })?;
        Ok(Pattern {
            branches: Listed::of(branches),
        })
    }
}

/// The marks of a regular expression.
fn read_marks(alloc: Global, text: &[u8]) -> Result<Marks, NoMemory>
    ensures items { IfOk result (λ all. all.items.items ≡ (regex_marks text.now).items) }
    ensures end { IfOk result (λ all. all.end ≡ (regex_marks text.now).end) }
{
    let Signs { items, end } = signs_of(alloc, text)?;
    marks_of(alloc, &items, end)
}

fn first_bad(text: &[u8]) -> Option<usize>
    ensures { result ≡ position is_no_glob_byte text.now }
{
    text.iter().position(|b| is_no_glob_byte(*b))
}

fn is_no_glob_byte(byte: u8) -> bool
    ensures { result ≡ is_no_glob_byte byte }
{
    byte == b'[' || byte == b']' || byte == b'\\' || !is_profile(byte)
}

fn glob_pieces(alloc: Global, text: &[u8]) -> Result<Vec<Piece>, AllocError>
    ensures { IfOk result (λ pieces. pieces.items ≡ map glob_piece text.now) }
{
    text.iter().map(|b| glob_piece(*b)).collect(alloc)
}

fn glob_piece(byte: u8) -> Piece
    ensures { result ≡ glob_piece byte }
{
    match byte {
        b'*' => piece(Atom::Any, Repeat::AnyTimes),
        b'?' => piece(Atom::Any, Repeat::Once),
        byte => piece(Atom::Byte(byte), Repeat::Once),
    }
}

fn piece(atom: Atom, repeat: Repeat) -> Piece
    ensures atom { result.atom ≡ atom }
    ensures repeat { result.repeat ≡ repeat }
{
    Piece { atom, repeat }
}
