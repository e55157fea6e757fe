//! Patterns: globs and regular expressions over bytes.
//!
//! Which texts a pattern stands for is the relation of `specs/Relation.antt`, on cuts of the text; how
//! a pattern is read, and which fault refuses it, is `specs/Reading.antt`. Matching keeps a set of
//! places in the pattern: its time is at most the pattern's length times the text's, and it takes no
//! memory.
#![tactic(auto)]

pub mod branches;
pub mod classes;
pub mod fault;
pub mod marks;
pub mod matching;
pub mod order;
pub mod pattern;
pub mod signs;
pub mod syntax;

pub use fault::PatternFault;
pub use pattern::Pattern;
pub use syntax::{Atom, Branch, ByteRange, Piece, Repeat};
