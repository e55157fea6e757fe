//! The rows of a history in memory: looked up by an index, and told as they were before they were changed.
//!
//! To a caller `IndexedRows` is the list of its rows, and each look-up is the first of that list. That a
//! look-up needn't read the list stands in the index, which no clause names: it is kept where the rows
//! are a valid history, made anew by the next `reserve` where they were set, and until then, as for rows
//! that are no history, the list is read.
#![tactic(auto)]

pub mod former;
mod index;
pub mod indexed_rows;
mod stated;
mod tag_key;

pub use former::{Former, as_were, formers_of, row_as_it_was};
pub use indexed_rows::IndexedRows;
