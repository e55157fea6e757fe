//! Quirk files: what is known of devices apart from what they say of themselves.
//!
//! A file gives quirks, or its first fault (`specs/Files.antt`); a sheet after the quirks of a book is
//! `sheet_after` of the sheet before (`specs/Sheets.antt`). The index by group is in no clause.
#![tactic(auto)]

pub mod book;
pub mod changes;
pub mod fault;
pub mod file;
pub mod index;
pub mod key;
pub mod lines;
pub mod quirk;
pub mod sheets;
pub mod texts;
pub mod values;

pub use book::QuirkBook;
pub use fault::QuirkFault;
pub use key::Key;
pub use quirk::Quirk;
