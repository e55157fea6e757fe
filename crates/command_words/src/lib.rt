//! The words of the command line: which command they are.
//!
//! Which words are a command, and which, is one function of the list of words (`specs/Commands.antt`).
//! `read_words` answers exactly that, and `Usage` exactly where the words are none.
#![tactic(auto)]

pub mod command;
mod make;
mod parts;
pub mod reading;
mod report;
pub mod text;
mod values;

pub use command::{Command, WordsFault};
pub use reading::read_words;
pub use text::Text;
