//! What the clients of a boot do, one item after the other, and what they are told.
//!
//! A reply is lines of text, a function of the facts, the devices as they stand and the rows
//! (`specs/Replies.antt`). The report writes the same lines, with the words and parts of lines that
//! stand here.
#![tactic(auto)]

mod commas;
mod devices;
pub mod item;
mod lines;
mod named;
pub mod parts;
mod releases;
mod reply;
mod rows;
pub mod words;

pub use item::Item;
pub use reply::write_reply;
