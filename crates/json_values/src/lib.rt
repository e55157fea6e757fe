//! JSON values that borrow their text.
//!
//! `read` gives the value of a text as `json`'s tree over that text, which is small: it copies no text but where there
//! are escapes. What a value stands for is its data, in the words of `serde_json` (`specs/Trees.antt`): a text that was
//! read has the data that `serde_json` reads of it. The other calls look into a value.
#![tactic(auto)]

pub mod looking;
pub mod numbers;
pub mod ordered;
pub mod ranges;
pub mod reading;

pub use json::{Scratch, Value};
pub use looking::{boolean, is_object, items, member, number, text};
pub use ordered::members;
pub use reading::{JsonFault, read};
