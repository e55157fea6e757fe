//! The smallest words: names, lines, decimal numbers, digests and lists.
//!
//! Each reader answers exactly what its definition in `specs/` says of the bytes: the value, or the
//! first fault. Nothing here takes memory. Every other crate stands on this one.
#![tactic(auto)]

pub mod decimal;
pub mod digest;
pub mod line;
pub mod listed;
pub mod memory;
pub mod name;

pub use decimal::{NumberFault, read_decimal};
pub use digest::{Digest, read_digest};
pub use line::{Line, LineFault};
pub use listed::Listed;
pub use memory::NoMemory;
pub use name::{Name, NameFault};
