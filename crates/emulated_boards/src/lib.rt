//! Emulated boards: what a step does to a board, and the journal that it leaves.
//!
//! Each step is its row of one table, in `specs/Boards.antt`: a function of the board and of the fault
//! that the board's plan names for this call. A board's marks are what a write left behind, so all
//! that is said of writes, over any number of boots, is said of them.
#![tactic(auto)]

pub mod board;
pub mod condition;
pub mod fault;
pub mod image;
mod journal;
pub mod mark;

pub use board::Board;
pub use condition::{Condition, Presence};
pub use fault::{BoardFault, PlannedFault};
pub use image::{IMAGE_HEAD_BYTES, Image, image_raw};
pub use mark::Mark;
