//! The interface of a plugin: what it says of itself, and what its six steps may do to a board.
//!
//! Whoever runs an update holds boxed plugins and knows of them what `specs/Steps.antt` says: which
//! marks a step may leave, what becomes of images, mode and presence, and that a step is well exactly
//! where the board counted no fault in it. The plugins stand in `board_plugins`; the typed states of
//! a claim call them.
#![tactic(auto)]

pub mod plugin;
pub mod startup;

pub use plugin::Plugin;
pub use startup::start_all;
