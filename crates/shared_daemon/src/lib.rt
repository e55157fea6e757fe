//! The daemon behind the turn lock.
//! Clients on threads share one house. Each call of the daemon enters one turn of the client's pass,
//! makes one call of the house, and leaves: so it puts at most one event behind the log, and the event is
//! one that the log which the turn met allows (`specs/Calls.antt`). What no turn changes is carried by a
//! name (`specs/Names.antt`). What a client must have or may do is stated on what its pass saw, and still
//! holds of what its turn meets, since others alone made what came between (`specs/Others.antt`).
#![tactic(auto)]

mod asking;
mod claiming;
mod daemon;
mod entry;
mod judging;
mod named;
mod naming;
mod ports;
mod resuming;
mod stepping;

pub use daemon::{Daemon, Pass};
pub use entry::Entry;
pub use named::Named;
pub use naming::Naming;
