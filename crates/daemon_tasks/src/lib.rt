//! What the daemon does by itself as a boot begins.
//!
//! It judges each row that waits for it and whose device is there, on the plain house (`judging`). Where installs
//! were put off, the house then lies behind a lock that has the daemon's own pass alone (`behind`): each is asked
//! for, its payload is fetched from the daemon's shelf, and the entry that begins is run as those of clients are
//! (`resuming`, over `script_runs`). That daemon has closed before any client starts, so all events of clients
//! come later. Whatever is out comes back on every way.
#![tactic(auto)]

mod behind;
mod judging;
mod resuming;
mod tasks;

pub use tasks::{do_tasks, either};
