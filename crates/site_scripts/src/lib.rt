//! The clients and the boots of the document, and what the readers of all its sections share.
//!
//! What the two sections state is a function of their JSON values (`specs/Clients.antt`, `specs/Boots.antt`
//! and `specs/Items.antt`): one line for each field, in the order in which faults are looked for. The
//! readers answer exactly that. Absent boards are known by the ports of the boards that were read before
//! (`Ports`), and the items of all boots are counted by a running number. The places of faults that stand
//! outside a section's entries, and members that are told at the place of their object, are
//! `specs/Places.antt`; words, places with indexes, readers of single fields and lists are those of
//! `release_catalogue`.
#![tactic(auto)]

pub mod absent;
pub mod boots;
pub mod clients;
pub mod flags;
pub mod item;
pub mod ports;
pub mod scripts;
pub mod spots;
pub mod verb;

pub use boots::{Boot, Parted, part, read_boots};
pub use clients::read_clients;
pub use ports::Ports;
pub use spots::{needed_here, spot_in, whole_spot};
