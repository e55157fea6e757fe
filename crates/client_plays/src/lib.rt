//! What the clients and the daemon itself do in a boot, told by the log alone, and what comes of it.
//!
//! `specs/` says of which events the play of an item is, and when the scripts of a whole campaign were
//! played, in this order: Moments, Tools, Shelves, Plays, Scripts; then what a play does to a house: Endings.
//! `script_runs` plays the items of a client, `daemon_tasks` does what the daemon does by itself, and
//! `client_threads` plays a boot of both.
//!
//! `laws` has what follows for every log that was played so. A claim, an install or a resumption that is
//! accepted, and whose payload lies on its client's shelf, takes its entry, but for a fault of the keeper or of
//! the shelf itself (`specs/Complete.antt`). So each boot does what it is to do (`specs/Installs.antt`). A
//! refusal is the first of those whose condition is met (`specs/FirstRefusal.antt`).
#![tactic(auto)]

pub mod laws;
pub mod played;

pub use laws::{
    boots_complete, campaigns_complete, claims_complete, first_is_named, installs_complete,
    installs_finish, resumptions_complete,
};
pub use played::Played;
