//! Remotes: named sources of releases, each with an order and a switch, that are merged into one catalogue.
//!
//! What merging means is `specs/Merged.antt`: a filter of each remote's releases by those of the remotes that
//! come before it. The code marks for each release the first remote that offers it (`index`), takes the hidden
//! ones away (`parts`) and puts what is left one behind the other (`arranged`). So of each ID and version the
//! merged catalogue has what the first enabled remote has that offers it (`specs/Firsts.antt`), and a look-up in
//! it finds what it finds in the first remote that isn't hidden by those before it (`specs/Finds.antt`).
#![tactic(auto)]

mod arranged;
mod index;
mod key;
pub mod laws;
pub mod merging;
mod part;
mod parts;
pub mod rank;
pub mod remote;

pub use laws::{finds_first, finds_unhidden, first_remote_wins};
pub use merging::{MergeFault, Merged, merge};
pub use parts::count_releases;
pub use rank::Rank;
pub use remote::Remote;
