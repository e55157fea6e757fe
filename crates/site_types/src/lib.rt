//! What a document states, and the campaign that is made of it, as values.
//!
//! A `Site` is what was read or generated; nothing in it was decided yet. A `Campaign` has the sheets
//! after quirks, the vetoes of the plugins and the boards. The reader of documents, the generator and
//! the settling of a site stand above.
#![tactic(auto)]

pub mod campaign;
pub mod site;

pub use campaign::Campaign;
pub use site::{Site, SiteBoard};
