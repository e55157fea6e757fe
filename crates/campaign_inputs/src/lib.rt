//! From the input to a campaign.
//!
//! `read_input` reads the whole input and the site that it states, `settle` makes the campaign of a site
//! with the plugins that run, and `open_campaign` does both; `make_campaign` settles the generated site.
//! Of all plugins those run that their arrangement leaves enabled, in its order: `start_plugins` takes them
//! out of the others and starts each on the machine (`specs/Chosen.antt`). What each call answers of the
//! input, of the site and of the plugins is told by cases (`specs/Inputs.antt`, `specs/Opened.antt`); what
//! the campaign is, is told of the site and of the plugins as they were handed in (`specs/Settled.antt`).
#![tactic(auto)]

mod choosing;
pub mod input;
pub mod making;
pub mod opening;
pub mod settling;
mod sheets;
mod starting;

pub use input::{DOCUMENT_MAX, InputStop, read_input};
pub use making::make_campaign;
pub use opening::{ClientLimit, OpenStop, open_campaign};
pub use settling::{Ready, settle};
pub use starting::{Started, start_plugins};
