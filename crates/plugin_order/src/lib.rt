//! The order in which plugins run, which of them are enabled, and their priorities.
//!
//! Each sheet names the plugins that it runs after and before, is better than, and conflicts with.
//! The definitions speak of longest chains of rules; the code finds them level by level, or shows a
//! cycle. The top call arranges the plugins of a site with it.
#![tactic(auto)]

pub mod arrangement;
pub mod arranging;
pub mod conflicts;
pub mod cycles;
pub mod levels;
pub mod rules;
pub mod seats;
pub mod sheet;

pub use arrangement::{Arrangement, OrderFault};
pub use arranging::arrange;
pub use sheet::PluginSheet;
