//! The four plugins of the daemon, one module each.
//!
//! Each step is exactly one of the board's own steps, or none, and the clause of the step says which.
//! What the trait of plugins asks follows from it. The top call arranges and starts them.
#![tactic(auto)]

pub mod capsule;
pub mod flash;
pub mod loader;
pub mod power;
mod sheets;

pub use capsule::Capsule;
pub use flash::Flash;
pub use loader::Loader;
pub use power::Power;
