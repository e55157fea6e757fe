//! The outside as traits: where bytes come from, where they go, where payloads lie, and a gate.
//!
//! Each object counts its faults, and a call fails only where that count rose. What an object holds
//! is told or not: the forms in memory tell it and fail by a plan, those over a stream of std tell what
//! std knows of it, and a folder tells nothing.
#![tactic(auto)]

mod copying;
pub mod failed;
pub mod folder_shelf;
pub mod gate;
pub mod memory_shelf;
pub mod memory_sink;
pub mod memory_source;
mod plan;
pub mod read_source;
pub mod shelf;
pub mod sink;
pub mod source;
pub mod write_sink;

pub use failed::Failed;
pub use folder_shelf::FolderShelf;
pub use gate::{Gate, NoGate};
pub use memory_shelf::MemoryShelf;
pub use memory_sink::MemorySink;
pub use memory_source::MemorySource;
pub use read_source::ReadSource;
pub use shelf::Shelf;
pub use sink::{Sink, write_whole};
pub use source::{ReadStop, Source, read_whole};
pub use write_sink::WriteSink;
