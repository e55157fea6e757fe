//! What a port shows of its board.

/// Which of its two programs a board runs.
#[derive(Clone, Copy, Debug, PartialEq, Eq)]
pub enum Mode {
    /// The firmware itself.
    Runtime,
    /// The boot loader, which takes a new firmware.
    Bootloader,
}

/// What stands in a board's port.
#[derive(Clone, Copy, Debug, PartialEq, Eq)]
pub enum Seen {
    /// The board, with the raw number of its version and its mode.
    Home { raw: u32, mode: Mode },
    /// Nothing.
    Gone,
    /// Another board.
    Stranger,
}
