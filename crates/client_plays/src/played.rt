//! How the play of an item ends.
ghost use Rattle.std.specs.Prelude.{◌≡◌};

/// How the play of an item ended.
#[derive(Clone, Copy, Debug, PartialEq, Eq)]
pub enum Played {
    /// It was played whole.
    Done,
    /// It was left, since the boot is off.
    Off,
    /// It was left, since memory was wanting.
    NoMemory,
}
