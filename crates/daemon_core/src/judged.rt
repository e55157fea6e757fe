//! What a judgement is answered.
use history_keeper::RowState;
use update_log::Stored;
use version_formats::Version;

/// How a row stands to its judgement.
#[derive(Clone, Copy, Debug)]
pub enum Standing {
    /// It waits for none.
    Settled,
    /// It can't be judged now: it is put off, or it is live, or it needs a boot and was finished in this
    /// one.
    Waits,
    /// Its device isn't there.
    Absent,
    /// Its device shows this version, and so the row ends in this state.
    Judged { version: Version, state: RowState },
}

/// What a client that judges an entry's row is answered.
#[derive(Clone, Copy, Debug)]
pub enum Judged {
    /// It was judged, and stored, or the store met a fault.
    Done { state: RowState, stored: Stored },
    /// Its device isn't there.
    Absent,
    /// It can't be judged now.
    Waits,
    /// It waits for no judgement.
    Settled,
}

/// What is found of a device that a client settles.
#[derive(Clone, Copy, Debug)]
pub enum DeviceRow {
    /// There is no such device, or it isn't there.
    NoDevice,
    /// Each row of the device is settled.
    Nothing,
    /// The row of this entry isn't.
    Waiting { entry: u32 },
}

/// What a client that settles a device is answered.
#[derive(Clone, Copy, Debug)]
pub enum Settling {
    /// The device's row was judged, and stored, or the store met a fault.
    Judged {
        entry: u32,
        state: RowState,
        stored: Stored,
    },
    /// There is no such device, or it isn't there.
    NoDevice,
    /// The device's row can't be judged now.
    Waits {
        entry: u32,
    },
    /// Each row of the device is settled.
    Nothing,
}
