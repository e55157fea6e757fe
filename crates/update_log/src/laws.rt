//! Laws of the definitions alone.
ghost use Rattle.update_log.specs.Laws.{AtMostOnce, AtMostOnceAfterCrashes, FailedStays, HistoryStays, OneDeviceAnID, TakenOnce};

/// Each write that a board lived through belongs to one accepted request.
pub fn legal_once()
    ensures { AtMostOnce }
{}

/// What a crash leaves of a legal log is legal, whatever the next boot finds then is legal too, and
/// the boards have still been written once.
pub fn crash_once()
    ensures { AtMostOnceAfterCrashes }
{}

/// Over any number of boots no tag has two rows, and no entry is taken twice, written or not.
pub fn taken_once()
    ensures { TakenOnce }
{}

/// Over any number of boots the rows are a valid history.
pub fn history_stays()
    ensures { HistoryStays }
{}

/// A row that has failed stays as it is, whatever comes behind.
pub fn failed_stays()
    ensures { FailedStays }
{}

/// Of the served boards with one device ID exactly one is a device.
pub fn one_device()
    ensures { OneDeviceAnID }
{}
