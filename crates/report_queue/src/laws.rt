//! Laws of the definitions alone.
ghost use Rattle.report_queue.specs.Laws.{CallsFollow, MarkedOnce, SentOnce};

/// Whatever calls come over one keeper of marks, and wherever they stop, no entry is marked by two of them, and none
/// twice by one.
pub fn marked_once()
    ensures { MarkedOnce }
{}

/// Of the outputs of such calls no two begin a line of one entry.
pub fn sent_once()
    ensures { SentOnce }
{}

/// Two calls follow each other where the keeper told, as the later one began, what it told behind the earlier one,
/// without or with the entry that was in doubt.
pub fn calls_follow()
    ensures { CallsFollow }
{}
