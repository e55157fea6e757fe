//! The pieces of HTML between which the parts of a report stand.

/// An event's element, up to its number.
pub const OPEN_MARK: &[u8] = b"<i id=e";

/// The place of an event.
pub const MARK_PLACE: &[u8] = b" style=--x:";

/// What happened at an event.
pub const MARK_CLASS: &[u8] = b" class=\"";

/// The lines of an event.
pub const MARK_TITLE: &[u8] = b"\" title=\"";

/// The end of an element's first tag.
pub const CLOSE_HEAD: &[u8] = b"\">";

/// The end of an event's element.
pub const CLOSE_MARK: &[u8] = b"</i>\n";

/// The label of a boot, up to its number.
pub const BOOT_LABEL: &[u8] = b"<b>boot ";

/// The label of a cut.
pub const CUT_LABEL: &[u8] = b"<b>cut</b>";

/// The run of an entry, up to its number.
pub const OPEN_ENTRY: &[u8] = b"<u class=\"n";

/// The end of the run of an entry.
pub const CLOSE_ENTRY: &[u8] = b"</u>\n";

/// The run of a write, up to its entry's number.
pub const OPEN_WRITE: &[u8] = b"<s class=\"n";

/// The end of the run of a write.
pub const CLOSE_WRITE: &[u8] = b"</s>\n";

/// Where a run begins.
pub const RUN_PLACE: &[u8] = b"\" style=\"--x:";

/// How long a run is.
pub const RUN_LENGTH: &[u8] = b";--w:";

/// The label of a client's lane, up to its place.
pub const CLIENT_LABEL: &[u8] = b"<p style=order:";

/// The name of a client, up to its number.
pub const CLIENT_NAME: &[u8] = b">client ";

/// The label of a board's lane, up to its name.
pub const BOARD_LABEL: &[u8] = b"<p class=board>";

/// The end of a lane's label.
pub const CLOSE_LANE: &[u8] = b"</p>\n";

/// The tally's item of the events drawn, up to their number.
pub const DRAWN_ITEM: &[u8] = b"<li id=drawn>events drawn <b>";

/// The tally's item of the lines that were not read, up to their number.
pub const UNREAD_ITEM: &[u8] = b"<li id=unread class=warn>lines not read <b>";

/// The tally's item of the number that the report tells, up to its class.
pub const TOLD_ITEM: &[u8] = b"<li id=told class=";

/// Its middle, up to the number.
pub const TOLD_NUMBER: &[u8] = b">the report counts <b>";

/// The end of an item of the tally.
pub const ITEM_END: &[u8] = b"</b></li>\n";

/// The tally's item of a report without a last line.
pub const CUT_OFF_ITEM: &[u8] =
    b"<li id=told class=warn>cut off: the report has no last line</li>\n";

/// A line that is none of a report, up to its number.
pub const STRAY_ITEM: &[u8] = b"<li>line ";

/// Its middle, up to its text.
pub const STRAY_TEXT: &[u8] = b" <code>";

/// Its end.
pub const STRAY_END: &[u8] = b"</code></li>\n";

/// The end of a report that was cut off in a line, up to its text.
pub const REST_ITEM: &[u8] = b"<li id=rest>the end, in the middle of a line <code>";
