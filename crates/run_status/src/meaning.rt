//! What the reasons of a document's faults mean.
use release_catalogue::Reason;

/// What a reason means, in a sentence without its end.
pub(crate) fn meaning(reason: Reason) -> &'static str {
    match reason {
        Reason::NotJson => {
            "the text is no JSON in UTF-8, nests more than 127 deep, or has a number that is too large"
        }
        Reason::WrongKind => {
            "the value is of another JSON kind, a number out of its range, or a text that this field doesn't have"
        }
        Reason::Missing => "this field is needed, and isn't there",
        Reason::BadGuid => {
            "a GUID has hex digits in groups of 8-4-4-4-12 with a dash between them"
        }
        Reason::BadVersion => "a version has 1 to 64 bytes, each from ! to ~",
        Reason::BadDigest => "a digest is a SHA-256: 64 hex digits in lower case",
        Reason::BadPattern { .. } => "the pattern has a fault at this byte, counted from 0",
        Reason::BadCompare => {
            "the word is none of eq, ne, lt, le, gt, ge, glob and regex; vendor IDs take eq, glob and regex alone"
        }
        Reason::TooMany => "the list is longer than this field allows",
        Reason::Repeated => {
            "another board has this port or another remote this name already, or planned faults don't rise by their calls"
        }
        Reason::BadQuirk { .. } => {
            "the quirk file has a fault: the first number says which, the second in which line"
        }
        Reason::BadReference => {
            "the port is none of a board, or for a parent none of an earlier board with fewer than 8 ancestors"
        }
    }
}

/// The heading under which both pages say more.
pub(crate) fn part(reason: Reason) -> &'static str {
    match reason {
        Reason::BadPattern { .. } => "Patterns",
        Reason::BadCompare => "Requirements",
        Reason::BadQuirk { .. } => "Quirk files",
        Reason::NotJson
        | Reason::WrongKind
        | Reason::Missing
        | Reason::BadGuid
        | Reason::BadVersion
        | Reason::BadDigest
        | Reason::TooMany
        | Reason::Repeated
        | Reason::BadReference => "The document",
    }
}
