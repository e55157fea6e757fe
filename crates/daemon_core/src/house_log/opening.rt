//! What is held of the rows that a boot loaded.
ghost use Rattle.std.specs.Prelude.{◌≡◌, slice_get};
ghost use Rattle.daemon_core.specs.Openings.{is_taken, opening_in};

use history_keeper::Row;
use row_index::{Former, as_were, row_as_it_was};

/// The rows that the last boot loaded, and none before it. Those that it took are the first rows of the log, and
/// aren't held twice.
#[derive(Drop)]
pub(super) enum Opening {
    /// No boot took them for the rows before the log.
    Untaken(Vec<Row>),
    /// A boot took them: what each was then.
    Taken(Vec<Former>),
}

/// Whether a boot took them.
pub(super) fn is_taken(opening: &Opening) -> bool
    ensures { result ≡ is_taken opening.now }
{
    match opening {
        Opening::Untaken(_) => false,
        Opening::Taken(_) => true,
    }
}

/// Their row at a place, where these are the rows of the log.
pub(super) fn opening_row(opening: &Opening, rows: &[Row], at: usize) -> Option<Row>
    ensures { result ≡ slice_get (opening_in opening.now rows.now) at }
{
    match opening {
        Opening::Untaken(loaded) => loaded.get(at).copied(),
        Opening::Taken(formers) => row_as_it_was(rows, formers, at),
    }
}

/// All of them, where these are the rows of the log. It takes no memory.
pub(super) fn opening_of(opening: Opening, rows: Vec<Row>) -> Vec<Row>
    ensures { result.items ≡ opening_in opening rows.items }
{
    match opening {
        Opening::Untaken(loaded) => loaded,
        Opening::Taken(formers) => as_were(rows, &formers),
    }
}
