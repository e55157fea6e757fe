//! What a refusal of the database is for a keeper.
ghost use Rattle.std.specs.Prelude.{◌≡◌};
ghost use Rattle.history_sqlite.specs.Refusals.{refusal_of};

use history_keeper::KeeperRefusal;
use sqlite::{Error, ErrorCode};

/// Want of memory is told as that. All else is a fault.
pub fn refusal_of_error(error: Error) -> KeeperRefusal
    ensures { result ≡ refusal_of error }
{
    match error {
        Error::SqliteFailure(ErrorCode::OutOfMemory) => KeeperRefusal::NoMemory,
        _ => KeeperRefusal::Fault,
    }
}
