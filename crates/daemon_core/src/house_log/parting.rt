//! The end of a house log.
ghost use Rattle.std.specs.Prelude.{◌≡◌};

use super::HouseLog;
use super::opening::opening_of;
use history_keeper::Row;
use update_log::{Facts, Log};

impl HouseLog {
    /// The facts, the log, and the rows that the last boot loaded. It takes no memory.
    pub fn into_parts(self) -> (Facts, Log, Vec<Row>)
        ensures facts { result.0 ≡ self.facts }
        ensures log { result.1 ≡ self.core.log }
        ensures opening { result.2.items ≡ self.opening }
    {
        let HouseLog {
            facts,
            first: _,
            opening,
            reopened: _,
            core,
            makers: _,
        } = self;
        let (log, rows) = core.into_log_and_rows();
        (facts, log, opening_of(opening, rows))
    }
}
