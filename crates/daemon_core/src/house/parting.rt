//! The end of a house.
ghost use Rattle.std.specs.Prelude.{◌≡◌, []};
ghost use Rattle.update_log.specs.Holding.{live};
ghost use Rattle.daemon_core.specs.Parts.{BoardsOf};

use super::House;
use crate::parts::{HomeBoards, HouseParts};
use fw_base::Listed;
use history_keeper::Keeper;

impl<K: Keeper> House<K> {
    ghost use Rattle.daemon_core.specs.Housed.{past};

    /// The parts of the house. No entry is live, so all boards are at home. It takes no memory.
    pub fn into_parts(self) -> HouseParts<K>
        requires { live (past self) ≡ [] }
        ensures facts { result.facts ≡ self.house_log.facts }
        ensures log { result.log ≡ self.house_log.core.log }
        ensures boards { BoardsOf self result.boards }
        ensures keeper { result.keeper ≡ self.keeper }
        ensures opening { result.opening ≡ self.house_log.opening }
    {
        let House {
            house_log,
            places,
            pool: _,
            keeper,
        } = self;
        house_log.known();
        let boards = HomeBoards::of(places);
        let (facts, log, opening) = house_log.into_parts();
        HouseParts {
            facts,
            log,
            boards,
            keeper,
            opening: Listed::of(opening),
        }
    }
}
