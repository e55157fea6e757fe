//! What is always true of a house.
use super::House;
use history_keeper::Keeper;

impl<K: Keeper> House<K> {
    ghost use Rattle.history_keeper.specs.Signs.{signs_of};
    ghost use Rattle.daemon_core.specs.HouseLog.{IsHouseLog};
    ghost use Rattle.daemon_core.specs.House.{IsHouse};

    /// What is always true of it, for a caller that needs it.
    pub fn known(&self)
        ensures house_log { IsHouseLog self.now.house_log }
        ensures house { IsHouse (signs_of K.tells K.doubt K.faults) self.now }
    {
        self.house_log.known();
    }
}
