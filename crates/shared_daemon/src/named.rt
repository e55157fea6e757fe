//! A house under a name, which lies behind the lock.
ghost use Rattle.std.specs.Prelude.{◌≡◌};
ghost use Rattle.history_keeper.specs.Signs.{signs_of};
ghost use Rattle.daemon_core.specs.HouseLog.{IsHouseLog};
ghost use Rattle.daemon_core.specs.House.{IsHouse};
ghost use Rattle.shared_daemon.specs.Entries.{chronicle, maker_of};
ghost use Rattle.shared_daemon.specs.Names.{KeepsName};

use crate::entry::Entry;
use crate::naming::Naming;
use daemon_core::House;
use history_keeper::Keeper;
use std::marker::{Model, PhantomData};
use turn_lock::Chronicle;

/// A house under a name. Contracts see the house.
pub struct Named<K: Keeper, N: Naming> {
    pub(crate) house: House<K>,
    of: PhantomData<N>,
}

impl<K: Keeper, N: Naming> Model for Named<K, N> {
    ghost use Rattle.history_keeper.specs.Signs.{signs_of};
    ghost use Rattle.daemon_core.specs.Housed.{Housed};
    ghost use Rattle.shared_daemon.specs.Names.{KeepsName};

    ghost Value = { Housed K };

    ghost view = { λ n. n.house };

    ghost invariant = { λ n. KeepsName (signs_of K.tells K.doubt K.faults) N.name n.house };
}

impl<K: Keeper, N: Naming> Chronicle for Named<K, N> {
    type Entry = Entry;

    ghost entries = { λ n. chronicle n };

    ghost by = { maker_of };
}

impl<K: Keeper, N: Naming> Named<K, N> {
    pub(crate) fn of(house: House<K>) -> Named<K, N>
        requires { KeepsName (signs_of K.tells K.doubt K.faults) N.name house }
        ensures { result ≡ house }
    {
        Named {
            house,
            of: PhantomData,
        }
    }

    pub(crate) fn into_house(self) -> House<K>
        ensures same { result ≡ self }
        ensures name { KeepsName (signs_of K.tells K.doubt K.faults) N.name result }
    {
        let Named { house, of: _ } = self;
        house
    }

    // What is always true of it.
    pub(crate) fn known(&self)
        ensures house_log { IsHouseLog self.now.house_log }
        ensures name { KeepsName (signs_of K.tells K.doubt K.faults) N.name self.now }
        ensures house { IsHouse (signs_of K.tells K.doubt K.faults) self.now }
    {
        self.house.known();
    }
}
