//! A keeper on the heap.
ghost use Rattle.std.specs.Prelude.{◌≡◌, ◌≤◌, ◌≢◌, ◌⊎◌, List, None, IfErr, IfOk, OnErr, OnOk};
ghost use Rattle.history_keeper.specs.declared.row.Row.{Row};

use history_keeper::{Change, Keeper, KeeperRefusal, Row};
use std::alloc::Global;

/// A keeper that lies on the heap. Whoever moves a house moves its keeper, and one over a file is dear to move as it is.
#[derive(Drop)]
pub struct OnHeap<K: Keeper> {
    /// The keeper.
    pub keeper: Box<K>,
}

impl<K: Keeper + Drop> OnHeap<K> {
    /// Puts the keeper on the heap. It is let go of where there was no memory for that.
    pub fn new(alloc: Global, keeper: K) -> Result<OnHeap<K>, KeeperRefusal>
        ensures same { IfOk result (λ new. new.keeper.value ≡ keeper) }
        ensures memory { IfErr result (λ why. why ≡ KeeperRefusal.NoMemory) }
    {
        match Box::new(alloc, keeper) {
            Ok(keeper) => Ok(OnHeap { keeper }),
            Err(_) => Err(KeeperRefusal::NoMemory),
        }
    }
}

impl<K: Keeper> Keeper for OnHeap<K> {
    ghost tells = { λ s. K.tells s.keeper.value };

    ghost doubt = { λ s. K.doubt s.keeper.value };

    ghost faults = { λ s. K.faults s.keeper.value };

    ghost takes_none = { K.takes_none };

    ghost settled = { λ first s. K.settled first.keeper.value s.keeper.value };

    fn load(&mut self, alloc: Global) -> Result<Vec<Row>, KeeperRefusal> {
        self.keeper.load(alloc)
    }

    fn commit(&mut self, change: &Change) -> Result<(), KeeperRefusal> {
        self.keeper.commit(change)
    }

    fn reopen(&mut self) -> Result<(), KeeperRefusal> {
        self.keeper.reopen()
    }
}
