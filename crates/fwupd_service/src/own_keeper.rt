//! The keeper of `make`.
ghost use Rattle.std.specs.Prelude.{◌≡◌, ◌≢◌, List, [], None, IfOk, OnOk, OnErr};
ghost use Rattle.history_keeper.specs.declared.row.Row.{Row};
ghost use Rattle.history_keeper.specs.Changes.{AddsNone, changed};
ghost use Rattle.history_keeper.specs.Keepers.{Committed, Reopened, StillTold};

use history_keeper::{Change, Keeper, KeeperRefusal, MemoryKeeper, Row};
use std::alloc::Global;
use std::marker::Model;

/// Rows in memory, of which no call fails: only memory may be wanting. So it is never in doubt, and there is
/// no fault to count.
#[derive(Drop)]
pub(crate) struct OwnKeeper {
    memory: MemoryKeeper,
}

impl Model for OwnKeeper {
    ghost use Rattle.std.specs.Prelude.{◌≡◌, List, [], None};
    ghost use Rattle.history_keeper.specs.declared.row.Row.{Row};

    ghost Value = { List Row };

    ghost view = { λ s. s.memory.rows };

    ghost invariant = { λ s. (s.memory.plan ≡ []) × (s.memory.doubt ≡ None) };
}

impl OwnKeeper {
    /// A keeper without rows.
    pub(crate) fn new(alloc: Global) -> OwnKeeper
        ensures { result ≡ [] }
    {
        OwnKeeper {
            memory: MemoryKeeper::new(Vec::new(alloc), Vec::new(alloc)),
        }
    }
}

impl Keeper for OwnKeeper {
    ghost use Rattle.std.specs.Prelude.{◌≡◌, None};
    ghost use Rattle.history_keeper.specs.Changes.{AddsNone};

    ghost tells = { λ rows all. rows ≡ all };

    ghost settled = { λ first now. now ≡ first };

    ghost doubt = { λ _. None };

    ghost faults = { λ _. 0 };

    ghost takes_none = { AddsNone };

    fn load(&mut self, alloc: Global) -> Result<Vec<Row>, KeeperRefusal>
        ensures loaded { IfOk result (λ loaded. loaded.items ≡ self.old) }
        ensures answer { IfOk result (λ loaded. (all : List Row) → self.new ≡ all → loaded.items ≡ all) }
        ensures unchanged { self.new ≡ self.old }
        ensures told { StillTold (λ all. self.old ≡ all) (λ all. self.new ≡ all) }
        ensures no_fault { result ≢ Err KeeperRefusal.Fault }
    {
        self.memory.load(alloc)
    }

    fn commit(&mut self, change: &Change) -> Result<(), KeeperRefusal>
        ensures made { OnOk result (self.new ≡ changed change.now self.old) }
        ensures refused { OnErr result (self.new ≡ self.old) }
        ensures committed { Committed change.now result (λ all. self.old ≡ all) (λ all. self.new ≡ all) None }
        ensures no_fault { result ≢ Err KeeperRefusal.Fault }
        ensures takes_none { AddsNone change.now → result ≢ Err KeeperRefusal.NoMemory }
    {
        self.memory.commit(change)
    }

    fn reopen(&mut self) -> Result<(), KeeperRefusal>
        ensures unchanged { self.new ≡ self.old }
        ensures reopened { Reopened result (λ all. self.old ≡ all) None (λ all. self.new ≡ all) None }
        ensures no_fault { result ≢ Err KeeperRefusal.Fault }
    {
        self.memory.reopen()
    }
}
