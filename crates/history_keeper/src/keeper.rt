//! Who keeps the rows.
ghost use Rattle.std.specs.Prelude.{◌≡◌, ◌≢◌, ◌≤◌, ◌⊎◌, ℕ, List, Option, IfOk, OnErr, OnOk};
ghost use Rattle.outer_traits.specs.Faults.{Rose};
ghost use Rattle.history_keeper.specs.declared.row.Row.{Row};
ghost use Rattle.history_keeper.specs.declared.change.Change.{Change};
ghost use Rattle.history_keeper.specs.Changes.{Suits, IsTimely};
ghost use Rattle.history_keeper.specs.Keepers.{Committed, Reopened, StillSettled, StillTold};

use crate::change::Change;
use crate::refusal::KeeperRefusal;
use crate::row::Row;
use std::alloc::Global;

/// Keeps the rows of the history. After a commit that failed, its change is in doubt until the keeper was
/// reopened.
///
/// What is said of its rows is said of those that it tells after a call: then it told rows before the call
/// too, and the call did to them what the clause says.
pub trait Keeper {
    /// That it tells these rows: its store is trusted to hold them. So it is while the store gave back what
    /// was written and nobody else wrote it. In memory that is always so, and the rows are those that it has.
    ghost tells: { Self → List Row → Type 0 };

    /// The change of a commit that failed, until the keeper was reopened.
    ghost doubt: { Self → Option Change };

    /// How often it failed, up to 2^64 - 1.
    ghost faults: { Self → ℕ };

    /// The changes that it makes without memory.
    ghost takes_none: { Change → Type 0 };

    /// That the second is what a reopening made of the first: the doubtful change of the first was made or
    /// lost, and no change was made since.
    ghost settled: { Self → Self → Type 0 };

    /// Gives the rows.
    fn load(&mut self, alloc: Global) -> Result<Vec<Row>, KeeperRefusal>
        requires { doubt self.old ≡ None }
        ensures answer { IfOk result (λ loaded. (all : List Row) → tells self.new all → loaded.items ≡ all) }
        ensures unchanged { StillTold (tells self.old) (tells self.new) }
        ensures no_doubt { doubt self.new ≡ None }
        ensures settled { StillSettled settled self.old self.new }
        ensures cause { result ≡ Err KeeperRefusal.Fault → Rose (faults self.old) (faults self.new) }
        ensures quiet { (result ≡ Err KeeperRefusal.Fault) ⊎ (faults self.new ≡ faults self.old) }
        ensures counts { faults self.old ≤ faults self.new };

    /// Makes the change. A fault leaves it in doubt, and want of memory changes nothing.
    fn commit(&mut self, change: &Change) -> Result<(), KeeperRefusal>
        requires no_doubt { doubt self.old ≡ None }
        requires suits { (all : List Row) → tells self.old all → Suits change.now all }
        requires timely { IsTimely change.now }
        ensures committed { Committed change.now result (tells self.old) (tells self.new) (doubt self.new) }
        ensures takes_none { takes_none change.now → result ≢ Err KeeperRefusal.NoMemory }
        ensures cause { result ≡ Err KeeperRefusal.Fault → Rose (faults self.old) (faults self.new) }
        ensures quiet { (result ≡ Err KeeperRefusal.Fault) ⊎ (faults self.new ≡ faults self.old) }
        ensures counts { faults self.old ≤ faults self.new };

    /// Ends the doubt: afterwards the doubtful change is made or lost for good. A refusal changes
    /// nothing.
    fn reopen(&mut self) -> Result<(), KeeperRefusal>
        ensures reopened { Reopened result (tells self.old) (doubt self.old) (tells self.new) (doubt self.new) }
        ensures settles { OnOk result (settled self.old self.new) }
        ensures settled { OnErr result (StillSettled settled self.old self.new) }
        ensures cause { result ≡ Err KeeperRefusal.Fault → Rose (faults self.old) (faults self.new) }
        ensures quiet { (result ≡ Err KeeperRefusal.Fault) ⊎ (faults self.new ≡ faults self.old) }
        ensures counts { faults self.old ≤ faults self.new };
}
