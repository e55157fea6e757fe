//! Changes of the rows that the keeper is to make.
ghost use Rattle.std.specs.Prelude.{◌≡◌, ◌≢◌, ◌≤◌, ◌⊎◌, List, None};
ghost use Rattle.history_keeper.specs.declared.row.Row.{Row};
ghost use Rattle.outer_traits.specs.Faults.{Rose};
ghost use Rattle.history_keeper.specs.Changes.{IsTimely, Suits};
ghost use Rattle.daemon_core.specs.Commits.{StoredAs};

use history_keeper::{Change, Keeper, KeeperRefusal};
use update_log::Stored;

/// Lets the keeper make a change, and says what became of it. A fault leaves it in doubt, and want of
/// memory changes nothing.
pub(crate) fn commit<K: Keeper>(keeper: &mut K, change: &Change) -> Stored
    requires no_doubt { K.doubt keeper.old ≡ None }
    requires suits { (all : List Row) → K.tells keeper.old all → Suits change.now all }
    requires timely { IsTimely change.now }
    ensures stored { StoredAs change.now result (K.tells keeper.old) (K.tells keeper.new) (K.doubt keeper.new) }
    ensures takes_none { K.takes_none change.now → result ≢ Stored.NoMemory }
    ensures cause { result ≡ Stored.Fault → Rose (K.faults keeper.old) (K.faults keeper.new) }
    ensures quiet { (result ≡ Stored.Fault) ⊎ (K.faults keeper.new ≡ K.faults keeper.old) }
    ensures counts { K.faults keeper.old ≤ K.faults keeper.new }
{
    match keeper.commit(change) {
        Ok(()) => Stored::Yes,
        Err(KeeperRefusal::Fault) => Stored::Fault,
        Err(KeeperRefusal::NoMemory) => Stored::NoMemory,
    }
}
