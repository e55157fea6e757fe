//! Who keeps the marks.
ghost use Rattle.std.specs.Prelude.{◌≡◌, ◌≤◌, ◌⊎◌, ℕ, List, Option, Contains, IfOk};
ghost use Rattle.outer_traits.specs.Faults.{Rose};
ghost use Rattle.report_queue.specs.Marking.{Marked, MarksStay, Reopened};

use history_keeper::KeeperRefusal;
use std::alloc::Global;

/// Keeps the entries that are marked as reported. After a mark that failed, its entry is in doubt until the keeper was
/// reopened.
///
/// What is said of its marks is said of those that it tells after a call: then it told marks before the call too, and
/// the call did to them what the clause says.
pub trait MarkKeeper {
    /// That it tells these marked entries, in the order of their marks: its store is trusted to hold them. So it is
    /// while the store gave back what was written and nobody else wrote it. In memory that is always so, and the
    /// entries are those that it has.
    ghost tells: { Self → List ℕ → Type 0 };

    /// The entry of a mark that failed, until the keeper was reopened.
    ghost doubt: { Self → Option ℕ };

    /// How often it failed, up to 2^64 - 1.
    ghost faults: { Self → ℕ };

    /// Gives the marked entries.
    fn load(&mut self, alloc: Global) -> Result<Vec<u32>, KeeperRefusal>
        requires { doubt self.old ≡ None }
        ensures answer { IfOk result (λ loaded. (all : List ℕ) → tells self.new all → loaded.items ≡ all) }
        ensures unchanged { MarksStay (tells self.old) (tells self.new) }
        ensures no_doubt { doubt self.new ≡ None }
        ensures cause { result ≡ Err KeeperRefusal.Fault → Rose (faults self.old) (faults self.new) }
        ensures quiet { (result ≡ Err KeeperRefusal.Fault) ⊎ (faults self.new ≡ faults self.old) }
        ensures counts { faults self.old ≤ faults self.new };

    /// Marks the entry. A fault leaves the mark in doubt, and want of memory changes nothing.
    fn mark(&mut self, entry: u32) -> Result<(), KeeperRefusal>
        requires no_doubt { doubt self.old ≡ None }
        requires unmarked { (all : List ℕ) → tells self.old all → Contains all entry → ⊥ }
        ensures marked { Marked entry result (tells self.old) (tells self.new) (doubt self.new) }
        ensures cause { result ≡ Err KeeperRefusal.Fault → Rose (faults self.old) (faults self.new) }
        ensures quiet { (result ≡ Err KeeperRefusal.Fault) ⊎ (faults self.new ≡ faults self.old) }
        ensures counts { faults self.old ≤ faults self.new };

    /// Ends the doubt: afterwards the doubtful mark is made or lost for good. A refusal changes
    /// nothing.
    fn reopen(&mut self) -> Result<(), KeeperRefusal>
        ensures reopened { Reopened result (tells self.old) (doubt self.old) (tells self.new) (doubt self.new) }
        ensures cause { result ≡ Err KeeperRefusal.Fault → Rose (faults self.old) (faults self.new) }
        ensures quiet { (result ≡ Err KeeperRefusal.Fault) ⊎ (faults self.new ≡ faults self.old) }
        ensures counts { faults self.old ≤ faults self.new };

    /// It tells one list at a time.
    ghost one_list: { (s : Self) (one other : List ℕ) → tells s one → tells s other → one ≡ other };
}
