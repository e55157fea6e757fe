//! A keeper of marks in memory.
ghost use Rattle.std.specs.Prelude.{◌≡◌, ◌≤◌, ◌⊎◌, ◌↔◌, ◌==◌, ◌++◌, ◌∷◌, [], ℕ, List, find, IsSome, IfSome, OnOk, OnErr, IfOk};
ghost use Rattle.std.specs.Option.{option_copied};
ghost use Rattle.report_queue.specs.Marking.{Marked, MarksStay, Reopened};
ghost use Rattle.report_queue.specs.Memories.{unused, planned, kept, doubtful, after_call, after_fault, has_marks};

use crate::mark_keeper::MarkKeeper;
use fw_base::NoMemory;
use history_keeper::{KeeperPlan, KeeperRefusal};
use std::alloc::Global;
use std::marker::Model;

/// An entry whose mark failed, and whether it is marked after the next reopening.
#[derive(Clone, Copy, Debug)]
pub struct DoubtfulMark {
    pub entry: u32,
    pub keep: bool,
}

/// Marks in memory. It always tells them, and it fails at the calls that were planned.
#[derive(Drop)]
pub struct MemoryMarks {
    marks: Vec<u32>,
    doubt: Option<DoubtfulMark>,
    plan: Vec<KeeperPlan>,
    calls: u64,
    faults: u64,
}

impl Model for MemoryMarks {
    ghost use Rattle.report_queue.specs.Memories.{MarkMemory};

    ghost Value = { MarkMemory };

    ghost view = { λ s. record { marks = s.marks.items; doubt = s.doubt; plan = s.plan.items; calls = s.calls; faults = s.faults } };
}

impl MemoryMarks {
    /// A keeper of these marks, whose planned calls fail, counted from 1 over all three calls. Of two
    /// plans for one call the first counts. Where it is a mark, its plan tells whether the entry is
    /// marked after the next reopening.
    pub fn new(marks: Vec<u32>, plan: Vec<KeeperPlan>) -> MemoryMarks
        ensures { result ≡ unused marks.items plan.items }
    {
        MemoryMarks {
            marks,
            doubt: None,
            plan,
            calls: 0,
            faults: 0,
        }
    }

    /// The marked entries as they are now, without a doubtful one.
    pub fn marks(&self) -> &[u32]
        ensures { result.now ≡ self.now.marks }
    {
        &self.marks
    }

    /// How many calls there were that did not want for memory.
    pub fn calls(&self) -> u64
        ensures { result ≡ self.now.calls }
    {
        self.calls
    }

    // What is planned for the next call.
    fn planned(&self) -> Option<KeeperPlan>
        ensures { result ≡ planned self.now }
    {
        plan_of(&self.plan, self.calls.saturating_add(1))
    }

    fn count_call(&mut self)
        ensures { self.new ≡ after_call self.old }
    {
        self.calls = self.calls.saturating_add(1);
    }

    fn count_fault(&mut self)
        ensures counted { self.new ≡ after_fault self.old }
        ensures no_fall { self.old.faults ≤ self.new.faults }
    {
        self.calls = self.calls.saturating_add(1);
        self.faults = self.faults.saturating_add(1);
    }
}

impl MarkKeeper for MemoryMarks {
    ghost use Rattle.std.proofs.Common.{◌∙◌, sym};
    ghost use Rattle.report_queue.specs.Memories.{doubtful, has_marks};

    ghost tells = { has_marks };

    ghost one_list = { λ s one other told also. sym told ∙ also };

    ghost doubt = { doubtful };

    ghost faults = { λ s. s.faults };

    fn load(&mut self, alloc: Global) -> Result<Vec<u32>, KeeperRefusal>
        requires { doubtful self.old ≡ None }
        ensures fails { (result ≡ Err KeeperRefusal.Fault) ↔ IsSome (planned self.old) }
        ensures fault { result ≡ Err KeeperRefusal.Fault → self.new ≡ after_fault self.old }
        ensures no_memory { result ≡ Err KeeperRefusal.NoMemory → self.new ≡ self.old }
        ensures loaded { IfOk result (λ marks. (marks.items ≡ self.old.marks) × (self.new ≡ after_call self.old)) }

        ensures answer { IfOk result (λ loaded. (all : List ℕ) → has_marks self.new all → loaded.items ≡ all) }
        ensures unchanged { self.new.marks ≡ self.old.marks }
        ensures told { MarksStay (has_marks self.old) (has_marks self.new) }
        ensures no_doubt { doubtful self.new ≡ None }
        ensures quiet { (result ≡ Err KeeperRefusal.Fault) ⊎ (self.new.faults ≡ self.old.faults) }
        ensures counts { self.old.faults ≤ self.new.faults }
    {
        if self.planned().is_some() {
            self.count_fault();
            return Err(KeeperRefusal::Fault);
        }
        let marks = copied(alloc, &self.marks)?;
        self.count_call();
        Ok(marks)
    }

    fn mark(&mut self, entry: u32) -> Result<(), KeeperRefusal>
        requires { doubtful self.old ≡ None }
        ensures fails { (result ≡ Err KeeperRefusal.Fault) ↔ IsSome (planned self.old) }
        ensures fault { IfSome (planned self.old) (λ plan. self.new ≡ record (after_fault self.old) { doubt = Some (record { entry = entry; keep = plan.keep }) }) }
        ensures no_memory { result ≡ Err KeeperRefusal.NoMemory → self.new ≡ self.old }
        ensures made { OnOk result (self.new ≡ record (after_call self.old) { marks = self.old.marks ++ entry ∷ [] }) }

        ensures marked { Marked entry result (has_marks self.old) (has_marks self.new) (doubtful self.new) }
        ensures quiet { (result ≡ Err KeeperRefusal.Fault) ⊎ (self.new.faults ≡ self.old.faults) }
        ensures counts { self.old.faults ≤ self.new.faults }
    {
        if let Some(plan) = self.planned() {
            self.count_fault();
            self.doubt = Some(DoubtfulMark {
                entry,
                keep: plan.keep,
            });
            return Err(KeeperRefusal::Fault);
        }
        push(&mut self.marks, entry)?;
        self.count_call();
        Ok(())
    }

    fn reopen(&mut self) -> Result<(), KeeperRefusal>
        ensures fails { (result ≡ Err KeeperRefusal.Fault) ↔ IsSome (planned self.old) }
        ensures fault { result ≡ Err KeeperRefusal.Fault → self.new ≡ after_fault self.old }
        ensures no_memory { result ≡ Err KeeperRefusal.NoMemory → self.new ≡ self.old }
        ensures settled { OnOk result (self.new ≡ record (after_call self.old) { marks = kept self.old.doubt self.old.marks; doubt = None }) }

        ensures reopened { Reopened result (has_marks self.old) (doubtful self.old) (has_marks self.new) (doubtful self.new) }
        ensures quiet { (result ≡ Err KeeperRefusal.Fault) ⊎ (self.new.faults ≡ self.old.faults) }
        ensures counts { self.old.faults ≤ self.new.faults }
    {
        if self.planned().is_some() {
            self.count_fault();
            return Err(KeeperRefusal::Fault);
        }
        keep(&mut self.marks, &self.doubt)?;
        self.doubt = None;
        self.count_call();
        Ok(())
    }
}

// The first plan for the call of that number.
fn plan_of(plan: &[KeeperPlan], number: u64) -> Option<KeeperPlan>
    ensures { result ≡ find (λ plan. plan.call == number) plan.now }
{
    match first_of(plan, number) {
        Some(plan) => Some(*plan),
        None => None,
    }
}

fn first_of(plan: &[KeeperPlan], number: u64) -> Option<&KeeperPlan>
    ensures { option_copied result ≡ find (λ plan. plan.call == number) plan.now }
{
    plan.iter().find(|plan| plan.call as u64 == number)
}

// The marks once more.
fn copied(alloc: Global, marks: &[u32]) -> Result<Vec<u32>, NoMemory>
    ensures { IfOk result (λ copy. copy.items ≡ marks.now) }
{
    Ok(marks.to_vec(alloc)?)
}

fn push(marks: &mut Vec<u32>, entry: u32) -> Result<(), NoMemory>
    ensures added { OnOk result (marks.new.items ≡ marks.old.items ++ entry ∷ []) }
    ensures unchanged { OnErr result (marks.new.items ≡ marks.old.items) }
{
    marks.push(entry)?;
    Ok(())
}

// Makes the doubtful mark, where the plan keeps it.
fn keep(marks: &mut Vec<u32>, doubt: &Option<DoubtfulMark>) -> Result<(), NoMemory>
    ensures kept { OnOk result (marks.new.items ≡ kept doubt.now marks.old.items) }
    ensures unchanged { OnErr result (marks.new.items ≡ marks.old.items) }
{
    match doubt {
        Some(doubt) if doubt.keep => push(marks, doubt.entry),
        _ => Ok(()),
    }
}
