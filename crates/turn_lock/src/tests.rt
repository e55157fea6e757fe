// What no clause says: that the calls succeed and return, on one thread and on several.
ghost use Rattle.std.specs.Prelude.{◌≡◌, ◌++◌, ◌∷◌, [], All, IfOk, OnErr, length};
ghost use Rattle.turn_lock.specs.declared.tests.Count.{Count};
ghost use Rattle.turn_lock.specs.Shown.{PassView, IsReady};

use crate::{Chronicle, Pass, Refused, TurnLock};
use std::alloc::{AllocError, Global};
use std::sync::Wait;
use std::test::Fail;
use std::thread;
use std::thread::Threads;

#[derive(Clone, Copy, Debug, PartialEq)]
struct Count {
    pass: u32,
    count: u32,
}

struct Counts {
    items: Vec<Count>,
}

impl Chronicle for Counts {
    type Entry = Count;

    ghost entries = { λ c. c.items.items };

    ghost by = { λ e. e.pass };
}

impl Counts {
    fn add(&mut self, pass: u32, count: u32) -> Result<(), AllocError>
        ensures added { IfOk result (λ _. self.new.items.items ≡ self.old.items.items ++ record { pass = pass; count = count } ∷ []) }
        ensures same { OnErr result (self.new.items.items ≡ self.old.items.items) }
    {
        self.items.push(Count { pass, count })?;
        Ok(())
    }
}

// One turn, in which the pass adds an entry if there is memory.
fn count_one<R: Wait>(
    rt: &R,
    lock: &TurnLock<Counts>,
    pass: &mut Pass<Count>,
    count: u32,
) -> Result<(), AllocError>
    requires { IsReady lock.now.id pass.old }
    ensures ready { IsReady lock.now.id pass.new }
    ensures added { IfOk result (λ _. pass.new.mine ≡ pass.old.mine ++ record { pass = pass.old.number; count = count } ∷ []) }
    ensures same { OnErr result (pass.new.mine ≡ pass.old.mine) }
{
    let mut turn = lock.enter(rt, pass);
    let added = turn.state().add(pass.number(), count);
    lock.leave(turn, pass);
    added
}

fn count_up<R: Wait>(rt: &R, lock: &TurnLock<Counts>, pass: &mut Pass<Count>)
    requires { IsReady lock.now.id pass.old }
    ensures { IsReady lock.now.id pass.new }
{
    for count in 0..100 {
        let _ = count_one(rt, lock, pass, count);
    }
}

fn count_up_at_once<R: Threads + Wait + Sync>(
    rt: &R,
    lock: &TurnLock<Counts>,
    passes: &mut [Pass<Count>],
)
    requires { All (IsReady lock.now.id) passes.old }
    ensures { All (IsReady lock.now.id) passes.new }
{
    thread::for_each_mut(rt, passes, 20, &|_, pass| count_up(rt, lock, pass));
}

// Lets the passes count at the same time, each on a thread.
fn count_together<R: Threads + Wait + Sync>(
    rt: &R,
    lock: &TurnLock<Counts>,
    passes: &mut Vec<Pass<Count>>,
)
    requires { All (IsReady lock.now.id) passes.old.items }
    ensures count { length passes.new.items ≡ length passes.old.items }
    ensures ready { All (IsReady lock.now.id) passes.new.items }
{
    count_up_at_once(rt, lock, passes.as_mut_slice());
}

fn no_counts(alloc: Global) -> Counts
    ensures { result.items.items ≡ [] }
{
    Counts {
        items: Vec::new(alloc),
    }
}

fn items_of(refused: Refused<Counts>) -> Vec<Count>
    ensures { result.items ≡ refused.value.items.items }
{
    let Refused { value } = refused;
    let Counts { items } = value;
    items
}

// The closed list of twenty passes that counted on twenty threads: more than the lock has bells.
fn twenty_count<R: Threads + Wait + Sync>(rt: &R, alloc: Global) -> Option<Vec<Count>> {
    match TurnLock::new(alloc, no_counts(alloc), 20, 4) {
        Ok((lock, mut passes)) => {
            count_together(rt, &lock, &mut passes);
            let Counts { items } = lock.close(passes);
            Some(items)
        }
        Err(refused) => {
            drop(items_of(refused));
            None
        }
    }
}

#[test]
fn passes_on_twenty_threads_keep_their_order(rt: HostRuntime) -> Result<(), Fail> {
    let items = twenty_count(&rt, rt.alloc()).ok_or("no memory")?;
    assert_eq!(rt; items.len(), 2000);
    for pass in 0..20 {
        let mut next = 0;
        for item in items.iter().filter(|item| item.pass == pass) {
            assert_eq!(rt; item.count, next, "of pass {pass}");
            next = item.count.wrapping_add(1);
        }
        assert_eq!(rt; next, 100, "entries of pass {pass}");
    }
    Ok(())
}

// What comes back of a lock with one seat and no turn, or of one for which there was no memory.
fn closed_at_once(alloc: Global, value: Counts) -> Vec<Count>
    ensures { value.items.items ≡ result.items }
{
    match TurnLock::new(alloc, value, 1, 4) {
        Ok((lock, passes)) => {
            let Counts { items } = lock.close(passes);
            items
        }
        Err(refused) => items_of(refused),
    }
}

// It passes too where one of the allocations of `new` fails: with `--fail-alloc` 2 to 6.
#[test]
fn one_seat_and_no_turn_closes_with_the_value(rt: HostRuntime) -> Result<(), Fail> {
    let mut value = no_counts(rt.alloc());
    let began = value.add(7, 7);
    let items = closed_at_once(rt.alloc(), value);
    began?;
    assert_eq!(rt; items.as_slice(), [Count { pass: 7, count: 7 }].as_slice());
    Ok(())
}

// A turn in which the pass only looks.
fn look_on<R: Wait>(rt: &R, lock: &TurnLock<Counts>, pass: &mut Pass<Count>) -> usize
    requires { IsReady lock.now.id pass.old }
    ensures ready { IsReady lock.now.id pass.new }
    ensures mine { pass.new.mine ≡ pass.old.mine }
    ensures length { result ≡ length pass.new.seen }
{
    let mut turn = lock.enter(rt, pass);
    let count = turn.state().items.len();
    lock.leave(turn, pass);
    count
}

// Two passes on one thread: the second sees what the first added, and adds nothing.
fn one_counts_and_one_looks<R: Wait>(rt: &R, alloc: Global) -> Option<(usize, Vec<Count>)> {
    match TurnLock::new(alloc, no_counts(alloc), 2, 4) {
        Ok((lock, mut passes)) => {
            let added = count_one(rt, &lock, &mut passes[0], 5);
            let seen = look_on(rt, &lock, &mut passes[1]);
            let Counts { items } = lock.close(passes);
            added.ok()?;
            Some((seen, items))
        }
        Err(refused) => {
            drop(items_of(refused));
            None
        }
    }
}

#[test]
fn a_turn_that_adds_nothing_leaves_the_list(rt: HostRuntime) -> Result<(), Fail> {
    let (seen, items) = one_counts_and_one_looks(&rt, rt.alloc()).ok_or("no memory")?;
    assert_eq!(rt; seen, 1);
    assert_eq!(rt; items.as_slice(), [Count { pass: 0, count: 5 }].as_slice());
    Ok(())
}
