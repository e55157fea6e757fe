//! A day of a daemon that no client calls: it resumes a row that was put off, and judges.
ghost use Rattle.std.specs.Prelude.{◌≡◌, All, length, map, option_map, Some, IsSome};
ghost use Rattle.std.specs.List.{range_with_len};
ghost use Rattle.history_keeper.specs.declared.row.RowState.{RowState};
ghost use Rattle.history_keeper.specs.Signs.{signs_of};
ghost use Rattle.update_log.specs.Known.{row_of};
ghost use Rattle.turn_lock.specs.Shown.{IsFresh};
ghost use Rattle.shared_daemon.specs.Closings.{IsFreePass};
ghost use Rattle.shared_daemon.specs.Entries.{chronicle};
ghost use Rattle.shared_daemon.specs.Names.{HasNothing, IsPass, KeepsName};
ghost use Rattle.daemon_tasks.specs.Begins.{CanBegin};
ghost use Rattle.shared_daemon_tests.specs.Waits.{HasRow, IsPutOff};

use crate::clients::run;
use crate::own_turns::{ask_pending_held, judge, resume_taken};
use daemon_core::{Finished, House, HouseParts, Judged};
use history_keeper::{Keeper, Row, RowState};
use outer_traits::{Gate, MemoryShelf};
use plugin_trait::Plugin;
use shared_daemon::{Daemon, Naming, Pass};
use std::alloc::Global;
use std::marker::Brand;
use std::process::Abort;
use std::sync::Wait;
use update_log::Log;

/// What the daemon is to do, and what it works with.
#[derive(Drop)]
pub struct Tasks<'a, G> {
    /// The entry whose install was put off. It is judged at the end.
    pub put_off: u32,
    /// The entry whose write was begun in an earlier boot.
    pub begun: u32,
    pub plugins: &'a [Box<dyn Plugin>],
    pub gate: &'a G,
}

/// What the daemon was answered.
#[derive(Clone, Copy, Debug)]
pub struct Answers {
    pub finished: Finished,
    /// Of the row that was begun.
    pub judged: Judged,
    /// Of the row that was finished.
    pub again: Judged,
}

/// What is left of the day.
#[derive(Drop)]
pub struct Evening<K> {
    pub answers: Answers,
    pub log: Log,
    pub keeper: K,
}

fn own_turns<R: Abort + Wait, K: Keeper, N: Naming, G: Gate>(
    rt: &R,
    daemon: &Daemon<K, N>,
    own: &mut Pass,
    shelf: &mut MemoryShelf,
    tasks: &Tasks<G>,
) -> Answers
    requires pass { IsPass daemon.now.id N.name own.old }
    requires own { own.old.number ≡ 0 }
    requires free { IsFreePass own.old }
    requires fresh { IsFresh N.name.start own.old }
    requires put_off { IsPutOff N.name tasks.now.put_off N.name.start }
    requires begun { HasRow N.name tasks.now.begun N.name.start }
    ensures pass { IsPass daemon.now.id N.name own.new }
    ensures same { own.new.number ≡ own.old.number }
    ensures free { IsFreePass own.new }
{
    let hold = ask_pending_held(rt, daemon, own, tasks.put_off);
    let taken = resume_taken(rt, daemon, own, tasks.put_off, shelf, hold);
    let finished = run(rt, daemon, own, taken, tasks.plugins, tasks.gate);
    let judged = judge(rt, daemon, own, tasks.begun);
    let again = judge(rt, daemon, own, tasks.put_off);
    Answers {
        finished,
        judged,
        again,
    }
}

/// Takes the daemon's own pass, which is the only one, and puts it back.
fn play<R: Abort + Wait, K: Keeper, N: Naming, G: Gate>(
    rt: &R,
    daemon: &Daemon<K, N>,
    passes: &mut Vec<Pass>,
    shelf: &mut MemoryShelf,
    tasks: &Tasks<G>,
) -> Answers
    requires passes { All (IsPass daemon.now.id N.name) passes.old.items }
    requires free { All IsFreePass passes.old.items }
    requires fresh { All (IsFresh N.name.start) passes.old.items }
    requires put_off { IsPutOff N.name tasks.now.put_off N.name.start }
    requires begun { HasRow N.name tasks.now.begun N.name.start }
    ensures numbers { map (λ p. p.number) passes.new.items ≡ map (λ p. p.number) passes.old.items }
    ensures passes { All (IsPass daemon.now.id N.name) passes.new.items }
    ensures free { All IsFreePass passes.new.items }
{
    let Some(mut own) = passes.pop() else {
        panic!(rt; "no pass")
    };
    assert!(rt; own.number() == 0);
    let answers = own_turns(rt, daemon, &mut own, shelf, tasks);
    if passes.push(own).is_err() {
        panic!(rt; "no memory");
    }
    answers
}

/// A day of a daemon round this house.
fn day<R: Abort + Wait, K: Keeper, N: Naming, G: Gate>(
    rt: &R,
    alloc: Global,
    house: House<K>,
    shelf: &mut MemoryShelf,
    tasks: &Tasks<G>,
) -> Evening<K>
    requires name { KeepsName (signs_of K.tells K.doubt K.faults) N.name house }
    requires start { chronicle house ≡ N.name.start }
    requires nothing { HasNothing (chronicle house) }
    requires put_off { IsPutOff N.name tasks.now.put_off N.name.start }
    requires begun { HasRow N.name tasks.now.begun N.name.start }
{
    match Daemon::<K, N>::begin(alloc, house, 0, 1) {
        Ok((daemon, mut passes)) => {
            let answers = play(rt, &daemon, &mut passes, shelf, tasks);
            let house = daemon.close(passes);
            house.known();
            let HouseParts {
                facts: _,
                log,
                boards: _,
                keeper,
                opening: _,
            } = house.into_parts();
            Evening {
                answers,
                log,
                keeper,
            }
        }
        Err(_refused) => panic!(rt; "no memory"),
    }
}

/// The state of an entry's row, if it has one.
fn state_of(rows: &[Row], entry: u32) -> Option<RowState>
    ensures { result ≡ option_map (λ row. row.state) (row_of rows.now entry) }
{
    rows.iter()
        .find(|row| row.entry == entry)
        .map(|row| row.state)
}

/// A day of a daemon round a house that was booted, in which the rows stand as the tasks say.
pub fn own_day<R: Abort + Wait, K: Keeper, G: Gate>(
    rt: &R,
    alloc: Global,
    house: House<K>,
    shelf: &mut MemoryShelf,
    tasks: &Tasks<G>,
) -> Evening<K>
    requires { CanBegin (signs_of K.tells K.doubt K.faults) house }
{
    let Some(RowState::Pending) = state_of(house.rows(), tasks.put_off) else {
        panic!(rt; "not put off")
    };
    let Some(RowState::Begun) = state_of(house.rows(), tasks.begun) else {
        panic!(rt; "not begun")
    };
    house.known();
    day::<R, K, Brand, G>(rt, alloc, house, shelf, tasks)
}
