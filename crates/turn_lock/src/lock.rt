//! The lock.
ghost use Rattle.std.specs.Prelude.{◌≡◌, ◌++◌, ◌<◌, ◌≤◌, All, length, map, drop, IfOk, IfErr};
ghost use Rattle.std.specs.List.{range_with_len};
ghost use Rattle.turn_lock.specs.Lists.{AddsAtMostOne, BeginsWith, beyond, made_by};
ghost use Rattle.turn_lock.specs.Shown.{IsReady, IsFresh, IsTurnOf, HasItsEntries};

use crate::boxed::Boxed;
use crate::chronicle::Chronicle;
use crate::closing::gather;
use crate::opening::{OwnTable, Refused, lay_boxed, make_passes};
use crate::pass::Pass;
use crate::steps::{VALUE, draw, pass_on, put, take};
use crate::turn::Turn;
use crate::waiting::{awake_beside, call_next, wait_for};
use std::alloc::Global;
use std::marker::Model;
use std::sync::Wait;

/// A ticket lock round one value. It can't be dropped: `close` ends it.
/// Contracts see which lock it is, how many passes it has, and the list that its value stood for
/// when it was made.
pub struct TurnLock<V: Chronicle> {
    table: OwnTable<Boxed<V>>,
    seats: u32,
    ahead: u32,
}

impl<V: Chronicle> Model for TurnLock<V> {
    ghost use Rattle.turn_lock.specs.Shown.{LockView, lock_code};

    ghost Value = { LockView V.Entry };

    ghost coded = { lock_code V.Entry.code };

    ghost use Rattle.turn_lock.specs.Fields.{lock_view, IsLock};

    ghost view = { λ l. lock_view l.table.shared.table_id (V.entries l.table.shared.key.value.value.held.value) l.seats };

    ghost invariant = { λ l. IsLock l.table.shared.table_id l.table.shared.key.seats l.seats };
}

impl<V: Chronicle> TurnLock<V> {
    /// A lock round the value, and its passes, which are numbered from 0. Of those in line for a
    /// turn no more are awake than there are processors, which is told once.
    /// No other call takes memory. `Refused` is want of memory, and hands the value back.
    pub fn new(
        alloc: Global,
        value: V,
        seats: u32,
        processors: u32,
    ) -> Result<(TurnLock<V>, Vec<Pass<V::Entry>>), Refused<V>>
        requires seats { 1 ≤ seats }

        ensures seats { IfOk result (λ made. made.0.seats ≡ seats) }
        ensures start { IfOk result (λ made. made.0.start ≡ V.entries value) }

        // the passes
        ensures numbers { IfOk result (λ made. map (λ p. p.number) made.1.items ≡ range_with_len 0 seats) }
        ensures ready { IfOk result (λ made. All (IsReady made.0.id) made.1.items) }
        ensures fresh { IfOk result (λ made. All (IsFresh (V.entries value)) made.1.items) }

        ensures refused { IfErr result (λ refused. refused.value ≡ value) }
    {
        let Ok(mut passes) = Vec::with_capacity(alloc, seats as usize) else {
            return Err(Refused { value });
        };
        let (table, opener) = lay_boxed(alloc, value, seats)?;
        make_passes(&table.shared, opener, &mut passes, seats);
        let ahead = awake_beside(processors);
        Ok((
            TurnLock {
                table,
                seats,
                ahead,
            },
            passes,
        ))
    }

    /// Waits until it is the pass's turn. No clause says that it comes.
    pub fn enter<R: Wait>(&self, rt: &R, pass: &mut Pass<V::Entry>) -> Turn<V>
        requires ready { IsReady self.now.id pass.old }

        ensures same { pass.new.number ≡ pass.old.number }
        ensures turn { IsTurnOf self.now.id pass.new result }
        ensures known { (result.base ≡ pass.old.base) × (result.mine ≡ pass.old.mine) }

        // the list as the turn begins
        ensures list { result.seen ≡ V.entries result.value }
        ensures begins { BeginsWith result.seen pass.old.seen }
        ensures mine { result.mine ≡ made_by V.by result.number (drop result.base result.seen) }
    {
        let mut seat = pass.lend();
        let ticket = draw(&self.table.shared, &mut seat);
        wait_for(rt, &self.table.shared, &mut seat, ticket, self.ahead);
        let boxed = take(&self.table.shared, &mut seat);
        Turn { boxed, seat }
    }

    /// Ends the turn that this lock gave the pass. The value may have gained one entry of the pass.
    /// It waits for nobody.
    pub fn leave(&self, turn: Turn<V>, pass: &mut Pass<V::Entry>)
        requires turn { IsTurnOf self.now.id pass.old turn }
        requires adds { AddsAtMostOne V.by turn.number turn.seen (V.entries turn.value) }

        ensures ready { IsReady self.now.id pass.new }
        ensures same { (pass.new.number ≡ pass.old.number) × (pass.new.base ≡ turn.base) }
        ensures seen { pass.new.seen ≡ V.entries turn.value }
        ensures mine { pass.new.mine ≡ turn.mine ++ beyond turn.seen (V.entries turn.value) }
    {
        let Turn { boxed, mut seat } = turn;
        put(&self.table.shared, &mut seat, boxed);
        let ended = pass_on(&self.table.shared, &mut seat);
        call_next(&self.table.shared, &mut seat, ended, self.ahead);
        pass.regain(seat);
    }

    /// Ends the lock, and gives the value back. The passes are all that it has, in any order, and
    /// none has a turn.
    pub fn close(self, passes: Vec<Pass<V::Entry>>) -> V
        requires all { length passes.items ≡ self.seats }
        requires ready { All (IsReady self.id) passes.items }

        ensures begins { BeginsWith (V.entries result) self.start }
        ensures seen { All (λ p. BeginsWith (V.entries result) p.seen) passes.items }
        ensures mine { All (HasItsEntries V.by self.start (V.entries result)) passes.items }
        ensures makers { All (λ e. V.by e < self.seats) (beyond self.start (V.entries result)) }
    {
        let TurnLock {
            table,
            seats: _,
            ahead: _,
        } = self;
        let closer = gather(&table.shared, passes);
        let mut closed = table.close_with(closer);
        let Some(boxed) = closed.take(VALUE) else {
            unreachable!()
        };
        closed.free();
        boxed.into_value()
    }
}
