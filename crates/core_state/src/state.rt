//! The state that stands for a log.
ghost use Rattle.std.specs.Prelude.{◌≡◌, ◌≤◌, ◌<◌, ◌-◌, ◌+◌, ◌^◌, ◌&&◌, List, [], true, find, length, option_copied, IfOk, OnOk, IsSome, Some, None};
ghost use Rattle.history_keeper.specs.declared.row.Row.{Row};
ghost use Rattle.update_log.specs.declared.facts.Facts.{Facts};
ghost use Rattle.update_log.specs.Holding.{held, hold, holds, live, live_entry, step_open};
ghost use Rattle.update_log.specs.Pasts.{AllFaults, boots, counted, finished, limit_of, off, past_of, time_of};
ghost use Rattle.update_log.specs.Steps.{trace};
ghost use Rattle.history_keeper.specs.Histories.{IsHistory};
ghost use Rattle.core_state.specs.Core.{Stands};
ghost use Rattle.core_state.specs.CoreAfter.{IsAfter, Takes};
ghost use Rattle.core_state.specs.CoreSteps.{asks_row, change_on};
ghost use Rattle.device_list.specs.Lists.{place};
ghost use Rattle.history_keeper.specs.Histories.{is_unsettled};
ghost use Rattle.std.specs.Str.{bytes_eq};
ghost use Rattle.update_log.specs.Known.{basis_of, Basis, row_of};
ghost use Rattle.request_verdicts.specs.Cases.{case_with};
ghost use Rattle.update_log.specs.Verdicts.{decided};

use crate::arranging::arrange;
use crate::asking::{Asking, change_on};
use crate::changing::{change_if, doubt_at, made_at};
use crate::clock::Clock;
use crate::copying::{copied_live, copied_pair, copied_past};
use crate::finding::{has_entry, hold_of, live_with, step_of, trace_of};
use crate::holding::{finished_after, holds_after, live_after, open_after};
use crate::showing::claims_after;
use crate::telling::tell;
use crate::tracing::traces_after;
use device_list::{Devices, Selector};
use fw_base::{Listed, NoMemory};
use fw_facts::DeviceView;
use guid_ids::DeviceId;
use history_keeper::{Change, Row};
use request_verdicts::{Case, decided, free_blocks};
use row_index::IndexedRows;
use std::alloc::Global;
use std::marker::Model;
use update_log::{
    Decision, Event, Facts, Held, LiveEntry, Log, OpenStep, Request, Stage, Trace, Traced,
};

/// What the code keeps of the rows and the log, so that no decision reads the log. Contracts see the
/// log with its rows, the view of each device, the trace of each live entry and the change in doubt,
/// and for how many events and rows more there is room.
#[derive(Drop)]
pub struct CoreState {
    log: Vec<Event>,
    clock: Clock,
    live: Vec<LiveEntry>,
    traces: Vec<Traced>,
    holds: Vec<Held>,
    open: Vec<OpenStep>,
    finished: Vec<u32>,
    devices: Devices,
    boards: Vec<u32>,
    rows: IndexedRows,
    doubt: Option<Change>,
}

impl Model for CoreState {
    ghost use Rattle.core_state.specs.Core.{Core, core_of, IsCore};

    ghost Value = { Core };

    ghost view = { core_of };

    ghost invariant = { IsCore };
}

impl CoreState {
    /// The state before the first event: nothing is logged, no row is known, and no device of these
    /// facts is there. There are at most 256 sheets, and only memory may be wanting.
    pub fn new(alloc: Global, facts: &Facts) -> Result<CoreState, NoMemory>
        requires { length facts.now.sheets ≤ 256 }
        ensures empty { IfOk result (λ state. state.log ≡ []) }
        ensures stands { IfOk result (λ state. Stands (basis_of facts.now []) state) }
    {
        let (devices, boards) = arrange(alloc, facts)?;
        Ok(CoreState::of_devices(alloc, devices, boards))
    }

    fn of_devices(alloc: Global, devices: Devices, boards: Vec<u32>) -> CoreState
        requires few { length devices ≤ 256 }
        requires matched { length boards.items ≡ length devices }
        ensures log { result.log ≡ [] }
        ensures rows { result.rows ≡ [] }
        ensures traces { result.traces ≡ [] }
        ensures doubt { result.doubt ≡ None }
        ensures views { result.views ≡ devices }
        ensures boards { result.boards ≡ boards.items }
    {
        CoreState {
            log: Vec::new(alloc),
            clock: Clock::new(),
            live: Vec::new(alloc),
            traces: Vec::new(alloc),
            holds: Vec::new(alloc),
            open: Vec::new(alloc),
            finished: Vec::new(alloc),
            devices,
            boards,
            rows: IndexedRows::new(alloc),
            doubt: None,
        }
    }

    /// A state that stands for the same log. What room it has is its own.
    pub fn copy(&self, alloc: Global) -> Result<CoreState, NoMemory>
        ensures { IfOk result (λ copy. copy ≡ record self.now { room = copy.room; row_room = copy.row_room }) }
    {
        let (live, traces, holds, open) = copied_live(
            alloc,
            &self.live,
            &self.traces,
            &self.holds,
            &self.open,
        )?;
        let (finished, boards) = copied_pair(alloc, &self.finished, &self.boards)?;
        let (log, devices, rows) = copied_past(alloc, &self.log, &self.devices, &self.rows)?;
        Ok(CoreState {
            log,
            clock: self.clock,
            live,
            traces,
            holds,
            open,
            finished,
            devices,
            boards,
            rows,
            doubt: self.doubt,
        })
    }

    /// Gives the rows before the log, of which nothing is known yet: each event so far is a boot that
    /// couldn't read the history.
    pub fn set_rows(&mut self, rows: Vec<Row>)
        requires history { IsHistory rows.items }
        requires faults { AllFaults (past_of self.old.log) }
        ensures same { self.new ≡ record self.old { rows = rows.items; row_room = self.new.row_room } }
        ensures stands { (facts : Facts) (before : List Row) → Stands (basis_of facts before) self.old → Stands (basis_of facts rows.items) self.new }
    {
        self.put_rows(rows);
    }

    fn put_rows(&mut self, rows: Vec<Row>)
        ensures { self.new ≡ record self.old { rows = rows.items; row_room = self.new.row_room } }
    {
        self.rows.put(rows);
    }

    /// Makes the spare room at least so many events and one row.
    pub fn reserve(&mut self, events: usize) -> Result<(), NoMemory>
        ensures room { OnOk result (events ≤ self.new.room) }
        ensures row { OnOk result (1 ≤ self.new.row_room) }
        ensures no_less { (self.old.room ≤ self.new.room) × (self.old.row_room ≤ self.new.row_room) }
        ensures same { self.new ≡ record self.old { room = self.new.room; row_room = self.new.row_room } }
    {
        self.log.reserve(events)?;
        self.live.reserve(events)?;
        self.traces.reserve(events)?;
        self.holds.reserve(events)?;
        self.open.reserve(events)?;
        self.finished.reserve(events)?;
        self.rows.reserve(1)?;
        Ok(())
    }

    /// The log.
    pub fn log(&self) -> &[Event]
        ensures { result.now ≡ self.now.log }
    {
        &self.log
    }

    /// The rows.
    pub fn rows(&self) -> &[Row]
        ensures { result.now ≡ self.now.rows }
    {
        self.rows.rows()
    }

    /// The devices as they stand.
    pub fn views(&self) -> &[DeviceView]
        ensures { result.now ≡ self.now.views }
    {
        self.devices.views()
    }

    /// The log alone.
    pub fn into_log(self) -> Log
        ensures { result ≡ self.log }
    {
        let CoreState { log, .. } = self;
        Listed::of(log)
    }

    /// The log and the rows alone. It takes no memory.
    pub fn into_log_and_rows(self) -> (Log, Vec<Row>)
        ensures log { result.0 ≡ self.log }
        ensures rows { result.1.items ≡ self.rows }
    {
        let CoreState { log, rows, .. } = self;
        (Listed::of(log), rows.into_rows())
    }

    /// Whether the boot that runs is off.
    pub fn off(&self) -> bool
        ensures { result ≡ off (past_of self.now.log) }
    {
        self.clock.off
    }

    /// How many boots there were.
    pub fn boots(&self) -> usize
        ensures { result ≡ boots (past_of self.now.log) }
    {
        self.clock.boots
    }

    /// The time of the boot that runs, in seconds.
    pub fn time(&self) -> u64
        ensures { result ≡ time_of (past_of self.now.log) }
    {
        self.clock.time
    }

    /// After how many counted events the power of the boot that runs is cut.
    pub fn limit(&self) -> Option<u32>
        ensures { result ≡ limit_of (past_of self.now.log) }
    {
        self.clock.limit
    }

    /// How many events of the boot that runs are counted.
    pub fn counted(&self) -> usize
        ensures { result ≡ counted (past_of self.now.log) }
    {
        self.clock.counted
    }

    /// The live entries, in the order in which they were taken.
    pub fn live(&self) -> &[LiveEntry]
        ensures { result.now ≡ live (past_of self.now.log) }
    {
        &self.live
    }

    /// The holds.
    pub fn holds(&self) -> &[Held]
        ensures { result.now ≡ holds (past_of self.now.log) }
    {
        &self.holds
    }

    /// The live entry of that number.
    pub fn live_entry(&self, entry: u32) -> Option<LiveEntry>
        ensures { result ≡ live_entry (past_of self.now.log) entry }
    {
        live_with(&self.live, entry).copied()
    }

    /// The hold of a client.
    pub fn hold(&self, client: u32) -> Option<Held>
        ensures { result ≡ hold (past_of self.now.log) client }
    {
        hold_of(&self.holds, client).copied()
    }

    /// The open step of an entry.
    pub fn open_step(&self, entry: u32) -> Option<OpenStep>
        ensures { result ≡ step_open (past_of self.now.log) entry }
    {
        step_of(&self.open, entry).copied()
    }

    /// Whether the entry was finished in the boot that runs.
    pub fn is_finished(&self, entry: u32) -> bool
        ensures { result ≡ finished entry (past_of self.now.log) }
    {
        has_entry(&self.finished, entry)
    }

    /// The change of which nobody knows whether it was stored.
    pub fn doubt(&self) -> Option<Change>
        ensures { result ≡ self.now.doubt }
    {
        self.doubt
    }

    /// The blocks of the pool that no hold and no live entry has.
    pub fn free(&self, facts: &Facts) -> u32
        ensures { result ≡ facts.now.pool - held (past_of self.now.log) }
    {
        free_blocks(facts.pool, &self.holds, &self.live)
    }

    /// How far a live entry has come.
    pub fn trace(&self, entry: u32) -> Trace
        requires { IsSome (live_entry (past_of self.now.log) entry) }
        ensures { (basis : Basis) → Stands basis self.now → trace basis entry (past_of self.now.log) ≡ Some result }
    {
        trace_of(&self.traces, entry)
    }

    // Takes one more event: all that is kept becomes what it is after the event.
    pub(crate) fn take(&mut self, facts: &Facts, event: Event)
        requires { Takes facts.now self.old event }
        ensures after { IsAfter facts.now event self.old self.new }
        ensures room { self.old.room ≤ self.new.room + 1 }
        ensures row_room { self.new.row_room + length self.new.rows ≡ self.old.row_room + length self.old.rows }
    {
        let change = change_on(
            &Asking {
                facts,
                devices: &self.devices,
                rows: &self.rows,
                time: self.clock.time,
            },
            &event,
        );
        traces_after(&mut self.traces, facts, &self.devices, &self.holds, &event);
        tell(&mut self.devices, &self.boards, &self.rows, &event);
        change_if(&mut self.rows, made_at(&event, &change, &self.doubt));
        self.doubt = doubt_at(&event, &change, &self.doubt);
        live_after(&mut self.live, &event);
        holds_after(&mut self.holds, &event);
        open_after(&mut self.open, &event);
        finished_after(&mut self.finished, &event);
        self.clock = self.clock.after(&event);
        claims_after(&mut self.devices, &self.rows, &self.live, &event);
        self.log.push_reserved(event);
    }

    /// The number of the board of each device.
    pub fn boards(&self) -> &[u32]
        ensures { result.now ≡ self.now.boards }
    {
        &self.boards
    }

    /// The place of the device that a selector finds.
    pub fn resolve(&self, selector: &Selector) -> Option<usize>
        ensures { result ≡ place selector.now self.now.views }
    {
        self.devices.resolve(selector)
    }

    /// The row of an entry.
    pub fn row(&self, entry: u32) -> Option<&Row>
        ensures { option_copied result ≡ row_of self.now.rows entry }
    {
        self.rows.row_of(entry)
    }

    /// The row of the device that is pending, begun or needs a boot.
    pub fn unsettled_row(&self, device: &DeviceId) -> Option<&Row>
        ensures { option_copied result ≡ find (λ r. bytes_eq r.device device.now && is_unsettled r.state) self.now.rows }
    {
        self.rows.unsettled_of(device)
    }

    /// The change of the rows that an event asks for.
    pub fn asked(&self, facts: &Facts, event: &Event) -> Option<Change>
        requires { asks_row event.now ≡ true → length self.now.rows + 1 < 2 ^ 32 }
        ensures { result ≡ change_on facts.now (time_of (past_of self.now.log)) self.now.views self.now.rows event.now }
    {
        change_on(
            &Asking {
                facts,
                devices: &self.devices,
                rows: &self.rows,
                time: self.clock.time,
            },
            event,
        )
    }

    // What is decided of a request, over what is kept here.
    pub(crate) fn decided(
        &self,
        facts: &Facts,
        client: u32,
        request: &Request,
        stage: Stage,
    ) -> Decision
        ensures { result ≡ decided (case_with facts.now self.now.views self.now.rows (live (past_of self.now.log)) (holds (past_of self.now.log)) client request.now stage) }
    {
        facts.catalogue.within_limits();
        decided(&Case {
            facts,
            devices: &self.devices,
            rows: &self.rows,
            live: &self.live,
            holds: &self.holds,
            client,
            request,
            stage,
        })
    }
}
