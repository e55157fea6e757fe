//! The end of a campaign: what is written of it, and its status.
ghost use Rattle.std.specs.Prelude.{◌≡◌, ◌⊎◌, ◌≤◌, ◌||◌, List, length, true};
ghost use Rattle.outer_traits.specs.Faults.{Rose};
ghost use Rattle.history_keeper.specs.Histories.{IsHistory};
ghost use Rattle.update_log.specs.Pasts.{AllFaults, past_of};
ghost use Rattle.update_log.specs.Legal.{Legal};
ghost use Rattle.update_log.specs.Known.{basis_of};
ghost use Rattle.update_log.specs.Shows.{campaign_on};
ghost use Rattle.report_text.specs.Report.{report};
ghost use Rattle.command_outputs.specs.Summed.{summary};
ghost use Rattle.fwupd_service.specs.Tops.{IsLeft};
ghost use Rattle.fwupd_service.specs.Ends.{IsReported, WasWritten, ending_status, played_status, written_status};
ghost use Rattle.fwupd_service.specs.Telling.{any_fault, any_want};
ghost use Rattle.client_threads.specs.declared.ending.Ending.TheVariants as endings;
ghost use Rattle.fw_facts.specs.declared.seen.Seen.{Seen};
ghost use Rattle.update_log.specs.declared.facts.BootPlan.{BootPlan};

use crate::playing::Played;
use crate::ran::RunLeft;
use crate::telling::{any_fault, any_want};
use client_threads::{Ending, Ran as CampaignRan};
use command_outputs::{OutputStop, write_summary};
use fw_base::Listed;
use history_keeper::Row;
use outer_traits::Sink;
use report_text::{ReportStop, write_report_in_place};
use run_status::Status;
use std::alloc::Global;
use update_log::{Event, Facts, Log};

/// How writing an output ended.
#[derive(Clone, Copy, Debug)]
pub enum Written {
    Whole,
    SinkFault,
    NoMemory,
}

/// Writes the report of a legal log, and leaves the rows before it as they are.
pub(crate) fn write_reported<T: Sink>(
    alloc: Global,
    facts: &Facts,
    opening: &mut Vec<Row>,
    log: &Log,
    out: &mut T,
) -> Written
    requires few { length facts.now.sheets ≤ 256 }
    requires legal { (first : List Seen) × (plans : List BootPlan) × Legal (campaign_on (basis_of facts.now opening.old.items) first plans) log.now }
    requires history { IsHistory opening.old.items ⊎ AllFaults (past_of log.now) }
    ensures written { WasWritten result (report (basis_of facts.now opening.old.items) log.now) (T.taken out.old) (T.taken out.new) }
    ensures rows { opening.new.items ≡ opening.old.items }
    ensures cause { result ≡ Written.SinkFault → Rose (T.faults out.old) (T.faults out.new) }
    ensures quiet { (result ≡ Written.SinkFault) ⊎ (T.faults out.new ≡ T.faults out.old) }
    ensures counts { T.faults out.old ≤ T.faults out.new }
{
    match write_report_in_place(alloc, facts, opening, log, out) {
        Ok(()) => Written::Whole,
        Err(ReportStop::SinkFault) => Written::SinkFault,
        Err(ReportStop::NoMemory) => Written::NoMemory,
    }
}

/// Writes the summary of a log.
pub(crate) fn write_summed<T: Sink>(
    alloc: Global,
    boards: u32,
    clients: u32,
    log: &Log,
    out: &mut T,
) -> Written
    ensures written { WasWritten result (summary boards clients log.now) (T.taken out.old) (T.taken out.new) }
    ensures cause { result ≡ Written.SinkFault → Rose (T.faults out.old) (T.faults out.new) }
    ensures quiet { (result ≡ Written.SinkFault) ⊎ (T.faults out.new ≡ T.faults out.old) }
    ensures counts { T.faults out.old ≤ T.faults out.new }
{
    match write_summary(alloc, boards, clients, log.items(), out) {
        Ok(()) => Written::Whole,
        Err(OutputStop::SinkFault) => Written::SinkFault,
        Err(OutputStop::NoMemory) => Written::NoMemory,
    }
}

/// The status of a campaign that ended so, with this log, once its output was written.
pub(crate) fn status_of(written: Written, ran: &CampaignRan, log: &Log) -> Status
    ensures { result ≡ written_status written (played_status ran.now.ending (ran.now.wanting || any_want log.now) (any_fault log.now)) }
{
    match written {
        Written::Whole => played_status(ran, log.items()),
        Written::SinkFault => Status::SinkFault,
        Written::NoMemory => Status::NoMemory,
    }
}

fn played_status(ran: &CampaignRan, log: &[Event]) -> Status
    ensures { result ≡ played_status ran.now.ending (ran.now.wanting || any_want log.now) (any_fault log.now) }
{
    if ran.wanting || any_want(log) {
        return Status::NoMemory;
    }
    ending_status(ran.ending, any_fault(log))
}

fn ending_status(ending: Ending, fault: bool) -> Status
    ensures { result ≡ ending_status ending fault }
{
    match ending {
        Ending::Whole => whole_status(fault),
        Ending::BadHistory { entry } => Status::BadHistory { entry },
        Ending::NoMemory => Status::NoMemory,
    }
}

fn whole_status(fault: bool) -> Status
    ensures { result ≡ ending_status endings.Whole fault }
{
    if fault {
        Status::KeeperFault
    } else {
        Status::Done
    }
}

/// Reports a campaign that was played, and says how it ended.
pub(crate) fn reported<P, K, T: Sink>(
    alloc: Global,
    played: Played<K>,
    shelves: Vec<P>,
    out: &mut T,
) -> RunLeft<P, K>
    requires few { length played.facts.sheets ≤ 256 }
    requires legal { (first : List Seen) × (plans : List BootPlan) × Legal (campaign_on (basis_of played.facts played.opening) first plans) played.log }
    requires history { IsHistory played.opening ⊎ AllFaults (past_of played.log) }
    ensures reported { IsReported result.status played.ran.ending played.ran.wanting played.log
        (report (basis_of played.facts played.opening) played.log) (T.taken out.old) (T.taken out.new) }
    ensures left { IsLeft played.log played.opening played.boards played.keeper
        (record { log = result.log; opening = result.opening; boards = result.boards; keeper = result.keeper }) }
    ensures shelves { result.shelves.items ≡ shelves.items }
    ensures sink_fault { result.status ≡ Status.SinkFault → Rose (T.faults out.old) (T.faults out.new) }
    ensures sink_quiet { (result.status ≡ Status.SinkFault) ⊎ (T.faults out.new ≡ T.faults out.old) }
    ensures sink_counts { T.faults out.old ≤ T.faults out.new }
{
    let Played {
        ran,
        facts,
        log,
        boards,
        keeper,
        opening,
    } = played;
    let mut rows = opening.into_items();
    let written = write_reported(alloc, &facts, &mut rows, &log, out);
    RunLeft {
        status: status_of(written, &ran, &log),
        log,
        opening: Listed::of(rows),
        boards: Some(boards),
        keeper,
        shelves,
    }
}
