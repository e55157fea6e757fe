//! The report of a campaign.
ghost use Rattle.std.specs.Prelude.{◌≡◌, ◌⊎◌, ◌≤◌, ◌++◌, [], ◌∷◌, List, IfOk, OnOk, OnErr, IsErrOf, length, map};
ghost use Rattle.std.specs.Option.{option_copied};
ghost use Rattle.outer_traits.specs.Faults.{Rose};
ghost use Rattle.outer_traits.specs.Sinks.{Took, TookFront};
ghost use Rattle.history_keeper.specs.declared.row.Row.{Row};
ghost use Rattle.history_keeper.specs.Histories.{IsHistory};
ghost use Rattle.row_index.specs.Formers.{former_of};
ghost use Rattle.core_state.specs.Core.{Stands};
ghost use Rattle.update_log.specs.Legal.{IsNext};
ghost use Rattle.update_log.specs.Pasts.{AllFaults, past_of};
ghost use Rattle.update_log.specs.Legal.{Legal};
ghost use Rattle.update_log.specs.Known.{basis_of};
ghost use Rattle.update_log.specs.Shows.{campaign_on};
ghost use Rattle.report_text.specs.Report.{in_turn, lines_in, lines_over, report, reply_under, sheet_ended};
ghost use Rattle.fw_facts.specs.declared.seen.Seen.{Seen};
ghost use Rattle.update_log.specs.declared.facts.BootPlan.{BootPlan};

use crate::boots::{are_fault_boots, write_alone};
use crate::ends::{write_first, write_last};
use crate::lines::{entry_ended, put_lines};
use crate::lookup::sheet_claimed;
use crate::stop::ReportStop;
use client_scripts::write_reply;
use core_state::{CoreState, step};
use fw_base::NoMemory;
use fw_facts::{DeviceView, Sheet};
use history_keeper::Row;
use outer_traits::{Sink, write_whole};
use row_index::{Former, as_were, formers_of};
use std::alloc::Global;
use std::mem;
use update_log::{Event, Facts, Log};

/// The sheet of the board whose step the event ends.
fn sheet_ended<'a>(views: &'a [DeviceView], event: &Event) -> Option<&'a Sheet>
    ensures { option_copied result ≡ sheet_ended views.now event.now }
{
    match entry_ended(event) {
        Some(entry) => sheet_claimed(views, entry),
        None => None,
    }
}

/// Puts what a client was told behind the text, where the event is a question.
fn put_reply_under(
    out: &mut Vec<u8>,
    facts: &Facts,
    state: &CoreState,
    event: &Event,
) -> Result<(), NoMemory>
    ensures { OnOk result (out.new.items ≡ out.old.items ++ reply_under facts.now state.now.views state.now.rows event.now) }
{
    match event {
        Event::Query { query, .. } => write_reply(facts, state, query, out),
        Event::Boot { .. }
        | Event::Ask { .. }
        | Event::Claim { .. }
        | Event::Schedule { .. }
        | Event::Resume { .. }
        | Event::Start { .. }
        | Event::End { .. }
        | Event::Finish { .. }
        | Event::Judge { .. }
        | Event::Unplug { .. }
        | Event::Plug { .. }
        | Event::GiveBack { .. }
        | Event::Cut => Ok(()),
    }
}

/// The lines of an event, over the state that stands for the log before it.
fn text_of(
    buffer: &mut Vec<u8>,
    facts: &Facts,
    state: &CoreState,
    event: &Event,
) -> Result<(), ReportStop>
    ensures text { OnOk result (buffer.new.items ≡ lines_over facts.now state.now.views state.now.rows event.now) }
    ensures cause { IsErrOf result ReportStop.SinkFault → ⊥ }
{
    buffer.clear();
    put_lines(
        buffer,
        facts.sheets.items(),
        sheet_ended(state.views(), event),
        event,
    )?;
    put_reply_under(buffer, facts, state, event)?;
    Ok(())
}

/// Writes the lines of an event, over the state that stands for the log before it.
fn write_event<T: Sink>(
    buffer: &mut Vec<u8>,
    facts: &Facts,
    state: &CoreState,
    event: &Event,
    out: &mut T,
) -> Result<(), ReportStop>
    ensures whole { OnOk result (Took (lines_over facts.now state.now.views state.now.rows event.now) (T.taken out.old) (T.taken out.new)) }
    ensures front { OnErr result (TookFront (lines_over facts.now state.now.views state.now.rows event.now) (T.taken out.old) (T.taken out.new)) }
    ensures cause { IsErrOf result ReportStop.SinkFault → Rose (T.faults out.old) (T.faults out.new) }
    ensures quiet { OnOk result (T.faults out.new ≡ T.faults out.old) }
    ensures quiet_no_memory { IsErrOf result ReportStop.NoMemory → T.faults out.new ≡ T.faults out.old }
    ensures counts { T.faults out.old ≤ T.faults out.new }
{
    text_of(buffer, facts, state, event)?;
    write_whole(out, buffer)?;
    Ok(())
}

/// Takes the event into the state, which stands for the log with it then.
fn follow(
    alloc: Global,
    facts: &Facts,
    state: &mut CoreState,
    event: &Event,
) -> Result<(), NoMemory>
    ghost opening: { List Row }
    requires stands { Stands (basis_of facts.now opening) state.old }
    requires legal { IsNext (basis_of facts.now opening) (past_of state.old.log) event.now }
    ensures log { OnOk result (state.new.log ≡ state.old.log ++ event.now ∷ []) }
    ensures stands { Stands (basis_of facts.now opening) state.new }
{
    state.reserve(1)?;
    let next = event.copy(alloc)?;
    step(facts, state, next);
    Ok(())
}

/// Writes the lines of all events, one event after the other, and follows them with a state of its own.
fn write_events<T: Sink>(
    alloc: Global,
    facts: &Facts,
    state: &mut CoreState,
    log: &[Event],
    out: &mut T,
) -> Result<(), ReportStop>
    ghost opening: { List Row }
    requires stands { Stands (basis_of facts.now opening) state.old }
    requires empty { state.old.log ≡ [] }
    requires legal { (first : List Seen) × (plans : List BootPlan) × Legal (campaign_on (basis_of facts.now opening) first plans) log.now }
    ensures whole { OnOk result (Took (in_turn (lines_in (basis_of facts.now opening)) [] log.now) (T.taken out.old) (T.taken out.new)) }
    ensures front { OnErr result (TookFront (in_turn (lines_in (basis_of facts.now opening)) [] log.now) (T.taken out.old) (T.taken out.new)) }
    ensures cause { IsErrOf result ReportStop.SinkFault → Rose (T.faults out.old) (T.faults out.new) }
    ensures quiet { OnOk result (T.faults out.new ≡ T.faults out.old) }
    ensures quiet_no_memory { IsErrOf result ReportStop.NoMemory → T.faults out.new ≡ T.faults out.old }
    ensures counts { T.faults out.old ≤ T.faults out.new }
    ensures stands { Stands (basis_of facts.now opening) state.new }
{
    let mut buffer = Vec::new(alloc);
    for event in log {
        write_event(&mut buffer, facts, state, event, out)?;
        follow(alloc, facts, state, event)?;
    }
    Ok(())
}

/// Writes the lines of all events of a log over these rows. Where each event is a boot that couldn't read the
/// history, the rows may be none, and the lines rest on the sheets alone.
fn write_log<T: Sink>(
    alloc: Global,
    facts: &Facts,
    rows: &mut Vec<Row>,
    log: &[Event],
    out: &mut T,
) -> Result<(), ReportStop>
    requires few { length facts.now.sheets ≤ 256 }
    requires legal { (first : List Seen) × (plans : List BootPlan) × Legal (campaign_on (basis_of facts.now rows.old.items) first plans) log.now }
    requires history { IsHistory rows.old.items ⊎ AllFaults (past_of log.now) }
    ensures whole { OnOk result (Took (in_turn (lines_in (basis_of facts.now rows.old.items)) [] log.now) (T.taken out.old) (T.taken out.new)) }
    ensures front { OnErr result (TookFront (in_turn (lines_in (basis_of facts.now rows.old.items)) [] log.now) (T.taken out.old) (T.taken out.new)) }
    ensures cause { IsErrOf result ReportStop.SinkFault → Rose (T.faults out.old) (T.faults out.new) }
    ensures quiet { OnOk result (T.faults out.new ≡ T.faults out.old) }
    ensures quiet_no_memory { IsErrOf result ReportStop.NoMemory → T.faults out.new ≡ T.faults out.old }
    ensures counts { T.faults out.old ≤ T.faults out.new }
    ensures rows { rows.new.items ≡ rows.old.items }
{
    if are_fault_boots(log) {
        write_alone(alloc, facts.sheets.items(), log, out)
    } else {
        write_over(alloc, facts, rows, log, out)
    }
}

/// Writes the lines of all events of a log over a history.
fn write_over<T: Sink>(
    alloc: Global,
    facts: &Facts,
    rows: &mut Vec<Row>,
    log: &[Event],
    out: &mut T,
) -> Result<(), ReportStop>
    ghost opening: { List Row }
    requires few { length facts.now.sheets ≤ 256 }
    requires same { rows.old.items ≡ opening }
    requires legal { (first : List Seen) × (plans : List BootPlan) × Legal (campaign_on (basis_of facts.now opening) first plans) log.now }
    requires history { IsHistory opening }
    ensures whole { OnOk result (Took (in_turn (lines_in (basis_of facts.now opening)) [] log.now) (T.taken out.old) (T.taken out.new)) }
    ensures front { OnErr result (TookFront (in_turn (lines_in (basis_of facts.now opening)) [] log.now) (T.taken out.old) (T.taken out.new)) }
    ensures cause { IsErrOf result ReportStop.SinkFault → Rose (T.faults out.old) (T.faults out.new) }
    ensures quiet { OnOk result (T.faults out.new ≡ T.faults out.old) }
    ensures quiet_no_memory { IsErrOf result ReportStop.NoMemory → T.faults out.new ≡ T.faults out.old }
    ensures counts { T.faults out.old ≤ T.faults out.new }
    ensures rows { rows.new.items ≡ opening }
{
    let (mut state, formers) = state_over(alloc, facts, rows)?;
    let written = write_events(alloc, facts, &mut state, log, out);
    let (_, followed) = state.into_log_and_rows();
    *rows = as_were(followed, &formers);
    written
}

/// The state before the first event of a log over a history, whose rows it takes, and what each row is then.
fn state_over(
    alloc: Global,
    facts: &Facts,
    rows: &mut Vec<Row>,
) -> Result<(CoreState, Vec<Former>), NoMemory>
    ghost opening: { List Row }
    requires few { length facts.now.sheets ≤ 256 }
    requires same { rows.old.items ≡ opening }
    requires history { IsHistory opening }
    ensures empty { IfOk result (λ over. over.0.log ≡ []) }
    ensures stands { IfOk result (λ over. Stands (basis_of facts.now opening) over.0) }
    ensures formers { IfOk result (λ over. over.1.items ≡ map former_of opening) }
    ensures unchanged { OnErr result (rows.new.items ≡ opening) }
{
    let mut state = CoreState::new(alloc, facts)?;
    let formers = formers_of(alloc, rows)?;
    state.set_rows(mem::replace(rows, Vec::new(alloc)));
    Ok((state, formers))
}

/// Writes the report of a campaign's log. The rows are those before its first boot, and the log is a
/// legal log over these facts and rows.
///
/// `SinkFault` comes only where the sink's faults rose in this call. After a stop the sink has taken
/// a front of the report.
pub fn write_report<T: Sink>(
    alloc: Global,
    facts: &Facts,
    rows: &[Row],
    log: &Log,
    out: &mut T,
) -> Result<(), ReportStop>
    requires few { length facts.now.sheets ≤ 256 }
    requires legal { (first : List Seen) × (plans : List BootPlan) × Legal (campaign_on (basis_of facts.now rows.now) first plans) log.now }
    requires history { IsHistory rows.now ⊎ AllFaults (past_of log.now) }
    ensures whole { OnOk result (Took (report (basis_of facts.now rows.now) log.now) (T.taken out.old) (T.taken out.new)) }
    ensures front { OnErr result (TookFront (report (basis_of facts.now rows.now) log.now) (T.taken out.old) (T.taken out.new)) }
    ensures cause { IsErrOf result ReportStop.SinkFault → Rose (T.faults out.old) (T.faults out.new) }
    ensures quiet { OnOk result (T.faults out.new ≡ T.faults out.old) }
    ensures quiet_no_memory { IsErrOf result ReportStop.NoMemory → T.faults out.new ≡ T.faults out.old }
    ensures counts { T.faults out.old ≤ T.faults out.new }
{
    let mut followed = Vec::from_slice(alloc, rows)?;
    write_report_in_place(alloc, facts, &mut followed, log, out)
}

/// The same, and the rows are changed as the log changes them, and put back: so no second list of them is made.
pub fn write_report_in_place<T: Sink>(
    alloc: Global,
    facts: &Facts,
    rows: &mut Vec<Row>,
    log: &Log,
    out: &mut T,
) -> Result<(), ReportStop>
    requires few { length facts.now.sheets ≤ 256 }
    requires legal { (first : List Seen) × (plans : List BootPlan) × Legal (campaign_on (basis_of facts.now rows.old.items) first plans) log.now }
    requires history { IsHistory rows.old.items ⊎ AllFaults (past_of log.now) }
    ensures whole { OnOk result (Took (report (basis_of facts.now rows.old.items) log.now) (T.taken out.old) (T.taken out.new)) }
    ensures front { OnErr result (TookFront (report (basis_of facts.now rows.old.items) log.now) (T.taken out.old) (T.taken out.new)) }
    ensures cause { IsErrOf result ReportStop.SinkFault → Rose (T.faults out.old) (T.faults out.new) }
    ensures quiet { OnOk result (T.faults out.new ≡ T.faults out.old) }
    ensures quiet_no_memory { IsErrOf result ReportStop.NoMemory → T.faults out.new ≡ T.faults out.old }
    ensures counts { T.faults out.old ≤ T.faults out.new }
    ensures rows { rows.new.items ≡ rows.old.items }
{
    write_parts(alloc, facts, rows, log.items(), out)
}

/// Writes the first line, the lines of all events, and the last line.
fn write_parts<T: Sink>(
    alloc: Global,
    facts: &Facts,
    rows: &mut Vec<Row>,
    log: &[Event],
    out: &mut T,
) -> Result<(), ReportStop>
    requires few { length facts.now.sheets ≤ 256 }
    requires legal { (first : List Seen) × (plans : List BootPlan) × Legal (campaign_on (basis_of facts.now rows.old.items) first plans) log.now }
    requires history { IsHistory rows.old.items ⊎ AllFaults (past_of log.now) }
    ensures whole { OnOk result (Took (report (basis_of facts.now rows.old.items) log.now) (T.taken out.old) (T.taken out.new)) }
    ensures front { OnErr result (TookFront (report (basis_of facts.now rows.old.items) log.now) (T.taken out.old) (T.taken out.new)) }
    ensures cause { IsErrOf result ReportStop.SinkFault → Rose (T.faults out.old) (T.faults out.new) }
    ensures quiet { OnOk result (T.faults out.new ≡ T.faults out.old) }
    ensures quiet_no_memory { IsErrOf result ReportStop.NoMemory → T.faults out.new ≡ T.faults out.old }
    ensures counts { T.faults out.old ≤ T.faults out.new }
    ensures rows { rows.new.items ≡ rows.old.items }
{
    write_first(out)?;
    write_log(alloc, facts, rows, log, out)?;
    write_last(alloc, log.len() as u64, out)?;
    Ok(())
}
