//! What an accepted request adds: its row, and the trace that it begins with.
ghost use Rattle.std.specs.Prelude.{◌≡◌, ◌||◌, ◌+◌, ◌<◌, ◌^◌, IsTrue, Some, if◌then◌else◌};
ghost use Rattle.std.specs.List.{list_any};
ghost use Rattle.std.specs.Str.{bytes_eq};
ghost use Rattle.fw_facts.specs.Views.{is_home};
ghost use Rattle.request_verdicts.specs.Cases.{target_with};
ghost use Rattle.update_log.specs.Known.{flags_number, new_row};
ghost use Rattle.update_log.specs.Steps.{first_trace, mode_of, side_fits};

use fw_facts::{Mode, Seen};
use guid_ids::Guid;
use history_keeper::{Row, RowState};
use request_verdicts::{Target, provides};
use update_log::{InstallFlags, Request, Trace, TraceSteps};

/// The row of a request that was accepted for a target that is present.
pub fn new_row(
    entry: u32,
    time: u64,
    client: u32,
    request: &Request,
    state: RowState,
    target: &Target,
) -> Option<Row>
    requires { IsTrue (is_home target.now.view.now.seen) }
    ensures { result ≡ Some (new_row entry time client request.now state (target_with target.now.place target.now.view.now target.now.at target.now.component.now target.now.release.now)) }
{
    let version_old = target.view.version()?;
    Some(Row {
        entry,
        tag: request.tag,
        client,
        device: target.view.sheet.device,
        component: target.component.id,
        version_old,
        version_new: target.release.version,
        digest: target.release.digest,
        flags: flags_number(request.flags),
        state,
        reason: 0,
        time_added: time,
        time_changed: time,
        duration: target.view.sheet.duration,
        protocol: target.view.sheet.protocol,
        retry_of: request.retry_of,
    })
}

fn flags_number(flags: InstallFlags) -> u8
    ensures { result ≡ flags_number flags }
{
    let offline = if flags.offline { 1 } else { 0 };
    let reinstall = if flags.allow_reinstall { 2 } else { 0 };
    let older = if flags.allow_older { 4 } else { 0 };
    offline + reinstall + older
}

/// The trace of an entry as it is taken for a target.
pub fn first_trace(target: &Target) -> Trace
    ensures { result ≡ first_trace (target_with target.now.place target.now.view.now target.now.at target.now.component.now target.now.release.now) }
{
    let sheet = &target.view.sheet;
    Trace {
        flags: target.view.flags(),
        mode: mode_of(target.view.seen),
        runtime_fits: side_fits(sheet.runtime_guids.items(), target),
        loader_fits: side_fits(sheet.loader_guids.items(), target),
        steps: TraceSteps::none(),
    }
}

fn mode_of(seen: Seen) -> Mode
    ensures { result ≡ mode_of seen }
{
    match seen {
        Seen::Home { mode, .. } => mode,
        Seen::Gone | Seen::Stranger => Mode::Runtime,
    }
}

fn side_fits(side: &[Guid], target: &Target) -> bool
    ensures { result ≡ side_fits side.now (target_with target.now.place target.now.view.now target.now.at target.now.component.now target.now.release.now) }
{
    provides(side, target.component)
        || has_counterpart(side, target.view.sheet.counterparts.items())
}

fn has_counterpart(side: &[Guid], counterparts: &[Guid]) -> bool
    ensures { result ≡ list_any (λ guid. list_any (bytes_eq guid) side.now) counterparts.now }
{
    counterparts.iter().any(|guid| is_among(side, guid))
}

fn is_among(side: &[Guid], guid: &Guid) -> bool
    ensures { result ≡ list_any (bytes_eq guid.now) side.now }
{
    side.iter().any(|own| guid == own)
}
