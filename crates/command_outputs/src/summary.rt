//! The line of a generated campaign.
ghost use Rattle.std.specs.Prelude.{◌≡◌, ◌≤◌, ◌++◌, OnOk, OnErr, IsErrOf};
ghost use Rattle.outer_traits.specs.Faults.{Rose};
ghost use Rattle.outer_traits.specs.Sinks.{Took, TookFront};
ghost use Rattle.command_outputs.specs.Summed.{before_counts, counts_text, summary};

use crate::counting::{Counted, count};
use crate::line::put_count;
use crate::stop::OutputStop;
use outer_traits::{Sink, write_whole};
use std::alloc::{AllocError, Global};
use update_log::Event;

/// Puts the numbers of boards and clients behind the text.
#[tactic(auto, unfolding(crate::specs::Summed::before_counts))]
fn put_sizes(out: &mut Vec<u8>, boards: u32, clients: u32) -> Result<(), AllocError>
    ensures { OnOk result (out.new.items ≡ out.old.items ++ before_counts boards clients) }
{
    put_count(out, b"boards ", boards as usize)?;
    put_count(out, b" clients ", clients as usize)
}

/// Puts what the log counts behind the text.
#[tactic(auto, unfolding(crate::specs::Summed::counts_text))]
fn put_counts(out: &mut Vec<u8>, counted: Counted) -> Result<(), AllocError>
    ensures { OnOk result (out.new.items ≡ out.old.items ++ counts_text counted) }
{
    put_count(out, b" accepted ", counted.accepted)?;
    put_count(out, b" writes ", counted.writes)?;
    put_count(out, b" success ", counted.success)?;
    put_count(out, b" failed ", counted.failed)?;
    put_count(out, b" kept ", counted.kept)?;
    out.extend_from_slice(b"\n")
}

fn put_summary(
    out: &mut Vec<u8>,
    boards: u32,
    clients: u32,
    log: &[Event],
) -> Result<(), AllocError>
    ensures { OnOk result (out.new.items ≡ out.old.items ++ summary boards clients log.now) }
{
    put_sizes(out, boards, clients)?;
    put_counts(out, count(log))
}

/// Writes what `make` prints of a campaign with so many boards and clients, whose log this is.
///
/// `SinkFault` comes only where the sink's faults rose in this call. After a stop the sink has taken
/// a front of the output.
pub fn write_summary<T: Sink>(
    alloc: Global,
    boards: u32,
    clients: u32,
    log: &[Event],
    out: &mut T,
) -> Result<(), OutputStop>
    ensures whole { OnOk result (Took (summary boards clients log.now) (T.taken out.old) (T.taken out.new)) }
    ensures front { OnErr result (TookFront (summary boards clients log.now) (T.taken out.old) (T.taken out.new)) }
    ensures cause { IsErrOf result OutputStop.SinkFault → Rose (T.faults out.old) (T.faults out.new) }
    ensures quiet { OnOk result (T.faults out.new ≡ T.faults out.old) }
    ensures quiet_no_memory { IsErrOf result OutputStop.NoMemory → T.faults out.new ≡ T.faults out.old }
    ensures counts { T.faults out.old ≤ T.faults out.new }
{
    let mut text = Vec::new(alloc);
    put_summary(&mut text, boards, clients, log)?;
    write_whole(out, &text)?;
    Ok(())
}
