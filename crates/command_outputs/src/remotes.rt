//! What `remotes` prints.
ghost use Rattle.std.specs.Prelude.{◌≡◌, ◌≤◌, ◌++◌, OnOk, OnErr, IsErrOf};
ghost use Rattle.std.specs.Fmt.{decimal};
ghost use Rattle.std.specs.List.{flat_map};
ghost use Rattle.outer_traits.specs.Faults.{Rose};
ghost use Rattle.outer_traits.specs.Sinks.{Took, TookFront};
ghost use Rattle.command_outputs.specs.Printed.{counts_text, merged_line, remote_head, remote_line, remotes_output, switch_word};

use crate::line::put_count;
use crate::stop::OutputStop;
use outer_traits::{Sink, write_whole};
use site_remotes::SiteRemote;
use std::alloc::{AllocError, Global};

/// Puts the line of a remote behind the text.
#[tactic(auto, unfolding(crate::specs::Printed::remote_line))]
fn put_remote(out: &mut Vec<u8>, remote: &SiteRemote) -> Result<(), AllocError>
    ensures { OnOk result (out.new.items ≡ out.old.items ++ remote_line remote.now) }
{
    put_head(out, remote)?;
    put_counts(
        out,
        remote.components as usize,
        remote.releases as usize,
        remote.kept as usize,
    )
}

/// Puts which remote it is.
#[tactic(auto, unfolding(crate::specs::Printed::remote_head))]
fn put_head(out: &mut Vec<u8>, remote: &SiteRemote) -> Result<(), AllocError>
    ensures { OnOk result (out.new.items ≡ out.old.items ++ remote_head remote.now) }
{
    out.extend_from_slice(b"remote ")?;
    out.extend_from_slice(remote.name.bytes())?;
    put_count(out, b" order ", remote.order as usize)?;
    put_switch(out, remote.enabled)
}

/// Puts what it has, and how many of its releases stay.
#[tactic(auto, unfolding(crate::specs::Printed::counts_text))]
fn put_counts(
    out: &mut Vec<u8>,
    components: usize,
    releases: usize,
    kept: usize,
) -> Result<(), AllocError>
    ensures { OnOk result (out.new.items ≡ out.old.items ++ counts_text components releases kept) }
{
    put_count(out, b" components ", components)?;
    put_count(out, b" releases ", releases)?;
    put_count(out, b" kept ", kept)?;
    out.extend_from_slice(b"\n")
}

#[tactic(auto, unfolding(crate::specs::Printed::switch_word))]
fn put_switch(out: &mut Vec<u8>, enabled: bool) -> Result<(), AllocError>
    ensures { OnOk result (out.new.items ≡ out.old.items ++ switch_word enabled) }
{
    if enabled {
        out.extend_from_slice(b" enabled")
    } else {
        out.extend_from_slice(b" disabled")
    }
}

/// Puts a line for each remote behind the text.
fn put_remotes(out: &mut Vec<u8>, remotes: &[SiteRemote]) -> Result<(), AllocError>
    ensures { OnOk result (out.new.items ≡ out.old.items ++ flat_map remote_line remotes.now) }
{
    for remote in remotes {
        put_remote(out, remote)?;
    }
    Ok(())
}

/// Puts the number of merged releases behind the text.
#[tactic(auto, unfolding(crate::specs::Printed::merged_line))]
fn put_merged(out: &mut Vec<u8>, releases: usize) -> Result<(), AllocError>
    ensures { OnOk result (out.new.items ≡ out.old.items ++ merged_line releases) }
{
    put_count(out, b"releases ", releases)?;
    out.extend_from_slice(b"\n")
}

/// Writes what `remotes` prints of a document: its remotes, and how many releases are merged.
///
/// `SinkFault` comes only where the sink's faults rose in this call. After a stop the sink has taken
/// a front of the output.
pub fn write_remotes<T: Sink>(
    alloc: Global,
    remotes: &[SiteRemote],
    releases: usize,
    out: &mut T,
) -> Result<(), OutputStop>
    ensures whole { OnOk result (Took (remotes_output remotes.now releases) (T.taken out.old) (T.taken out.new)) }
    ensures front { OnErr result (TookFront (remotes_output remotes.now releases) (T.taken out.old) (T.taken out.new)) }
    ensures nothing { IsErrOf result OutputStop.NoMemory → T.taken out.new ≡ T.taken out.old }
    ensures cause { IsErrOf result OutputStop.SinkFault → Rose (T.faults out.old) (T.faults out.new) }
    ensures quiet { OnOk result (T.faults out.new ≡ T.faults out.old) }
    ensures quiet_no_memory { IsErrOf result OutputStop.NoMemory → T.faults out.new ≡ T.faults out.old }
    ensures counts { T.faults out.old ≤ T.faults out.new }
{
    let mut text = Vec::new(alloc);
    put_remotes(&mut text, remotes)?;
    put_merged(&mut text, releases)?;
    write_whole(out, &text)?;
    Ok(())
}
