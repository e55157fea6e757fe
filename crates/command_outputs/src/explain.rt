//! The output of `explain`.
ghost use Rattle.std.specs.Prelude.{◌≡◌, ◌≤◌, ◌++◌, [], OnOk, OnErr, IsErrOf};
ghost use Rattle.outer_traits.specs.Faults.{Rose};
ghost use Rattle.outer_traits.specs.Sinks.{Took, TookFront};
ghost use Rattle.core_state.specs.Core.{Stands};
ghost use Rattle.update_log.specs.Pasts.{past_of};
ghost use Rattle.update_log.specs.Known.{basis_of};
ghost use Rattle.command_outputs.specs.Explained.{asked, explained};

use crate::explained_lines::{put_heading, put_verdict};
use crate::requirements_met::put_lines;
use crate::stop::OutputStop;
use core_state::{CoreState, verdict};
use device_list::Selector;
use fw_base::Name;
use outer_traits::{Sink, write_whole};
use std::alloc::{AllocError, Global};
use update_log::{Facts, InstallFlags, Request, Stage};
use version_formats::Version;

/// An install of a version at a port, without flags, that tries no row again.
fn asked(port: Name, version: Version) -> Request
    ensures { result ≡ asked port version }
{
    Request {
        tag: port,
        device: Selector::Port(port),
        version,
        flags: InstallFlags {
            offline: false,
            allow_reinstall: false,
            allow_older: false,
        },
        retry_of: None,
    }
}

fn put_explained(
    out: &mut Vec<u8>,
    facts: &Facts,
    state: &CoreState,
    port: Name,
    version: Version,
) -> Result<(), AllocError>
    requires { Stands (basis_of facts.now []) state.now }
    ensures { OnOk result (out.new.items ≡ out.old.items ++ explained facts.now (past_of state.now.log) port version) }
{
    let request = asked(port, version);
    put_heading(out, &port, &version)?;
    put_lines(out, facts, state, &request)?;
    put_verdict(out, &verdict(facts, state, 1, &request, Stage::Ask))
}

/// Writes whether an ask of client 1 for that version at that port would be accepted, over the log that
/// the state stands for: each requirement of the component that is found, and the verdict. There were no
/// rows before that log.
///
/// `SinkFault` comes only where the sink's faults rose in this call. After a stop the sink has taken
/// a front of the output.
pub fn write_explain<T: Sink>(
    alloc: Global,
    facts: &Facts,
    state: &CoreState,
    port: Name,
    version: Version,
    out: &mut T,
) -> Result<(), OutputStop>
    requires { Stands (basis_of facts.now []) state.now }
    ensures whole { OnOk result (Took (explained facts.now (past_of state.now.log) port version) (T.taken out.old) (T.taken out.new)) }
    ensures front { OnErr result (TookFront (explained facts.now (past_of state.now.log) port version) (T.taken out.old) (T.taken out.new)) }
    ensures nothing { IsErrOf result OutputStop.NoMemory → T.taken out.new ≡ T.taken out.old }
    ensures cause { IsErrOf result OutputStop.SinkFault → Rose (T.faults out.old) (T.faults out.new) }
    ensures quiet { OnOk result (T.faults out.new ≡ T.faults out.old) }
    ensures quiet_no_memory { IsErrOf result OutputStop.NoMemory → T.faults out.new ≡ T.faults out.old }
    ensures counts { T.faults out.old ≤ T.faults out.new }
{
    let mut text = Vec::new(alloc);
    put_explained(&mut text, facts, state, port, version)?;
    write_whole(out, &text)?;
    Ok(())
}
