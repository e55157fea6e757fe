//! What `check` prints.
ghost use Rattle.std.specs.Prelude.{◌≡◌, ◌≤◌, ◌++◌, OnOk, OnErr, IsErrOf};
ghost use Rattle.outer_traits.specs.Faults.{Rose};
ghost use Rattle.outer_traits.specs.Sinks.{Took, TookFront};
ghost use Rattle.command_outputs.specs.Printed.{check_output};

use crate::line::put_count;
use crate::stop::OutputStop;
use outer_traits::{Sink, write_whole};
use std::alloc::{AllocError, Global};

/// How many entries the sections of a document have.
#[derive(Clone, Copy, Debug)]
pub struct Sections {
    pub boards: usize,
    pub components: usize,
    pub clients: usize,
    pub boots: usize,
}

/// Puts the line of `check` behind the text.
#[tactic(auto, unfolding(crate::specs::Printed::check_output))]
fn put_check(out: &mut Vec<u8>, sections: Sections) -> Result<(), AllocError>
    ensures { OnOk result (out.new.items ≡ out.old.items ++ check_output sections) }
{
    put_count(out, b"ok boards ", sections.boards)?;
    put_count(out, b" components ", sections.components)?;
    put_count(out, b" clients ", sections.clients)?;
    put_count(out, b" boots ", sections.boots)?;
    out.extend_from_slice(b"\n")
}

/// Writes what `check` prints of a document.
///
/// `SinkFault` comes only where the sink's faults rose in this call. After a stop the sink has taken
/// a front of the output.
pub fn write_check<T: Sink>(
    alloc: Global,
    sections: Sections,
    out: &mut T,
) -> Result<(), OutputStop>
    ensures whole { OnOk result (Took (check_output sections) (T.taken out.old) (T.taken out.new)) }
    ensures front { OnErr result (TookFront (check_output sections) (T.taken out.old) (T.taken out.new)) }
    ensures nothing { IsErrOf result OutputStop.NoMemory → T.taken out.new ≡ T.taken out.old }
    ensures cause { IsErrOf result OutputStop.SinkFault → Rose (T.faults out.old) (T.faults out.new) }
    ensures quiet { OnOk result (T.faults out.new ≡ T.faults out.old) }
    ensures quiet_no_memory { IsErrOf result OutputStop.NoMemory → T.faults out.new ≡ T.faults out.old }
    ensures counts { T.faults out.old ≤ T.faults out.new }
{
    let mut text = Vec::new(alloc);
    put_check(&mut text, sections)?;
    write_whole(out, &text)?;
    Ok(())
}
