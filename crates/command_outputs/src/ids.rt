//! What `ids` prints.
ghost use Rattle.std.specs.Prelude.{◌≡◌, ◌≤◌, ◌++◌, OnOk, OnErr, IsErrOf};
ghost use Rattle.outer_traits.specs.Faults.{Rose};
ghost use Rattle.outer_traits.specs.Sinks.{Took, TookFront};
ghost use Rattle.command_outputs.specs.Printed.{id_line, ids_output};

use crate::stop::OutputStop;
use command_words::Text;
use guid_ids::guid_of;
use outer_traits::{Sink, write_whole};
use std::alloc::{AllocError, Global};

/// Puts the line of a text behind the others.
#[tactic(auto, unfolding(crate::specs::Printed::id_line))]
fn put_id(out: &mut Vec<u8>, text: &[u8]) -> Result<(), AllocError>
    ensures { OnOk result (out.new.items ≡ out.old.items ++ id_line text.now) }
{
    out.extend_from_slice(text)?;
    out.extend_from_slice(b" ")?;
    out.extend_from_slice(&guid_of(text).text())?;
    out.extend_from_slice(b"\n")
}

/// Puts the lines of all texts behind one another.
fn put_ids(out: &mut Vec<u8>, texts: &[Text]) -> Result<(), AllocError>
    ensures { OnOk result (out.new.items ≡ out.old.items ++ ids_output texts.now) }
{
    for text in texts {
        put_id(out, text.bytes())?;
    }
    Ok(())
}

/// Writes what `ids` prints of some texts.
///
/// `SinkFault` comes only where the sink's faults rose in this call. After a stop the sink has taken
/// a front of the output.
pub fn write_ids<T: Sink>(alloc: Global, texts: &[Text], out: &mut T) -> Result<(), OutputStop>
    ensures whole { OnOk result (Took (ids_output texts.now) (T.taken out.old) (T.taken out.new)) }
    ensures front { OnErr result (TookFront (ids_output texts.now) (T.taken out.old) (T.taken out.new)) }
    ensures nothing { IsErrOf result OutputStop.NoMemory → T.taken out.new ≡ T.taken out.old }
    ensures cause { IsErrOf result OutputStop.SinkFault → Rose (T.faults out.old) (T.faults out.new) }
    ensures quiet { OnOk result (T.faults out.new ≡ T.faults out.old) }
    ensures quiet_no_memory { IsErrOf result OutputStop.NoMemory → T.faults out.new ≡ T.faults out.old }
    ensures counts { T.faults out.old ≤ T.faults out.new }
{
    let mut text = Vec::new(alloc);
    put_ids(&mut text, texts)?;
    write_whole(out, &text)?;
    Ok(())
}
