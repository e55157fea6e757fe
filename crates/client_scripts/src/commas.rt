//! Words with commas between them.
ghost use Rattle.std.specs.Prelude.{◌≡◌, ◌++◌, ◌||◌, [], OnOk, IfOk, if◌then◌else◌, map};
ghost use Rattle.guid_ids.specs.Identifiers.{guid_text};
ghost use Rattle.client_scripts.specs.Commas.{comma_if, end_text};
ghost use Rattle.client_scripts.specs.Replies.{flag_words, problem_words, with_commas};

use crate::words::problem_word;
use fw_facts::{DeviceFlag, DeviceFlags, DeviceView, MachineFacts, Problem};
use guid_ids::Guid;
use std::alloc::AllocError;

/// Puts the words of a set of flags behind the text.
pub fn put_flags(out: &mut Vec<u8>, flags: DeviceFlags) -> Result<(), AllocError>
    ensures { OnOk result (out.new.items ≡ out.old.items ++ with_commas (flag_words flags)) }
{
    let mut begun = false;
    for flag in &DeviceFlag::ALL {
        begun = put_if(out, begun, flags.has(*flag), flag.word())?;
    }
    put_end(out, begun)
}

/// Puts the words of a device's problems behind the text, where it has a row that waits for the next
/// boot or has none.
pub fn put_problems(
    out: &mut Vec<u8>,
    machine: &MachineFacts,
    view: &DeviceView,
    waiting: Option<u32>,
) -> Result<(), AllocError>
    ensures { OnOk result (out.new.items ≡ out.old.items ++ with_commas (problem_words machine.now view.now waiting)) }
{
    let mut begun = false;
    for problem in &Problem::ALL {
        let holds = problem.holds(machine, view, waiting);
        begun = put_if(out, begun, holds, problem_word(*problem).as_bytes())?;
    }
    put_end(out, begun)
}

/// Puts GUIDs behind the text.
pub fn put_guids(out: &mut Vec<u8>, guids: &[Guid]) -> Result<(), AllocError>
    ensures { OnOk result (out.new.items ≡ out.old.items ++ with_commas (map guid_text guids.now)) }
{
    let mut begun = false;
    for guid in guids {
        begun = put_if(out, begun, true, &guid.text())?;
    }
    put_end(out, begun)?;
    Ok(())
}

// Puts a word behind those before it, where it belongs to the list; `begun` tells whether there was one.
fn put_if(out: &mut Vec<u8>, begun: bool, listed: bool, word: &[u8]) -> Result<bool, AllocError>
    ensures text { OnOk result (out.new.items ≡ out.old.items ++ (if listed then comma_if begun ++ word.now else [])) }
    ensures begun { IfOk result (λ now. now ≡ (listed || begun)) }
{
    if !listed {
        return Ok(begun);
    }
    if begun {
        out.extend_from_slice(b",")?;
    }
    out.extend_from_slice(word)?;
    Ok(true)
}

// Puts `-` behind the text, where the list had no word.
fn put_end(out: &mut Vec<u8>, begun: bool) -> Result<(), AllocError>
    ensures { OnOk result (out.new.items ≡ out.old.items ++ end_text begun) }
{
    if begun {
        return Ok(());
    }
    out.extend_from_slice(b"-")
}
