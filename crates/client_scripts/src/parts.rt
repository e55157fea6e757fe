//! Parts of lines, each put behind the bytes of a text.
ghost use Rattle.std.specs.Prelude.{◌≡◌, ◌++◌, OnOk};
ghost use Rattle.std.specs.Option.{option_copied};
ghost use Rattle.std.specs.Fmt.{decimal};
ghost use Rattle.client_scripts.specs.Parts.{port_text, refused_as, retry_text, seen_text, selector_text, version_text};

use crate::words::{mode_word, refusal_word};
use device_list::Selector;
use fw_facts::{Seen, Sheet};
use std::alloc::AllocError;
use update_log::Refusal;
use version_formats::render;

/// Puts a number behind the text, in decimal.
pub fn put_number(out: &mut Vec<u8>, number: u64) -> Result<(), AllocError>
    ensures { OnOk result (out.new.items ≡ out.old.items ++ decimal number) }
{
    let text = number.to_string(*out.allocator())?;
    out.extend_from_slice(text.as_bytes())
}

/// Puts a version behind the text, in the format of its board's sheet.
fn put_version(out: &mut Vec<u8>, sheet: Option<&Sheet>, raw: u32) -> Result<(), AllocError>
    ensures { OnOk result (out.new.items ≡ out.old.items ++ version_text (option_copied sheet.entry) raw) }
{
    match sheet {
        Some(sheet) => out.extend_from_slice(render(sheet.format, raw).bytes()),
        None => out.extend_from_slice(b"-"),
    }
}

/// Puts what a port shows behind the text.
pub fn put_seen(out: &mut Vec<u8>, sheet: Option<&Sheet>, seen: Seen) -> Result<(), AllocError>
    ensures { OnOk result (out.new.items ≡ out.old.items ++ seen_text (option_copied sheet.entry) seen) }
{
    match seen {
        Seen::Home { raw, mode } => {
            put_version(out, sheet, raw)?;
            out.extend_from_slice(b" ")?;
            out.extend_from_slice(mode_word(mode).as_bytes())
        }
        Seen::Gone => out.extend_from_slice(b"gone"),
        Seen::Stranger => out.extend_from_slice(b"stranger"),
    }
}

/// Puts a board's port behind the text.
pub fn put_port(out: &mut Vec<u8>, sheet: Option<&Sheet>) -> Result<(), AllocError>
    ensures { OnOk result (out.new.items ≡ out.old.items ++ port_text (option_copied sheet.entry)) }
{
    match sheet {
        Some(sheet) => out.extend_from_slice(sheet.port.bytes()),
        None => out.extend_from_slice(b"-"),
    }
}

/// Puts behind the text the entry of the row that is tried again, where one is.
pub fn put_retry(out: &mut Vec<u8>, retry_of: Option<u32>) -> Result<(), AllocError>
    ensures { OnOk result (out.new.items ≡ out.old.items ++ retry_text retry_of) }
{
    match retry_of {
        Some(entry) => {
            out.extend_from_slice(b" retry-of ")?;
            put_number(out, u64::from(entry))
        }
        None => Ok(()),
    }
}

/// Puts a device behind the text, as its client named it.
pub fn put_selector(out: &mut Vec<u8>, selector: &Selector) -> Result<(), AllocError>
    ensures { OnOk result (out.new.items ≡ out.old.items ++ selector_text selector.now) }
{
    match selector {
        Selector::Id(device) => out.extend_from_slice(&device.text()),
        Selector::Guid(guid) => out.extend_from_slice(&guid.text()),
        Selector::Port(port) => out.extend_from_slice(port.bytes()),
    }
}

/// Puts a refusal behind the text, by its number and its word.
pub fn put_refused_as(out: &mut Vec<u8>, refusal: &Refusal) -> Result<(), AllocError>
    ensures { OnOk result (out.new.items ≡ out.old.items ++ refused_as refusal.now) }
{
    out.extend_from_slice(b"refused ")?;
    put_number(out, u64::from(refusal.number()))?;
    out.extend_from_slice(b" ")?;
    out.extend_from_slice(refusal_word(refusal).as_bytes())
}
