//! The line of a row.
ghost use Rattle.std.specs.Prelude.{◌≡◌, ◌++◌, ◌∷◌, OnOk, IfOk};
ghost use Rattle.hex.specs.Hex.{encode_lower};
ghost use Rattle.serde_json.specs.Data.{null, string};
ghost use Rattle.report_queue.specs.Lines.{first_text, key_text, last_text, line, member_text, next_text, number_data, number_or_null, state_word, text_or_null};

use crate::json_text::put_quoted;
use fw_base::{Name, NoMemory};
use history_keeper::{Row, RowState};
use std::alloc::{AllocError, Global};

/// The line of a row: a compact JSON object (RFC 8259) with the keys `changed`, `component`, `device`, `digest`,
/// `duration`, `entry`, `new`, `old`, `protocol`, `reason`, `retry-of`, `state` and `tag`, in this order, and a newline.
/// The device and the digest are hex digits in lower case, and a protocol or a link that the row hasn't is `null`.
pub fn line_of(alloc: Global, row: &Row) -> Result<Vec<u8>, NoMemory>
    ensures { IfOk result (λ text. text.items ≡ line row.now) }
{
    let mut text = Vec::new(alloc);
    put_first(&mut text, row)?;
    put_next(&mut text, row)?;
    put_last(&mut text, row)?;
    Ok(text)
}

// The members from `changed` to `duration`, behind the bracket.
#[tactic(auto, unfolding(crate::specs::Lines::first_text))]
fn put_first(out: &mut Vec<u8>, row: &Row) -> Result<(), AllocError>
    ensures { OnOk result (out.new.items ≡ out.old.items ++ first_text row.now) }
{
    put_number(out, b'{', "changed", row.time_changed)?;
    put_text(out, b',', "component", row.component.bytes())?;
    put_text(out, b',', "device", &row.device.text())?;
    put_hex(out, b',', "digest", &row.digest)?;
    put_number(out, b',', "duration", u64::from(row.duration))
}

// The members from `entry` to `protocol`.
#[tactic(auto, unfolding(crate::specs::Lines::next_text))]
fn put_next(out: &mut Vec<u8>, row: &Row) -> Result<(), AllocError>
    ensures { OnOk result (out.new.items ≡ out.old.items ++ next_text row.now) }
{
    put_number(out, b',', "entry", u64::from(row.entry))?;
    put_text(out, b',', "new", row.version_new.bytes())?;
    put_text(out, b',', "old", row.version_old.bytes())?;
    put_name_or_null(out, b',', "protocol", &row.protocol)
}

// The members from `reason` to `tag`, and the end of the line.
#[tactic(auto, unfolding(crate::specs::Lines::last_text))]
fn put_last(out: &mut Vec<u8>, row: &Row) -> Result<(), AllocError>
    ensures { OnOk result (out.new.items ≡ out.old.items ++ last_text row.now) }
{
    put_number(out, b',', "reason", u64::from(row.reason))?;
    put_number_or_null(out, b',', "retry-of", row.retry_of)?;
    put_text(out, b',', "state", state_word(row.state).as_bytes())?;
    put_text(out, b',', "tag", row.tag.bytes())?;
    out.extend_from_slice(b"}\n")
}

// A key and its colon, behind a byte.
#[tactic(auto, unfolding(crate::specs::Lines::key_text))]
fn put_key(out: &mut Vec<u8>, before: u8, key: &str) -> Result<(), AllocError>
    ensures { OnOk result (out.new.items ≡ out.old.items ++ before ∷ key_text key.now) }
{
    out.extend_from_slice(&[before])?;
    put_quoted(out, key.as_bytes())?;
    out.extend_from_slice(b":")
}

#[tactic(auto, unfolding(crate::specs::Lines::member_text))]
fn put_number(out: &mut Vec<u8>, before: u8, key: &str, number: u64) -> Result<(), AllocError>
    ensures { OnOk result (out.new.items ≡ out.old.items ++ before ∷ member_text key.now (number_data number)) }
{
    put_key(out, before, key)?;
    let digits = number.to_string(*out.allocator())?;
    out.extend_from_slice(digits.as_bytes())
}

#[tactic(auto, unfolding(crate::specs::Lines::member_text))]
fn put_text(out: &mut Vec<u8>, before: u8, key: &str, text: &[u8]) -> Result<(), AllocError>
    ensures { OnOk result (out.new.items ≡ out.old.items ++ before ∷ member_text key.now (string text.now)) }
{
    put_key(out, before, key)?;
    put_quoted(out, text)
}

fn put_hex(out: &mut Vec<u8>, before: u8, key: &str, bytes: &[u8]) -> Result<(), AllocError>
    ensures { OnOk result (out.new.items ≡ out.old.items ++ before ∷ member_text key.now (string (encode_lower bytes.now))) }
{
    let digits = hex::encode(*out.allocator(), bytes)?;
    put_text(out, before, key, digits.as_bytes())
}

#[tactic(auto, unfolding(crate::specs::Lines::member_text))]
fn put_null(out: &mut Vec<u8>, before: u8, key: &str) -> Result<(), AllocError>
    ensures { OnOk result (out.new.items ≡ out.old.items ++ before ∷ member_text key.now null) }
{
    put_key(out, before, key)?;
    out.extend_from_slice(b"null")
}

fn put_name_or_null(
    out: &mut Vec<u8>,
    before: u8,
    key: &str,
    name: &Option<Name>,
) -> Result<(), AllocError>
    ensures { OnOk result (out.new.items ≡ out.old.items ++ before ∷ member_text key.now (text_or_null name.now)) }
{
    match name {
        None => put_null(out, before, key),
        Some(name) => put_text(out, before, key, name.bytes()),
    }
}

fn put_number_or_null(
    out: &mut Vec<u8>,
    before: u8,
    key: &str,
    number: Option<u32>,
) -> Result<(), AllocError>
    ensures { OnOk result (out.new.items ≡ out.old.items ++ before ∷ member_text key.now (number_or_null number)) }
{
    match number {
        None => put_null(out, before, key),
        Some(number) => put_number(out, before, key, u64::from(number)),
    }
}

fn state_word(state: RowState) -> &'static str
    ensures { result.now ≡ state_word state }
{
    match state {
        RowState::Pending => "pending",
        RowState::Success => "success",
        RowState::Failed => "failed",
        RowState::NeedsReboot => "needs-reboot",
        RowState::Begun => "begun",
    }
}
