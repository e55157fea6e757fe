//! From a text to its value.
ghost use Rattle.std.specs.Prelude.{◌≡◌, IfOk, IsErrOf, IsUtf8, OnErr, false, true};
ghost use Rattle.json.specs.Value.{value_view};
ghost use Rattle.serde_json.specs.Read.{read};
ghost use Rattle.json_values.specs.Faults.{fault_of};
ghost use Rattle.json_values.specs.Trees.{is_in_range, view};

use crate::ranges::is_in_range;
use json::{Error as TreeError, Reader, Scratch, Value};
use std::alloc::Global;
use thiserror::Error;

/// How many arrays and objects may stand in one another.
const DEPTH_MAX: usize = 127;

/// Why bytes have no value.
#[derive(Clone, Copy, Debug, Error)]
pub enum JsonFault {
    /// They aren't UTF-8, JSON's grammar has no place for them, arrays and objects nest more than 127 deep, or a
    /// number is too large for a float.
    #[error("no JSON")]
    NotJson,
    /// No memory was to be had.
    #[error("no memory")]
    NoMemory,
}

/// The value of the bytes, in which arrays and objects nest at most 127 deep. Its texts are theirs, or where they have
/// escapes, those of the scratch, which takes as much room as there are bytes.
pub fn read<'t>(
    alloc: Global,
    bytes: &'t [u8],
    scratch: &'t mut Scratch,
) -> Result<Value<'t>, JsonFault>
    ensures found { IfOk result (λ value. IsUtf8 bytes.now × (read bytes.now ≡ Some (view value))) }
    ensures refused { IsErrOf result JsonFault.NotJson → IsUtf8 bytes.now → read bytes.now ≡ None }
{
    match simdutf8::compat::from_utf8(bytes) {
        Ok(text) => read_text(alloc, text, scratch),
        Err(_) => Err(JsonFault::NotJson),
    }
}

fn read_text<'t>(
    alloc: Global,
    text: &'t str,
    scratch: &'t mut Scratch,
) -> Result<Value<'t>, JsonFault>
    ensures found { IfOk result (λ value. read text.now ≡ Some (view value)) }
    ensures refused { IsErrOf result JsonFault.NotJson → read text.now ≡ None }
{
    let Ok(mut reader) = Reader::new(text, scratch) else {
        return Err(JsonFault::NoMemory);
    };
    let value = match Value::read(alloc, &mut reader, DEPTH_MAX) {
        Ok(value) => value,
        Err(error) => return Err(fault_of(error)),
    };
    if reader.next().is_some() {
        return Err(JsonFault::NotJson);
    }
    within_range(value)
}

/// The value, unless a number of it is out of range.
fn within_range<'t>(value: Value<'t>) -> Result<Value<'t>, JsonFault>
    ensures found { IfOk result (λ same. (same ≡ value.entry) × (is_in_range (value_view value.entry) ≡ true)) }
    ensures refused { OnErr result (is_in_range (value_view value.entry) ≡ false) }
{
    if is_in_range(&value) {
        Ok(value)
    } else {
        Err(JsonFault::NotJson)
    }
}

/// The fault of a tree that wasn't read. Of these errors only the first two come.
fn fault_of(error: TreeError) -> JsonFault
    ensures { result ≡ fault_of error }
{
    match error {
        TreeError::Invalid => JsonFault::NotJson,
        TreeError::OutOfMemory | TreeError::TooLong | TreeError::DuplicateKey =>
            JsonFault::NoMemory,
    }
}
