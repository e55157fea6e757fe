//! The text of the document.
ghost use Rattle.json_values.specs.Trees.{view};
ghost use Rattle.release_catalogue.specs.Reading.{Gives};
ghost use Rattle.site_files.specs.Texts.{json_at};

use json_values::{JsonFault, Scratch, Value};
use release_catalogue::spot::fault_at;
use release_catalogue::{ReadStop, Reason};
use site_scripts::whole_spot;
use std::alloc::Global;

/// The value of the text, which borrows the bytes and the scratch. Bytes that aren't UTF-8, that JSON's grammar has no
/// place for, that nest more than 127 deep or that have a number too large for a float are `NotJson`.
pub fn json<'t>(
    alloc: Global,
    bytes: &'t [u8],
    scratch: &'t mut Scratch,
) -> Result<Value<'t>, ReadStop>
    ensures { Gives view result (json_at bytes.now) }
{
    match json_values::read(alloc, bytes, scratch) {
        Ok(value) => Ok(value),
        Err(JsonFault::NotJson) => Err(fault_at(whole_spot(), Reason::NotJson)),
        Err(JsonFault::NoMemory) => Err(ReadStop::NoMemory),
    }
}
