//! Parts of lines, each put behind the bytes of a text.
ghost use Rattle.std.specs.Prelude.{◌≡◌, ◌++◌, OnOk};
ghost use Rattle.std.specs.Option.{option_to_list};
ghost use Rattle.hex.specs.Hex.{encode_lower};
ghost use Rattle.report_text.specs.Lines.{marks_text, client_text};

use crate::words::mark_word;
use client_scripts::parts::put_number;
use emulated_boards::Mark;
use fw_base::Digest;
use std::alloc::AllocError;
use update_log::Told;

/// Puts a digest behind the text, as 64 hex digits in lower case.
pub fn put_digest(out: &mut Vec<u8>, digest: &Digest) -> Result<(), AllocError>
    ensures { OnOk result (out.new.items ≡ out.old.items ++ encode_lower digest.now) }
{
    let text = hex::encode(*out.allocator(), digest.as_slice())?;
    out.extend_from_slice(text.as_bytes())
}

/// Puts `client N` behind the text.
pub fn put_client(out: &mut Vec<u8>, client: u32) -> Result<(), AllocError>
    ensures { OnOk result (out.new.items ≡ out.old.items ++ client_text client) }
{
    out.extend_from_slice(b"client ")?;
    put_number(out, u64::from(client))
}

/// Puts the word of each mark behind the text, a blank before each.
#[tactic(auto, using(crate::proofs::Marks::parts_text))]
pub fn put_told(out: &mut Vec<u8>, told: &Told) -> Result<(), AllocError>
    ensures { OnOk result (out.new.items ≡ out.old.items ++ marks_text told.now) }
{
    let (first, second) = told.parts();
    put_mark(out, first)?;
    put_mark(out, second)
}

fn put_mark(out: &mut Vec<u8>, mark: Option<Mark>) -> Result<(), AllocError>
    ensures { OnOk result (out.new.items ≡ out.old.items ++ marks_text (option_to_list mark)) }
{
    match mark {
        Some(mark) => {
            out.extend_from_slice(b" ")?;
            out.extend_from_slice(mark_word(&mark).as_bytes())
        }
        None => Ok(()),
    }
}
