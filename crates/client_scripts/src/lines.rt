//! Lines that several replies have.
ghost use Rattle.std.specs.Prelude.{◌≡◌, ◌++◌, ◌-◌, OnOk};
ghost use Rattle.client_scripts.specs.Replies.{left_out, no_device, none_listed};

use crate::parts::{put_number, put_refused_as};
use std::alloc::AllocError;
use update_log::Refusal;

/// The most lines of a list.
pub const LINES_MAX: usize = 64;

/// Puts the line behind the text that says that the device isn't there.
pub fn put_no_device(out: &mut Vec<u8>) -> Result<(), AllocError>
    ensures { OnOk result (out.new.items ≡ out.old.items ++ no_device) }
{
    out.extend_from_slice(b"  ")?;
    put_refused_as(out, &Refusal::NoDevice)?;
    out.extend_from_slice(b"\n")
}

/// Puts the line behind the text that says that there is nothing to list.
pub fn put_none(out: &mut Vec<u8>) -> Result<(), AllocError>
    ensures { OnOk result (out.new.items ≡ out.old.items ++ none_listed) }
{
    out.extend_from_slice(b"  none\n")
}

/// Puts the line behind the text that says how many were left out of a list.
pub fn put_left_out(out: &mut Vec<u8>, more: usize) -> Result<(), AllocError>
    ensures { OnOk result (out.new.items ≡ out.old.items ++ left_out more) }
{
    if more == 0 {
        return Ok(());
    }
    out.extend_from_slice(b"  more ")?;
    put_number(out, more as u64)?;
    out.extend_from_slice(b"\n")
}
