//! Lines of `explain`, each put behind the text.
ghost use Rattle.std.specs.Prelude.{◌≡◌, ◌++◌, OnOk};
ghost use Rattle.command_outputs.specs.Explained.{heading, met_text, requirement_line, verdict_line, verdict_text};

use client_scripts::parts::put_number;
use fw_base::Name;
use report_text::answers::{put_cause, put_kept, put_refused};
use requirements::UnmetCause;
use std::alloc::AllocError;
use update_log::Decision;
use version_formats::Version;

#[tactic(auto, unfolding(crate::specs::Explained::heading))]
pub fn put_heading(out: &mut Vec<u8>, port: &Name, version: &Version) -> Result<(), AllocError>
    ensures { OnOk result (out.new.items ≡ out.old.items ++ heading port.now version.now) }
{
    out.extend_from_slice(b"explain ")?;
    out.extend_from_slice(port.bytes())?;
    out.extend_from_slice(b" ")?;
    out.extend_from_slice(version.bytes())?;
    out.extend_from_slice(b"\n")
}

fn put_met(out: &mut Vec<u8>, unmet: Option<UnmetCause>) -> Result<(), AllocError>
    ensures { OnOk result (out.new.items ≡ out.old.items ++ met_text unmet) }
{
    match unmet {
        None => out.extend_from_slice(b"holds"),
        Some(cause) => {
            out.extend_from_slice(b"unmet ")?;
            put_cause(out, cause)
        }
    }
}

/// The line of a requirement.
#[tactic(auto, unfolding(crate::specs::Explained::requirement_line))]
pub fn put_requirement(
    out: &mut Vec<u8>,
    index: usize,
    unmet: Option<UnmetCause>,
) -> Result<(), AllocError>
    ensures { OnOk result (out.new.items ≡ out.old.items ++ requirement_line index unmet) }
{
    out.extend_from_slice(b"  ")?;
    put_number(out, index as u64)?;
    out.extend_from_slice(b" ")?;
    put_met(out, unmet)?;
    out.extend_from_slice(b"\n")
}

fn put_verdict_text(out: &mut Vec<u8>, decision: &Decision) -> Result<(), AllocError>
    ensures { OnOk result (out.new.items ≡ out.old.items ++ verdict_text decision.now) }
{
    match decision {
        Decision::Accept { .. } => out.extend_from_slice(b"accept"),
        Decision::Kept { entry, state } => put_kept(out, *entry, *state),
        Decision::Refused(refusal) => put_refused(out, refusal),
    }
}

/// The line of the verdict.
#[tactic(auto, unfolding(crate::specs::Explained::verdict_line))]
pub fn put_verdict(out: &mut Vec<u8>, decision: &Decision) -> Result<(), AllocError>
    ensures { OnOk result (out.new.items ≡ out.old.items ++ verdict_line decision.now) }
{
    out.extend_from_slice(b"verdict ")?;
    put_verdict_text(out, decision)?;
    out.extend_from_slice(b"\n")
}
