//! Answers and refusals, each put behind the bytes of a text.
ghost use Rattle.std.specs.Prelude.{◌≡◌, ◌++◌, OnOk, codes};
ghost use Rattle.std.specs.Fmt.{decimal};
ghost use Rattle.report_text.specs.Refusals.{cause_text, fault_text, note_text, refusal_details, refused_text, retry_details};
ghost use Rattle.client_scripts.specs.Parts.{selector_text};
ghost use Rattle.report_text.specs.Lines.{ask_text, claim_text, resume_text, plug_text, back_text, query_text, kept_text};

use crate::parts::put_digest;
use crate::words::{cause_words, retry_words};
use client_scripts::parts::{put_number, put_refused_as, put_selector};
use client_scripts::words::{problem_word, state_word};
use device_list::Selector;
use history_keeper::RowState;
use requirements::{Unmet, UnmetCause};
use std::alloc::AllocError;
use update_log::{
    AskAnswer, Back, ClaimAnswer, FetchNote, PlugAnswer, Query, Refusal, ResumeAnswer, RetryFault,
};

/// Puts why a requirement does not hold behind the text: its number and its word.
pub fn put_cause(out: &mut Vec<u8>, cause: UnmetCause) -> Result<(), AllocError>
    ensures { OnOk result (out.new.items ≡ out.old.items ++ cause_text cause) }
{
    out.extend_from_slice(cause_words(cause).as_bytes())?;
    match cause {
        UnmetCause::DeviceInUse { entry } => put_part(out, u64::from(entry)),
        _ => Ok(()),
    }
}

/// Puts a blank and a number behind the text.
fn put_part(out: &mut Vec<u8>, number: u64) -> Result<(), AllocError>
    ensures { OnOk result (out.new.items ≡ out.old.items ++ codes " " ++ decimal number) }
{
    out.extend_from_slice(b" ")?;
    put_number(out, number)
}

fn put_note(out: &mut Vec<u8>, note: &FetchNote) -> Result<(), AllocError>
    ensures { OnOk result (out.new.items ≡ out.old.items ++ note_text note.now) }
{
    match note {
        FetchNote::Whole { .. } => out.extend_from_slice(b"whole"),
        FetchNote::Missing => out.extend_from_slice(b"missing"),
        FetchNote::Length { found } => {
            out.extend_from_slice(b"length ")?;
            put_number(out, *found)
        }
        FetchNote::Mismatch { found } => {
            out.extend_from_slice(b"mismatch ")?;
            put_digest(out, found)
        }
        FetchNote::ShelfFault => out.extend_from_slice(b"shelf-fault"),
    }
}

fn put_unmet(out: &mut Vec<u8>, unmet: &Unmet) -> Result<(), AllocError>
    ensures { OnOk result (out.new.items ≡ out.old.items ++ codes " " ++ decimal unmet.now.index ++ codes " " ++ cause_text unmet.now.cause) }
{
    put_part(out, u64::from(unmet.index))?;
    out.extend_from_slice(b" ")?;
    put_cause(out, unmet.cause)
}

fn put_fault(out: &mut Vec<u8>, fault: RetryFault) -> Result<(), AllocError>
    ensures { OnOk result (out.new.items ≡ out.old.items ++ fault_text fault) }
{
    out.extend_from_slice(retry_words(fault).as_bytes())?;
    put_fault_details(out, fault)
}

fn put_fault_details(out: &mut Vec<u8>, fault: RetryFault) -> Result<(), AllocError>
    ensures { OnOk result (out.new.items ≡ out.old.items ++ retry_details fault) }
{
    match fault {
        RetryFault::NotFailed { state } => {
            out.extend_from_slice(b" ")?;
            out.extend_from_slice(state_word(state).as_bytes())
        }
        RetryFault::Retried { entry } => put_part(out, u64::from(entry)),
        RetryFault::NoRow | RetryFault::OtherDevice | RetryFault::OtherRelease => Ok(()),
    }
}

fn put_details(out: &mut Vec<u8>, refusal: &Refusal) -> Result<(), AllocError>
    ensures { OnOk result (out.new.items ≡ out.old.items ++ refusal_details refusal.now) }
{
    match refusal {
        Refusal::Busy { entry } | Refusal::Unsettled { entry } => put_part(out, u64::from(*entry)),
        Refusal::Problem(problem) => {
            out.extend_from_slice(b" ")?;
            out.extend_from_slice(problem_word(*problem).as_bytes())
        }
        Refusal::Unmet(unmet) => put_unmet(out, unmet),
        Refusal::Veto { plugin } => {
            out.extend_from_slice(b" ")?;
            out.extend_from_slice(plugin.bytes())
        }
        Refusal::Size { len, min, max } => {
            put_part(out, u64::from(*len))?;
            put_part(out, u64::from(*min))?;
            put_part(out, u64::from(*max))
        }
        Refusal::NoRoom { need, free } => {
            put_part(out, u64::from(*need))?;
            put_part(out, u64::from(*free))
        }
        Refusal::Payload(note) => {
            out.extend_from_slice(b" ")?;
            put_note(out, note)
        }
        Refusal::Retry(fault) => {
            out.extend_from_slice(b" ")?;
            put_fault(out, *fault)
        }
        Refusal::NoDevice
        | Refusal::NoRelease
        | Refusal::NotUpdatable
        | Refusal::Locked
        | Refusal::SameVersion
        | Refusal::Older
        | Refusal::RowsFull
        | Refusal::KeeperFault => Ok(()),
    }
}

/// Puts a refusal behind the text.
pub fn put_refused(out: &mut Vec<u8>, refusal: &Refusal) -> Result<(), AllocError>
    ensures { OnOk result (out.new.items ≡ out.old.items ++ refused_text refusal.now) }
{
    put_refused_as(out, refusal)?;
    put_details(out, refusal)
}

/// Puts behind the text that a tag was taken before, by this entry.
pub fn put_kept(out: &mut Vec<u8>, entry: u32, state: RowState) -> Result<(), AllocError>
    ensures { OnOk result (out.new.items ≡ out.old.items ++ kept_text entry state) }
{
    out.extend_from_slice(b"kept ")?;
    put_number(out, u64::from(entry))?;
    out.extend_from_slice(b" ")?;
    out.extend_from_slice(state_word(state).as_bytes())
}

/// Puts the answer to an ask behind the text.
pub fn put_ask(out: &mut Vec<u8>, answer: &AskAnswer) -> Result<(), AllocError>
    ensures { OnOk result (out.new.items ≡ out.old.items ++ ask_text answer.now) }
{
    match answer {
        AskAnswer::Hold { blocks, .. } => {
            out.extend_from_slice(b"hold ")?;
            put_number(out, u64::from(*blocks))
        }
        AskAnswer::Kept { entry, state } => put_kept(out, *entry, *state),
        AskAnswer::Refused(refusal) => put_refused(out, refusal),
    }
}

/// Puts the answer to a claim behind the text.
pub fn put_claim(out: &mut Vec<u8>, answer: &ClaimAnswer) -> Result<(), AllocError>
    ensures { OnOk result (out.new.items ≡ out.old.items ++ claim_text answer.now) }
{
    match answer {
        ClaimAnswer::Entry(entry) => {
            out.extend_from_slice(b"entry ")?;
            put_number(out, u64::from(*entry))
        }
        ClaimAnswer::Kept { entry, state } => put_kept(out, *entry, *state),
        ClaimAnswer::Refused(refusal) => put_refused(out, refusal),
    }
}

/// Puts the answer to a resumption behind the text.
pub fn put_resume(out: &mut Vec<u8>, answer: &ResumeAnswer) -> Result<(), AllocError>
    ensures { OnOk result (out.new.items ≡ out.old.items ++ resume_text answer.now) }
{
    match answer {
        ResumeAnswer::Begun => out.extend_from_slice(b"begun"),
        ResumeAnswer::Refused(refusal) => put_refused(out, refusal),
    }
}

/// Puts the answer to a plug or an unplug behind the text.
pub fn put_plug(out: &mut Vec<u8>, answer: &PlugAnswer) -> Result<(), AllocError>
    ensures { OnOk result (out.new.items ≡ out.old.items ++ plug_text answer.now) }
{
    match answer {
        PlugAnswer::Done { .. } => out.extend_from_slice(b"done"),
        PlugAnswer::NoDevice => out.extend_from_slice(b"no-device"),
        PlugAnswer::Busy { entry } => {
            out.extend_from_slice(b"busy ")?;
            put_number(out, u64::from(*entry))
        }
        PlugAnswer::NotThere => out.extend_from_slice(b"not-there"),
        PlugAnswer::AlreadyThere => out.extend_from_slice(b"already-there"),
    }
}

/// Puts what was given back behind the text.
pub fn put_back(out: &mut Vec<u8>, what: &Back) -> Result<(), AllocError>
    ensures { OnOk result (out.new.items ≡ out.old.items ++ back_text what.now) }
{
    match what {
        Back::Tag(tag) => out.extend_from_slice(tag.bytes()),
        Back::Pending(entry) => {
            out.extend_from_slice(b"pending ")?;
            put_number(out, u64::from(*entry))
        }
        Back::Entry(entry) => {
            out.extend_from_slice(b"entry ")?;
            put_number(out, u64::from(*entry))
        }
    }
}

/// Puts a question behind the text.
pub fn put_query(out: &mut Vec<u8>, query: &Query) -> Result<(), AllocError>
    ensures { OnOk result (out.new.items ≡ out.old.items ++ query_text query.now) }
{
    match query {
        Query::Devices => out.extend_from_slice(b"get-devices"),
        Query::Releases(device) => put_of_device(out, b"get-releases ", device),
        Query::Upgrades(device) => put_of_device(out, b"get-upgrades ", device),
        Query::History => out.extend_from_slice(b"get-history"),
        Query::Results(device) => put_of_device(out, b"get-results ", device),
        Query::Settle(device) => put_of_device(out, b"settle ", device),
    }
}

fn put_of_device(out: &mut Vec<u8>, word: &[u8], device: &Selector) -> Result<(), AllocError>
    ensures { OnOk result (out.new.items ≡ out.old.items ++ word.now ++ selector_text device.now) }
{
    out.extend_from_slice(word)?;
    put_selector(out, device)
}
