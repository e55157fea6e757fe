//! Whom a requirement speaks of.
ghost use Rattle.std.specs.Prelude.{◌≡◌, ◌==◌, List, ℕ, IfOk, count_by, find, length, map, nat_lt};
ghost use Rattle.std.specs.Str.{bytes_eq};
ghost use Rattle.json_values.specs.Trees.{view};
ghost use Rattle.std.specs.Result.{result_ok};
ghost use Rattle.fw_base.specs.Names.{name_read};
ghost use Rattle.release_catalogue.specs.Reading.{Gives, or_fault};
ghost use Rattle.release_catalogue.specs.declared.reason.Reason.TheVariants.{WrongKind};
ghost use Rattle.release_catalogue.specs.Requirements.{bar, each_guid, firmware_subject, guids_between_bars, parts_of, subject_of, tag_at, tag_word};

use crate::kinds::text;
use crate::reason::Reason;
use crate::spot::{ReadStop, Spot, fault_at};
use fw_base::{Listed, Name, NoMemory};
use guid_ids::Guid;
use json_values::Value;
use std::alloc::{AllocError, Global};

/// The most GUIDs of a list.
pub const GUIDS_MAX: usize = 64;

/// The tag of a requirement.
#[derive(Clone, Copy, Debug, PartialEq, Eq)]
pub enum Tag {
    Id,
    Firmware,
    Hardware,
    NotHardware,
    Client,
}

impl Tag {
    const ALL: [Tag; 5] = [
        Tag::Id,
        Tag::Firmware,
        Tag::Hardware,
        Tag::NotHardware,
        Tag::Client,
    ];

    fn word(self) -> &'static [u8]
        ensures { result.now ≡ tag_word self }
    {
        match self {
            Tag::Id => b"id",
            Tag::Firmware => b"firmware",
            Tag::Hardware => b"hardware",
            Tag::NotHardware => b"not_hardware",
            Tag::Client => b"client",
        }
    }

    fn of_word(all: &[Tag], word: &[u8]) -> Option<Tag>
        ensures { result ≡ find (λ tag. bytes_eq (tag_word tag) word.now) all.now }
    {
        all.iter().copied().find(|tag| tag.word() == word)
    }
}

/// What a tag and its text name.
#[derive(Drop)]
pub enum Subject {
    Id(Name),
    Firmware,
    Bootloader,
    VendorId,
    Device(Guid),
    Hardware(Listed<Guid>),
    NotHardware(Listed<Guid>),
    Client(Name),
}

/// A tag, by its word, else `WrongKind`.
pub fn read_tag(value: &Value, spot: Spot) -> Result<Tag, ReadStop>
    ensures { Gives (λ t. t) result (tag_at spot (view value.now)) }
{
    let text = text(value, spot)?;
    match Tag::of_word(&Tag::ALL, text.as_bytes()) {
        None => Err(fault_at(spot, Reason::WrongKind)),
        Some(tag) => Ok(tag),
    }
}

/// Whom the requirement speaks of. The text of `id` and `client` is a name, else `WrongKind`; that of
/// `hardware` and `not_hardware` is 1 to 64 GUIDs between bars, else `TooMany` or `BadGuid`; that of
/// `firmware` is empty, `bootloader`, `vendor-id` or a GUID, else `BadGuid`.
#[tactic(auto, unfolding(crate::specs::Requirements::subject_of))]
pub fn read_subject(alloc: Global, tag: Tag, text: &[u8], spot: Spot) -> Result<Subject, ReadStop>
    ensures { Gives (λ s. s) result (subject_of tag spot text.now) }
{
    match tag {
        Tag::Id => Ok(Subject::Id(named(text, spot)?)),
        Tag::Firmware => firmware(text, spot),
        Tag::Hardware => Ok(Subject::Hardware(between_bars(alloc, text, spot)?)),
        Tag::NotHardware => Ok(Subject::NotHardware(between_bars(alloc, text, spot)?)),
        Tag::Client => Ok(Subject::Client(named(text, spot)?)),
    }
}

fn named(text: &[u8], spot: Spot) -> Result<Name, ReadStop>
    ensures { Gives (λ n. n) result (or_fault spot WrongKind (result_ok (name_read text.now))) }
{
    match Name::read(text) {
        Err(_) => Err(fault_at(spot, Reason::WrongKind)),
        Ok(name) => Ok(name),
    }
}

#[tactic(auto, unfolding(crate::specs::Requirements::firmware_subject))]
fn firmware(text: &[u8], spot: Spot) -> Result<Subject, ReadStop>
    ensures { Gives (λ s. s) result (firmware_subject spot text.now) }
{
    if text.is_empty() {
        return Ok(Subject::Firmware);
    }
    if text == b"bootloader".as_slice() {
        return Ok(Subject::Bootloader);
    }
    if text == b"vendor-id".as_slice() {
        return Ok(Subject::VendorId);
    }
    match Guid::read(text) {
        None => Err(fault_at(spot, Reason::BadGuid)),
        Some(guid) => Ok(Subject::Device(guid)),
    }
}

#[tactic(auto, unfolding(crate::specs::Requirements::guids_between_bars))]
fn between_bars(alloc: Global, text: &[u8], spot: Spot) -> Result<Listed<Guid>, ReadStop>
    ensures { Gives (λ guids. guids) result (guids_between_bars spot text.now) }
{
    if has_too_many_parts(text) {
        return Err(fault_at(spot, Reason::TooMany));
    }
    let parts = parts_of(alloc, text)?;
    match each_guid(alloc, &parts)? {
        None => Err(fault_at(spot, Reason::BadGuid)),
        Some(guids) => Ok(guids),
    }
}

fn has_too_many_parts(text: &[u8]) -> bool
    ensures { result ≡ nat_lt 64 (length (parts_of text.now)) }
{
    GUIDS_MAX - 1 < bars(text)
}

fn bars(text: &[u8]) -> usize
    ensures { result ≡ count_by (λ b. b == bar) text.now }
{
    text.iter().filter(|b| **b == b'|').count()
}

fn parts_of(alloc: Global, text: &[u8]) -> Result<Vec<&[u8]>, AllocError>
    ensures { IfOk result (λ parts. map (λ part. part.now) parts.items ≡ parts_of text.now) }
{
    text.split(|b| *b == b'|').collect(alloc)
}

fn each_guid(alloc: Global, parts: &[&[u8]]) -> Result<Option<Listed<Guid>>, NoMemory>
    ensures { IfOk result (λ guids. guids ≡ each_guid (map (λ part. part.now) parts.now)) }
{
    let mut guids = Vec::new(alloc);
    for part in parts {
        match Guid::read(part) {
            None => return Ok(None),
            Some(guid) => guids.push(guid)?,
        }
    }
    Ok(Some(Listed::of(guids)))
}
