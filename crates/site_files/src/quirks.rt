//! The quirk files in the document.
ghost use Rattle.std.specs.Prelude.{◌≡◌, ◌++◌, ◌≤◌, [], OnOk, length};
ghost use Rattle.quirk_files.specs.Files.{file_fault, file_quirks};
ghost use Rattle.json_values.specs.Trees.{view, items_view};
ghost use Rattle.release_catalogue.specs.Reading.{Gives, optional};
ghost use Rattle.site_files.specs.Quirks.{each_file, no_fault, quirk_stop, quirks_at};

use json_values::Value;
use quirk_files::{QuirkBook, QuirkFault};
use release_catalogue::entries::count;
use release_catalogue::kinds::{items, text};
use release_catalogue::members::member;
use release_catalogue::spot::fault_at;
use release_catalogue::{Level, ReadStop, Reason, Spot, Word};
use site_scripts::spot_in;
use std::alloc::Global;

/// The most quirk files.
pub const FILES_MAX: usize = 64;

/// The quirks of the document, or none where the section is missing.
pub fn quirks_or_none(alloc: Global, value: &Value, spot: Spot) -> Result<QuirkBook, ReadStop>
    ensures { Gives (λ b. b) result (optional spot Word.Quirks quirks_at [] (view value.now)) }
{
    match member(value, Word::Quirks) {
        None => Ok(QuirkBook::new(alloc)),
        Some(found) => quirks(alloc, found, spot.field(Word::Quirks)),
    }
}

/// The quirks of up to 64 files, in reading order.
pub fn quirks(alloc: Global, value: &Value, spot: Spot) -> Result<QuirkBook, ReadStop>
    ensures { Gives (λ b. b) result (quirks_at spot (view value.now)) }
{
    let values = items(value, spot)?;
    if FILES_MAX < count(values) {
        return Err(fault_at(spot, Reason::TooMany));
    }
    each_file(alloc, values)
}

fn each_file(alloc: Global, values: &[Value]) -> Result<QuirkBook, ReadStop>
    requires few { length values.now ≤ 64 }
    ensures { Gives (λ b. b) result (each_file 0 [] (items_view values.now)) }
{
    let base = spot_in(Word::Quirks, Word::Entry);
    let mut book = QuirkBook::new(alloc);
    for (i, value) in values.iter().enumerate() {
        let spot = base.entry(Level::First, i as u32);
        let text = text(value, spot)?;
        read_file(alloc, &mut book, text, spot)?;
    }
    Ok(book)
}

/// Puts the quirks of a file behind those of the book.
fn read_file(alloc: Global, book: &mut QuirkBook, text: &str, spot: Spot) -> Result<(), ReadStop>
    ensures read { OnOk result (book.new ≡ book.old ++ file_quirks text.now) }
    ensures fault { Gives (λ u. u) result (no_fault spot (file_fault text.now)) }
{
    match book.read_file(alloc, text.as_bytes()) {
        Ok(()) => Ok(()),
        Err(fault) => Err(quirk_stop(spot, fault)),
    }
}

fn quirk_stop(spot: Spot, fault: QuirkFault) -> ReadStop
    ensures { result ≡ quirk_stop spot fault }
{
    match fault {
        QuirkFault::NoGroup { line } => fault_at(spot, Reason::BadQuirk { fault: 1, line }),
        QuirkFault::BadGroup { line } => fault_at(spot, Reason::BadQuirk { fault: 2, line }),
        QuirkFault::NoEquals { line } => fault_at(spot, Reason::BadQuirk { fault: 3, line }),
        QuirkFault::NotText { line } => fault_at(spot, Reason::BadQuirk { fault: 4, line }),
        QuirkFault::TooLarge { len: _ } => fault_at(spot, Reason::BadQuirk { fault: 5, line: 0 }),
        QuirkFault::NoMemory => ReadStop::NoMemory,
    }
}
