//! Books of quirks.
ghost use Rattle.std.specs.Prelude.{◌≡◌, ◌++◌, ◌∷◌, ◌⊎◌, [], Some, None, filter, map, IfErr, OnOk, OnErr, IfOk};
ghost use Rattle.std.specs.List.{flat_map};
ghost use Rattle.quirk_files.specs.Files.{file_fault, file_quirks};
ghost use Rattle.quirk_files.specs.Sheets.{is_for, sheet_after, guids_of_sheet};

use crate::fault::QuirkFault;
use crate::file::FileQuirks;
use crate::index::Indexed;
use crate::quirk::Quirk;
use crate::sheets::set;
use fw_base::NoMemory;
use fw_facts::Sheet;
use guid_ids::Guid;
use std::alloc::Global;
use std::marker::Model;

/// The quirks of the files that were read, in reading order. Contracts see their list.
#[derive(Drop)]
pub struct QuirkBook {
    files: Vec<Indexed>,
}

impl Model for QuirkBook {
    ghost use Rattle.std.specs.Prelude.{List};
    ghost use Rattle.std.specs.List.{flat_map};
    ghost use Rattle.quirk_files.specs.declared.quirk.Quirk.{Quirk};

    ghost Value = { List Quirk };

    ghost view = { λ s. flat_map (λ file. file) s.files.items };
}

impl QuirkBook {
    /// The book without a quirk. It takes no memory.
    pub fn new(alloc: Global) -> QuirkBook
        ensures { result ≡ [] }
    {
        QuirkBook {
            files: Vec::new(alloc),
        }
    }

    /// Reads a quirk file: its quirks come behind those that are there. A fault leaves the book as it
    /// was. The file is split at newlines, and a carriage return at the end of a line is dropped.
    #[tactic(auto, using(crate::proofs::Loops::pieces_more))]
    pub fn read_file(&mut self, alloc: Global, bytes: &[u8]) -> Result<(), QuirkFault>
        ensures read { OnOk result (self.new ≡ self.old ++ file_quirks bytes.now) }
        ensures sound { OnOk result (file_fault bytes.now ≡ None) }
        ensures unchanged { OnErr result (self.new ≡ self.old) }
        ensures refused { IfErr result (λ fault. (fault ≡ QuirkFault.NoMemory) ⊎ (file_fault bytes.now ≡ Some fault)) }
    {
        let file = read_indexed(alloc, bytes)?;
        match push_file(&mut self.files, file) {
            Ok(()) => Ok(()),
            Err(NoMemory) => Err(QuirkFault::NoMemory),
        }
    }

    /// Sets what the quirks say that are for the sheet: those whose group is a GUID that the sheet has
    /// at the start, on either side. Want of memory leaves the sheet as it was.
    pub fn apply(&self, alloc: Global, sheet: &mut Sheet) -> Result<(), NoMemory>
        ensures applied { OnOk result (sheet.new ≡ sheet_after sheet.old self.now) }
        ensures unchanged { OnErr result (sheet.new ≡ sheet.old) }
    {
        let guids = guids_of_sheet(alloc, sheet)?;
        let mut quirks = Vec::new(alloc);
        push_for(alloc, &self.files, &guids, &mut quirks)?;
        set(alloc, sheet, &quirks)
    }
}

// The quirks of a file with their index, or its first fault.
fn read_indexed(alloc: Global, bytes: &[u8]) -> Result<Indexed, QuirkFault>
    ensures read { IfOk result (λ file. file ≡ file_quirks bytes.now) }
    ensures sound { OnOk result (file_fault bytes.now ≡ None) }
    ensures refused { IfErr result (λ fault. (fault ≡ QuirkFault.NoMemory) ⊎ (file_fault bytes.now ≡ Some fault)) }
{
    match FileQuirks::read(alloc, bytes) {
        Ok(file) => match Indexed::of(alloc, file.into_quirks()) {
            Ok(indexed) => Ok(indexed),
            Err(_) => Err(QuirkFault::NoMemory),
        },
        Err(fault) => Err(fault),
    }
}

fn push_file(files: &mut Vec<Indexed>, file: Indexed) -> Result<(), NoMemory>
    ensures pushed { OnOk result (files.new.items ≡ files.old.items ++ file ∷ []) }
    ensures unchanged { OnErr result (files.new.items ≡ files.old.items) }
{
    files.push(file)?;
    Ok(())
}

fn guids_of_sheet(alloc: Global, sheet: &Sheet) -> Result<Vec<Guid>, NoMemory>
    ensures { IfOk result (λ guids. guids.items ≡ guids_of_sheet sheet.now) }
{
    let mut guids = Vec::from_slice(alloc, sheet.runtime_guids.items())?;
    guids.extend_from_slice(sheet.loader_guids.items())?;
    Ok(guids)
}

// Puts the quirks of the files that are for these GUIDs behind others, in reading order.
fn push_for<'a>(
    alloc: Global,
    files: &'a [Indexed],
    guids: &[Guid],
    quirks: &mut Vec<&'a Quirk>,
) -> Result<(), NoMemory>
    ensures { OnOk result (map (λ quirk. quirk.now) quirks.new.items ≡ map (λ quirk. quirk.now) quirks.old.items ++ filter (is_for guids.now) (flat_map (λ file. file) files.now)) }
{
    for file in files {
        file.push_for(alloc, guids, quirks)?;
    }
    Ok(())
}
