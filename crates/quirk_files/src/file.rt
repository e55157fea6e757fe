//! The quirks of one file.
ghost use Rattle.std.specs.Prelude.{◌≡◌, ◌≤◌, ◌++◌, ◌⊎◌, ◌∷◌, [], Some, None, length, map, IfErr, OnOk, IfOk};
ghost use Rattle.std.specs.Option.{option_to_list};
ghost use Rattle.quirk_files.specs.Files.{file_fault, file_quirks, first_fault, line_fault, quirk_given, quirks_of, without_return};

use crate::fault::QuirkFault;
use crate::lines::{form_fault, group_begun, quirk_given, without_return};
use crate::quirk::Quirk;
use crate::texts::{is_text, parts, trimmed};
use fw_base::NoMemory;
use guid_ids::Guid;
use std::alloc::Global;
use std::marker::Model;

/// The most bytes of a quirk file.
pub const FILE_MAX: usize = 1_048_576;

/// The quirks of a file. Contracts see their list.
#[derive(Drop)]
pub struct FileQuirks {
    quirks: Vec<Quirk>,
}

impl Model for FileQuirks {
    ghost use Rattle.std.specs.Prelude.{List};
    ghost use Rattle.quirk_files.specs.declared.quirk.Quirk.{Quirk};

    ghost Value = { List Quirk };

    ghost view = { λ s. s.quirks.items };
}

impl FileQuirks {
    pub fn new(alloc: Global) -> FileQuirks
        ensures { result ≡ [] }
    {
        FileQuirks {
            quirks: Vec::new(alloc),
        }
    }

    /// The quirks of a file, or its first fault.
    pub fn read(alloc: Global, bytes: &[u8]) -> Result<FileQuirks, QuirkFault>
        ensures read { IfOk result (λ file. file ≡ file_quirks bytes.now) }
        ensures sound { OnOk result (file_fault bytes.now ≡ None) }
        ensures refused { IfErr result (λ fault. (fault ≡ QuirkFault.NoMemory) ⊎ (file_fault bytes.now ≡ Some fault)) }
    {
        if bytes.len() > FILE_MAX {
            return Err(QuirkFault::TooLarge { len: bytes.len() });
        }
        let lines = parts(alloc, bytes, b'\n')?;
        FileQuirks::read_lines(alloc, &lines)
    }

    fn read_lines(alloc: Global, lines: &[&[u8]]) -> Result<FileQuirks, QuirkFault>
        requires { length lines.now ≤ 1048577 }
        ensures read { IfOk result (λ file. file ≡ quirks_of (map without_return (map (λ line. line.now) lines.now))) }
        ensures sound { OnOk result (first_fault (map without_return (map (λ line. line.now) lines.now)) ≡ None) }
        ensures refused { IfErr result (λ fault. (fault ≡ QuirkFault.NoMemory) ⊎ (first_fault (map without_return (map (λ line. line.now) lines.now)) ≡ Some fault)) }
    {
        let mut file = FileQuirks::new(alloc);
        let mut group = None;
        for (at, line) in lines.iter().enumerate() {
            let line = without_return(line);
            if let Some(fault) = line_fault(group.is_some(), at as u32 + 1, line) {
                return Err(fault);
            }
            file.take_line(alloc, group, trimmed(line))?;
            group = group_begun(trimmed(line)).or(group);
        }
        Ok(file)
    }

    // Takes the quirk that a line gives.
    fn take_line(&mut self, alloc: Global, group: Option<Guid>, line: &[u8]) -> Result<(), NoMemory>
        ensures { OnOk result (self.new ≡ self.old ++ option_to_list (quirk_given group line.now)) }
    {
        match quirk_given(alloc, group, line)? {
            Some(quirk) => self.push(quirk),
            None => Ok(()),
        }
    }

    fn push(&mut self, quirk: Quirk) -> Result<(), NoMemory>
        ensures { OnOk result (self.new ≡ self.old ++ quirk ∷ []) }
    {
        self.quirks.push(quirk)?;
        Ok(())
    }

    /// The quirks themselves.
    pub fn into_quirks(self) -> Vec<Quirk>
        ensures { result.items ≡ self }
    {
        let FileQuirks { quirks } = self;
        quirks
    }
}

fn line_fault(in_group: bool, number: u32, line: &[u8]) -> Option<QuirkFault>
    ensures { result ≡ line_fault in_group number line.now }
{
    if is_text(line) {
        form_fault(in_group, number, trimmed(line))
    } else {
        Some(QuirkFault::NotText { line: number })
    }
}
