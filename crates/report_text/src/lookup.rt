//! Which board a line speaks of.
ghost use Rattle.std.specs.Prelude.{◌≡◌, find, slice_get};
ghost use Rattle.std.specs.Option.{option_copied};
ghost use Rattle.report_text.specs.Report.{has_claim, sheet_claimed};

use fw_facts::{DeviceView, Sheet};

/// The sheet of a board by its place.
pub fn sheet_at(sheets: &[Sheet], board: u32) -> Option<&Sheet>
    ensures { option_copied result ≡ slice_get sheets.now board }
{
    sheets.get(board as usize)
}

/// The sheet of the device on which the entry has a claim.
pub fn sheet_claimed(views: &[DeviceView], entry: u32) -> Option<&Sheet>
    ensures { option_copied result ≡ sheet_claimed views.now entry }
{
    match view_claimed(views, entry) {
        Some(view) => Some(&view.sheet),
        None => None,
    }
}

fn view_claimed(views: &[DeviceView], entry: u32) -> Option<&DeviceView>
    ensures { option_copied result ≡ find (has_claim entry) views.now }
{
    views.iter().find(|view| has_claim(entry, view))
}

fn has_claim(entry: u32, view: &DeviceView) -> bool
    ensures { result ≡ has_claim entry view.now }
{
    match view.claim {
        Some(claim) => claim == entry,
        None => false,
    }
}
