//! The flags of a board.
ghost use Rattle.std.specs.Prelude.{◌≡◌, find};
ghost use Rattle.std.specs.Str.{bytes_eq};
ghost use Rattle.json_values.specs.Trees.{view, items_view};
ghost use Rattle.fw_facts.specs.Flags.{flag_word, no_flags};
ghost use Rattle.release_catalogue.specs.Reading.{Gives, optional};
ghost use Rattle.site_files.specs.Flags.{each_flag, flag_at, flags_at};

use fw_facts::{DeviceFlag, DeviceFlags};
use json_values::Value;
use release_catalogue::kinds::{items, text};
use release_catalogue::members::member;
use release_catalogue::spot::fault_at;
use release_catalogue::{ReadStop, Reason, Spot, Word};

/// The flags of the board, or none where the field is missing.
pub fn flags_or_none(value: &Value, spot: Spot) -> Result<DeviceFlags, ReadStop>
    ensures { Gives (λ f. f) result (optional spot Word.Flags flags_at no_flags (view value.now)) }
{
    match member(value, Word::Flags) {
        None => Ok(DeviceFlags::empty()),
        Some(found) => flags(found, spot.field(Word::Flags)),
    }
}

/// A set of flags, as a list of their words.
pub fn flags(value: &Value, spot: Spot) -> Result<DeviceFlags, ReadStop>
    ensures { Gives (λ f. f) result (flags_at spot (view value.now)) }
{
    let values = items(value, spot)?;
    each_flag(values, spot)
}

fn each_flag(values: &[Value], spot: Spot) -> Result<DeviceFlags, ReadStop>
    ensures { Gives (λ f. f) result (each_flag spot no_flags (items_view values.now)) }
{
    let mut flags = DeviceFlags::empty();
    for value in values {
        let flag = flag(value, spot)?;
        flags = flags.with(flag);
    }
    Ok(flags)
}

/// A flag that a sheet may state, by its word, else `WrongKind`.
pub fn flag(value: &Value, spot: Spot) -> Result<DeviceFlag, ReadStop>
    ensures { Gives (λ f. f) result (flag_at spot (view value.now)) }
{
    let text = text(value, spot)?;
    match flag_among(&SHEET_FLAGS, text.as_bytes()) {
        None => Err(fault_at(spot, Reason::WrongKind)),
        Some(flag) => Ok(flag),
    }
}

/// The flags that a sheet may state: all but that of the boot loader, which a board shows by itself.
const SHEET_FLAGS: [DeviceFlag; 9] = [
    DeviceFlag::Internal,
    DeviceFlag::Updatable,
    DeviceFlag::RequireAc,
    DeviceFlag::Locked,
    DeviceFlag::NeedsBootloader,
    DeviceFlag::NeedsReboot,
    DeviceFlag::WaitForReplug,
    DeviceFlag::InstallParentFirst,
    DeviceFlag::Emulated,
];

fn flag_among(all: &[DeviceFlag], word: &[u8]) -> Option<DeviceFlag>
    ensures { result ≡ find (λ flag. bytes_eq (flag_word flag) word.now) all.now }
{
    all.iter().copied().find(|flag| flag.word() == word)
}
