//! The flags of an install.
ghost use Rattle.std.specs.Prelude.{◌≡◌, find};
ghost use Rattle.std.specs.Str.{bytes_eq};
ghost use Rattle.json_values.specs.Trees.{view, items_view};
ghost use Rattle.release_catalogue.specs.Reading.{Gives, optional};
ghost use Rattle.site_scripts.specs.Items.{each_install_flag, flag_word, flag_word_at, install_flags_at, no_install_flags, with_flag};

use json_values::Value;
use release_catalogue::kinds::{items, text};
use release_catalogue::members::member;
use release_catalogue::spot::fault_at;
use release_catalogue::{ReadStop, Reason, Spot, Word};
use update_log::InstallFlags;

/// A flag of an install.
#[derive(Clone, Copy, Debug, PartialEq, Eq)]
pub enum FlagWord {
    Offline,
    AllowReinstall,
    AllowOlder,
}

impl FlagWord {
    const ALL: [FlagWord; 3] = [
        FlagWord::Offline,
        FlagWord::AllowReinstall,
        FlagWord::AllowOlder,
    ];

    fn word(self) -> &'static [u8]
        ensures { result.now ≡ flag_word self }
    {
        match self {
            FlagWord::Offline => b"offline",
            FlagWord::AllowReinstall => b"allow-reinstall",
            FlagWord::AllowOlder => b"allow-older",
        }
    }

    fn of_word(all: &[FlagWord], word: &[u8]) -> Option<FlagWord>
        ensures { result ≡ find (λ one. bytes_eq (flag_word one) word.now) all.now }
    {
        all.iter().copied().find(|one| one.word() == word)
    }
}

/// The flags of an install, or none of them where the field is missing.
pub fn install_flags_or_none(value: &Value, spot: Spot) -> Result<InstallFlags, ReadStop>
    ensures { Gives (λ f. f) result (optional spot Word.Flags install_flags_at no_install_flags (view value.now)) }
{
    match member(value, Word::Flags) {
        None => Ok(no_flags()),
        Some(found) => install_flags(found, spot.field(Word::Flags)),
    }
}

/// No flag of an install.
pub fn no_flags() -> InstallFlags
    ensures { result ≡ no_install_flags }
{
    InstallFlags {
        offline: false,
        allow_reinstall: false,
        allow_older: false,
    }
}

/// The flags of an install, as a list of their words.
fn install_flags(value: &Value, spot: Spot) -> Result<InstallFlags, ReadStop>
    ensures { Gives (λ f. f) result (install_flags_at spot (view value.now)) }
{
    let values = items(value, spot)?;
    each_install_flag(values, spot)
}

fn each_install_flag(values: &[Value], spot: Spot) -> Result<InstallFlags, ReadStop>
    ensures { Gives (λ f. f) result (each_install_flag spot no_install_flags (items_view values.now)) }
{
    let mut flags = no_flags();
    for value in values {
        let word = read_flag_word(value, spot)?;
        flags = with_flag(word, flags);
    }
    Ok(flags)
}

fn read_flag_word(value: &Value, spot: Spot) -> Result<FlagWord, ReadStop>
    ensures { Gives (λ w. w) result (flag_word_at spot (view value.now)) }
{
    let text = text(value, spot)?;
    match FlagWord::of_word(&FlagWord::ALL, text.as_bytes()) {
        None => Err(fault_at(spot, Reason::WrongKind)),
        Some(word) => Ok(word),
    }
}

fn with_flag(word: FlagWord, flags: InstallFlags) -> InstallFlags
    ensures { result ≡ with_flag word flags }
{
    match word {
        FlagWord::Offline => InstallFlags {
            offline: true,
            ..flags
        },
        FlagWord::AllowReinstall => InstallFlags {
            allow_reinstall: true,
            ..flags
        },
        FlagWord::AllowOlder => InstallFlags {
            allow_older: true,
            ..flags
        },
    }
}
