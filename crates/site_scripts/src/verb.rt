//! What an item does, by its word.
ghost use Rattle.std.specs.Prelude.{◌≡◌, find};
ghost use Rattle.std.specs.Str.{bytes_eq};
ghost use Rattle.json_values.specs.Trees.{view};
ghost use Rattle.release_catalogue.specs.Reading.{Gives};
ghost use Rattle.site_scripts.specs.Items.{verb_at, verb_word};

use json_values::Value;
use release_catalogue::kinds::text;
use release_catalogue::spot::fault_at;
use release_catalogue::{ReadStop, Reason, Spot};

/// What an item does.
#[derive(Clone, Copy, Debug, PartialEq, Eq)]
pub enum Verb {
    GetDevices,
    GetReleases,
    GetUpgrades,
    Install,
    GetHistory,
    GetResults,
    Settle,
    Unplug,
    Plug,
}

impl Verb {
    const ALL: [Verb; 9] = [
        Verb::GetDevices,
        Verb::GetReleases,
        Verb::GetUpgrades,
        Verb::Install,
        Verb::GetHistory,
        Verb::GetResults,
        Verb::Settle,
        Verb::Unplug,
        Verb::Plug,
    ];

    fn word(self) -> &'static [u8]
        ensures { result.now ≡ verb_word self }
    {
        match self {
            Verb::GetDevices => b"get-devices",
            Verb::GetReleases => b"get-releases",
            Verb::GetUpgrades => b"get-upgrades",
            Verb::Install => b"install",
            Verb::GetHistory => b"get-history",
            Verb::GetResults => b"get-results",
            Verb::Settle => b"settle",
            Verb::Unplug => b"unplug",
            Verb::Plug => b"plug",
        }
    }

    fn of_word(all: &[Verb], word: &[u8]) -> Option<Verb>
        ensures { result ≡ find (λ verb. bytes_eq (verb_word verb) word.now) all.now }
    {
        all.iter().copied().find(|verb| verb.word() == word)
    }
}

/// What an item does, by its word, else `WrongKind`.
pub fn read_verb(value: &Value, spot: Spot) -> Result<Verb, ReadStop>
    ensures { Gives (λ v. v) result (verb_at spot (view value.now)) }
{
    let text = text(value, spot)?;
    match Verb::of_word(&Verb::ALL, text.as_bytes()) {
        None => Err(fault_at(spot, Reason::WrongKind)),
        Some(verb) => Ok(verb),
    }
}
