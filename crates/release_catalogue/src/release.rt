//! Releases in the document.
ghost use Rattle.std.specs.Prelude.{◌≡◌, ◌+◌, ◌<◌, ◌≤◌, ◌^◌, IfOk, codes, length};
ghost use Rattle.json_values.specs.Trees.{view};
ghost use Rattle.release_catalogue.specs.Reading.{Gives, optional};
ghost use Rattle.release_catalogue.specs.Kinds.{name_among_at};
ghost use Rattle.release_catalogue.specs.Components.{release_at, releases_at, urgency_words};

use crate::entries::{Entry, count, entries};
use crate::kinds::{digest, items, name_among, number, object, version};
use crate::members::{member, needed};
use crate::reason::Reason;
use crate::spot::{Level, ReadStop, Spot, fault_at};
use crate::word::Word;
use fw_base::Name;
use fw_facts::Release;
use json_values::Value;
use std::alloc::Global;

/// The most releases of a catalogue.
pub const RELEASES_MAX: usize = 20_000;

/// The most bytes of a payload.
pub const PAYLOAD_MAX: u64 = 4_194_304;

/// The urgency that stands where none is stated.
const NO_URGENCY: &str = "unknown";

impl Entry for Release {
    ghost use Rattle.fw_facts.specs.declared.release.Release.{Release};
    ghost use Rattle.release_catalogue.specs.Components.{release_at};

    ghost Seen = { Release };

    ghost seen = { λ release. release };

    ghost reading = { λ _. release_at };

    fn read(
        _alloc: Global,
        _earlier: &[Release],
        value: &Value,
        spot: Spot,
    ) -> Result<Release, ReadStop> {
        release(value, spot)
    }
}

/// A release: its members `version`, `urgency`, `sha256` and `size`, in this order.
#[tactic(auto, unfolding(crate::specs::Components::release_at))]
pub fn release(value: &Value, spot: Spot) -> Result<Release, ReadStop>
    ensures { Gives (λ r. r) result (release_at spot (view value.now)) }
{
    object(value, spot)?;
    let version = version(
        needed(value, spot, Word::Version)?,
        spot.field(Word::Version),
    )?;
    let urgency = urgency(value, spot)?;
    let digest = digest(needed(value, spot, Word::Sha256)?, spot.field(Word::Sha256))?;
    let size = number(
        needed(value, spot, Word::Size)?,
        spot.field(Word::Size),
        0,
        PAYLOAD_MAX,
    )?;
    Ok(Release {
        version,
        urgency,
        digest,
        size: size as u32,
    })
}

fn urgency(value: &Value, spot: Spot) -> Result<Name, ReadStop>
    ensures { Gives (λ n. n) result (optional spot Word.Urgency (name_among_at urgency_words) (codes "unknown") (view value.now)) }
{
    match member(value, Word::Urgency) {
        None => Ok(no_urgency()),
        Some(found) => name_among(
            found,
            spot.field(Word::Urgency),
            &["unknown", "low", "medium", "high", "critical"],
        ),
    }
}

fn no_urgency() -> Name
    ensures { result ≡ codes "unknown" }
{
    Name::read(NO_URGENCY.as_bytes()).unwrap()
}

/// The releases of a component, whose places begin from `base`, where `taken` were taken before:
/// `TooMany` where they are more than 20,000 in all, before any of them is looked at.
pub fn releases(
    alloc: Global,
    value: &Value,
    taken: usize,
    level: Level,
    base: Spot,
    spot: Spot,
) -> Result<Vec<Release>, ReadStop>
    requires { taken ≤ 20000 }
    ensures read { Gives (λ v. v.items) result (releases_at level taken base spot (view value.now)) }
    ensures within { IfOk result (λ v. taken + length v.items ≤ 20000) }
{
    let values = items(value, spot)?;
    if RELEASES_MAX - taken < count(values) {
        return Err(fault_at(spot, Reason::TooMany));
    }
    entries(alloc, values, base, level)
}
