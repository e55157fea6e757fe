//! The section `remotes`.
ghost use Rattle.std.specs.Prelude.{◌≡◌, ◌+◌, ◌∷◌, ◌≤◌, [], IfOk, None, false, length};
ghost use Rattle.std.specs.List.{list_any};
ghost use Rattle.std.specs.Str.{bytes_eq};
ghost use Rattle.json_values.specs.Trees.{view, items_view};
ghost use Rattle.release_catalogue.specs.Components.{releases_in};
ghost use Rattle.release_catalogue.specs.Reading.{Gives, optional, the};
ghost use Rattle.remote_set.specs.Merged.{first_repeated};
ghost use Rattle.site_remotes.specs.Remotes.{IsWithin, components_in, components_of, each_remote, local, new_name_at, releases_of, remote_at, remote_spot, remotes_at, taken_by};

use fw_base::{Name, NoMemory};
use json_values::Value;
use release_catalogue::component::Taken;
use release_catalogue::defaults::{boolean_or, number_or};
use release_catalogue::entries::count;
use release_catalogue::kinds::{items, name, object};
use release_catalogue::members::{member, needed};
use release_catalogue::spot::fault_at;
use release_catalogue::{Catalogue, Level, ReadStop, Reason, Spot, Word};
use remote_set::{Remote, count_releases};
use std::alloc::Global;

/// The most remotes of the section.
pub const REMOTES_MAX: usize = 16;

/// The highest order of a remote.
pub const ORDER_MAX: u32 = 1_000;

/// The section `components` as a remote: `local`, of order 0 and enabled.
pub fn local(catalogue: Catalogue) -> Remote
    ensures { result ≡ local catalogue }
{
    Remote {
        name: local_name(),
        order: 0,
        enabled: true,
        catalogue,
    }
}

fn local_name() -> Name
    ensures { result ≡ (local []).name }
{
    Name::read(b"local").unwrap()
}

/// The remotes of the document: the section `components`, and the section `remotes` behind it, where there is
/// one. They have at most 4,096 components and 20,000 releases in all, and no two have one name.
pub fn remotes_or_local(
    alloc: Global,
    value: &Value,
    spot: Spot,
    own: Remote,
) -> Result<Vec<Remote>, ReadStop>
    requires { IsWithin (own ∷ []) }
    ensures read { Gives (λ v. v.items) result (optional spot Word.Remotes (remotes_at own) (own ∷ []) (view value.now)) }
    ensures few { IfOk result (λ v. length v.items ≤ 17) }
    ensures within { IfOk result (λ v. IsWithin v.items) }
    ensures named { IfOk result (λ v. first_repeated v.items ≡ None) }
{
    match member(value, Word::Remotes) {
        None => Ok(lone(alloc, own)?),
        Some(found) => remotes(alloc, found, spot.field(Word::Remotes), own),
    }
}

fn lone(alloc: Global, own: Remote) -> Result<Vec<Remote>, NoMemory>
    ensures { IfOk result (λ v. v.items ≡ own ∷ []) }
{
    let mut remotes = Vec::new(alloc);
    remotes.push(own)?;
    Ok(remotes)
}

/// The section: a list of up to 16 remotes, behind the one that the document has of its own.
fn remotes(alloc: Global, value: &Value, spot: Spot, own: Remote) -> Result<Vec<Remote>, ReadStop>
    requires { IsWithin (own ∷ []) }
    ensures read { Gives (λ v. v.items) result (remotes_at own spot (view value.now)) }
    ensures few { IfOk result (λ v. length v.items ≤ 17) }
    ensures within { IfOk result (λ v. IsWithin v.items) }
    ensures named { IfOk result (λ v. first_repeated v.items ≡ None) }
{
    let values = items(value, spot)?;
    if REMOTES_MAX < count(values) {
        return Err(fault_at(spot, Reason::TooMany));
    }
    each_remote(alloc, values, own)
}

fn each_remote(alloc: Global, values: &[Value], own: Remote) -> Result<Vec<Remote>, ReadStop>
    requires few { length values.now ≤ 16 }
    requires within { IsWithin (own ∷ []) }
    ensures read { Gives (λ v. v.items) result (each_remote 0 (own ∷ []) (items_view values.now)) }
    ensures few { IfOk result (λ v. length v.items ≤ 17) }
    ensures within { IfOk result (λ v. IsWithin v.items) }
    ensures named { IfOk result (λ v. first_repeated v.items ≡ None) }
{
    let base = remote_spot();
    let mut read = lone(alloc, own)?;
    for (i, value) in values.iter().enumerate() {
        let spot = base.entry(Level::First, i as u32);
        let remote = remote(alloc, read.as_slice(), value, spot)?;
        read.push(remote)?;
    }
    Ok(read)
}

/// The place of the section's entries, without an index.
fn remote_spot() -> Spot
    ensures { result ≡ remote_spot }
{
    let index = [0, 0, 0];
    Spot {
        section: Word::Remotes,
        index,
        field: Word::Entry,
    }
}

/// A remote behind others of the document.
#[tactic(auto, unfolding(crate::specs::Remotes::remote_at))]
fn remote(alloc: Global, earlier: &[Remote], value: &Value, spot: Spot) -> Result<Remote, ReadStop>
    requires { IsWithin earlier.now }
    ensures read { Gives (λ r. r) result (remote_at earlier.now spot (view value.now)) }
    ensures few { IfOk result (λ r. components_of earlier.now + length r.catalogue ≤ 4096) }
    ensures few_releases { IfOk result (λ r. releases_of earlier.now + releases_in r.catalogue ≤ 20000) }
    ensures named { IfOk result (λ r. list_any (λ other. bytes_eq other.name r.name) earlier.now ≡ false) }
{
    object(value, spot)?;
    let name = named(earlier, value, spot)?;
    let order = number_or(value, spot, Word::Order, ORDER_MAX, 0)?;
    let enabled = boolean_or(value, spot, Word::Enabled, true)?;
    let catalogue = catalogue(alloc, earlier, value, spot)?;
    Ok(Remote {
        name,
        order,
        enabled,
        catalogue,
    })
}

fn named(earlier: &[Remote], value: &Value, spot: Spot) -> Result<Name, ReadStop>
    ensures read { Gives (λ n. n) result (the spot Word.Name (new_name_at earlier.now) (view value.now)) }
    ensures named { IfOk result (λ n. list_any (λ other. bytes_eq other.name n) earlier.now ≡ false) }
{
    let here = spot.field(Word::Name);
    let name = name(needed(value, spot, Word::Name)?, here)?;
    if has_name(earlier, &name) {
        return Err(fault_at(here, Reason::Repeated));
    }
    Ok(name)
}

fn has_name(remotes: &[Remote], name: &Name) -> bool
    ensures { result ≡ list_any (λ other. bytes_eq other.name name.now) remotes.now }
{
    remotes.iter().any(|other| other.name == *name)
}

fn catalogue(
    alloc: Global,
    earlier: &[Remote],
    value: &Value,
    spot: Spot,
) -> Result<Catalogue, ReadStop>
    requires { IsWithin earlier.now }
    ensures read { Gives (λ c. c) result (the spot Word.Components (components_in earlier.now spot) (view value.now)) }
    ensures few { IfOk result (λ c. components_of earlier.now + length c ≤ 4096) }
    ensures few_releases { IfOk result (λ c. releases_of earlier.now + releases_in c ≤ 20000) }
{
    let found = needed(value, spot, Word::Components)?;
    Catalogue::read_behind(
        alloc,
        taken_by(earlier),
        Level::Second,
        found,
        spot.field(Word::Components),
        spot.field(Word::Entry),
    )
}

/// How many components and releases some remotes have.
fn taken_by(remotes: &[Remote]) -> Taken
    requires { IsWithin remotes.now }
    ensures { result ≡ taken_by remotes.now }
{
    Taken {
        components: components_of(remotes),
        releases: releases_of(remotes),
    }
}

fn components_of(remotes: &[Remote]) -> usize
    requires { IsWithin remotes.now }
    ensures { result ≡ components_of remotes.now }
{
    let mut count = 0;
    for remote in remotes {
        count += remote.catalogue.components().len();
    }
    count
}

fn releases_of(remotes: &[Remote]) -> usize
    requires { IsWithin remotes.now }
    ensures { result ≡ releases_of remotes.now }
{
    let mut count = 0;
    for remote in remotes {
        remote.catalogue.within_limits();
        count += count_releases(remote.catalogue.components()) as usize;
    }
    count
}
