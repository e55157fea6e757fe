//! The machine.
ghost use Rattle.std.specs.Prelude.{◌≡◌, ◌∷◌, ◌++◌, [], IfOk};
ghost use Rattle.serde_json.specs.Find.{as_object};
ghost use Rattle.json_values.specs.Trees.{view, members_view};
ghost use Rattle.release_catalogue.specs.Reading.{Gives, optional, or_fault};
ghost use Rattle.release_catalogue.specs.Kinds.{guid_at, plain_list_at};
ghost use Rattle.site_scripts.specs.Places.{optional_here};
ghost use Rattle.site_files.specs.Machines.{daemon_id, each_id, hardware_of, id_at, ids_at, known_at, machine_at, machine_spot, members_len, no_smbios, power_at, smbios_at, smbios_text_at};

use fw_base::{Listed, Name, NoMemory};
use fw_facts::MachineFacts;
use guid_ids::{Guid, SmbiosFields, SmbiosText, hardware_ids};
use json_values::{Value, members};
use release_catalogue::defaults::boolean_or;
use release_catalogue::entries::list_or_empty;
use release_catalogue::kinds::{number, object, text, version};
use release_catalogue::members::{member, needed};
use release_catalogue::spot::fault_at;
use release_catalogue::{ReadStop, Reason, Spot, Word};
use site_scripts::spot_in;
use std::alloc::Global;
use std::collections::BTreeMap;
use version_formats::Version;

/// The most names of the machine's software beside the daemon.
pub const IDS_MAX: usize = 64;

/// The most GUIDs of a list.
pub const GUIDS_MAX: usize = 64;

/// The most blocks of a pool.
pub const POOL_MAX: u64 = 16_384;

/// The machine, and how many blocks its pool has.
#[derive(Drop)]
pub struct Machine {
    pub facts: MachineFacts,
    pub pool: u32,
}

/// What runs on the machine, and its hardware IDs.
#[derive(Drop)]
pub struct Known {
    pub ids: Listed<(Name, Version)>,
    pub hardware: Listed<Guid>,
}

/// How the machine is powered, and its lid.
#[derive(Clone, Copy)]
pub struct Power {
    pub on_ac: bool,
    pub power_low: bool,
    pub lid_closed: bool,
}

/// The section `machine`.
#[tactic(auto, unfolding(crate::specs::Machines::machine_at))]
pub fn read_machine(alloc: Global, value: &Value, spot: Spot) -> Result<Machine, ReadStop>
    ensures { Gives (λ m. m) result (machine_at spot (view value.now)) }
{
    object(value, spot)?;
    let here = machine_spot();
    let known = read_known(alloc, value, here)?;
    let power = read_power(value, here)?;
    let pool = number(
        needed(value, here, Word::Pool)?,
        here.field(Word::Pool),
        0,
        POOL_MAX,
    )?;
    Ok(Machine {
        facts: MachineFacts {
            ids: known.ids,
            hardware: known.hardware,
            on_ac: power.on_ac,
            power_low: power.power_low,
            lid_closed: power.lid_closed,
        },
        pool: pool as u32,
    })
}

fn machine_spot() -> Spot
    ensures { result ≡ machine_spot }
{
    spot_in(Word::Machine, Word::Entry)
}

#[tactic(auto, unfolding(crate::specs::Machines::known_at))]
fn read_known(alloc: Global, value: &Value, spot: Spot) -> Result<Known, ReadStop>
    ensures { Gives (λ k. k) result (known_at spot (view value.now)) }
{
    let daemon = version(needed(value, spot, Word::Daemon)?, spot.field(Word::Daemon))?;
    let ids = ids_or_empty(alloc, value, spot)?;
    let smbios = smbios_or_none(value, spot)?;
    let hardware: Vec<Guid> = list_or_empty(alloc, value, spot, Word::Hardware, GUIDS_MAX)?;
    Ok(Known {
        ids: behind_daemon(alloc, daemon, &ids)?,
        hardware: behind_smbios(alloc, &smbios, &hardware)?,
    })
}

/// What runs on the machine, the daemon first.
fn behind_daemon(
    alloc: Global,
    daemon: Version,
    ids: &[(Name, Version)],
) -> Result<Listed<(Name, Version)>, NoMemory>
    ensures { IfOk result (λ all. all ≡ (daemon_id, daemon) ∷ ids.now) }
{
    let mut all = Vec::new(alloc);
    all.push((daemon_id(), daemon))?;
    all.extend_from_slice(ids)?;
    Ok(Listed::of(all))
}

/// The ID under which the daemon's own version stands.
pub fn daemon_id() -> Name
    ensures { result ≡ daemon_id }
{
    Name::read(b"org.freedesktop.fwupd").unwrap()
}

/// The hardware IDs: those of the firmware's texts, and behind them the others.
fn behind_smbios(
    alloc: Global,
    smbios: &SmbiosFields,
    others: &[Guid],
) -> Result<Listed<Guid>, NoMemory>
    ensures { IfOk result (λ all. all ≡ hardware_of smbios.now ++ others.now) }
{
    let ids = hardware_ids(smbios);
    let mut all = Vec::from_slice(alloc, ids.guids())?;
    all.extend_from_slice(others)?;
    Ok(Listed::of(all))
}

#[tactic(auto, unfolding(crate::specs::Machines::power_at))]
fn read_power(value: &Value, spot: Spot) -> Result<Power, ReadStop>
    ensures { Gives (λ p. p) result (power_at spot (view value.now)) }
{
    let on_ac = boolean_or(value, spot, Word::OnAc, true)?;
    let power_low = boolean_or(value, spot, Word::PowerLow, false)?;
    let lid_closed = boolean_or(value, spot, Word::LidClosed, false)?;
    Ok(Power {
        on_ac,
        power_low,
        lid_closed,
    })
}

// ---- what runs on the machine

fn ids_or_empty(alloc: Global, value: &Value, spot: Spot) -> Result<Vec<(Name, Version)>, ReadStop>
    ensures { Gives (λ v. v.items) result (optional spot Word.Ids ids_at [] (view value.now)) }
{
    match member(value, Word::Ids) {
        None => Ok(Vec::new(alloc)),
        Some(found) => ids(alloc, found, spot.field(Word::Ids)),
    }
}

/// An object from names to versions.
fn ids(alloc: Global, value: &Value, spot: Spot) -> Result<Vec<(Name, Version)>, ReadStop>
    ensures { Gives (λ v. v.items) result (ids_at spot (view value.now)) }
{
    let members = members_of(alloc, value, spot)?;
    if IDS_MAX < count(&members) {
        return Err(fault_at(spot, Reason::TooMany));
    }
    ids_in(alloc, &members, spot)
}

fn members_of<'v, 't>(
    alloc: Global,
    value: &'v Value<'t>,
    spot: Spot,
) -> Result<BTreeMap<&'t str, &'v Value<'t>>, ReadStop>
    ensures { Gives (λ m. members_view m.entries) result (or_fault spot Reason.WrongKind (as_object (view value.now))) }
{
    match members(alloc, value)? {
        None => Err(fault_at(spot, Reason::WrongKind)),
        Some(members) => Ok(members),
    }
}

#[tactic(auto, using(crate::proofs::Loop::members_len_of))]
fn count<'v, 't>(members: &BTreeMap<&'t str, &'v Value<'t>>) -> usize
    ensures { result ≡ members_len (members_view members.now.entries) }
{
    members.len()
}

fn ids_in<'v, 't>(
    alloc: Global,
    members: &BTreeMap<&'t str, &'v Value<'t>>,
    spot: Spot,
) -> Result<Vec<(Name, Version)>, ReadStop>
    ensures { Gives (λ v. v.items) result (each_id spot [] (members_view members.now.entries)) }
{
    let mut ids = Vec::new(alloc);
    for (key, value) in members.iter() {
        let id = id_of(*key, *value, spot)?;
        ids.push(id)?;
    }
    Ok(ids)
}

#[tactic(auto, unfolding(crate::specs::Machines::id_at))]
fn id_of(key: &str, value: &Value, spot: Spot) -> Result<(Name, Version), ReadStop>
    ensures { Gives (λ i. i) result (id_at spot key.now (view value.now)) }
{
    match Name::read(key.as_bytes()) {
        Err(_) => Err(fault_at(spot, Reason::WrongKind)),
        Ok(name) => {
            let version = version(value, spot)?;
            Ok((name, version))
        }
    }
}

// ---- the texts of the firmware

fn smbios_or_none(value: &Value, spot: Spot) -> Result<SmbiosFields, ReadStop>
    ensures { Gives (λ s. s) result (optional spot Word.Smbios smbios_at no_smbios (view value.now)) }
{
    match member(value, Word::Smbios) {
        None => Ok(no_smbios()),
        Some(found) => smbios(found, spot.field(Word::Smbios)),
    }
}

fn no_smbios() -> SmbiosFields
    ensures { result ≡ no_smbios }
{
    SmbiosFields {
        manufacturer: no_text(),
        family: no_text(),
        product: no_text(),
        sku: no_text(),
    }
}

fn no_text() -> SmbiosText
    ensures { result ≡ [] }
{
    SmbiosText::read(b"").unwrap()
}

#[tactic(auto, unfolding(crate::specs::Machines::smbios_at))]
fn smbios(value: &Value, spot: Spot) -> Result<SmbiosFields, ReadStop>
    ensures { Gives (λ s. s) result (smbios_at spot (view value.now)) }
{
    object(value, spot)?;
    let manufacturer = smbios_text_or_empty(value, spot, Word::Manufacturer)?;
    let family = smbios_text_or_empty(value, spot, Word::Family)?;
    let product = smbios_text_or_empty(value, spot, Word::Product)?;
    let sku = smbios_text_or_empty(value, spot, Word::Sku)?;
    Ok(SmbiosFields {
        manufacturer,
        family,
        product,
        sku,
    })
}

fn smbios_text_or_empty(value: &Value, spot: Spot, word: Word) -> Result<SmbiosText, ReadStop>
    ensures { Gives (λ s. s) result (optional_here spot word smbios_text_at [] (view value.now)) }
{
    match member(value, word) {
        None => Ok(no_text()),
        Some(found) => smbios_text(found, spot),
    }
}

fn smbios_text(value: &Value, spot: Spot) -> Result<SmbiosText, ReadStop>
    ensures { Gives (λ s. s) result (smbios_text_at spot (view value.now)) }
{
    let text = text(value, spot)?;
    match SmbiosText::read(text.as_bytes()) {
        None => Err(fault_at(spot, Reason::WrongKind)),
        Some(text) => Ok(text),
    }
}
