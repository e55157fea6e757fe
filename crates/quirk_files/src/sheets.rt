//! What quirks do to a sheet.
ghost use Rattle.std.specs.Prelude.{◌≡◌, ◌∷◌, [], ◌++◌, ◌||◌, not, if◌then◌else◌, map, IfOk, OnOk, OnErr};
ghost use Rattle.std.specs.List.{filter_map, flat_map, list_any};
ghost use Rattle.std.specs.Str.{bytes_eq};
ghost use Rattle.std.specs.Option.{option_to_list};
ghost use Rattle.quirk_files.specs.Flags.{change_of, changed};
ghost use Rattle.quirk_files.specs.Sheets.{elements_in, value_in, last_read, listed, added, sheet_with, with_singles};
ghost use Rattle.quirk_files.specs.Values.{name_of, guid_of_element};

use crate::changes::changed;
use crate::key::Key;
use crate::quirk::Quirk;
use crate::texts::{parts, push_elements};
use crate::values::{Changes, Formats, Guids, Lines, Names, Numbers, Reader};
use fw_base::{Listed, Name, NoMemory};
use fw_facts::{DeviceFlags, Sheet};
use guid_ids::Guid;
use indexmap::IndexSet;
use std::alloc::Global;

/// The greatest size of a payload, in bytes.
pub const SIZE_MAX: u32 = 4_194_304;

/// Sets what the quirks say, all of which are for the sheet. Want of memory leaves it as it was.
pub fn set(alloc: Global, sheet: &mut Sheet, quirks: &[&Quirk]) -> Result<(), NoMemory>
    ensures set { OnOk result (sheet.new ≡ sheet_with sheet.old (map (λ quirk. quirk.now) quirks.now)) }
    ensures unchanged { OnErr result (sheet.new ≡ sheet.old) }
{
    let flags = flags_after(alloc, sheet.flags, quirks)?;
    let runtime_guids = guids_after(alloc, sheet.runtime_guids.items(), Key::Guid, quirks)?;
    let vendor_ids = names_after(alloc, sheet.vendor_ids.items(), Key::VendorId, quirks)?;
    let counterparts = guids_after(
        alloc,
        sheet.counterparts.items(),
        Key::CounterpartGuid,
        quirks,
    )?;
    set_singles(sheet, quirks);
    sheet.flags = flags;
    sheet.runtime_guids = runtime_guids;
    sheet.vendor_ids = vendor_ids;
    sheet.counterparts = counterparts;
    Ok(())
}

// The single values: each the last that can be read, or else the one before.
fn set_singles(sheet: &mut Sheet, quirks: &[&Quirk])
    ensures { sheet.new ≡ with_singles sheet.old (map (λ quirk. quirk.now) quirks.now) }
{
    let sizes = Numbers { most: SIZE_MAX };
    let durations = Numbers { most: u32::MAX };
    sheet.plugin = last_read(&Names, Key::Plugin, quirks).unwrap_or(sheet.plugin);
    sheet.name = last_read(&Lines, Key::Name, quirks).unwrap_or(sheet.name);
    sheet.vendor = last_read(&Lines, Key::Vendor, quirks).unwrap_or(sheet.vendor);
    sheet.format = last_read(&Formats, Key::VersionFormat, quirks).unwrap_or(sheet.format);
    sheet.protocol = last_read(&Names, Key::Protocol, quirks).or(sheet.protocol);
    sheet.size_min = last_read(&sizes, Key::FirmwareSizeMin, quirks).unwrap_or(sheet.size_min);
    sheet.size_max = last_read(&sizes, Key::FirmwareSizeMax, quirks).unwrap_or(sheet.size_max);
    sheet.duration = last_read(&durations, Key::InstallDuration, quirks).unwrap_or(sheet.duration);
}

// The last value of the key that can be read.
fn last_read<R: Reader>(reader: &R, key: Key, quirks: &[&Quirk]) -> Option<R::Value>
    ensures { result ≡ last_read (R.reads reader.now) key (map (λ quirk. quirk.now) quirks.now) }
{
    let mut last = None;
    for quirk in quirks {
        last = value_in(reader, key, quirk).or(last);
    }
    last
}

// What a quirk of the key is read as.
fn value_in<R: Reader>(reader: &R, key: Key, quirk: &Quirk) -> Option<R::Value>
    ensures { result ≡ value_in (R.reads reader.now) key quirk.now }
{
    if quirk.key.is(key) {
        reader.read(quirk.value.items())
    } else {
        None
    }
}

fn flags_after(
    alloc: Global,
    before: DeviceFlags,
    quirks: &[&Quirk],
) -> Result<DeviceFlags, NoMemory>
    ensures { IfOk result (λ flags. flags ≡ changed before (listed change_of Key.Flags (map (λ quirk. quirk.now) quirks.now))) }
{
    let elements = elements(alloc, Key::Flags, quirks)?;
    let changes = read_all(alloc, &Changes, &elements)?;
    Ok(changed(before, &changes))
}

fn guids_after(
    alloc: Global,
    before: &[Guid],
    key: Key,
    quirks: &[&Quirk],
) -> Result<Listed<Guid>, NoMemory>
    ensures { IfOk result (λ guids. guids ≡ added before.now (listed guid_of_element key (map (λ quirk. quirk.now) quirks.now))) }
{
    let elements = elements(alloc, key, quirks)?;
    let guids = read_all(alloc, &Guids, &elements)?;
    Ok(Listed::of(added_guids(alloc, before, &guids)?))
}

fn names_after(
    alloc: Global,
    before: &[Name],
    key: Key,
    quirks: &[&Quirk],
) -> Result<Listed<Name>, NoMemory>
    ensures { IfOk result (λ names. names ≡ added before.now (listed name_of key (map (λ quirk. quirk.now) quirks.now))) }
{
    let elements = elements(alloc, key, quirks)?;
    let names = read_all(alloc, &Names, &elements)?;
    Ok(Listed::of(added_names(alloc, before, &names)?))
}

// The elements of the comma lists of a key, in reading order.
fn elements<'a>(alloc: Global, key: Key, quirks: &[&'a Quirk]) -> Result<Vec<&'a [u8]>, NoMemory>
    ensures { IfOk result (λ elements. map (λ element. element.now) elements.items ≡ flat_map (elements_in key) (map (λ quirk. quirk.now) quirks.now)) }
{
    let mut elements = Vec::new(alloc);
    for quirk in quirks {
        push_elements_in(alloc, &mut elements, key, quirk)?;
    }
    Ok(elements)
}

// Puts the elements of the comma list that a quirk of the key has behind others.
fn push_elements_in<'a>(
    alloc: Global,
    elements: &mut Vec<&'a [u8]>,
    key: Key,
    quirk: &'a Quirk,
) -> Result<(), NoMemory>
    ensures { OnOk result (map (λ element. element.now) elements.new.items ≡ map (λ element. element.now) elements.old.items ++ elements_in key quirk.now) }
{
    if quirk.key.is(key) {
        push_elements(elements, &parts(alloc, quirk.value.items(), b',')?)
    } else {
        Ok(())
    }
}

// What can be read of the elements.
fn read_all<R: Reader>(
    alloc: Global,
    reader: &R,
    elements: &[&[u8]],
) -> Result<Vec<R::Value>, NoMemory>
    ensures { IfOk result (λ read. read.items ≡ filter_map (R.reads reader.now) (map (λ element. element.now) elements.now)) }
{
    let mut read = Vec::new(alloc);
    for element in elements {
        push_some(&mut read, reader.read(element))?;
    }
    Ok(read)
}

fn push_some<V: Drop>(list: &mut Vec<V>, value: Option<V>) -> Result<(), NoMemory>
    ensures { OnOk result (list.new.items ≡ list.old.items ++ option_to_list value) }
{
    match value {
        Some(value) => {
            list.push(value)?;
            Ok(())
        }
        None => Ok(()),
    }
}

// The list, and behind it those of the others that aren't in it yet.
fn added_guids(alloc: Global, list: &[Guid], more: &[Guid]) -> Result<Vec<Guid>, NoMemory>
    ensures { IfOk result (λ all. all.items ≡ added list.now more.now) }
{
    let mut all = Vec::from_slice(alloc, list)?;
    let mut there = guids_there(alloc, list)?;
    for next in more {
        add_guid(&mut all, &mut there, *next)?;
    }
    Ok(all)
}

fn guids_there(alloc: Global, list: &[Guid]) -> Result<IndexSet<Guid>, NoMemory>
    ensures { IfOk result (λ there. (q : _) → list_any (bytes_eq q) there.keys ≡ list_any (bytes_eq q) list.now) }
{
    let mut there = IndexSet::new(alloc);
    for guid in list {
        let _ = is_new_guid(&mut there, *guid)?;
    }
    Ok(there)
}

// Puts a GUID behind the others, unless it is there.
fn add_guid(all: &mut Vec<Guid>, there: &mut IndexSet<Guid>, guid: Guid) -> Result<(), NoMemory>
    ensures all { OnOk result (all.new.items ≡ (if list_any (bytes_eq guid) there.old.keys then all.old.items else all.old.items ++ guid ∷ [])) }
    ensures there { OnOk result ((q : _) → list_any (bytes_eq q) there.new.keys ≡ (list_any (bytes_eq q) there.old.keys || bytes_eq q guid)) }
{
    if is_new_guid(there, guid)? {
        all.push(guid)?;
    }
    Ok(())
}

// Notes a GUID, and tells whether it was new.
fn is_new_guid(there: &mut IndexSet<Guid>, guid: Guid) -> Result<bool, NoMemory>
    ensures fresh { IfOk result (λ fresh. fresh ≡ not (list_any (bytes_eq guid) there.old.keys)) }
    ensures there { OnOk result ((q : _) → list_any (bytes_eq q) there.new.keys ≡ (list_any (bytes_eq q) there.old.keys || bytes_eq q guid)) }
{
    let fresh = there.insert(guid)?;
    Ok(fresh)
}

// The list, and behind it those of the others that aren't in it yet.
fn added_names(alloc: Global, list: &[Name], more: &[Name]) -> Result<Vec<Name>, NoMemory>
    ensures { IfOk result (λ all. all.items ≡ added list.now more.now) }
{
    let mut all = Vec::from_slice(alloc, list)?;
    let mut there = names_there(alloc, list)?;
    for next in more {
        add_name(&mut all, &mut there, next)?;
    }
    Ok(all)
}

fn names_there(alloc: Global, list: &[Name]) -> Result<IndexSet<&[u8]>, NoMemory>
    ensures { IfOk result (λ there. (q : _) → list_any (bytes_eq q) (map (λ name. name.now) there.keys) ≡ list_any (bytes_eq q) list.now) }
{
    let mut there = IndexSet::new(alloc);
    for name in list {
        let _ = is_new_name(&mut there, name.bytes())?;
    }
    Ok(there)
}

// Puts a name behind the others, unless it is there.
fn add_name<'a>(
    all: &mut Vec<Name>,
    there: &mut IndexSet<&'a [u8]>,
    name: &'a Name,
) -> Result<(), NoMemory>
    ensures all { OnOk result (all.new.items ≡ (if list_any (bytes_eq name.now) (map (λ name. name.now) there.old.keys) then all.old.items else all.old.items ++ name.now ∷ [])) }
    ensures there { OnOk result ((q : _) → list_any (bytes_eq q) (map (λ name. name.now) there.new.keys) ≡ (list_any (bytes_eq q) (map (λ name. name.now) there.old.keys) || bytes_eq q name.now)) }
{
    if is_new_name(there, name.bytes())? {
        all.push(*name)?;
    }
    Ok(())
}

// Notes a name, and tells whether it was new.
fn is_new_name<'a>(there: &mut IndexSet<&'a [u8]>, name: &'a [u8]) -> Result<bool, NoMemory>
    ensures fresh { IfOk result (λ fresh. fresh ≡ not (list_any (bytes_eq name.now) (map (λ name. name.now) there.old.keys))) }
    ensures there { OnOk result ((q : _) → list_any (bytes_eq q) (map (λ name. name.now) there.new.keys) ≡ (list_any (bytes_eq q) (map (λ name. name.now) there.old.keys) || bytes_eq q name.now)) }
{
    let fresh = there.insert(name)?;
    Ok(fresh)
}
