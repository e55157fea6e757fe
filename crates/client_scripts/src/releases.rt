//! The releases for a device, as a client is told of them.
ghost use Rattle.std.specs.Prelude.{◌≡◌, ◌++◌, flat_map, filter, OnOk};
ghost use Rattle.std.specs.Option.{option_copied};
ghost use Rattle.std.specs.Ordering.{is_gt};
ghost use Rattle.version_formats.specs.VersionOrder.{version_cmp};
ghost use Rattle.fw_facts.specs.Views.{version_of};
ghost use Rattle.client_scripts.specs.Places.{is_newer_at, line_at};
ghost use Rattle.client_scripts.specs.Replies.{at_most_64, known_text, release_text, reply_line, releases_reply, releases_shown, stated, upgrades_reply, upgrades_shown};

use crate::lines::{LINES_MAX, put_left_out, put_no_device, put_none};
use crate::parts::put_number;
use crate::words::order_word;
use fw_base::{Name, NoMemory};
use fw_facts::{Component, DeviceView, Release};
use release_catalogue::{Catalogue, ReleaseRef};
use std::alloc::AllocError;
use std::cmp::Ordering;
use update_log::Facts;
use version_formats::{Version, compare};

/// Puts the lines of all releases for the device behind the text.
pub fn put_releases(
    out: &mut Vec<u8>,
    facts: &Facts,
    view: Option<&DeviceView>,
) -> Result<(), NoMemory>
    ensures { OnOk result (out.new.items ≡ out.old.items ++ releases_reply facts.now (option_copied view.entry)) }
{
    match view {
        None => Ok(put_no_device(out)?),
        Some(view) => put_matching(out, &facts.catalogue, view),
    }
}

fn put_matching(out: &mut Vec<u8>, catalogue: &Catalogue, view: &DeviceView) -> Result<(), NoMemory>
    ensures { OnOk result (out.new.items ≡ out.old.items ++ releases_shown catalogue.now view.now (version_of view.now)) }
{
    match view.version() {
        None => Ok(put_no_device(out)?),
        Some(shown) => {
            let places = catalogue.releases_for(*out.allocator(), view.guids())?;
            Ok(put_places(out, catalogue, &shown, &places)?)
        }
    }
}

/// Puts the lines of the releases for the device that are newer than what it shows behind the text.
pub fn put_upgrades(
    out: &mut Vec<u8>,
    facts: &Facts,
    view: Option<&DeviceView>,
) -> Result<(), NoMemory>
    ensures { OnOk result (out.new.items ≡ out.old.items ++ upgrades_reply facts.now (option_copied view.entry)) }
{
    match view {
        None => Ok(put_no_device(out)?),
        Some(view) => put_newer(out, &facts.catalogue, view),
    }
}

fn put_newer(out: &mut Vec<u8>, catalogue: &Catalogue, view: &DeviceView) -> Result<(), NoMemory>
    ensures { OnOk result (out.new.items ≡ out.old.items ++ upgrades_shown catalogue.now view.now (version_of view.now)) }
{
    match view.version() {
        None => Ok(put_no_device(out)?),
        Some(shown) => {
            let mut places = catalogue.releases_for(*out.allocator(), view.guids())?;
            keep_newer(&mut places, catalogue, &shown);
            Ok(put_places(out, catalogue, &shown, &places)?)
        }
    }
}

fn keep_newer(places: &mut Vec<ReleaseRef>, catalogue: &Catalogue, shown: &Version)
    ensures { places.new.items ≡ filter (is_newer_at catalogue.now shown.now) places.old.items }
{
    places.retain(|at| is_newer_at(catalogue, shown, *at));
}

fn is_newer_at(catalogue: &Catalogue, shown: &Version, at: ReleaseRef) -> bool
    ensures { result ≡ is_newer_at catalogue.now shown.now at }
{
    match catalogue.components().get(at.component as usize) {
        None => false,
        Some(component) => match component.releases.items().get(at.release as usize) {
            None => false,
            Some(release) => is_newer(&release.version, shown),
        },
    }
}

fn is_newer(version: &Version, shown: &Version) -> bool
    ensures { result ≡ is_gt (version_cmp version.now shown.now) }
{
    match compare(version, shown) {
        Ordering::Greater => true,
        Ordering::Equal | Ordering::Less => false,
    }
}

// The first lines of the releases at these places, and how many are left out.
fn put_places(
    out: &mut Vec<u8>,
    catalogue: &Catalogue,
    shown: &Version,
    places: &[ReleaseRef],
) -> Result<(), AllocError>
    ensures { OnOk result (out.new.items ≡ out.old.items ++ at_most_64 (line_at catalogue.now shown.now) places.now) }
{
    if places.is_empty() {
        return put_none(out);
    }
    let listed = places.len().min(LINES_MAX);
    put_lines(out, catalogue, shown, &places[..listed])?;
    put_left_out(out, places.len() - listed)?;
    Ok(())
}

fn put_lines(
    out: &mut Vec<u8>,
    catalogue: &Catalogue,
    shown: &Version,
    places: &[ReleaseRef],
) -> Result<(), AllocError>
    ensures { OnOk result (out.new.items ≡ out.old.items ++ flat_map (line_at catalogue.now shown.now) places.now) }
{
    for at in places {
        put_line_at(out, catalogue, shown, *at)?;
    }
    Ok(())
}

fn put_line_at(
    out: &mut Vec<u8>,
    catalogue: &Catalogue,
    shown: &Version,
    at: ReleaseRef,
) -> Result<(), AllocError>
    ensures { OnOk result (out.new.items ≡ out.old.items ++ line_at catalogue.now shown.now at) }
{
    match catalogue.components().get(at.component as usize) {
        None => Ok(()),
        Some(component) => match component.releases.items().get(at.release as usize) {
            None => Ok(()),
            Some(release) => put_release(out, shown, component, release),
        },
    }
}

fn put_release(
    out: &mut Vec<u8>,
    shown: &Version,
    component: &Component,
    release: &Release,
) -> Result<(), AllocError>
    ensures { OnOk result (out.new.items ≡ out.old.items ++ reply_line (release_text shown.now component.now release.now)) }
{
    out.extend_from_slice(b"  ")?;
    put_release_text(out, shown, component, release)?;
    out.extend_from_slice(b"\n")
}

#[tactic(auto, unfolding(crate::specs::Replies::release_text))]
fn put_release_text(
    out: &mut Vec<u8>,
    shown: &Version,
    component: &Component,
    release: &Release,
) -> Result<(), AllocError>
    ensures { OnOk result (out.new.items ≡ out.old.items ++ release_text shown.now component.now release.now) }
{
    put_known(out, component, release)?;
    out.extend_from_slice(b" ")?;
    out.extend_from_slice(order_word(compare(&release.version, shown)).as_bytes())?;
    put_stated(out, b" format ", &component.format)?;
    put_stated(out, b" protocol ", &component.protocol)
}

// The front of a release's line.
#[tactic(auto, unfolding(crate::specs::Replies::known_text))]
fn put_known(out: &mut Vec<u8>, component: &Component, release: &Release) -> Result<(), AllocError>
    ensures { OnOk result (out.new.items ≡ out.old.items ++ known_text component.now release.now) }
{
    out.extend_from_slice(component.id.bytes())?;
    out.extend_from_slice(b" ")?;
    out.extend_from_slice(release.version.bytes())?;
    out.extend_from_slice(b" urgency ")?;
    out.extend_from_slice(release.urgency.bytes())?;
    out.extend_from_slice(b" size ")?;
    put_number(out, u64::from(release.size))
}

fn put_stated(out: &mut Vec<u8>, what: &[u8], word: &Option<Name>) -> Result<(), AllocError>
    ensures { OnOk result (out.new.items ≡ out.old.items ++ stated what.now word.now) }
{
    match word {
        None => Ok(()),
        Some(word) => {
            out.extend_from_slice(what)?;
            out.extend_from_slice(word.bytes())
        }
    }
}
