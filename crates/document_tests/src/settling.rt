//! What is generated, and a generated site that is settled.
use client_scripts::Item;
use fw_base::{Listed, read_digest};
use fw_facts::{Component, Sheet};
use plugin_order::{PluginSheet, arrange};
use plugin_trait::Plugin;
use site_making::*;
use site_types::SiteBoard;
use std::test::Fail;

/// The SHA-1 of `p256`, the UUID of `EMU\BOARD` in the DNS namespace, and the SHA-256 of the payload, as
/// other programs give them.
const LAST_DEVICE: &[u8] = b"243bd823464eb0c77c715a036c72ce042ec96bea";

const BOARD_GUID: &[u8] = b"5958ab99-73ed-53bb-b697-892e64a6241b";

const NEW_DIGEST: &str = "9770ab3285028befb05af65f2ad3bd2d36afb87626032bc8a9ac195219be71d7";

/// How many items the script of each client has, and how many faults each board.
const ITEMS: [usize; 4] = [9, 9, 6, 6];

const FAULTS: [usize; 10] = [0, 0, 0, 0, 1, 0, 0, 0, 0, 1];

/// Whether there is one boot, whose scripts have so many items.
fn has_one_boot(boots: &[Listed<Listed<Item>>], counts: &[usize]) -> Option<bool> {
    let scripts = boots.first()?.items();
    let same = scripts
        .iter()
        .zip(counts)
        .all(|(script, count)| script.items().len() == *count);
    Some(boots.len() == 1 && scripts.len() == counts.len() && same)
}

/// Whether the boards have so many faults.
fn have_faults(boards: &[SiteBoard], counts: &[usize]) -> bool {
    boards.len() == counts.len()
        && boards
            .iter()
            .zip(counts)
            .all(|(board, count)| board.faults.items().len() == *count)
}

#[test]
fn each_client_has_its_items(rt: HostRuntime) -> Result<(), Fail> {
    let site = make_site(rt.alloc(), 10, 4)?;
    assert_eq!(rt; has_one_boot(site.scripts.items(), &ITEMS), Some(true));
    Ok(())
}

#[test]
fn boards_have_their_faults(rt: HostRuntime) -> Result<(), Fail> {
    let site = make_site(rt.alloc(), 10, 4)?;
    assert!(rt; have_faults(site.boards.items(), &FAULTS));
    Ok(())
}

#[test]
fn clients_and_boards_of_the_largest_site(rt: HostRuntime) -> Result<(), Fail> {
    let site = make_site(rt.alloc(), 256, 16)?;
    assert_eq!(rt; site.features.items().len(), 16);
    let last = site.boards.items().last().ok_or("no board")?;
    assert_eq!(rt; last.sheet.port.bytes(), b"b256".as_slice());
    assert_eq!(rt; last.sheet.device.text().as_slice(), LAST_DEVICE);
    Ok(())
}

/// Whether it is for the boards, and its first release is the new one.
fn is_for_boards(component: &Component) -> Option<bool> {
    let guid = component.provides.items().first()?;
    let release = component.releases.items().first()?;
    Some(
        guid.text().as_slice() == BOARD_GUID
            && Some(release.digest) == read_digest(NEW_DIGEST.as_bytes()),
    )
}

#[test]
fn the_component_of_the_largest_site(rt: HostRuntime) -> Result<(), Fail> {
    let site = make_site(rt.alloc(), 256, 16)?;
    let component = site.catalogue.components().first().ok_or("no component")?;
    assert_eq!(rt; is_for_boards(component), Some(true));
    Ok(())
}

/// Whether the quirks' name and plugin are those of the board.
fn is_quirked(sheet: &Sheet) -> bool {
    sheet.name.bytes() == b"Hub".as_slice()
        && sheet.plugin.bytes() == b"loader".as_slice()
        && sheet.priority == 0
}

#[test]
fn quirks_are_applied(rt: HostRuntime) -> Result<(), Fail> {
    let alloc = rt.alloc();
    let mut site = make_site(alloc, 6, 2)?;
    site.quirks
        .read_file(alloc, b"[EMU\\BOARD]\nName = Hub\nPlugin = loader\n")?;
    let plugins: Vec<Box<dyn Plugin>> = Vec::new(alloc);
    let sheets: Vec<PluginSheet> = Vec::new(alloc);
    let arrangement = arrange(alloc, &sheets)?;
    let campaign = settle_site(alloc, site, &arrangement, &plugins)?;
    assert_eq!(rt; campaign.boards.len(), 6);
    for sheet in campaign.facts.sheets.items() {
        assert!(rt; is_quirked(sheet));
    }
    Ok(())
}
