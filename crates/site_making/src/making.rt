//! The generated site.
ghost use Rattle.std.specs.Prelude.{◌≡◌, ◌≤◌, [], ◌∷◌, map, IfOk, OnOk};
ghost use Rattle.std.specs.List.{range_with_len};
ghost use Rattle.site_types.specs.Limits.{CanBeSettled};
ghost use Rattle.site_making.specs.Made.{NoneShared, made_boot, made_component, made_machine, made_release, made_site};

use crate::boards::made_boards;
use crate::scripts::made_scripts;
use crate::sheets::board_guids;
use crate::words::{NEW_PAYLOAD, name, new_version, version};
use fw_base::{Line, Listed, Name, NoMemory};
use fw_facts::{Component, MachineFacts, Release};
use quirk_files::QuirkBook;
use release_catalogue::Catalogue;
use sha2::{Digest as _, Sha256};
use site_types::Site;
use std::alloc::Global;
use update_log::BootPlan;

/// How many blocks the pool of a generated site has.
const POOL_BLOCKS: u32 = 64;

/// How many bytes the payload has.
const PAYLOAD_BYTES: u32 = 14;

/// A site that is generated: 1 to 256 boards of one kind, and 1 to 16 clients. Each client installs the
/// one release on each of its boards, asks for the same again, and asks what became of it. No two
/// clients have a board in common. The first call of each fifth board fails.
pub fn make_site(alloc: Global, boards: u32, clients: u32) -> Result<Site, NoMemory>
    requires some_boards { 1 ≤ boards }
    requires few_boards { boards ≤ 256 }
    requires some_clients { 1 ≤ clients }
    requires few_clients { clients ≤ 16 }
    ensures made { IfOk result (λ site. site ≡ made_site boards clients) }
    ensures settled { IfOk result (λ site. CanBeSettled site.boards) }
    ensures apart { OnOk result (NoneShared clients) }
{
    Ok(Site {
        machine: made_machine(alloc)?,
        pool: POOL_BLOCKS,
        quirks: QuirkBook::new(alloc),
        catalogue: made_catalogue(alloc)?,
        remotes: Listed::of(Vec::new(alloc)),
        boards: made_boards(alloc, boards)?,
        features: no_features(alloc, clients)?,
        boots: made_boots(alloc)?,
        scripts: one_boot(alloc, made_scripts(alloc, boards, clients)?)?,
    })
}

fn made_machine(alloc: Global) -> Result<MachineFacts, NoMemory>
    ensures { IfOk result (λ machine. machine ≡ made_machine) }
{
    let mut ids = Vec::new(alloc);
    ids.push((name(b"org.freedesktop.fwupd"), version(b"1.9.5")))?;
    Ok(MachineFacts {
        ids: Listed::of(ids),
        hardware: Listed::of(Vec::new(alloc)),
        on_ac: true,
        power_low: false,
        lid_closed: false,
    })
}

fn made_catalogue(alloc: Global) -> Result<Catalogue, NoMemory>
    ensures { IfOk result (λ catalogue. catalogue ≡ made_component ∷ []) }
{
    let mut components = Vec::new(alloc);
    components.push(made_component(alloc)?)?;
    Ok(Catalogue::of(alloc, components)?)
}

fn made_component(alloc: Global) -> Result<Component, NoMemory>
    ensures { IfOk result (λ component. component ≡ made_component) }
{
    Ok(Component {
        id: name(b"com.example.make"),
        name: Line::empty(),
        provides: board_guids(alloc)?,
        requirements: Listed::of(Vec::new(alloc)),
        format: None,
        protocol: None,
        releases: Listed::of(Vec::from_slice(alloc, &[made_release()])?),
    })
}

fn made_release() -> Release
    ensures { result ≡ made_release }
{
    let digest = Sha256::digest(NEW_PAYLOAD);
    Release {
        version: new_version(),
        urgency: name(b"unknown"),
        digest,
        size: PAYLOAD_BYTES,
    }
}

/// No feature of each client.
fn no_features(alloc: Global, clients: u32) -> Result<Listed<Listed<Name>>, NoMemory>
    requires { clients ≤ 16 }
    ensures { IfOk result (λ features. features ≡ map (λ client. []) (range_with_len 1 clients)) }
{
    let mut features = Vec::new(alloc);
    for _client in 1..clients + 1 {
        features.push(Listed::of(Vec::new(alloc)))?;
    }
    Ok(Listed::of(features))
}

fn made_boots(alloc: Global) -> Result<Listed<BootPlan>, NoMemory>
    ensures { IfOk result (λ boots. boots ≡ made_boot ∷ []) }
{
    let mut boots = Vec::new(alloc);
    boots.push(BootPlan {
        time: 0,
        limit: None,
        absent: Listed::of(Vec::new(alloc)),
    })?;
    Ok(Listed::of(boots))
}

/// The scripts of the only boot.
fn one_boot<T: Drop>(alloc: Global, scripts: T) -> Result<Listed<T>, NoMemory>
    ensures { IfOk result (λ boots. boots ≡ scripts ∷ []) }
{
    let mut boots = Vec::new(alloc);
    boots.push(scripts)?;
    Ok(Listed::of(boots))
}
