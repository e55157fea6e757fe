//! The sections of the document.
ghost use Rattle.std.specs.Prelude.{◌≡◌, ◌≤◌, ◌∷◌, [], IfOk, None, length};
ghost use Rattle.json_values.specs.Trees.{view};
ghost use Rattle.release_catalogue.specs.declared.word.Word.TheVariants as words;
ghost use Rattle.release_catalogue.specs.Reading.{Gives, the};
ghost use Rattle.release_catalogue.specs.Kinds.{number_at};
ghost use Rattle.remote_set.specs.Merged.{first_repeated};
ghost use Rattle.site_scripts.specs.Places.{spot_in};
ghost use Rattle.site_remotes.specs.Remotes.{IsWithin, local};
ghost use Rattle.site_files.specs.Sites.{course_at, setting_at, site_at, site_in, site_of};
ghost use Rattle.site_files.specs.Told.{Tells};
ghost use Rattle.site_types.specs.Limits.{CanBeSettled};

use crate::boards::{boards_of, read_boards};
use crate::fault::SiteFault;
use crate::machine::{Machine, read_machine};
use crate::quirks::quirks_or_none;
use crate::text::json;
use client_scripts::Item;
use fw_base::{Listed, Name, NoMemory};
use json_values::{Scratch, Value};
use quirk_files::QuirkBook;
use release_catalogue::kinds::{number, object};
use release_catalogue::members::needed;
use release_catalogue::{Catalogue, ReadStop, Word};
use remote_set::Remote;
use site_remotes::{gather, local, remotes_or_local};
use site_scripts::{part, read_boots, read_clients, spot_in, whole_spot};
use site_types::{Site, SiteBoard};
use std::alloc::Global;
use update_log::BootPlan;

/// Where a campaign takes place.
#[derive(Drop)]
pub struct Setting {
    pub machine: Machine,
    pub quirks: QuirkBook,
    /// The section `components` is the first.
    pub remotes: Listed<Remote>,
}

/// Who takes part in it, and what they do.
#[derive(Drop)]
pub struct Course {
    pub boards: Listed<SiteBoard>,
    pub features: Listed<Listed<Name>>,
    pub boots: Listed<BootPlan>,
    pub scripts: Listed<Listed<Listed<Item>>>,
}

/// The site that a document states, which is a JSON text, or its first fault: sections in the order
/// `format`, `machine`, `quirks`, `components`, `remotes`, `boards`, `clients`, `boots`, in a list its kind, its
/// count and then its entries, in an entry the fields in the order of their table. Bytes that
/// `serde_json` gives no reading of are `not-json` at `document 0 0 0 text`.
/// A campaign can be made of a site that was read: its boards have planned faults with rising calls,
/// and priorities of at most 1,000.
pub fn read_site(alloc: Global, bytes: &[u8]) -> Result<Site, SiteFault>
    ensures read { Tells (λ site. site) result (site_of bytes.now) }
    ensures settleable { IfOk result (λ site. CanBeSettled site.boards) }
{
    match read(alloc, bytes) {
        Ok(site) => Ok(site),
        Err(stop) => Err(SiteFault::from_stop(stop)),
    }
}

fn read(alloc: Global, bytes: &[u8]) -> Result<Site, ReadStop>
    ensures { Gives (λ s. s) result (site_of bytes.now) }
{
    let mut scratch = Scratch::new(alloc);
    let value = json(alloc, bytes, &mut scratch)?;
    site(alloc, &value)
}

/// The site that a JSON value states.
#[tactic(auto, unfolding(crate::specs::Sites::site_at))]
pub fn site(alloc: Global, value: &Value) -> Result<Site, ReadStop>
    ensures { Gives (λ s. s) result (site_at (view value.now)) }
{
    let setting = read_setting(alloc, value)?;
    let course = read_course(alloc, value)?;
    Ok(site_in(alloc, setting, course)?)
}

/// The site of its parts: the remotes are merged.
fn site_in(alloc: Global, setting: Setting, course: Course) -> Result<Site, NoMemory>
    requires few { length setting.remotes ≤ 17 }
    requires within { IsWithin setting.remotes }
    requires named { first_repeated setting.remotes ≡ None }
    ensures { IfOk result (λ site. site ≡ site_in setting course) }
{
    let Setting {
        machine,
        quirks,
        remotes,
    } = setting;
    let gathered = gather(alloc, remotes.into_items())?;
    let Machine { facts, pool } = machine;
    let Course {
        boards,
        features,
        boots,
        scripts,
    } = course;
    Ok(Site {
        machine: facts,
        pool,
        quirks,
        catalogue: gathered.catalogue,
        remotes: gathered.remotes,
        boards,
        features,
        boots,
        scripts,
    })
}

#[tactic(auto, unfolding(crate::specs::Sites::setting_at))]
fn read_setting(alloc: Global, value: &Value) -> Result<Setting, ReadStop>
    ensures read { Gives (λ s. s) result (setting_at (view value.now)) }
    ensures few { IfOk result (λ s. length s.remotes ≤ 17) }
    ensures within { IfOk result (λ s. IsWithin s.remotes) }
    ensures named { IfOk result (λ s. first_repeated s.remotes ≡ None) }
{
    let whole = whole_spot();
    object(value, whole)?;
    form(value)?;
    let machine = read_machine(
        alloc,
        needed(value, whole, Word::Machine)?,
        whole.field(Word::Machine),
    )?;
    let quirks = quirks_or_none(alloc, value, whole)?;
    let catalogue = Catalogue::read(alloc, needed(value, whole, Word::Components)?)?;
    let remotes = remotes_or_local(alloc, value, whole, own_remote(catalogue))?;
    Ok(Setting {
        machine,
        quirks,
        remotes: Listed::of(remotes),
    })
}

/// The section `components` as a remote, which is within the limits of a document.
fn own_remote(catalogue: Catalogue) -> Remote
    ensures value { result ≡ local catalogue }
    ensures within { IsWithin (local catalogue ∷ []) }
{
    catalogue.within_limits();
    local(catalogue)
}

/// The document's form, which has the number 1.
fn form(value: &Value) -> Result<u64, ReadStop>
    ensures { Gives (λ n. n) result (the (spot_in words.Format words.Format) words.Format (number_at 1 1) (view value.now)) }
{
    let spot = spot_in(Word::Format, Word::Format);
    number(
        needed(value, spot, Word::Format)?,
        spot.field(Word::Format),
        1,
        1,
    )
}

#[tactic(auto, unfolding(crate::specs::Sites::course_at))]
fn read_course(alloc: Global, value: &Value) -> Result<Course, ReadStop>
    ensures { Gives (λ c. c) result (course_at (view value.now)) }
{
    let whole = whole_spot();
    let read = read_boards(
        alloc,
        needed(value, whole, Word::Boards)?,
        whole.field(Word::Boards),
    )?;
    let features = read_clients(
        alloc,
        needed(value, whole, Word::Clients)?,
        whole.field(Word::Clients),
    )?;
    let boots = read_boots(
        alloc,
        &read.ports,
        features.len(),
        needed(value, whole, Word::Boots)?,
        whole.field(Word::Boots),
    )?;
    let parted = part(alloc, boots)?;
    Ok(Course {
        boards: boards_of(alloc, read.placed)?,
        features: Listed::of(features),
        boots: parted.plans,
        scripts: parted.scripts,
    })
}
