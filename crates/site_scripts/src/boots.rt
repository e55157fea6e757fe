//! The boots of the document.
ghost use Rattle.std.specs.Prelude.{◌≡◌, ◌+◌, ◌≤◌, [], IfOk, length, map};
ghost use Rattle.json_values.specs.Trees.{view, items_view};
ghost use Rattle.release_catalogue.specs.declared.spot.Level.TheVariants.{First};
ghost use Rattle.release_catalogue.specs.declared.word.Word.TheVariants as words;
ghost use Rattle.release_catalogue.specs.Reading.{Gives, each, entry_spot, maybe};
ghost use Rattle.release_catalogue.specs.Kinds.{number_at};
ghost use Rattle.site_scripts.specs.Boots.{boot_at, boots_at, items_in, items_of_boots};
ghost use Rattle.site_scripts.specs.Places.{spot_in};

use crate::absent::absents_or_none;
use crate::ports::Ports;
use crate::scripts::scripts_or_none;
use crate::spots::spot_in;
use client_scripts::Item;
use fw_base::{Listed, NoMemory};
use json_values::Value;
use release_catalogue::entries::count;
use release_catalogue::kinds::{items, number, object};
use release_catalogue::members::{member, needed};
use release_catalogue::spot::fault_at;
use release_catalogue::{Level, ReadStop, Reason, Spot, Word};
use std::alloc::Global;
use update_log::BootPlan;

/// The most boots of a document.
pub const BOOTS_MAX: usize = 32;

/// The latest time, in seconds.
pub const TIME_MAX: u64 = 9_223_372_036_854_775_807;

/// The most counted events before a cut.
pub const CUT_MAX: u64 = 1_000_000;

/// A boot: its plan, and the scripts of the clients, client 1 first.
#[derive(Drop)]
pub struct Boot {
    pub plan: BootPlan,
    pub scripts: Listed<Listed<Item>>,
}

/// Up to 32 boots, with at most 8,192 items in all.
pub fn read_boots(
    alloc: Global,
    ports: &Ports,
    clients: usize,
    value: &Value,
    spot: Spot,
) -> Result<Vec<Boot>, ReadStop>
    requires ports { length ports.now ≤ 256 }
    requires clients { clients ≤ 16 }
    ensures { Gives (λ v. v.items) result (boots_at ports.now clients spot (view value.now)) }
{
    let values = items(value, spot)?;
    if BOOTS_MAX < count(values) {
        return Err(fault_at(spot, Reason::TooMany));
    }
    each_boot(alloc, ports, clients, values)
}

fn each_boot(
    alloc: Global,
    ports: &Ports,
    clients: usize,
    values: &[Value],
) -> Result<Vec<Boot>, ReadStop>
    requires ports { length ports.now ≤ 256 }
    requires clients { clients ≤ 16 }
    requires few { length values.now ≤ 32 }
    ensures { Gives (λ v. v.items) result (each (λ earlier. boot_at ports.now clients (items_of_boots earlier)) (entry_spot (spot_in words.Boots words.Entry) First) [] (items_view values.now)) }
{
    let base = spot_in(Word::Boots, Word::Entry);
    let mut read = Vec::new(alloc);
    let mut taken = 0;
    for (i, value) in values.iter().enumerate() {
        let spot = base.entry(Level::First, i as u32);
        let boot = read_boot(alloc, ports, clients, taken, value, spot)?;
        taken += items_in(boot.scripts.items());
        read.push(boot)?;
    }
    Ok(read)
}

/// How many items some scripts have, which are at most 8,192.
fn items_in(scripts: &[Listed<Item>]) -> usize
    requires { items_in scripts.now ≤ 8192 }
    ensures { result ≡ items_in scripts.now }
{
    let mut sum = 0;
    for script in scripts {
        sum += script.items().len();
    }
    sum
}

/// A boot, where `taken` items were taken before.
#[tactic(auto, unfolding(crate::specs::Boots::boot_at))]
pub fn read_boot(
    alloc: Global,
    ports: &Ports,
    clients: usize,
    taken: usize,
    value: &Value,
    spot: Spot,
) -> Result<Boot, ReadStop>
    requires ports { length ports.now ≤ 256 }
    requires clients { clients ≤ 16 }
    requires within { taken ≤ 8192 }
    ensures read { Gives (λ b. b) result (boot_at ports.now clients taken spot (view value.now)) }
    ensures within { IfOk result (λ b. taken + items_in b.scripts ≤ 8192) }
{
    object(value, spot)?;
    let time = number(
        needed(value, spot, Word::Time)?,
        spot.field(Word::Time),
        0,
        TIME_MAX,
    )?;
    let limit = limit_or_none(value, spot)?;
    let absent = absents_or_none(alloc, ports, value, spot)?;
    let scripts = scripts_or_none(alloc, clients, taken, value, spot)?;
    Ok(Boot {
        plan: BootPlan {
            time,
            limit,
            absent,
        },
        scripts: Listed::of(scripts),
    })
}

/// After how many counted events the power is cut, where that is said.
fn limit_or_none(value: &Value, spot: Spot) -> Result<Option<u32>, ReadStop>
    ensures { Gives (λ n. n) result (maybe spot Word.CutAfter (number_at 0 1000000) (view value.now)) }
{
    match member(value, Word::CutAfter) {
        None => Ok(None),
        Some(found) => {
            let limit = number(found, spot.field(Word::CutAfter), 0, CUT_MAX)?;
            Ok(Some(limit as u32))
        }
    }
}

/// The plans of some boots, and their scripts.
#[derive(Drop)]
pub struct Parted {
    pub plans: Listed<BootPlan>,
    pub scripts: Listed<Listed<Listed<Item>>>,
}

/// Parts the plans of boots from their scripts.
pub fn part(alloc: Global, boots: Vec<Boot>) -> Result<Parted, NoMemory>
    ensures plans { IfOk result (λ p. p.plans ≡ map (λ boot. boot.plan) boots.items) }
    ensures scripts { IfOk result (λ p. p.scripts ≡ map (λ boot. boot.scripts) boots.items) }
{
    let mut plans = Vec::new(alloc);
    let mut scripts = Vec::new(alloc);
    for boot in boots {
        plans.push(boot.plan)?;
        scripts.push(boot.scripts)?;
    }
    Ok(Parted {
        plans: Listed::of(plans),
        scripts: Listed::of(scripts),
    })
}
