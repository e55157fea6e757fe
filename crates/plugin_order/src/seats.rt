//! The order of the plugins: by place, then by name.
ghost use Rattle.std.specs.Prelude.{◌≡◌, ◌<◌, ◌≤◌, length, map, IfOk};
ghost use Rattle.plugin_order.specs.Arranged.{IsInOrder};

use crate::rules::name_at;
use crate::sheet::PluginSheet;
use fw_base::NoMemory;
use std::alloc::Global;

/// What a plugin is ordered by. The number decides between none, since names differ.
#[derive(Clone, Copy, Debug, PartialEq, Eq, PartialOrd, Ord)]
pub struct Seat<'a> {
    place: u32,
    name: &'a [u8],
    plugin: u32,
}

/// The plugins by their places, and by name where these are equal.
pub fn in_order(alloc: Global, sheets: &[PluginSheet], places: &[u32]) -> Result<Vec<u32>, NoMemory>
    requires few { length sheets.now ≤ 64 }
    requires places { length places.now ≡ length sheets.now }
    ensures { IfOk result (λ order. IsInOrder sheets.now places.now order.items) }
{
    let mut seats: Vec<Seat> = Vec::new(alloc);
    for p in 0..sheets.len() {
        seats.push(Seat {
            place: places[p],
            name: name_at(sheets, p).bytes(),
            plugin: p as u32,
        })?;
    }
    seats.sort()?;
    plugins_of(alloc, &seats)
}

fn plugins_of(alloc: Global, seats: &[Seat]) -> Result<Vec<u32>, NoMemory>
    ensures { IfOk result (λ plugins. plugins.items ≡ map (λ s. s.plugin) seats.now) }
{
    Ok(seats.iter().map(|seat| seat.plugin).collect(alloc)?)
}
