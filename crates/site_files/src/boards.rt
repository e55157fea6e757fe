//! The boards of the document.
ghost use Rattle.std.specs.Prelude.{◌≡◌, ◌≤◌, [], IfOk, length, map};
ghost use Rattle.json_values.specs.Trees.{view, items_view};
ghost use Rattle.release_catalogue.specs.declared.spot.Level.TheVariants.{First};
ghost use Rattle.release_catalogue.specs.Reading.{Gives, each, entry_spot};
ghost use Rattle.site_files.specs.Boards.{board_at, boards_at, ports_of};
ghost use Rattle.site_scripts.specs.Places.{spot_in};
ghost use Rattle.release_catalogue.specs.declared.word.Word.TheVariants as words;

use crate::board::{Placed, read_board};
use fw_base::{Listed, NoMemory};
use json_values::Value;
use release_catalogue::entries::count;
use release_catalogue::kinds::items;
use release_catalogue::spot::fault_at;
use release_catalogue::{Level, ReadStop, Reason, Spot, Word};
use site_scripts::{Ports, spot_in};
use site_types::SiteBoard;
use std::alloc::Global;

/// The most boards of a document.
pub const BOARDS_MAX: usize = 256;

/// The boards that were read, and their ports.
#[derive(Drop)]
pub struct Boards<'t> {
    pub placed: Vec<Placed>,
    pub ports: Ports<'t>,
}

/// Up to 256 boards.
pub fn read_boards<'t>(alloc: Global, value: &Value<'t>, spot: Spot) -> Result<Boards<'t>, ReadStop>
    ensures read { Gives (λ b. b.placed.items) result (boards_at spot (view value.now)) }
    ensures ports { IfOk result (λ b. b.ports ≡ ports_of b.placed.items) }
    ensures few { IfOk result (λ b. length b.placed.items ≤ 256) }
{
    let values = items(value, spot)?;
    if BOARDS_MAX < count(values) {
        return Err(fault_at(spot, Reason::TooMany));
    }
    each_board(alloc, values)
}

fn each_board<'t>(alloc: Global, values: &[Value<'t>]) -> Result<Boards<'t>, ReadStop>
    requires { length values.now ≤ 256 }
    ensures read { Gives (λ b. b.placed.items) result (each board_at (entry_spot (spot_in words.Boards words.Entry) First) [] (items_view values.now)) }
    ensures ports { IfOk result (λ b. b.ports ≡ ports_of b.placed.items) }
    ensures few { IfOk result (λ b. length b.placed.items ≤ 256) }
{
    let base = spot_in(Word::Boards, Word::Entry);
    let mut placed = Vec::new(alloc);
    let mut ports = Ports::new(alloc);
    for (i, value) in values.iter().enumerate() {
        let spot = base.entry(Level::First, i as u32);
        let next = read_board(alloc, placed.as_slice(), &mut ports, value, spot)?;
        placed.push(next)?;
    }
    Ok(Boards { placed, ports })
}

/// The boards without how deep they stand.
pub fn boards_of(alloc: Global, placed: Vec<Placed>) -> Result<Listed<SiteBoard>, NoMemory>
    ensures { IfOk result (λ l. l ≡ map (λ p. p.board) placed.items) }
{
    let mut boards = Vec::new(alloc);
    for next in placed {
        boards.push(next.board)?;
    }
    Ok(Listed::of(boards))
}
