//! What a house is made of.
ghost use Rattle.std.specs.Prelude.{◌≡◌, ◌≤◌, ◌+◌, [], map, length, OnOk, IfOk, vec_len, vec_capacity};
ghost use Rattle.daemon_core.specs.House.{place_of, shown_by};

use crate::place::BoardPlace;
use emulated_boards::Board;
use fw_base::NoMemory;
use fw_facts::Seen;
use std::alloc::Global;

/// There wasn't enough memory to make a house: the boards and the keeper as they came.
pub struct RefusedHouse<K> {
    pub boards: Vec<Board>,
    pub keeper: K,
}

/// What each board shows.
pub fn shown_by(alloc: Global, boards: &[Board]) -> Result<Vec<Seen>, NoMemory>
    ensures { IfOk result (λ shown. shown.items ≡ map shown_by boards.now) }
{
    Ok(boards.iter().map(|board| board.view()).collect(alloc)?)
}

/// Places for so many boards.
pub fn empty_places(alloc: Global, count: usize) -> Result<Vec<BoardPlace>, NoMemory>
    ensures empty { IfOk result (λ places. places.items ≡ []) }
    ensures room { IfOk result (λ places. vec_len places + count ≤ vec_capacity places) }
{
    let mut places = Vec::new(alloc);
    places.reserve(count)?;
    Ok(places)
}

/// Puts each board into its place, at home, with nothing told of it.
pub fn fill_places(places: &mut Vec<BoardPlace>, boards: Vec<Board>)
    requires empty { places.old.items ≡ [] }
    requires room { vec_len places.old + length boards.items ≤ vec_capacity places.old }
    ensures { places.new.items ≡ map place_of boards.items }
{
    let mut left = boards;
    left.reverse();
    while let Some(board) = left.pop() {
        places.push_reserved(BoardPlace {
            board: Some(board),
            told: 0,
        });
    }
}
