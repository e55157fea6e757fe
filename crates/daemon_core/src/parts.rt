//! What is left of a house.
ghost use Rattle.std.specs.Prelude.{◌≡◌, ◌↔◌, IsTrue, length, option_and_then, option_copied, slice_get};
ghost use Rattle.daemon_core.specs.Parts.{AllHome, boards_in};

use crate::place::BoardPlace;
use emulated_boards::Board;
use fw_base::Listed;
use history_keeper::Row;
use std::marker::Model;
use update_log::{Facts, Log};

/// The boards of a house in their order, when all are at home. They are handed over in their places, so
/// it takes no memory.
#[derive(Drop)]
pub struct HomeBoards {
    places: Vec<BoardPlace>,
}

impl Model for HomeBoards {
    ghost use Rattle.std.specs.Prelude.{List};
    ghost use Rattle.emulated_boards.specs.Boards.{BoardState};
    ghost use Rattle.daemon_core.specs.Parts.{AllHome, boards_in};

    ghost Value = { List BoardState };

    ghost view = { λ h. boards_in h.places.items };

    ghost invariant = { λ h. AllHome h.places.items };
}

impl HomeBoards {
    /// The boards of these places.
    pub(crate) fn of(places: Vec<BoardPlace>) -> HomeBoards
        requires { AllHome places.items }
        ensures { result ≡ boards_in places.items }
    {
        HomeBoards { places }
    }

    /// How many there are.
    pub fn len(&self) -> usize
        ensures { result ≡ length self.now }
    {
        count(&self.places)
    }

    /// Whether there is none.
    pub fn is_empty(&self) -> bool
        ensures { IsTrue result ↔ (length self.now ≡ 0) }
    {
        self.len() == 0
    }

    /// The board of a number.
    pub fn get(&self, number: usize) -> Option<&Board>
        ensures { option_copied result ≡ slice_get self.now number }
    {
        board_in(place_at(&self.places, number))
    }
}

fn count(places: &[BoardPlace]) -> usize
    ensures { result ≡ length places.now }
{
    places.len()
}

fn place_at(places: &[BoardPlace], number: usize) -> Option<&BoardPlace>
    ensures { option_copied result ≡ slice_get places.now number }
{
    places.get(number)
}

// The board of a place, where there is such a place.
fn board_in(place: Option<&BoardPlace>) -> Option<&Board>
    ensures { option_copied result ≡ option_and_then (λ p. p.board) (option_copied place.entry) }
{
    match place {
        Some(place) => board_at(place),
        None => None,
    }
}

fn board_at(place: &BoardPlace) -> Option<&Board>
    ensures { option_copied result ≡ place.now.board }
{
    place.board.as_ref()
}

/// The parts of a house: the facts, the log, the boards, the keeper, and the rows before the log.
pub struct HouseParts<K> {
    pub facts: Facts,
    pub log: Log,
    pub boards: HomeBoards,
    pub keeper: K,
    pub opening: Listed<Row>,
}
