//! What is left of a house.
ghost use Rattle.std.specs.Prelude.{◌≡◌, []};
ghost use Rattle.daemon_core.specs.Housed.{past};
ghost use Rattle.update_log.specs.Holding.{live};

use daemon_core::{HomeBoards, House, HouseParts};
use emulated_boards::{Board, Mark};
use fw_facts::Seen;
use history_keeper::{MemoryKeeper, Row, RowState};
use update_log::Log;

/// What is left of a house: its keeper's rows, and what became of its boards.
#[derive(Clone, Copy, Debug, PartialEq, Eq)]
pub struct Left {
    /// How many rows there are.
    pub rows: usize,
    /// The state of the last one, and the number of the refusal that ended it.
    pub last: Option<(RowState, u8)>,
    /// What each port shows.
    pub seen: [Seen; 2],
    /// How many writes began, by the journals of both boards.
    pub began: usize,
    /// How many of them ended.
    pub ended: usize,
}

fn last_row(rows: &[Row]) -> Option<(RowState, u8)> {
    rows.last().map(|row| (row.state, row.reason))
}

// How many marks there are of writes that began, and of writes that ended.
fn count_marks(marks: &[Mark], left: &mut Left) {
    for mark in marks {
        match mark {
            Mark::Began { entry: _ } => left.began = left.began.wrapping_add(1),
            Mark::Ended {
                entry: _,
                digest: _,
            } => left.ended = left.ended.wrapping_add(1),
            Mark::Entered | Mark::Left => {}
        }
    }
}

// Notes what became of the board in a port.
fn note_board(board: Option<&Board>, port: usize, left: &mut Left) {
    if let Some(board) = board {
        count_marks(board.marks(), left);
        if let Some(seen) = left.seen.get_mut(port) {
            *seen = board.view();
        }
    }
}

fn left_of(rows: &[Row], boards: &HomeBoards) -> Left {
    let mut left = Left {
        rows: rows.len(),
        last: last_row(rows),
        seen: [Seen::Gone; 2],
        began: 0,
        ended: 0,
    };
    for port in 0..2 {
        note_board(boards.get(port), port, &mut left);
    }
    left
}

/// Takes a house apart: its log, and what is left. Nobody has anything out of it.
pub fn close(house: House<MemoryKeeper>) -> (Log, Left)
    requires { live (past house) ≡ [] }
{
    let HouseParts {
        facts: _,
        log,
        boards,
        keeper,
        opening: _,
    } = house.into_parts();
    (log, left_of(keeper.rows(), &boards))
}
