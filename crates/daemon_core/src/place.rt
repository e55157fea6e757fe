//! The place of a board.
use emulated_boards::Board;
use std::marker::Model;

/// Where a board belongs: the board, while it is at home, and how many marks of its journal the log told.
#[derive(Drop)]
pub struct BoardPlace {
    pub board: Option<Board>,
    pub told: usize,
}

impl Model for BoardPlace {
    ghost use Rattle.daemon_core.specs.Housed.{Place};

    ghost Value = { Place };

    ghost view = { λ p. record { board = p.board; told = p.told } };
}
