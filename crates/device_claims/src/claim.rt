//! What a claim owns, whichever state it is in.
ghost use Rattle.std.specs.Prelude.{◌≡◌};

use crate::state::State;
use block_pool::Payload;
use emulated_boards::Board;
use std::marker::{Model, PhantomData};
use update_log::Trace;

/// The board and the payload of an entry, and the steps that it has made.
pub struct Parts {
    pub entry: u32,
    pub board: Board,
    pub payload: Payload,
    pub trace: Trace,
}

/// A claim in a state. It must be spent: by the step that comes next, or by `into_parts`.
///
/// Contracts see its parts.
pub struct Claim<S: State> {
    pub(crate) parts: Parts,
    pub(crate) state: PhantomData<S>,
}

impl<S: State> Model for Claim<S> {
    ghost use Rattle.device_claims.specs.declared.claim.Parts.{Parts};
    ghost use Rattle.device_claims.specs.States.{Stands};

    ghost Value = { Parts };

    ghost view = { λ claim. claim.parts };

    ghost invariant = { λ claim. Stands S.limits claim.parts };
}

impl<S: State> Claim<S> {
    /// The board.
    pub fn board(&self) -> &Board
        ensures { result.now ≡ self.now.board }
    {
        &self.parts.board
    }

    /// Ends the claim, and gives back what it owns.
    pub fn into_parts(self) -> (Board, Payload)
        ensures board { result.0 ≡ self.board }
        ensures payload { result.1 ≡ self.payload }
    {
        let Claim { parts, state: _ } = self;
        let Parts {
            entry: _,
            board,
            payload,
            trace: _,
        } = parts;
        (board, payload)
    }
}
