//! The marks that an event tells.
ghost use Rattle.std.specs.Prelude.{◌≡◌, ◌==◌, [], ◌∷◌, ◌++◌, length};
ghost use Rattle.std.specs.Option.{option_to_list};

use emulated_boards::Mark;
use std::marker::Model;

/// Up to two marks of a board's journal, kept inline. Contracts see their list.
#[derive(Clone, Copy, Debug)]
pub struct Told {
    first: Option<Mark>,
    second: Option<Mark>,
}

impl Model for Told {
    ghost use Rattle.std.specs.Prelude.{List};
    ghost use Rattle.emulated_boards.specs.declared.mark.Mark.{Mark};

    ghost Value = { List Mark };

    ghost use Rattle.update_log.specs.Told.{marks_told, IsTold, kept_again, marks_kept};

    ghost view = { marks_told };

    ghost invariant = { IsTold };

    ghost inverse = { marks_kept };

    ghost inverse_ok = { kept_again };
}

impl Told {
    /// No mark.
    pub fn none() -> Told
        ensures { result ≡ [] }
    {
        Told {
            first: None,
            second: None,
        }
    }

    /// One mark.
    pub fn one(mark: Mark) -> Told
        ensures { result ≡ mark ∷ [] }
    {
        Told {
            first: Some(mark),
            second: None,
        }
    }

    /// Two marks, in their order.
    pub fn two(first: Mark, second: Mark) -> Told
        ensures { result ≡ first ∷ second ∷ [] }
    {
        Told {
            first: Some(first),
            second: Some(second),
        }
    }

    /// Whether there is no mark.
    pub fn is_empty(&self) -> bool
        ensures { result ≡ (length self.now == 0) }
    {
        self.first.is_none()
    }

    /// The first mark and the second, where they are there.
    pub fn parts(&self) -> (Option<Mark>, Option<Mark>)
        ensures { self.now ≡ option_to_list result.0 ++ option_to_list result.1 }
    {
        (self.first, self.second)
    }
}
