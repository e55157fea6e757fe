//! A pass's turn with the value.
ghost use Rattle.std.specs.Prelude.{◌≡◌};
ghost use Rattle.std.specs.Borrow.{Lends, sem};
ghost use Rattle.turn_lock.specs.contracts.turn.Turn.{the_row};

use crate::boxed::Boxed;
use crate::chronicle::Chronicle;
use crate::steps::LockSeat;
use std::marker::Model;

/// The turn of a pass, with the lock's value. It can't be dropped: `TurnLock::leave` ends it.
/// Contracts see the number and the own entries of its pass, the list as the turn began, and the
/// value.
pub struct Turn<V: Chronicle> {
    pub(crate) boxed: Boxed<V>,
    pub(crate) seat: LockSeat<Boxed<V>>,
}

impl<V: Chronicle> Model for Turn<V> {
    ghost use Rattle.turn_lock.specs.Shown.{TurnView, turn_code};

    ghost Value = { TurnView V V.Entry };

    ghost coded = { turn_code V.code V.Entry.code };

    ghost use Rattle.turn_lock.specs.Fields.{turn_view, IsTurn};

    ghost view = { λ t. turn_view t.seat.table_id t.seat.me.0 t.boxed.held.value };

    ghost invariant = { λ t. IsTurn t.seat.me };
}

impl<V: Chronicle> Turn<V> {
    /// The value. Before the turn ends it may gain one entry, of the turn's own pass.
    pub fn state(&mut self) -> &mut V
        ensures* writes_back { sem 𝓛 (Lends (the_row V.row V.Entry.row V.Chronicle) V.row self.entry result (λ w. record self.old { value = w })) }
        ensures value { result.now ≡ self.old.value }
    {
        self.boxed.held.as_mut()
    }
}
