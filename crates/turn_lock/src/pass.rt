//! The right to enter a lock.
ghost use Rattle.std.specs.Prelude.{◌≡◌, ℕ, ◌∷◌, true, false, List, []};
ghost use Rattle.turn_lock.specs.declared.view.SeatView.TheVariants.{Idle};
ghost use Rattle.turn_lock.specs.Views.{knowledge_of, knows};
ghost use Rattle.turn_lock.specs.Fields.{pass_view};

use crate::view::SeatView;
use atomic_table::{Badge, Seat};
use std::marker::Model;
use std::mem;

/// The right to enter a lock, again and again.
/// Contracts see its number, the list as it saw it last, and its own entries since the lock was
/// made. While its turn lasts, the two lists are with the turn.
#[derive(Drop)]
pub struct Pass<E> {
    number: u32,
    badge: Badge<SeatView<E>>,
}

impl<E> Model for Pass<E> {
    ghost use Rattle.turn_lock.specs.Shown.{PassView, pass_code};

    ghost Value = { PassView E };

    ghost coded = { pass_code E.code };

    ghost use Rattle.turn_lock.specs.Fields.{pass_view, IsPass};

    ghost view = { λ p. pass_view p.badge.table_id p.number p.badge.views };

    ghost invariant = { λ p. IsPass p.number p.badge.views };
}

impl<E> Pass<E> {
    /// The number that the entries of this pass hold. The passes of a lock count from 0.
    pub fn number(&self) -> u32
        ensures { result ≡ self.now.number }
    {
        self.number
    }

    pub(crate) fn of<S>(number: u32, seat: Seat<S, SeatView<E>>) -> Pass<E>
        requires { (base : ℕ) × (seen mine : List E) × (seat.me ≡ (Idle (knows number base seen mine), [])) }
        ensures { result ≡ pass_view seat.table_id number (seat.me.0 ∷ []) }
    {
        Pass {
            number,
            badge: seat.into_badge(),
        }
    }

    // The seat goes with the turn.
    pub(crate) fn lend<S>(&mut self) -> Seat<S, SeatView<E>>
        requires { self.old.ready ≡ true }
        ensures pass { (self.new.number ≡ self.old.number) × (self.new.ready ≡ false) }
        ensures seat { (result.table_id ≡ self.old.lock) × (result.me ≡ (Idle (knowledge_of self.old), [])) }
    {
        mem::replace(&mut self.badge, Badge::blank()).into_seat()
    }

    // The seat comes back from the turn.
    pub(crate) fn regain<S>(&mut self, seat: Seat<S, SeatView<E>>)
        requires { (base : ℕ) × (seen mine : List E) × (seat.me ≡ (Idle (knows self.old.number base seen mine), [])) }
        ensures { self.new ≡ pass_view seat.table_id self.old.number (seat.me.0 ∷ []) }
    {
        self.badge = seat.into_badge();
    }
}
