//! The rule of the table, and what each kind of atomic step tells of it.
use crate::chronicle::Chronicle;
use crate::opening::Start;
use crate::view::SeatView;
use atomic_table::{Join, Play, Split, TableRule};

/// Seats take turns with the value, in the order of their tickets.
pub(crate) struct InTurn;

impl<V: Chronicle> TableRule<Option<V>, SeatView<V::Entry>, Start<V>> for InTurn {
    ghost use Rattle.turn_lock.specs.Rule.{rule, first};

    ghost holds = { rule V.entries V.by };

    ghost first = { first V.entries };
}

/// An idle seat gets a ticket.
pub(crate) struct Draw;

impl<V: Chronicle> Play<Option<V>, SeatView<V::Entry>> for Draw {
    ghost use Rattle.turn_lock.specs.Steps.{Draws};

    ghost then = { Draws };
}

/// A waiting seat reads how many turns have ended.
pub(crate) struct Look;

impl<V: Chronicle> Play<Option<V>, SeatView<V::Entry>> for Look {
    ghost use Rattle.turn_lock.specs.Steps.{Looks};

    ghost then = { Looks V.entries V.by };
}

/// A seat ends its turn.
pub(crate) struct PassOn;

impl<V: Chronicle> Play<Option<V>, SeatView<V::Entry>> for PassOn {
    ghost use Rattle.turn_lock.specs.Steps.{PassesOn};

    ghost then = { PassesOn V.entries };
}

/// A seat rings a bell.
pub(crate) struct Ring;

impl<V: Chronicle> Play<Option<V>, SeatView<V::Entry>> for Ring {
    ghost use Rattle.turn_lock.specs.Steps.{Rings};

    ghost then = { Rings };
}

/// The seat that makes the passes makes one more.
pub(crate) struct MakePass;

impl<E> Split<SeatView<E>> for MakePass {
    ghost use Rattle.turn_lock.specs.Views.{one_more_made, next_pass};

    ghost left = { one_more_made };

    ghost right = { next_pass };
}

/// A seat takes in a pass, with what it knows.
pub(crate) struct TakeIn;

impl<E> Join<SeatView<E>> for TakeIn {
    ghost use Rattle.turn_lock.specs.Views.{taken_in};
    ghost use Rattle.turn_lock.specs.declared.view.SeatView.TheVariants.{Spent};

    ghost both = { taken_in };

    ghost spent = { Spent };
}
