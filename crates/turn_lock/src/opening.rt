//! How a lock begins: its table is laid, and one seat makes the passes.
ghost use Rattle.std.specs.Prelude.{◌≡◌, ◌∷◌, ◌^◌, ◌<◌, ◌≤◌, [], map, vec_capacity, IfOk, IfErr, Some};
ghost use Rattle.std.specs.List.{range_with_len};
ghost use Rattle.turn_lock.specs.declared.view.SeatView.TheVariants.{Opening};
ghost use Rattle.turn_lock.specs.Shown.{new_pass};
ghost use Rattle.turn_lock.specs.Steps.{IsLaid, SitsAt};

use crate::boxed::Boxed;
use crate::chronicle::Chronicle;
use crate::pass::Pass;
use crate::rule::InTurn;
use crate::steps::{LockSeat, LockTable, WORDS, make_pass};
use crate::view::SeatView;
use atomic_table::Table;
use std::alloc::Global;
use std::snapshot::Snapshot;

/// There was no memory for a lock. The value that was to lie behind it comes back.
pub struct Refused<V> {
    pub value: V,
}

/// What the rule is told when the lock is made.
pub(crate) struct Start<V> {
    pub seats: u32,
    pub value: Snapshot<V>,
}

impl<V> Drop for Start<V> {
    fn drop(self) {
        let Start { seats: _, value: _ } = self;
    }
}

/// The lock's table, as its owner has it.
pub(crate) type OwnTable<V> = Table<
    Option<V>,
    SeatView<<V as Chronicle>::Entry>,
    Start<V>,
    InTurn,
    Global,
>;

fn one_slot<V>(alloc: Global, value: V) -> Result<Vec<Option<V>>, Refused<V>>
    ensures ok { IfOk result (λ slots. slots.items ≡ Some value ∷ []) }
    ensures err { IfErr result (λ refused. refused.value ≡ value) }
{
    let Ok(mut slots) = Vec::with_capacity(alloc, 1) else {
        return Err(Refused { value });
    };
    slots.push_reserved(Some(value));
    Ok(slots)
}

fn only_value<V>(mut slots: Vec<Option<V>>) -> V
    requires { (x : V) × (slots.items ≡ Some x ∷ []) }
    ensures { slots.items ≡ Some result ∷ [] }
{
    let Some(slot) = slots.pop() else {
        unreachable!()
    };
    let Some(value) = slot else { unreachable!() };
    slots.destroy_empty();
    value
}

/// Lays a table with the value in its slot. The seat is the one that opens the lock.
pub(crate) fn lay<V: Chronicle>(
    alloc: Global,
    value: V,
    start: &Start<V>,
) -> Result<(OwnTable<V>, LockSeat<V>), Refused<V>>
    requires start { start.now.value.value ≡ value }
    requires few { start.now.seats < 2 ^ 32 }
    ensures table { IfOk result (λ laid. IsLaid laid.0.shared.table_id × (laid.0.shared.key ≡ start.now)) }
    ensures seat { IfOk result (λ laid. laid.1.table_id ≡ laid.0.shared.table_id) }
    ensures opener { IfOk result (λ laid. laid.1.me ≡ (Opening 0 (V.entries value), [])) }
    ensures err { IfErr result (λ refused. refused.value ≡ value) }
{
    let slots = one_slot(alloc, value)?;
    match Table::new(alloc, &[0; WORDS], slots, start) {
        Ok(laid) => Ok(laid),
        Err(refused) => Err(Refused {
            value: only_value(refused.slots),
        }),
    }
}

/// Lays a table with the value on the heap. So many passes are to be made.
pub(crate) fn lay_boxed<V: Chronicle>(
    alloc: Global,
    value: V,
    seats: u32,
) -> Result<(OwnTable<Boxed<V>>, LockSeat<Boxed<V>>), Refused<V>>
    ensures table { IfOk result (λ laid. IsLaid laid.0.shared.table_id) }
    ensures seats { IfOk result (λ laid. laid.0.shared.key.seats ≡ seats) }
    ensures value { IfOk result (λ laid. laid.0.shared.key.value.value.held.value ≡ value) }
    ensures seat { IfOk result (λ laid. laid.1.table_id ≡ laid.0.shared.table_id) }
    ensures opener { IfOk result (λ laid. laid.1.me ≡ (Opening 0 (V.entries value), [])) }
    ensures err { IfErr result (λ refused. refused.value ≡ value) }
{
    let boxed = match Boxed::of(alloc, value) {
        Ok(boxed) => boxed,
        Err(value) => return Err(Refused { value }),
    };
    let start = Start {
        seats,
        value: Snapshot::of(&boxed),
    };
    match lay(alloc, boxed, &start) {
        Ok(laid) => Ok(laid),
        Err(refused) => {
            let Refused { value } = refused;
            Err(Refused {
                value: value.into_value(),
            })
        }
    }
}

/// Makes the passes, for which there is room.
pub(crate) fn make_passes<V: Chronicle>(
    table: &LockTable<V>,
    mut opener: LockSeat<V>,
    passes: &mut Vec<Pass<V::Entry>>,
    seats: u32,
)
    requires seat { SitsAt table.now.table_id opener.table_id }
    requires opener { opener.me ≡ (Opening 0 (V.entries table.now.key.value.value), []) }
    requires seats { table.now.key.seats ≡ seats }
    requires room { (passes.old.items ≡ []) × (seats ≤ vec_capacity passes.old) }
    ensures passes { passes.new.items ≡ map (new_pass table.now.table_id (V.entries table.now.key.value.value)) (range_with_len 0 seats) }
{
    for number in 0..seats {
        passes.push_reserved(make_pass(table, &mut opener, number));
    }
}
