//! The nine kinds of atomic step, one function each.
ghost use Rattle.std.specs.Prelude.{◌≡◌, ◌+◌, ◌∷◌, ◌<◌, ◌≤◌, ℕ, [], length};
ghost use Rattle.turn_lock.specs.declared.view.SeatView.TheVariants.{Opening, Idle, Closing};
ghost use Rattle.turn_lock.specs.Shown.{IsReady, new_pass};
ghost use Rattle.turn_lock.specs.Views.{CanTakeIn, accounts_of, knowledge_of, own_of};
ghost use Rattle.turn_lock.specs.Steps.{SitsAt, HasTicket, Finds, MayEnd, Ends};

use crate::chronicle::Chronicle;
use crate::opening::Start;
use crate::pass::Pass;
use crate::rule::{Draw, InTurn, Look, MakePass, PassOn, Ring, TakeIn};
use crate::view::SeatView;
use atomic_table::{Seat, Shared};

// The word that counts the tickets drawn, and the word that counts the turns ended, both modulo 2^64.
pub(crate) const TICKETS: usize = 0;

pub(crate) const TURNS: usize = 1;

// The words past those two are bells. A pass that waits sleeps on the bell of its ticket.
const FIRST_BELL: usize = 2;

const BELLS: u64 = 16;

// The bit of a bell that says that a pass sleeps on it.
const MARK: u64 = 1;

// So many words a lock's table has.
pub(crate) const WORDS: usize = 18;

// The slot that the value is in.
pub(crate) const VALUE: usize = 0;

/// The lock's table, as its threads share it.
pub(crate) type LockTable<V> = Shared<
    Option<V>,
    SeatView<<V as Chronicle>::Entry>,
    Start<V>,
    InTurn,
>;

/// A seat at the lock's table.
pub(crate) type LockSeat<V> = Seat<Option<V>, SeatView<<V as Chronicle>::Entry>>;

/// Draw: the seat gets the next ticket. The answer is the ticket modulo 2^64.
pub(crate) fn draw<V: Chronicle>(table: &LockTable<V>, seat: &mut LockSeat<V>) -> u64
    requires seat { SitsAt table.now.table_id seat.old.table_id }
    requires idle { seat.old.me ≡ (Idle (own_of seat.old.me.0), []) }
    ensures seat { seat.new.table_id ≡ seat.old.table_id }
    ensures ticket { HasTicket result (own_of seat.old.me.0) seat.new.me }
{
    table.fetch_add::<Draw>(seat, TICKETS, 1)
}

/// What a look finds.
pub(crate) enum Found {
    /// The seat's turn has come, and the value is out with it.
    OwnTurn,
    /// It has not, and nothing has changed.
    OtherTurn,
}

/// Look: has the turn of the seat's ticket come?
pub(crate) fn look<V: Chronicle>(table: &LockTable<V>, seat: &mut LockSeat<V>, ticket: u64) -> Found
    requires seat { SitsAt table.now.table_id seat.old.table_id }
    requires ticket { HasTicket ticket (own_of seat.old.me.0) seat.old.me }
    ensures seat { seat.new.table_id ≡ seat.old.table_id }
    ensures found { Finds V.entries V.by seat.old.me result seat.new.me }
{
    let ended = table.load::<Look>(seat, TURNS);
    if ended == ticket {
        Found::OwnTurn
    } else {
        Found::OtherTurn
    }
}

/// Take: the value comes out of the slot, which is out with the seat.
pub(crate) fn take<V: Chronicle>(table: &LockTable<V>, seat: &mut LockSeat<V>) -> V
    requires seat { seat.old.table_id ≡ table.now.table_id }
    requires full { (x : V) × (seat.old.me.1 ≡ (VALUE, Some x) ∷ []) }
    ensures seat { seat.new.table_id ≡ seat.old.table_id }
    ensures value { seat.old.me.1 ≡ (VALUE, Some result) ∷ [] }
    ensures emptied { seat.new.me ≡ (seat.old.me.0, (VALUE, None) ∷ []) }
{
    let Some(value) = table.exchange(seat, VALUE, None) else {
        unreachable!()
    };
    value
}

/// Put: the value goes into the slot.
pub(crate) fn put<V: Chronicle>(table: &LockTable<V>, seat: &mut LockSeat<V>, value: V)
    requires seat { seat.old.table_id ≡ table.now.table_id }
    requires empty { seat.old.me.1 ≡ (VALUE, None) ∷ [] }
    ensures seat { seat.new.table_id ≡ seat.old.table_id }
    ensures filled { seat.new.me ≡ (seat.old.me.0, (VALUE, Some value) ∷ []) }
{
    let was = table.exchange(seat, VALUE, Some(value));
    let None = was else { unreachable!() };
}

/// Pass on: the seat's turn ends, and the value goes home, with an entry of the pass or as it was.
/// The answer is the ticket whose turn ended, modulo 2^64.
pub(crate) fn pass_on<V: Chronicle>(table: &LockTable<V>, seat: &mut LockSeat<V>) -> u64
    requires seat { SitsAt table.now.table_id seat.old.table_id }
    requires turn { MayEnd V.entries V.by seat.old.me }
    ensures seat { seat.new.table_id ≡ seat.old.table_id }
    ensures idle { Ends V.entries seat.old.me seat.new.me }
{
    table.fetch_add::<PassOn>(seat, TURNS, 1)
}

// The bell of a ticket, which is given modulo 2^64. Up to 16 that wait have one each.
pub(crate) fn bell_of(ticket: u64) -> usize
    ensures { (FIRST_BELL ≤ result) × (result < WORDS) }
{
    FIRST_BELL + (ticket % BELLS) as usize
}

/// Mark: the bell says that a pass sleeps on it, or is about to. The answer is the number that the
/// bell shows then, of which the system's call sees the low 32 bits.
pub(crate) fn mark<V: Chronicle>(table: &LockTable<V>, seat: &mut LockSeat<V>, bell: usize) -> u32
    requires seat { SitsAt table.now.table_id seat.old.table_id }
    requires bell { (FIRST_BELL ≤ bell) × (bell < WORDS) }
    ensures seat { seat.new.table_id ≡ seat.old.table_id }
    ensures same { seat.new.me ≡ seat.old.me }
{
    let was = table.fetch_or::<Ring>(seat, bell, MARK);
    ((was | MARK) % (1 << 32)) as u32
}

/// Ring: where the bell of this ticket is marked, its number rises, which takes the mark away, and
/// those who sleep on the bell wake. Of several that ring at once only one does so. Where more wait
/// than there are bells, one whose turn is far may wake too, and sleeps again.
pub(crate) fn ring<V: Chronicle>(table: &LockTable<V>, seat: &mut LockSeat<V>, ticket: u64)
    requires seat { SitsAt table.now.table_id seat.old.table_id }
    ensures seat { seat.new.table_id ≡ seat.old.table_id }
    ensures same { seat.new.me ≡ seat.old.me }
{
    let bell = bell_of(ticket);
    let marked = table.peek(bell);
    let rung = marked.wrapping_add(1);
    if marked % 2 == MARK && table.compare_exchange::<Ring>(seat, bell, marked, rung) == marked {
        table.wake_all(bell);
    }
}

/// Split: the seat that opens the lock makes the pass of this number, which is the next.
pub(crate) fn make_pass<V: Chronicle>(
    table: &LockTable<V>,
    opener: &mut LockSeat<V>,
    number: u32,
) -> Pass<V::Entry>
    requires seat { SitsAt table.now.table_id opener.old.table_id }
    requires next { opener.old.me ≡ (Opening number (V.entries table.now.key.value.value), []) }
    requires room { number < table.now.key.seats }
    ensures seat { opener.new.table_id ≡ opener.old.table_id }
    ensures next { opener.new.me ≡ (Opening (number + 1) (V.entries table.now.key.value.value), []) }
    ensures pass { result ≡ new_pass table.now.table_id (V.entries table.now.key.value.value) number }
{
    Pass::of(number, table.split_seat::<MakePass>(opener))
}

/// Join: the seat takes in a pass, with what it knows.
pub(crate) fn take_in<V: Chronicle>(
    table: &LockTable<V>,
    closer: &mut LockSeat<V>,
    mut pass: Pass<V::Entry>,
)
    requires seat { SitsAt table.now.table_id closer.old.table_id }
    requires closer { CanTakeIn closer.old.me.0 }
    requires ready { IsReady table.now.table_id pass }
    ensures seat { closer.new.table_id ≡ closer.old.table_id }
    ensures joined { closer.new.me.0 ≡ Closing (knowledge_of pass ∷ accounts_of closer.old.me.0) }
{
    table.join_seat::<TakeIn>(closer, pass.lend());
}
