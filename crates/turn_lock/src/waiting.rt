//! How a pass waits for its turn, and how it is woken in time.
ghost use Rattle.std.specs.Prelude.{◌≡◌};
ghost use Rattle.turn_lock.specs.Views.{own_of};
ghost use Rattle.turn_lock.specs.Steps.{IsLaid, SitsAt, HasTicket, HasTurn, Finds};

use crate::chronicle::Chronicle;
use crate::steps::{Found, LockSeat, LockTable, TURNS, bell_of, look, mark, ring};
use std::hint::spin_loop;
use std::sync::Wait;
use std::thread::yield_now;

// At most so many of those in line are awake, with the one that has the turn.
const MOST_AWAKE: u32 = 4;

// Whose turn is near looks so often at the turns, and after each of so many rounds it lets another
// thread run: in all about as long as it takes to fall asleep and to wake up again.
const LOOKS: u32 = 19;

const ROUNDS: u32 = 53;

/// How many of those who wait are awake beside the one that has the turn.
pub(crate) fn awake_beside(processors: u32) -> u32 {
    processors.min(MOST_AWAKE).saturating_sub(1)
}

// Whether at most so many turns are left before the one of this ticket.
fn is_near<V: Chronicle>(table: &LockTable<V>, ticket: u64, ahead: u32) -> bool
    requires { IsLaid table.now.table_id }
{
    ticket.wrapping_sub(table.peek(TURNS)) <= u64::from(ahead)
}

// Looks again and again, for one round.
fn look_often<V: Chronicle>(table: &LockTable<V>, seat: &mut LockSeat<V>, ticket: u64) -> Found
    requires seat { SitsAt table.now.table_id seat.old.table_id }
    requires ticket { HasTicket ticket (own_of seat.old.me.0) seat.old.me }
    ensures seat { seat.new.table_id ≡ seat.old.table_id }
    ensures found { Finds V.entries V.by seat.old.me result seat.new.me }
{
    for _ in 0..LOOKS {
        match look(table, seat, ticket) {
            Found::OwnTurn => return Found::OwnTurn,
            Found::OtherTurn => spin_loop(),
        }
    }
    Found::OtherTurn
}

/// Looks for a while, if the seat's turn is near.
fn watch<V: Chronicle>(
    table: &LockTable<V>,
    seat: &mut LockSeat<V>,
    ticket: u64,
    ahead: u32,
) -> Found
    requires seat { SitsAt table.now.table_id seat.old.table_id }
    requires ticket { HasTicket ticket (own_of seat.old.me.0) seat.old.me }
    ensures seat { seat.new.table_id ≡ seat.old.table_id }
    ensures found { Finds V.entries V.by seat.old.me result seat.new.me }
{
    if !is_near(table, ticket, ahead) {
        return Found::OtherTurn;
    }
    for _ in 0..ROUNDS {
        match look_often(table, seat, ticket) {
            Found::OwnTurn => return Found::OwnTurn,
            Found::OtherTurn => yield_now(),
        }
    }
    Found::OtherTurn
}

/// Waits until the seat's turn has come: watches, and sleeps where that was in vain.
/// No wake is lost: the bell is marked before the turns are looked at, and a turn ends before the
/// next ticket's bell is looked at. So where a look came too early its mark is seen, and the bell
/// rings. To park on the marked number is to go on at once where the bell has rung since.
pub(crate) fn wait_for<V: Chronicle, R: Wait>(
    rt: &R,
    table: &LockTable<V>,
    seat: &mut LockSeat<V>,
    ticket: u64,
    ahead: u32,
)
    requires seat { SitsAt table.now.table_id seat.old.table_id }
    requires ticket { HasTicket ticket (own_of seat.old.me.0) seat.old.me }
    ensures seat { seat.new.table_id ≡ seat.old.table_id }
    ensures turn { (x : V) × HasTurn V.entries V.by (own_of seat.old.me.0) x seat.new.me }
{
    let bell = bell_of(ticket);
    for _ in rt.forever() {
        match watch(table, seat, ticket, ahead) {
            Found::OwnTurn => return,
            Found::OtherTurn => {}
        }
        let marked = mark(table, seat, bell);
        match look(table, seat, ticket) {
            Found::OwnTurn => return,
            Found::OtherTurn => table.park(rt, bell, marked),
        }
    }
    unreachable!()
}

/// Wakes the pass of the next ticket where it sleeps, and those of the next few behind it, which
/// watch until their turns come. A ticket that isn't drawn has an unmarked bell: whoever draws it
/// looks at the turns later.
pub(crate) fn call_next<V: Chronicle>(
    table: &LockTable<V>,
    seat: &mut LockSeat<V>,
    ended: u64,
    ahead: u32,
)
    requires seat { SitsAt table.now.table_id seat.old.table_id }
    ensures seat { seat.new.table_id ≡ seat.old.table_id }
    ensures same { seat.new.me ≡ seat.old.me }
{
    let next = ended.wrapping_add(1);
    ring(table, seat, next);
    for behind in 0..ahead {
        ring(table, seat, next.wrapping_add(1 + u64::from(behind)));
    }
}
