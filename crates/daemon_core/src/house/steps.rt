//! The steps of a live entry.
ghost use Rattle.std.specs.Prelude.{◌≡◌, ◌≤◌, ◌<◌, ◌+◌, ◌∷◌, ℕ, true, false, List, length, drop, slice_set};
ghost use Rattle.emulated_boards.specs.declared.mark.Mark.{Mark};
ghost use Rattle.update_log.specs.declared.event.Back.{Back};
ghost use Rattle.emulated_boards.specs.Conditions.{view_of};
ghost use Rattle.daemon_core.specs.Returns.{ComesHome, SameBoards, StepEnds, new_marks, number_of, place_at, places_with};
ghost use Rattle.update_log.specs.declared.event.Event.{Event};
ghost use Rattle.update_log.specs.declared.live.LiveEntry.{LiveEntry};
ghost use Rattle.update_log.specs.Legal.{StartAllowed};
ghost use Rattle.update_log.specs.Pasts.{boots, off};

use super::House;
use crate::off::Off;
use crate::place::BoardPlace;
use block_pool::Payload;
use emulated_boards::{Board, BoardFault, Mark};
use history_keeper::Keeper;
use update_log::{Back, Event, Op, Told};

impl<K: Keeper> House<K> {
    ghost use Rattle.daemon_core.specs.HouseLog.{Appended, IsHouseLog, Runs};
    ghost use Rattle.daemon_core.specs.Goes.{GoesOn, TurnedOrOff};
    ghost use Rattle.daemon_core.specs.House.{SameElsewhere};
    ghost use Rattle.daemon_core.specs.Housed.{basis_in, past};
    ghost use Rattle.daemon_core.specs.Owed.{owed};

    // Enters a turn of a client for which room was kept. Where the boot's limit is reached, its power is
    // cut instead.
    pub(crate) fn go_on(&mut self, client: u32) -> Result<(), Off>
        requires booted { 0 < boots (past self.old) }
        requires spared { off (past self.old) ≡ false → owed (Event.Cut ∷ past self.old) + 1 ≤ owed (past self.old) }
        ensures gone { GoesOn client result self.old.house_log self.new.house_log }
        ensures was { IsHouseLog self.old.house_log }
        ensures known { IsHouseLog self.new.house_log }
        ensures elsewhere { SameElsewhere self.old self.new }
    {
        self.house_log.go_on(client)
    }

    /// Starts the next step of a live entry. The entry is the client's, none of its steps is open, and
    /// this is the next one. It takes no memory.
    pub fn start(&mut self, client: u32, entry: u32, op: Op) -> Result<(), Off>
        requires booted { 0 < boots (past self.old) }
        requires next { (l : LiveEntry) × StartAllowed (basis_in self.old.house_log) (past self.old) client entry op l }
        ensures turn { TurnedOrOff client (λ _. Event.Start client entry op) result self.old.house_log self.new.house_log }
        ensures elsewhere { SameElsewhere self.old self.new }
    {
        self.go_on(client)?;
        self.begin(client, entry, op);
        Ok(())
    }

    // Puts the start behind the log.
    fn begin(&mut self, client: u32, entry: u32, op: Op)
        requires loaded { self.old.house_log.loaded ≡ true }
        requires runs { Runs self.old.house_log }
        requires booted { 0 < boots (past self.old) }
        requires next { (l : LiveEntry) × StartAllowed (basis_in self.old.house_log) (past self.old) client entry op l }
        ensures appended { Appended client (Event.Start client entry op) self.old.house_log self.new.house_log }
        ensures elsewhere { SameElsewhere self.old self.new }
    {
        self.house_log.known();
        self.house_log
            .note(client, Event::Start { client, entry, op });
    }

    /// Ends the open step of a live entry, with its answer. The event shows what the board shows, and tells
    /// the marks of its journal that weren't told yet. All boards at home stay. It takes no memory.
    pub fn end(
        &mut self,
        client: u32,
        entry: u32,
        op: Op,
        outcome: Result<(), BoardFault>,
        board: &Board,
    ) -> Result<(), Off>
        requires booted { 0 < boots (past self.old) }
        requires ends { (number : ℕ) × StepEnds (basis_in self.old.house_log) self.old.house_log.first (past self.old) client entry op outcome number board.now }
        ensures turn { TurnedOrOff client (λ _. Event.End client entry op outcome (new_marks (basis_in self.old.house_log) (past self.old) entry board.now.journal) (view_of board.now.condition)) result self.old.house_log self.new.house_log }
        ensures places { SameBoards self.old.places self.new.places }
        ensures pool { self.new.pool ≡ self.old.pool }
        ensures keeper { self.new.keeper ≡ self.old.keeper }
    {
        self.house_log.known();
        self.go_on(client)?;
        self.finish_step(client, entry, op, outcome, board);
        Ok(())
    }

    // Puts the end of a step behind the log.
    fn finish_step(
        &mut self,
        client: u32,
        entry: u32,
        op: Op,
        outcome: Result<(), BoardFault>,
        board: &Board,
    )
        requires loaded { self.old.house_log.loaded ≡ true }
        requires runs { Runs self.old.house_log }
        requires booted { 0 < boots (past self.old) }
        requires ends { (number : ℕ) × StepEnds (basis_in self.old.house_log) self.old.house_log.first (past self.old) client entry op outcome number board.now }
        ensures appended { Appended client (Event.End client entry op outcome (new_marks (basis_in self.old.house_log) (past self.old) entry board.now.journal) (view_of board.now.condition)) self.old.house_log self.new.house_log }
        ensures places { SameBoards self.old.places self.new.places }
        ensures pool { self.new.pool ≡ self.old.pool }
        ensures keeper { self.new.keeper ≡ self.old.keeper }
    {
        self.house_log.known();
        let number = self.house_log.board_of(entry).unwrap_or(0) as usize;
        let told = tell(&mut self.places, number, board.marks());
        let seen = board.view();
        self.house_log.note(
            client,
            Event::End {
                client,
                entry,
                op,
                outcome,
                told,
                seen,
            },
        );
    }

    /// Gives a live entry back, in a boot that is off: its board comes home, and its blocks go to the pool.
    /// It takes no memory.
    pub fn give_back(&mut self, client: u32, entry: u32, board: Board, payload: Payload)
        requires booted { 0 < boots (past self.old) }
        requires off { off (past self.old) ≡ true }
        requires comes { (number : ℕ) × (l : LiveEntry) × (tail : List Mark) × ComesHome (basis_in self.old.house_log) self.old.house_log.first (past self.old) client entry number l tail board payload.count }
        ensures appended { Appended client (Event.GiveBack client (Back.Entry entry)) self.old.house_log self.new.house_log }
        ensures places { self.new.places ≡ places_with self.old.places (number_of (basis_in self.old.house_log) (past self.old) entry) board }
        ensures pool { self.new.pool.free ≡ self.old.pool.free + payload.count }
        ensures keeper { self.new.keeper ≡ self.old.keeper }
    {
        self.house_log.known();
        let number = self.house_log.board_of(entry).unwrap_or(0) as usize;
        put(&mut self.places, number, board);
        self.pool.give(payload.into_blocks());
        self.house_log.note(
            client,
            Event::GiveBack {
                client,
                what: Back::Entry(entry),
            },
        );
    }
}

// A board comes home.
pub(crate) fn put(places: &mut Vec<BoardPlace>, number: usize, board: Board)
    requires { number < length places.old.items }
    ensures { places.new.items ≡ places_with places.old.items number board }
{
    places[number].board = Some(board);
}

// The marks behind those that were told of a board, which are told now.
fn tell(places: &mut Vec<BoardPlace>, number: usize, marks: &[Mark]) -> Told
    requires within { number < length places.old.items }
    requires behind { (place_at places.old.items number).told ≤ length marks.now }
    requires few { length (drop (place_at places.old.items number).told marks.now) ≤ 2 }
    ensures told { result ≡ drop (place_at places.old.items number).told marks.now }
    ensures places { places.new.items ≡ slice_set places.old.items number (record (place_at places.old.items number) { told = length marks.now }) }
{
    let told = told_of(&marks[places[number].told..]);
    places[number].told = marks.len();
    told
}

// At most two marks, as an event tells them.
fn told_of(marks: &[Mark]) -> Told
    requires { length marks.now ≤ 2 }
    ensures { result ≡ marks.now }
{
    match marks {
        [] => Told::none(),
        [one] => Told::one(*one),
        [one, two, ..] => Told::two(*one, *two),
    }
}
