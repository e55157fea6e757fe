//! A connection to the tables, with the rows that it showed last.
ghost use Rattle.std.specs.Prelude.{◌≡◌, IsTrue, IfOk, IfErr, OnOk, OnErr};
ghost use Rattle.sqlite.specs.Held.{state};
ghost use Rattle.sqlite.specs.State.{HasCleanDisk};
ghost use Rattle.history_keeper.specs.Changes.{IsTimely};
ghost use Rattle.history_sqlite.specs.Causes.{AreAtHand, IsRead, FailsToLoad, FailsToMake};
ghost use Rattle.history_sqlite.specs.Tables.{Keeps, Loads, Makes};

use crate::statements::{load_rows, make};
use history_keeper::{Change, KeeperRefusal, Row};
use sqlite::{Alter, Connection};
use std::alloc::Global;
use std::marker::Model;

/// A connection whose rows, once they were read, are kept until somebody asks for them or a change is tried: an
/// opening reads them, since it refuses strange ones, and the first boot needn't read them again. Contracts see the
/// connection.
#[derive(Drop)]
pub struct RowTable<D: Alter> {
    connection: Connection<D>,
    at_hand: Option<Vec<Row>>,
}

impl<D: Alter> Model for RowTable<D> {
    ghost use Rattle.std.specs.Prelude.{IfSome};
    ghost use Rattle.sqlite.specs.Held.{Held, held_code, state};
    ghost use Rattle.history_sqlite.specs.Causes.{AreAtHand};

    ghost Value = { Held D };

    ghost coded = { held_code D.code };

    ghost view = { λ s. s.connection };

    ghost invariant = { λ s. IfSome s.at_hand (λ rows. AreAtHand (state D.Store s.connection) rows.items) };
}

impl<D: Alter> RowTable<D> {
    /// The table of a connection, of which no row is at hand.
    pub fn of(connection: Connection<D>) -> RowTable<D>
        ensures { result ≡ connection }
    {
        RowTable {
            connection,
            at_hand: None,
        }
    }

    /// The table of a connection whose rows were read.
    pub fn with_rows(connection: Connection<D>, rows: Vec<Row>) -> RowTable<D>
        requires { AreAtHand (state D.Store connection) rows.items }
        ensures { result ≡ connection }
    {
        RowTable {
            connection,
            at_hand: Some(rows),
        }
    }

    /// Gives the connection back.
    pub fn into_connection(self) -> Connection<D>
        ensures { result ≡ self }
    {
        let RowTable {
            connection,
            at_hand: _,
        } = self;
        connection
    }

    /// All rows, by their entries, as `load_rows` gives them. Those at hand are handed out.
    pub fn load(&mut self, alloc: Global) -> Result<Vec<Row>, KeeperRefusal>
        ensures loads { HasCleanDisk (state D.Store self.new) → IfOk result (λ loaded. Loads (state D.Store self.old) (state D.Store self.new) loaded.items) }
        ensures read { HasCleanDisk (state D.Store self.new) → IfOk result (λ loaded. IsRead (state D.Store self.old) (state D.Store self.new) loaded.items) }
        ensures refused { HasCleanDisk (state D.Store self.new) → IsTrue (state D.Store self.new).is_open → OnErr result (Keeps (state D.Store self.old) (state D.Store self.new)) }
        ensures cause { HasCleanDisk (state D.Store self.new) → IfErr result (λ why. FailsToLoad why (state D.Store self.old) (state D.Store self.new)) }
        ensures clean { HasCleanDisk (state D.Store self.new) → HasCleanDisk (state D.Store self.old) }
        ensures was_open { HasCleanDisk (state D.Store self.new) → IsTrue (state D.Store self.new).is_open → IsTrue (state D.Store self.old).is_open }
    {
        match self.at_hand.take() {
            Some(rows) => Ok(rows),
            None => load_rows(&mut self.connection, alloc),
        }
    }

    /// Keeps rows at hand that were just read.
    pub fn keep(&mut self, rows: Vec<Row>)
        requires { AreAtHand (state D.Store self.old) rows.items }
        ensures { self.new ≡ self.old }
    {
        self.at_hand = Some(rows);
    }

    /// Makes the change, as `make` does. No row stays at hand.
    pub fn make(&mut self, change: &Change) -> Result<(), KeeperRefusal>
        requires { IsTimely change.now }
        ensures makes { HasCleanDisk (state D.Store self.new) → OnOk result (Makes (state D.Store self.old) (state D.Store self.new) change.now) }
        ensures refused { HasCleanDisk (state D.Store self.new) → IsTrue (state D.Store self.new).is_open → OnErr result (Keeps (state D.Store self.old) (state D.Store self.new)) }
        ensures cause { HasCleanDisk (state D.Store self.new) → IfErr result (λ why. FailsToMake why change.now (state D.Store self.old) (state D.Store self.new)) }
        ensures clean { HasCleanDisk (state D.Store self.new) → HasCleanDisk (state D.Store self.old) }
        ensures was_open { HasCleanDisk (state D.Store self.new) → IsTrue (state D.Store self.new).is_open → IsTrue (state D.Store self.old).is_open }
    {
        self.at_hand = None;
        make(&mut self.connection, change)
    }
}
