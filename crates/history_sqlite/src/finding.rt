//! What a database has of the history's tables, before anything is written.
ghost use Rattle.std.specs.Prelude.{◌≡◌, ◌↔◌, ◌⊎◌, ◌∷◌, [], map, find, false, IsTrue, IfOk, IfErr, IsErr, Some};
ghost use Rattle.std.specs.Option.{option_copied};
ghost use Rattle.sqlite.specs.Held.{state};
ghost use Rattle.sqlite.specs.State.{HasCleanDisk};
ghost use Rattle.history_sqlite.specs.Finding.{column_of, table_with, number_shown, HasNone, HasBoth, HasOlder, IsMadeAs, IsFound, IsMisnumbered, IsNumberless, ShowsNumber};
ghost use Rattle.history_sqlite.specs.Tables.{schema_table, history_table, older_table, KeepsAny};

use crate::columns::integer_at;
use crate::refusal::refusal_of_error;
use history_keeper::KeeperRefusal;
use sqlite::types::Value;
use sqlite::{Alter, Connection};
use sqlite_items::Items;
use sqlite_schema::schema::{Column, Kind, Schema, Table};
use sqlite_value::keys::Collation;

/// The number of the schema that this crate writes and reads.
pub const SCHEMA_NUMBER: u64 = 2;

/// The number of the schema whose rows are taken over.
pub const OLDER_NUMBER: u64 = 1;

/// What a database has of the history's tables.
#[derive(Clone, Copy, Debug, PartialEq, Eq)]
pub enum Found {
    /// None of them.
    Empty,
    /// Those of the number and of the rows, as this crate makes them, with the number of its schema.
    Ours,
    /// Those of schema 1, with its number. Nothing was taken over from them.
    Older,
    /// Some of them, other columns, keys or rules, or another number.
    Other,
}

/// A column as it is made: its name, its type, and whether it is NOT NULL.
#[derive(Clone, Copy)]
pub struct WantedColumn {
    pub name: &'static [u8],
    pub kind: Kind,
    pub is_required: bool,
}

/// What the database has of the history's tables. Nothing is written. The rows are left, and an empty
/// database is left as it is.
pub fn find_tables<D: Alter>(connection: &mut Connection<D>) -> Result<Found, KeeperRefusal>
    ensures found { HasCleanDisk (state D.Store connection.new) → IfOk result (IsFound (state D.Store connection.old) (state D.Store connection.new)) }
    ensures keeps { HasCleanDisk (state D.Store connection.new) → IsTrue (state D.Store connection.new).is_open → KeepsAny (state D.Store connection.old) (state D.Store connection.new) }
    ensures empty { result ≡ Ok Found.Empty → connection.new ≡ connection.old }
    ensures asked { IsErr result → HasBoth connection.old.schema ⊎ HasOlder connection.old.schema }
    ensures cause { HasCleanDisk (state D.Store connection.new) → IfErr result (λ why. IsNumberless why (state D.Store connection.old) (state D.Store connection.new)) }
    ensures mode { connection.old.in_transaction ≡ false → connection.new.in_transaction ≡ false }
    ensures clean { HasCleanDisk (state D.Store connection.new) → HasCleanDisk (state D.Store connection.old) }
{
    if has_none(connection.schema()) {
        return Ok(Found::Empty);
    }
    if has_both(connection.schema()) {
        return find_by_number(connection, SCHEMA_NUMBER, Found::Ours);
    }
    if has_older(connection.schema()) {
        return find_by_number(connection, OLDER_NUMBER, Found::Older);
    }
    Ok(Found::Other)
}

// What is wanted, where the schema has the number that is wanted.
fn find_by_number<D: Alter>(
    connection: &mut Connection<D>,
    number: u64,
    wanted: Found,
) -> Result<Found, KeeperRefusal>
    ensures found { HasCleanDisk (state D.Store connection.new) → IfOk result (λ found. ((found ≡ wanted) × ShowsNumber (state D.Store connection.old) (state D.Store connection.new) (Some number)) ⊎ ((found ≡ Found.Other) × IsMisnumbered (state D.Store connection.old) (state D.Store connection.new) number)) }
    ensures either { IfOk result (λ found. (found ≡ wanted) ⊎ (found ≡ Found.Other)) }
    ensures keeps { HasCleanDisk (state D.Store connection.new) → IsTrue (state D.Store connection.new).is_open → KeepsAny (state D.Store connection.old) (state D.Store connection.new) }
    ensures cause { HasCleanDisk (state D.Store connection.new) → IfErr result (λ why. IsNumberless why (state D.Store connection.old) (state D.Store connection.new)) }
    ensures mode { connection.old.in_transaction ≡ false → connection.new.in_transaction ≡ false }
    ensures clean { HasCleanDisk (state D.Store connection.new) → HasCleanDisk (state D.Store connection.old) }
{
    match read_number(connection)? {
        Some(shown) if shown == number => Ok(wanted),
        _ => Ok(Found::Other),
    }
}

// The number of the schema. There is none where the table has no row, more than one, or no integer.
fn read_number<D: Alter>(connection: &mut Connection<D>) -> Result<Option<u64>, KeeperRefusal>
    ensures shown { HasCleanDisk (state D.Store connection.new) → IfOk result (ShowsNumber (state D.Store connection.old) (state D.Store connection.new)) }
    ensures keeps { HasCleanDisk (state D.Store connection.new) → IsTrue (state D.Store connection.new).is_open → KeepsAny (state D.Store connection.old) (state D.Store connection.new) }
    ensures cause { HasCleanDisk (state D.Store connection.new) → IfErr result (λ why. IsNumberless why (state D.Store connection.old) (state D.Store connection.new)) }
    ensures mode { connection.old.in_transaction ≡ false → connection.new.in_transaction ≡ false }
    ensures clean { HasCleanDisk (state D.Store connection.new) → HasCleanDisk (state D.Store connection.old) }
{
    match connection.query_all("SELECT number FROM schema", &[]) {
        Ok(rows) => Ok(number_of_rows(&rows)),
        Err(error) => Err(refusal_of_error(error)),
    }
}

fn number_of_rows(rows: &[sqlite::Row]) -> Option<u64>
    ensures { result ≡ number_shown rows.now }
{
    match rows {
        [row] => integer_at(row, 0),
        _ => None,
    }
}

fn has_none(schema: &Schema) -> bool
    ensures { IsTrue result ↔ HasNone schema.now }
{
    let tables = schema.tables.as_slice();
    table_of(tables, b"schema").is_none()
        && table_of(tables, b"history2").is_none()
        && table_of(tables, b"history").is_none()
}

fn has_both(schema: &Schema) -> bool
    ensures { IsTrue result ↔ HasBoth schema.now }
{
    let tables = schema.tables.as_slice();
    match (table_of(tables, b"schema"), table_of(tables, b"history2")) {
        (Some(numbers), Some(rows)) => is_number_table(numbers) && is_row_table(rows),
        _ => false,
    }
}

fn has_older(schema: &Schema) -> bool
    ensures { IsTrue result ↔ HasOlder schema.now }
{
    let tables = schema.tables.as_slice();
    match (table_of(tables, b"schema"), table_of(tables, b"history")) {
        (Some(numbers), Some(rows)) => {
            is_number_table(numbers)
                && is_older_table(rows)
                && table_of(tables, b"history2").is_none()
        }
        _ => false,
    }
}

/// The table of that name, where the schema has one.
pub fn table_of<'a>(tables: &'a [Table], name: &[u8]) -> Option<&'a Table>
    ensures { option_copied result ≡ table_with name.now tables.now }
{
    tables.iter().find(|table| table.is_named(name))
}

fn is_number_table(table: &Table) -> bool
    ensures { IsTrue result ↔ IsMadeAs schema_table table.now }
{
    are_columns(
        table.columns.as_slice(),
        &[wanted(b"number", Kind::Integer, true)],
    ) && table.key.is_none()
        && table.uniques.is_empty()
        && has_no_rules(table)
}

fn is_row_table(table: &Table) -> bool
    ensures { IsTrue result ↔ IsMadeAs history_table table.now }
{
    are_columns(
        table.columns.as_slice(),
        &[
            wanted(b"entry", Kind::Integer, false),
            wanted(b"tag", Kind::Text, true),
            wanted(b"client", Kind::Integer, true),
            wanted(b"device", Kind::Blob, true),
            wanted(b"component", Kind::Text, true),
            wanted(b"version_old", Kind::Text, true),
            wanted(b"version_new", Kind::Text, true),
            wanted(b"digest", Kind::Blob, true),
            wanted(b"flags", Kind::Integer, true),
            wanted(b"state", Kind::Integer, true),
            wanted(b"reason", Kind::Integer, true),
            wanted(b"time_added", Kind::Integer, true),
            wanted(b"time_changed", Kind::Integer, true),
            wanted(b"duration", Kind::Integer, true),
            wanted(b"protocol", Kind::Text, false),
            wanted(b"retry_of", Kind::Integer, false),
        ],
    ) && table.key == Some(0)
        && is_lone_tag(&table.uniques)
        && has_no_rules(table)
}

fn is_older_table(table: &Table) -> bool
    ensures { IsTrue result ↔ IsMadeAs older_table table.now }
{
    are_columns(
        table.columns.as_slice(),
        &[
            wanted(b"entry", Kind::Integer, false),
            wanted(b"tag", Kind::Text, true),
            wanted(b"client", Kind::Integer, true),
            wanted(b"device", Kind::Blob, true),
            wanted(b"component", Kind::Text, true),
            wanted(b"version_old", Kind::Text, true),
            wanted(b"version_new", Kind::Text, true),
            wanted(b"digest", Kind::Blob, true),
            wanted(b"flags", Kind::Integer, true),
            wanted(b"state", Kind::Integer, true),
            wanted(b"reason", Kind::Integer, true),
            wanted(b"time_added", Kind::Integer, true),
            wanted(b"time_changed", Kind::Integer, true),
        ],
    ) && table.key == Some(0)
        && is_lone_tag(&table.uniques)
        && has_no_rules(table)
}

/// A column as it is made.
pub fn wanted(name: &'static [u8], kind: Kind, is_required: bool) -> WantedColumn
    ensures { result ≡ record { name = name.entry; kind = kind; is_required = is_required } }
{
    WantedColumn {
        name,
        kind,
        is_required,
    }
}

/// Whether these are the columns that are wanted, in their order: STRICT, with no default, compared byte by byte.
pub fn are_columns(columns: &[Column], wanted: &[WantedColumn]) -> bool
    ensures { IsTrue result ↔ (columns.now ≡ map column_of wanted.now) }
{
    match (columns, wanted) {
        ([], []) => true,
        ([column, columns @ ..], [first, wanted @ ..]) => {
            is_column(column, first) && are_columns(columns, wanted)
        }
        ([], [_, ..]) => false,
        ([_, ..], []) => false,
    }
}

fn is_column(column: &Column, wanted: &WantedColumn) -> bool
    ensures { IsTrue result ↔ (column.now ≡ column_of wanted.now) }
{
    column.name.as_slice() == wanted.name
        && column.kind == wanted.kind
        && column.is_strict
        && column.not_null == wanted.is_required
        && is_null(&column.default)
        && column.collation == Collation::Binary
}

fn is_null(value: &Value) -> bool
    ensures { IsTrue result ↔ (value.now ≡ Value.Null) }
{
    matches!(value, Value::Null)
}

// The tag alone is UNIQUE. A row is its rowid and then its columns, so the tag has place 2.
fn is_lone_tag(uniques: &Items<Items<usize>>) -> bool
    ensures { IsTrue result ↔ (uniques.now ≡ (2 ∷ []) ∷ []) }
{
    match uniques.as_slice() {
        [places] => matches!(places.as_slice(), [2]),
        _ => false,
    }
}

/// Whether no CHECK and no reference binds the table's rows.
pub fn has_no_rules(table: &Table) -> bool
    ensures { IsTrue result ↔ ((table.now.checks ≡ []) × (table.now.references ≡ [])) }
{
    table.checks.roots.is_empty() && table.references.is_empty()
}
