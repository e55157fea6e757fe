//! What a database has of the table of marks, before anything is written.
ghost use Rattle.std.specs.Prelude.{◌≡◌, ◌↔◌, ◌∷◌, [], IsTrue};
ghost use Rattle.marks_sqlite.specs.Finding.{HasNone, HasTable, IsFound};
ghost use Rattle.history_sqlite.specs.Finding.{IsMadeAs};
ghost use Rattle.marks_sqlite.specs.Tables.{reported_table};

use history_sqlite::finding::{are_columns, has_no_rules, table_of, wanted};
use sqlite_items::Items;
use sqlite_schema::schema::{Kind, Schema, Table};

/// What a database has of the table of marks.
#[derive(Clone, Copy, Debug, PartialEq, Eq)]
pub enum Found {
    /// No table of its name.
    Empty,
    /// The table, as this crate makes it.
    Ours,
    /// A table of its name with other columns, keys or rules.
    Other,
}

/// What the database has of the table of marks.
pub fn find_table(schema: &Schema) -> Found
    ensures { IsFound schema.now result }
{
    if has_none(schema) {
        return Found::Empty;
    }
    if has_table(schema) {
        return Found::Ours;
    }
    Found::Other
}

fn has_none(schema: &Schema) -> bool
    ensures { IsTrue result ↔ HasNone schema.now }
{
    table_of(schema.tables.as_slice(), b"reported").is_none()
}

fn has_table(schema: &Schema) -> bool
    ensures { IsTrue result ↔ HasTable schema.now }
{
    match table_of(schema.tables.as_slice(), b"reported") {
        Some(table) => is_mark_table(table),
        None => false,
    }
}

fn is_mark_table(table: &Table) -> bool
    ensures { IsTrue result ↔ IsMadeAs reported_table table.now }
{
    are_columns(
        table.columns.as_slice(),
        &[
            wanted(b"place", Kind::Integer, false),
            wanted(b"entry", Kind::Integer, true),
        ],
    ) && table.key == Some(0)
        && is_lone_entry(&table.uniques)
        && has_no_rules(table)
}

// The entry alone is UNIQUE. A row is its rowid and then its columns, so the entry has place 2.
fn is_lone_entry(uniques: &Items<Items<usize>>) -> bool
    ensures { IsTrue result ↔ (uniques.now ≡ (2 ∷ []) ∷ []) }
{
    match uniques.as_slice() {
        [places] => matches!(places.as_slice(), [2]),
        _ => false,
    }
}
