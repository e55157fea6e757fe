//! Laws of the table. Each is the contract of a function that changes nothing.
ghost use Rattle.std.specs.Prelude.{◌≡◌, IfSome, Ok, Some};
ghost use Rattle.fw_base.specs.Names.{name_read};
ghost use Rattle.history_sqlite.specs.Columns.{columns_of, row_read};

use fw_base::Name;
use history_keeper::Row;

/// A row is read back from the columns that it is written to.
pub fn row_is_read_back(row: Row)
    ensures { row_read (columns_of row) ≡ Some row }
{
    row.tag.reads_back();
    row.component.reads_back();
    row.version_old.reads_back();
    row.version_new.reads_back();
    protocol_reads_back(&row.protocol);
}

fn protocol_reads_back(protocol: &Option<Name>)
    ensures { IfSome protocol.now (λ name. name_read name ≡ Ok name) }
{
    match protocol {
        Some(name) => name.reads_back(),
        None => {}
    }
}
