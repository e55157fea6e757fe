//! Histories of one row, which is of the board.
ghost use Rattle.std.specs.Prelude.{OnOk};
ghost use Rattle.history_keeper.specs.Histories.{IsHistory};

use fw_base::Name;
use guid_ids::device_id;
use history_keeper::{Row, RowState, first_faulty};
use std::alloc::Global;
use std::test::Fail;
use version_formats::Version;

/// The texts of the row.
#[derive(Clone, Copy)]
struct Texts {
    tag: Name,
    component: Name,
    version_old: Version,
    version_new: Version,
}

fn read_texts() -> Result<Texts, Fail> {
    Ok(Texts {
        tag: Name::read(b"before")?,
        component: Name::read(b"com.example.hub")?,
        version_old: Version::read(b"1.0.0")?,
        version_new: Version::read(b"1.1.0")?,
    })
}

/// The row of an install on the board, which came to that state.
pub(crate) fn row(state: RowState) -> Result<Row, Fail> {
    let texts = read_texts()?;
    Ok(Row {
        entry: 1,
        tag: texts.tag,
        client: 1,
        device: device_id(b"usb-1", None),
        component: texts.component,
        version_old: texts.version_old,
        version_new: texts.version_new,
        digest: [0; 32],
        flags: 0,
        state,
        reason: 0,
        time_added: 500,
        time_changed: 500,
        duration: 0,
        protocol: None,
        retry_of: None,
    })
}

/// Fails where the rows are no history.
pub(crate) fn told_valid(alloc: Global, rows: &[Row]) -> Result<(), Fail>
    ensures { OnOk result (IsHistory rows.now) }
{
    match first_faulty(alloc, rows)? {
        None => Ok(()),
        Some(_) => Ok(Err("the rows are no history")?),
    }
}
