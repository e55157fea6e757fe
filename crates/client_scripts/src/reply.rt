//! Replies.
ghost use Rattle.std.specs.Prelude.{◌≡◌, ◌++◌, OnOk, OnErr};
ghost use Rattle.client_scripts.specs.Replies.{reply};

use crate::devices::put_devices;
use crate::named::device_named;
use crate::releases::{put_releases, put_upgrades};
use crate::rows::{put_history, put_results, put_settle};
use core_state::CoreState;
use fw_base::NoMemory;
use update_log::{Facts, Query};

/// Puts what a client is told behind a text: the lines of the reply to its question, over the rows and
/// devices of a state. The facts are those that the state was made with. Where memory is wanting, the
/// text stays as it was.
pub fn write_reply(
    facts: &Facts,
    state: &CoreState,
    query: &Query,
    out: &mut Vec<u8>,
) -> Result<(), NoMemory>
    ensures written { OnOk result (out.new.items ≡ out.old.items ++ reply facts.now state.now.views state.now.rows query.now) }
    ensures stays { OnErr result (out.new.items ≡ out.old.items) }
{
    let mut text = Vec::new(*out.allocator());
    put_reply(&mut text, facts, state, query)?;
    out.extend_from_slice(&text)?;
    Ok(())
}

// The lines of a reply, behind the bytes of a text.
pub(crate) fn put_reply(
    out: &mut Vec<u8>,
    facts: &Facts,
    state: &CoreState,
    query: &Query,
) -> Result<(), NoMemory>
    ensures { OnOk result (out.new.items ≡ out.old.items ++ reply facts.now state.now.views state.now.rows query.now) }
{
    let (views, rows) = (state.views(), state.rows());
    match query {
        Query::Devices => Ok(put_devices(out, &facts.machine, rows, views)?),
        Query::Releases(device) => put_releases(out, facts, device_named(views, device)),
        Query::Upgrades(device) => put_upgrades(out, facts, device_named(views, device)),
        Query::History => Ok(put_history(out, views, rows)?),
        Query::Results(device) => Ok(put_results(out, views, rows, device_named(views, device))?),
        Query::Settle(device) => Ok(put_settle(out, state, device_named(views, device))?),
    }
}
