//! The scripts of a generated site.
ghost use Rattle.std.specs.Prelude.{◌≡◌, ◌≤◌, ◌<◌, ◌++◌, IfOk, OnOk, filter, map, if◌then◌else◌, []};
ghost use Rattle.std.specs.List.{flat_map, range_with_len};
ghost use Rattle.site_making.specs.Made.{is_board_of, made_items, made_request, made_script};

use crate::sheets::made_port;
use crate::words::{new_version, numbered_name};
use client_scripts::Item;
use device_list::Selector;
use fw_base::{Listed, NoMemory};
use std::alloc::Global;
use update_log::{InstallFlags, Query, Request};

/// The script of each client, client 1 first.
pub(crate) fn made_scripts(
    alloc: Global,
    boards: u32,
    clients: u32,
) -> Result<Listed<Listed<Item>>, NoMemory>
    requires few { boards ≤ 256 }
    requires some_clients { 1 ≤ clients }
    requires few_clients { clients ≤ 16 }
    ensures { IfOk result (λ scripts. scripts ≡ map (made_script boards clients) (range_with_len 1 clients)) }
{
    let mut scripts = Vec::new(alloc);
    for client in 1..clients + 1 {
        scripts.push(made_script(alloc, boards, clients, client)?)?;
    }
    Ok(Listed::of(scripts))
}

/// What a client does.
fn made_script(
    alloc: Global,
    boards: u32,
    clients: u32,
    client: u32,
) -> Result<Listed<Item>, NoMemory>
    requires few { boards ≤ 256 }
    requires some_clients { 1 ≤ clients }
    ensures { IfOk result (λ script. script ≡ made_script boards clients client) }
{
    let mut script = Vec::new(alloc);
    for board in 1..boards + 1 {
        push_items_of(alloc, &mut script, clients, client, board)?;
    }
    Ok(Listed::of(script))
}

/// Puts what is done for a board behind the script, where the board is this client's.
fn push_items_of(
    alloc: Global,
    script: &mut Vec<Item>,
    clients: u32,
    client: u32,
    board: u32,
) -> Result<(), NoMemory>
    requires few { board ≤ 256 }
    requires some_clients { 1 ≤ clients }
    ensures { OnOk result (script.new.items ≡ script.old.items ++ (if is_board_of clients client board then made_items board else [])) }
{
    if board % clients == client % clients {
        push_items(alloc, script, board)
    } else {
        Ok(())
    }
}

/// Puts what is done for a board behind the script.
fn push_items(alloc: Global, script: &mut Vec<Item>, board: u32) -> Result<(), NoMemory>
    requires { board ≤ 256 }
    ensures { OnOk result (script.new.items ≡ script.old.items ++ made_items board) }
{
    let request = made_request(alloc, board)?;
    // The checker of borrows wants the types of an item's parts among the locals.
    let _retry_of = request.retry_of;
    let device = request.device;
    let results = Query::Results(device);
    script.push(install(&request))?;
    script.push(install(&request))?;
    script.push(Item::Ask(results))?;
    Ok(())
}

fn install(request: &Request) -> Item
    ensures { result ≡ Item.Install request.now }
{
    Item::Install(*request)
}

fn made_request(alloc: Global, board: u32) -> Result<Request, NoMemory>
    requires { board ≤ 256 }
    ensures { IfOk result (λ request. request ≡ made_request board) }
{
    Ok(Request {
        tag: numbered_name(alloc, b't', board)?,
        device: Selector::Port(made_port(alloc, board)?),
        version: new_version(),
        flags: InstallFlags {
            offline: false,
            allow_reinstall: false,
            allow_older: false,
        },
        retry_of: None,
    })
}
