//! The texts of all statuses.
use fw_base::{Listed, Name};
use plugin_order::OrderFault;
use release_catalogue::{Place, Reason};
use run_status::Status;
use std::alloc::Global;
use std::test::Fail;

fn name(bytes: &[u8]) -> Result<Name, Fail> {
    Ok(Name::read(bytes)?)
}

fn cycle(alloc: Global) -> Result<Status, Fail> {
    let capsule = name(b"capsule")?;
    let flash = name(b"flash")?;
    let names = Listed::of([capsule, flash].to_vec(alloc)?);
    Ok(Status::Plugins(OrderFault::Cycle { names }))
}

fn document() -> Result<Status, Fail> {
    let section = name(b"boards")?;
    let field = name(b"image")?;
    let place = Place {
        section,
        index: [1, 2, 0],
        field,
    };
    let reason = Reason::BadPattern { at: 7 };
    Ok(Status::Document { place, reason })
}

fn duplicate() -> Result<Status, Fail> {
    let name = name(b"flash")?;
    Ok(Status::Plugins(OrderFault::DuplicateName { name }))
}

/// Whether the status has that exit status and that text.
fn is_told(alloc: Global, status: &Status, code: u8, wanted: &str) -> Result<bool, Fail> {
    let text = status.to_string(alloc)?;
    Ok(status.exit_code() == code && text.as_str() == wanted)
}

#[test]
fn a_run_that_is_done(rt: HostRuntime) -> Result<(), Fail> {
    assert!(rt; is_told(rt.alloc(), &Status::Done, 0, "done")?);
    Ok(())
}

#[test]
fn words_that_are_no_command(rt: HostRuntime) -> Result<(), Fail> {
    assert!(rt; is_told(rt.alloc(), &Status::Usage, 2, "usage")?);
    Ok(())
}

#[test]
fn a_document_that_is_not_read(rt: HostRuntime) -> Result<(), Fail> {
    let alloc = rt.alloc();
    let long = "document is longer than 16777216 bytes";
    assert!(rt; is_told(alloc, &Status::SourceFault, 4, "reading failed")?);
    assert!(rt; is_told(alloc, &Status::TooLong, 3, long)?);
    Ok(())
}

#[test]
fn a_document_with_a_fault(rt: HostRuntime) -> Result<(), Fail> {
    let document = document()?;
    let wanted = "document: boards 1 2 0 image: bad-pattern 7";
    assert!(rt; is_told(rt.alloc(), &document, 3, wanted)?);
    Ok(())
}

#[test]
fn more_clients_than_shelves(rt: HostRuntime) -> Result<(), Fail> {
    let clients = Status::TooManyClients {
        asked: 17,
        shelves: 16,
    };
    assert!(rt; is_told(rt.alloc(), &clients, 3, "clients 17 shelves 16")?);
    Ok(())
}

#[test]
fn two_plugins_of_one_name(rt: HostRuntime) -> Result<(), Fail> {
    let duplicate = duplicate()?;
    assert!(rt; is_told(rt.alloc(), &duplicate, 8, "plugins: duplicate flash")?);
    Ok(())
}

#[test]
fn plugins_in_a_cycle(rt: HostRuntime) -> Result<(), Fail> {
    let cycle = cycle(rt.alloc())?;
    assert!(rt; is_told(rt.alloc(), &cycle, 8, "plugins: cycle capsule flash")?);
    Ok(())
}

#[test]
fn a_history_that_fails(rt: HostRuntime) -> Result<(), Fail> {
    let alloc = rt.alloc();
    let bad = Status::BadHistory { entry: 3 };
    assert!(rt; is_told(alloc, &bad, 9, "history row 3")?);
    assert!(rt; is_told(alloc, &Status::KeeperFault, 7, "history failed")?);
    Ok(())
}

#[test]
fn a_report_that_is_not_written(rt: HostRuntime) -> Result<(), Fail> {
    let alloc = rt.alloc();
    assert!(rt; is_told(alloc, &Status::SinkFault, 5, "writing failed")?);
    assert!(rt; is_told(alloc, &Status::NoMemory, 6, "no memory")?);
    Ok(())
}
