//! The help that a terminal is shown.
use fw_base::Name;
use release_catalogue::{Place, Reason};
use run_status::{Help, Status, help_for};
use std::alloc::Global;
use std::test::Fail;

/// How the line of each command begins, behind the line before.
const COMMANDS: [&str; 5] = [
    "\n  run ",
    "\n  check ",
    "\n  explain ",
    "\n  ids ",
    "\n  make ",
];

#[test]
fn commands_have_their_lines(rt: HostRuntime) -> Result<(), Fail> {
    let help = Help::Commands.to_string(rt.alloc())?;
    for line in &COMMANDS {
        assert!(rt; help.as_str().contains(*line), "{line}");
    }
    Ok(())
}

#[test]
fn statuses_have_their_help(rt: HostRuntime) {
    assert_eq!(rt; help_for(&Status::Usage), Some(Help::Commands));
    assert_eq!(rt; help_for(&Status::KeeperFault), None);
}

/// A document whose machine has no pool.
fn without_pool() -> Result<Status, Fail> {
    let section = Name::read(b"machine")?;
    let field = Name::read(b"pool")?;
    let place = Place {
        section,
        index: [0, 0, 0],
        field,
    };
    let reason = Reason::Missing;
    Ok(Status::Document { place, reason })
}

/// The help for it.
fn help_without_pool(alloc: Global) -> Result<String, Fail> {
    let status = without_pool()?;
    let help = help_for(&status).ok_or("no help")?;
    Ok(help.to_string(alloc)?)
}

#[test]
fn faults_have_their_meaning(rt: HostRuntime) -> Result<(), Fail> {
    assert_eq!(rt;
        help_without_pool(rt.alloc())?.as_str(),
        "  this field is needed, and isn't there; look under \"The document\" in fwupdemu-document(5) or docs/FORMATS.md"
    );
    Ok(())
}
