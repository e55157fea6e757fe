//! A device that leaves its port in the midst of an update.
use crate::days::FIRST;
use crate::driver::{Day, Deed, play};
use crate::left::Left;
use crate::requests::{device, request};
use crate::scenes::{Kind, PLAIN, Scene};
use crate::told::{Told, kept, told_in};
use emulated_boards::BoardFault;
use fw_facts::{DeviceFlag, Mode, Seen};
use history_keeper::RowState;
use std::alloc::Global;
use std::test::Fail;
use update_log::{Event, PlugAnswer, Query, Stored};

const OLD: Seen = Seen::Home {
    raw: 0x0100_0000,
    mode: Mode::Runtime,
};

/// The first board shows a stranger after its first call, and its updates go by the bootloader.
const STRANGER: Scene = Scene {
    kind: Kind::Loader,
    flag: Some(DeviceFlag::NeedsBootloader),
    fault: Some(BoardFault::Stranger),
    ..PLAIN
};

/// What a settle or a plug of the client did.
#[derive(Clone, Copy, Debug, PartialEq, Eq)]
enum Care {
    /// There was none to judge.
    Nothing,
    Judged {
        entry: u32,
        state: RowState,
        stored: Stored,
    },
    Plugged(PlugAnswer),
}

fn care_of(event: &Event) -> Option<Care> {
    match event {
        Event::Query {
            client: 1,
            query: Query::Settle(_),
        } => Some(Care::Nothing),
        Event::Judge {
            client: 1,
            entry,
            version: _,
            state,
            stored,
        } => Some(Care::Judged {
            entry: *entry,
            state: *state,
            stored: *stored,
        }),
        Event::Plug {
            client: 1,
            device: _,
            answer,
        } => Some(Care::Plugged(*answer)),
        _ => None,
    }
}

fn cares(alloc: Global, log: &[Event]) -> Result<Vec<Care>, Fail> {
    let mut cares = Vec::new(alloc);
    for event in log {
        if let Some(care) = care_of(event) {
            cares.push(care)?;
        }
    }
    Ok(cares)
}

/// The device is judged by the settle that follows the plug, and by none before or after it.
const SETTLED_ONCE: [Care; 4] = [
    Care::Nothing,
    Care::Plugged(PlugAnswer::Done { seen: OLD }),
    Care::Judged {
        entry: 1,
        state: RowState::Failed,
        stored: Stored::Yes,
    },
    Care::Nothing,
];

const BEGUN: Told = Told::Finished {
    entry: 1,
    state: RowState::Begun,
    stored: Stored::Unchanged,
};

const UNWRITTEN: Left = Left {
    rows: 1,
    last: Some((RowState::Failed, 0)),
    seen: [OLD, OLD],
    began: 0,
    ended: 0,
};

/// A stranger stands in the port after the detach: nothing is written, and the row stays begun until the device is
/// back and is settled.
#[test]
fn a_stranger_after_detach_with_a_plug_and_a_settle(rt: HostRuntime) -> Result<(), Fail> {
    let alloc = rt.alloc();
    let install = Deed::Install(request("t1", "usb1")?);
    let settle = Deed::Settle(device("usb1")?);
    let plug = Deed::Plug(device("usb1")?);
    let deeds = [install, settle, plug, settle, settle, install];
    let days: [Day; 1] = [(FIRST, &deeds)];
    let (log, left) = play(&rt, alloc, &STRANGER, Vec::new(alloc), &[], &days)?;
    let log = log.items();
    assert!(rt; cares(alloc, log)?.as_slice() == SETTLED_ONCE.as_slice());
    assert_eq!(rt; told_in(log, 1, 0), BEGUN);
    assert_eq!(rt; told_in(log, 1, 1), kept(1, RowState::Failed));
    assert_eq!(rt; left, UNWRITTEN);
    Ok(())
}
