//! What clients are told, over the state of a legal log.
use crate::differences::differs_at;
use crate::scenes::{Ask, Hub, device_in, hindered, no_hub, one_hub, query, request};
use client_scripts::write_reply;
use device_list::Selector;
use log_stories::Story;
use std::alloc::Global;
use std::test::Fail;
use update_log::FetchNote;

/// What a client asks of.
#[derive(Clone, Copy)]
enum Scene {
    /// A hub that an install brought to 1.1.0.
    Installed,
    /// The same, out of its port.
    Unplugged,
    /// A hub without a flag, a GUID, a release or a row.
    Bare,
    /// No board at all.
    Nothing,
    /// Two hubs that everything hinders.
    Hindered,
    /// A hub whose install was begun.
    Begun,
}

const REPLIES: [(Scene, Ask, &str); 31] = [
    (
        Scene::Installed,
        Ask::Devices,
        "  usb1 1.1.0 runtime flags updatable problems - guids 2082b5e0-7a64-478a-b1b2-e3404fab6dad name\n",
    ),
    (
        Scene::Installed,
        Ask::Releases("usb1"),
        "  com.example.hub 1.1.0 urgency unknown size 14 same\n  com.example.hub 1.0.0 urgency unknown size 14 older\n",
    ),
    (Scene::Installed, Ask::Upgrades("usb1"), "  none\n"),
    (
        Scene::Installed,
        Ask::History,
        "  1 t1 usb1 1.0.0 1.1.0 success 0 0 -\n",
    ),
    (
        Scene::Installed,
        Ask::Results("usb1"),
        "  1 t1 usb1 1.0.0 1.1.0 success 0 0 -\n",
    ),
    (Scene::Installed, Ask::Settle("usb1"), "  nothing\n"),
    (
        Scene::Installed,
        Ask::Releases("usb2"),
        "  refused 1 no-device\n",
    ),
    (
        Scene::Installed,
        Ask::Results("usb2"),
        "  refused 1 no-device\n",
    ),
    (
        Scene::Unplugged,
        Ask::Devices,
        "  usb1 gone flags updatable problems - guids - name\n",
    ),
    (
        Scene::Unplugged,
        Ask::Releases("usb1"),
        "  refused 1 no-device\n",
    ),
    (
        Scene::Unplugged,
        Ask::Upgrades("usb1"),
        "  refused 1 no-device\n",
    ),
    (
        Scene::Unplugged,
        Ask::Results("usb1"),
        "  1 t1 usb1 1.0.0 1.1.0 success 0 0 -\n",
    ),
    (
        Scene::Unplugged,
        Ask::Settle("usb1"),
        "  refused 1 no-device\n",
    ),
    (
        Scene::Bare,
        Ask::Devices,
        "  usb1 1.1.0 runtime flags - problems - guids - name\n",
    ),
    (Scene::Bare, Ask::Releases("usb1"), "  none\n"),
    (Scene::Bare, Ask::History, "  none\n"),
    (Scene::Bare, Ask::Results("usb1"), "  none\n"),
    (Scene::Nothing, Ask::Devices, ""),
    (Scene::Nothing, Ask::History, "  none\n"),
    (
        Scene::Nothing,
        Ask::Releases("usb1"),
        "  refused 1 no-device\n",
    ),
    (
        Scene::Nothing,
        Ask::Settle("usb1"),
        "  refused 1 no-device\n",
    ),
    (
        Scene::Hindered,
        Ask::Devices,
        "  usb1 1.1.0 runtime flags require-ac,needs-reboot problems system-power-too-low,unreachable,power-too-low,update-pending,require-ac-power,lid-is-closed guids 2082b5e0-7a64-478a-b1b2-e3404fab6dad name Hub of ports\n  usb2 0.0.0 bootloader flags require-ac,is-bootloader,needs-reboot problems system-power-too-low,unreachable,power-too-low,require-ac-power,lid-is-closed guids - name\n",
    ),
    (
        Scene::Hindered,
        Ask::Upgrades("usb1"),
        "  com.example.hub 1.2.0 urgency unknown size 14 newer format triplet protocol com.example.hub\n",
    ),
    (Scene::Hindered, Ask::Releases("usb2"), "  none\n"),
    // The identifiers are the SHA-1 of `away` and of `gone`, as `sha1sum` prints them.
    (
        Scene::Hindered,
        Ask::History,
        "  4 t4 f416d44c605f8de852340c776b1f6c75258bf1e6 1.0.0 1.1.0 needs-reboot 0 0 -\n  3 t3 a6dfdeaa3a44a4c52d44284847d7160892b4017e 1.0.0 1.1.0 begun 0 0 -\n  2 t2 usb1 1.0.0 1.1.0 pending 0 30 org.usb.dfu retry-of 1\n  1 t1 usb1 1.0.0 1.1.0 failed 4 0 -\n",
    ),
    (
        Scene::Hindered,
        Ask::Results("usb1"),
        "  2 t2 usb1 1.0.0 1.1.0 pending 0 30 org.usb.dfu retry-of 1\n",
    ),
    (Scene::Hindered, Ask::Results("usb2"), "  none\n"),
    (Scene::Hindered, Ask::Settle("usb1"), "  waits 2\n"),
    (
        Scene::Begun,
        Ask::Devices,
        "  usb1 1.1.0 runtime flags updatable problems update-in-progress guids 2082b5e0-7a64-478a-b1b2-e3404fab6dad name\n",
    ),
    (
        Scene::Begun,
        Ask::History,
        "  1 t9 usb1 1.1.0 1.2.0 begun 0 0 -\n",
    ),
    (Scene::Begun, Ask::Settle("usb1"), "  waits 1\n"),
];

const FETCHED: FetchNote = FetchNote::Whole {
    digest: [7; 32],
    len: 14,
    raw: 0x0102_0000,
};

/// The machine of the scene, before anything is done.
fn machine_of(alloc: Global, scene: Scene) -> Result<Story, Fail> {
    match scene {
        Scene::Installed | Scene::Unplugged => one_hub(alloc, Hub::Full, 1, 0),
        Scene::Bare => one_hub(alloc, Hub::Bare, 0, 0),
        Scene::Nothing => no_hub(alloc),
        Scene::Hindered => hindered(alloc),
        Scene::Begun => one_hub(alloc, Hub::Full, 0, 1),
    }
}

fn unplug(story: &mut Story) -> Result<(), Fail> {
    let hub = device_in("usb1")?;
    story.unplug(1, &hub)?;
    Ok(())
}

/// Whether the install was begun.
fn begin(story: &mut Story) -> Result<bool, Fail> {
    // The check has to be shown each type that a request holds.
    let _named: Option<Selector> = None;
    let request = request()?;
    let asked = story.ask(1, &request)?;
    let claimed = story.claim(1, &FETCHED)?;
    Ok(asked && claimed)
}

/// Brings the scene about, where it can.
fn prepare(scene: Scene, story: &mut Story) -> Result<bool, Fail> {
    match scene {
        Scene::Unplugged => {
            unplug(story)?;
            Ok(true)
        }
        Scene::Begun => begin(story),
        Scene::Installed | Scene::Bare | Scene::Nothing | Scene::Hindered => Ok(true),
    }
}

/// What a client is told behind a text.
fn reply(alloc: Global, story: &Story, ask: Ask) -> Result<Vec<u8>, Fail> {
    // The check has to be shown each type that a question holds.
    let _named: Option<Selector> = None;
    let query = query(ask)?;
    let mut told = Vec::new(alloc);
    told.extend_from_slice(b"told: ")?;
    write_reply(story.facts(), story.state(), &query, &mut told)?;
    Ok(told)
}

/// Whether that is told of the story.
fn is_told(alloc: Global, story: &Story, ask: Ask, meant: &str) -> Result<bool, Fail> {
    let told = reply(alloc, story, ask)?;
    let whole = format!(in alloc; "told: {meant}")?;
    Ok(differs_at(&told, whole.as_bytes()).is_none())
}

/// Whether the scene is brought about with this machine, and that is told of it.
fn is_told_then(
    alloc: Global,
    story: &mut Story,
    scene: Scene,
    ask: Ask,
    meant: &str,
) -> Result<bool, Fail> {
    if prepare(scene, story)? {
        is_told(alloc, story, ask, meant)
    } else {
        Ok(false)
    }
}

/// Whether that is told of the scene.
fn is_told_of(alloc: Global, scene: Scene, ask: Ask, meant: &str) -> Result<bool, Fail> {
    let mut story = machine_of(alloc, scene)?;
    is_told_then(alloc, &mut story, scene, ask, meant)
}

/// How many rows stand before the first whose text isn't told.
fn told_before(alloc: Global) -> Result<usize, Fail> {
    for (at, (scene, ask, meant)) in REPLIES.iter().enumerate() {
        if !is_told_of(alloc, *scene, *ask, meant)? {
            return Ok(at);
        }
    }
    Ok(REPLIES.len())
}

#[test]
fn each_reply_is_told(rt: HostRuntime) -> Result<(), Fail> {
    assert_eq!(rt; told_before(rt.alloc())?, 31);
    Ok(())
}

/// The lines of the newest 64 of so many rows, and behind them another.
fn rows_from(alloc: Global, newest: u32, last: &str) -> Result<String, Fail> {
    let mut text = String::new(alloc);
    for at in 0..newest.min(64) {
        let entry = newest.saturating_sub(at);
        text.push_str(&format!(in alloc; "  {entry} t{entry} usb1 1.0.0 1.1.0 success 0 0 -\n")?)?;
    }
    text.push_str(last)?;
    Ok(text)
}

/// The lines of the first 64 of so many newer releases, and behind them others.
fn releases_newer(alloc: Global, newer: u32, last: &str) -> Result<String, Fail> {
    let mut text = String::new(alloc);
    for _ in 0..newer.min(64) {
        text.push_str("  com.example.hub 1.2.0 urgency unknown size 14 newer\n")?;
    }
    text.push_str(last)?;
    Ok(text)
}

fn tells_rows(alloc: Global, story: &Story, newest: u32, last: &str) -> Result<bool, Fail> {
    let rows = rows_from(alloc, newest, last)?;
    is_told(alloc, story, Ask::History, &rows)
}

fn tells_releases(
    alloc: Global,
    story: &Story,
    ask: Ask,
    newer: u32,
    last: &str,
) -> Result<bool, Fail> {
    let releases = releases_newer(alloc, newer, last)?;
    is_told(alloc, story, ask, &releases)
}

/// So many rows and newer releases, the lines behind the first 64 of each, and those behind them where all
/// releases are asked for: the hub has two other releases.
type Crowd = (u32, &'static str, &'static str);

/// Whether of each list 64 are told, and how many are more.
fn tells_64(alloc: Global, story: &Story, crowd: &Crowd) -> Result<bool, Fail> {
    let (count, last, last_of_all) = *crowd;
    if !tells_rows(alloc, story, count, last)? {
        return Ok(false);
    }
    if !tells_releases(alloc, story, Ask::Upgrades("usb1"), count, last)? {
        return Ok(false);
    }
    tells_releases(alloc, story, Ask::Releases("usb1"), count, last_of_all)
}

/// The same of a machine with so many.
fn tells_64_of(alloc: Global, crowd: &Crowd) -> Result<bool, Fail> {
    let story = one_hub(alloc, Hub::Full, crowd.0, crowd.0)?;
    tells_64(alloc, &story, crowd)
}

const CROWDS: [Crowd; 5] = [
    (
        62,
        "",
        "  com.example.hub 1.1.0 urgency unknown size 14 same\n  com.example.hub 1.0.0 urgency unknown size 14 older\n",
    ),
    (
        63,
        "",
        "  com.example.hub 1.1.0 urgency unknown size 14 same\n  more 1\n",
    ),
    (64, "", "  more 2\n"),
    (65, "  more 1\n", "  more 3\n"),
    (70, "  more 6\n", "  more 8\n"),
];

/// How many crowds stand before the first that isn't told so.
fn crowds_told(alloc: Global) -> Result<usize, Fail> {
    for (at, crowd) in CROWDS.iter().enumerate() {
        if !tells_64_of(alloc, crowd)? {
            return Ok(at);
        }
    }
    Ok(CROWDS.len())
}

#[test]
fn of_rows_and_releases_64_are_told(rt: HostRuntime) -> Result<(), Fail> {
    assert_eq!(rt; crowds_told(rt.alloc())?, 5);
    Ok(())
}
