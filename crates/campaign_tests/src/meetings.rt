//! Two clients on threads, one of which is held up in its write while the other one asks.
use crate::base::{HISTORIES, History, Left, Outside, WELL, changed, run, with};
use crate::meeting::Pair;
use crate::named::Rules;
use std::alloc::Global;
use std::sync::Wait;
use std::test::Fail;
use std::thread::Threads;

/// The plugins: `flash`, and `held`, which holds its writes up itself.
const PLUGINS: [Rules; 2] = [
    Rules {
        name: "flash",
        after: "",
        conflicts: "",
        holds: false,
    },
    Rules {
        name: "held",
        after: "",
        conflicts: "",
        holds: true,
    },
];

/// Three boards: `usb1`, `usb2`, whose releases are 1.1.0 and an empty 2.0.0, and `usb3`, a child of `usb1` that requires
/// its parent.
const SITE: &str =
    r#"{"format":1,"machine":{"daemon":"1.9.5","pool":POOL},"components":[{"id":"com.example.one","provides":["11111111-1111-4111-8111-111111111111"],"releases":[{"version":"1.1.0","sha256":"9770ab3285028befb05af65f2ad3bd2d36afb87626032bc8a9ac195219be71d7","size":14}]},{"id":"com.example.two","provides":["22222222-2222-4222-8222-222222222222"],"releases":[{"version":"1.1.0","sha256":"9770ab3285028befb05af65f2ad3bd2d36afb87626032bc8a9ac195219be71d7","size":14},{"version":"2.0.0","sha256":"e3b0c44298fc1c149afbf4c8996fb92427ae41e4649b934ca495991b7852b855","size":0}]},{"id":"com.example.child","provides":["33333333-3333-4333-8333-333333333333"],"requires":[{"tag":"firmware","text":"11111111-1111-4111-8111-111111111111","depth":1}],"releases":[{"version":"1.1.0","sha256":"9770ab3285028befb05af65f2ad3bd2d36afb87626032bc8a9ac195219be71d7","size":14}]}],"boards":[{"port":"usb1","physical":"usb-1","plugin":"PLUGIN","instance-ids":["11111111-1111-4111-8111-111111111111"],"flags":["updatable"],"version-format":"triplet","image":"EMU1 01000000\n"},{"port":"usb2","physical":"usb-2","plugin":"flash","instance-ids":["22222222-2222-4222-8222-222222222222"],"flags":["updatable"],"version-format":"triplet","image":"EMU1 01000000\n"},{"port":"usb3","physical":"usb-3","parent":"usb1","plugin":"flash","instance-ids":["33333333-3333-4333-8333-333333333333"],"flags":["updatable"],"version-format":"triplet","image":"EMU1 01000000\n"}],"clients":[{},{}],"boots":[{"time":1000,"scripts":[[SCRIPT1],[SCRIPT2]]}]}"#;

/// What the holder does.
const HOLDS: &str = r#"{"do":"install","tag":"t1","device":"usb1","version":"1.1.0"}"#;

/// The steps of the holder, whose entry is the first.
const HELD: &str = "client H ask t1 usb1 1.1.0 hold 1
client H claim t1 entry 1
client H entry 1 start prepare
client H entry 1 end prepare ok 1.0.0 runtime
client H entry 1 start write
client H entry 1 end write ok 1.1.0 runtime began ended
client H entry 1 start reload
client H entry 1 end reload ok 1.1.0 runtime
client H entry 1 start cleanup
client H entry 1 end cleanup ok 1.1.0 runtime
client H entry 1 finish success
";

/// The other client has another device, which is written too.
const WRITES: &str = r#"{"do":"install","tag":"t2","device":"usb2","version":"1.1.0"}"#;

const WRITTEN: &str = "client A ask t2 usb2 1.1.0 hold 1
client A claim t2 entry 2
client A entry 2 start prepare
client A entry 2 end prepare ok 1.0.0 runtime
client A entry 2 start write
client A entry 2 end write ok 1.1.0 runtime began ended
client A entry 2 start reload
client A entry 2 end reload ok 1.1.0 runtime
client A entry 2 start cleanup
client A entry 2 end cleanup ok 1.1.0 runtime
client A entry 2 finish success
";

/// The other client fetches in vain, so that it goes on once the holder is held; then it asks; then it lets the holder
/// go on by an update that takes no block.
const ASKS: &str =
    r#"{"do":"install","tag":"t2","device":"usb2","version":"2.0.0"},{"do":"install","tag":"t3","device":"DEVICE","version":"1.1.0"},{"do":"install","tag":"t4","device":"usb2","version":"2.0.0"}"#;

const ASKED: &str = "client A ask t2 usb2 2.0.0 hold 0
client A claim t2 refused 14 payload shelf-fault
client A ask t3 DEVICE 1.1.0 refused REFUSAL
client A ask t4 usb2 2.0.0 hold 0
client A claim t4 entry 2
client A entry 2 start prepare
client A entry 2 end prepare ok 1.0.0 runtime
client A entry 2 start write
client A entry 2 end write ok 0.0.0 bootloader began ended
client A entry 2 start reload
client A entry 2 end reload ok 0.0.0 bootloader
client A entry 2 start cleanup
client A entry 2 end cleanup ok 0.0.0 bootloader
client A entry 2 finish failed
";

/// Which client is the holder, whether by its plugin in place of its gate, how many blocks the pool has, what the
/// other client asks for, and why it is refused (an empty text: both write).
type Scene = (u32, bool, &'static str, &'static str, &'static str);

const SCENES: [Scene; 8] = [
    (1, false, "16", "usb2", ""),
    (1, true, "16", "usb2", ""),
    (2, true, "16", "usb2", ""),
    (1, false, "16", "usb1", "3 busy 1"),
    (1, true, "16", "usb1", "3 busy 1"),
    (1, false, "1", "usb2", "13 no-room 1 0"),
    (2, false, "16", "usb3", "10 unmet 0 7 device-in-use 1"),
    (2, true, "1", "usb3", "10 unmet 0 7 device-in-use 1"),
];

/// The other one of two clients.
fn other(client: u32) -> u32 {
    if client == 1 { 2 } else { 1 }
}

/// The script of the asker.
fn script(scene: &Scene) -> &'static str {
    if scene.4.is_empty() { WRITES } else { ASKS }
}

/// What the asker is told.
fn answers(scene: &Scene) -> &'static str {
    if scene.4.is_empty() { WRITTEN } else { ASKED }
}

/// The document of a scene.
fn site(alloc: Global, scene: &Scene) -> Result<String, Fail> {
    let (first, second) = if scene.0 == 1 {
        (HOLDS, script(scene))
    } else {
        (script(scene), HOLDS)
    };
    let plugin = if scene.1 { "held" } else { "flash" };
    let changes = [
        ("POOL", scene.2),
        ("PLUGIN", plugin),
        ("SCRIPT1", first),
        ("SCRIPT2", second),
        ("DEVICE", scene.3),
    ];
    changed(alloc, SITE, &changes)
}

/// The lines of the holder, and behind them those of the asker.
fn wanted(alloc: Global, scene: &Scene) -> Result<String, Fail> {
    let holder = format!(in alloc; "client {}", scene.0)?;
    let asker = format!(in alloc; "client {}", other(scene.0))?;
    let told = changed(
        alloc,
        answers(scene),
        &[("DEVICE", scene.3), ("REFUSAL", scene.4)],
    )?;
    let first = with(alloc, HELD, "client H", &holder)?;
    let second = with(alloc, &told, "client A", &asker)?;
    Ok(format!(in alloc; "{first}{second}")?)
}

/// The lines of a client.
fn lines_of(alloc: Global, report: &str, client: u32) -> Result<String, Fail> {
    let begin = format!(in alloc; "client {client} ")?;
    let mut lines = String::new(alloc);
    for line in report.lines() {
        if line.starts_with(begin.as_str()) {
            lines.push_str(line)?;
            lines.push_str("\n")?;
        }
    }
    Ok(lines)
}

/// Plays a scene.
fn play<R: Threads + Wait + Sync>(
    rt: &R,
    alloc: Global,
    history: History,
    scene: &Scene,
) -> Result<Left, Fail> {
    let text = site(alloc, scene)?;
    let failing: &[u32] = if scene.4.is_empty() { &[] } else { &[1] };
    let pair = Pair {
        holder: if scene.1 { 0 } else { scene.0 },
        asker: other(scene.0),
    };
    let outside = Outside {
        shelves: 2,
        shelf: failing,
        rules: PLUGINS,
        pair,
        ..WELL
    };
    run(rt, alloc, history, &text, &outside)
}

/// What a scene tells otherwise.
fn unlike<R: Threads + Wait + Sync>(
    rt: &R,
    alloc: Global,
    history: History,
    scene: &Scene,
) -> Result<String, Fail> {
    let left = play(rt, alloc, history, scene)?;
    let mut told = lines_of(alloc, left.text(), scene.0)?;
    told.push_str(&lines_of(alloc, left.text(), other(scene.0))?)?;
    let wanted = wanted(alloc, scene)?;
    if left.met && left.status.as_str() == "done" && told.as_str() == wanted.as_str() {
        return Ok(String::new(alloc));
    }
    Ok(format!(in alloc; "{}\n{told}", left.status)?)
}

/// While a client is held up in its write, the other one goes on: on another device as if it were alone, on the same
/// device to a refusal.
#[test]
fn a_client_goes_on_while_another_one_writes(rt: HostRuntime) -> Result<(), Fail> {
    for history in HISTORIES {
        for scene in SCENES {
            let told = unlike(&rt, rt.alloc(), history, &scene)?;
            assert_eq!(rt; told.as_str(), "", "over {history:?}");
        }
    }
    Ok(())
}
