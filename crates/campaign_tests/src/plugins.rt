//! Plugins with rules.
use crate::base::{HISTORIES, History, Outside, WELL, document, run};
use crate::named::Rules;
use std::alloc::Global;
use std::sync::Wait;
use std::test::Fail;
use std::thread::Threads;

/// The name of a plugin, the plugin that it runs after, and the one that it conflicts with.
type Named = (&'static str, &'static str, &'static str);

const BOOT: &str = "fwupdemu report 1\nboot 1 time 1000\n  board usb1 1.0.0 runtime\n";

/// No device has the plugin of the board.
const NO_DEVICE: &str = "client 1 ask t1 usb1 1.1.0 refused 1 no-device\nend 2\n";

const INSTALL: &str = "client 1 ask t1 usb1 1.1.0 hold 1
client 1 claim t1 entry 1
client 1 entry 1 start prepare
client 1 entry 1 end prepare ok 1.0.0 runtime
client 1 entry 1 start write
client 1 entry 1 end write ok 1.1.0 runtime began ended
client 1 entry 1 start reload
client 1 entry 1 end reload ok 1.1.0 runtime
client 1 entry 1 start cleanup
client 1 entry 1 end cleanup ok 1.1.0 runtime
client 1 entry 1 finish success
end 12
";

/// Two plugins, the plugin of the board, the status, and the report.
const RULES: [(Named, Named, &str, &str, &[&str]); 7] = [
    // Each runs after the other one, and one after itself.
    (
        ("a", "b", ""),
        ("b", "a", ""),
        "a",
        "plugins: cycle a b",
        &[],
    ),
    (
        ("b", "a", ""),
        ("a", "b", ""),
        "b",
        "plugins: cycle a b",
        &[],
    ),
    (("a", "a", ""), ("b", "", ""), "b", "plugins: cycle a", &[]),
    (
        ("a", "", ""),
        ("a", "", ""),
        "a",
        "plugins: duplicate a",
        &[],
    ),
    // One conflicts with the other, before it or behind it.
    (
        ("a", "", "b"),
        ("b", "", ""),
        "b",
        "done",
        &[BOOT, NO_DEVICE],
    ),
    (
        ("a", "b", "b"),
        ("b", "", ""),
        "b",
        "done",
        &[BOOT, NO_DEVICE],
    ),
    // Each conflicts with the other one, and the first in order stays.
    (
        ("b", "", "a"),
        ("a", "", "b"),
        "a",
        "done",
        &[BOOT, INSTALL],
    ),
];

fn rules(named: Named) -> Rules {
    Rules {
        name: named.0,
        after: named.1,
        conflicts: named.2,
        holds: false,
    }
}

/// What a run with these plugins tells otherwise.
fn unlike<R: Threads + Wait + Sync>(
    rt: &R,
    alloc: Global,
    history: History,
    rules: [Rules; 2],
    plugin: &str,
    status: &str,
    report: &[&str],
) -> Result<String, Fail> {
    let text = document(
        alloc,
        &[
            (r#""plugin":"flash""#, r#""plugin":"PLUGIN""#),
            ("PLUGIN", plugin),
        ],
    )?;
    let outside = Outside { rules, ..WELL };
    run(rt, alloc, history, &text, &outside)?.unlike(alloc, status, report)
}

#[test]
fn plugins_keep_their_rules(rt: HostRuntime) -> Result<(), Fail> {
    for history in HISTORIES {
        for (first, second, plugin, status, report) in RULES {
            let plugins = [rules(first), rules(second)];
            let told = unlike(&rt, rt.alloc(), history, plugins, plugin, status, report)?;
            assert_eq!(rt; told.as_str(), "", "over {history:?}");
        }
    }
    Ok(())
}
