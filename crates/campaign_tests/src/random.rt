//! Campaigns made at random.
use crate::base::{HISTORIES, History, Left, Outside, WELL, changed, run, with};
use crate::dice::Dice;
use std::alloc::Global;
use std::sync::Wait;
use std::test::Fail;
use std::thread::Threads;

/// How many campaigns are run over each history.
const CAMPAIGNS: u64 = 200;

const SITE: &str =
    r#"{"format":1,"machine":{"daemon":"1.9.5","pool":POOL},"components":[{"id":"com.example.hub","provides":["2082b5e0-7a64-478a-b1b2-e3404fab6dad"],"releases":[{"version":"1.1.0","sha256":"9770ab3285028befb05af65f2ad3bd2d36afb87626032bc8a9ac195219be71d7","size":14},{"version":"1.0.0","sha256":"c9a69fece8c4c54b1942720921d0cc74b307337503b677c013941c03278e2c46","size":14},{"version":"2.0.0","sha256":"e3b0c44298fc1c149afbf4c8996fb92427ae41e4649b934ca495991b7852b855","size":0},{"version":"3.0.0","sha256":"0000000000000000000000000000000000000000000000000000000000000000","size":5000}]}],"boards":[BOARDS],"clients":[{},{},{}],"boots":[BOOTS]}"#;

const BOARD: &str =
    r#"{"port":"PORT","physical":"PORT","plugin":"flash","instance-ids":["2082b5e0-7a64-478a-b1b2-e3404fab6dad"],"flags":[FLAGS],"version-format":"triplet","image":"EMU1 01000000\n","faults":[FAULTS]}"#;

const BOOT: &str = r#"{"time":TIME,LIMIT"absent":[ABSENT],"scripts":[[ITEMS1],[ITEMS2],[ITEMS3]]}"#;

/// What a client does: installs, more often than not.
const ITEMS: [&str; 8] = [
    r#"{"do":"install","tag":"TAG","device":"PORT","version":"VERSION","flags":[FLAGS]}"#,
    r#"{"do":"install","tag":"TAG","device":"PORT","version":"VERSION","flags":[FLAGS]}"#,
    r#"{"do":"install","tag":"TAG","device":"PORT","version":"VERSION","flags":[FLAGS]}"#,
    r#"{"do":"install","tag":"TAG","device":"PORT","version":"VERSION","flags":[FLAGS]}"#,
    r#"{"do":"settle","device":"PORT"}"#,
    r#"{"do":"unplug","device":"PORT"}"#,
    r#"{"do":"plug","device":"PORT"}"#,
    r#"{"do":"get-history"}"#,
];

const PORTS: [&str; 8] = ["b1", "b2", "b3", "b1", "b2", "b3", "b1", "b4"];

const TAGS: [&str; 8] = ["t1", "t2", "t3", "t4", "t5", "t6", "t7", "t8"];

const VERSIONS: [&str; 8] = [
    "1.1.0", "1.1.0", "1.1.0", "1.0.0", "1.0.0", "1.1.0", "2.0.0", "3.0.0",
];

const INSTALL_FLAGS: [&str; 8] = [
    "",
    "",
    r#""offline""#,
    r#""offline","allow-older""#,
    r#""allow-older""#,
    r#""allow-older","allow-reinstall""#,
    r#""allow-older","allow-reinstall""#,
    r#""offline","allow-reinstall""#,
];

const BOARD_FLAGS: [&str; 8] = [
    r#""updatable""#,
    r#""updatable""#,
    r#""updatable""#,
    r#""updatable""#,
    r#""updatable","needs-reboot""#,
    r#""updatable","needs-reboot""#,
    r#""updatable","needs-bootloader""#,
    r#""locked""#,
];

const FAULTS: [&str; 8] = [
    "",
    "",
    "",
    r#"{"call":1,"fault":"torn"}"#,
    r#"{"call":2,"fault":"gone"}"#,
    r#"{"call":1,"fault":"failed"},{"call":3,"fault":"torn"}"#,
    r#"{"call":1,"fault":"stranger"}"#,
    r#"{"call":3,"fault":"gone"},{"call":4,"fault":"stranger"}"#,
];

const POOLS: [&str; 8] = ["16", "16", "16", "1", "1", "2", "3", "0"];

const LIMITS: [&str; 8] = [
    "",
    "",
    "",
    r#""cut-after":0,"#,
    r#""cut-after":2,"#,
    r#""cut-after":5,"#,
    r#""cut-after":9,"#,
    r#""cut-after":16,"#,
];

const ABSENT: [&str; 8] = ["", "", "", "", r#""b1""#, r#""b2""#, r#""b1","b3""#, ""];

/// A few items, with commas between them.
fn items(alloc: Global, dice: &mut Dice) -> Result<String, Fail> {
    let mut items = String::new(alloc);
    for number in 0..dice.roll(4) {
        if number > 0 {
            items.push_str(",")?;
        }
        let changes = [
            ("TAG", dice.pick(&TAGS)),
            ("PORT", dice.pick(&PORTS)),
            ("VERSION", dice.pick(&VERSIONS)),
            ("FLAGS", dice.pick(&INSTALL_FLAGS)),
        ];
        items.push_str(&changed(alloc, dice.pick(&ITEMS), &changes)?)?;
    }
    Ok(items)
}

/// A boot of this number, whose scripts have no items yet.
fn empty_boot(alloc: Global, dice: &mut Dice, number: u32) -> Result<String, Fail> {
    let time = format!(in alloc; "1{number}000")?;
    let plan = [
        ("LIMIT", dice.pick(&LIMITS)),
        ("ABSENT", dice.pick(&ABSENT)),
    ];
    let planned = changed(alloc, BOOT, &plan)?;
    with(alloc, &planned, "TIME", &time)
}

const SCRIPTS: [&str; 3] = ["ITEMS1", "ITEMS2", "ITEMS3"];

/// A boot of this number.
fn boot(alloc: Global, dice: &mut Dice, number: u32) -> Result<String, Fail> {
    let mut boot = empty_boot(alloc, dice, number)?;
    for script in &SCRIPTS {
        let items = items(alloc, dice)?;
        boot = with(alloc, &boot, *script, &items)?;
    }
    Ok(boot)
}

/// A few boots, with commas between them.
fn boots(alloc: Global, dice: &mut Dice) -> Result<String, Fail> {
    let mut boots = String::new(alloc);
    for number in 0..dice.roll(6) {
        if number > 0 {
            boots.push_str(",")?;
        }
        let boot = boot(alloc, dice, number)?;
        boots.push_str(&boot)?;
    }
    Ok(boots)
}

/// A board.
fn board(alloc: Global, dice: &mut Dice, port: &str) -> Result<String, Fail> {
    let changes = [
        ("PORT", port),
        ("FLAGS", dice.pick(&BOARD_FLAGS)),
        ("FAULTS", dice.pick(&FAULTS)),
    ];
    changed(alloc, BOARD, &changes)
}

const LATER_PORTS: [&str; 2] = ["b2", "b3"];

/// Three boards, with commas between them.
fn boards(alloc: Global, dice: &mut Dice) -> Result<String, Fail> {
    let mut boards = board(alloc, dice, "b1")?;
    for port in &LATER_PORTS {
        let board = board(alloc, dice, *port)?;
        boards.push_str(",")?;
        boards.push_str(&board)?;
    }
    Ok(boards)
}

/// A document with three boards and three clients.
fn site(alloc: Global, dice: &mut Dice) -> Result<String, Fail> {
    let boards = boards(alloc, dice)?;
    let boots = boots(alloc, dice)?;
    let text = with(alloc, SITE, "POOL", dice.pick(&POOLS))?;
    let text = with(alloc, &text, "BOARDS", &boards)?;
    with(alloc, &text, "BOOTS", &boots)
}

/// The document and what it left, where an entry was written twice, or where the report doesn't end with the number of
/// events.
fn fault_of(alloc: Global, text: &str, left: &Left) -> Result<String, Fail> {
    let end = format!(in alloc; "\nend {}\n", left.events)?;
    if left.status.as_str() == "done"
        && !left.wrote_twice()
        && left.text().ends_with(end.as_str())
    {
        return Ok(String::new(alloc));
    }
    Ok(format!(in alloc; "{text}\n{}\n{}", left.status, left.text())?)
}

/// What is wrong with a campaign.
fn wrong<R: Threads + Wait + Sync>(
    rt: &R,
    alloc: Global,
    history: History,
    seed: u64,
) -> Result<String, Fail> {
    let text = site(alloc, &mut Dice::new(seed))?;
    let outside = Outside { shelves: 3, ..WELL };
    let left = run(rt, alloc, history, &text, &outside)?;
    fault_of(alloc, &text, &left)
}

/// Several boards, boots, cuts, faults and installs that are put off: no entry is written twice.
#[test]
fn no_entry_is_written_twice(rt: HostRuntime) -> Result<(), Fail> {
    for history in HISTORIES {
        for seed in 0..CAMPAIGNS {
            let told = wrong(&rt, rt.alloc(), history, seed)?;
            assert_eq!(rt; told.as_str(), "", "over {history:?}");
        }
    }
    Ok(())
}
