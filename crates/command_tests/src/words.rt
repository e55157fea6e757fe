//! Words, and the command that they are.
use command_words::{Command, Text, WordsFault, read_words};
use fw_base::Name;
use std::alloc::{AllocError, Global};
use std::test::Fail;
use version_formats::Version;

/// Words, and how their command is shown.
type Case = (&'static [&'static [u8]], &'static str);

const PLAIN: [Case; 13] = [
    (&[], "usage"),
    (&[b"run"], "run"),
    (&[b"run", b"--"], "run"),
    (&[b"run", b"run"], "usage"),
    (&[b"run", b"--", b"run"], "usage"),
    (&[b"run", b"-"], "usage"),
    (&[b"run", b"--clients", b"4"], "usage"),
    (&[b"--", b"run"], "usage"),
    (&[b"check"], "check"),
    (&[b"check", b"x"], "usage"),
    (&[b"help"], "usage"),
    (&[b"--help"], "usage"),
    (&[b"-h"], "usage"),
];

const EXPLAIN: [Case; 11] = [
    (&[b"explain", b"usb1", b"1.1.0"], "explain usb1 1.1.0"),
    (
        &[b"explain", b"--", b"usb1", b"1.1.0"],
        "explain usb1 1.1.0",
    ),
    (
        &[b"explain", b"usb1", b"--", b"1.1.0"],
        "explain usb1 1.1.0",
    ),
    (
        &[b"explain", b"usb1", b"1.1.0", b"--"],
        "explain usb1 1.1.0",
    ),
    (&[b"explain", b"--", b"-x", b"--"], "explain -x --"),
    (&[b"explain", b"-x", b"1"], "usage"),
    (&[b"explain", b"usb1"], "usage"),
    (&[b"explain", b"usb1", b"1", b"2"], "usage"),
    (&[b"explain", b"a b", b"1"], "usage"),
    (&[b"explain", b"usb1", b""], "usage"),
    (&[b"explain", b"\xc3\xa9", b"1"], "usage"),
];

const IDS: [Case; 11] = [
    (&[b"ids", b"EMU\\BOARD"], "ids EMU\\BOARD"),
    (&[b"ids", b"a b", b"\xc3\xa9"], "ids a b,é"),
    (&[b"ids", b"a", b"--", b"-x", b"--"], "ids a,-x,--"),
    (&[b"ids"], "usage"),
    (&[b"ids", b"--"], "usage"),
    (&[b"ids", b"-x"], "usage"),
    (&[b"ids", b""], "usage"),
    (&[b"ids", b"\xff"], "usage"),
    (&[b"ids", b"a", b"b\x7f"], "usage"),
    (&[b"ids", b"a\x1f"], "usage"),
    (&[b"IDS", b"a"], "usage"),
];

/// 56 bytes, the most that a tag has.
const LONGEST: &[u8] = b"aaaaaaaaaaaaaaaaaaaaaaaaaaaaaaaaaaaaaaaaaaaaaaaaaaaaaaaa";

const TAGS: [Case; 15] = [
    (&[b"plan", b"u"], "plan u"),
    (&[b"plan", b"--", b"-u"], "plan -u"),
    (&[b"plan", b"u", b"--"], "plan u"),
    (
        &[b"plan", LONGEST],
        "plan aaaaaaaaaaaaaaaaaaaaaaaaaaaaaaaaaaaaaaaaaaaaaaaaaaaaaaaa",
    ),
    (&[b"plan"], "usage"),
    (&[b"plan", b""], "usage"),
    (&[b"plan", b"a b"], "usage"),
    (&[b"plan", b"-u"], "usage"),
    (&[b"plan", b"u", b"u"], "usage"),
    (&[b"update", b"u"], "update u"),
    (&[b"update", b"--", b"--"], "update --"),
    (&[b"update"], "usage"),
    (&[b"update", b"u", b"--clients=3"], "usage"),
    (&[b"update", b"\xc3\xa9"], "usage"),
    (
        &[
            b"update",
            b"aaaaaaaaaaaaaaaaaaaaaaaaaaaaaaaaaaaaaaaaaaaaaaaaaaaaaaaaa",
        ],
        "usage",
    ),
];

const REPORT: [Case; 15] = [
    (&[b"report"], "report 65536"),
    (&[b"report", b"--"], "report 65536"),
    (&[b"report", b"--max", b"1"], "report 1"),
    (&[b"report", b"--max=65536"], "report 65536"),
    (&[b"report", b"--max=7", b"--"], "report 7"),
    (&[b"report", b"--max", b"0"], "usage"),
    (&[b"report", b"--max", b"65537"], "usage"),
    (&[b"report", b"--max", b"07"], "usage"),
    (&[b"report", b"--max"], "usage"),
    (&[b"report", b"--max="], "usage"),
    (&[b"report", b"--max", b"1", b"--max", b"1"], "usage"),
    (&[b"report", b"--max=1", b"--max=1"], "usage"),
    (&[b"report", b"--", b"--max=1"], "usage"),
    (&[b"report", b"1"], "usage"),
    (&[b"report", b"--clients=1"], "usage"),
];

const MAKE: [Case; 24] = [
    (&[b"make", b"10"], "make 10 4"),
    (&[b"make", b"1", b"--clients", b"1"], "make 1 1"),
    (&[b"make", b"--clients", b"3", b"10"], "make 10 3"),
    (&[b"make", b"--clients=3", b"10"], "make 10 3"),
    (&[b"make", b"10", b"--clients=3"], "make 10 3"),
    (&[b"make", b"--clients=16", b"--", b"256"], "make 256 16"),
    (&[b"make", b"--", b"10"], "make 10 4"),
    (&[b"make", b"10", b"--"], "make 10 4"),
    (&[b"make"], "usage"),
    (&[b"make", b"0"], "usage"),
    (&[b"make", b"257"], "usage"),
    (&[b"make", b"010"], "usage"),
    (&[b"make", b"10", b"10"], "usage"),
    (&[b"make", b"10", b"--clients=0"], "usage"),
    (&[b"make", b"10", b"--clients", b"17"], "usage"),
    (&[b"make", b"10", b"--clients="], "usage"),
    (&[b"make", b"10", b"--clients"], "usage"),
    (&[b"make", b"10", b"--clients", b"--"], "usage"),
    (&[b"make", b"--clients", b"--clients=3", b"10"], "usage"),
    (&[b"make", b"--clients=3", b"--clients=3", b"10"], "usage"),
    (
        &[b"make", b"--clients", b"3", b"10", b"--clients", b"3"],
        "usage",
    ),
    (&[b"make", b"--clientsx", b"10"], "usage"),
    (&[b"make", b"10", b"--", b"--clients=3"], "usage"),
    (&[b"make", b"10", b"-4"], "usage"),
];

fn shown_texts(alloc: Global, texts: &[Text]) -> Result<String, AllocError> {
    let mut shown = String::from_str(alloc, "ids ")?;
    for (at, text) in texts.iter().enumerate() {
        if at > 0 {
            shown.push_str(",")?;
        }
        shown.push_str(str::from_utf8(text.bytes()).unwrap_or("?"))?;
    }
    Ok(shown)
}

fn shown_explain(alloc: Global, port: &Name, version: &Version) -> Result<String, AllocError> {
    let port = str::from_utf8(port.bytes()).unwrap_or("?");
    let version = str::from_utf8(version.bytes()).unwrap_or("?");
    format!(in alloc; "explain {port} {version}")
}

fn shown_tag(alloc: Global, word: &str, tag: &Name) -> Result<String, AllocError> {
    let tag = str::from_utf8(tag.bytes()).unwrap_or("?");
    format!(in alloc; "{word} {tag}")
}

fn shown_command(alloc: Global, command: &Command) -> Result<String, AllocError> {
    match command {
        Command::Run => String::from_str(alloc, "run"),
        Command::Check => String::from_str(alloc, "check"),
        Command::Remotes => String::from_str(alloc, "remotes"),
        Command::Explain { port, version } => shown_explain(alloc, port, version),
        Command::Plan { tag } => shown_tag(alloc, "plan", tag),
        Command::Update { tag } => shown_tag(alloc, "update", tag),
        Command::Ids { texts } => shown_texts(alloc, texts.items()),
        Command::Make { boards, clients } => format!(in alloc; "make {boards} {clients}"),
        Command::Report { max } => format!(in alloc; "report {max}"),
    }
}

/// The command that the words are, in words.
fn shown(alloc: Global, words: &[&[u8]]) -> Result<String, AllocError> {
    match read_words(alloc, words) {
        Ok(command) => shown_command(alloc, &command),
        Err(WordsFault::Usage) => String::from_str(alloc, "usage"),
        Err(WordsFault::NoMemory) => String::from_str(alloc, "no memory"),
    }
}

/// What the first words were shown as that are shown otherwise than they should be: nothing where all are right.
fn first_other(alloc: Global, cases: &[Case]) -> Result<String, AllocError> {
    for (words, wanted) in cases {
        let found = shown(alloc, words)?;
        if found.as_str() != *wanted {
            return Ok(found);
        }
    }
    Ok(String::new(alloc))
}

#[test]
fn commands_without_values(rt: HostRuntime) -> Result<(), Fail> {
    assert_eq!(rt; first_other(rt.alloc(), &PLAIN)?.as_str(), "");
    Ok(())
}

#[test]
fn ports_and_versions(rt: HostRuntime) -> Result<(), Fail> {
    assert_eq!(rt; first_other(rt.alloc(), &EXPLAIN)?.as_str(), "");
    Ok(())
}

#[test]
fn tags(rt: HostRuntime) -> Result<(), Fail> {
    assert_eq!(rt; first_other(rt.alloc(), &TAGS)?.as_str(), "");
    Ok(())
}

#[test]
fn texts(rt: HostRuntime) -> Result<(), Fail> {
    assert_eq!(rt; first_other(rt.alloc(), &IDS)?.as_str(), "");
    Ok(())
}

#[test]
fn boards_and_clients(rt: HostRuntime) -> Result<(), Fail> {
    assert_eq!(rt; first_other(rt.alloc(), &MAKE)?.as_str(), "");
    Ok(())
}

#[test]
fn lines_at_most(rt: HostRuntime) -> Result<(), Fail> {
    assert_eq!(rt; first_other(rt.alloc(), &REPORT)?.as_str(), "");
    Ok(())
}

/// `ids` with so many texts.
fn ids_of(alloc: Global, count: u32) -> Result<Vec<&'static [u8]>, Fail> {
    let mut words: Vec<&'static [u8]> = Vec::new(alloc);
    words.push(b"ids".as_slice())?;
    for _ in 0..count {
        words.push(b"a".as_slice())?;
    }
    Ok(words)
}

/// `ids` takes 64 texts and no more.
#[test]
fn as_many_texts(rt: HostRuntime) -> Result<(), Fail> {
    let words = ids_of(rt.alloc(), 64)?;
    assert!(rt; read_words(rt.alloc(), &words).is_ok());
    Ok(())
}

#[test]
fn one_text_more(rt: HostRuntime) -> Result<(), Fail> {
    let words = ids_of(rt.alloc(), 65)?;
    assert_eq!(rt; shown(rt.alloc(), &words)?.as_str(), "usage");
    Ok(())
}

/// A text has at most 255 bytes.
#[test]
fn as_long_texts(rt: HostRuntime) -> Result<(), Fail> {
    let long = vec![in rt.alloc(); b'a'; 256]?;
    assert!(rt; Text::read(&long[..255]).is_some());
    assert!(rt; Text::read(&long).is_none());
    Ok(())
}
