//! What is printed, in examples.
use command_outputs::{OutputStop, Sections, write_check, write_ids};
use command_words::Text;
use outer_traits::MemorySink;
use std::alloc::Global;
use std::test::Fail;

fn sink(alloc: Global) -> Result<MemorySink, Fail> {
    Ok(MemorySink::new(alloc, 1000, Vec::new(alloc))?)
}

#[test]
fn check_names_the_sections(rt: HostRuntime) -> Result<(), Fail> {
    let mut out = sink(rt.alloc())?;
    let sections = Sections {
        boards: 1,
        components: 20,
        clients: 0,
        boots: 32,
    };
    write_check(rt.alloc(), sections, &mut out)?;
    assert_eq!(rt;
        out.bytes(),
        b"ok boards 1 components 20 clients 0 boots 32\n".as_slice()
    );
    Ok(())
}

fn texts_of(alloc: Global, words: &[&[u8]]) -> Result<Vec<Text>, Fail> {
    let mut texts = Vec::new(alloc);
    for word in words {
        texts.push(Text::read(word).ok_or("no text")?)?;
    }
    Ok(texts)
}

/// Whether that is written of the texts.
pub fn are_named(alloc: Global, words: &[&[u8]], wanted: &[u8]) -> Result<bool, Fail> {
    let texts = texts_of(alloc, words)?;
    let mut out = sink(alloc)?;
    write_ids(alloc, &texts, &mut out)?;
    Ok(out.bytes() == wanted)
}

const TEXTS: [&[u8]; 2] = [b"EMU\\BOARD", b"6BA7B810-9DAD-11D1-80B4-00C04FD430C8"];

/// The GUIDs of `python3 -c 'import uuid; print(uuid.uuid5(uuid.NAMESPACE_DNS, r"EMU\BOARD"))'`, and one that is named.
const NAMED: &[u8] =
    b"EMU\\BOARD 5958ab99-73ed-53bb-b697-892e64a6241b\n6BA7B810-9DAD-11D1-80B4-00C04FD430C8 6ba7b810-9dad-11d1-80b4-00c04fd430c8\n";

#[test]
fn ids_names_each_text(rt: HostRuntime) -> Result<(), Fail> {
    assert!(rt; are_named(rt.alloc(), &TEXTS, NAMED)?);
    Ok(())
}

/// A sink that fails has taken a front.
#[test]
fn sink_that_is_full(rt: HostRuntime) -> Result<(), Fail> {
    let mut out = MemorySink::new(rt.alloc(), 5, Vec::new(rt.alloc()))?;
    let sections = Sections {
        boards: 1,
        components: 1,
        clients: 1,
        boots: 1,
    };
    let written = write_check(rt.alloc(), sections, &mut out);
    assert_eq!(rt; written, Err(OutputStop::SinkFault));
    assert_eq!(rt; out.bytes(), b"ok bo".as_slice());
    Ok(())
}
