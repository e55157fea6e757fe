//! What no clause says: that calls succeed, which bytes come, and what the adapters do to real files.
ghost use Rattle.std.specs.Prelude.{◌≡◌, IfOk};

use fw_base::Digest;
use outer_traits::{
    Failed, FolderShelf, Gate, MemoryShelf, MemorySink, MemorySource, NoGate, ReadSource, ReadStop,
    Shelf, Sink, Source, WriteSink, read_whole, write_whole,
};
use std::alloc::{AllocError, Global};
use std::io::{Error, ErrorKind, Read, Write};
use std::test::Fail;
use std::{fs, io};

fn bytes(alloc: Global, text: &str) -> Result<Vec<u8>, AllocError> {
    text.as_bytes().to_vec(alloc)
}

fn numbers(alloc: Global, list: &[u32]) -> Result<Vec<u32>, AllocError> {
    list.to_vec(alloc)
}

#[test]
fn a_whole_input_is_read(rt: HostRuntime) -> Result<(), Fail> {
    let alloc = rt.alloc();
    for piece in 1..8 {
        let mut source = MemorySource::new(bytes(alloc, "hello")?, piece, Vec::new(alloc));
        let read = read_whole(alloc, &mut source, 5)?;
        assert_eq!(rt; read.as_slice(), b"hello".as_slice(), "pieces of {piece}");
    }
    Ok(())
}

#[test]
fn an_input_past_the_limit_is_too_long(rt: HostRuntime) -> Result<(), Fail> {
    let alloc = rt.alloc();
    for (piece, failing) in [(1, 6), (2, 4), (9, 2)] {
        let mut source = MemorySource::new(
            bytes(alloc, "hello")?,
            piece,
            numbers(alloc, &[failing])?,
        );
        let stop = read_whole(alloc, &mut source, 4).err();
        assert_eq!(rt; stop, Some(ReadStop::TooLong), "pieces of {piece}");
    }
    Ok(())
}

#[test]
fn a_read_that_fails_ends_the_reading(rt: HostRuntime) -> Result<(), Fail> {
    let alloc = rt.alloc();
    for failing in 1..4 {
        let mut source = MemorySource::new(bytes(alloc, "hello")?, 3, numbers(alloc, &[failing])?);
        let stop = read_whole(alloc, &mut source, 9).err();
        assert_eq!(rt; stop, Some(ReadStop::SourceFault), "call {failing}");
        assert_eq!(rt; source.calls(), u64::from(failing), "call {failing}");
        let rest = read_whole(alloc, &mut source, 9)?;
        let want: &[u8] = match failing {
            1 => b"hello",
            2 => b"lo",
            _ => b"",
        };
        assert_eq!(rt; rest.as_slice(), want, "call {failing}");
    }
    Ok(())
}

#[test]
fn a_large_input_comes_whole(rt: HostRuntime) -> Result<(), Fail> {
    let alloc = rt.alloc();
    let large = vec![in alloc; 7u8; 100_000]?;
    let mut source = MemorySource::new(large, 9999, Vec::new(alloc));
    let read = read_whole(alloc, &mut source, 100_000)?;
    assert_eq!(rt; read.len(), 100_000);
    Ok(())
}

#[test]
fn a_sink_takes_what_fits(rt: HostRuntime) -> Result<(), Fail> {
    let alloc = rt.alloc();
    let mut sink = MemorySink::new(alloc, 4, numbers(alloc, &[2])?)?;
    let pieces: [&[u8]; 5] = [b"abc", b"", b"def", b"", b"e"];
    let answers = [Ok(3), Err(Failed), Ok(1), Ok(0), Err(Failed)];
    for (piece, answer) in pieces.iter().zip(answers) {
        assert_eq!(rt; sink.write(piece), answer);
    }
    assert_eq!(rt; (sink.bytes(), sink.calls()), (b"abcd".as_slice(), 5));
    Ok(())
}

#[test]
fn a_whole_text_is_written_or_its_front(rt: HostRuntime) -> Result<(), Fail> {
    let alloc = rt.alloc();
    for (room, answer, want) in [(5, Ok(()), "hello"), (2, Err(Failed), "he")] {
        let mut sink = MemorySink::new(alloc, room, Vec::new(alloc))?;
        assert_eq!(rt; write_whole(&mut sink, b"hello"), answer);
        assert_eq!(rt; sink.bytes(), want.as_bytes());
    }
    Ok(())
}

fn two_files(alloc: Global) -> Result<Vec<(Digest, Vec<u8>)>, AllocError> {
    let mut files = Vec::new(alloc);
    files.push(([1; 32], bytes(alloc, "first")?))?;
    files.push(([1; 32], bytes(alloc, "second one")?))?;
    files.push(([2; 32], Vec::new(alloc)))?;
    Ok(files)
}

#[test]
fn a_shelf_has_the_first_of_a_name(rt: HostRuntime) -> Result<(), Fail> {
    let alloc = rt.alloc();
    let mut shelf = MemoryShelf::new(two_files(alloc)?, numbers(alloc, &[3])?);
    let answers = [Ok(Some(5)), Ok(Some(0)), Err(Failed), Ok(None)];
    for (name, answer) in [[1; 32], [2; 32], [3; 32], [3; 32]].iter().zip(answers) {
        assert_eq!(rt; shelf.length(name), answer);
    }
    Ok(())
}

#[test]
fn a_shelf_is_read_from_a_place_on(rt: HostRuntime) -> Result<(), Fail> {
    let alloc = rt.alloc();
    let mut shelf = MemoryShelf::new(two_files(alloc)?, numbers(alloc, &[2])?);
    for (name, at, answer, want) in [
        ([1; 32], 1, Ok(3), *b"irs"),
        ([1; 32], 1, Err(Failed), *b"..."),
        ([1; 32], 4, Ok(1), *b"t.."),
        ([1; 32], u64::MAX, Ok(0), *b"..."),
        ([3; 32], 0, Ok(0), *b"..."),
    ] {
        let mut into = *b"...";
        assert_eq!(rt; (shelf.read(&name, at, &mut into), into), (answer, want));
    }
    Ok(())
}

#[test]
fn a_folder_is_a_shelf(rt: HostRuntime) -> Result<(), Fail> {
    fs::create_dir_all(&rt, "out/payloads")?;
    let path = "out/payloads/0a0a0a0a0a0a0a0a0a0a0a0a0a0a0a0a0a0a0a0a0a0a0a0a0a0a0a0a0a0a0a0a";
    fs::write(&rt, path, "hello")?;
    let folder = String::from_str(rt.alloc(), "out/payloads")?;
    let mut shelf = FolderShelf::new(rt.clone()?, folder);
    let lengths = [shelf.length(&[10; 32]), shelf.length(&[11; 32])];
    assert_eq!(rt; lengths, [Ok(Some(5)), Ok(None)]);
    for (name, at, answer, want) in [
        ([10; 32], 1, Ok(3), *b"ell"),
        ([10; 32], 5, Ok(0), *b"..."),
        ([11; 32], 0, Err(Failed), *b"..."),
    ] {
        let mut into = *b"...";
        assert_eq!(rt; (shelf.read(&name, at, &mut into), into), (answer, want));
    }
    fs::remove_dir_all(&rt, "out/payloads")?;
    Ok(())
}

// Gives one byte, then fails once, then ends; takes one byte of a piece, then none, then fails.
#[derive(Drop)]
struct Flaky {
    calls: u8,
}

impl Read for Flaky {
    fn read(&mut self, buf: &mut [u8]) -> io::Result<usize> {
        self.calls = self.calls.saturating_add(1);
        match self.calls {
            1 if !buf.is_empty() => {
                buf[0] = b'a';
                Ok(1)
            }
            2 => Err(Error::from(ErrorKind::Other)),
            _ => Ok(0),
        }
    }
}

impl Write for Flaky {
    fn write(&mut self, buf: &[u8]) -> io::Result<usize> {
        self.calls = self.calls.saturating_add(1);
        match self.calls {
            1 if !buf.is_empty() => Ok(1),
            2 => Ok(0),
            _ => Err(Error::from(ErrorKind::Other)),
        }
    }

    fn flush(&mut self) -> io::Result<()> {
        Ok(())
    }
}

#[test]
fn a_reader_is_a_source(rt: HostRuntime) {
    let mut source = ReadSource::new(Flaky { calls: 0 });
    let mut into = *b"....";
    let answers = [
        source.read(&mut into),
        source.read(&mut into),
        source.read(&mut into),
    ];
    assert_eq!(rt; (answers, into), ([Ok(1), Err(Failed), Ok(0)], *b"a..."));
}

#[test]
fn a_writer_is_a_sink(rt: HostRuntime) {
    let mut sink = WriteSink::new(Flaky { calls: 0 });
    let answers = [sink.write(b"abc"), sink.write(b"bc"), sink.write(b"bc")];
    assert_eq!(rt; answers, [Ok(1), Err(Failed), Err(Failed)]);
}

/// Reads bytes in memory through the adapter. They tell what is left, so what comes is known.
fn read_through(alloc: Global, bytes: &[u8]) -> Result<Vec<u8>, ReadStop>
    ensures { IfOk result (λ read. read.items ≡ bytes.now) }
{
    let mut source = ReadSource::new(bytes);
    read_whole(alloc, &mut source, 5)
}

/// Writes bytes through the adapter to a vector. It tells what it holds, so what it took is known.
fn written_through(alloc: Global, bytes: &[u8]) -> Result<Vec<u8>, Failed>
    ensures { IfOk result (λ written. written.items ≡ bytes.now) }
{
    let mut sink = WriteSink::new(Vec::new(alloc));
    write_whole(&mut sink, bytes)?;
    Ok(sink.into_inner())
}

#[test]
fn the_adapters_carry_what_memory_tells(rt: HostRuntime) -> Result<(), Fail> {
    let alloc = rt.alloc();
    for text in ["", "a", "hello"] {
        let bytes = text.as_bytes();
        assert_eq!(rt; read_through(alloc, bytes)?.as_slice(), bytes);
        assert_eq!(rt; written_through(alloc, bytes)?.as_slice(), bytes);
    }
    Ok(())
}

fn crosses_threads<T: Send + Drop>(_object: T) {}

#[test]
fn shelves_cross_threads_and_gates_are_shared(rt: HostRuntime) -> Result<(), Fail> {
    let alloc = rt.alloc();
    crosses_threads(MemoryShelf::new(Vec::new(alloc), Vec::new(alloc)));
    crosses_threads(FolderShelf::new(rt, String::new(alloc)));
    crosses_threads(MemorySource::new(Vec::new(alloc), 1, Vec::new(alloc)));
    crosses_threads(MemorySink::new(alloc, 0, Vec::new(alloc))?);
    crosses_threads(&NoGate);
    NoGate.at(1, 1, 0);
    Ok(())
}
