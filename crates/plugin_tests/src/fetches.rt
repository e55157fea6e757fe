//! What no clause says: that fetches succeed, and what they give on files from outside.
ghost use Rattle.std.specs.Prelude.{◌≡◌};

use block_pool::{HEAD_BYTES, Pool};
use daemon_core::Fetched;
use fw_base::Digest;
use install_engine::fetch_blocks;
use outer_traits::{Failed, MemoryShelf, Shelf};
use std::alloc::{AllocError, Global};
use std::test::Fail;

// SHA-256 of "abc", from the examples of FIPS 180-4.
const ABC: Digest = [
    0xba, 0x78, 0x16, 0xbf, 0x8f, 0x01, 0xcf, 0xea, 0x41, 0x41, 0x40, 0xde, 0x5d, 0xae, 0x22, 0x23,
    0xb0, 0x03, 0x61, 0xa3, 0x96, 0x17, 0x7a, 0x9c, 0xb4, 0x10, 0xff, 0x61, 0xf2, 0x00, 0x15, 0xad,
];

// SHA-256 of nothing.
const EMPTY: Digest = [
    0xe3, 0xb0, 0xc4, 0x42, 0x98, 0xfc, 0x1c, 0x14, 0x9a, 0xfb, 0xf4, 0xc8, 0x99, 0x6f, 0xb9, 0x24,
    0x27, 0xae, 0x41, 0xe4, 0x64, 0x9b, 0x93, 0x4c, 0xa4, 0x95, 0x99, 0x1b, 0x78, 0x52, 0xb8, 0x55,
];

// SHA-256 of the 9,000 bytes 0, 1, .. 250, 0, 1, .. by Python's hashlib.
const COUNTED: Digest = [
    0x4b, 0x81, 0xef, 0xbd, 0x20, 0x5e, 0x7f, 0xb4, 0xe4, 0x2b, 0xc0, 0xd7, 0x2d, 0x9d, 0x74, 0x13,
    0x64, 0x22, 0x98, 0x73, 0x52, 0x89, 0xd3, 0x5a, 0x74, 0xc1, 0x75, 0x58, 0x83, 0xbc, 0xc4, 0x5c,
];

const COUNTED_BYTES: u32 = 9000;

fn counted(alloc: Global) -> Result<Vec<u8>, AllocError> {
    let mut bytes = Vec::new(alloc);
    for k in 0..COUNTED_BYTES {
        bytes.push((k % 251) as u8)?;
    }
    Ok(bytes)
}

// A shelf with "abc", nothing, the counted bytes, and "abc" once more under a wrong name.
fn shelf(alloc: Global, failing: &[u32]) -> Result<MemoryShelf, AllocError> {
    let mut files = Vec::new(alloc);
    files.push((ABC, b"abc".to_vec(alloc)?))?;
    files.push((EMPTY, Vec::new(alloc)))?;
    files.push((COUNTED, counted(alloc)?))?;
    files.push((WRONG, b"abc".to_vec(alloc)?))?;
    Ok(MemoryShelf::new(files, failing.to_vec(alloc)?))
}

// The name of a file that has another SHA-256.
const WRONG: Digest = [0x11; 32];

// An answer without its blocks.
#[derive(Clone, Copy, Debug, PartialEq, Eq)]
enum Told {
    NoRoom,
    Whole {
        digest: Digest,
        len: u32,
        head: [u8; HEAD_BYTES],
    },
    Missing,
    Length(u64),
    Mismatch(Digest),
    ShelfFault,
}

fn shown(fetched: &Fetched) -> Told {
    match fetched {
        Fetched::Whole(payload) => {
            let (head, _) = payload.head();
            Told::Whole {
                digest: payload.digest(),
                len: payload.len(),
                head,
            }
        }
        Fetched::Missing(_) => Told::Missing,
        Fetched::Length { found, blocks: _ } => Told::Length(*found),
        Fetched::Mismatch { found, blocks: _ } => Told::Mismatch(*found),
        Fetched::ShelfFault(_) => Told::ShelfFault,
    }
}

// Fetches into the blocks of the size, and gives them back to the pool.
fn fetched<P: Shelf>(pool: &mut Pool, shelf: &mut P, name: &Digest, size: u32) -> Told
    ensures { pool.new.free ≡ pool.old.free }
{
    let Ok(blocks) = pool.take(size.div_ceil(4096)) else {
        return Told::NoRoom;
    };
    let fetched = fetch_blocks(shelf, name, size, blocks);
    let answer = shown(&fetched);
    pool.give(fetched.into_blocks());
    answer
}

fn whole(digest: Digest, len: u32, head: [u8; HEAD_BYTES]) -> Told {
    Told::Whole { digest, len, head }
}

const PAYLOADS: [(Digest, u32, [u8; HEAD_BYTES]); 3] = [
    (ABC, 3, [97, 98, 99, 0, 0, 0, 0, 0, 0, 0, 0, 0, 0, 0]),
    (EMPTY, 0, [0; HEAD_BYTES]),
    (
        COUNTED,
        COUNTED_BYTES,
        [0, 1, 2, 3, 4, 5, 6, 7, 8, 9, 10, 11, 12, 13],
    ),
];

#[test]
fn a_file_of_that_digest_and_size_is_the_payload(rt: HostRuntime) -> Result<(), Fail> {
    let mut shelf = shelf(rt.alloc(), &[])?;
    let mut pool = Pool::new(rt.alloc(), 3)?;
    for (name, size, head) in &PAYLOADS {
        let answer = fetched(&mut pool, &mut shelf, name, *size);
        assert_eq!(rt; answer, whole(*name, *size, *head), "size {size}");
    }
    // One call for each length, and one for each block.
    assert_eq!(rt; shelf.calls(), 3 + 4);
    Ok(())
}

const REFUSALS: [(Digest, u32, Told); 9] = [
    ([0; 32], 3, Told::Missing),
    ([0; 32], 0, Told::Missing),
    (ABC, 2, Told::Length(3)),
    (ABC, 0, Told::Length(3)),
    (ABC, 8192, Told::Length(3)),
    (COUNTED, 4096, Told::Length(9000)),
    (EMPTY, 1, Told::Length(0)),
    // Another length counts before another digest.
    (WRONG, 4, Told::Length(3)),
    (WRONG, 3, Told::Mismatch(ABC)),
];

#[test]
fn a_file_that_is_no_such_payload_is_refused(rt: HostRuntime) -> Result<(), Fail> {
    let mut shelf = shelf(rt.alloc(), &[])?;
    let mut pool = Pool::new(rt.alloc(), 3)?;
    for (name, size, want) in &REFUSALS {
        let answer = fetched(&mut pool, &mut shelf, name, *size);
        assert_eq!(rt; answer, *want, "size {size}");
    }
    Ok(())
}

#[test]
fn each_call_that_fails_ends_the_fetch(rt: HostRuntime) -> Result<(), Fail> {
    let mut pool = Pool::new(rt.alloc(), 3)?;
    for failing in 1..5 {
        let mut shelf = shelf(rt.alloc(), &[failing])?;
        let answer = fetched(&mut pool, &mut shelf, &COUNTED, COUNTED_BYTES);
        assert_eq!(rt; answer, Told::ShelfFault, "call {failing}");
        assert_eq!(rt; shelf.calls(), u64::from(failing));
        match fetched(&mut pool, &mut shelf, &COUNTED, COUNTED_BYTES) {
            Told::Whole {
                digest,
                len: _,
                head: _,
            } => assert!(rt; digest == COUNTED),
            other => assert!(rt; false, "{other:?} after call {failing}"),
        }
    }
    Ok(())
}

// Says a length, tells nothing, and gives few bytes at a time.
#[derive(Drop)]
struct Trickle {
    said: u64,
    bytes: Vec<u8>,
    piece: usize,
}

impl Shelf for Trickle {
    ghost use Rattle.std.specs.Prelude.{None};

    ghost files = { λ _. None };

    ghost faults = { λ _. 0 };

    fn length(&mut self, _name: &Digest) -> Result<Option<u64>, Failed> {
        Ok(Some(self.said))
    }

    fn read(&mut self, _name: &Digest, at: u64, into: &mut [u8]) -> Result<usize, Failed> {
        let start = self.bytes.len().min(at as usize);
        let (_, rest) = self.bytes.as_slice().split_at(start);
        let count = self.piece.min(rest.len()).min(into.len());
        into[..count].copy_from_slice(&rest[..count]);
        Ok(count)
    }
}

#[test]
fn bytes_may_come_in_pieces_of_any_length(rt: HostRuntime) -> Result<(), Fail> {
    let mut pool = Pool::new(rt.alloc(), 3)?;
    for piece in [7, 1000, 4095, 4096, 9000] {
        let mut shelf = Trickle {
            said: 9000,
            bytes: counted(rt.alloc())?,
            piece,
        };
        match fetched(&mut pool, &mut shelf, &COUNTED, COUNTED_BYTES) {
            Told::Whole {
                digest,
                len: _,
                head: _,
            } => assert!(rt; digest == COUNTED),
            other => assert!(rt; false, "{other:?} in pieces of {piece}"),
        }
    }
    Ok(())
}

#[test]
fn fewer_bytes_than_were_said_are_another_length(rt: HostRuntime) -> Result<(), Fail> {
    let mut pool = Pool::new(rt.alloc(), 3)?;
    for piece in [0, 7, 4096] {
        let mut shelf = Trickle {
            said: 9001,
            bytes: counted(rt.alloc())?,
            piece,
        };
        let came = if piece == 0 { 0 } else { 9000 };
        let answer = fetched(&mut pool, &mut shelf, &COUNTED, 9001);
        assert_eq!(rt; answer, Told::Length(came), "pieces of {piece}");
    }
    Ok(())
}

// What is lent to a client goes from thread to thread.
fn crosses_threads<T: Send>() {}

#[test]
fn answers_cross_threads() {
    crosses_threads::<Fetched>();
}
