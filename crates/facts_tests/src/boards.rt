ghost use Rattle.std.specs.Prelude.{◌≡◌, ◌+◌, ◌<◌, ◌≤◌, [], ◌∷◌};
ghost use Rattle.emulated_boards.specs.declared.condition.Presence.TheVariants.{Home};

use block_pool::{BadBlocks, Payload, Pool};
use emulated_boards::*;
use fw_facts::{Mode, Seen};
use sha2::{Digest as _, Sha256};
use std::process::Abort;
use std::test::Fail;

#[test]
fn an_image_is_good_by_its_first_fourteen_bytes(rt: HostRuntime) {
    let rows = [
        (b"EMU1 00010203\n".as_slice(), Some(0x0001_0203)),
        (b"EMU1 00010203\nand more".as_slice(), Some(0x0001_0203)),
        (b"EMU1 DeadBeef\n".as_slice(), Some(0xdead_beef)),
        (b"EMU1 00000000\n".as_slice(), Some(0)),
        (b"EMU1 ffffffff\n".as_slice(), Some(0xffff_ffff)),
        (b"EMU1 0001020\n".as_slice(), None),
        (b"EMU1 000102033".as_slice(), None),
        (b"EMU1 0001020g\n".as_slice(), None),
        (b"EMU1 +0010203\n".as_slice(), None),
        (b"EMU2 00010203\n".as_slice(), None),
        (b"EMU1 00010203".as_slice(), None),
        (b"".as_slice(), None),
    ];
    for (bytes, want) in rows {
        assert_eq!(rt; image_raw(bytes), want, "{bytes:?}");
    }
}

const OLD: &[u8] = b"EMU1 00010000\n";

const NEW: &[u8] = b"EMU1 00010100\n";

const OLD_RAW: u32 = 0x0001_0000;

const NEW_RAW: u32 = 0x0001_0100;

fn shows(raw: u32, mode: Mode) -> Seen {
    Seen::Home { raw, mode }
}

// A payload of these bytes.
fn sealed(rt: &impl Abort, pool: &mut Pool, bytes: &[u8]) -> Payload
    ensures conserved { pool.new.free + result.count ≡ pool.old.free }
    ensures capacity { pool.new.capacity ≡ pool.old.capacity }
{
    assert!(rt; bytes.len() <= 4096);
    let digest = Sha256::digest(bytes);
    let mut blocks = pool.take(1).expect(rt, "a block");
    blocks.fill(0, bytes);
    match blocks.seal(bytes.len() as u32, &digest) {
        Ok(payload) => payload,
        Err(BadBlocks { found: _, blocks }) => {
            pool.give(blocks);
            panic!(rt; "the bytes have this digest")
        }
    }
}

#[test]
fn a_write_in_the_boot_loader(rt: HostRuntime) -> Result<(), Fail> {
    let mut pool = Pool::new(rt.alloc(), 1)?;
    let mut board = Board::new(rt.alloc(), OLD, Vec::new(rt.alloc()));
    assert_eq!(rt; board.view(), shows(OLD_RAW, Mode::Runtime));
    board.reserve_marks(4)?;
    let payload = sealed(&rt, &mut pool, NEW);
    let digest = payload.digest();
    let entered = board.enter_loader();
    let written = board.program(7, &payload);
    pool.give(payload.into_blocks());
    assert_eq!(rt; entered, Ok(()));
    assert_eq!(rt; written, Ok(()));
    assert_eq!(rt; board.view(), shows(NEW_RAW, Mode::Bootloader));
    assert_eq!(rt; board.look(), Ok(()));
    assert_eq!(rt; board.leave_loader(), Ok(()));
    assert_eq!(rt; board.view(), shows(NEW_RAW, Mode::Runtime));
    let marks = [
        Mark::Entered,
        Mark::Began { entry: 7 },
        Mark::Ended { entry: 7, digest },
        Mark::Left,
    ];
    assert!(rt; board.marks() == marks.as_slice());
    Ok(())
}

// A board with one planned fault.
fn faulty(rt: &(impl Abort + AllocGlobal), image: &[u8], call: u32, fault: BoardFault) -> Board
    requires { 0 < call }
    ensures room { 2 ≤ result.room }
    ensures home { result.condition.presence ≡ Home }
    ensures plan { result.plan ≡ record { call = call; fault = fault } ∷ [] }
    ensures calls { result.calls ≡ 0 }
{
    let mut faults = Vec::new(rt.alloc());
    faults
        .push(PlannedFault { call, fault })
        .expect(rt, "memory");
    let mut board = Board::new(rt.alloc(), image, faults);
    board.reserve_marks(2).expect(rt, "memory");
    board
}

#[test]
fn a_torn_write_leaves_a_bad_image(rt: HostRuntime) -> Result<(), Fail> {
    let mut pool = Pool::new(rt.alloc(), 1)?;
    let mut board = faulty(&rt, OLD, 1, BoardFault::Torn);
    let payload = sealed(&rt, &mut pool, NEW);
    let written = board.program(1, &payload);
    pool.give(payload.into_blocks());
    assert_eq!(rt; written, Err(BoardFault::Torn));
    assert_eq!(rt; board.view(), shows(0, Mode::Bootloader));
    assert!(rt; board.marks() == [Mark::Began { entry: 1 }].as_slice());
    board.boot(false);
    assert_eq!(rt; board.view(), shows(0, Mode::Bootloader));
    Ok(())
}

#[test]
fn a_staged_image_waits_for_the_boot(rt: HostRuntime) -> Result<(), Fail> {
    let mut pool = Pool::new(rt.alloc(), 1)?;
    let mut board = faulty(&rt, OLD, 9, BoardFault::Failed);
    let payload = sealed(&rt, &mut pool, NEW);
    let staged = board.stage(1, &payload);
    pool.give(payload.into_blocks());
    assert_eq!(rt; staged, Ok(()));
    board.unplug();
    assert_eq!(rt; board.view(), Seen::Gone);
    board.plug();
    assert_eq!(rt; board.view(), shows(OLD_RAW, Mode::Runtime));
    board.boot(true);
    assert_eq!(rt; board.view(), Seen::Gone);
    board.plug();
    assert_eq!(rt; board.view(), shows(NEW_RAW, Mode::Runtime));
    Ok(())
}

#[test]
fn a_board_leaves_its_port_at_the_planned_call(rt: HostRuntime) {
    for (fault, seen) in [
        (BoardFault::Gone, Seen::Gone),
        (BoardFault::Stranger, Seen::Stranger),
        (BoardFault::Failed, shows(OLD_RAW, Mode::Runtime)),
        (BoardFault::Torn, shows(OLD_RAW, Mode::Runtime)),
    ] {
        let mut board = faulty(&rt, OLD, 2, fault);
        assert_eq!(rt; board.look(), Ok(()));
        assert_eq!(rt; board.look(), Err(fault));
        assert_eq!(rt; board.view(), seen);
        assert_eq!(rt; board.look(), Ok(()));
    }
}

#[test]
fn faults_say_what_happened(rt: HostRuntime) -> Result<(), Fail> {
    for (fault, want) in [
        (BoardFault::Failed, "the step failed"),
        (BoardFault::Torn, "the write was torn"),
        (BoardFault::Gone, "the board is gone"),
        (BoardFault::Stranger, "another board stands in the port"),
    ] {
        let text = fault.to_string(rt.alloc())?;
        assert_eq!(rt; text.as_str(), want);
    }
    Ok(())
}

// A board goes to the thread of the client that updates it.
fn crosses_threads<T: Send>() {}

#[test]
fn boards_cross_threads() {
    crosses_threads::<Board>();
}
