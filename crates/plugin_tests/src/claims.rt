//! Whole claims, through a plugin of the tests' own.
ghost use Rattle.std.specs.Prelude.{◌≡◌, ◌≤◌, ◌+◌, [], IfOk};
ghost use Rattle.emulated_boards.specs.Boards.{BoardStep, enter_loader, leave_loader, look, program};
ghost use Rattle.emulated_boards.specs.Images.{payload_image};
ghost use Rattle.plugin_trait.specs.Steps.{Untouched};

use crate::payloads::{NEW, OLD, sealed};
use block_pool::{Payload, Pool};
use device_claims::Begun;
use emulated_boards::{Board, BoardFault, Mark};
use fw_base::{Listed, Name};
use fw_facts::{DeviceFlag, DeviceFlags, MachineFacts, Mode, VetoRule};
use plugin_order::PluginSheet;
use plugin_trait::Plugin;
use sha2::{Digest as _, Sha256};
use std::alloc::Global;
use std::process::Abort;
use std::test::Fail;
use update_log::{Trace, TraceSteps};

#[derive(Drop)]
struct Bench {
    sheet: PluginSheet,
}

impl Plugin for Bench {
    ghost own_sheet = { λ bench. bench.sheet };

    ghost own_vetoes = { λ _. [] };

    ghost vetoes_on = { λ _ _. [] };

    ghost steps = { λ _. record {
      prepare = λ old answer new. Untouched old answer new;
      detach = λ old answer new. BoardStep old enter_loader answer new;
      write = λ entry payload old answer new. BoardStep old (program entry (payload_image payload)) answer new;
      attach = λ old answer new. BoardStep old leave_loader answer new;
      reload = λ old answer new. Untouched old answer new;
      cleanup = λ old answer new. Untouched old answer new;
    } };

    fn sheet(&self) -> &PluginSheet {
        &self.sheet
    }

    fn vetoes(&self) -> &[VetoRule] {
        &[]
    }

    fn startup(&mut self, machine: &MachineFacts) {
        let _ = machine;
    }

    fn prepare(&self, board: &mut Board) -> Result<(), BoardFault> {
        let _ = board;
        Ok(())
    }

    fn detach(&self, board: &mut Board) -> Result<(), BoardFault> {
        board.enter_loader()
    }

    fn write(&self, board: &mut Board, entry: u32, payload: &Payload) -> Result<(), BoardFault> {
        board.program(entry, payload)
    }

    fn attach(&self, board: &mut Board) -> Result<(), BoardFault> {
        board.leave_loader()
    }

    fn reload(&self, board: &mut Board) -> Result<(), BoardFault> {
        let _ = board;
        Ok(())
    }

    fn cleanup(&self, board: &mut Board) -> Result<(), BoardFault> {
        let _ = board;
        Ok(())
    }
}

// A claim from its first state to its last.
fn walk(claim: Begun, plugin: &dyn Plugin) -> (Board, Payload)
    ensures { result.1 ≡ claim.payload }
{
    let (ready, _) = claim.prepare(plugin);
    let loose = if ready.may_detach() {
        ready.detach(plugin).0
    } else {
        ready.stay()
    };
    let flashed = if loose.may_write() {
        loose.write(plugin).0
    } else {
        loose.skip()
    };
    let joined = if flashed.may_attach() {
        flashed.attach(plugin).0
    } else {
        flashed.stay()
    };
    let (reloaded, _) = joined.reload(plugin);
    let (closed, _) = reloaded.cleanup(plugin);
    closed.into_parts()
}

fn make_bench(alloc: Global) -> Result<Bench, Fail> {
    let name = Name::read(b"bench")?;
    Ok(Bench {
        sheet: PluginSheet {
            name,
            conflicts: Listed::of(Vec::new(alloc)),
            after: Listed::of(Vec::new(alloc)),
            before: Listed::of(Vec::new(alloc)),
            better_than: Listed::of(Vec::new(alloc)),
        },
    })
}

// The board behind a claim with these flags, of which one side fits.
fn claimed(
    rt: &impl Abort,
    alloc: Global,
    flags: DeviceFlags,
    fitting: Mode,
) -> Result<Board, Fail> {
    let bench = make_bench(alloc)?;
    let mut pool = Pool::new(alloc, 1)?;
    let mut board = Board::new(alloc, OLD, Vec::new(alloc));
    board.reserve_marks(4)?;
    let trace = Trace {
        flags,
        mode: Mode::Runtime,
        runtime_fits: fitting == Mode::Runtime,
        loader_fits: fitting == Mode::Bootloader,
        steps: TraceSteps::none(),
    };
    let payload = sealed(rt, &mut pool, NEW);
    let (board, payload) = walk(Begun::new(7, board, payload, trace), &bench);
    pool.give(payload.into_blocks());
    Ok(board)
}

const BEGAN: Mark = Mark::Began { entry: 7 };

fn ended() -> Mark {
    Mark::Ended {
        entry: 7,
        digest: Sha256::digest(NEW),
    }
}

#[test]
fn a_claim_of_a_plain_board_writes_at_once(rt: HostRuntime) -> Result<(), Fail> {
    let plain = DeviceFlags::empty();
    let fitting = claimed(&rt, rt.alloc(), plain, Mode::Runtime)?;
    assert!(rt; fitting.marks() == [BEGAN, ended()].as_slice());
    let other = claimed(&rt, rt.alloc(), plain, Mode::Bootloader)?;
    assert!(rt; other.marks().is_empty());
    Ok(())
}

#[test]
fn a_claim_by_the_bootloader_enters_and_leaves_it(rt: HostRuntime) -> Result<(), Fail> {
    let by_loader = DeviceFlags::empty().with(DeviceFlag::NeedsBootloader);
    let fitting = claimed(&rt, rt.alloc(), by_loader, Mode::Bootloader)?;
    assert!(rt; fitting.marks() == [Mark::Entered, BEGAN, ended(), Mark::Left].as_slice());
    let other = claimed(&rt, rt.alloc(), by_loader, Mode::Runtime)?;
    assert!(rt; other.marks() == [Mark::Entered, Mark::Left].as_slice());
    Ok(())
}
