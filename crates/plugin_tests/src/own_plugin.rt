//! A plugin of one's own, proved against the trait alone, started and called through its box.
ghost use Rattle.emulated_boards.specs.Boards.{BoardStep, enter_loader, leave_loader, look, stage};
ghost use Rattle.emulated_boards.specs.Images.{payload_image};
ghost use Rattle.plugin_trait.specs.Steps.{Untouched};

use block_pool::Payload;
use emulated_boards::{Board, BoardFault};
use fw_base::{Listed, Name};
use fw_facts::{DeviceFlags, MachineFacts, MachineTest, VetoRule};
use plugin_order::PluginSheet;
use plugin_trait::{Plugin, start_all};
use std::alloc::Global;
use std::test::Fail;

/// Forbids every update while the lid is closed. It looks at a board before it stages a payload.
#[derive(Drop)]
struct Lid {
    sheet: PluginSheet,
    rules: [VetoRule; 1],
    is_closed: bool,
}

impl Plugin for Lid {
    ghost use Rattle.std.specs.Prelude.{[], if◌then◌else◌};

    ghost own_sheet = { λ lid. lid.sheet };

    ghost own_vetoes = { λ lid. if lid.is_closed then lid.rules else [] };

    ghost vetoes_on = { λ lid machine. if machine.lid_closed then lid.rules else [] };

    ghost steps = { λ _. record {
      prepare = λ old answer new. BoardStep old look answer new;
      detach = λ old answer new. BoardStep old enter_loader answer new;
      write = λ entry payload old answer new. BoardStep old (stage entry (payload_image payload)) answer new;
      attach = λ old answer new. BoardStep old leave_loader answer new;
      reload = λ old answer new. Untouched old answer new;
      cleanup = λ old answer new. Untouched old answer new;
    } };

    fn sheet(&self) -> &PluginSheet {
        &self.sheet
    }

    fn vetoes(&self) -> &[VetoRule] {
        if self.is_closed { &self.rules } else { &[] }
    }

    fn startup(&mut self, machine: &MachineFacts) {
        self.is_closed = machine.lid_closed;
    }

    fn prepare(&self, board: &mut Board) -> Result<(), BoardFault> {
        board.look()
    }

    fn detach(&self, board: &mut Board) -> Result<(), BoardFault> {
        board.enter_loader()
    }

    fn write(&self, board: &mut Board, entry: u32, payload: &Payload) -> Result<(), BoardFault> {
        board.stage(entry, payload)
    }

    fn attach(&self, board: &mut Board) -> Result<(), BoardFault> {
        board.leave_loader()
    }

    fn reload(&self, board: &mut Board) -> Result<(), BoardFault> {
        let _ = board;
        Ok(())
    }

    fn cleanup(&self, board: &mut Board) -> Result<(), BoardFault> {
        let _ = board;
        Ok(())
    }
}

fn make_lid(alloc: Global, name: &[u8]) -> Result<Lid, Fail> {
    let sheet = PluginSheet {
        name: Name::read(name)?,
        conflicts: Listed::of(Vec::new(alloc)),
        after: Listed::of(Vec::new(alloc)),
        before: Listed::of(Vec::new(alloc)),
        better_than: Listed::of(Vec::new(alloc)),
    };
    let rules = [VetoRule {
        when: MachineTest::LidClosed,
        flags: DeviceFlags::empty(),
    }];
    Ok(Lid {
        sheet,
        rules,
        is_closed: false,
    })
}

fn machine(alloc: Global, lid_closed: bool) -> MachineFacts {
    MachineFacts {
        ids: Listed::of(Vec::new(alloc)),
        hardware: Listed::of(Vec::new(alloc)),
        on_ac: true,
        power_low: false,
        lid_closed,
    }
}

fn put(alloc: Global, plugins: &mut Vec<Box<dyn Plugin>>, name: &[u8]) -> Result<(), Fail> {
    let lid = make_lid(alloc, name)?;
    plugins.push(Box::new(alloc, lid)?)?;
    Ok(())
}

fn two_lids(alloc: Global) -> Result<Vec<Box<dyn Plugin>>, Fail> {
    let mut plugins: Vec<Box<dyn Plugin>> = Vec::new(alloc);
    put(alloc, &mut plugins, b"one")?;
    put(alloc, &mut plugins, b"two")?;
    Ok(plugins)
}

const TURNS: [(bool, usize); 3] = [(false, 0), (true, 1), (false, 0)];

#[test]
fn each_plugin_is_started(rt: HostRuntime) -> Result<(), Fail> {
    let alloc = rt.alloc();
    let mut plugins = two_lids(alloc)?;
    for (lid_closed, vetoes) in &TURNS {
        start_all(&mut plugins, &machine(alloc, *lid_closed));
        for plugin in &plugins {
            assert_eq!(rt; plugin.vetoes().len(), *vetoes);
        }
    }
    assert_eq!(rt; plugins.len(), 2);
    assert_eq!(rt; plugins[1].sheet().name.bytes(), b"two".as_slice());
    Ok(())
}
