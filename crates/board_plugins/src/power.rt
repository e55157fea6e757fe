//! # Power
//!
//! ## What it serves
//!
//! Devices that are built into the machine, and must not lose power while they are written.
//!
//! ## Update behaviour
//!
//! As that of `flash`: the write programs the payload at once, and there is no detach and no attach.
//!
//! ## Rules
//!
//! It runs before `flash`, `loader` and `capsule`.
//!
//! ## Vetoes
//!
//! On a machine without external power: no update of a device with the flag `internal`, whichever plugin
//! serves it. On another machine none.
ghost use Rattle.std.specs.Prelude.{◌≡◌, [], IfOk};
ghost use Rattle.emulated_boards.specs.Boards.{BoardStep, look, program};
ghost use Rattle.emulated_boards.specs.Images.{payload_image};
ghost use Rattle.plugin_trait.specs.Steps.{Untouched};
ghost use Rattle.board_plugins.specs.Sheets.{power_sheet, power_vetoes};

use crate::sheets::{listed, name, sheet_without_rules};
use block_pool::Payload;
use emulated_boards::{Board, BoardFault};
use fw_base::NoMemory;
use fw_facts::{DeviceFlag, DeviceFlags, MachineFacts, MachineTest, VetoRule};
use plugin_order::PluginSheet;
use plugin_trait::Plugin;
use std::alloc::Global;
use std::marker::Model;

/// The plugin `power`. Contracts see its sheet and its vetoes.
#[derive(Drop)]
pub struct Power {
    sheet: PluginSheet,
    vetoes: Vec<VetoRule>,
}

impl Model for Power {
    ghost use Rattle.std.specs.Prelude.{◌≤◌, vec_capacity};
    ghost use Rattle.board_plugins.specs.Sheets.{PluginState};

    ghost Value = { PluginState };

    ghost view = { λ plugin. record { sheet = plugin.sheet; vetoes = plugin.vetoes.items } };

    ghost invariant = { λ plugin. 1 ≤ vec_capacity plugin.vetoes };
}

impl Power {
    /// The plugin, before its startup.
    pub fn new(alloc: Global) -> Result<Power, NoMemory>
        ensures { IfOk result (λ plugin. plugin ≡ record { sheet = power_sheet; vetoes = [] }) }
    {
        let mut sheet = sheet_without_rules(alloc, name(b"power"));
        let others = [name(b"flash"), name(b"loader"), name(b"capsule")];
        sheet.before = listed(alloc, &others)?;
        let vetoes = Vec::with_capacity(alloc, 1)?;
        Ok(Power { sheet, vetoes })
    }
}

impl Plugin for Power {
    ghost own_sheet = { λ plugin. plugin.sheet };

    ghost own_vetoes = { λ plugin. plugin.vetoes };

    ghost vetoes_on = { λ _ machine. power_vetoes machine };

    ghost steps = { λ _. record {
      prepare = λ old answer new. Untouched old answer new;
      detach = λ old answer new. Untouched old answer new;
      write = λ entry payload old answer new. BoardStep old (program entry (payload_image payload)) answer new;
      attach = λ old answer new. Untouched old answer new;
      reload = λ old answer new. BoardStep old look answer new;
      cleanup = λ old answer new. Untouched old answer new;
    } };

    fn sheet(&self) -> &PluginSheet {
        &self.sheet
    }

    fn vetoes(&self) -> &[VetoRule] {
        self.vetoes.as_slice()
    }

    fn startup(&mut self, machine: &MachineFacts) {
        self.vetoes.clear();
        if !machine.on_ac {
            self.vetoes.push_reserved(VetoRule {
                when: MachineTest::OnBattery,
                flags: DeviceFlags::empty().with(DeviceFlag::Internal),
            });
        }
    }

    /// Nothing.
    fn prepare(&self, board: &mut Board) -> Result<(), BoardFault> {
        let _ = board;
        Ok(())
    }

    /// Nothing.
    fn detach(&self, board: &mut Board) -> Result<(), BoardFault> {
        let _ = board;
        Ok(())
    }

    /// Makes the payload the device's firmware.
    fn write(&self, board: &mut Board, entry: u32, payload: &Payload) -> Result<(), BoardFault> {
        board.program(entry, payload)
    }

    /// Nothing.
    fn attach(&self, board: &mut Board) -> Result<(), BoardFault> {
        let _ = board;
        Ok(())
    }

    /// Looks whether the device is there.
    fn reload(&self, board: &mut Board) -> Result<(), BoardFault> {
        board.look()
    }

    /// Nothing.
    fn cleanup(&self, board: &mut Board) -> Result<(), BoardFault> {
        let _ = board;
        Ok(())
    }
}
