//! # Flash
//!
//! ## What it serves
//!
//! Devices that take a new firmware while they run the old one. It is the plainest of the plugins.
//!
//! ## Update behaviour
//!
//! The device stays as it is until the write, which programs the payload: from then on it is the
//! device's firmware. There is no detach and no attach. After the update the daemon looks whether the
//! device is still there.
//!
//! ## Rules
//!
//! None.
//!
//! ## Vetoes
//!
//! None.
ghost use Rattle.std.specs.Prelude.{◌≡◌, [], IfOk};
ghost use Rattle.emulated_boards.specs.Boards.{BoardStep, look, program};
ghost use Rattle.emulated_boards.specs.Images.{payload_image};
ghost use Rattle.plugin_trait.specs.Steps.{Untouched};
ghost use Rattle.board_plugins.specs.Sheets.{flash_sheet};

use crate::sheets::{name, sheet_without_rules};
use block_pool::Payload;
use emulated_boards::{Board, BoardFault};
use fw_base::NoMemory;
use fw_facts::{MachineFacts, VetoRule};
use plugin_order::PluginSheet;
use plugin_trait::Plugin;
use std::alloc::Global;
use std::marker::Model;

/// The plugin `flash`. Contracts see its sheet.
#[derive(Drop)]
pub struct Flash {
    sheet: PluginSheet,
}

impl Model for Flash {
    ghost use Rattle.plugin_order.specs.declared.sheet.PluginSheet.{PluginSheet};

    ghost Value = { PluginSheet };

    ghost view = { λ plugin. plugin.sheet };
}

impl Flash {
    /// The plugin, before its startup.
    pub fn new(alloc: Global) -> Result<Flash, NoMemory>
        ensures { IfOk result (λ plugin. plugin ≡ flash_sheet) }
    {
        let sheet = sheet_without_rules(alloc, name(b"flash"));
        Ok(Flash { sheet })
    }
}

impl Plugin for Flash {
    ghost own_sheet = { λ plugin. plugin };

    ghost own_vetoes = { λ _. [] };

    ghost vetoes_on = { λ _ _. [] };

    ghost steps = { λ _. record {
      prepare = λ old answer new. Untouched old answer new;
      detach = λ old answer new. Untouched old answer new;
      write = λ entry payload old answer new. BoardStep old (program entry (payload_image payload)) answer new;
      attach = λ old answer new. Untouched old answer new;
      reload = λ old answer new. BoardStep old look answer new;
      cleanup = λ old answer new. Untouched old answer new;
    } };

    fn sheet(&self) -> &PluginSheet {
        &self.sheet
    }

    fn vetoes(&self) -> &[VetoRule] {
        &[]
    }

    fn startup(&mut self, machine: &MachineFacts) {
        let _ = machine;
    }

    /// Nothing.
    fn prepare(&self, board: &mut Board) -> Result<(), BoardFault> {
        let _ = board;
        Ok(())
    }

    /// Nothing.
    fn detach(&self, board: &mut Board) -> Result<(), BoardFault> {
        let _ = board;
        Ok(())
    }

    /// Makes the payload the device's firmware.
    fn write(&self, board: &mut Board, entry: u32, payload: &Payload) -> Result<(), BoardFault> {
        board.program(entry, payload)
    }

    /// Nothing.
    fn attach(&self, board: &mut Board) -> Result<(), BoardFault> {
        let _ = board;
        Ok(())
    }

    /// Looks whether the device is there.
    fn reload(&self, board: &mut Board) -> Result<(), BoardFault> {
        board.look()
    }

    /// Nothing.
    fn cleanup(&self, board: &mut Board) -> Result<(), BoardFault> {
        let _ = board;
        Ok(())
    }
}
