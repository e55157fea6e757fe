//! # Loader
//!
//! ## What it serves
//!
//! Devices that take a new firmware from their boot loader.
//!
//! ## Update behaviour
//!
//! The detach brings the device into its boot loader, where the write programs the payload. The attach
//! brings it back to run the firmware, where that is a good image. After the update the daemon looks
//! whether the device is still there. Whether there is a detach at all is said by the device's flag
//! `needs-bootloader`.
//!
//! ## Rules
//!
//! None.
//!
//! ## Vetoes
//!
//! None.
ghost use Rattle.std.specs.Prelude.{◌≡◌, [], IfOk};
ghost use Rattle.emulated_boards.specs.Boards.{BoardStep, enter_loader, leave_loader, look, program};
ghost use Rattle.emulated_boards.specs.Images.{payload_image};
ghost use Rattle.plugin_trait.specs.Steps.{Untouched};
ghost use Rattle.board_plugins.specs.Sheets.{loader_sheet};

use crate::sheets::{name, sheet_without_rules};
use block_pool::Payload;
use emulated_boards::{Board, BoardFault};
use fw_base::NoMemory;
use fw_facts::{MachineFacts, VetoRule};
use plugin_order::PluginSheet;
use plugin_trait::Plugin;
use std::alloc::Global;
use std::marker::Model;

/// The plugin `loader`. Contracts see its sheet.
#[derive(Drop)]
pub struct Loader {
    sheet: PluginSheet,
}

impl Model for Loader {
    ghost use Rattle.plugin_order.specs.declared.sheet.PluginSheet.{PluginSheet};

    ghost Value = { PluginSheet };

    ghost view = { λ plugin. plugin.sheet };
}

impl Loader {
    /// The plugin, before its startup.
    pub fn new(alloc: Global) -> Result<Loader, NoMemory>
        ensures { IfOk result (λ plugin. plugin ≡ loader_sheet) }
    {
        let sheet = sheet_without_rules(alloc, name(b"loader"));
        Ok(Loader { sheet })
    }
}

impl Plugin for Loader {
    ghost own_sheet = { λ plugin. plugin };

    ghost own_vetoes = { λ _. [] };

    ghost vetoes_on = { λ _ _. [] };

    ghost steps = { λ _. record {
      prepare = λ old answer new. Untouched old answer new;
      detach = λ old answer new. BoardStep old enter_loader answer new;
      write = λ entry payload old answer new. BoardStep old (program entry (payload_image payload)) answer new;
      attach = λ old answer new. BoardStep old leave_loader answer new;
      reload = λ old answer new. BoardStep old look answer new;
      cleanup = λ old answer new. Untouched old answer new;
    } };

    fn sheet(&self) -> &PluginSheet {
        &self.sheet
    }

    fn vetoes(&self) -> &[VetoRule] {
        &[]
    }

    fn startup(&mut self, machine: &MachineFacts) {
        let _ = machine;
    }

    /// Nothing.
    fn prepare(&self, board: &mut Board) -> Result<(), BoardFault> {
        let _ = board;
        Ok(())
    }

    /// Enters the boot loader.
    fn detach(&self, board: &mut Board) -> Result<(), BoardFault> {
        board.enter_loader()
    }

    /// Makes the payload the device's firmware.
    fn write(&self, board: &mut Board, entry: u32, payload: &Payload) -> Result<(), BoardFault> {
        board.program(entry, payload)
    }

    /// Leaves the boot loader.
    fn attach(&self, board: &mut Board) -> Result<(), BoardFault> {
        board.leave_loader()
    }

    /// Looks whether the device is there.
    fn reload(&self, board: &mut Board) -> Result<(), BoardFault> {
        board.look()
    }

    /// Nothing.
    fn cleanup(&self, board: &mut Board) -> Result<(), BoardFault> {
        let _ = board;
        Ok(())
    }
}
