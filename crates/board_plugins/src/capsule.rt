//! # Capsule
//!
//! ## What it serves
//!
//! Devices whose new firmware comes in when the machine starts, such as the machine's own.
//!
//! ## Update behaviour
//!
//! The write stages the payload: the device goes on with its old firmware, and the next boot makes the
//! payload its firmware. Such a device has the flag `needs-reboot`; without it the update is judged by
//! the version that still runs, and fails. There is no detach and no attach. After the update the
//! daemon looks whether the device is still there.
//!
//! ## Rules
//!
//! It is better than `flash`: of two boards that are one device, the one that it serves goes first.
//!
//! ## Vetoes
//!
//! None.
ghost use Rattle.std.specs.Prelude.{◌≡◌, [], IfOk};
ghost use Rattle.emulated_boards.specs.Boards.{BoardStep, look, stage};
ghost use Rattle.emulated_boards.specs.Images.{payload_image};
ghost use Rattle.plugin_trait.specs.Steps.{Untouched};
ghost use Rattle.board_plugins.specs.Sheets.{capsule_sheet};

use crate::sheets::{listed, name, sheet_without_rules};
use block_pool::Payload;
use emulated_boards::{Board, BoardFault};
use fw_base::NoMemory;
use fw_facts::{MachineFacts, VetoRule};
use plugin_order::PluginSheet;
use plugin_trait::Plugin;
use std::alloc::Global;
use std::marker::Model;

/// The plugin `capsule`. Contracts see its sheet.
#[derive(Drop)]
pub struct Capsule {
    sheet: PluginSheet,
}

impl Model for Capsule {
    ghost use Rattle.plugin_order.specs.declared.sheet.PluginSheet.{PluginSheet};

    ghost Value = { PluginSheet };

    ghost view = { λ plugin. plugin.sheet };
}

impl Capsule {
    /// The plugin, before its startup.
    pub fn new(alloc: Global) -> Result<Capsule, NoMemory>
        ensures { IfOk result (λ plugin. plugin ≡ capsule_sheet) }
    {
        let mut sheet = sheet_without_rules(alloc, name(b"capsule"));
        sheet.better_than = listed(alloc, &[name(b"flash")])?;
        Ok(Capsule { sheet })
    }
}

impl Plugin for Capsule {
    ghost own_sheet = { λ plugin. plugin };

    ghost own_vetoes = { λ _. [] };

    ghost vetoes_on = { λ _ _. [] };

    ghost steps = { λ _. record {
      prepare = λ old answer new. Untouched old answer new;
      detach = λ old answer new. Untouched old answer new;
      write = λ entry payload old answer new. BoardStep old (stage entry (payload_image payload)) answer new;
      attach = λ old answer new. Untouched old answer new;
      reload = λ old answer new. BoardStep old look answer new;
      cleanup = λ old answer new. Untouched old answer new;
    } };

    fn sheet(&self) -> &PluginSheet {
        &self.sheet
    }

    fn vetoes(&self) -> &[VetoRule] {
        &[]
    }

    fn startup(&mut self, machine: &MachineFacts) {
        let _ = machine;
    }

    /// Nothing.
    fn prepare(&self, board: &mut Board) -> Result<(), BoardFault> {
        let _ = board;
        Ok(())
    }

    /// Nothing.
    fn detach(&self, board: &mut Board) -> Result<(), BoardFault> {
        let _ = board;
        Ok(())
    }

    /// Keeps the payload for the next boot.
    fn write(&self, board: &mut Board, entry: u32, payload: &Payload) -> Result<(), BoardFault> {
        board.stage(entry, payload)
    }

    /// Nothing.
    fn attach(&self, board: &mut Board) -> Result<(), BoardFault> {
        let _ = board;
        Ok(())
    }

    /// Looks whether the device is there.
    fn reload(&self, board: &mut Board) -> Result<(), BoardFault> {
        board.look()
    }

    /// Nothing.
    fn cleanup(&self, board: &mut Board) -> Result<(), BoardFault> {
        let _ = board;
        Ok(())
    }
}
