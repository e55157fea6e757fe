//! The trait of plugins.
ghost use Rattle.std.specs.Prelude.{◌≡◌, ◌≤◌, List};
ghost use Rattle.plugin_order.specs.declared.sheet.PluginSheet.{PluginSheet};
ghost use Rattle.fw_facts.specs.declared.machine.MachineFacts.{MachineFacts};
ghost use Rattle.fw_facts.specs.declared.machine.VetoRule.{VetoRule};
ghost use Rattle.emulated_boards.specs.Images.{payload_image};
ghost use Rattle.emulated_boards.specs.declared.condition.Presence.TheVariants.{Home};
ghost use Rattle.plugin_trait.specs.Steps.{Plain, Detached, Attached, PluginSteps, Written};

use block_pool::Payload;
use emulated_boards::{Board, BoardFault};
use fw_facts::{MachineFacts, VetoRule};
use plugin_order::PluginSheet;

/// Knows how to update the firmware of some kind of device.
///
/// Its steps are those of an update, in the order of fwupd: prepare, detach, write, attach, reload,
/// cleanup. Each may use the board's own steps alone, and takes no memory. It is well exactly where the
/// board counted no fault in it. What exactly a step does is told by the plugin itself, by `steps`, as a
/// relation between the board before, the answer and the board after; so whoever calls a step can say that
/// this very call was made.
pub trait Plugin: Send + Sync + Drop {
    /// Its name and its rules.
    ghost own_sheet: { Self → PluginSheet };

    /// The vetoes that it has.
    ghost own_vetoes: { Self → List VetoRule };

    /// The vetoes that a startup on this machine leaves, told beforehand.
    ghost vetoes_on: { Self → MachineFacts → List VetoRule };

    /// What each of its steps gives.
    ghost steps: { Self → PluginSteps };

    /// Its name, and the plugins that it runs before and after, is better than and conflicts with.
    fn sheet(&self) -> &PluginSheet
        ensures { result.now ≡ own_sheet self.now };

    /// What keeps it from letting a device be updated, once it was started.
    fn vetoes(&self) -> &[VetoRule]
        ensures { result.now ≡ own_vetoes self.now };

    /// Looks at the machine. From then on its vetoes stay. Its sheet always does.
    fn startup(&mut self, machine: &MachineFacts)
        ensures vetoes { own_vetoes self.new ≡ vetoes_on self.old machine.now }
        ensures sheet { own_sheet self.new ≡ own_sheet self.old };

    /// Makes the board ready for an update.
    fn prepare(&self, board: &mut Board) -> Result<(), BoardFault>
        ensures own { (steps self.now).prepare board.old result board.new }
        ensures rules { Plain board.old result board.new };

    /// Brings the board into its boot loader, where it needs that.
    fn detach(&self, board: &mut Board) -> Result<(), BoardFault>
        requires { 1 ≤ board.old.room }
        ensures own { (steps self.now).detach board.old result board.new }
        ensures rules { Detached board.old result board.new };

    /// Writes the payload to the board, for an entry of the history.
    fn write(&self, board: &mut Board, entry: u32, payload: &Payload) -> Result<(), BoardFault>
        requires home { board.old.condition.presence ≡ Home }
        requires room { 2 ≤ board.old.room }
        ensures own { (steps self.now).write entry payload.now board.old result board.new }
        ensures rules { Written entry (payload_image payload.now) board.old result board.new };

    /// Brings the board out of its boot loader.
    fn attach(&self, board: &mut Board) -> Result<(), BoardFault>
        requires { 1 ≤ board.old.room }
        ensures own { (steps self.now).attach board.old result board.new }
        ensures rules { Attached board.old result board.new };

    /// Looks at the board again, once it may run another firmware.
    fn reload(&self, board: &mut Board) -> Result<(), BoardFault>
        ensures own { (steps self.now).reload board.old result board.new }
        ensures rules { Plain board.old result board.new };

    /// Ends the update.
    fn cleanup(&self, board: &mut Board) -> Result<(), BoardFault>
        ensures own { (steps self.now).cleanup board.old result board.new }
        ensures rules { Plain board.old result board.new };
}
