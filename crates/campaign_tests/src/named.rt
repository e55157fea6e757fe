//! A plugin with a name and rules of the test's own.
ghost use Rattle.emulated_boards.specs.Boards.{BoardStep, look, program};
ghost use Rattle.emulated_boards.specs.Images.{payload_image};
ghost use Rattle.plugin_trait.specs.Steps.{Untouched};

use crate::meeting::Meeting;
use block_pool::Payload;
use board_plugins::Flash;
use emulated_boards::{Board, BoardFault};
use fw_base::{Listed, Name, NoMemory};
use fw_facts::{MachineFacts, VetoRule};
use plugin_order::PluginSheet;
use plugin_trait::Plugin;
use std::alloc::Global;
use std::sync::Arc;
use std::test::Fail;

/// The name of a plugin, the plugins that it runs after and conflicts with (an empty text is none), and whether
/// its writes are held up until the clients have met.
#[derive(Clone, Copy)]
pub(crate) struct Rules {
    pub(crate) name: &'static str,
    pub(crate) after: &'static str,
    pub(crate) conflicts: &'static str,
    pub(crate) holds: bool,
}

/// The plugins of most tests: `flash`, and another one that no board names.
pub(crate) const PLAIN: [Rules; 2] = [
    Rules {
        name: "flash",
        after: "",
        conflicts: "",
        holds: false,
    },
    Rules {
        name: "other",
        after: "",
        conflicts: "",
        holds: false,
    },
];

/// Does to a board what `flash` does.
#[derive(Drop)]
pub(crate) struct Named {
    sheet: PluginSheet,
    flash: Flash,
    meeting: Option<Arc<Meeting, Global>>,
}

fn listed(alloc: Global, name: &str) -> Result<Listed<Name>, NoMemory> {
    let mut names = Vec::new(alloc);
    if let Ok(name) = Name::read(name.as_bytes()) {
        names.push(name)?;
    }
    Ok(Listed::of(names))
}

fn sheet(alloc: Global, rules: &Rules) -> Result<PluginSheet, Fail> {
    Ok(PluginSheet {
        name: Name::read(rules.name.as_bytes())?,
        conflicts: listed(alloc, rules.conflicts)?,
        after: listed(alloc, rules.after)?,
        before: Listed::of(Vec::new(alloc)),
        better_than: Listed::of(Vec::new(alloc)),
    })
}

impl Named {
    /// The plugin with these rules.
    pub(crate) fn new(
        alloc: Global,
        rules: &Rules,
        meeting: &Arc<Meeting, Global>,
    ) -> Result<Named, Fail> {
        Ok(Named {
            sheet: sheet(alloc, rules)?,
            flash: Flash::new(alloc)?,
            meeting: if rules.holds {
                Some(Arc::try_clone(meeting)?)
            } else {
                None
            },
        })
    }
}

impl Plugin for Named {
    ghost use Rattle.std.specs.Prelude.{[]};

    ghost own_sheet = { λ plugin. plugin.sheet };

    ghost own_vetoes = { λ _. [] };

    ghost vetoes_on = { λ _ _. [] };

    ghost steps = { λ _. record {
      prepare = λ old answer new. Untouched old answer new;
      detach = λ old answer new. Untouched old answer new;
      write = λ entry payload old answer new. BoardStep old (program entry (payload_image payload)) answer new;
      attach = λ old answer new. Untouched old answer new;
      reload = λ old answer new. BoardStep old look answer new;
      cleanup = λ old answer new. Untouched old answer new;
    } };

    fn sheet(&self) -> &PluginSheet {
        &self.sheet
    }

    fn vetoes(&self) -> &[VetoRule] {
        &[]
    }

    fn startup(&mut self, machine: &MachineFacts) {
        let _ = machine;
    }

    fn prepare(&self, board: &mut Board) -> Result<(), BoardFault> {
        self.flash.prepare(board)
    }

    fn detach(&self, board: &mut Board) -> Result<(), BoardFault> {
        self.flash.detach(board)
    }

    fn write(&self, board: &mut Board, entry: u32, payload: &Payload) -> Result<(), BoardFault> {
        if let Some(meeting) = &self.meeting {
            meeting.hold();
        }
        self.flash.write(board, entry, payload)
    }

    fn attach(&self, board: &mut Board) -> Result<(), BoardFault> {
        self.flash.attach(board)
    }

    fn reload(&self, board: &mut Board) -> Result<(), BoardFault> {
        self.flash.reload(board)
    }

    fn cleanup(&self, board: &mut Board) -> Result<(), BoardFault> {
        self.flash.cleanup(board)
    }
}
