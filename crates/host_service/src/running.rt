//! The top call over what the program brings.
ghost use Rattle.std.specs.Prelude.{◌≡◌, ◌⊎◌, ◌≤◌, None, IfOk, map};
ghost use Rattle.outer_traits.specs.Faults.{Rose};
ghost use Rattle.history_keeper.specs.Signs.{signs_of};
ghost use Rattle.client_plays.specs.Has.{shelves_told};
ghost use Rattle.command_words.specs.Commands.{command_of};
ghost use Rattle.report_queue.specs.Marking.{OverTold};
ghost use Rattle.fwupd_service.specs.Commands.{WordsEnd};
ghost use Rattle.fwupd_service.specs.Plugged.{plugin_words};
ghost use Rattle.fwupd_service.specs.Reported.{FaultTold, KeepsMarks, MarksTold};
ghost use Rattle.site_making.specs.Settled.{vetoes_of};
ghost use Rattle.host_service.specs.Brought.{AreProgram, folder_shelves, program_plugins};

use crate::brought::shelves_over;
use fw_base::NoMemory;
use fwupd_service::{Ran, run_campaign};
use history_keeper::Keeper;
use outer_traits::{FolderShelf, NoGate, Shelf, Sink, Source};
use plugin_trait::Plugin;
use report_queue::MarkKeeper;
use run_status::Status;
use std::rt::{HostRuntime, Runtime};
use std::sync::Wait;
use std::thread::Threads;

/// Makes sixteen shelves over the folder, and does all that the words say, as `run_campaign` does over them and the
/// program's four plugins, which are handed in. The keeper is in no doubt. `NoMemory` comes where there was none for
/// the shelves, before anything was read or written.
pub fn run_over_folder<
    R: Runtime + AllocGlobal + Threads + Wait + Sync,
    S: Source,
    K: Keeper + Send + Drop,
    M: MarkKeeper + Drop,
    T: Sink,
>(
    rt: &R,
    host: &HostRuntime,
    words: &[&[u8]],
    source: &mut S,
    folder: &str,
    plugins: Vec<Box<dyn Plugin>>,
    keeper: K,
    marks: M,
    out: &mut T,
) -> Result<Ran<FolderShelf<HostRuntime>, K, M>, NoMemory>
    requires four { AreProgram (map (λ p. own_sheet p) plugins.items) (λ machine. map (λ p. vetoes_of (own_sheet p) (vetoes_on p machine)) plugins.items) }
    requires no_doubt { K.doubt keeper ≡ None }
    ensures ends { IfOk result (λ ran. WordsEnd (signs_of K.tells K.doubt K.faults)
        (program_plugins (plugin_words (λ p. own_sheet p) (λ p. own_vetoes p) (λ p. steps p)))
        (command_of (map (λ word. word.now) words.now)) ran.status keeper
        (record { log = ran.log; opening = ran.opening; boards = ran.boards; keeper = ran.keeper })
        (record { shelves = folder_shelves; unread = S.left source.old; written = T.taken out.old })
        (record {
          shelves = shelves_told (⟦<FolderShelf<HostRuntime> as Shelf>⟧).files (⟦<FolderShelf<HostRuntime> as Shelf>⟧).faults ran.shelves.items;
          unread = S.left source.new;
          written = T.taken out.new;
        })) }
    ensures source_fault { IfOk result (λ ran. ran.status ≡ Status.SourceFault → Rose (S.faults source.old) (S.faults source.new)) }
    ensures source_quiet { IfOk result (λ ran. (ran.status ≡ Status.SourceFault) ⊎ (S.faults source.new ≡ S.faults source.old)) }
    ensures sink_fault { IfOk result (λ ran. ran.status ≡ Status.SinkFault → Rose (T.faults out.old) (T.faults out.new)) }
    ensures sink_quiet { IfOk result (λ ran. (ran.status ≡ Status.SinkFault) ⊎ (T.faults out.new ≡ T.faults out.old)) }
    ensures own_marks { IfOk result (λ ran. KeepsMarks (command_of (map (λ word. word.now) words.now)) marks ran.marks) }
    ensures marks_told { IfOk result (λ ran. OverTold (M.tells marks) (M.tells ran.marks) (λ before after. MarksTold K.tells (command_of (map (λ word. word.now) words.now)) ran.status keeper
        (record { log = ran.log; opening = ran.opening; boards = ran.boards; keeper = ran.keeper })
        (record { marks = before; doubt = M.doubt marks; taken = T.taken out.old })
        (record { marks = after; doubt = M.doubt ran.marks; taken = T.taken out.new }))) }
    ensures fault_told { IfOk result (λ ran. FaultTold (command_of (map (λ word. word.now) words.now)) ran.status (record { history = K.faults keeper; marks = M.faults marks }) (record { history = K.faults ran.keeper; marks = M.faults ran.marks })) }
    ensures marks_counts { IfOk result (λ ran. M.faults marks ≤ M.faults ran.marks) }
{
    let shelves = shelves_over(host, folder)?;
    Ok(run_campaign(
        rt,
        rt.alloc(),
        words,
        source,
        shelves,
        keeper,
        marks,
        plugins,
        &NoGate,
        out,
    ))
}
