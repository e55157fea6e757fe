//! The top call over the history in its file.
ghost use Rattle.std.specs.Prelude.{◌≡◌, ◌⊎◌, List, None, IfOk, map};
ghost use Rattle.outer_traits.specs.Faults.{Rose};
ghost use Rattle.client_plays.specs.Has.{shelves_told};
ghost use Rattle.command_words.specs.Commands.{command_of};
ghost use Rattle.history_keeper.specs.declared.row.Row.{Row};
ghost use Rattle.history_keeper.specs.Signs.{signs_of};
ghost use Rattle.history_sqlite.specs.Opened.{StartHolds};
ghost use Rattle.fwupd_service.specs.Commands.{WordsEnd};
ghost use Rattle.fwupd_service.specs.Plugged.{plugin_words};
ghost use Rattle.fwupd_service.specs.Reported.{KeepsMarks};
ghost use Rattle.site_making.specs.Settled.{vetoes_of};
ghost use Rattle.host_service.specs.Brought.{AreProgram, folder_shelves, program_plugins};
ghost use Rattle.host_service.specs.Over.{RanOver, WasOpened};

use crate::running::run_over_folder;
use fwupd_service::Ran;
use history_file::{HistoryFile, OnHeap};
use history_keeper::{Keeper, KeeperRefusal};
use outer_traits::{FolderShelf, Shelf, Sink, Source};
use plugin_trait::Plugin;
use report_queue::MarkKeeper;
use run_status::Status;
use sqlite::{Start, Unknown};
use std::rt::{HostRuntime, Runtime};
use std::sync::Wait;
use std::thread::Threads;

/// A keeper of the history that is opened from a file.
pub trait FileHistory: Keeper + Sized {
    /// These are the rows that the file held as it was opened.
    ghost held: { List Row → Type 0 };

    /// Opens the file at the path. Where it held rows of a history, the keeper tells no others. `Fault` comes where the
    /// file can't be opened or has other tables, and `NoMemory` where there was none for it.
    fn open_file(rt: &HostRuntime, path: &str) -> Result<Self, KeeperRefusal>
        ensures no_doubt { IfOk result (λ new. Self.doubt new ≡ None) }
        ensures no_others { IfOk result (λ new. (rows : List Row) → held rows → (all : List Row) → Self.tells new all → all ≡ rows) };
}

impl FileHistory for HistoryFile {
    ghost held = { StartHolds (⟦<Unknown as Start>⟧) };

    fn open_file(rt: &HostRuntime, path: &str) -> Result<HistoryFile, KeeperRefusal> {
        HistoryFile::open(rt, path)
    }
}

impl<K: FileHistory + Drop> FileHistory for OnHeap<K> {
    ghost held = { K.held };

    fn open_file(rt: &HostRuntime, path: &str) -> Result<OnHeap<K>, KeeperRefusal> {
        let keeper = K::open_file(rt, path)?;
        OnHeap::new(rt.alloc(), keeper)
    }
}

/// Opens the history in its file, and does all that the words say over it, as `run_over_folder` does. Where the file held
/// the rows of a history as it was opened, `over` says which the keeper tells as the run ends; `HistoryFile` tells them
/// while the disk returned what was written and the store is open.
///
/// `Fault` comes where the history can't be opened, and `NoMemory` where there was none for it or for the shelves; both
/// before anything was read or written.
pub fn run_over_file<
    R: Runtime + AllocGlobal + Threads + Wait + Sync,
    S: Source,
    K: FileHistory + Send + Drop,
    M: MarkKeeper + Drop,
    T: Sink,
>(
    rt: &R,
    host: &HostRuntime,
    words: &[&[u8]],
    source: &mut S,
    folder: &str,
    plugins: Vec<Box<dyn Plugin>>,
    history: &str,
    marks: M,
    out: &mut T,
) -> Result<Ran<FolderShelf<HostRuntime>, K, M>, KeeperRefusal>
    requires { AreProgram (map (λ p. own_sheet p) plugins.items) (λ machine. map (λ p. vetoes_of (own_sheet p) (vetoes_on p machine)) plugins.items) }
    ensures over { IfOk result (λ ran. (held : List Row) → K.held held → (left : List Row) → K.tells ran.keeper left → RanOver (command_of (map (λ word. word.now) words.now)) held left ran.opening ran.log) }
    ensures ends { IfOk result (λ ran. (keeper : K) × WasOpened K.held (signs_of K.tells K.doubt K.faults) keeper × WordsEnd (signs_of K.tells K.doubt K.faults)
        (program_plugins (plugin_words (λ p. own_sheet p) (λ p. own_vetoes p) (λ p. steps p)))
        (command_of (map (λ word. word.now) words.now)) ran.status keeper
        (record { log = ran.log; opening = ran.opening; boards = ran.boards; keeper = ran.keeper })
        (record { shelves = folder_shelves; unread = S.left source.old; written = T.taken out.old })
        (record {
          shelves = shelves_told (⟦<FolderShelf<HostRuntime> as Shelf>⟧).files (⟦<FolderShelf<HostRuntime> as Shelf>⟧).faults ran.shelves.items;
          unread = S.left source.new;
          written = T.taken out.new;
        })) }
    ensures source_fault { IfOk result (λ ran. ran.status ≡ Status.SourceFault → Rose (S.faults source.old) (S.faults source.new)) }
    ensures source_quiet { IfOk result (λ ran. (ran.status ≡ Status.SourceFault) ⊎ (S.faults source.new ≡ S.faults source.old)) }
    ensures sink_fault { IfOk result (λ ran. ran.status ≡ Status.SinkFault → Rose (T.faults out.old) (T.faults out.new)) }
    ensures sink_quiet { IfOk result (λ ran. (ran.status ≡ Status.SinkFault) ⊎ (T.faults out.new ≡ T.faults out.old)) }
    ensures own_marks { IfOk result (λ ran. KeepsMarks (command_of (map (λ word. word.now) words.now)) marks ran.marks) }
{
    let keeper = K::open_file(host, history)?;
    let ran = run_over_folder(rt, host, words, source, folder, plugins, keeper, marks, out)?;
    Ok(ran)
}
