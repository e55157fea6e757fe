//! The top call.
ghost use Rattle.std.specs.Prelude.{◌≡◌, ◌⊎◌, ◌↔◌, ◌≤◌, length, map, None, Some};
ghost use Rattle.outer_traits.specs.Faults.{Rose};
ghost use Rattle.history_keeper.specs.Signs.{signs_of};
ghost use Rattle.client_plays.specs.Tools.{ShelvesStay};
ghost use Rattle.client_plays.specs.Has.{shelves_told};
ghost use Rattle.command_words.specs.Commands.{command_of};
ghost use Rattle.fwupd_service.specs.Commands.{CommandEnds, CommandFits, KeepsShelves, WordsEnd};
ghost use Rattle.fwupd_service.specs.Plugged.{plugins_of};
ghost use Rattle.fwupd_service.specs.Reported.{FaultTold, KeepsMarks, MarksTold};
ghost use Rattle.report_queue.specs.Marking.{OverTold};

use crate::make::make;
use crate::others::{run_check, run_explain, run_ids, run_remotes};
use crate::planning::plan;
use crate::ran::{Ran, RunLeft};
use crate::report::report;
use crate::run::run;
use crate::update::update;
use command_words::{Command, WordsFault, read_words};
use history_keeper::Keeper;
use outer_traits::{Gate, Shelf, Sink, Source};
use plugin_trait::Plugin;
use report_queue::MarkKeeper;
use run_status::Status;
use std::alloc::Global;
use std::sync::Wait;
use std::thread::Threads;

/// Does all that the program does: reads the words, does what the command says, and tells how it ended.
///
/// `run` reads a document from the source, plays its campaign over the shelves, the keeper and the plugins,
/// and writes the report of what happened to the sink. `plan` writes which installs bring each device as far as
/// it can come, and `update` plays them in the document's first boot. `make` plays a generated campaign over a keeper and
/// shelves of its own, and writes what its log counts. `check`, `remotes`, `explain` and `ids` play none, and neither does
/// `report`: it reads the history of the keeper, and writes a line for each judged row that isn't marked, which it marks
/// before. The clients of a boot run on threads, and the gate is told of each step of a client before it is made. There
/// are at most 64 plugins, and the keeper of the history is in no doubt.
pub fn run_campaign<
    R: Threads + Wait + Sync,
    S: Source,
    P: Shelf + Send,
    K: Keeper + Send,
    M: MarkKeeper,
    T: Sink,
    G: Gate + Sync,
>(
    rt: &R,
    alloc: Global,
    words: &[&[u8]],
    source: &mut S,
    shelves: Vec<P>,
    keeper: K,
    marks: M,
    plugins: Vec<Box<dyn Plugin>>,
    gate: &G,
    out: &mut T,
) -> Ran<P, K, M>
    requires few_plugins { length plugins.items ≤ 64 }
    requires no_doubt { K.doubt keeper ≡ None }
    // What the words make of it: the status, and under each what came, what is true of the log and the boards
    // that are returned, how the keeper and the shelves stand to them, and what was written.
    ensures ends { WordsEnd (signs_of K.tells K.doubt K.faults)
        (plugins_of (λ p. own_sheet p) (λ p. vetoes_on p) (λ p. own_vetoes p) (λ p. steps p) plugins.items)
        (command_of (map (λ word. word.now) words.now)) result.status keeper
        (record { log = result.log; opening = result.opening; boards = result.boards; keeper = result.keeper })
        (record { shelves = shelves_told P.files P.faults shelves.items; unread = S.left source.old; written = T.taken out.old })
        (record { shelves = shelves_told P.files P.faults result.shelves.items; unread = S.left source.new; written = T.taken out.new }) }
    ensures source_fault { result.status ≡ Status.SourceFault → Rose (S.faults source.old) (S.faults source.new) }
    ensures source_quiet { (result.status ≡ Status.SourceFault) ⊎ (S.faults source.new ≡ S.faults source.old) }
    ensures sink_fault { result.status ≡ Status.SinkFault → Rose (T.faults out.old) (T.faults out.new) }
    ensures sink_quiet { (result.status ≡ Status.SinkFault) ⊎ (T.faults out.new ≡ T.faults out.old) }
    ensures source_counts { S.faults source.old ≤ S.faults source.new }
    ensures sink_counts { T.faults out.old ≤ T.faults out.new }
    // The shelves come back, each with its files, and but for `run` and `update` they are those that came.
    ensures shelves { ShelvesStay (shelves_told P.files P.faults shelves.items) (shelves_told P.files P.faults result.shelves.items) }
    ensures own_shelves { KeepsShelves (command_of (map (λ word. word.now) words.now)) shelves.items result.shelves.items }
    // The marks: those that came, but under `report`, of which it is told what was marked and written.
    ensures own_marks { KeepsMarks (command_of (map (λ word. word.now) words.now)) marks result.marks }
    ensures marks_told { OverTold (M.tells marks) (M.tells result.marks) (λ before after. MarksTold K.tells (command_of (map (λ word. word.now) words.now)) result.status keeper
        (record { log = result.log; opening = result.opening; boards = result.boards; keeper = result.keeper })
        (record { marks = before; doubt = M.doubt marks; taken = T.taken out.old })
        (record { marks = after; doubt = M.doubt result.marks; taken = T.taken out.new })) }
    ensures fault_told { FaultTold (command_of (map (λ word. word.now) words.now)) result.status (record { history = K.faults keeper; marks = M.faults marks }) (record { history = K.faults result.keeper; marks = M.faults result.marks }) }
    ensures marks_counts { M.faults marks ≤ M.faults result.marks }
{
    match read_words(alloc, words) {
        Ok(command) => obey(
            rt, alloc, &command, source, shelves, keeper, marks, plugins, gate, out,
        ),
        Err(WordsFault::Usage) => {
            RunLeft::nothing(alloc, Status::Usage, shelves, keeper).with_marks(marks)
        }
        Err(WordsFault::NoMemory) => {
            RunLeft::nothing(alloc, Status::NoMemory, shelves, keeper).with_marks(marks)
        }
    }
}

/// Does what the command says.
fn obey<
    R: Threads + Wait + Sync,
    S: Source,
    P: Shelf + Send,
    K: Keeper + Send,
    M: MarkKeeper,
    T: Sink,
    G: Gate + Sync,
>(
    rt: &R,
    alloc: Global,
    command: &Command,
    source: &mut S,
    shelves: Vec<P>,
    keeper: K,
    marks: M,
    plugins: Vec<Box<dyn Plugin>>,
    gate: &G,
    out: &mut T,
) -> Ran<P, K, M>
    requires fits { CommandFits command.now }
    requires few_plugins { length plugins.items ≤ 64 }
    requires no_doubt { K.doubt keeper ≡ None }
    ensures ends { CommandEnds (signs_of K.tells K.doubt K.faults)
        (plugins_of (λ p. own_sheet p) (λ p. vetoes_on p) (λ p. own_vetoes p) (λ p. steps p) plugins.items)
        command.now result.status keeper
        (record { log = result.log; opening = result.opening; boards = result.boards; keeper = result.keeper })
        (record { shelves = shelves_told P.files P.faults shelves.items; unread = S.left source.old; written = T.taken out.old })
        (record { shelves = shelves_told P.files P.faults result.shelves.items; unread = S.left source.new; written = T.taken out.new }) }
    ensures source_fault { result.status ≡ Status.SourceFault → Rose (S.faults source.old) (S.faults source.new) }
    ensures source_quiet { (result.status ≡ Status.SourceFault) ⊎ (S.faults source.new ≡ S.faults source.old) }
    ensures sink_fault { result.status ≡ Status.SinkFault → Rose (T.faults out.old) (T.faults out.new) }
    ensures sink_quiet { (result.status ≡ Status.SinkFault) ⊎ (T.faults out.new ≡ T.faults out.old) }
    ensures source_counts { S.faults source.old ≤ S.faults source.new }
    ensures sink_counts { T.faults out.old ≤ T.faults out.new }
    ensures shelves { ShelvesStay (shelves_told P.files P.faults shelves.items) (shelves_told P.files P.faults result.shelves.items) }
    ensures own_shelves { KeepsShelves (Some command.now) shelves.items result.shelves.items }
    ensures own_marks { KeepsMarks (Some command.now) marks result.marks }
    ensures marks_told { OverTold (M.tells marks) (M.tells result.marks) (λ before after. MarksTold K.tells (Some command.now) result.status keeper
        (record { log = result.log; opening = result.opening; boards = result.boards; keeper = result.keeper })
        (record { marks = before; doubt = M.doubt marks; taken = T.taken out.old })
        (record { marks = after; doubt = M.doubt result.marks; taken = T.taken out.new })) }
    ensures fault_told { FaultTold (Some command.now) result.status (record { history = K.faults keeper; marks = M.faults marks }) (record { history = K.faults result.keeper; marks = M.faults result.marks }) }
    ensures marks_counts { M.faults marks ≤ M.faults result.marks }
{
    match command {
        Command::Run => {
            run(rt, alloc, source, shelves, keeper, plugins, gate, out).with_marks(marks)
        }
        Command::Make { boards, clients } => make(
            rt, alloc, *boards, *clients, shelves, keeper, plugins, gate, out,
        )
        .with_marks(marks),
        Command::Plan { tag } => {
            plan(alloc, source, *tag, shelves, keeper, plugins, out).with_marks(marks)
        }
        Command::Update { tag } => update(
            rt, alloc, source, *tag, shelves, keeper, plugins, gate, out,
        ).with_marks(marks),
        Command::Check => run_check(alloc, source, shelves, keeper, out).with_marks(marks),
        Command::Remotes => run_remotes(alloc, source, shelves, keeper, out).with_marks(marks),
        Command::Explain { port, version } => run_explain(
            alloc, source, *port, *version, shelves, keeper, plugins, out,
        )
        .with_marks(marks),
        Command::Ids { texts } => {
            run_ids(alloc, texts.items(), shelves, keeper, out).with_marks(marks)
        }
        Command::Report { max } => report(alloc, *max, shelves, keeper, marks, out),
    }
}
