//! What a run leaves.
ghost use Rattle.std.specs.Prelude.{◌≡◌, [], None, option_map};

use daemon_core::HomeBoards;
use fw_base::Listed;
use history_keeper::Row;
use run_status::Status;
use std::alloc::Global;
use update_log::Log;

/// How a run of the program ended, and what it leaves: everything that happened in it, the rows before, the
/// boards as it left them, the keepers and the shelves. Where no campaign began nothing happened and there are
/// no boards; the rows are those that `plan`, `update` or `report` loaded, or none.
#[derive(Drop)]
pub struct Ran<P, K, M> {
    pub status: Status,
    pub log: Log,
    pub opening: Listed<Row>,
    pub boards: Option<HomeBoards>,
    pub keeper: K,
    pub marks: M,
    pub shelves: Vec<P>,
}

/// What a command leaves that knows nothing of marks.
#[derive(Drop)]
pub(crate) struct RunLeft<P, K> {
    pub status: Status,
    pub log: Log,
    pub opening: Listed<Row>,
    pub boards: Option<HomeBoards>,
    pub keeper: K,
    pub shelves: Vec<P>,
}

impl<P, K> RunLeft<P, K> {
    /// The same, beside the marks as they came.
    pub(crate) fn with_marks<M>(self, marks: M) -> Ran<P, K, M>
        ensures { result ≡ record { status = self.status; log = self.log; opening = self.opening; boards = self.boards; keeper = self.keeper; marks = marks; shelves = self.shelves } }
    {
        let RunLeft {
            status,
            log,
            opening,
            boards,
            keeper,
            shelves,
        } = self;
        Ran {
            status,
            log,
            opening,
            boards,
            keeper,
            marks,
            shelves,
        }
    }

    /// No campaign began.
    pub(crate) fn nothing(
        alloc: Global,
        status: Status,
        shelves: Vec<P>,
        keeper: K,
    ) -> RunLeft<P, K>
        ensures status { result.status ≡ status }
        ensures log { result.log ≡ [] }
        ensures opening { result.opening ≡ [] }
        ensures boards { result.boards ≡ None }
        ensures keeper { result.keeper ≡ keeper }
        ensures shelves { result.shelves.items ≡ shelves.items }
    {
        RunLeft::loaded(alloc, status, Vec::new(alloc), shelves, keeper)
    }

    /// No campaign began, and a load of the history gave those rows.
    pub(crate) fn loaded(
        alloc: Global,
        status: Status,
        rows: Vec<Row>,
        shelves: Vec<P>,
        keeper: K,
    ) -> RunLeft<P, K>
        ensures status { result.status ≡ status }
        ensures log { result.log ≡ [] }
        ensures opening { result.opening ≡ rows.items }
        ensures boards { result.boards ≡ None }
        ensures keeper { result.keeper ≡ keeper }
        ensures shelves { result.shelves.items ≡ shelves.items }
    {
        RunLeft {
            status,
            log: Listed::of(Vec::new(alloc)),
            opening: Listed::of(rows),
            boards: None,
            keeper,
            shelves,
        }
    }
}
