//! The verdict on a request.
ghost use Rattle.std.specs.Prelude.{◌≡◌, List};
ghost use Rattle.history_keeper.specs.declared.row.Row.{Row};
ghost use Rattle.core_state.specs.Core.{Stands};
ghost use Rattle.update_log.specs.Pasts.{past_of};
ghost use Rattle.update_log.specs.Verdicts.{verdict};
ghost use Rattle.update_log.specs.Known.{basis_of};

use crate::state::CoreState;
use update_log::{Decision, Facts, Request, Stage};

/// What is decided of a client's request at a stage, over the log that the state stands for. The facts
/// are those that the state was made with.
///
/// Where a row has the request's tag, it is `Kept`; else the first refusal in their order that holds;
/// else it is accepted. An ask tests all but the fetch and the rows, a claim and a request that is put
/// off also whether the history is full, but not the room. A request of a pending row passes its tag,
/// its own row and the full history; its release must have the row's digest, and its features are
/// those of the row's client.
pub fn verdict(
    facts: &Facts,
    state: &CoreState,
    client: u32,
    request: &Request,
    stage: Stage,
) -> Decision
    ensures { (opening : List Row) → Stands (basis_of facts.now opening) state.now → result ≡ verdict (basis_of facts.now opening) (past_of state.now.log) client request.now stage }
{
    state.decided(facts, client, request, stage)
}
