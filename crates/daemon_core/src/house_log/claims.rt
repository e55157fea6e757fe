//! What a claim reads of the log.
ghost use Rattle.std.specs.Prelude.{◌≡◌, ◌<◌, ◌+◌, IsSome, length, position, unwrap_or, Some};
ghost use Rattle.std.specs.Str.{bytes_eq};
ghost use Rattle.history_keeper.specs.Changes.{IsTimely, Suits};
ghost use Rattle.history_keeper.specs.declared.change.Change.{Change};
ghost use Rattle.history_keeper.specs.declared.row.RowState.{RowState};
ghost use Rattle.update_log.specs.Boards.{board_with};
ghost use Rattle.update_log.specs.Holding.{live, live_entry};
ghost use Rattle.update_log.specs.Known.{addition, known};
ghost use Rattle.update_log.specs.Pasts.{time_of};
ghost use Rattle.update_log.specs.Steps.{trace};
ghost use Rattle.update_log.specs.Verdicts.{verdict};
ghost use Rattle.update_log.specs.declared.decision.Stage.{Stage};
ghost use Rattle.daemon_core.specs.Claims.{place_given, plugin_at};

use super::HouseLog;
use super::going::board_on;
use device_list::Selector;
use fw_facts::Sheet;
use guid_ids::DeviceId;
use history_keeper::{Change, Row};
use release_catalogue::ReleaseRef;
use update_log::{ClaimAnswer, Event, Facts, FetchNote, Request, Trace};

impl HouseLog {
    ghost use Rattle.daemon_core.specs.Housed.{basis_in, past_in};
    ghost use Rattle.daemon_core.specs.PutOff.{IsAccept};

    /// The row that a claim adds whose request is accepted.
    pub fn row_begun(&self, client: u32, request: &Request, release: ReleaseRef) -> Row
        requires { IsAccept (verdict (basis_in self.now) (past_in self.now) client request.now (Stage.Claim release)) }
        ensures added { addition self.now.facts (time_of (past_in self.now)) (live (past_in self.now)) (known (basis_in self.now) (past_in self.now)) client request.now RowState.Begun ≡ Some (Change.Add result) }
        ensures entry { result.entry ≡ length self.now.core.rows + 1 }
        ensures suits { Suits (Change.Add result) self.now.core.rows }
        ensures timely { IsTimely (Change.Add result) }
    {
        let entry = self.core.rows().len() as u32 + 1;
        let event = Event::Claim {
            client,
            request: *request,
            fetched: FetchNote::Missing,
            answer: ClaimAnswer::Entry(entry),
        };
        match self.core.asked(&self.facts, &event) {
            Some(Change::Add(row)) => row,
            Some(Change::Advance { .. }) | None => unreachable!(),
        }
    }

    /// The number of the board that is the device of an ID.
    pub fn board_with(&self, device: &DeviceId) -> Option<u32>
        ensures { result ≡ board_with self.now.facts device.now }
    {
        board_on(&self.core, &Selector::Id(*device))
    }

    /// How far a live entry has come.
    pub fn trace(&self, entry: u32) -> Trace
        requires { IsSome (live_entry (past_in self.now) entry) }
        ensures { trace (basis_in self.now) entry (past_in self.now) ≡ Some result }
    {
        self.core.trace(entry)
    }

    /// The place of the plugin of a board's sheet among the enabled ones.
    pub fn plugin(&self, number: usize) -> u32
        requires { number < length self.now.facts.sheets }
        ensures { result ≡ place_given (unwrap_or (plugin_at self.now.facts number) 0) }
    {
        let sheet = &self.facts.sheets.items()[number];
        place_given(plugin_place(&self.facts, sheet).unwrap_or(0))
    }
}

fn plugin_place(facts: &Facts, sheet: &Sheet) -> Option<usize>
    ensures { result ≡ position (λ vetoes. bytes_eq vetoes.plugin sheet.now.plugin) facts.now.vetoes }
{
    facts
        .vetoes
        .items()
        .iter()
        .position(|vetoes| vetoes.plugin == sheet.plugin)
}

// A place in 32 bits.
fn place_given(place: usize) -> u32
    ensures { result ≡ place_given place }
{
    if place < u32::MAX as usize {
        place as u32
    } else {
        u32::MAX
    }
}
