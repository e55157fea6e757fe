//! What a resumption reads of the log.
ghost use Rattle.std.specs.Prelude.{◌≡◌, ℕ, Some, find, option_and_then, option_copied, reverse};
ghost use Rattle.history_keeper.specs.Changes.{IsTimely};
ghost use Rattle.core_state.specs.CoreSteps.{resumption_on};
ghost use Rattle.update_log.specs.Pasts.{time_of};
ghost use Rattle.update_log.specs.declared.refusal.Refusal.{Refusal};
ghost use Rattle.daemon_core.specs.Resumes.{WasRefused, is_refused, refused_by};

use super::HouseLog;
use history_keeper::Change;
use update_log::{AskAnswer, Event, Refusal, ResumeAnswer, Stored};

impl HouseLog {
    ghost use Rattle.daemon_core.specs.Housed.{past_in};

    /// The change that the resumption of a row asks for which is answered so.
    pub fn resumption(&self, entry: u32, answer: &ResumeAnswer) -> Change
        ensures is { result ≡ resumption_on (time_of (past_in self.now)) self.now.core.rows entry answer.now }
        ensures timely { IsTimely result }
    {
        let event = Event::Resume {
            client: 0,
            entry,
            fetched: None,
            answer: *answer,
            stored: Stored::Yes,
        };
        match self.core.asked(&self.facts, &event) {
            Some(change) => change,
            None => unreachable!(),
        }
    }

    /// Why the daemon's last ask was refused, where that is its last event in this boot.
    pub fn refused_last(&self) -> Option<Refusal>
        ensures { (entry : ℕ) (refusal : Refusal) → WasRefused self.now entry refusal → result ≡ Some refusal }
    {
        refused_last(self.core.log())
    }
}

// Why the daemon's last ask was refused that was.
fn refused_last(log: &[Event]) -> Option<Refusal>
    ensures { result ≡ option_and_then refused_by (find is_refused (reverse log.now)) }
{
    refused_in(last_refused(log))
}

// That ask.
fn last_refused(log: &[Event]) -> Option<&Event>
    ensures { option_copied result ≡ find is_refused (reverse log.now) }
{
    log.iter().rev().find(|event| is_refused(event))
}

fn refused_in(event: Option<&Event>) -> Option<Refusal>
    ensures { result ≡ option_and_then refused_by (option_copied event.entry) }
{
    match event {
        Some(event) => refused_by(event),
        None => None,
    }
}

// The daemon asked, and was refused.
fn is_refused(event: &Event) -> bool
    ensures { result ≡ is_refused event.now }
{
    refused_by(event).is_some()
}

// Why the daemon was refused what it asked for, where the event is such an ask.
fn refused_by(event: &Event) -> Option<Refusal>
    ensures { result ≡ refused_by event.now }
{
    match event {
        Event::Ask {
            client,
            answer: AskAnswer::Refused(refusal),
            ..
        } if *client == 0 => Some(*refusal),
        _ => None,
    }
}
