//! What a log tells of the keeper, and of want of memory.
ghost use Rattle.std.specs.Prelude.{◌≡◌};
ghost use Rattle.std.specs.List.{list_any};
ghost use Rattle.update_log.specs.Pasts.{meets_fault};
ghost use Rattle.fwupd_service.specs.Telling.{is_want, tells_want};

use core_state::meets_fault;
use update_log::{Event, Stored};

/// Whether an event of the log met a fault of the keeper.
pub fn any_fault(log: &[Event]) -> bool
    ensures { result ≡ list_any meets_fault log.now }
{
    log.iter().any(|event| meets_fault(event))
}

/// Whether an event of the log tells that memory was wanting for the keeper.
pub fn any_want(log: &[Event]) -> bool
    ensures { result ≡ list_any tells_want log.now }
{
    log.iter().any(|event| tells_want(event))
}

fn tells_want(event: &Event) -> bool
    ensures { result ≡ tells_want event.now }
{
    match event {
        Event::Resume { stored, .. } => is_want(*stored),
        Event::Finish { stored, .. } => is_want(*stored),
        Event::Judge { stored, .. } => is_want(*stored),
        _ => false,
    }
}

fn is_want(stored: Stored) -> bool
    ensures { result ≡ is_want stored }
{
    match stored {
        Stored::NoMemory => true,
        Stored::Yes | Stored::Fault | Stored::Unchanged => false,
    }
}
