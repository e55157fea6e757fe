//! The start of a boot.
ghost use Rattle.std.specs.Prelude.{◌≡◌, ◌≤◌, ◌<◌, ◌+◌, ◌-◌, ◌^◌};
ghost use Rattle.history_keeper.specs.Signs.{signs_of};
ghost use Rattle.update_log.specs.Pasts.{boots};
ghost use Rattle.daemon_core.specs.Housed.{past};
ghost use Rattle.client_plays.specs.Endings.{IsIdle};
ghost use Rattle.client_threads.specs.Runs.{StartedSo, ended_by};

use crate::ending::Ending;
use daemon_core::{BootStop, House};
use history_keeper::Keeper;
use std::alloc::Global;
use update_log::BootPlan;

/// Starts a boot by its plan, or says why the campaign ends. A history that couldn't be read doesn't end it:
/// its boot is off.
pub fn start_boot<K: Keeper>(alloc: Global, house: &mut House<K>, plan: &BootPlan) -> Option<Ending>
    requires idle { IsIdle (past house.old) }
    requires few { boots (past house.old) + 1 < 2 ^ 32 }
    requires timely { plan.now.time ≤ 2 ^ 63 - 1 }
    ensures { StartedSo (signs_of K.tells K.doubt K.faults) result plan.now house.old house.new }
{
    house.known();
    let outcome = house.boot(alloc, plan);
    ended_by(outcome)
}

// Whether a boot ends the campaign.
fn ended_by(outcome: Result<(), BootStop>) -> Option<Ending>
    ensures { result ≡ ended_by outcome }
{
    match outcome {
        Ok(()) => None,
        Err(BootStop::KeeperFault) => None,
        Err(BootStop::BadHistory { entry }) => Some(Ending::BadHistory { entry }),
        Err(BootStop::NoMemory) => Some(Ending::NoMemory),
    }
}
