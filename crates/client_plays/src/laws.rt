//! Laws of the definitions alone.
ghost use Rattle.client_plays.specs.Complete.{ClaimsComplete, InstallsComplete, ResumptionsComplete};
ghost use Rattle.client_plays.specs.FirstRefusal.{FirstIsNamed};
ghost use Rattle.client_plays.specs.Finished.{InstallsFinish};
ghost use Rattle.client_plays.specs.Installs.{BootsComplete, CampaignsComplete};

use plugin_trait::Plugin;

/// A claim that is accepted, whose payload lies on the client's shelf, takes an entry, unless the keeper or
/// the shelf fails.
pub fn claims_complete()
    ensures { ClaimsComplete }
{}

/// An install that is accepted at its ask and at its claim, whose payload lies on the client's shelf, takes an
/// entry, unless the keeper or the shelf fails.
pub fn installs_complete()
    ensures { InstallsComplete }
{}

/// A resumption that is accepted, whose payload lies on the daemon's shelf, begins, unless the keeper or the
/// shelf fails.
pub fn resumptions_complete()
    ensures { ResumptionsComplete }
{}

/// A refusal that is decided is met, and none is of those that are tested before it: in the order of their
/// numbers, but for 17, which is tested right behind 4.
pub fn first_is_named()
    ensures { FirstIsNamed }
{}

/// A boot that was played over a legal log does what it is to do: each install of a script, and each row that
/// waits for the boot, is begun, and what is accepted comes to its end. The plugins may be of any kind.
pub fn boots_complete<Q: Plugin>()
    ensures { BootsComplete Q.steps }
{}

/// So does each boot of a campaign whose scripts were played.
pub fn campaigns_complete<Q: Plugin>()
    ensures { CampaignsComplete Q.steps }
{}

/// In a boot that stayed on, where no memory was wanting: each install of a script that meets all conditions at
/// its time takes the next entry and is finished, unless its shelf failed.
pub fn installs_finish<Q: Plugin>()
    ensures { InstallsFinish Q.steps }
{}
