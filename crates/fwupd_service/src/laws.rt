//! Laws of what a run of the program comes to.
//!
//! A command over a document does its whole work with the site that its input gives. What may keep it from that is the
//! same for each: the input gives no site, and the status says why; memory was wanting; the input or the output failed.
//! Of a source that doesn't tell what it has left, the bytes that gave the site are some bytes.
ghost use Rattle.history_keeper.specs.Signs.{signs_of};
ghost use Rattle.fwupd_service.specs.Complete.{CheckCompletes, ExplainCompletes, IdsCompletes, InputIsTold, MakeCompletes, PlanCompletes, RemotesCompletes, RunCompletes, UpdateAccepts, UpdateCompletes};
ghost use Rattle.fwupd_service.specs.Plugged.{plugin_words};

use history_keeper::Keeper;
use plugin_trait::Plugin;
use update_plans::laws::next_is_accepted;

/// Of a source that tells what it has left, no more came than it had, and all of that where it came to its end. So of a
/// valid document no other site is given, and no status says that it gives none.
pub fn input_is_told()
    ensures { InputIsTold }
{}

/// Where the plugins can be arranged and the history held, `run` plays the whole campaign of its input's site and
/// writes its report, unless kept from it so, or by rows of another's in a history that doesn't tell its rows. The
/// plugins may be of any kind.
pub fn run_completes<K: Keeper, Q: Plugin>()
    ensures { RunCompletes (signs_of K.tells K.doubt K.faults) (plugin_words Q.own_sheet Q.own_vetoes Q.steps) }
{}

/// Where the plugins can be arranged and the history held, `plan` prints the plan of the first boot of its input's
/// site, unless kept from it so.
pub fn plan_completes<K: Keeper>()
    ensures { PlanCompletes (signs_of K.tells K.doubt K.faults) }
{}

/// Where the plugins can be arranged and the history held, `update` plays that plan whole, and writes its report,
/// unless kept from it as `run` may be.
pub fn update_completes<K: Keeper, Q: Plugin>()
    ensures { UpdateCompletes (signs_of K.tells K.doubt K.faults) (plugin_words Q.own_sheet Q.own_vetoes Q.steps) }
{}

/// Where the plays of the installs before ended well, and their devices show what was planned, `update` accepts the
/// next one.
pub fn update_accepts()
    ensures { UpdateAccepts }
{
    next_is_accepted();
}

/// Where the plugins can be arranged, `make` plays the whole campaign of the generated site and writes its
/// summary, but for want of memory or a fault of the output.
pub fn make_completes<K: Keeper, Q: Plugin>()
    ensures { MakeCompletes K (plugin_words Q.own_sheet Q.own_vetoes Q.steps) }
{}

/// `check` prints how many entries the sections of its input's site have, unless kept from it so.
pub fn check_completes<K: Keeper>()
    ensures { CheckCompletes K }
{}

/// `remotes` prints what the remotes of its input's site have, unless kept from it so.
pub fn remotes_completes<K: Keeper>()
    ensures { RemotesCompletes K }
{}

/// Where the plugins can be arranged, `explain` prints the requirements of the install that its words name at its
/// input's site, and the verdict on it, unless kept from it so.
pub fn explain_completes<K: Keeper>()
    ensures { ExplainCompletes K }
{}

/// `ids` prints a line for each of its words, but for want of memory or a fault of the output.
pub fn ids_completes<K: Keeper>()
    ensures { IdsCompletes K }
{}
