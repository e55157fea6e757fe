//! A site becomes a campaign.
ghost use Rattle.std.specs.Prelude.{◌≡◌, ◌+◌, ◌≤◌, ◌++◌, ◌∷◌, [], ℕ, List, map, IfOk, OnOk};
ghost use Rattle.emulated_boards.specs.Plans.{IsPlan};
ghost use Rattle.plugin_order.specs.declared.sheet.PluginSheet.{PluginSheet};
ghost use Rattle.site_types.specs.Limits.{CanBeSettled};
ghost use Rattle.site_making.specs.Priorities.{Adds, AreEnabled, AreEnabledOf, priorities_of, priority_of};
ghost use Rattle.site_making.specs.Settled.{IsOfSite, new_board, settled_sheet, settled_sheets, start_of, vetoes_of};

use crate::priorities::Running;
use emulated_boards::Board;
use fw_base::{Listed, NoMemory};
use fw_facts::Sheet;
use plugin_order::Arrangement;
use plugin_trait::Plugin;
use quirk_files::QuirkBook;
use site_types::{Campaign, Site, SiteBoard};
use std::alloc::Global;
use update_log::{Facts, PluginVetoes};

/// The campaign of a site, once its plugins are arranged and started. `plugins` are the enabled ones,
/// in the order of the arrangement.
///
/// Each sheet is the one after quirks, with the priority of the plugin that it then names added, and
/// nothing where that plugin is missing or disabled. The vetoes are those of the plugins, in order,
/// and the boards are new ones. All else is the site's.
pub fn settle_site(
    alloc: Global,
    site: Site,
    arrangement: &Arrangement,
    plugins: &[Box<dyn Plugin>],
) -> Result<Campaign, NoMemory>
    requires site { CanBeSettled site.boards }
    requires plugins { AreEnabled arrangement.now (map (λ plugin. (own_sheet plugin).name) plugins.now) }
    ensures same { IfOk result (IsOfSite site) }
    ensures sheets { IfOk result (λ campaign. campaign.facts.sheets
        ≡ settled_sheets site (priority_of (map (λ plugin. (own_sheet plugin).name) plugins.now) (priorities_of arrangement.now))) }
    ensures vetoes { IfOk result (λ campaign. campaign.facts.vetoes
        ≡ map (λ plugin. vetoes_of (own_sheet plugin) (own_vetoes plugin)) plugins.now) }
    ensures boards { IfOk result (λ campaign. map start_of campaign.boards.items ≡ map new_board site.boards) }

    // What each name adds, for whoever arranged the plugins by their sheets.
    ensures priorities { (sheets : List PluginSheet) (names : List (List ℕ)) → AreEnabledOf sheets arrangement.now names
        → (name : List ℕ) → Adds sheets arrangement.now.order name (priority_of names (priorities_of arrangement.now) name) }
{
    let Site {
        machine,
        pool,
        quirks,
        catalogue,
        remotes,
        boards,
        features,
        boots,
        scripts,
    } = site;
    drop(remotes);
    let vetoes = vetoes_of(alloc, plugins)?;
    let running = Running::of(alloc, arrangement, plugins)?;
    let sheets = settled_sheets(alloc, &quirks, &running, boards.items())?;
    let boards = new_boards(alloc, boards.items())?;
    Ok(Campaign {
        facts: Facts {
            machine,
            catalogue,
            features,
            vetoes: Listed::of(vetoes),
            sheets: Listed::of(sheets),
            pool,
        },
        boards,
        boots,
        scripts,
    })
}

/// The vetoes of each plugin, in order.
fn vetoes_of(alloc: Global, plugins: &[Box<dyn Plugin>]) -> Result<Vec<PluginVetoes>, NoMemory>
    ensures { IfOk result (λ vetoes. vetoes.items ≡ map (λ plugin. vetoes_of (own_sheet plugin) (own_vetoes plugin)) plugins.now) }
{
    let mut vetoes = Vec::new(alloc);
    for plugin in plugins {
        vetoes.push(vetoes_of_one(alloc, plugin)?)?;
    }
    Ok(vetoes)
}

fn vetoes_of_one(alloc: Global, plugin: &Box<dyn Plugin>) -> Result<PluginVetoes, NoMemory>
    ensures { IfOk result (λ vetoes. vetoes ≡ vetoes_of (own_sheet plugin.now) (own_vetoes plugin.now)) }
{
    Ok(PluginVetoes {
        plugin: plugin.sheet().name,
        rules: Listed::of(Vec::from_slice(alloc, plugin.vetoes())?),
    })
}

/// The sheets of the boards, once quirks are applied and priorities are added.
fn settled_sheets(
    alloc: Global,
    quirks: &QuirkBook,
    running: &Running,
    boards: &[SiteBoard],
) -> Result<Vec<Sheet>, NoMemory>
    requires { CanBeSettled boards.now }
    ensures { IfOk result (λ sheets. sheets.items ≡ map (λ board. settled_sheet quirks.now (priority_of running.now.names.items running.now.priorities.items) board.sheet) boards.now) }
{
    let mut sheets = Vec::new(alloc);
    for board in boards {
        sheets.push(settled_sheet(alloc, quirks, running, &board.sheet)?)?;
    }
    Ok(sheets)
}

fn settled_sheet(
    alloc: Global,
    quirks: &QuirkBook,
    running: &Running,
    sheet: &Sheet,
) -> Result<Sheet, NoMemory>
    requires { sheet.now.priority ≤ 1000 }
    ensures { IfOk result (λ settled. settled ≡ settled_sheet quirks.now (priority_of running.now.names.items running.now.priorities.items) sheet.now) }
{
    let mut settled = sheet.copy(alloc)?;
    quirks.apply(alloc, &mut settled)?;
    let more = running.priority_of(&settled.plugin);
    settled.priority += more;
    Ok(settled)
}

/// New boards, of the images and the planned faults.
fn new_boards(alloc: Global, boards: &[SiteBoard]) -> Result<Vec<Board>, NoMemory>
    requires { CanBeSettled boards.now }
    ensures { IfOk result (λ made. map start_of made.items ≡ map new_board boards.now) }
{
    let mut made = Vec::new(alloc);
    for board in boards {
        made.push(new_board(alloc, board)?)?;
    }
    Ok(made)
}

fn new_board(alloc: Global, board: &SiteBoard) -> Result<Board, NoMemory>
    requires { IsPlan board.now.faults }
    ensures { IfOk result (λ made. start_of made ≡ new_board board.now) }
{
    let faults = Vec::from_slice(alloc, board.faults.items())?;
    Ok(Board::new(alloc, board.image.items(), faults))
}
