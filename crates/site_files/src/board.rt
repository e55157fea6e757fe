//! A board of the document, among those before it.
ghost use Rattle.std.specs.Prelude.{◌≡◌, ◌∷◌, ◌++◌, ◌||◌, [], IfOk, false, is_some};
ghost use Rattle.std.specs.Option.{option_copied};
ghost use Rattle.json_values.specs.Trees.{view};
ghost use Rattle.std.specs.Result.{result_ok};
ghost use Rattle.fw_base.specs.Names.{name_read};
ghost use Rattle.guid_ids.specs.Identifiers.{device_id, named_device, named_guid};
ghost use Rattle.release_catalogue.specs.Reading.{Gives, optional, or_fault};
ghost use Rattle.release_catalogue.specs.Kinds.{name_at, plain_list_at};
ghost use Rattle.site_files.specs.Boards.{at_the_root, board_at, format_at, has_port, head_at, image_at, lists_at, numbers_at, parent_at, placed_of, port_named, ports_of, rest_at, with_port};

use crate::flags::flags_or_none;
use crate::instances::{full_line, instances_needed, instances_or, instances_or_none};
use crate::planned::plan_or_none;
use emulated_boards::PlannedFault;
use fw_base::{Line, Listed, Name};
use fw_facts::{DeviceFlags, Sheet};
use guid_ids::{DeviceId, Guid, device_id};
use json_values::Value;
use quirk_files::values::{Formats, Reader};
use release_catalogue::defaults::{
    boolean_or, line_or_empty, line_or_none, name_or_none, number_or, version_or_none,
};
use release_catalogue::entries::list_or_empty;
use release_catalogue::kinds::{name, object, text};
use release_catalogue::members::{member, needed};
use release_catalogue::spot::fault_at;
use release_catalogue::{ReadStop, Reason, Spot, Word};
use site_scripts::Ports;
use site_types::SiteBoard;
use std::alloc::Global;
use version_formats::{Format, Version};

/// The most vendor IDs of a board.
pub const VENDOR_IDS_MAX: usize = 64;

/// The highest priority of a board.
pub const PRIORITY_MAX: u32 = 1_000;

/// The most bytes of a payload.
pub const SIZE_MAX: u32 = 4_194_304;

/// The most bytes of an image in the document.
pub const IMAGE_MAX: usize = 255;

/// How many boards deep a board may stand under others.
pub const DEPTH_MAX: u32 = 8;

/// A board, and how deep it stands under others.
#[derive(Drop)]
pub struct Placed {
    pub board: SiteBoard,
    /// How many boards lead from it to one without a parent.
    pub depth: u32,
}

/// What stands first in a board.
#[derive(Drop)]
pub struct Head {
    pub physical: Line,
    pub logical: Option<Line>,
    pub priority: u32,
    pub plugin: Name,
    pub name: Line,
    pub vendor: Line,
}

/// The lists of a board.
#[derive(Drop)]
pub struct Lists {
    pub vendor_ids: Listed<Name>,
    pub runtime: Listed<Guid>,
    pub loader: Listed<Guid>,
    pub counterparts: Listed<Guid>,
    pub flags: DeviceFlags,
}

/// Its versions and numbers.
#[derive(Drop)]
pub struct Numbers {
    pub format: Format,
    pub protocol: Option<Name>,
    pub bootloader: Option<Version>,
    pub size_min: u32,
    pub size_max: u32,
    pub duration: u32,
}

/// The board that it is attached to, by its port, and how deep it stands then.
#[derive(Drop)]
pub struct Standing {
    pub parent: Option<Name>,
    pub depth: u32,
}

/// What stands last in a board.
#[derive(Drop)]
pub struct Rest {
    pub standing: Standing,
    pub image: Listed<u8>,
    pub unreachable: bool,
    pub power_low: bool,
    pub lid: bool,
    pub faults: Listed<PlannedFault>,
}

/// A board, among those before it, whose ports these are. Its own port comes to them.
#[tactic(auto, unfolding(crate::specs::Boards::board_at))]
pub fn read_board<'t>(
    alloc: Global,
    earlier: &[Placed],
    ports: &mut Ports<'t>,
    value: &Value<'t>,
    spot: Spot,
) -> Result<Placed, ReadStop>
    requires { ports.old ≡ ports_of earlier.now }
    ensures read { Gives (λ b. b) result (board_at earlier.now spot (view value.now)) }
    ensures ports { IfOk result (λ b. ports.new ≡ ports_of earlier.now ++ b.board.sheet.port ∷ []) }
{
    object(value, spot)?;
    let here = spot.field(Word::Port);
    let text = text(needed(value, spot, Word::Port)?, here)?;
    let port = read_port(earlier, ports, text, here)?;
    let head = read_head(value, spot)?;
    let lists = read_lists(alloc, value, spot)?;
    let numbers = read_numbers(value, spot)?;
    let rest = read_rest(alloc, earlier, ports, value, spot)?;
    ports.add(text.as_bytes())?;
    Ok(place(port, head, lists, numbers, rest))
}

fn place(port: Name, head: Head, lists: Lists, numbers: Numbers, rest: Rest) -> Placed
    ensures { result ≡ placed_of port head lists numbers rest }
{
    let Head {
        physical,
        logical,
        priority,
        plugin,
        name,
        vendor,
    } = head;
    let Lists {
        vendor_ids,
        runtime,
        loader,
        counterparts,
        flags,
    } = lists;
    let Rest {
        standing,
        image,
        unreachable,
        power_low,
        lid,
        faults,
    } = rest;
    let device = device(physical, logical);
    let sheet = Sheet {
        port,
        device,
        priority,
        plugin,
        name,
        vendor,
        vendor_ids,
        runtime_guids: runtime,
        loader_guids: loader,
        counterparts,
        flags,
        format: numbers.format,
        protocol: numbers.protocol,
        bootloader: numbers.bootloader,
        size_min: numbers.size_min,
        size_max: numbers.size_max,
        duration: numbers.duration,
        parent: standing.parent,
        unreachable,
        power_low,
        lid,
    };
    Placed {
        board: SiteBoard {
            sheet,
            image,
            faults,
        },
        depth: standing.depth,
    }
}

fn device(physical: Line, logical: Option<Line>) -> DeviceId
    ensures { result ≡ device_id physical logical }
{
    match logical {
        None => device_id(physical.bytes(), None),
        Some(logical) => device_id(physical.bytes(), Some(logical.bytes())),
    }
}

#[tactic(auto, unfolding(crate::specs::Boards::head_at))]
fn read_head(value: &Value, spot: Spot) -> Result<Head, ReadStop>
    ensures { Gives (λ h. h) result (head_at spot (view value.now)) }
{
    let physical = full_line(
        needed(value, spot, Word::Physical)?,
        spot.field(Word::Physical),
    )?;
    let logical = line_or_none(value, spot, Word::Logical)?;
    let priority = number_or(value, spot, Word::Priority, PRIORITY_MAX, 0)?;
    let plugin = name(needed(value, spot, Word::Plugin)?, spot.field(Word::Plugin))?;
    let name = line_or_empty(value, spot, Word::Name)?;
    let vendor = line_or_empty(value, spot, Word::Vendor)?;
    Ok(Head {
        physical,
        logical,
        priority,
        plugin,
        name,
        vendor,
    })
}

/// A port that no earlier board has.
#[tactic(auto, unfolding(crate::specs::Boards::port_named))]
fn read_port(earlier: &[Placed], ports: &Ports, text: &str, spot: Spot) -> Result<Name, ReadStop>
    requires { ports.now ≡ ports_of earlier.now }
    ensures read { Gives (λ p. p) result (port_named earlier.now spot text.now) }
    ensures same { IfOk result (λ p. p ≡ text.now) }
    ensures free { IfOk result (λ p. has_port p earlier.now ≡ false) }
{
    let name = port_name(text, spot)?;
    if names_a_device(&name) {
        return Err(fault_at(spot, Reason::WrongKind));
    }
    if ports.has(name.bytes()) {
        return Err(fault_at(spot, Reason::Repeated));
    }
    Ok(name)
}

#[tactic(auto, using(crate::proofs::Named::name_is_text))]
fn port_name(text: &str, spot: Spot) -> Result<Name, ReadStop>
    ensures read { Gives (λ n. n) result (or_fault spot Reason.WrongKind (result_ok (name_read text.now))) }
    ensures same { IfOk result (λ n. n ≡ text.now) }
{
    match Name::read(text.as_bytes()) {
        Err(_) => Err(fault_at(spot, Reason::WrongKind)),
        Ok(name) => Ok(name),
    }
}

/// Whether a name would be read as a device ID or as a GUID.
fn names_a_device(name: &Name) -> bool
    ensures { result ≡ (is_some (named_device name.now) || is_some (named_guid name.now)) }
{
    DeviceId::read(name.bytes()).is_some() || Guid::read(name.bytes()).is_some()
}

#[tactic(auto, unfolding(crate::specs::Boards::lists_at))]
fn read_lists(alloc: Global, value: &Value, spot: Spot) -> Result<Lists, ReadStop>
    ensures { Gives (λ l. l) result (lists_at spot (view value.now)) }
{
    let vendor_ids = vendor_ids(alloc, value, spot)?;
    let runtime = instances_needed(alloc, value, spot, Word::InstanceIds)?;
    let loader = instances_or(alloc, value, spot, Word::LoaderInstanceIds, runtime.items())?;
    let counterparts = instances_or_none(alloc, value, spot, Word::Counterparts)?;
    let flags = flags_or_none(value, spot)?;
    Ok(Lists {
        vendor_ids,
        runtime,
        loader,
        counterparts,
        flags,
    })
}

fn vendor_ids(alloc: Global, value: &Value, spot: Spot) -> Result<Listed<Name>, ReadStop>
    ensures { Gives (λ l. l) result (optional spot Word.VendorIds (plain_list_at 64 name_at) [] (view value.now)) }
{
    let names = list_or_empty(alloc, value, spot, Word::VendorIds, VENDOR_IDS_MAX)?;
    Ok(Listed::of(names))
}

#[tactic(auto, unfolding(crate::specs::Boards::numbers_at))]
fn read_numbers(value: &Value, spot: Spot) -> Result<Numbers, ReadStop>
    ensures { Gives (λ n. n) result (numbers_at spot (view value.now)) }
{
    let format = format(
        needed(value, spot, Word::VersionFormat)?,
        spot.field(Word::VersionFormat),
    )?;
    let protocol = name_or_none(value, spot, Word::Protocol)?;
    let bootloader = version_or_none(value, spot, Word::BootloaderVersion)?;
    let size_min = number_or(value, spot, Word::SizeMin, SIZE_MAX, 0)?;
    let size_max = number_or(value, spot, Word::SizeMax, SIZE_MAX, SIZE_MAX)?;
    let duration = number_or(value, spot, Word::Duration, u32::MAX, 0)?;
    Ok(Numbers {
        format,
        protocol,
        bootloader,
        size_min,
        size_max,
        duration,
    })
}

/// A version format, by its word, else `WrongKind`.
fn format(value: &Value, spot: Spot) -> Result<Format, ReadStop>
    ensures { Gives (λ f. f) result (format_at spot (view value.now)) }
{
    let text = text(value, spot)?;
    match Formats.read(text.as_bytes()) {
        None => Err(fault_at(spot, Reason::WrongKind)),
        Some(format) => Ok(format),
    }
}

#[tactic(auto, unfolding(crate::specs::Boards::rest_at))]
fn read_rest(
    alloc: Global,
    earlier: &[Placed],
    ports: &Ports,
    value: &Value,
    spot: Spot,
) -> Result<Rest, ReadStop>
    requires { ports.now ≡ ports_of earlier.now }
    ensures { Gives (λ r. r) result (rest_at earlier.now spot (view value.now)) }
{
    let standing = read_standing(earlier, ports, value, spot)?;
    let image = image(
        alloc,
        needed(value, spot, Word::Image)?,
        spot.field(Word::Image),
    )?;
    let unreachable = boolean_or(value, spot, Word::Unreachable, false)?;
    let power_low = boolean_or(value, spot, Word::PowerLow, false)?;
    let lid = boolean_or(value, spot, Word::Lid, false)?;
    let faults = plan_or_none(alloc, value, spot)?;
    Ok(Rest {
        standing,
        image,
        unreachable,
        power_low,
        lid,
        faults,
    })
}

/// An image: a text of up to 255 bytes, else `WrongKind`.
fn image(alloc: Global, value: &Value, spot: Spot) -> Result<Listed<u8>, ReadStop>
    ensures { Gives (λ l. l) result (image_at spot (view value.now)) }
{
    let text = text(value, spot)?;
    if text.len() <= IMAGE_MAX {
        Ok(Listed::of(Vec::from_slice(alloc, text.as_bytes())?))
    } else {
        Err(fault_at(spot, Reason::WrongKind))
    }
}

/// Where the board stands: under its parent, or at the root where it states none.
fn read_standing(
    earlier: &[Placed],
    ports: &Ports,
    value: &Value,
    spot: Spot,
) -> Result<Standing, ReadStop>
    requires { ports.now ≡ ports_of earlier.now }
    ensures { Gives (λ s. s) result (optional spot Word.Parent (parent_at earlier.now) at_the_root (view value.now)) }
{
    match member(value, Word::Parent) {
        None => Ok(Standing {
            parent: None,
            depth: 0,
        }),
        Some(found) => under(earlier, ports, found, spot.field(Word::Parent)),
    }
}

/// The place under an earlier board.
#[tactic(auto, unfolding(crate::specs::Boards::parent_at))]
fn under(earlier: &[Placed], ports: &Ports, value: &Value, spot: Spot) -> Result<Standing, ReadStop>
    requires { ports.now ≡ ports_of earlier.now }
    ensures { Gives (λ s. s) result (parent_at earlier.now spot (view value.now)) }
{
    let text = text(value, spot)?;
    match with_port(earlier, ports, text.as_bytes()) {
        None => Err(fault_at(spot, Reason::BadReference)),
        Some(parent) => {
            if DEPTH_MAX <= parent.depth {
                return Err(fault_at(spot, Reason::BadReference));
            }
            Ok(Standing {
                parent: Some(parent.board.sheet.port),
                depth: parent.depth + 1,
            })
        }
    }
}

/// The earlier board with the port.
fn with_port<'e>(earlier: &'e [Placed], ports: &Ports, port: &[u8]) -> Option<&'e Placed>
    requires { ports.now ≡ ports_of earlier.now }
    ensures { option_copied result ≡ with_port port.now earlier.now }
{
    let at = ports.place(port)?;
    earlier.get(at)
}
