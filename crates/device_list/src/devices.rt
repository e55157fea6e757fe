//! The list of devices.
ghost use Rattle.std.specs.Prelude.{◌≡◌, ℕ, List, All, ◌<◌, ◌⊎◌, false, [], ◌∷◌, ◌++◌, length, map, slice_get, slice_set, position, MatchResult, IfSome, IfErr, IfOk, OnOk, OnErr, Some, None, is_some, take, vec_len, vec_capacity};
ghost use Rattle.std.specs.List.{IsDistinct, list_any};
ghost use Rattle.std.specs.Option.{ForSome};
ghost use Rattle.std.specs.Str.{bytes_eq};
ghost use Rattle.device_list.specs.Lists.{claimed_on, ids_in, place, refused, names};
ghost use Rattle.device_list.specs.Guids.{has, listed, sheets, with_last, HasRoom};
ghost use Rattle.fw_facts.specs.declared.view.DeviceView.{DeviceView};

use crate::fault::ListFault;
use crate::guid_index::{GuidIndex, first_showing, listed, note_board, reserve_board};
use crate::selector::Selector;
use fw_base::{Name, NoMemory};
use fw_facts::{DeviceView, Seen, Sheet};
use guid_ids::{DeviceId, Guid};
use indexmap::IndexSet;
use std::alloc::Global;
use std::marker::Model;

/// The most devices of a list.
pub const DEVICES_MAX: usize = 256;

/// Devices in the order in which they were added, no two of one ID. Contracts see the list of their
/// views.
#[derive(Drop)]
pub struct Devices {
    views: Vec<DeviceView>,
    ids: IndexSet<DeviceId>,
    guids: GuidIndex,
}

impl Model for Devices {
    ghost use Rattle.std.specs.Prelude.{List};
    ghost use Rattle.fw_facts.specs.declared.view.DeviceView.{DeviceView};
    ghost use Rattle.device_list.specs.Guids.{IsIndexed};

    ghost Value = { List DeviceView };

    ghost view = { λ s. s.views.items };

    ghost invariant = { λ s. IsIndexed s.views.items s.ids.keys s.guids };
}

impl Devices {
    /// The empty list.
    pub fn new(alloc: Global) -> Devices
        ensures { result ≡ [] }
    {
        Devices {
            views: Vec::new(alloc),
            ids: IndexSet::new(alloc),
            guids: GuidIndex::new(alloc),
        }
    }

    /// Adds a device at the end. A fault leaves the list as it was.
    pub fn add(&mut self, view: DeviceView) -> Result<(), ListFault>
        ensures added { OnOk result (self.new ≡ self.old ++ view ∷ []) }
        ensures unchanged { OnErr result (self.new ≡ self.old) }
        ensures refused { IfSome (refused self.old view.sheet.device) (λ fault. result ≡ Err fault) }
        ensures faults { IfErr result (λ fault. (fault ≡ ListFault.NoMemory) ⊎ (refused self.old view.sheet.device ≡ Some fault)) }
    {
        let device = device_of(&view);
        match self.prepare(device) {
            Ok(()) => append(&mut self.views, &mut self.ids, &mut self.guids, view),
            Err(fault) => Err(fault),
        }
    }

    /// An equal list.
    pub fn copy(&self, alloc: Global) -> Result<Devices, NoMemory>
        ensures { IfOk result (λ copy. copy ≡ self.now) }
    {
        self.differ();
        let mut copy = Devices::new(alloc);
        for view in self.views() {
            copy.add_new(copied(alloc, view)?)?;
        }
        Ok(copy)
    }

    // No device has the ID of one before it, and there are at most 256. Does nothing.
    fn differ(&self)
        ensures { (at : ℕ) (view : DeviceView) → slice_get self.now at ≡ Some view → refused (take at self.now) view.sheet.device ≡ None }
    {
        let _count = self.ids.len();
    }

    // No two devices have one ID. Does nothing.
    fn distinct(&self)
        ensures { IsDistinct bytes_eq (ids_in self.now) }
    {
        let _count = self.ids.len();
    }

    // Adds a device of a new ID to a list that isn't full.
    fn add_new(&mut self, view: DeviceView) -> Result<(), NoMemory>
        requires { refused self.old view.sheet.device ≡ None }
        ensures { OnOk result (self.new ≡ self.old ++ view ∷ []) }
    {
        match self.add(view) {
            Ok(()) => Ok(()),
            Err(_) => Err(NoMemory),
        }
    }

    // Whether a device of that ID may be added.
    fn prepare(&self, device: DeviceId) -> Result<(), ListFault>
        ensures refused { MatchResult result (λ _. refused self.now device ≡ None) (λ fault. refused self.now device ≡ Some fault) }
        ensures free { OnOk result (list_any (names (Selector.Id device)) self.now ≡ false) }
    {
        if self.by_id(&device).is_some() {
            return Err(ListFault::Duplicate { device });
        }
        if self.views.len() == DEVICES_MAX {
            return Err(ListFault::Full);
        }
        Ok(())
    }

    /// Puts a view of the same sheet in the place of another.
    pub fn replace(&mut self, at: usize, view: DeviceView)
        requires place { at < length self.old }
        requires same_sheet { ForSome (slice_get self.old at) (λ old. old.sheet ≡ view.sheet) }
        ensures { self.new ≡ slice_set self.old at view }
    {
        put(&mut self.views, at, view);
    }

    /// What the port shows from now on.
    pub fn set_seen(&mut self, at: usize, seen: Seen)
        requires { at < length self.old }
        ensures { IfSome (slice_get self.old at) (λ view. self.new ≡ slice_set self.old at (record view { seen = seen })) }
    {
        put_seen(&mut self.views, at, seen);
    }

    /// The entry that has a claim on the device from now on, if one has.
    pub fn set_claim(&mut self, at: usize, claim: Option<u32>)
        requires { at < length self.old }
        ensures { IfSome (slice_get self.old at) (λ view. self.new ≡ slice_set self.old at (record view { claim = claim })) }
    {
        put_claim(&mut self.views, at, claim);
    }

    /// The entry that has a claim on the device of that ID from now on, if one has. Where no device has
    /// the ID, nothing changes.
    pub fn set_claim_of(&mut self, device: &DeviceId, claim: Option<u32>)
        ensures { self.new ≡ map (claimed_on device.now claim) self.old }
    {
        self.distinct();
        match self.by_id(device) {
            Some(at) => self.set_claim(at, claim),
            None => {}
        }
    }

    /// The views, in the order of adding.
    pub fn views(&self) -> &[DeviceView]
        ensures { result.now ≡ self.now }
    {
        &self.views
    }

    /// The place of the device with that ID, present or not.
    pub fn by_id(&self, device: &DeviceId) -> Option<usize>
        ensures first { result ≡ place (Selector.Id device.now) self.now }
        ensures found { is_some result ≡ list_any (names (Selector.Id device.now)) self.now }
    {
        self.ids.get_index_of(device)
    }

    /// The place of the first present device that shows the GUID.
    pub fn by_guid(&self, guid: &Guid) -> Option<usize>
        ensures { result ≡ place (Selector.Guid guid.now) self.now }
    {
        first_showing(&self.views, listed(&self.guids, guid), guid)
    }

    /// The place of the first device that the selector names.
    pub fn resolve(&self, selector: &Selector) -> Option<usize>
        ensures { result ≡ place selector.now self.now }
    {
        match selector {
            Selector::Id(device) => self.by_id(device),
            Selector::Guid(guid) => self.by_guid(guid),
            Selector::Port(port) => first_in_port(&self.views, port),
        }
    }
}

// An equal view.
fn copied(alloc: Global, view: &DeviceView) -> Result<DeviceView, NoMemory>
    ensures { IfOk result (λ copy. copy ≡ view.now) }
{
    Ok(DeviceView {
        sheet: view.sheet.copy(alloc)?,
        seen: view.seen,
        claim: view.claim,
    })
}

fn first_in_port(views: &[DeviceView], port: &Name) -> Option<usize>
    ensures { result ≡ position (λ view. bytes_eq port.now view.sheet.port) views.now }
{
    views.iter().position(|view| *port == view.sheet.port)
}

// Puts a device of a new ID behind the others.
fn append(
    views: &mut Vec<DeviceView>,
    ids: &mut IndexSet<DeviceId>,
    guids: &mut GuidIndex,
    view: DeviceView,
) -> Result<(), ListFault>
    requires { list_any (bytes_eq view.sheet.device) ids.old.keys ≡ false }
    ensures added { OnOk result (views.new.items ≡ views.old.items ++ view ∷ []) }
    ensures id { OnOk result (ids.new.keys ≡ ids.old.keys ++ view.sheet.device ∷ []) }
    ensures places { OnOk result ((guid : List ℕ) → listed guids.new guid ≡ with_last (has guid view.sheet) (length views.old.items) (listed guids.old guid)) }
    ensures unchanged { OnErr result (views.new.items ≡ views.old.items) }
    ensures same_ids { OnErr result (ids.new.keys ≡ ids.old.keys) }
    ensures same_places { OnErr result ((guid : List ℕ) → listed guids.new guid ≡ listed guids.old guid) }
    ensures memory { IfErr result (λ fault. fault ≡ ListFault.NoMemory) }
{
    match make_room(views, ids, guids, &view.sheet) {
        Ok(()) => {
            note_board(guids, &view.sheet, views.len());
            views.push_reserved(view);
            Ok(())
        }
        Err(fault) => Err(fault),
    }
}

fn device_of(view: &DeviceView) -> DeviceId
    ensures { result ≡ view.now.sheet.device }
{
    view.sheet.device
}

// Room for one more view and its GUIDs, and its ID behind the others.
fn make_room(
    views: &mut Vec<DeviceView>,
    ids: &mut IndexSet<DeviceId>,
    guids: &mut GuidIndex,
    sheet: &Sheet,
) -> Result<(), ListFault>
    requires { list_any (bytes_eq sheet.now.device) ids.old.keys ≡ false }
    ensures same_views { views.new.items ≡ views.old.items }
    ensures room { OnOk result (vec_len views.new < vec_capacity views.new) }
    ensures same_places { (guid : List ℕ) → listed guids.new guid ≡ listed guids.old guid }
    ensures runtime { OnOk result (All (HasRoom guids.new) sheet.now.runtime_guids) }
    ensures loader { OnOk result (All (HasRoom guids.new) sheet.now.loader_guids) }
    ensures added { OnOk result (ids.new.keys ≡ ids.old.keys ++ sheet.now.device ∷ []) }
    ensures unchanged { OnErr result (ids.new.keys ≡ ids.old.keys) }
    ensures memory { IfErr result (λ fault. fault ≡ ListFault.NoMemory) }
{
    reserve_one(views)?;
    reserve_board(guids, sheet)?;
    note_id(ids, sheet.device)
}

// Room for one more view.
fn reserve_one(views: &mut Vec<DeviceView>) -> Result<(), ListFault>
    ensures unchanged { views.new.items ≡ views.old.items }
    ensures room { OnOk result (vec_len views.new < vec_capacity views.new) }
    ensures memory { IfErr result (λ fault. fault ≡ ListFault.NoMemory) }
{
    match views.reserve(1) {
        Ok(()) => Ok(()),
        Err(_) => Err(ListFault::NoMemory),
    }
}

// One more ID.
fn note_id(ids: &mut IndexSet<DeviceId>, device: DeviceId) -> Result<(), ListFault>
    requires { list_any (bytes_eq device) ids.old.keys ≡ false }
    ensures added { OnOk result (ids.new.keys ≡ ids.old.keys ++ device ∷ []) }
    ensures unchanged { OnErr result (ids.new.keys ≡ ids.old.keys) }
    ensures memory { IfErr result (λ fault. fault ≡ ListFault.NoMemory) }
{
    match ids.insert(device) {
        Ok(_) => Ok(()),
        Err(_) => Err(ListFault::NoMemory),
    }
}

fn put(views: &mut [DeviceView], at: usize, view: DeviceView)
    requires place { at < length views.old }
    requires same_sheet { ForSome (slice_get views.old at) (λ old. old.sheet ≡ view.sheet) }
    ensures put { views.new ≡ slice_set views.old at view }
    ensures same_sheets { sheets views.new ≡ sheets views.old }
{
    views[at] = view;
}

fn put_seen(views: &mut [DeviceView], at: usize, seen: Seen)
    requires { at < length views.old }
    ensures put { IfSome (slice_get views.old at) (λ view. views.new ≡ slice_set views.old at (record view { seen = seen })) }
    ensures same_sheets { sheets views.new ≡ sheets views.old }
{
    views[at].seen = seen;
}

fn put_claim(views: &mut [DeviceView], at: usize, claim: Option<u32>)
    requires { at < length views.old }
    ensures put { IfSome (slice_get views.old at) (λ view. views.new ≡ slice_set views.old at (record view { claim = claim })) }
    ensures same_sheets { sheets views.new ≡ sheets views.old }
{
    views[at].claim = claim;
}
