//! Boards that are taken out of their ports, and put back.
ghost use Rattle.std.specs.Prelude.{◌≡◌, ◌<◌, true, IfSome, IsSome, length, option_copied, slice_set};
ghost use Rattle.emulated_boards.specs.Conditions.{plugged, unplugged};
ghost use Rattle.update_log.specs.Legal.{found_view, plug_refused, unplug_refused};
ghost use Rattle.daemon_core.specs.Housed.{Place};
ghost use Rattle.daemon_core.specs.Plugging.{Moved, MovedShowing};
ghost use Rattle.daemon_core.specs.Quiet.{moves_none};
ghost use Rattle.daemon_core.specs.Returns.{place_at};

use crate::place::BoardPlace;
use crate::settling::found_view;
use core_state::CoreState;
use device_list::Selector;
use fw_facts::{DeviceView, Seen};
use update_log::{PlugAnswer, is_home};

/// Why the device that a selector finds isn't taken out of its port.
pub(crate) fn unplug_refused(core: &CoreState, device: &Selector) -> Option<PlugAnswer>
    ensures why { result ≡ unplug_refused (found_view core.now.views device.now) }
    ensures stays { IfSome result (λ refused. moves_none refused ≡ true) }
{
    why_not_out(found_view(core, device))
}

fn why_not_out(view: Option<&DeviceView>) -> Option<PlugAnswer>
    ensures why { result ≡ unplug_refused (option_copied view.entry) }
    ensures stays { IfSome result (λ refused. moves_none refused ≡ true) }
{
    let Some(view) = view else {
        return Some(PlugAnswer::NoDevice);
    };
    if let Some(entry) = view.claim {
        return Some(PlugAnswer::Busy { entry });
    }
    if is_home(view.seen) {
        return None;
    }
    Some(PlugAnswer::NotThere)
}

/// Why the device that a selector finds isn't put back into its port.
pub(crate) fn plug_refused(core: &CoreState, device: &Selector) -> Option<PlugAnswer>
    ensures why { result ≡ plug_refused (found_view core.now.views device.now) }
    ensures stays { IfSome result (λ refused. moves_none refused ≡ true) }
{
    why_not_back(found_view(core, device))
}

fn why_not_back(view: Option<&DeviceView>) -> Option<PlugAnswer>
    ensures why { result ≡ plug_refused (option_copied view.entry) }
    ensures stays { IfSome result (λ refused. moves_none refused ≡ true) }
{
    let Some(view) = view else {
        return Some(PlugAnswer::NoDevice);
    };
    if let Some(entry) = view.claim {
        return Some(PlugAnswer::Busy { entry });
    }
    if is_home(view.seen) {
        return Some(PlugAnswer::AlreadyThere);
    }
    None
}

/// Takes the board at a place out of its port.
pub(crate) fn move_out(places: &mut Vec<BoardPlace>, number: usize)
    requires within { number < length places.old.items }
    requires home { IsSome (place_at places.old.items number).board }
    ensures { (after : Place) × Moved unplugged (place_at places.old.items number) after × (places.new.items ≡ slice_set places.old.items number after) }
{
    take_from_port(&mut places[number]);
}

fn take_from_port(place: &mut BoardPlace)
    requires { IsSome place.old.board }
    ensures { Moved unplugged place.old place.new }
{
    let mut board = place.board.take().unwrap();
    board.unplug();
    place.board = Some(board);
}

/// Puts the board at a place back into its port, and says what it shows there.
pub(crate) fn move_back(places: &mut Vec<BoardPlace>, number: usize) -> Seen
    requires within { number < length places.old.items }
    requires home { IsSome (place_at places.old.items number).board }
    ensures { (after : Place) × MovedShowing plugged (place_at places.old.items number) after result × (places.new.items ≡ slice_set places.old.items number after) }
{
    put_into_port(&mut places[number])
}

fn put_into_port(place: &mut BoardPlace) -> Seen
    requires { IsSome place.old.board }
    ensures { MovedShowing plugged place.old place.new result }
{
    let mut board = place.board.take().unwrap();
    board.plug();
    let seen = board.view();
    place.board = Some(board);
    seen
}
