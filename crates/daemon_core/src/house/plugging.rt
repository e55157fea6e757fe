//! Devices that a client takes out of their ports, and puts back.
ghost use Rattle.std.specs.Prelude.{◌≡◌, ◌≤◌, ◌<◌, ◌+◌, true, None};
ghost use Rattle.emulated_boards.specs.Conditions.{plugged, unplugged};
ghost use Rattle.fw_facts.specs.declared.seen.Seen.{Seen};
ghost use Rattle.update_log.specs.declared.answer.PlugAnswer.{PlugAnswer};
ghost use Rattle.update_log.specs.declared.event.Event.{Event};
ghost use Rattle.update_log.specs.Legal.{found_view, plug_refused, unplug_refused};
ghost use Rattle.update_log.specs.Pasts.{boots};

use super::House;
use crate::ports::{move_back, move_out, plug_refused, unplug_refused};
use crate::stop::Stop;
use device_list::Selector;
use fw_facts::Seen;
use history_keeper::Keeper;
use update_log::{Event, PlugAnswer};

impl<K: Keeper> House<K> {
    ghost use Rattle.daemon_core.specs.HouseLog.{Appended, Runs};
    ghost use Rattle.daemon_core.specs.Housed.{past};
    ghost use Rattle.daemon_core.specs.Owed.{owed};
    ghost use Rattle.daemon_core.specs.Plugging.{BoardMoved, MovedAs};
    ghost use Rattle.daemon_core.specs.Turns.{Turned};

    /// Takes a device out of its port. Nothing is done where none is found, where it is being updated, and
    /// where it isn't there.
    pub fn unplug(&mut self, client: u32, device: &Selector) -> Result<PlugAnswer, Stop>
        requires booted { 0 < boots (past self.old) }
        ensures turn { Turned client (λ answer. Event.Unplug client device.now answer) result self.old.house_log self.new.house_log }
        ensures places { MovedAs unplugged self.old.house_log device.now result self.old.places self.new.places }
        ensures pool { self.new.pool ≡ self.old.pool }
        ensures keeper { self.new.keeper ≡ self.old.keeper }
    {
        self.enter(client, 1)?;
        self.house_log.known();
        match unplug_refused(self.house_log.core(), device) {
            Some(refused) => {
                self.note(client, unplug_refused_so(client, device, refused));
                Ok(refused)
            }
            None => {
                self.take_out(client, device);
                Ok(PlugAnswer::Done { seen: Seen::Gone })
            }
        }
    }

    // Takes a device out that isn't refused.
    fn take_out(&mut self, client: u32, device: &Selector)
        requires booted { 0 < boots (past self.old) }
        requires runs { Runs self.old.house_log }
        requires loaded { self.old.house_log.loaded ≡ true }
        requires free { unplug_refused (found_view self.old.house_log.core.views device.now) ≡ None }
        requires room { owed (past self.old) + 1 ≤ self.old.house_log.room }
        ensures appended { Appended client (Event.Unplug client device.now (PlugAnswer.Done Seen.Gone)) self.old.house_log self.new.house_log }
        ensures moved { BoardMoved unplugged self.old.house_log device.now self.old.places self.new.places }
        ensures pool { self.new.pool ≡ self.old.pool }
        ensures keeper { self.new.keeper ≡ self.old.keeper }
    {
        self.house_log.known();
        let number = self.house_log.board_found(device).unwrap_or(0) as usize;
        move_out(&mut self.places, number);
        self.house_log.note(
            client,
            Event::Unplug {
                client,
                device: *device,
                answer: PlugAnswer::Done { seen: Seen::Gone },
            },
        );
    }

    /// Puts a device back into its port, also in the place of a stranger. Nothing is done where none is
    /// found, where it is being updated, and where it is there already.
    pub fn plug(&mut self, client: u32, device: &Selector) -> Result<PlugAnswer, Stop>
        requires booted { 0 < boots (past self.old) }
        ensures turn { Turned client (λ answer. Event.Plug client device.now answer) result self.old.house_log self.new.house_log }
        ensures places { MovedAs plugged self.old.house_log device.now result self.old.places self.new.places }
        ensures pool { self.new.pool ≡ self.old.pool }
        ensures keeper { self.new.keeper ≡ self.old.keeper }
    {
        self.enter(client, 1)?;
        self.house_log.known();
        match plug_refused(self.house_log.core(), device) {
            Some(refused) => {
                self.note(client, plug_refused_so(client, device, refused));
                Ok(refused)
            }
            None => {
                let seen = self.put_back(client, device);
                Ok(PlugAnswer::Done { seen })
            }
        }
    }

    // Puts a device back that isn't refused, and says what its port shows then.
    fn put_back(&mut self, client: u32, device: &Selector) -> Seen
        requires booted { 0 < boots (past self.old) }
        requires runs { Runs self.old.house_log }
        requires loaded { self.old.house_log.loaded ≡ true }
        requires free { plug_refused (found_view self.old.house_log.core.views device.now) ≡ None }
        requires room { owed (past self.old) + 1 ≤ self.old.house_log.room }
        ensures appended { Appended client (Event.Plug client device.now (PlugAnswer.Done result)) self.old.house_log self.new.house_log }
        ensures moved { BoardMoved plugged self.old.house_log device.now self.old.places self.new.places }
        ensures pool { self.new.pool ≡ self.old.pool }
        ensures keeper { self.new.keeper ≡ self.old.keeper }
    {
        self.house_log.known();
        let number = self.house_log.board_found(device).unwrap_or(0) as usize;
        let seen = move_back(&mut self.places, number);
        self.house_log.note(
            client,
            Event::Plug {
                client,
                device: *device,
                answer: PlugAnswer::Done { seen },
            },
        );
        seen
    }
}

// The event of a device that isn't taken out.
fn unplug_refused_so(client: u32, device: &Selector, refused: PlugAnswer) -> Event
    ensures { result ≡ Event.Unplug client device.now refused }
{
    Event::Unplug {
        client,
        device: *device,
        answer: refused,
    }
}

// The event of a device that isn't put back.
fn plug_refused_so(client: u32, device: &Selector, refused: PlugAnswer) -> Event
    ensures { result ≡ Event.Plug client device.now refused }
{
    Event::Plug {
        client,
        device: *device,
        answer: refused,
    }
}
