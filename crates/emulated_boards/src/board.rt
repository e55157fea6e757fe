//! The emulated board.
ghost use Rattle.std.specs.Prelude.{◌≡◌, ◌<◌, ◌≤◌, ◌↔◌, [], IsOk, OnOk, OnErr};
ghost use Rattle.emulated_boards.specs.Images.{image_of, payload_image};
ghost use Rattle.emulated_boards.specs.Plans.{IsPlan};
ghost use Rattle.emulated_boards.specs.Conditions.{ShowsBoard, booted, fresh, plugged, unplugged, view_of};
ghost use Rattle.emulated_boards.specs.Boards.{BoardStep, SameBoard, SameRecords, enter_loader, leave_loader, look, program, stage};
ghost use Rattle.emulated_boards.specs.declared.condition.Presence.TheVariants.{Home};

use crate::condition::{Condition, Presence};
use crate::fault::{BoardFault, FaultPlan, PlannedFault};
use crate::image::Image;
use crate::journal::Journal;
use crate::mark::Mark;
use block_pool::Payload;
use fw_base::NoMemory;
use fw_facts::{Mode, Seen};
use std::alloc::Global;
use std::marker::Model;

/// A board: it runs an image, and writes down what is done to it.
///
/// Each of its five steps counts a call. Where the board's plan names the number of the call, the step
/// answers the planned fault, and otherwise it goes well.
#[derive(Drop)]
pub struct Board {
    condition: Condition,
    journal: Journal,
    plan: FaultPlan,
}

impl Model for Board {
    ghost use Rattle.emulated_boards.specs.Boards.{BoardState};

    ghost Value = { BoardState };

    ghost view = { λ a. record { condition = a.condition; journal = a.journal.marks; room = a.journal.room; plan = a.plan.planned.items; calls = a.plan.calls; faults = a.plan.faults; counted = a.plan.counted } };
}

impl Board {
    /// A new board at home, in runtime mode where its image is good, else in bootloader mode. Its
    /// journal is empty. Takes no memory.
    pub fn new(alloc: Global, image: &[u8], faults: Vec<PlannedFault>) -> Board
        requires { IsPlan faults.items }
        ensures condition { result.condition ≡ fresh (image_of image.now) }
        ensures journal { result.journal ≡ [] }
        ensures plan { result.plan ≡ faults.items }
        ensures calls { result.calls ≡ 0 }
        ensures faults { result.faults ≡ 0 }
    {
        Board {
            condition: Condition::fresh(Image::of_bytes(image)),
            journal: Journal::new(alloc),
            plan: FaultPlan::new(faults),
        }
    }

    /// Makes room for this many marks. This alone takes memory.
    pub fn reserve_marks(&mut self, room: usize) -> Result<(), NoMemory>
        ensures reserved { OnOk result (room ≤ self.new.room) }
        ensures never_less { self.old.room ≤ self.new.room }
        ensures same_room { OnErr result (self.new.room ≡ self.old.room) }
        ensures same { SameBoard self.old self.new }
        ensures there_already { room ≤ self.old.room → IsOk result }
    {
        self.journal.reserve(room)
    }

    /// Enters the boot loader, where the board is at home and in runtime mode.
    pub fn enter_loader(&mut self) -> Result<(), BoardFault>
        requires { 0 < self.old.room }
        ensures { BoardStep self.old enter_loader result self.new }
    {
        if let Some(fault) = self.plan.next_call() {
            self.condition.away(fault);
            return Err(fault);
        }
        if self.condition.presence == Presence::Home && self.condition.mode == Mode::Runtime {
            self.condition.mode = Mode::Bootloader;
            self.journal.note(Mark::Entered);
        }
        Ok(())
    }

    /// Leaves the boot loader, where the board is at home, in bootloader mode, and its image is good.
    pub fn leave_loader(&mut self) -> Result<(), BoardFault>
        requires { 0 < self.old.room }
        ensures { BoardStep self.old leave_loader result self.new }
    {
        if let Some(fault) = self.plan.next_call() {
            self.condition.away(fault);
            return Err(fault);
        }
        if self.condition.presence == Presence::Home
            && self.condition.mode == Mode::Bootloader
            && self.condition.image.raw.is_some()
        {
            self.condition.mode = Mode::Runtime;
            self.journal.note(Mark::Left);
        }
        Ok(())
    }

    /// Looks whether the board is still there.
    pub fn look(&mut self) -> Result<(), BoardFault>
        ensures { BoardStep self.old look result self.new }
    {
        if let Some(fault) = self.plan.next_call() {
            self.condition.away(fault);
            return Err(fault);
        }
        Ok(())
    }

    /// Makes the payload the image. A write that breaks off leaves a bad one.
    pub fn program(&mut self, entry: u32, payload: &Payload) -> Result<(), BoardFault>
        requires home { self.old.condition.presence ≡ Home }
        requires room { 2 ≤ self.old.room }
        ensures { BoardStep self.old (program entry (payload_image payload.now)) result self.new }
    {
        let image = Image::of_payload(payload);
        match self.plan.next_call() {
            None => {
                self.condition.run(image);
                self.journal.note_write(entry, image.digest);
                Ok(())
            }
            Some(BoardFault::Failed) => Err(BoardFault::Failed),
            Some(fault) => {
                self.condition.tear();
                self.condition.away(fault);
                self.journal.note(Mark::Began { entry });
                Err(fault)
            }
        }
    }

    /// Keeps the payload as the image that the next boot starts.
    pub fn stage(&mut self, entry: u32, payload: &Payload) -> Result<(), BoardFault>
        requires home { self.old.condition.presence ≡ Home }
        requires room { 2 ≤ self.old.room }
        ensures { BoardStep self.old (stage entry (payload_image payload.now)) result self.new }
    {
        let image = Image::of_payload(payload);
        match self.plan.next_call() {
            None => {
                self.condition.staged = Some(image);
                self.journal.note_write(entry, image.digest);
                Ok(())
            }
            Some(BoardFault::Failed) => Err(BoardFault::Failed),
            Some(fault) => {
                self.condition.away(fault);
                self.journal.note(Mark::Began { entry });
                Err(fault)
            }
        }
    }

    /// What the board's port shows.
    pub fn view(&self) -> Seen
        ensures shown { result ≡ view_of self.now.condition }
        ensures home { ShowsBoard result ↔ (self.now.condition.presence ≡ Home) }
    {
        self.condition.view()
    }

    /// Starts the board: a staged image becomes the image. An absent board isn't in its port.
    pub fn boot(&mut self, absent: bool)
        ensures condition { self.new.condition ≡ booted absent self.old.condition }
        ensures same { SameRecords self.old self.new }
    {
        self.condition.boot(absent);
    }

    /// Puts the board into its port.
    pub fn plug(&mut self)
        ensures condition { self.new.condition ≡ plugged self.old.condition }
        ensures same { SameRecords self.old self.new }
    {
        self.condition.plug();
    }

    /// Takes the board out of its port.
    pub fn unplug(&mut self)
        ensures condition { self.new.condition ≡ unplugged self.old.condition }
        ensures same { SameRecords self.old self.new }
    {
        self.condition.unplug();
    }

    /// The journal, the oldest mark first.
    pub fn marks(&self) -> &[Mark]
        ensures { result.now ≡ self.now.journal }
    {
        self.journal.marks()
    }
}
