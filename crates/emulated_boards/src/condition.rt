//! What a board carries and shows.
ghost use Rattle.std.specs.Prelude.{◌≡◌};
ghost use Rattle.emulated_boards.specs.Conditions.{away, booted, fresh, plugged, runs, start_mode, torn, unplugged, view_of};

use crate::fault::BoardFault;
use crate::image::Image;
use fw_facts::{Mode, Seen};

/// What stands in a board's port.
#[derive(Clone, Copy, Debug, PartialEq, Eq)]
pub enum Presence {
    /// The board.
    Home,
    /// Nothing.
    Gone,
    /// Another board.
    Stranger,
}

/// What a board carries and shows: its image, the image that its next boot starts where one is staged,
/// its mode, and what stands in its port.
#[derive(Clone, Copy, Debug, PartialEq, Eq)]
pub struct Condition {
    pub image: Image,
    pub staged: Option<Image>,
    pub mode: Mode,
    pub presence: Presence,
}

impl Condition {
    /// A new board with this image, in its port.
    pub(crate) fn fresh(image: Image) -> Condition
        ensures { result ≡ fresh image }
    {
        Condition {
            image,
            staged: None,
            mode: start_mode(&image),
            presence: Presence::Home,
        }
    }

    /// What the port shows.
    pub(crate) fn view(&self) -> Seen
        ensures { result ≡ view_of self.now }
    {
        match self.presence {
            Presence::Home => Seen::Home {
                raw: self.image.raw.unwrap_or(0),
                mode: self.mode,
            },
            Presence::Gone => Seen::Gone,
            Presence::Stranger => Seen::Stranger,
        }
    }

    /// Starts the staged image, where there is one, or the image again.
    pub(crate) fn boot(&mut self, absent: bool)
        ensures { self.new ≡ booted absent self.old }
    {
        let image = self.staged.unwrap_or(self.image);
        self.image = image;
        self.staged = None;
        self.mode = start_mode(&image);
        self.presence = if absent {
            Presence::Gone
        } else {
            Presence::Home
        };
    }

    /// Runs this image from now on. A bad one leaves the board in its boot loader.
    pub(crate) fn run(&mut self, image: Image)
        ensures { self.new ≡ runs image self.old }
    {
        self.image = image;
        if image.raw.is_none() {
            self.mode = Mode::Bootloader;
        }
    }

    /// Leaves the bad image of a write that broke off.
    pub(crate) fn tear(&mut self)
        ensures { self.new ≡ torn self.old }
    {
        self.image.raw = None;
        self.mode = Mode::Bootloader;
    }

    /// Leaves the port, where the fault says so.
    pub(crate) fn away(&mut self, fault: BoardFault)
        ensures { self.new ≡ away fault self.old }
    {
        match fault {
            BoardFault::Failed | BoardFault::Torn => {}
            BoardFault::Gone => self.presence = Presence::Gone,
            BoardFault::Stranger => self.presence = Presence::Stranger,
        }
    }

    /// Puts the board into its port.
    pub(crate) fn plug(&mut self)
        ensures { self.new ≡ plugged self.old }
    {
        self.mode = start_mode(&self.image);
        self.presence = Presence::Home;
    }

    /// Takes the board out of its port.
    pub(crate) fn unplug(&mut self)
        ensures { self.new ≡ unplugged self.old }
    {
        self.presence = Presence::Gone;
    }
}

/// The mode in which an image starts.
fn start_mode(image: &Image) -> Mode
    ensures { result ≡ start_mode image.now }
{
    match image.raw {
        Some(_) => Mode::Runtime,
        None => Mode::Bootloader,
    }
}
