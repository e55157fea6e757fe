//! Where two clients meet: one is held up in its write until the other one has come to a step of its own.
use fw_base::Digest;
use outer_traits::{Failed, Gate, MemoryShelf, Shelf};
use std::hint::spin_loop;
use std::sync::atomic::{AtomicU32, Ordering};

/// How often a client looks whether the other one has come.
const LOOKS: u32 = 100_000_000;

/// The number of a prepare, as a gate is told it.
const PREPARE: u8 = 1;

/// The number of a write.
const WRITE: u8 = 3;

/// Who has come: the holder to its write, the asker to its prepare. Whether one waited in vain.
#[derive(Drop)]
pub(crate) struct Meeting {
    holder: AtomicU32,
    asker: AtomicU32,
    late: AtomicU32,
}

impl Meeting {
    /// Nobody has come.
    pub(crate) fn new() -> Meeting {
        Meeting {
            holder: AtomicU32::new(0),
            asker: AtomicU32::new(0),
            late: AtomicU32::new(0),
        }
    }

    /// Waits until the other one has come. After one wait in vain there is no second one.
    fn wait_for(&self, other: &AtomicU32) {
        if !self.was_kept() {
            return;
        }
        for _ in 0..LOOKS {
            if other.load(Ordering::SeqCst) != 0 {
                return;
            }
            spin_loop();
        }
        self.late.store(1, Ordering::SeqCst);
    }

    /// The holder comes, and waits for the asker.
    pub(crate) fn hold(&self) {
        self.holder.store(1, Ordering::SeqCst);
        self.wait_for(&self.asker);
    }

    /// The asker comes.
    fn meet(&self) {
        self.asker.store(1, Ordering::SeqCst);
    }

    /// Whether nobody waited in vain.
    pub(crate) fn was_kept(&self) -> bool {
        self.late.load(Ordering::SeqCst) == 0
    }
}

/// Two clients that meet: the one that the gate holds up in its write (0 where a plugin holds it up itself), and the one
/// that asks meanwhile.
#[derive(Clone, Copy)]
pub(crate) struct Pair {
    pub(crate) holder: u32,
    pub(crate) asker: u32,
}

/// Nobody meets.
pub(crate) const NOBODY: Pair = Pair {
    holder: 0,
    asker: 0,
};

/// A gate at which the holder meets the asker.
#[derive(Drop)]
pub(crate) struct Doors<'a> {
    pub(crate) meeting: &'a Meeting,
    pub(crate) pair: Pair,
}

impl Gate for Doors<'_> {
    fn at(&self, client: u32, entry: u32, op: u8) {
        let _ = entry;
        if client == self.pair.holder && op == WRITE {
            self.meeting.hold();
        }
        if client == self.pair.asker && op == PREPARE {
            self.meeting.meet();
        }
    }
}

/// A shelf in memory. The asker's waits at each call until the holder is in its write.
#[derive(Drop)]
pub(crate) struct WaitingShelf<'a> {
    pub(crate) files: MemoryShelf,
    pub(crate) meeting: Option<&'a Meeting>,
}

impl WaitingShelf<'_> {
    fn wait(&self) {
        if let Some(meeting) = self.meeting {
            meeting.wait_for(&meeting.holder);
        }
    }
}

impl Shelf for WaitingShelf<'_> {
    ghost use Rattle.std.specs.Prelude.{Some};

    ghost files = { λ s. Some s.files.files };

    ghost faults = { λ s. s.files.plan.faults };

    fn length(&mut self, name: &Digest) -> Result<Option<u64>, Failed> {
        self.wait();
        self.files.length(name)
    }

    fn read(&mut self, name: &Digest, at: u64, into: &mut [u8]) -> Result<usize, Failed> {
        self.wait();
        self.files.read(name, at, into)
    }
}
