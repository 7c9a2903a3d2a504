//! Flags by which two threads see that both are at work.
use std::sync::atomic::{AtomicBool, Ordering};

// How often a thread looks for the flag of the other.
const LOOKS: u32 = 1000000000;

/// A flag for each of two threads.
#[derive(Drop)]
pub struct Flags {
    left: AtomicBool,
    right: AtomicBool,
    missed: AtomicBool,
}

impl Flags {
    /// Two flags that nobody has raised.
    pub fn new() -> Flags {
        Flags {
            left: AtomicBool::new(false),
            right: AtomicBool::new(false),
            missed: AtomicBool::new(false),
        }
    }

    /// Whether both flags are raised, and each was seen by the thread that looked for it.
    pub fn have_met(&self) -> bool {
        let are_raised = self.left.load(Ordering::SeqCst) && self.right.load(Ordering::SeqCst);
        are_raised && !self.missed.load(Ordering::SeqCst)
    }

    /// Raises one's own flag and looks for the other's until it sees it, and says whether it did.
    /// It gives up in the end, so that a thread that works alone doesn't hang.
    pub fn meet(&self, is_left: bool) -> bool {
        let (mine, other) = if is_left {
            (&self.left, &self.right)
        } else {
            (&self.right, &self.left)
        };
        mine.store(true, Ordering::SeqCst);
        for _ in 0..LOOKS {
            if other.load(Ordering::SeqCst) {
                return true;
            }
        }
        self.missed.store(true, Ordering::SeqCst);
        false
    }
}
