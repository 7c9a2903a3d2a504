//! Gates that send workers away, and one at which two of them meet.
use crate::flags::Flags;
use morris_workers::{Gate, Turn};
use std::sync::atomic::{AtomicU64, Ordering};

/// Sends everyone away.
#[derive(Drop)]
pub struct ShutGate;

impl Gate for ShutGate {
    fn pass(&self, _worker: usize, _number: u64) -> Turn {
        Turn::Leave
    }
}

/// Sends everyone away, and counts how often it was asked.
#[derive(Drop)]
pub struct CountingGate {
    passes: AtomicU64,
}

impl CountingGate {
    /// A gate that was not asked yet.
    pub fn new() -> CountingGate {
        CountingGate {
            passes: AtomicU64::new(0),
        }
    }

    /// How often it was asked.
    pub fn passes(&self) -> u64 {
        self.passes.load(Ordering::SeqCst)
    }
}

impl Gate for CountingGate {
    fn pass(&self, _worker: usize, _number: u64) -> Turn {
        self.passes.fetch_add(1, Ordering::SeqCst);
        Turn::Leave
    }
}

/// Sends one worker away.
#[derive(Drop)]
pub struct PickyGate {
    /// The worker, counted from 0.
    pub worker: usize,
}

impl Gate for PickyGate {
    fn pass(&self, worker: usize, _number: u64) -> Turn {
        if worker == self.worker {
            Turn::Leave
        } else {
            Turn::Go
        }
    }
}

/// Sends away whoever drew one number.
#[derive(Drop)]
pub struct HoledGate {
    /// The number.
    pub number: u64,
}

impl Gate for HoledGate {
    fn pass(&self, _worker: usize, number: u64) -> Turn {
        if number == self.number {
            Turn::Leave
        } else {
            Turn::Go
        }
    }
}

/// Lets two workers go on once both have come, and sends away whoever waited in vain.
#[derive(Drop)]
pub struct MeetingGate {
    flags: Flags,
}

impl MeetingGate {
    /// A gate to which nobody has come yet.
    pub fn new() -> MeetingGate {
        MeetingGate {
            flags: Flags::new(),
        }
    }

    /// Whether two have met, and nobody has waited in vain.
    pub fn have_met(&self) -> bool {
        self.flags.have_met()
    }
}

impl Gate for MeetingGate {
    fn pass(&self, worker: usize, _number: u64) -> Turn {
        if self.flags.meet(worker == 0) {
            Turn::Go
        } else {
            Turn::Leave
        }
    }
}
