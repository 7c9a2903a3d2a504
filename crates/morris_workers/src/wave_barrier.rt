//! Keeps workers from a wave until it begins.
use std::sync::{Condvar, Mutex, Wait};

// How far they are.
#[derive(Drop)]
struct Stage {
    // The last wave that has begun.
    wave: u16,
    // From how many blocks they have sent at this wave.
    sent: u64,
    // No wave begins any more.
    ended: bool,
}

/// Holds workers back until the wave begins to which they want to go.
#[derive(Drop)]
pub(crate) struct WaveBarrier {
    stage: Mutex<Stage>,
    moved: Condvar,
}

impl WaveBarrier {
    /// No wave has begun yet.
    pub(crate) fn new() -> WaveBarrier {
        WaveBarrier {
            stage: Mutex::new(Stage {
                wave: 0,
                sent: 0,
                ended: false,
            }),
            moved: Condvar::new(),
        }
    }

    /// Waits until this wave has begun, or no wave begins any more. Says whether it has.
    pub(crate) fn wait<R: Wait>(&self, rt: &R, wave: u16) -> bool {
        let stage = self.moved.wait_while(rt, self.stage.lock(rt), |stage| {
            stage.wave < wave && !stage.ended
        });
        stage.wave >= wave
    }

    /// Counts that it was sent from so many more blocks at the wave that has begun. Says whether it
    /// was sent from this many by now.
    pub(crate) fn count<R: Wait>(&self, rt: &R, more: u64, blocks: u64) -> bool {
        let mut stage = self.stage.lock(rt);
        stage.sent = stage.sent.saturating_add(more);
        stage.sent == blocks
    }

    /// This wave begins.
    pub(crate) fn begin<R: Wait>(&self, rt: &R, wave: u16) {
        let mut stage = self.stage.lock(rt);
        // It is safe that this clears `ended`: a worker that ended left a block that no `taken` of
        // an outbox counts. So `count` never says that all were sent, and no worker begins another
        // wave.
        *stage = Stage {
            wave,
            sent: 0,
            ended: false,
        };
        self.moved.notify_all();
    }

    /// No wave begins any more.
    pub(crate) fn end<R: Wait>(&self, rt: &R) {
        self.stage.lock(rt).ended = true;
        self.moved.notify_all();
    }

    /// The last wave that has begun.
    pub(crate) fn wave<R: Wait>(&self, rt: &R) -> u16 {
        self.stage.lock(rt).wave
    }
}
