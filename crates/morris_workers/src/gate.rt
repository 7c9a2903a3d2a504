//! Whether a worker goes on with what it drew.
ghost use Rattle.std.specs.Prelude.{◌≡◌};

/// What a gate answers.
#[derive(Clone, Copy, Debug, PartialEq, Eq)]
pub enum Turn {
    /// The worker sends from the block that it drew.
    Go,
    /// The worker ends for this wave, and nothing is sent from the block that it drew.
    Leave,
}

/// Is asked after each draw. Workers call it side by side.
pub trait Gate: Send + Sync {
    /// What `worker`, counted from 0, is to do, which drew the block `number`.
    fn pass(&self, worker: usize, number: u64) -> Turn;
}

/// A gate that lets everyone go on.
#[derive(Clone, Copy, Debug)]
pub struct OpenGate;

impl Gate for OpenGate {
    fn pass(&self, _worker: usize, _number: u64) -> Turn
        ensures { result ≡ Turn.Go }
    {
        Turn::Go
    }
}
