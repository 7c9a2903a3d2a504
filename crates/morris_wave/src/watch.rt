//! How progress is reported.
ghost use Rattle.std.specs.Prelude.{◌≡◌};

/// Receives the progress of a solver, a sweep or whoever goes through the entries of a table, on
/// the thread that called it.
///
/// A solver by workers reports a wave between two waves: no worker runs then, and no block is
/// locked.
pub trait Watch {
    // What the watch may be after any number of reports.
    ghost becomes: { Self → Self → Type 0 };

    /// The wave of this number begins. Waves are counted from 1, and each is reported once, in
    /// their order.
    fn wave(&mut self, wave: u16)
        ensures { becomes self.old self.new };

    /// So many entries of the table at work are done, of those that it has.
    fn entries(&mut self, done: u64)
        ensures { becomes self.old self.new };

    // Without a report it is what it was.
    ghost stays: { (watch : Self) → becomes watch watch };

    // What it may be after some reports and then after others, it may be after all of them.
    ghost joins: { (first then last : Self) → becomes first then → becomes then last → becomes first last };
}

/// No progress: a watch that does nothing.
#[derive(Clone, Copy)]
pub struct NoProgress;

impl Watch for NoProgress {
    ghost use Rattle.std.specs.Prelude.{refl};
    ghost use Rattle.std.proofs.Common.{◌∙◌};

    ghost becomes = { λ old new. new ≡ old };

    fn wave(&mut self, _wave: u16) {}

    fn entries(&mut self, _done: u64) {}

    ghost stays = { λ watch. refl };

    ghost joins = { λ first then last once again. again ∙ once };
}
