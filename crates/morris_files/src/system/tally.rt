//! How many calls of a folder have failed, and why.
ghost use Rattle.std.specs.Prelude.{◌≡◌, ℕ, ◌-◌, ◌^◌, ◌<◌, IfOk, MatchResult};
ghost use Rattle.morris_board.specs.Streams.{CountsFailure};
ghost use Rattle.morris_files.specs.Reasons.{first_of_reasons};

use crate::reason::Reason;
use morris_board::streams::Failed;

/// How many calls have failed, and why the first did, or what was noted before.
#[derive(Clone, Copy, Debug, Drop)]
pub(crate) struct Tally {
    pub(crate) failed: u64,
    pub(crate) why: Option<Reason>,
}

impl Tally {
    /// What a folder answers where a call came to this: each reason is a failure, which is counted,
    /// and nothing else is.
    pub(crate) fn count<T>(&mut self, answer: Result<T, Reason>) -> Result<T, Failed>
        requires { self.old.failed < 2 ^ 64 - 1 }
        ensures value { IfOk result (λ value. answer ≡ Ok value) }
        ensures counted { CountsFailure self.old.failed self.new.failed result }
        ensures why { MatchResult answer (λ _. self.new.why ≡ self.old.why) (λ reason. self.new.why ≡ first_of_reasons self.old.why reason) }
    {
        match answer {
            Ok(value) => Ok(value),
            Err(reason) => {
                self.failed += 1;
                self.note(reason);
                Err(Failed)
            }
        }
    }

    /// Notes a reason, unless one was noted before.
    pub(crate) fn note(&mut self, reason: Reason)
        ensures why { self.new.why ≡ first_of_reasons self.old.why reason }
        ensures failed { self.new.failed ≡ self.old.failed }
    {
        if self.why.is_none() {
            self.why = Some(reason);
        }
    }
}
