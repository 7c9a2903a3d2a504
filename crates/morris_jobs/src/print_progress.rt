//! What is printed of how far a command is.
ghost use Rattle.std.specs.Prelude.{◌≡◌};
ghost use Rattle.morris_jobs.specs.Progress.{left_text, event_text, percent_of, so_far_text};
ghost use Rattle.morris_board.specs.Printers.{Takes};

use crate::pairs::put_stones;
use crate::progress_printer::{Line, ProgressEvent, SoFar};
use morris_board::streams::Sink;
use morris_board::streams::printed::Printed;
use morris_board::streams::printer::Printer;
use morris_probe::print::put_count;

/// How many in a hundred are done, rounded down.
fn percent(done: u64, whole: u64) -> u64
    ensures { result ≡ percent_of done whole }
{
    if done < whole {
        (100 * u128::from(done) / u128::from(whole)) as u64
    } else {
        100
    }
}

/// About how many seconds are left, or minutes where they are many.
fn put_left<S: Sink>(out: &mut Printer<'_, S>, seconds: u64)
    ensures { Takes S.contents S.failures out.old out.new (left_text seconds) }
{
    if seconds == 0 {
        return;
    }
    if seconds < 120 {
        put_count(out, ", about ", seconds);
        out.put(" s left");
    } else {
        put_count(out, ", about ", seconds / 60 + seconds % 60 / 30);
        out.put(" min left");
    }
}

/// How many entries are done, of how many, after how many seconds, and about how long the remaining
/// ones take.
fn put_so_far<S: Sink>(out: &mut Printer<'_, S>, so_far: SoFar)
    ensures { Takes S.contents S.failures out.old out.new (so_far_text so_far) }
{
    let SoFar { done, whole, .. } = so_far;
    put_count(out, ", ", done);
    put_count(out, " of ", whole);
    put_count(out, " entries (", percent(done, whole));
    out.put(" %)");
    put_count(out, ", ", so_far.seconds);
    out.put(" s");
    put_left(out, so_far.left);
}

/// A progress event, without the end of its line.
fn put_event<S: Sink>(out: &mut Printer<'_, S>, event: ProgressEvent)
    ensures { Takes S.contents S.failures out.old out.new (event_text event) }
{
    match event {
        ProgressEvent::Whole { entries, megabytes } => {
            put_count(out, "progress: ", entries);
            put_count(out, " entries, about ", megabytes);
            out.put(" MB of memory");
        }
        ProgressEvent::Wave {
            greater,
            lesser,
            wave,
            so_far,
        } => {
            out.put("progress: ");
            put_stones(out, greater, lesser);
            put_count(out, " wave ", u64::from(wave));
            put_so_far(out, so_far);
        }
        ProgressEvent::Part {
            greater,
            lesser,
            so_far,
        } => {
            out.put("progress: ");
            put_stones(out, greater, lesser);
            put_so_far(out, so_far);
        }
        ProgressEvent::Done {
            greater,
            lesser,
            so_far,
        } => {
            out.put("progress: ");
            put_stones(out, greater, lesser);
            out.put(" done");
            put_so_far(out, so_far);
        }
        ProgressEvent::Cleared => {}
    }
}

/// The line of a progress event.
impl Printed for Line {
    ghost use Rattle.morris_jobs.specs.Progress.{event_line};

    ghost bytes = { λ line. event_line line.rewrites line.event };

    #[tactic(auto, using(crate::proofs::LengthLaws::event_line_few))]
    fn put_into<S: Sink>(&self, out: &mut Printer<'_, S>) {
        let Line { event, rewrites } = *self;
        if !rewrites {
            put_event(out, event);
            out.put("\n");
            return;
        }
        out.put("\r");
        put_event(out, event);
        out.put("\x1b[K");
        if event.is_passing() {
            return;
        }
        out.put("\n");
    }
}
