//! Progress, line by line.
ghost use Rattle.std.specs.Prelude.{◌≡◌, ℕ, ◌-◌, ◌^◌, ◌<◌, true, false, length, max};
ghost use Rattle.morris_jobs.specs.Progress.{Becomes, CountsMore, MayReport, Speaks, ReportsLine, at_work_of, has_begun_of, is_passing, lent_of, part_of, rewrites_of, sink_of, progress_state_of, reports_of};
ghost use Rattle.morris_jobs.specs.Sizes.{entries_below};

use crate::estimate::{Estimate, weight_of};
use crate::print::send;
use crate::progress::Progress;
use crate::size::{Plan, Size};
use morris_board::board::Geometry;
use morris_board::streams::Sink;
use morris_index::pair::Pair;
use morris_pairs::exact::Exact;
use morris_pairs::layout::Layout;
use morris_workers::Watch;
use std::time::{Clock, Instant};

/// What a line reports.
#[derive(Clone, Copy, Debug)]
pub enum ProgressEvent {
    /// Before all else: how many entries there are in all, and about how many megabytes of memory
    /// it takes to find them.
    Whole {
        entries: u64,
        megabytes: u64,
    },
    /// A wave, counted from 1, begins for the pair of these numbers of stones.
    Wave {
        greater: u8,
        lesser: u8,
        wave: u16,
        so_far: SoFar,
    },
    /// So many entries are done, in the midst of the pair of these numbers of stones.
    Part {
        greater: u8,
        lesser: u8,
        so_far: SoFar,
    },
    /// The pair of these numbers of stones is done.
    Done {
        greater: u8,
        lesser: u8,
        so_far: SoFar,
    },
    /// Nothing, in place of what a terminal shows.
    Cleared,
}

impl ProgressEvent {
    /// Whether a terminal shows it only until something takes its place.
    pub(crate) fn is_passing(&self) -> bool
        ensures { result ≡ is_passing self.now }
    {
        match self {
            ProgressEvent::Whole { .. } | ProgressEvent::Done { .. } => false,
            ProgressEvent::Wave { .. } | ProgressEvent::Part { .. } | ProgressEvent::Cleared =>
                true,
        }
    }
}

/// A progress event as a line, which on a terminal takes the place of the last one.
#[derive(Clone, Copy)]
pub(crate) struct Line {
    pub(crate) event: ProgressEvent,
    pub(crate) rewrites: bool,
}

/// How far it is.
#[derive(Clone, Copy, Debug)]
pub struct SoFar {
    /// How many entries are done: those of the pairs that are, and those of the pair at work.
    pub done: u64,
    /// How many there are in all.
    pub whole: u64,
    /// How many seconds it has taken, rounded down.
    pub seconds: u64,
    /// About how many it takes from here on; 0 where that isn't known.
    pub left: u64,
}

/// Reports the progress of a command on a sink, one line at a time, or nothing where nobody asked.
///
/// A line of a wave or of entries comes at most once a second; one of a pair that is done always.
/// On a terminal each takes the place of the last one, unless that says how much there is to do or
/// that a pair is done. After a line that couldn't be written nothing more is reported, and nothing
/// else changes.
#[derive(Drop)]
pub struct ProgressPrinter<'a, R, E> {
    clock: &'a R,
    errors: &'a mut E,
    reports: bool,
    rewrites: bool,
    // `None` where the clock can't be read: then everything is reported at second 0.
    began: Option<Instant>,
    // When the last line of a pair was written: of a wave, of its entries or of its end.
    last_second: u64,
    has_begun: bool,
    // The pair that is at work.
    greater: u8,
    lesser: u8,
    // How many of its entries are done; how many those of the pairs that are done have, and how
    // many entries there are.
    part: u64,
    done: u64,
    whole: u64,
    estimate: Estimate,
}

impl<'a, R: Clock, E: Sink> ProgressPrinter<'a, R, E> {
    /// A printer on `errors`, which reports if that is wanted; seconds are counted from now on by
    /// `clock`. `rewrites` says that `errors` is a terminal.
    pub fn new(
        clock: &'a R,
        wanted: bool,
        rewrites: bool,
        errors: &'a mut E,
    ) -> ProgressPrinter<'a, R, E>
        ensures lent { lent_of result ≡ errors.entry.ghost_name }
        ensures sink { sink_of result ≡ errors.old }
        ensures reports { reports_of result ≡ wanted }
        ensures rewrites { rewrites_of result ≡ rewrites }
        ensures new { has_begun_of result ≡ false }
    {
        ProgressPrinter {
            clock,
            errors,
            reports: wanted,
            rewrites,
            began: Instant::now(clock).ok(),
            last_second: 0,
            has_begun: false,
            greater: 0,
            lesser: 0,
            part: 0,
            done: 0,
            whole: 0,
            estimate: Estimate::new(0),
        }
    }

    /// Clears what a terminal still shows. Nothing may be reported after that.
    pub fn clear(&mut self)
        ensures reported { Becomes E.contents E.failures self.old self.new }
        ensures line { rewrites_of self.old ≡ true → has_begun_of self.old ≡ true → ReportsLine E.contents E.failures self.old self.new ProgressEvent.Cleared }
        ensures lines { rewrites_of self.old ≡ false → self.new ≡ self.old }
    {
        if self.rewrites {
            self.report(ProgressEvent::Cleared);
        }
    }

    /// How far it is after so many milliseconds.
    fn so_far(&self, passed: u64) -> SoFar
        ensures { CountsMore self.now (part_of self.now) result }
    {
        let done = self.done.saturating_add(self.part);
        SoFar {
            done,
            whole: self.whole.max(done),
            seconds: passed / 1000,
            left: self.estimate.seconds_left(passed),
        }
    }

    /// How many milliseconds it has taken.
    fn milliseconds(&self) -> u64 {
        let Some(began) = self.began else {
            return 0;
        };
        match began.elapsed(self.clock) {
            Ok(passed) => u64::try_from(passed.as_millis()).unwrap_or(u64::MAX),
            Err(_) => 0,
        }
    }

    /// Reports an event, and nothing more after a write that failed. Nothing is reported before it
    /// is known how much there is to do.
    fn report(&mut self, event: ProgressEvent)
        ensures reported { Speaks E.contents E.failures (progress_state_of self.old) (progress_state_of self.new) event }
        ensures part { part_of self.new ≡ part_of self.old }
    {
        if !self.reports || !self.has_begun {
            return;
        }
        // The caller has to have room for a failure of its own.
        if self.errors.failures() >= u64::MAX - 2 {
            self.reports = false;
            return;
        }
        let line = Line {
            event,
            rewrites: self.rewrites,
        };
        self.reports = send(&line, self.errors).is_ok();
    }

    /// Reports an event of this second, unless one of this second was reported before.
    fn report_in_time(&mut self, event: ProgressEvent, second: u64)
        ensures reported { Becomes E.contents E.failures self.old self.new }
        ensures part { part_of self.new ≡ part_of self.old }
        ensures line { MayReport E.contents E.failures self.old self.new event }
    {
        if second <= self.last_second {
            return;
        }
        self.last_second = second;
        self.report(event);
    }
}

/// Each line is written once it is known how much there is to do.
impl<'a, R: Clock, E: Sink> Progress for ProgressPrinter<'a, R, E> {
    ghost is_reported = { λ progress. reports_of progress };

    /// Whether any more lines are written.
    fn is_reported(&self) -> bool {
        self.reports
    }

    /// Reports how much there is to do, unless that was reported before. Nothing is reported before
    /// this.
    fn start_with_size(&mut self, size: Size)
        ensures reported { Becomes E.contents E.failures self.old self.new }
        ensures first { has_begun_of self.old ≡ false
            → (megabytes : ℕ) × ReportsLine E.contents E.failures self.old self.new (ProgressEvent.Whole size.entries megabytes) }
        ensures again { has_begun_of self.old ≡ true → self.new ≡ self.old }
    {
        if !self.reports || self.has_begun {
            return;
        }
        let Size {
            entries,
            work,
            bytes,
        } = size;
        self.has_begun = true;
        self.whole = entries;
        self.estimate = Estimate::new(work);
        let megabytes = bytes.div_ceil(1_000_000);
        self.report(ProgressEvent::Whole { entries, megabytes });
    }

    /// Reports how much there is to do where the tables of all pairs below a pair are made by this
    /// plan, unless that was reported before. It takes no memory.
    fn start<B: Geometry>(&mut self, pair: Pair<B>, layout: Layout, plan: Plan)
        ensures reported { Becomes E.contents E.failures self.old self.new }
        // As far as 64 bits hold the number of entries.
        ensures first { has_begun_of self.old ≡ false → entries_below B.shape B.POINTS layout pair plan < 2 ^ 64
            → (megabytes : ℕ) × ReportsLine E.contents E.failures self.old self.new (ProgressEvent.Whole (entries_below B.shape B.POINTS layout pair plan) megabytes) }
        ensures again { has_begun_of self.old ≡ true → self.new ≡ self.old }
    {
        // Nothing is counted where nothing is reported.
        if self.reports && !self.has_begun {
            self.start_with_size(Size::of(pair, layout, plan));
        }
    }

    /// A pair begins, of which no entry is done.
    fn begin_pair<B: Geometry>(&mut self, pair: Pair<B>)
        ensures reported { Becomes E.contents E.failures self.old self.new }
        ensures pair { at_work_of self.new ≡ pair }
        ensures part { part_of self.new ≡ 0 }
    {
        self.greater = pair.greater();
        self.lesser = pair.lesser();
        self.part = 0;
        self.estimate.weigh(weight_of(pair));
    }

    /// Reports that the pair of an exact table is done, with all entries of the table.
    fn end_pair<B: Geometry>(&mut self, table: &Exact<B>)
        ensures reported { Becomes E.contents E.failures self.old self.new }
        ensures line { has_begun_of self.old ≡ true → (so_far : SoFar) × CountsMore self.old (length table.now.codes) so_far
            × ReportsLine E.contents E.failures self.old self.new (ProgressEvent.Done table.now.pair.greater table.now.pair.lesser so_far) }
    {
        let pair = table.pair();
        self.part = 0;
        self.done = self.done.saturating_add(table.len());
        let passed = self.milliseconds();
        self.estimate.end(table.len(), passed);
        let so_far = self.so_far(passed);
        self.last_second = so_far.seconds;
        self.report(ProgressEvent::Done {
            greater: pair.greater(),
            lesser: pair.lesser(),
            so_far,
        });
    }
}

/// Waves and entries are reported at most once a second.
impl<'a, R: Clock, E: Sink> Watch for ProgressPrinter<'a, R, E> {
    ghost use Rattle.std.specs.Prelude.{◌≡◌, max};
    ghost use Rattle.morris_jobs.specs.Progress.{Becomes, CountsMore, MayReport, at_work_of, part_of};
    ghost use Rattle.morris_jobs.specs.ProgressLaws.{Becomes-joins, Becomes-stays};

    ghost becomes = { λ old new. Becomes E.contents E.failures old new };

    fn wave(&mut self, wave: u16) {
        let so_far = self.so_far(self.milliseconds());
        let event = ProgressEvent::Wave {
            greater: self.greater,
            lesser: self.lesser,
            wave,
            so_far,
        };
        self.report_in_time(event, so_far.seconds);
    }

    /// So many entries of the pair at work are done; where more were reported before, that many.
    fn entries(&mut self, done: u64)
        ensures reported { Becomes E.contents E.failures self.old self.new }
        ensures part { part_of self.new ≡ max (part_of self.old) done }
        ensures line { (so_far : SoFar) × CountsMore self.old (max (part_of self.old) done) so_far
            × MayReport E.contents E.failures self.old self.new (ProgressEvent.Part (at_work_of self.old).greater (at_work_of self.old).lesser so_far) }
    {
        self.part = self.part.max(done);
        let passed = self.milliseconds();
        self.estimate.note_verified(self.part, passed);
        let so_far = self.so_far(passed);
        let event = ProgressEvent::Part {
            greater: self.greater,
            lesser: self.lesser,
            so_far,
        };
        self.report_in_time(event, so_far.seconds);
    }

    ghost stays = { λ reported. Becomes-stays E.contents E.failures reported };

    ghost joins = { λ first midway last once again. Becomes-joins E.contents E.failures first midway last once again };
}
