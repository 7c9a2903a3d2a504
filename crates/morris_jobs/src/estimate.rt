//! About how much longer a command takes.
use morris_board::board::Geometry;
use morris_index::pair::Pair;

/// What it takes to find an entry of a pair, in nanoseconds of one processor: a row for each larger
/// number of stones, 3 to 9, and in it a column for each smaller one. Only the ratios matter.
/// Measured by classes, pair by pair up to 7-5 and by the times of whole builds up to 8-6, with 8-3
/// and 7-6 taken to be like their neighbours, 7-7 like 7-6, and pairs beyond 8-6 like those of 8
/// stones.
const WEIGHTS: [[u16; 7]; 7] = [
    [1200, 0, 0, 0, 0, 0, 0],
    [100, 20, 0, 0, 0, 0, 0],
    [140, 25, 40, 0, 0, 0, 0],
    [235, 115, 130, 185, 0, 0, 0],
    [640, 550, 360, 500, 500, 0, 0],
    [800, 410, 610, 1170, 1170, 1170, 0],
    [800, 410, 610, 1170, 1170, 1170, 1170],
];

/// What an entry of any pair takes to verify.
pub(crate) const VERIFIED: u64 = 380;

/// What an entry of a pair takes to find.
pub(crate) fn weight_of<B: Geometry>(pair: Pair<B>) -> u64 {
    let (greater, lesser) = (pair.greater(), pair.lesser());
    u64::from(WEIGHTS[greater as usize - 3][lesser as usize - 3])
}

/// How much work is done, and about how long all of it takes.
#[derive(Clone, Copy)]
pub(crate) struct Estimate {
    // What all entries weigh, and those of the pairs that are done.
    work: u64,
    done: u64,
    // What an entry of the pair at work weighs.
    weight: u64,
    // In milliseconds; 0 where it isn't known.
    expected: u64,
}

impl Estimate {
    /// An estimate for so much work, of which none is done. Entries are verified until a pair
    /// begins.
    pub(crate) fn new(work: u64) -> Estimate {
        Estimate {
            work,
            done: 0,
            weight: VERIFIED,
            expected: 0,
        }
    }

    /// An entry of the pair at work weighs so much.
    pub(crate) fn weigh(&mut self, weight: u64) {
        self.weight = weight;
    }

    /// So many entries of the pair at work are verified, so many milliseconds after the start. A
    /// report of 0 says nothing: one comes while a pair is built, too.
    pub(crate) fn note_verified(&mut self, entries: u64, passed: u64) {
        if entries > 0 {
            self.weight = VERIFIED;
            self.part(entries, passed);
        }
    }

    /// So many entries of the pair at work are done.
    fn part(&mut self, entries: u64, passed: u64) {
        let done = self.done_with(entries);
        if done > 0 {
            let expected = u128::from(passed) * u128::from(self.work) / u128::from(done);
            self.expected = u64::try_from(expected).unwrap_or(0);
        }
    }

    /// The pair at work, which has so many entries, is done.
    pub(crate) fn end(&mut self, entries: u64, passed: u64) {
        self.part(entries, passed);
        self.done = self.done_with(entries);
    }

    /// About how many seconds are left; 0 where that isn't known.
    pub(crate) fn seconds_left(&self, passed: u64) -> u64 {
        self.expected.saturating_sub(passed) / 1000
    }

    fn done_with(&self, entries: u64) -> u64 {
        self.done
            .saturating_add(entries.saturating_mul(self.weight))
    }
}
