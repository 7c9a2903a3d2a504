//! How many positions of a pair have each value, as it is counted from the codes of entries and
//! printed.
ghost use Rattle.std.specs.Prelude.{◌≡◌, ◌≢◌, ◌-◌, ◌^◌, ◌<◌, ◌≤◌, Err, true, length, IfOk, IfSome};
ghost use Rattle.morris_pairs.specs.Counting.{AreTallies, HasStated, table_of, with_own};
ghost use Rattle.morris_pairs.specs.declared.counting.CountFault.TheVariants as fault;
ghost use Rattle.morris_jobs.specs.Counted.{AnswersStated};
ghost use Rattle.morris_jobs.specs.Faults.{CountsWrites};

use crate::fault::Fault;
use crate::print::print;
use morris_board::board::Geometry;
use morris_board::streams::Sink;
use morris_index::pair::Pair;
use morris_pairs::counting::{Coded, CountFault, Entries};
use std::alloc::Global;

/// How `stats` prints what it counts.
#[derive(Clone, Copy, Debug, PartialEq, Eq)]
pub enum Form {
    /// As lines of plain text.
    Text,
    /// As lines of plain text, with the deepest positions below them.
    Deepest,
    /// As lines of fields with commas between them.
    Csv,
}

/// How many positions of a pair have each code.
#[derive(Drop)]
pub struct Tallied<B: Geometry> {
    /// The pair.
    pub pair: Pair<B>,
    /// How many positions have the codes 0, 1, .., as far as 16 bits go.
    pub tallies: Vec<u64>,
}

impl<B: Geometry> Tallied<B> {
    /// The counts of the pair of these entries: each entry counts for its whole orbit.
    ///
    /// # Errors
    /// Those of [`Entries::tally`].
    pub fn of<C: Coded>(
        alloc: Global,
        entries: &mut Entries<B, C>,
    ) -> Result<Tallied<B>, CountFault>
        ensures stays { entries.new ≡ entries.old }
        ensures pair { IfOk result (λ tallied. tallied.pair ≡ entries.old.pair) }
        ensures few { IfOk result (λ tallied. length tallied.tallies.items ≤ 2 ^ 16) }
        ensures counted { IfOk result (λ tallied. IfSome entries.old.stated (λ known. AreTallies (HasStated B.shape (table_of entries.old known)) tallied.tallies.items)) }
        ensures sure { entries.old.unfailing ≡ true → result ≢ Err fault.Read }
    {
        let (pair, count) = (entries.pair(), entries.count());
        let tallies = entries.tally(alloc, true, 0, count)?;
        Ok(Tallied { pair, tallies })
    }
}

/// How many positions of a pair have each code, by how many stones the player to move has.
#[derive(Drop)]
pub struct Halves<B: Geometry> {
    /// The pair.
    pub pair: Pair<B>,
    /// How many positions have the codes 0, 1, .., among those whose player to move has the smaller
    /// number of stones; none where the two numbers are the same.
    pub lesser: Vec<u64>,
    /// The same for the larger number of stones.
    pub greater: Vec<u64>,
}

impl<B: Geometry> Halves<B> {
    /// The counts of the pair of these entries: each entry counts for its whole orbit.
    ///
    /// # Errors
    /// Those of [`Entries::tally`].
    pub fn of<C: Coded>(alloc: Global, entries: &mut Entries<B, C>) -> Result<Halves<B>, CountFault>
        ensures stays { entries.new ≡ entries.old }
        ensures pair { IfOk result (λ halves. halves.pair ≡ entries.old.pair) }
        ensures few { IfOk result (λ halves. (length halves.lesser.items ≤ 2 ^ 16) × (length halves.greater.items ≤ 2 ^ 16)) }
        ensures lesser { IfOk result (λ halves. IfSome entries.old.stated (λ known. entries.old.pair.lesser < entries.old.pair.greater
            → AreTallies (with_own entries.old.pair.lesser (HasStated B.shape (table_of entries.old known))) halves.lesser.items)) }
        ensures greater { IfOk result (λ halves. IfSome entries.old.stated (λ known.
            AreTallies (with_own entries.old.pair.greater (HasStated B.shape (table_of entries.old known))) halves.greater.items)) }
        ensures sure { entries.old.unfailing ≡ true → result ≢ Err fault.Read }
    {
        let (pair, first, count) = (entries.pair(), entries.first_half(), entries.count());
        let greater = entries.tally(alloc, true, 0, first)?;
        let lesser = entries.tally(alloc, true, first, count)?;
        Ok(Halves {
            pair,
            lesser,
            greater,
        })
    }
}

/// Prints how many positions of the pair of these entries have each value: as lines of text, or,
/// where `csv` is true, as lines of fields with commas between them.
///
/// # Errors
/// [`Fault::Memory`] where memory is refused, and [`Fault::Read`] where a code can't be read, with
/// nothing printed; [`Fault::Write`], with the bytes that went out, at the first write that fails.
pub fn print_counts<B: Geometry, C: Coded, S: Sink>(
    alloc: Global,
    entries: &mut Entries<B, C>,
    csv: bool,
    output: &mut S,
) -> Result<(), Fault>
    requires { S.failures output.old < 2 ^ 64 - 1 }
    ensures answer { AnswersStated B.shape entries.old csv (S.contents output.old) (S.contents output.new) result }
    ensures counted { CountsWrites (S.failures output.old) (S.failures output.new) result }
{
    if csv {
        let halves = Halves::of(alloc, entries)?;
        return print(&halves, output);
    }
    let tallied = Tallied::of(alloc, entries)?;
    print(&tallied, output)
}
