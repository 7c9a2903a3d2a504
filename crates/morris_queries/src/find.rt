//! The positions of a pair that have a value, as the entries of a file state it.
ghost use Rattle.std.specs.Prelude.{◌≡◌, ◌≢◌, ℕ, ◌-◌, ◌^◌, ◌<◌, ◌≤◌, Err, length, slice_index, take, true, IfOk, IfSome, IsOk};
ghost use Rattle.morris_pairs.specs.Counting.{table_of};
ghost use Rattle.morris_pairs.specs.Entries.{entry_count};
ghost use Rattle.morris_jobs.specs.Faults.{CountsWrites};
ghost use Rattle.morris_board.specs.Printers.{Takes};
ghost use Rattle.morris_queries.specs.Found.{AnswersFind, AreKinds, PutsEntry, PutsKind, PutsKinds, end_of, found_text, has_shown, kind_sum};

use crate::wanted::{Kind, Wanted, kinds_by};
use morris_board::board::Geometry;
use morris_board::streams::printed::Printed;
use morris_board::streams::printer::Printer;
use morris_board::streams::{Failed, Sink};
use morris_index::orbits::FallsOn;
use morris_jobs::fault::Fault;
use morris_jobs::print::print;
use morris_pairs::counting::{Coded, CountFault, Entries};
use morris_pairs::exact::value_of_code;
use morris_probe::print::{put_number_line, put_position};
use std::alloc::Global;

/// What is printed of the positions that are found.
#[derive(Clone, Copy, Debug, PartialEq, Eq)]
pub enum Shown {
    /// Their position strings, so many of them at most.
    Strings(u64),
    /// How many there are.
    Count,
}

/// Which positions are looked for, and what is printed of them.
#[derive(Clone, Copy, Debug, PartialEq, Eq)]
pub struct Search {
    /// The values that are looked for.
    pub wanted: Wanted,
    /// Whether every position of an entry's orbit is found, and not only its canonical form.
    pub all: bool,
    /// What is printed.
    pub shown: Shown,
}

/// The kinds of values that are looked for, one after the other.
type Kinds = (Option<Kind>, Option<Kind>);

/// Finds positions of the pair of these entries, and prints what is asked for: their position
/// strings, one a line, in the order of their entries, each as soon as its code is read; or how
/// many there are.
///
/// # Errors
/// [`Fault::Memory`] where memory is refused, with nothing printed; [`Fault::Read`] where a code
/// can't be read, after the strings that were found before; [`Fault::Write`], with the bytes that
/// went out, at the first write that fails.
pub(crate) fn find<B: Geometry, C: Coded, S: Sink>(
    alloc: Global,
    entries: &mut Entries<B, C>,
    search: Search,
    output: &mut S,
) -> Result<(), Fault>
    requires { S.failures output.old < 2 ^ 64 - 1 }
    ensures answer { AnswersFind B.shape entries.old search.all search.wanted search.shown (S.contents output.old) (S.contents output.new) result }
    ensures counted { CountsWrites (S.failures output.old) (S.failures output.new) result }
{
    match search.shown {
        Shown::Strings(most) => print_strings(alloc, entries, search, most, output),
        Shown::Count => print_count(alloc, entries, search, output),
    }
}

/// Prints how many positions there are, as a line.
fn print_count<B: Geometry, C: Coded, S: Sink>(
    alloc: Global,
    entries: &mut Entries<B, C>,
    search: Search,
    output: &mut S,
) -> Result<(), Fault>
    requires { S.failures output.old < 2 ^ 64 - 1 }
    ensures answer { AnswersFind B.shape entries.old search.all search.wanted Shown.Count (S.contents output.old) (S.contents output.new) result }
    ensures counted { CountsWrites (S.failures output.old) (S.failures output.new) result }
{
    let count = entries.count();
    let tallies = entries.tally(alloc, search.all, 0, count)?;
    let kinds = kinds_by(search.wanted, tallies.as_slice());
    let total = Total(sum_of(kinds.0, tallies.as_slice()) + sum_of(kinds.1, tallies.as_slice()));
    print(&total, output)
}

/// How many of the positions with these tallies have a value of the kind.
fn sum_of(kind: Option<Kind>, tallies: &[u64]) -> u64
    requires few { length tallies.now ≤ 2 ^ 16 }
    requires small { (code : ℕ) → slice_index tallies.now code ≤ 2 ^ 44 }
    ensures sum { result ≡ kind_sum kind tallies.now }
    ensures small { result ≤ 2 ^ 60 }
{
    let Some(kind) = kind else {
        return 0;
    };
    let mut sum = 0;
    for (code, count) in tallies.iter().enumerate() {
        if !kind.has(value_of_code(code as u16)) {
            continue;
        }
        sum += *count;
    }
    sum
}

/// A number, as a line.
#[derive(Clone, Copy)]
struct Total(u64);

impl Printed for Total {
    ghost use Rattle.std.specs.Prelude.{[]};
    ghost use Rattle.morris_probe.specs.Lines.{number_line};

    ghost bytes = { λ total. number_line [] total.0 };

    fn put_into<S: Sink>(&self, out: &mut Printer<'_, S>) {
        put_number_line(out, "", self.0);
    }
}

/// Prints the strings of the positions, so many of them at most.
fn print_strings<B: Geometry, C: Coded, S: Sink>(
    alloc: Global,
    entries: &mut Entries<B, C>,
    search: Search,
    most: u64,
    output: &mut S,
) -> Result<(), Fault>
    requires { S.failures output.old < 2 ^ 64 - 1 }
    ensures answer { AnswersFind B.shape entries.old search.all search.wanted (Shown.Strings most) (S.contents output.old) (S.contents output.new) result }
    ensures counted { CountsWrites (S.failures output.old) (S.failures output.new) result }
{
    let kinds = kinds_of(alloc, entries, search)?;
    let mut out = Printer::new(output);
    let read = put_kinds(entries, kinds, search.all, most, &mut out);
    end_of(out.finish(), read)
}

/// The answer, by what went out and by whether all codes were read.
fn end_of(sent: Result<u64, u64>, read: Result<(), Failed>) -> Result<(), Fault>
    ensures { result ≡ end_of sent read }
{
    match (sent, read) {
        (Err(sent), _) => Err(Fault::Write(sent)),
        (Ok(_), Err(Failed)) => Err(Fault::Read),
        (Ok(_), Ok(())) => Ok(()),
    }
}

/// The kinds of values that are looked for. For the deepest positions all entries are read once.
///
/// # Errors
/// Those of [`Entries::tally`].
fn kinds_of<B: Geometry, C: Coded>(
    alloc: Global,
    entries: &mut Entries<B, C>,
    search: Search,
) -> Result<Kinds, CountFault>
    ensures stays { entries.new ≡ entries.old }
    ensures kinds { IfOk result (λ kinds. IfSome entries.old.stated (λ known. AreKinds (has_shown B.shape (table_of entries.old known) search.all) search.wanted kinds)) }
    ensures sure { entries.old.unfailing ≡ true → result ≢ Err CountFault.Read }
{
    match search.wanted {
        Wanted::Every(kind) => Ok((Some(kind), None)),
        Wanted::Deepest => {
            let count = entries.count();
            let tallies = entries.tally(alloc, search.all, 0, count)?;
            Ok(kinds_by(search.wanted, tallies.as_slice()))
        }
    }
}

/// Puts the strings of the positions of both kinds into `out`, one kind after the other, so many at
/// most.
fn put_kinds<B: Geometry, C: Coded, S: Sink>(
    entries: &mut Entries<B, C>,
    kinds: Kinds,
    all: bool,
    most: u64,
    out: &mut Printer<'_, S>,
) -> Result<(), Failed>
    ensures put { PutsKinds S.contents S.failures B.shape entries.old all kinds most out.old out.new result }
    ensures sure { entries.old.unfailing ≡ true → IsOk result }
{
    let left = put_kind(entries, kinds.0, all, most, out)?;
    put_kind(entries, kinds.1, all, left, out)?;
    Ok(())
}

/// Puts the strings of the positions of a kind into `out`, so many at most, and answers how many
/// more there may be. No code is read any more after a write that failed.
fn put_kind<B: Geometry, C: Coded, S: Sink>(
    entries: &mut Entries<B, C>,
    kind: Option<Kind>,
    all: bool,
    most: u64,
    out: &mut Printer<'_, S>,
) -> Result<u64, Failed>
    ensures stays { entries.new ≡ entries.old }
    ensures put { PutsKind S.contents S.failures B.shape entries.old all kind most out.old out.new result }
    ensures sure { entries.old.unfailing ≡ true → IsOk result }
{
    let Some(kind) = kind else {
        return Ok(most);
    };
    let mut left = most;
    for entry in 0..entries.count() {
        if left == 0 || out.has_failed() {
            return Ok(left);
        }
        let code = entries.read_code(entry)?;
        if !kind.has(value_of_code(code)) {
            continue;
        }
        left = put_entry(entries, entry, all, left, out);
    }
    Ok(left)
}

/// Puts the strings of the positions of an entry into `out`, so many at most, and answers how many
/// more there may be.
fn put_entry<B: Geometry, C: Coded, S: Sink>(
    entries: &Entries<B, C>,
    entry: u64,
    all: bool,
    most: u64,
    out: &mut Printer<'_, S>,
) -> u64
    requires inside { entry < entry_count B.shape B.POINTS entries.now.layout entries.now.pair }
    requires some { 0 < most }
    ensures { PutsEntry S.contents S.failures B.shape entries.now.layout entries.now.pair all entry most out.old out.new result }
{
    // The proof learns here that the numbers of stones are those of a pair.
    let _ = entries.count();
    match entries.classes() {
        Some(classes) if all => put_orbit(classes.falls_on(entry), most, out),
        _ => {
            put_position(out, &entries.position(entry));
            most - 1
        }
    }
}

/// Puts the strings of an entry's orbit into `out`, so many at most, and answers how many more
/// there may be.
fn put_orbit<B: Geometry, S: Sink>(
    orbit: FallsOn<'_, B>,
    most: u64,
    out: &mut Printer<'_, S>,
) -> u64
    ensures takes { Takes S.contents S.failures out.old out.new (found_text B.shape (take most orbit.entry)) }
    ensures left { result ≡ most - length orbit.entry }
{
    let mut left = most;
    for position in orbit {
        if left == 0 {
            return 0;
        }
        put_position(out, &position);
        left -= 1;
    }
    left
}
