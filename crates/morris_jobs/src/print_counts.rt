//! How many positions of a pair have each value, as it is printed.
#![tactic(auto, using(morris_board::proofs::PrinterLaws::takes_laws))]

ghost use Rattle.std.specs.Prelude.{◌≡◌, ◌≤◌, length, drop, slice_index};
ghost use Rattle.morris_jobs.specs.Counted.{csv_depths, csv_half, csv_lesser, csv_line, depth_label, depth_line, depth_lines, stats_text};
ghost use Rattle.morris_board.specs.Printers.{Takes};

use crate::counts::{Halves, Tallied};
use crate::pairs::put_pair;
use morris_board::board::Geometry;
use morris_board::streams::Sink;
use morris_board::streams::printed::Printed;
use morris_board::streams::printer::Printer;
use morris_index::pair::Pair;
use morris_probe::print::{put_count, put_number_line, put_signed};

impl<B: Geometry> Printed for Tallied<B> {
    ghost use Rattle.std.specs.Prelude.{◌≤◌, ◌^◌, length};
    ghost use Rattle.morris_jobs.specs.Counted.{stats_text};

    ghost bytes = { λ tallied. stats_text B.POINTS tallied.pair tallied.tallies.items };

    ghost is_short = { λ tallied. length tallied.tallies.items ≤ 2 ^ 16 };

    fn put_into<S: Sink>(&self, out: &mut Printer<'_, S>) {
        put_tallies(out, self.pair, self.tallies.as_slice());
    }
}

/// How many positions of a pair have each value. `tallies` has the numbers for the codes 0, 1, ..
pub fn put_tallies<B: Geometry, S: Sink>(out: &mut Printer<'_, S>, pair: Pair<B>, tallies: &[u64])
    ensures { Takes S.contents S.failures out.old out.new (stats_text B.POINTS pair tallies.now) }
{
    let (draws, decided) = draws_and_decided(tallies);
    put_pair(out, pair);
    put_count(out, " ", pair.size());
    out.put(" positions\n");
    put_depths(out, decided);
    put_number_line(out, "draw: ", draws);
}

/// How many positions have a depth, where there are any.
fn put_depth<S: Sink>(out: &mut Printer<'_, S>, depth: u64, count: u64)
    ensures { Takes S.contents S.failures out.old out.new (depth_line depth count) }
{
    if count == 0 {
        return;
    }
    put_count(out, depth_label(depth), depth);
    put_number_line(out, ": ", count);
}

/// What has this depth: a loss where it is even, and else a win.
fn depth_label(depth: u64) -> &'static str
    ensures { result.now ≡ depth_label depth }
{
    if depth % 2 == 0 {
        "lost in "
    } else {
        "won in "
    }
}

/// How many positions have each depth, where there are any. `counts` has the numbers for the depths
/// 0, 1, ..
fn put_depths<S: Sink>(out: &mut Printer<'_, S>, counts: &[u64])
    ensures { Takes S.contents S.failures out.old out.new (depth_lines counts.now) }
{
    for (depth, count) in counts.iter().enumerate() {
        put_depth(out, depth as u64, *count);
    }
}

/// How many positions are draws, and how many have the depths 0, 1, ..
fn draws_and_decided(tallies: &[u64]) -> (u64, &[u64])
    ensures draws { result.0 ≡ slice_index tallies.now 0 }
    ensures decided { result.1.now ≡ drop 1 tallies.now }
{
    match tallies {
        [draws, decided @ ..] => (*draws, decided),
        [] => (0, &[]),
    }
}

impl<B: Geometry> Printed for Halves<B> {
    ghost use Rattle.std.specs.Prelude.{◌≤◌, ◌^◌, length};
    ghost use Rattle.morris_jobs.specs.Counted.{csv_text};

    ghost bytes = { λ halves. csv_text halves.pair halves.lesser.items halves.greater.items };

    ghost is_short = { λ halves. (length halves.lesser.items ≤ 2 ^ 16) × (length halves.greater.items ≤ 2 ^ 16) };

    #[tactic(auto, using(crate::proofs::LengthLaws::csv_few))]
    fn put_into<S: Sink>(&self, out: &mut Printer<'_, S>) {
        out.put("own,other,result,depth,positions\n");
        put_lesser(out, self.pair, self.lesser.as_slice());
        let (own, other) = (self.pair.greater(), self.pair.lesser());
        put_half(out, own, other, self.greater.as_slice());
    }
}

/// The lines of the positions whose player to move has the smaller number of stones, unless the two
/// numbers are the same.
fn put_lesser<B: Geometry, S: Sink>(out: &mut Printer<'_, S>, pair: Pair<B>, tallies: &[u64])
    ensures { Takes S.contents S.failures out.old out.new (csv_lesser pair tallies.now) }
{
    if pair.greater() == pair.lesser() {
        return;
    }
    put_half(out, pair.lesser(), pair.greater(), tallies);
}

/// The lines of the positions with so many stones of the player to move, and of the opponent.
#[tactic(auto, using(morris_board::proofs::PrinterLaws::takes_laws), unfolding(crate::specs::Counted::csv_half))]
fn put_half<S: Sink>(out: &mut Printer<'_, S>, own: u8, other: u8, tallies: &[u64])
    ensures { Takes S.contents S.failures out.old out.new (csv_half own other tallies.now) }
{
    let (draws, decided) = draws_and_decided(tallies);
    put_csv_line(out, own, other, ",draw,", None, draws);
    put_csv_depths(out, own, other, ",won,", 1, decided);
    put_csv_depths(out, own, other, ",lost,", 0, decided);
}

/// How many positions have the depths 0, 1, .. that are even or odd, where there are any.
fn put_csv_depths<S: Sink>(
    out: &mut Printer<'_, S>,
    own: u8,
    other: u8,
    field: &str,
    odd: usize,
    counts: &[u64],
)
    ensures { Takes S.contents S.failures out.old out.new (csv_depths own other field.now odd counts.now) }
{
    for (depth, count) in counts.iter().enumerate() {
        if depth % 2 != odd {
            continue;
        }
        put_csv_line(out, own, other, field, Some(depth as u64), *count);
    }
}

/// The line of how many positions have a result, in a depth or as draws, where there are any.
fn put_csv_line<S: Sink>(
    out: &mut Printer<'_, S>,
    own: u8,
    other: u8,
    field: &str,
    depth: Option<u64>,
    count: u64,
)
    ensures { Takes S.contents S.failures out.old out.new (csv_line own other field.now depth count) }
{
    if count == 0 {
        return;
    }
    out.put_number(u64::from(own));
    put_signed(out, b',', other);
    out.put(field);
    match depth {
        Some(depth) => {
            out.put_number(depth);
            put_number_line(out, ",", count);
        }
        None => put_number_line(out, ",", count),
    }
}
