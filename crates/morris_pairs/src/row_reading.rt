//! The nodes of a graph by classes, read row by row: all entries with the same own stones follow
//! one another.
ghost use Rattle.std.specs.Prelude.{◌≡◌, ℕ, ◌+◌, ◌<◌, ◌≤◌, min, length, slice_index};
ghost use Rattle.morris_index.specs.Pairs.{IsPair};
ghost use Rattle.morris_pairs.specs.Entries.{entry_count};
ghost use Rattle.morris_pairs.specs.CaptureCaches.{IsCaptureCache, codes_left};
ghost use Rattle.morris_pairs.specs.PairNets.{level_of, net_at};
ghost use Rattle.morris_wave.specs.Exits.{exits_of};
ghost use Rattle.morris_wave.specs.Solving.{exits_at};

use crate::capture_cache::CaptureCache;
use crate::graph::PairGraph;
use crate::layout::Layout;
use crate::numbered_row::NumberedRow;
use crate::rows::Row;
use morris_board::board::Geometry;
use morris_index::class_pair::ClassPair;
use morris_index::entry_rows::EntryRow;
use morris_wave::Exits;
use std::alloc::Global;

/// Reads the entries of a row from its first on, as many as there is room for, and returns how many
/// these are.
fn read_row<B: Geometry>(
    graph: &PairGraph<B>,
    entries: &EntryRow<B>,
    cache: &mut CaptureCache,
    counts: &mut [u16],
    exits: &mut [Exits],
) -> usize
    requires pair { entries.now.pair ≡ graph.now }
    requires lawful { IsPair B.POINTS graph.now }
    requires room { length exits.old ≡ length counts.old }
    requires cache { IsCaptureCache (codes_left B.shape) cache.old }
    ensures cache { IsCaptureCache (codes_left B.shape) cache.new }
    ensures many { result ≡ min entries.now.len (length counts.old) }
    ensures counts { (k : ℕ) → k < result → slice_index counts.new k ≡ length ((net_at B.shape (level_of Layout.Classes graph.now)).quiet (entries.now.first + k)) }
    ensures exits { (k : ℕ) → k < result → exits_at exits.new k ≡ exits_of ((net_at B.shape (level_of Layout.Classes graph.now)).exits (entries.now.first + k)) }
{
    let row = NumberedRow::of::<B>(&Row::of::<B>(entries.own()));
    let many = entries.len().min(counts.len());
    for place in 0..many {
        let numbers = entries.numbers(place);
        counts[place] = row.quiet_moves::<B>(numbers);
        // Written in place before any call: most entries have no capture, and are done with this.
        exits[place] = Exits::NONE;
        if row.may_capture::<B>(numbers) {
            exits[place] = graph.exits_with_cache(&row.row, &entries.position(place), cache);
        }
    }
    many
}

/// Reads the entries from `first` on, as many as there is room for: the numbers of quiet moves of
/// their positions, and the summaries of what their captures lead to. Where memory is refused,
/// nothing is cached from entry to entry.
pub(crate) fn read_rows<B: Geometry>(
    alloc: Global,
    graph: &PairGraph<B>,
    classes: &ClassPair<B>,
    first: u64,
    counts: &mut [u16],
    exits: &mut [Exits],
)
    requires pair { classes.now ≡ graph.now }
    requires lawful { IsPair B.POINTS graph.now }
    requires room { length exits.old ≡ length counts.old }
    requires inside { first + length counts.old ≤ entry_count B.shape B.POINTS Layout.Classes graph.now }
    ensures counts { (k : ℕ) → k < length counts.old → slice_index counts.new k ≡ length ((net_at B.shape (level_of Layout.Classes graph.now)).quiet (first + k)) }
    ensures exits { (k : ℕ) → k < length exits.old → exits_at exits.new k ≡ exits_of ((net_at B.shape (level_of Layout.Classes graph.now)).exits (first + k)) }
{
    // The proof learns here that the entries are few.
    let _ = classes.size();
    let mut cache = CaptureCache::new(alloc);
    let mut done = 0;
    while done < counts.len() {
        let entries = classes.row_from(first + done as u64);
        done += read_row(
            graph,
            &entries,
            &mut cache,
            &mut counts[done..],
            &mut exits[done..],
        );
    }
}
