//! The entries of pairs, where their positions are numbered by classes.
ghost use Rattle.std.specs.Prelude.{◌≡◌};

use crate::checks::{holds, same};
use crate::rules::texts::pair;
use morris_board::board::Geometry;
use morris_board::grid::Grid;
use morris_board::nine::Nine;
use morris_index::class_pair::ClassPair;
use morris_index::pair::Pair;
use std::alloc::Global;
use std::process::Abort;

/// The entries of a pair.
fn entries_of<B: Geometry>(rt: &impl Abort, alloc: Global, pair: Pair<B>) -> ClassPair<B>
    ensures { result ≡ pair }
{
    ClassPair::make(alloc, pair).expect(rt, "memory")
}

/// The pair of two numbers of stones has so many entries.
fn assert_entries<B: Geometry>(rt: &impl Abort, alloc: Global, (a, b): (u8, u8), entries: u64) {
    let made = entries_of(rt, alloc, pair::<B>(rt, a, b));
    same(rt, made.size(), entries, "entries");
}

#[test]
fn entries_of_pairs_are_counted(rt: HostRuntime) {
    assert_entries::<Grid>(&rt, rt.alloc(), (3, 3), 320);
    assert_entries::<Grid>(&rt, rt.alloc(), (4, 3), 470);
    assert_entries::<Nine>(&rt, rt.alloc(), (3, 3), 210_140);
    assert_entries::<Nine>(&rt, rt.alloc(), (4, 3), 1_808_610);
}

// The orbits of the 320 entries of 3-3 have all its 1,680 positions, each once.
#[test]
fn each_position_falls_on_one_entry(rt: HostRuntime) {
    let pair = pair::<Grid>(&rt, 3, 3);
    let entries = entries_of(&rt, rt.alloc(), pair);
    let mut times = vec![in rt.alloc(); 0u8; 1680].expect(&rt, "memory");
    for entry in 0..entries.size() {
        for position in entries.falls_on(entry) {
            assert!(rt; Pair::of(&position) == Some(pair));
            let place = pair.index(&position) as usize;
            let seen = times.get_mut(place).expect(&rt, "an index");
            *seen = seen.saturating_add(1);
        }
    }
    holds(&rt, times.iter().all(|seen| *seen == 1), "each once");
}
