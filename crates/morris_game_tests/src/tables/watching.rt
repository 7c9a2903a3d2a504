// Builds, sweeps and verifications that are watched.
use crate::checks::{holds, same};
use crate::tables::making::{built, empty, pair};
use morris_board::grid::Grid;
use morris_engine_tests::gates::ShutGate;
use morris_engine_tests::scribes::Scribe;
use morris_pairs::build_fault::BuildFault;
use morris_pairs::layout::Layout;
use morris_pairs::shelf::Needs;
use morris_pairs::sweeping::sweep_pair_watched;
use morris_pairs::table_set::TableSet;
use morris_table::building::build_watched;
use morris_workers::OpenGate;
use std::alloc::Global;
use std::process::Abort;
use std::sync::Wait;
use std::thread::Threads;

/// Four waves were reported. No value of 3-3 is deeper than a win in 3, which wave 3 decides; wave
/// 4 decides nothing more.
fn assert_four(rt: &impl Abort, told: &[u16]) {
    holds(rt, told == [1, 2, 3, 4].as_slice(), "waves");
}

/// A build of 3-3 reports four waves.
fn assert_tells_four<R: Abort + Threads + Wait + Sync>(
    rt: &R,
    alloc: Global,
    layout: Layout,
    workers: usize,
    blocks: usize,
) {
    let (pair, gate) = (pair(rt, 3, 3), &OpenGate);
    let tables = &TableSet::<Grid>::new(alloc).expect(rt, "memory");
    let mut scribe = Scribe::new(alloc);
    let watch = &mut scribe;
    let built = build_watched(
        rt, alloc, tables, pair, layout, gate, watch, workers, blocks,
    );
    holds(rt, built.is_ok(), "built");
    assert_four(rt, scribe.waves.as_slice());
}

#[test]
fn a_watch_is_told_the_waves_of_a_build(rt: HostRuntime) {
    assert_tells_four(&rt, rt.alloc(), Layout::Full, 1, 1);
    assert_tells_four(&rt, rt.alloc(), Layout::Full, 3, 64);
    assert_tells_four(&rt, rt.alloc(), Layout::Classes, 1, 1);
    assert_tells_four(&rt, rt.alloc(), Layout::Classes, 2, 5);
}

/// So many waves are reported of a build over no tables that is refused for this, and whose workers
/// are all sent away.
fn assert_waves_before<R: Abort + Threads + Wait + Sync>(
    rt: &R,
    alloc: Global,
    layout: Layout,
    (greater, workers): (u8, usize),
    fault: BuildFault<Grid>,
    waves: u64,
) {
    let pair = pair(rt, greater, 3);
    let tables = &TableSet::new(alloc).expect(rt, "memory");
    let mut scribe = Scribe::new(alloc);
    let watch = &mut scribe;
    let gate = &ShutGate;
    let refused = build_watched(rt, alloc, tables, pair, layout, gate, watch, workers, 5).err();
    holds(rt, refused == Some(fault), "fault");
    same(rt, scribe.waves.len() as u64, waves, "waves");
}

/// Nothing is reported of a build in a layout that is refused before its first wave.
fn assert_tells_nothing_before<R: Abort + Threads + Wait + Sync>(
    rt: &R,
    alloc: Global,
    layout: Layout,
) {
    let needs = BuildFault::Needs(Needs(pair(rt, 3, 3)));
    assert_waves_before(rt, alloc, layout, (4, 2), needs, 0);
    assert_waves_before(rt, alloc, layout, (3, 0), BuildFault::Workers, 0);
    // The first wave begins, and every worker is sent away.
    assert_waves_before(rt, alloc, layout, (3, 2), BuildFault::Missing(0), 1);
}

#[test]
fn a_watch_is_told_nothing_of_a_build_that_is_refused_before(rt: HostRuntime) {
    assert_tells_nothing_before(&rt, rt.alloc(), Layout::Full);
    assert_tells_nothing_before(&rt, rt.alloc(), Layout::Classes);
}

// A sweep of 3-3 reports the four waves of a build.
#[test]
fn a_watch_is_told_the_waves_of_a_sweep(rt: HostRuntime) {
    let shelf = empty::<Grid>(&rt, rt.alloc());
    let mut scribe = Scribe::new(rt.alloc());
    let swept = sweep_pair_watched(rt.alloc(), &shelf, pair(&rt, 3, 3), &mut scribe);
    holds(&rt, swept.is_ok(), "swept");
    assert_four(&rt, scribe.waves.as_slice());
}

/// So many entries of 3-3 are reported by workers who verify its table, and no wave.
fn assert_told_of_verifying<R: Abort + Threads + Wait + Sync>(
    rt: &R,
    alloc: Global,
    layout: Layout,
    workers: usize,
    entries: u64,
) {
    assert!(rt; 1 <= workers && workers <= 64);
    let tables = TableSet::new(alloc).expect(rt, "memory");
    let raw = built(rt, alloc, &empty(rt, alloc), pair(rt, 3, 3), layout).into_raw();
    let mut scribe = Scribe::new(alloc);
    let verified = raw.verify_watched(rt, alloc, &tables, workers, &mut scribe);
    holds(rt, verified.is_ok() && scribe.waves.is_empty(), "verified");
    same(rt, scribe.done, entries, "entries");
}

#[test]
fn a_watch_is_told_the_entries_that_are_verified(rt: HostRuntime) {
    assert_told_of_verifying(&rt, rt.alloc(), Layout::Full, 1, 1680);
    assert_told_of_verifying(&rt, rt.alloc(), Layout::Classes, 1, 320);
    assert_told_of_verifying(&rt, rt.alloc(), Layout::Classes, 3, 320);
}
