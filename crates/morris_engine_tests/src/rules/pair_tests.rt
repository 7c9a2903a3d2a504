//! Pairs of numbers of stones, and the indices of their positions.
use crate::checks::{holds, same, same_text};
use crate::rules::texts::{add, pair, shown};
use morris_board::board::Geometry;
use morris_board::grid::Grid;
use morris_board::nine::Nine;
use morris_index::faults::PairFault;
use morris_index::pair::Pair;
use std::process::Abort;

/// Numbers of stones on the board grid that make no pair, for this fault.
fn assert_refused(rt: &impl Abort, a: u8, b: u8, fault: PairFault) {
    holds(rt, Pair::<Grid>::new(a, b).err() == Some(fault), "fault");
}

#[test]
fn pairs_are_made_of_numbers_that_fit(rt: HostRuntime) {
    assert_refused(&rt, 2, 3, PairFault::Counts);
    assert_refused(&rt, 3, 10, PairFault::Counts);
    assert_refused(&rt, 5, 5, PairFault::Crowded);
    holds(&rt, Pair::<Nine>::new(9, 9).is_ok(), "9-9");
    let pair = pair::<Grid>(&rt, 3, 4);
    same(&rt, u64::from(pair.greater()), 4, "greater");
    same(&rt, u64::from(pair.lesser()), 3, "lesser");
}

/// The pair has so many positions.
fn assert_size<B: Geometry>(rt: &impl Abort, a: u8, b: u8, size: u64) {
    same(rt, pair::<B>(rt, a, b).size(), size, "positions");
}

#[test]
fn positions_of_pairs_are_counted(rt: HostRuntime) {
    assert_size::<Grid>(&rt, 3, 3, 1_680);
    assert_size::<Grid>(&rt, 4, 3, 2_520);
    assert_size::<Nine>(&rt, 3, 3, 2_691_920);
    assert_size::<Nine>(&rt, 4, 3, 24_227_280);
    assert_size::<Nine>(&rt, 4, 4, 51_482_970);
}

/// The position of a string has this index in its pair.
fn assert_index<B: Geometry>(rt: &impl Abort, text: &str, index: u64) {
    let (position, pair) = shown::<B>(rt, text);
    same(rt, pair.index(&position), index, text);
}

#[test]
fn positions_have_indices(rt: HostRuntime) {
    assert_index::<Grid>(&rt, "XXX.OO.O.", 6);
    assert_index::<Grid>(&rt, "OO.OXX.X.", 981);
    assert_index::<Grid>(&rt, "XXXOOOO..", 1_260);
    assert_index::<Grid>(&rt, "..OOOOXXX", 2_519);
    assert_index::<Nine>(&rt, "XXXOOO..................", 0);
    assert_index::<Nine>(&rt, "..................OOOXXX", 2_691_919);
}

/// The pair needs the pairs of these numbers.
fn assert_needs(rt: &impl Abort, (a, b): (u8, u8), wanted: (Option<(u8, u8)>, Option<(u8, u8)>)) {
    let (first, second) = pair::<Grid>(rt, a, b).needs();
    let numbers = |pair: Pair<Grid>| (pair.greater(), pair.lesser());
    holds(
        rt,
        (first.map(numbers), second.map(numbers)) == wanted,
        "needs",
    );
}

#[test]
fn pairs_need_those_that_captures_lead_to(rt: HostRuntime) {
    assert_needs(&rt, (3, 3), (None, None));
    assert_needs(&rt, (4, 4), (Some((4, 3)), None));
    assert_needs(&rt, (6, 3), (Some((5, 3)), None));
    assert_needs(&rt, (5, 4), (Some((5, 3)), Some((4, 4))));
}

#[test]
fn pairs_below_stand_in_order(rt: HostRuntime) {
    let mut list = String::new(rt.alloc());
    for pair in pair::<Grid>(&rt, 5, 4).below() {
        add(&rt, &mut list, &pair);
    }
    same_text(&rt, list.as_str(), "3-3 4-3 4-4 5-3 5-4 ");
    same(
        &rt,
        pair::<Nine>(&rt, 9, 9).below().count() as u64,
        28,
        "pairs",
    );
}
