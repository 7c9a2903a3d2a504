//! Moves: which are legal, and which quiet ones lead to a position.
use crate::checks::{holds, same, same_text};
use crate::rules::texts::{add, position};
use morris_board::board::Geometry;
use morris_board::grid::Grid;
use morris_board::nine::Nine;
use morris_moves::rules::{backs, moves};
use std::alloc::Global;
use std::process::Abort;

/// The legal moves of the position of a string, each as it is printed, with a space after it.
fn listed<B: Geometry>(rt: &impl Abort, alloc: Global, text: &str) -> String {
    let position = position::<B>(rt, text);
    let mut list = String::new(alloc);
    for m in moves(&position) {
        add(rt, &mut list, &m);
    }
    list
}

/// These are the legal moves of the position of a string.
fn assert_listed<B: Geometry>(rt: &impl Abort, alloc: Global, text: &str, wanted: &str) {
    let list = listed::<B>(rt, alloc, text);
    same_text(rt, list.as_str(), wanted);
}

#[test]
fn three_stones_jump(rt: HostRuntime) {
    let wanted = "0-3 0-6 0-8 1-3 1-6 1-8 2-3 2-6 2-8 ";
    assert_listed::<Grid>(&rt, rt.alloc(), "XXX.OO.O.", wanted);
    let wanted = "4-2 4-6 4-8 5-2 5-6 5-8 7-2 7-6 7-8 ";
    assert_listed::<Grid>(&rt, rt.alloc(), "OO.OXX.X.", wanted);
}

// Each of the opponent's stones stands in a mill in the second position, and one stands in none in
// the third.
#[test]
fn a_move_that_closes_a_mill_takes_a_stone(rt: HostRuntime) {
    let wanted = "0-2 0-3 0-6 1-2 1-3 1-6 8-2x4 8-2x5 8-2x7 8-3 8-6 ";
    assert_listed::<Grid>(&rt, rt.alloc(), "XX..OO.OX", wanted);
    let wanted = "0-2 0-3 0-4 1-2 1-3 1-4 5-2x6 5-2x7 5-2x8 5-3 5-4 ";
    assert_listed::<Grid>(&rt, rt.alloc(), "XX...XOOO", wanted);
    let wanted = "0-2 0-3 1-2 1-3 5-2x4 5-3 ";
    assert_listed::<Grid>(&rt, rt.alloc(), "XX..OXOOO", wanted);
}

#[test]
fn four_stones_slide_and_two_stay(rt: HostRuntime) {
    assert_listed::<Grid>(&rt, rt.alloc(), "XXXOXO..O", "4-7 ");
    assert_listed::<Grid>(&rt, rt.alloc(), "XXXOOX..O", "");
    assert_listed::<Grid>(&rt, rt.alloc(), "XX.OOO...", "");
    let wanted = "0-7 1-2 1-9 3-2x22 3-4 3-11 20-19 20-21 ";
    assert_listed::<Nine>(&rt, rt.alloc(), "XX.X............OOO.X.O.", wanted);
}

/// So many moves of a position of Nine are listed, these among them.
fn assert_among(rt: &impl Abort, alloc: Global, text: &str, count: u64, wanted: &str) {
    let list = listed::<Nine>(rt, alloc, text);
    same(
        rt,
        list.as_str().split_whitespace().count() as u64,
        count,
        text,
    );
    holds(rt, list.as_str().contains(wanted), wanted);
}

// Three stones go to 18 vacant points each. One of these 54 jumps closes a mill in the second
// position and in the third, and takes any of three stones.
#[test]
fn three_stones_jump_on_nine(rt: HostRuntime) {
    let wanted = "4-2 4-3 4-5 ";
    assert_among(&rt, rt.alloc(), "OO..X....O.X..........X.", 54, wanted);
    let wanted = "12-2x5 12-2x14 12-2x19 ";
    assert_among(&rt, rt.alloc(), "XX...O......X.O....O....", 56, wanted);
    let wanted = "12-2x16 12-2x17 12-2x18 ";
    assert_among(&rt, rt.alloc(), "XX..........X...OOO.....", 56, wanted);
}

/// These are the quiet moves that lead to the position of a string.
fn assert_taken_back(rt: &impl Abort, alloc: Global, text: &str, wanted: &str) {
    let position = position::<Grid>(rt, text);
    let mut list = String::new(alloc);
    for (_, m) in backs(&position) {
        add(rt, &mut list, &m);
    }
    same_text(rt, list.as_str(), wanted);
}

// In the second position each stone of the opponent stands in a mill; in the third one of four
// stands in none, and it slid; in the last the player to move has two stones, so the opponent of
// the one who moved had too few.
#[test]
fn quiet_moves_are_taken_back_in_order(rt: HostRuntime) {
    let wanted = "2-0 2-1 2-3 6-0 6-1 6-3 8-0 8-1 8-3 ";
    assert_taken_back(&rt, rt.alloc(), "OO.OXX.X.", wanted);
    assert_taken_back(&rt, rt.alloc(), "OOOXXX...", "");
    assert_taken_back(&rt, rt.alloc(), "OOOXX.X.O", "5-8 7-8 ");
    assert_taken_back(&rt, rt.alloc(), "OO.OX..X.", "");
}
