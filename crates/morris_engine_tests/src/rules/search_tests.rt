//! The search a few plies ahead, in positions whose values are worked out by hand.
use crate::checks::holds;
use crate::rules::texts::position;
use morris_board::board::Geometry;
use morris_board::grid::Grid;
use morris_board::nine::Nine;
use morris_moves::game_move::Move;
use morris_moves::look_ahead::within;
use morris_moves::rules::{is_legal, play};
use morris_moves::within::Within;
use std::process::Abort;

/// The search to so many plies finds this in the position of a string.
fn assert_found<B: Geometry>(rt: &impl Abort, text: &str, plies: u8, wanted: Within) {
    let position = position::<B>(rt, text);
    assert!(rt; plies <= 6);
    holds(rt, within(&position, plies) == wanted, text);
}

#[test]
fn a_player_without_a_move_has_lost(rt: HostRuntime) {
    assert_found::<Grid>(&rt, "XXXOOX..O", 0, Within::Lost(0));
    assert_found::<Grid>(&rt, "XX.OOO...", 6, Within::Lost(0));
    assert_found::<Nine>(&rt, "XXXXO..O.O.O............", 0, Within::Lost(0));
}

#[test]
fn a_value_is_found_at_its_depth(rt: HostRuntime) {
    assert_found::<Grid>(&rt, "XX..OO.OX", 0, Within::Unknown);
    assert_found::<Grid>(&rt, "XX..OO.OX", 1, Within::Won(1));
    assert_found::<Grid>(&rt, "OO.OXX.X.", 1, Within::Unknown);
    assert_found::<Grid>(&rt, "OO.OXX.X.", 2, Within::Lost(2));
    assert_found::<Grid>(&rt, "XXX.OO.O.", 2, Within::Unknown);
}

// The last position is a draw.
#[test]
fn a_value_is_found_beyond_its_depth(rt: HostRuntime) {
    assert_found::<Grid>(&rt, "XX..OO.OX", 6, Within::Won(1));
    assert_found::<Grid>(&rt, "XXX.OO.O.", 3, Within::Won(3));
    assert_found::<Grid>(&rt, "XXX.OO.O.", 6, Within::Won(3));
    assert_found::<Grid>(&rt, "XXXOOO...", 6, Within::Unknown);
}

// X stands on 0, 1 and 2, O on 3, 4 and 6. The move 1-5 leads to a position that is lost in 2.
#[test]
fn a_move_leads_to_a_loss_in_two(rt: HostRuntime) {
    let position = position::<Grid>(&rt, "XXXOO.O..");
    let m = Move {
        from: 1,
        to: 5,
        taken: None,
    };
    assert!(rt; is_legal(&position, m));
    holds(
        &rt,
        within(&play(&position, m), 6) == Within::Lost(2),
        "lost in 2",
    );
    holds(&rt, within(&position, 6) == Within::Won(3), "won in 3");
}

#[test]
fn values_of_positions_of_nine(rt: HostRuntime) {
    assert_found::<Nine>(&rt, "OO..X....O.X..........X.", 2, Within::Lost(2));
    assert_found::<Nine>(&rt, "XX...O......X.O....O....", 1, Within::Won(1));
    assert_found::<Nine>(&rt, "XX.X............OOO.X.O.", 1, Within::Unknown);
}
