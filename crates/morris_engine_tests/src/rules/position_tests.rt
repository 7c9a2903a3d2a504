//! Texts that aren't position strings.
use crate::checks::holds;
use morris_board::board::Geometry;
use morris_board::faults::TextFault;
use morris_board::grid::Grid;
use morris_board::nine::Nine;
use morris_board::position::Position;
use std::process::Abort;

/// The text is refused for this fault.
fn assert_refused<B: Geometry>(rt: &impl Abort, text: &str, fault: TextFault) {
    holds(
        rt,
        Position::<B>::read(text.as_bytes()).err() == Some(fault),
        text,
    );
}

#[test]
fn a_text_of_another_length_is_refused(rt: HostRuntime) {
    assert_refused::<Nine>(&rt, "OO..X....O.X..........X", TextFault::Length);
    assert_refused::<Grid>(&rt, "", TextFault::Length);
    assert_refused::<Grid>(&rt, "X?", TextFault::Length);
}

#[test]
fn the_first_fault_of_a_text_is_named(rt: HostRuntime) {
    assert_refused::<Grid>(&rt, "xXX.OO.O.", TextFault::Character(0));
    assert_refused::<Grid>(&rt, "XXX.OO.?o", TextFault::Character(7));
    assert_refused::<Grid>(&rt, "XXXOO....", TextFault::Stones);
    assert_refused::<Grid>(&rt, "X..OOO...", TextFault::Stones);
}
