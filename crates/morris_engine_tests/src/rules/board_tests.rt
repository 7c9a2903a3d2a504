//! The boards and their symmetries.
use crate::checks::{same, same_text};
use crate::rules::texts::{add, add_points};
use morris_board::board::Geometry;
use morris_board::grid::Grid;
use morris_board::nine::Nine;
use std::alloc::Global;
use std::process::Abort;

/// The mills of a board in order are these, each as its points are listed and with a stroke after
/// it.
fn assert_mills<B: Geometry>(rt: &impl Abort, alloc: Global, wanted: &str) {
    let mut list = String::new(alloc);
    for number in 0..B::MILLS {
        add_points(rt, &mut list, B::mill(number));
        add(rt, &mut list, &'|');
    }
    same_text(rt, list.as_str(), wanted);
}

/// The points that are adjacent to each point of a board are these, in the same form.
fn assert_neighbours<B: Geometry>(rt: &impl Abort, alloc: Global, wanted: &str) {
    let mut list = String::new(alloc);
    for point in 0..B::POINTS {
        add_points(rt, &mut list, B::neighbours(point));
        add(rt, &mut list, &'|');
    }
    same_text(rt, list.as_str(), wanted);
}

#[test]
fn grid_is_three_rows_and_three_columns(rt: HostRuntime) {
    same_text(&rt, Grid::NAME, "grid");
    same(&rt, u64::from(Grid::ID), 1, "number in files");
    same(&rt, u64::from(Grid::POINTS), 9, "points");
    same(&rt, u64::from(Grid::SYMMETRIES), 8, "symmetries");
    let mills = "0 1 2 | 3 4 5 | 6 7 8 | 0 3 6 | 1 4 7 | 2 5 8 | ";
    assert_mills::<Grid>(&rt, rt.alloc(), mills);
    let neighbours = "1 3 | 0 2 4 | 1 5 | 0 4 6 | 1 3 5 7 | 2 4 8 | 3 7 | 4 6 8 | 5 7 | ";
    assert_neighbours::<Grid>(&rt, rt.alloc(), neighbours);
}

// The sides of the rings come first, and then the lines that cross the rings.
#[test]
fn nine_is_three_rings(rt: HostRuntime) {
    same_text(&rt, Nine::NAME, "nine");
    same(&rt, u64::from(Nine::ID), 0, "number in files");
    same(&rt, u64::from(Nine::POINTS), 24, "points");
    same(&rt, u64::from(Nine::SYMMETRIES), 16, "symmetries");
    let mills = "0 1 2 | 2 3 4 | 4 5 6 | 0 6 7 | 8 9 10 | 10 11 12 | 12 13 14 | 8 14 15 | \
        16 17 18 | 18 19 20 | 20 21 22 | 16 22 23 | 1 9 17 | 3 11 19 | 5 13 21 | 7 15 23 | ";
    assert_mills::<Nine>(&rt, rt.alloc(), mills);
    let neighbours = "1 7 | 0 2 9 | 1 3 | 2 4 11 | 3 5 | 4 6 13 | 5 7 | 0 6 15 | \
        9 15 | 1 8 10 17 | 9 11 | 3 10 12 19 | 11 13 | 5 12 14 21 | 13 15 | 7 8 14 23 | \
        17 23 | 9 16 18 | 17 19 | 11 18 20 | 19 21 | 13 20 22 | 21 23 | 15 16 22 | ";
    assert_neighbours::<Nine>(&rt, rt.alloc(), neighbours);
}

/// The images of the points in order, each with a space after it, are these.
fn assert_images<B: Geometry>(rt: &impl Abort, alloc: Global, symmetry: u8, wanted: &str) {
    assert!(rt; symmetry < B::SYMMETRIES);
    let mut list = String::new(alloc);
    for point in 0..B::POINTS {
        add(rt, &mut list, &B::image(symmetry, point));
    }
    same_text(rt, list.as_str(), wanted);
}

// A quarter turn, clockwise, and three of them; the mirror in the diagonal, and then a turn.
#[test]
fn symmetries_of_grid_turn_and_mirror(rt: HostRuntime) {
    assert_images::<Grid>(&rt, rt.alloc(), 1, "2 5 8 1 4 7 0 3 6 ");
    assert_images::<Grid>(&rt, rt.alloc(), 3, "6 3 0 7 4 1 8 5 2 ");
    assert_images::<Grid>(&rt, rt.alloc(), 4, "0 3 6 1 4 7 2 5 8 ");
    assert_images::<Grid>(&rt, rt.alloc(), 5, "2 1 0 5 4 3 8 7 6 ");
}

// The same on each ring.
#[test]
fn symmetries_of_nine_turn_and_mirror(rt: HostRuntime) {
    let turned = "2 3 4 5 6 7 0 1 10 11 12 13 14 15 8 9 18 19 20 21 22 23 16 17 ";
    assert_images::<Nine>(&rt, rt.alloc(), 1, turned);
    let turned_back = "6 7 0 1 2 3 4 5 14 15 8 9 10 11 12 13 22 23 16 17 18 19 20 21 ";
    assert_images::<Nine>(&rt, rt.alloc(), 3, turned_back);
    let mirrored = "0 7 6 5 4 3 2 1 8 15 14 13 12 11 10 9 16 23 22 21 20 19 18 17 ";
    assert_images::<Nine>(&rt, rt.alloc(), 4, mirrored);
    let both = "2 1 0 7 6 5 4 3 10 9 8 15 14 13 12 11 18 17 16 23 22 21 20 19 ";
    assert_images::<Nine>(&rt, rt.alloc(), 5, both);
}

// The rings alone are exchanged, and then all is done.
#[test]
fn symmetries_of_nine_exchange_the_rings(rt: HostRuntime) {
    let exchanged = "16 17 18 19 20 21 22 23 8 9 10 11 12 13 14 15 0 1 2 3 4 5 6 7 ";
    assert_images::<Nine>(&rt, rt.alloc(), 8, exchanged);
    let all = "18 17 16 23 22 21 20 19 10 9 8 15 14 13 12 11 2 1 0 7 6 5 4 3 ";
    assert_images::<Nine>(&rt, rt.alloc(), 13, all);
}
