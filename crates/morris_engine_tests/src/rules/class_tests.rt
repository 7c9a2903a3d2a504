//! The classes of sets of points.
ghost use Rattle.std.specs.Prelude.{◌≡◌, ◌<◌, ◌^◌};

use crate::checks::{holds, same};
use morris_board::board::Geometry;
use morris_board::grid::Grid;
use morris_board::nine::Nine;
use morris_board::points::Points;
use morris_index::classes::Classes;
use std::alloc::Global;
use std::process::Abort;

/// The sets of `count` points have so many classes.
fn assert_classes<B: Geometry>(rt: &impl Abort, alloc: Global, count: u8, classes: u32) {
    assert!(rt; 3 <= count && count <= 9 && count <= B::POINTS);
    let made = Classes::<B>::make(alloc, count).expect(rt, "memory");
    same(rt, u64::from(made.count()), u64::from(classes), "classes");
}

#[test]
fn classes_are_counted(rt: HostRuntime) {
    assert_classes::<Grid>(&rt, rt.alloc(), 3, 16);
    assert_classes::<Grid>(&rt, rt.alloc(), 4, 23);
    assert_classes::<Nine>(&rt, rt.alloc(), 3, 158);
    assert_classes::<Nine>(&rt, rt.alloc(), 4, 757);
}

/// The set of three points with this mask has the class and the symmetry.
fn assert_class<B: Geometry>(
    rt: &impl Abort,
    classes: &Classes<B>,
    mask: u32,
    class: u32,
    symmetry: u8,
)
    requires three { classes.now ≡ 3 }
    requires within { mask < 2 ^ B.POINTS }
{
    let set = Points::from_mask(mask);
    assert!(rt; set.count() == 3);
    holds(
        rt,
        classes.class_of(set) == (class, symmetry),
        "class and symmetry",
    );
}

// Sides of rings are of the first class. The first of these is brought to its canonical form by
// exchanging the rings.
#[test]
fn sides_of_rings_are_of_the_first_class(rt: HostRuntime) {
    let classes = Classes::<Nine>::make(rt.alloc(), 3).expect(&rt, "memory");
    assert_class(&rt, &classes, 0x07_00_00, 0, 8);
    assert_class(&rt, &classes, 0x00_00_1c, 0, 3);
}
