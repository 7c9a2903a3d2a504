//! Sets and positions as strings, by which the tests compare them.
ghost use Rattle.std.specs.Prelude.{◌≡◌, true};
ghost use Rattle.morris_index.specs.Pairs.{is_of};

use morris_board::board::Geometry;
use morris_board::points::Points;
use morris_board::position::Position;
use morris_index::pair::Pair;
use std::alloc::Global;
use std::fmt::{Display, Write};
use std::process::Abort;

/// Adds an item to a string, and a space after it.
pub(crate) fn add(rt: &impl Abort, list: &mut String, item: &impl Display) {
    write!(list, "{item} ").expect(rt, "memory");
}

/// Adds the points of a set in order, each with a space after it.
pub(crate) fn add_points(rt: &impl Abort, list: &mut String, set: Points) {
    for point in set.iter() {
        add(rt, list, &point);
    }
}

/// The position of a position string.
pub(crate) fn position<B: Geometry>(rt: &impl Abort, text: &str) -> Position<B> {
    Position::read(text.as_bytes()).expect(rt, "a position")
}

/// The position of a position string, and its pair.
pub(crate) fn shown<B: Geometry>(rt: &impl Abort, text: &str) -> (Position<B>, Pair<B>)
    ensures { is_of result.1 result.0 ≡ true }
{
    let position = position::<B>(rt, text);
    let pair = Pair::of(&position).expect(rt, "a pair");
    (position, pair)
}

/// The pair of two numbers of stones.
pub(crate) fn pair<B: Geometry>(rt: &impl Abort, a: u8, b: u8) -> Pair<B> {
    Pair::new(a, b).expect(rt, "a pair")
}
