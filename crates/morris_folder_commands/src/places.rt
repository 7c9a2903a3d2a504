//! The pairs of a board, by their places in the order of all pairs.
ghost use Rattle.std.specs.Prelude.{◌≡◌, ◌<◌};
ghost use Rattle.morris_folder_commands.specs.FromSteps.{place_is};

use morris_board::board::Geometry;
use morris_index::below;
use morris_index::pair::Pair;

/// The pair at a place of all pairs, where the board has points for its stones.
pub(crate) fn pair_at<B: Geometry>(place: usize) -> Option<Pair<B>>
    requires { place < 28 }
    // The caller's proof learns here that the board has as many points as its shape says.
    ensures points { B.shape.points ≡ B.POINTS }
    ensures pair { place_is B.shape place result }
{
    let (greater, lesser) = below::pair_at(place);
    match Pair::new(greater, lesser) {
        Ok(pair) => Some(pair),
        Err(_) => None,
    }
}
