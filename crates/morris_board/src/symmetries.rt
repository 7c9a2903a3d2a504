//! Symmetries of a board, in the form that both boards share.
ghost use Rattle.std.specs.Prelude.{◌≡◌, ℕ, ◌<◌, ◌≤◌, ◌^◌, length, slice_index};
ghost use Rattle.morris_board.specs.Symmetries.{image_of, inverse_of};

use crate::points::Points;

/// The symmetry that undoes `symmetry`, below 16: a mirror is its own, and a turn is undone by what
/// it lacks of a whole turn.
#[tactic(auto, unfolding(crate::specs::Symmetries::inverse_of))]
pub(crate) fn inverse_of(symmetry: u8) -> u8
    requires { symmetry < 16 }
    ensures { result ≡ inverse_of symmetry }
{
    if symmetry / 4 % 2 == 1 {
        symmetry
    } else {
        symmetry - symmetry % 4 + (4 - symmetry % 4) % 4
    }
}

/// The image of a set of points, where the image of each point of the board is at hand.
pub(crate) fn image_by(images: &[u8], set: Points) -> Points
    requires points { length images.now ≤ 24 }
    requires within { set < 2 ^ length images.now }
    requires images { (p : ℕ) → p < length images.now → slice_index images.now p < 24 }
    ensures { result ≡ image_of (slice_index images.now) set }
{
    let mut image = Points::EMPTY;
    for point in set.iter() {
        image = image.with(images[point as usize]);
    }
    image
}
