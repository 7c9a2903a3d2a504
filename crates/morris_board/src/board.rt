//! The boards that the game is played on.
ghost use Rattle.std.specs.Prelude.{◌≡◌, ℕ, ◌<◌, ◌≤◌, ◌^◌, [], ◌∷◌, length, map, slice_index, true};
ghost use Rattle.std.specs.List.{range_with_len};
ghost use Rattle.morris_board.specs.Boards.{Shape, adjacent, mills_of, mills_through, is_board};
ghost use Rattle.morris_board.specs.Symmetries.{image_of, inverse_of, HasSymmetries};

use crate::points::Points;
use crate::symmetries::inverse_of;

/// What adjoins what on a board, written out. Sets of points are masks: bit `p` stands for point
/// `p`.
#[derive(Clone, Copy, Debug)]
pub struct Tables {
    /// The points adjacent to each point.
    pub neighbours: &'static [u32],
    /// The mills.
    pub mills: &'static [u32],
    /// The two mills that have each point.
    pub mills_through: &'static [[u32; 2]],
}

/// A board as the rules of the game see it: its points, which of them are adjacent, and its mills.
///
/// Code that is generic over the board is bounded by this trait. Only what starts threads asks for
/// [`Board`].
pub trait Geometry: Copy {
    /// The board, of which all members speak.
    ghost shape: { Shape };

    ghost POINTS: { ℕ };

    ghost MILLS: { ℕ };

    ghost ID: { ℕ };

    ghost SYMMETRIES: { ℕ };

    /// How many points the board has, at most 24. They are numbered from 0.
    const POINTS: u8;

    /// How many mills the board has. They are numbered from 0.
    const MILLS: u8;

    /// The number of the board in the file of a table: 0 for `nine`, 1 for `grid`.
    const ID: u8;

    /// The name of the board on the command line: `nine` or `grid`.
    const NAME: &'static str;

    /// How many symmetries the board has: the ways to lay it on itself, so that adjacent points
    /// come to adjacent points and mills to mills. There are at most 16. They are numbered from 0,
    /// and 0 leaves each point where it is.
    const SYMMETRIES: u8;

    /// The tables of the board.
    fn tables() -> &'static Tables
        ensures neighbours { result.now.neighbours.now ≡ map (adjacent shape) (range_with_len 0 shape.points) }
        ensures mills { result.now.mills.now ≡ mills_of shape }
        ensures mills_through { map (λ two. slice_index two 0 ∷ slice_index two 1 ∷ []) result.now.mills_through.now ≡ map (mills_through shape) (range_with_len 0 shape.points) };

    /// The point to which a symmetry, below [`Geometry::SYMMETRIES`], takes `point`, a point of the
    /// board.
    fn image(symmetry: u8, point: u8) -> u8
        requires symmetry { symmetry < SYMMETRIES }
        requires point { point < POINTS }
        ensures { result ≡ shape.image symmetry point };

    /// The points to which a symmetry, below [`Geometry::SYMMETRIES`], takes those of `set`, a set
    /// of points of the board.
    fn image_of(symmetry: u8, set: Points) -> Points
        requires symmetry { symmetry < SYMMETRIES }
        requires within { set < 2 ^ POINTS }
        ensures { result ≡ image_of (shape.image symmetry) set };

    /// The points that are adjacent to `point`, a point of the board.
    final fn neighbours(point: u8) -> Points
        requires { point < POINTS }
        ensures { result ≡ adjacent shape point }
    {
        Points::from_mask(Self::tables().neighbours[point as usize])
    }

    /// The three points of the mill with this number, below [`Geometry::MILLS`].
    final fn mill(number: u8) -> Points
        requires { number < MILLS }
        ensures { result ≡ slice_index (mills_of shape) number }
    {
        Points::from_mask(Self::tables().mills[number as usize])
    }

    /// The two mills that have `point`, a point of the board.
    final fn mills_through(point: u8) -> (Points, Points)
        requires { point < POINTS }
        ensures { mills_through shape point ≡ result.0 ∷ result.1 ∷ [] }
    {
        let [first, second] = Self::tables().mills_through[point as usize];
        (Points::from_mask(first), Points::from_mask(second))
    }

    /// The symmetry that takes each point back from where `symmetry`, below
    /// [`Geometry::SYMMETRIES`], takes it.
    final fn inverse(symmetry: u8) -> u8
        requires { symmetry < SYMMETRIES }
        ensures { result ≡ inverse_of symmetry }
    {
        inverse_of(symmetry)
    }

    ghost is_lawful: { is_board shape ≡ true };

    ghost few: { POINTS ≤ 24 };

    ghost point_count: { shape.points ≡ POINTS };

    ghost mill_count: { length (mills_of shape) ≡ MILLS };

    ghost file_id: { shape.id ≡ ID };

    ghost symmetry_count: { shape.symmetries ≡ SYMMETRIES };

    ghost few_symmetries: { SYMMETRIES ≤ 16 };

    ghost has_symmetries: { HasSymmetries shape };
}

/// A board that threads may share.
pub trait Board: Geometry + Send + Sync {}
