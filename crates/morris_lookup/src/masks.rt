//! Positions from masks.
ghost use Rattle.std.specs.Prelude.{◌≡◌, ◌≤◌, ◌^◌, IfOk, IfErr};
ghost use Rattle.morris_board.specs.Positions.{sides, IsPosition};
ghost use Rattle.morris_lookup.specs.Masks.{IsMaskRefusal};

use crate::fault::MaskFault;
use morris_board::board::Geometry;
use morris_board::points::Points;
use morris_board::position::Position;

/// The position with the stones of the player to move on the points whose bits are set in `own`,
/// and those of the opponent on those of `other`. Any two numbers may be given.
///
/// # Errors
/// The first of `OffBoard`, `Overlap` and `Stones` that applies.
pub fn position_of<B: Geometry>(own: u32, other: u32) -> Result<Position<B>, MaskFault>
    ensures made { IfOk result (λ position. position ≡ sides own other) }
    ensures lawful { IfOk result (IsPosition B.shape) }
    ensures refused { IfErr result (IsMaskRefusal B.shape (sides own other)) }
{
    let end = set_count::<B>();
    if own >= end || other >= end {
        return Err(MaskFault::OffBoard);
    }
    let (own, other) = (Points::from_mask(own), Points::from_mask(other));
    match own.intersection(other).first() {
        Some(_) => Err(MaskFault::Overlap),
        None => match Position::new(own, other) {
            Ok(position) => {
                // The proof learns the rules of a position where its stones are read.
                let _ = position.own();
                Ok(position)
            }
            Err(_) => Err(MaskFault::Stones),
        },
    }
}

/// How many sets of points of the board there are. Their masks are the numbers below.
pub(crate) fn set_count<B: Geometry>() -> u32
    ensures value { result ≡ 2 ^ B.POINTS }
    ensures few { result ≤ 2 ^ 24 }
{
    1 << B::POINTS
}
