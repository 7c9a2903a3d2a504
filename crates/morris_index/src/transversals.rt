//! Transversals. That of a set has the symmetries whose inverse is the canonicalizing symmetry of
//! the image of the set under them: for a representative, one symmetry for each of its images.
ghost use Rattle.std.specs.Prelude.{◌≡◌, ◌<◌, ◌^◌, IfOk};
ghost use Rattle.morris_board.specs.Sets.{count_of};
ghost use Rattle.morris_index.specs.Classes.{class_count};
ghost use Rattle.morris_index.specs.Unmoves.{IsTransversal, AreTransversals};

use crate::classes::Classes;
use crate::rank_tables::RankRows;
use morris_board::board::Geometry;
use morris_board::points::Points;
use std::alloc::{AllocError, Global};

/// The transversal of `own`.
fn find_transversal<B: Geometry>(classes: &Classes<B>, own: Points) -> Points
    requires within { own < 2 ^ B.POINTS }
    requires count { count_of own ≡ classes.now }
    ensures { IsTransversal B.shape own result }
{
    let mut symmetries = Points::EMPTY;
    for symmetry in 0..B::SYMMETRIES {
        let image = B::image_of(symmetry, own);
        if classes.class_of(image).1 == B::inverse(symmetry) {
            symmetries = symmetries.with(symmetry);
        }
    }
    symmetries
}

/// The transversal of the representative of each class.
///
/// # Errors
/// [`AllocError`] where memory runs out.
pub(crate) fn make_transversals<B: Geometry>(
    alloc: Global,
    classes: &Classes<B>,
) -> Result<Vec<Points>, AllocError>
    ensures { IfOk result (λ table. AreTransversals B.shape B.POINTS classes.now (class_count B.shape classes.now) table.items) }
{
    let count = classes.count();
    let mut table = Vec::with_capacity(alloc, count as usize)?;
    for class in 0..count {
        table.push(find_transversal(classes, classes.representative(class)))?;
    }
    Ok(table)
}

/// The transversal of `own`, looked up where `own` is the representative of its class.
pub(crate) fn transversal_of<B: Geometry>(
    classes: &Classes<B>,
    rows: &RankRows<'_>,
    table: &[Points],
    own: Points,
) -> Points
    requires within { own < 2 ^ B.POINTS }
    requires count { count_of own ≡ classes.now }
    requires rows { rows.now ≡ classes.now }
    requires table { AreTransversals B.shape B.POINTS classes.now (class_count B.shape classes.now) table.now }
    ensures { IsTransversal B.shape own result }
{
    let (class, representative, _) = classes.canonicalize(rows, own);
    if representative.points == own {
        table[class as usize]
    } else {
        find_transversal(classes, own)
    }
}
