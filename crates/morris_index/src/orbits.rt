//! The orbit of an entry: the positions that have it.
ghost use Rattle.std.specs.Prelude.{◌≡◌};
ghost use Rattle.std.specs.Iterator.{YieldsFirst, item_count};
ghost use Rattle.morris_board.specs.Sets.{count_of};
ghost use Rattle.morris_index.specs.Orbits.{orbit_from};

use crate::classes::Classes;
use morris_board::board::Geometry;
use morris_board::position::Position;
use std::marker::Model;

/// An iterator over the positions that have one canonical form and so one entry, each once, in
/// order of their canonicalizing symmetries. It takes no memory.
#[derive(Drop)]
pub struct FallsOn<'a, B: Geometry> {
    /// The classes of the sets of as many points as the player to move has stones.
    classes: &'a Classes<B>,
    /// Their canonical form.
    position: Position<B>,
    /// The symmetries from this one on are still to come.
    symmetry: u8,
}

impl<'a, B: Geometry> Model for FallsOn<'a, B> {
    ghost use Rattle.std.specs.Prelude.{◌≡◌, List};
    ghost use Rattle.morris_board.specs.Sets.{count_of};
    ghost use Rattle.morris_board.specs.Positions.{Sides};
    ghost use Rattle.morris_index.specs.Orbits.{orbit_from};

    ghost Value = { List Sides };

    ghost view = { λ orbit. orbit_from B.shape orbit.position orbit.symmetry };

    ghost invariant = { λ orbit. orbit.classes.now ≡ count_of orbit.position.own };
}

impl<'a, B: Geometry> FallsOn<'a, B> {
    /// The positions whose canonical form is `position`, in which the player to move has as many
    /// stones as the sets of these classes have points.
    pub(crate) fn of(classes: &'a Classes<B>, position: Position<B>) -> FallsOn<'a, B>
        requires { classes.now ≡ count_of position.own }
        ensures { result ≡ orbit_from B.shape position 0 }
    {
        FallsOn {
            classes,
            position,
            symmetry: 0,
        }
    }
}

impl<'a, B: Geometry> Iterator for FallsOn<'a, B> {
    type Item = Position<B>;

    ghost next_gives = { YieldsFirst (λ s. s) };

    ghost remaining = { item_count (λ s. s) };

    fn next(&mut self) -> Option<Position<B>> {
        while self.symmetry < B::SYMMETRIES {
            let symmetry = self.symmetry;
            self.symmetry += 1;
            let back = B::inverse(symmetry);
            let position = self.position.image(back);
            // Several symmetries may take a set to its representative. A position comes by its
            // canonicalizing symmetry alone, the least of them, so that none comes twice.
            if self.classes.class_of(position.own()).1 == symmetry {
                return Some(position);
            }
        }
        None
    }
}
