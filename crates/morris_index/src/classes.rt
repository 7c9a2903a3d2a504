//! Classes of sets of points under the symmetries of the board.
ghost use Rattle.std.specs.Prelude.{◌≡◌, ℕ, ◌+◌, ◌<◌, ◌≤◌, ◌^◌, true, IfOk, OnOk};
ghost use Rattle.morris_board.specs.Sets.{count_of};
ghost use Rattle.morris_board.specs.Symmetries.{image_of};
ghost use Rattle.morris_index.specs.Binomials.{choose};
ghost use Rattle.morris_index.specs.Numbering.{IsRanked};
ghost use Rattle.morris_index.specs.Classes.{symmetry_of, representative_of, is_representative, classes_below, class_of, class_count, AreCanonicalizing, IsClassTable, classes_in, canonicalizing_in};

use crate::binomials::binomial;
use crate::rank_tables::RankRows;
use crate::ranks::{self, least, next_set};
use crate::rings::Outside;
use morris_board::board::Geometry;
use morris_board::points::Points;
use std::alloc::{AllocError, Global};
use std::marker::{Model, PhantomData};

/// The classes of the sets of a number of points, 3 to 9. The class of a set is the set of its
/// images under the symmetries of the board; its representative, the canonical form of all of them,
/// is the one with the least mask. The canonicalizing symmetry of a set is the least that takes it
/// there.
#[derive(Drop)]
pub struct Classes<B: Geometry> {
    count: u8,
    table: ClassTable,
    board: PhantomData<B>,
}

impl<B: Geometry> Model for Classes<B> {
    ghost use Rattle.std.specs.Prelude.{ℕ, ◌≤◌};
    ghost use Rattle.morris_index.specs.Binomials.{choose};
    ghost use Rattle.morris_index.specs.Classes.{IsClasses, classes_in, canonicalizing_in};

    ghost Value = { ℕ };

    ghost view = { λ classes. classes.count };

    ghost invariant = { λ classes. IsClasses B.shape B.POINTS classes.count (classes_in classes.table.set_classes.items) (canonicalizing_in classes.table.set_classes.items) classes.table.representatives.items };
}

/// What the table has of a set of points.
#[derive(Clone, Copy)]
struct SetClass {
    /// Its class.
    class: u32,
    /// The mask of all its canonicalizing symmetries: those that take it to its representative.
    canonicalizing: u32,
}

/// A table of sets of points: at the rank of each, its class and how it becomes canonical; and the
/// representatives, in the order of their classes.
#[derive(Drop)]
struct ClassTable {
    set_classes: Vec<SetClass>,
    representatives: Vec<Outside>,
}

impl<B: Geometry> Classes<B> {
    /// The classes of the sets of `count` points, 3 to 9 and at most those of the board.
    ///
    /// # Errors
    /// [`AllocError`] where memory runs out. No other call takes memory.
    pub fn make(alloc: Global, count: u8) -> Result<Classes<B>, AllocError>
        requires least { 3 ≤ count }
        requires most { count ≤ 9 }
        requires fits { count ≤ B.POINTS }
        ensures { IfOk result (λ classes. classes ≡ count) }
    {
        let mut table = ClassTable {
            set_classes: Vec::with_capacity(alloc, binomial(B::POINTS, count) as usize)?,
            representatives: Vec::new(alloc),
        };
        fill_table::<B>(&mut table, count)?;
        Ok(Classes {
            count,
            table,
            board: PhantomData,
        })
    }

    /// How many classes there are. They are numbered from 0, in ascending order of the masks of
    /// their representatives.
    pub fn count(&self) -> u32
        ensures value { result ≡ class_count B.shape self.now }
        ensures few { result ≤ choose B.POINTS self.now }
    {
        self.table.representatives.len() as u32
    }

    /// The class of a set with as many points as the sets of these classes have, and its
    /// canonicalizing symmetry.
    pub fn class_of(&self, set: Points) -> (u32, u8)
        requires within { set < 2 ^ B.POINTS }
        requires count { count_of set ≡ self.now }
        ensures class { result.0 ≡ class_of B.shape set }
        ensures below { result.0 < class_count B.shape self.now }
        ensures symmetry { result.1 ≡ symmetry_of B.shape set }
        ensures one { result.1 < B.SYMMETRIES }
    {
        let set_class = self.table.set_classes[ranks::rank(set) as usize];
        let canonicalizing = Points::from_mask(set_class.canonicalizing);
        (
            set_class.class,
            least_canonicalizing::<B>(set, canonicalizing),
        )
    }

    /// The class of a set with as many points as the sets of these classes have, its
    /// representative, and all its canonicalizing symmetries.
    pub(crate) fn canonicalize(&self, rows: &RankRows<'_>, set: Points) -> (u32, Outside, Points)
        requires within { set < 2 ^ B.POINTS }
        requires count { count_of set ≡ self.now }
        requires rows { rows.now ≡ self.now }
        ensures class { result.0 ≡ class_of B.shape set }
        ensures below { result.0 < class_count B.shape self.now }
        ensures representative { result.1 ≡ representative_of B.shape set }
        ensures symmetries { AreCanonicalizing B.shape set result.2 }
    {
        let set_class = self.table.set_classes[rows.rank(set) as usize];
        let symmetries = Points::from_mask(set_class.canonicalizing);
        (
            set_class.class,
            self.outside_of(set_class.class),
            symmetries,
        )
    }

    /// The representative of a class, below [`Classes::count`]: of all its sets the one with the
    /// least mask.
    pub fn representative(&self, class: u32) -> Points
        requires { class < class_count B.shape self.now }
        ensures least { representative_of B.shape result ≡ result }
        ensures count { count_of result ≡ self.now }
        ensures class { class_of B.shape result ≡ class }
        ensures within { result < 2 ^ B.POINTS }
    {
        self.outside_of(class).points
    }

    /// The same, with where the numbers of the points outside it begin in each ring.
    fn outside_of(&self, class: u32) -> Outside
        requires { class < class_count B.shape self.now }
        ensures least { representative_of B.shape result ≡ result }
        ensures count { count_of result ≡ self.now }
        ensures class { class_of B.shape result ≡ class }
        ensures within { result < 2 ^ B.POINTS }
    {
        self.table.representatives[class as usize]
    }
}

/// The least of all canonicalizing symmetries of a set.
pub(crate) fn least_canonicalizing<B: Geometry>(set: Points, canonicalizing: Points) -> u8
    requires within { set < 2 ^ B.POINTS }
    requires canonicalizing { AreCanonicalizing B.shape set canonicalizing }
    ensures symmetry { result ≡ symmetry_of B.shape set }
    ensures one { result < B.SYMMETRIES }
{
    match canonicalizing.first() {
        Some(symmetry) => symmetry,
        None => unreachable!(),
    }
}

/// Fills the empty table with all sets of `count` points, in the order of their ranks.
fn fill_table<B: Geometry>(table: &mut ClassTable, count: u8) -> Result<(), AllocError>
    requires few { count ≤ 9 }
    requires fits { count ≤ B.POINTS }
    requires before { IsClassTable B.shape B.POINTS count 0 (classes_in table.old.set_classes.items) (canonicalizing_in table.old.set_classes.items) table.old.representatives.items }
    ensures { OnOk result (IsClassTable B.shape B.POINTS count (choose B.POINTS count) (classes_in table.new.set_classes.items) (canonicalizing_in table.new.set_classes.items) table.new.representatives.items) }
{
    let sets = binomial(B::POINTS, count);
    let mut set = least(B::POINTS, Points::EMPTY, count);
    for index in 0..sets {
        add_set::<B>(table, count, index, set)?;
        if let Some(next) = next_set(B::POINTS, Points::EMPTY, set) {
            set = next;
        }
    }
    Ok(())
}

/// Adds the set of `count` points with this rank to the table, which has those of all lesser ranks.
/// A set that is its own representative has the next class.
fn add_set<B: Geometry>(
    table: &mut ClassTable,
    count: u8,
    rank: u64,
    set: Points,
) -> Result<(), AllocError>
    requires few { count ≤ 9 }
    requires fits { count ≤ B.POINTS }
    requires ranked { IsRanked B.POINTS 0 count rank set }
    requires before { IsClassTable B.shape B.POINTS count rank (classes_in table.old.set_classes.items) (canonicalizing_in table.old.set_classes.items) table.old.representatives.items }
    ensures { OnOk result (IsClassTable B.shape B.POINTS count (rank + 1) (classes_in table.new.set_classes.items) (canonicalizing_in table.new.set_classes.items) table.new.representatives.items) }
{
    let (least, canonicalizing) = least_image::<B>(set);
    let class = if least.mask() == set.mask() {
        let next = table.representatives.len() as u32;
        table.representatives.push(Outside::of(set))?;
        next
    } else {
        table.set_classes[ranks::rank(least) as usize].class
    };
    table.set_classes.push(SetClass {
        class,
        canonicalizing: canonicalizing.mask(),
    })?;
    Ok(())
}

/// The image of a set with the least mask, and all symmetries that give it.
fn least_image<B: Geometry>(set: Points) -> (Points, Points)
    requires { set < 2 ^ B.POINTS }
    ensures image { result.0 ≡ representative_of B.shape set }
    ensures canonicalizing { AreCanonicalizing B.shape set result.1 }
{
    let mut least = set;
    let mut canonicalizing = Points::EMPTY.with(0);
    for other in 1..B::SYMMETRIES {
        let image = B::image_of(other, set);
        if image.mask() < least.mask() {
            least = image;
            canonicalizing = Points::EMPTY.with(other);
        } else if image.mask() == least.mask() {
            canonicalizing = canonicalizing.with(other);
        }
    }
    (least, canonicalizing)
}
