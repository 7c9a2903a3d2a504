//! The board Grid.
use crate::board::{Board, Geometry, Tables};
use crate::points::Points;
use crate::symmetries::image_by;

/// The board with 9 points in three rows and three columns, for small tables. Point `3 * r + c`
/// stands in row `r` and column `c`.
#[derive(Clone, Copy, Debug)]
pub struct Grid;

/// The points adjacent to each point. Each group of three digits is a row of the board, the last
/// row first.
const NEIGHBOURS: [u32; 9] = [
    0b000_001_010,
    0b000_010_101,
    0b000_100_010,
    0b001_010_001,
    0b010_101_010,
    0b100_010_100,
    0b010_001_000,
    0b101_010_000,
    0b010_100_000,
];

/// The rows, and then the columns.
const MILLS: [u32; 6] = [
    0b000_000_111,
    0b000_111_000,
    0b111_000_000,
    0b001_001_001,
    0b010_010_010,
    0b100_100_100,
];

/// The two mills that have each point.
const MILLS_THROUGH: [[u32; 2]; 9] = [
    [0b000_000_111, 0b001_001_001],
    [0b000_000_111, 0b010_010_010],
    [0b000_000_111, 0b100_100_100],
    [0b000_111_000, 0b001_001_001],
    [0b000_111_000, 0b010_010_010],
    [0b000_111_000, 0b100_100_100],
    [0b111_000_000, 0b001_001_001],
    [0b111_000_000, 0b010_010_010],
    [0b111_000_000, 0b100_100_100],
];

/// What adjoins what.
const TABLES: Tables = Tables {
    neighbours: &NEIGHBOURS,
    mills: &MILLS,
    mills_through: &MILLS_THROUGH,
};

/// The point to which each symmetry takes each point: the turns by no, one, two and three quarters,
/// and then the same after the mirror in the diagonal through point 0.
const IMAGES: [[u8; 9]; 8] = [
    [0, 1, 2, 3, 4, 5, 6, 7, 8],
    [2, 5, 8, 1, 4, 7, 0, 3, 6],
    [8, 7, 6, 5, 4, 3, 2, 1, 0],
    [6, 3, 0, 7, 4, 1, 8, 5, 2],
    [0, 3, 6, 1, 4, 7, 2, 5, 8],
    [2, 1, 0, 5, 4, 3, 8, 7, 6],
    [8, 5, 2, 7, 4, 1, 6, 3, 0],
    [6, 7, 8, 3, 4, 5, 0, 1, 2],
];

impl Geometry for Grid {
    ghost use Rattle.std.proofs.Common.{arith};
    ghost use Rattle.morris_board.specs.Boards.{grid};
    ghost use Rattle.morris_board.specs.BoardLaws.{id-grid, is_board-grid, point_count-grid, mill_count-grid};
    ghost use Rattle.morris_board.specs.SymmetryLaws.{symmetries-grid, symmetry_count-grid};

    ghost shape = { grid };

    ghost POINTS = { 9 };

    ghost MILLS = { 6 };

    ghost ID = { 1 };

    ghost SYMMETRIES = { 8 };

    const POINTS: u8 = 9;

    const MILLS: u8 = 6;

    const ID: u8 = 1;

    const NAME: &'static str = "grid";

    const SYMMETRIES: u8 = 8;

    fn tables() -> &'static Tables {
        &TABLES
    }

    fn image(symmetry: u8, point: u8) -> u8 {
        IMAGES[symmetry as usize][point as usize]
    }

    fn image_of(symmetry: u8, set: Points) -> Points {
        image_by(&IMAGES[symmetry as usize], set)
    }

    ghost is_lawful = { is_board-grid };

    ghost few = { Prim.omega arith };

    ghost point_count = { point_count-grid };

    ghost mill_count = { mill_count-grid };

    ghost file_id = { id-grid };

    ghost symmetry_count = { symmetry_count-grid };

    ghost few_symmetries = { Prim.omega arith };

    ghost has_symmetries = { symmetries-grid };
}

impl Board for Grid {}
