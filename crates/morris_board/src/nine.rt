//! The board Nine.
use crate::board::{Board, Geometry, Tables};
use crate::points::Points;
use crate::rings::image_by_rings;

/// The usual board with 24 points on three rings. Point `8 * r + k` is place `k` of ring `r`, where
/// ring 0 is the outer one, and place 0 the top left corner, from which the places go clockwise;
/// odd places are the middles of the sides.
#[derive(Clone, Copy, Debug)]
pub struct Nine;

/// The points adjacent to each point. Each byte is a ring, the inner one first, and each line below
/// is one too, the outer one first.
const NEIGHBOURS: [u32; 24] = [
    0x00_00_82, 0x00_02_05, 0x00_00_0a, 0x00_08_14, 0x00_00_28, 0x00_20_50, 0x00_00_a0, 0x00_80_41,
    0x00_82_00, 0x02_05_02, 0x00_0a_00, 0x08_14_08, 0x00_28_00, 0x20_50_20, 0x00_a0_00, 0x80_41_80,
    0x82_00_00, 0x05_02_00, 0x0a_00_00, 0x14_08_00, 0x28_00_00, 0x50_20_00, 0xa0_00_00, 0x41_80_00,
];

/// The sides of the outer, the middle and the inner ring, and then the lines across the rings, each
/// from the top or top left on, clockwise.
const MILLS: [u32; 16] = [
    0x00_00_07, 0x00_00_1c, 0x00_00_70, 0x00_00_c1, 0x00_07_00, 0x00_1c_00, 0x00_70_00, 0x00_c1_00,
    0x07_00_00, 0x1c_00_00, 0x70_00_00, 0xc1_00_00, 0x02_02_02, 0x08_08_08, 0x20_20_20, 0x80_80_80,
];

/// The two mills that have each point.
const MILLS_THROUGH: [[u32; 2]; 24] = [
    [0x00_00_07, 0x00_00_c1],
    [0x00_00_07, 0x02_02_02],
    [0x00_00_07, 0x00_00_1c],
    [0x00_00_1c, 0x08_08_08],
    [0x00_00_1c, 0x00_00_70],
    [0x00_00_70, 0x20_20_20],
    [0x00_00_70, 0x00_00_c1],
    [0x00_00_c1, 0x80_80_80],
    [0x00_07_00, 0x00_c1_00],
    [0x00_07_00, 0x02_02_02],
    [0x00_07_00, 0x00_1c_00],
    [0x00_1c_00, 0x08_08_08],
    [0x00_1c_00, 0x00_70_00],
    [0x00_70_00, 0x20_20_20],
    [0x00_70_00, 0x00_c1_00],
    [0x00_c1_00, 0x80_80_80],
    [0x07_00_00, 0xc1_00_00],
    [0x07_00_00, 0x02_02_02],
    [0x07_00_00, 0x1c_00_00],
    [0x1c_00_00, 0x08_08_08],
    [0x1c_00_00, 0x70_00_00],
    [0x70_00_00, 0x20_20_20],
    [0x70_00_00, 0xc1_00_00],
    [0xc1_00_00, 0x80_80_80],
];

/// What adjoins what.
const TABLES: Tables = Tables {
    neighbours: &NEIGHBOURS,
    mills: &MILLS,
    mills_through: &MILLS_THROUGH,
};

/// The point to which each symmetry takes each point: four turns, four mirrors, and then the same
/// with the outer and the inner ring exchanged.
const IMAGES: [[u8; 24]; 16] = [
    [
        0, 1, 2, 3, 4, 5, 6, 7, 8, 9, 10, 11, 12, 13, 14, 15, 16, 17, 18, 19, 20, 21, 22, 23,
    ],
    [
        2, 3, 4, 5, 6, 7, 0, 1, 10, 11, 12, 13, 14, 15, 8, 9, 18, 19, 20, 21, 22, 23, 16, 17,
    ],
    [
        4, 5, 6, 7, 0, 1, 2, 3, 12, 13, 14, 15, 8, 9, 10, 11, 20, 21, 22, 23, 16, 17, 18, 19,
    ],
    [
        6, 7, 0, 1, 2, 3, 4, 5, 14, 15, 8, 9, 10, 11, 12, 13, 22, 23, 16, 17, 18, 19, 20, 21,
    ],
    [
        0, 7, 6, 5, 4, 3, 2, 1, 8, 15, 14, 13, 12, 11, 10, 9, 16, 23, 22, 21, 20, 19, 18, 17,
    ],
    [
        2, 1, 0, 7, 6, 5, 4, 3, 10, 9, 8, 15, 14, 13, 12, 11, 18, 17, 16, 23, 22, 21, 20, 19,
    ],
    [
        4, 3, 2, 1, 0, 7, 6, 5, 12, 11, 10, 9, 8, 15, 14, 13, 20, 19, 18, 17, 16, 23, 22, 21,
    ],
    [
        6, 5, 4, 3, 2, 1, 0, 7, 14, 13, 12, 11, 10, 9, 8, 15, 22, 21, 20, 19, 18, 17, 16, 23,
    ],
    [
        16, 17, 18, 19, 20, 21, 22, 23, 8, 9, 10, 11, 12, 13, 14, 15, 0, 1, 2, 3, 4, 5, 6, 7,
    ],
    [
        18, 19, 20, 21, 22, 23, 16, 17, 10, 11, 12, 13, 14, 15, 8, 9, 2, 3, 4, 5, 6, 7, 0, 1,
    ],
    [
        20, 21, 22, 23, 16, 17, 18, 19, 12, 13, 14, 15, 8, 9, 10, 11, 4, 5, 6, 7, 0, 1, 2, 3,
    ],
    [
        22, 23, 16, 17, 18, 19, 20, 21, 14, 15, 8, 9, 10, 11, 12, 13, 6, 7, 0, 1, 2, 3, 4, 5,
    ],
    [
        16, 23, 22, 21, 20, 19, 18, 17, 8, 15, 14, 13, 12, 11, 10, 9, 0, 7, 6, 5, 4, 3, 2, 1,
    ],
    [
        18, 17, 16, 23, 22, 21, 20, 19, 10, 9, 8, 15, 14, 13, 12, 11, 2, 1, 0, 7, 6, 5, 4, 3,
    ],
    [
        20, 19, 18, 17, 16, 23, 22, 21, 12, 11, 10, 9, 8, 15, 14, 13, 4, 3, 2, 1, 0, 7, 6, 5,
    ],
    [
        22, 21, 20, 19, 18, 17, 16, 23, 14, 13, 12, 11, 10, 9, 8, 15, 6, 5, 4, 3, 2, 1, 0, 7,
    ],
];

impl Geometry for Nine {
    ghost use Rattle.std.proofs.Common.{arith};
    ghost use Rattle.morris_board.specs.Boards.{nine};
    ghost use Rattle.morris_board.specs.BoardLaws.{id-nine, is_board-nine, point_count-nine, mill_count-nine};
    ghost use Rattle.morris_board.specs.SymmetryLaws.{symmetries-nine, symmetry_count-nine};

    ghost shape = { nine };

    ghost POINTS = { 24 };

    ghost MILLS = { 16 };

    ghost ID = { 0 };

    ghost SYMMETRIES = { 16 };

    const POINTS: u8 = 24;

    const MILLS: u8 = 16;

    const ID: u8 = 0;

    const NAME: &'static str = "nine";

    const SYMMETRIES: u8 = 16;

    fn tables() -> &'static Tables {
        &TABLES
    }

    fn image(symmetry: u8, point: u8) -> u8 {
        IMAGES[symmetry as usize][point as usize]
    }

    fn image_of(symmetry: u8, set: Points) -> Points {
        image_by_rings(symmetry, set)
    }

    ghost is_lawful = { is_board-nine };

    ghost few = { Prim.omega arith };

    ghost point_count = { point_count-nine };

    ghost mill_count = { mill_count-nine };

    ghost file_id = { id-nine };

    ghost symmetry_count = { symmetry_count-nine };

    ghost few_symmetries = { Prim.omega arith };

    ghost has_symmetries = { symmetries-nine };
}

impl Board for Nine {}
