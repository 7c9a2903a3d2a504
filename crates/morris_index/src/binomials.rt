//! The table of binomial coefficients.
ghost use Rattle.std.specs.Prelude.{◌≡◌, ℕ, ◌+◌, ◌<◌, ◌≤◌, ◌^◌};
ghost use Rattle.morris_index.specs.Binomials.{choose};

/// Row `k` has the numbers of subsets of `k` of 0, 1, .. 24 things.
const BINOMIALS: [[u32; 25]; 11] = [
    [
        1, 1, 1, 1, 1, 1, 1, 1, 1, 1, 1, 1, 1, 1, 1, 1, 1, 1, 1, 1, 1, 1, 1, 1, 1,
    ],
    [
        0, 1, 2, 3, 4, 5, 6, 7, 8, 9, 10, 11, 12, 13, 14, 15, 16, 17, 18, 19, 20, 21, 22, 23, 24,
    ],
    [
        0, 0, 1, 3, 6, 10, 15, 21, 28, 36, 45, 55, 66, 78, 91, 105, 120, 136, 153, 171, 190, 210,
        231, 253, 276,
    ],
    [
        0, 0, 0, 1, 4, 10, 20, 35, 56, 84, 120, 165, 220, 286, 364, 455, 560, 680, 816, 969, 1140,
        1330, 1540, 1771, 2024,
    ],
    [
        0, 0, 0, 0, 1, 5, 15, 35, 70, 126, 210, 330, 495, 715, 1001, 1365, 1820, 2380, 3060, 3876,
        4845, 5985, 7315, 8855, 10626,
    ],
    [
        0, 0, 0, 0, 0, 1, 6, 21, 56, 126, 252, 462, 792, 1287, 2002, 3003, 4368, 6188, 8568, 11628,
        15504, 20349, 26334, 33649, 42504,
    ],
    [
        0, 0, 0, 0, 0, 0, 1, 7, 28, 84, 210, 462, 924, 1716, 3003, 5005, 8008, 12376, 18564, 27132,
        38760, 54264, 74613, 100947, 134596,
    ],
    [
        0, 0, 0, 0, 0, 0, 0, 1, 8, 36, 120, 330, 792, 1716, 3432, 6435, 11440, 19448, 31824, 50388,
        77520, 116280, 170544, 245157, 346104,
    ],
    [
        0, 0, 0, 0, 0, 0, 0, 0, 1, 9, 45, 165, 495, 1287, 3003, 6435, 12870, 24310, 43758, 75582,
        125970, 203490, 319770, 490314, 735471,
    ],
    [
        0, 0, 0, 0, 0, 0, 0, 0, 0, 1, 10, 55, 220, 715, 2002, 5005, 11440, 24310, 48620, 92378,
        167960, 293930, 497420, 817190, 1307504,
    ],
    [
        0, 0, 0, 0, 0, 0, 0, 0, 0, 0, 1, 11, 66, 286, 1001, 3003, 8008, 19448, 43758, 92378,
        184756, 352716, 646646, 1144066, 1961256,
    ],
];

/// How many subsets of `k` things a set of `n` things has, for at most 24 things and subsets of at
/// most 10.
pub fn binomial(n: u8, k: u8) -> u64
    requires things { n ≤ 24 }
    requires chosen { k ≤ 10 }
    ensures value { result ≡ choose n k }
    ensures few { result < 2 ^ 21 }
{
    u64::from(BINOMIALS[k as usize][n as usize])
}

/// The highest point of a set of `k` points with this rank, and the rank of its other points: the
/// greatest `n` up to 24 such that `n` things have at most `rank` subsets of `k`, and what is left
/// of the rank. The numbers of a row never fall, so `n` is how many of them after the first are at
/// most `rank`.
pub(crate) fn highest_point(k: u8, rank: u32) -> (u8, u32)
    requires some { 0 < k }
    requires chosen { k ≤ 9 }
    ensures point { result.0 ≤ 24 }
    ensures left { choose result.0 k + result.1 ≡ rank }
    ensures highest { (n : ℕ) → result.0 < n → n ≤ 24 → rank < choose n k }
{
    let choices = &BINOMIALS[k as usize];
    let mut point = 0;
    for n in 1..25_usize {
        if choices[n] <= rank {
            point += 1;
        }
    }
    (point, rank - choices[point as usize])
}
