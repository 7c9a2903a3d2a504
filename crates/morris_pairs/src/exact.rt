//! Tables of the game's values.
ghost use Rattle.std.specs.Prelude.{◌≡◌, ◌+◌, ◌<◌, ◌≤◌, ◌^◌, ◌↔◌, true, length, slice_index, IfOk, IsTrue};
ghost use Rattle.morris_board.specs.Positions.{sides, IsPosition};
ghost use Rattle.morris_board.specs.Sets.{count_of};
ghost use Rattle.morris_index.specs.Pairs.{is_of};
ghost use Rattle.morris_index.specs.Standings.{are_of};
ghost use Rattle.morris_pairs.specs.Codes.{IsValue, value_in};
ghost use Rattle.morris_pairs.specs.Entries.{entry_count, entry_index};
ghost use Rattle.morris_pairs.specs.Numberings.{layout_of, pair_of};
ghost use Rattle.morris_pairs.specs.Tables.{table, IsTable, greatest_code, tallies_of};
ghost use Rattle.morris_pairs.specs.Captured.{IsStandingIn};

use crate::layout::Layout;
use crate::numbering::Numbering;
use crate::raw::Raw;
use crate::value::Value;
use morris_board::board::Geometry;
use morris_board::points::Points;
use morris_board::position::Position;
use morris_index::pair::Pair;
use morris_index::standing::Standing;
use std::alloc::{AllocError, Global};
use std::marker::Model;

/// The table of a pair: for each of its entries the code of the value that best play of both
/// players leads to from the entry's position. In layout `Full` each position has an entry; in
/// layout `Classes` a position has the value of its canonical form, which is an image of it. A code
/// is 0 for a draw and otherwise one more than the depth in plies. Depths of losses are even and
/// those of wins odd, so an odd code is a loss and an even one above 0 a win.
#[derive(Drop)]
pub struct Exact<B: Geometry> {
    numbering: Numbering<B>,
    codes: Vec<u16>,
}

impl<B: Geometry> Model for Exact<B> {
    ghost use Rattle.morris_pairs.specs.Numberings.{layout_of, pair_of};
    ghost use Rattle.morris_pairs.specs.Tables.{Table, table, IsTable};

    ghost Value = { Table };

    ghost view = { λ exact. table (layout_of exact.numbering) (pair_of exact.numbering) exact.codes.items };

    ghost invariant = { λ exact. IsTable B.shape (table (layout_of exact.numbering) (pair_of exact.numbering) exact.codes.items) };
}

impl<B: Geometry> Exact<B> {
    /// The table with these codes, which are those of the entries in their order.
    pub(crate) fn new(numbering: Numbering<B>, codes: Vec<u16>) -> Exact<B>
        requires { IsTable B.shape (table (layout_of numbering) (pair_of numbering) codes.items) }
        ensures { result ≡ table (layout_of numbering) (pair_of numbering) codes.items }
    {
        Exact { numbering, codes }
    }

    /// The pair of the table's positions.
    pub fn pair(&self) -> Pair<B>
        ensures value { result ≡ self.now.pair }
        ensures lawful { IsTable B.shape self.now }
    {
        self.numbering.pair()
    }

    /// How the entries are laid out.
    pub fn layout(&self) -> Layout
        ensures { result ≡ self.now.layout }
    {
        self.numbering.layout()
    }

    /// How many entries the table has: in layout `Full` one for each position of the pair.
    pub fn len(&self) -> u64
        ensures value { result ≡ length self.now.codes }
        ensures size { result ≡ entry_count B.shape B.POINTS self.now.layout self.now.pair }
        ensures few { result ≤ 2 ^ 40 }
    {
        // The proof learns here how many entries there may be.
        let _ = self.numbering.count();
        self.codes.len() as u64
    }

    /// The code of the entry `i`, which is below [`Exact::len`].
    pub fn code(&self, i: u64) -> u16
        requires { i < entry_count B.shape B.POINTS self.now.layout self.now.pair }
        ensures { result ≡ slice_index self.now.codes i }
    {
        self.codes[i as usize]
    }

    /// Where the entries stand of the positions of the pair in which the player to move has the
    /// stones `own` and the opponent `other` stones.
    pub(crate) fn standing(&self, own: Points, other: u8) -> Standing
        requires within { own < 2 ^ B.POINTS }
        requires counts { are_of self.now.pair (count_of own) other ≡ true }
        ensures own { result.own ≡ own }
        ensures stands { IsStandingIn B.shape B.POINTS self.now.layout self.now.pair other result }
    {
        self.numbering.standing(own, other)
    }

    /// The code of the position with these own stones in which the opponent has the stones `other`,
    /// as many as the standing was asked for.
    pub(crate) fn code_at(&self, standing: &Standing, other: Points) -> u16
        requires stands { IsStandingIn B.shape B.POINTS self.now.layout self.now.pair (count_of other) standing.now }
        requires lawful { IsPosition B.shape (sides standing.now.own other) }
        ensures { result ≡ slice_index self.now.codes (entry_index B.shape B.POINTS self.now.layout self.now.pair (sides standing.now.own other)) }
    {
        self.code(self.numbering.entry_at(standing, other))
    }

    /// The value of a position of the pair.
    pub fn value_of(&self, position: &Position<B>) -> Value
        requires { is_of self.now.pair position.now ≡ true }
        ensures value { IsValue B.shape position.now result }
        ensures code { result ≡ value_in (slice_index self.now.codes (entry_index B.shape B.POINTS self.now.layout self.now.pair position.now)) }
    {
        // The proof learns the rules of a position where its stones are read.
        let _ = position.own();
        value_of_code(self.code(self.numbering.entry(position)))
    }

    /// The codes of the entries in their order.
    fn codes(&self) -> &[u16]
        ensures { result.now ≡ self.now.codes }
    {
        &self.codes
    }

    /// Whether a table that was read has the same pair, layout and codes.
    pub fn is_same(&self, raw: &Raw<B>) -> bool
        ensures { IsTrue result ↔ (raw.now ≡ self.now) }
    {
        self.pair() == raw.pair() && self.layout() == raw.layout() && self.codes() == raw.codes()
    }

    /// The same pair, layout and codes, to be verified again by whoever gets them.
    pub fn into_raw(self) -> Raw<B>
        ensures { result ≡ self }
    {
        Raw::new(self.numbering, self.codes)
    }

    /// How many entries have each code, from 0 up to the greatest code of the table.
    ///
    /// # Errors
    /// [`AllocError`] where memory runs out.
    pub fn tallies(&self, alloc: Global) -> Result<Vec<u64>, AllocError>
        ensures { IfOk result (λ tallies. tallies.items ≡ tallies_of self.now.codes) }
    {
        count_codes(alloc, &self.codes)
    }
}

/// The value that a code says: 0 is a draw, and any other is one more than the depth in plies. At
/// an even depth the player to move has lost, at an odd one won.
pub fn value_of_code(code: u16) -> Value
    ensures { result ≡ value_in code }
{
    if code == 0 {
        return Value::Draw;
    }
    let depth = code - 1;
    if depth % 2 == 0 {
        Value::Lost(depth)
    } else {
        Value::Won(depth)
    }
}

/// The greatest code, or 0 where there is none.
fn greatest_code(codes: &[u16]) -> u16
    ensures { result ≡ greatest_code codes.now }
{
    codes.iter().copied().max().unwrap_or(0)
}

/// How many of the codes are 0, 1, 2 and so on, up to the greatest of them.
fn count_codes(alloc: Global, codes: &[u16]) -> Result<Vec<u64>, AllocError>
    ensures { IfOk result (λ tallies. tallies.items ≡ tallies_of codes.now) }
{
    let mut tallies = vec![in alloc; 0u64; greatest_code(codes) as usize + 1]?;
    for code in codes {
        tallies[*code as usize] += 1;
    }
    Ok(tallies)
}
