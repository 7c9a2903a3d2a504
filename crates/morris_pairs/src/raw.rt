//! Tables that may be wrong.
ghost use Rattle.std.specs.Prelude.{◌≡◌, ◌≢◌, ◌<◌, length, slice_index, vec_len, IfOk, IfErr, MatchResult};
ghost use Rattle.morris_index.specs.Pairs.{IsPair, size_of};
ghost use Rattle.morris_pairs.specs.Entries.{entry_count};
ghost use Rattle.morris_pairs.specs.Numberings.{layout_of, pair_of};
ghost use Rattle.morris_pairs.specs.Raws.{IsRaw};
ghost use Rattle.morris_pairs.specs.Tables.{table};

use crate::layout::Layout;
use crate::numbering::Numbering;
use morris_board::board::Geometry;
use morris_index::pair::Pair;
use std::marker::Model;
use thiserror::Error;

/// The number of codes isn't the number of entries of the table.
#[derive(Clone, Copy, Debug, PartialEq, Eq, Error)]
#[error("wrong number of entries")]
pub struct Count;

/// A pair in a layout with one code for each of its entries, such as a file states them. Any code
/// may be wrong: [`Raw::verify`] makes an exact table of it where none is.
#[derive(Drop)]
pub struct Raw<B: Geometry> {
    numbering: Numbering<B>,
    codes: Vec<u16>,
}

impl<B: Geometry> Model for Raw<B> {
    ghost use Rattle.morris_pairs.specs.Numberings.{layout_of, pair_of};
    ghost use Rattle.morris_pairs.specs.Tables.{Table, table};
    ghost use Rattle.morris_pairs.specs.Raws.{IsRaw};

    ghost Value = { Table };

    ghost view = { λ raw. table (layout_of raw.numbering) (pair_of raw.numbering) raw.codes.items };

    ghost invariant = { λ raw. IsRaw B.shape (table (layout_of raw.numbering) (pair_of raw.numbering) raw.codes.items) };
}

impl<B: Geometry> Raw<B> {
    /// The table of a pair in layout `Full` with these codes, one for each of its positions in the
    /// order of their indices. Tables in layout `Classes` are read from their files.
    ///
    /// # Errors
    /// The codes and [`Count`] where there isn't one for each entry.
    pub fn from_codes(
        pair: Pair<B>,
        layout: Layout,
        codes: Vec<u16>,
    ) -> Result<Raw<B>, (Vec<u16>, Count)>
        requires { layout ≡ Layout.Full }
        ensures count { MatchResult result (λ _. vec_len codes ≡ size_of B.POINTS pair) (λ _. vec_len codes ≢ size_of B.POINTS pair) }
        ensures value { IfOk result (λ raw. raw ≡ table layout pair codes.items) }
        ensures given_back { IfErr result (λ refused. refused.0 ≡ codes) }
    {
        let numbering = match layout {
            Layout::Full => Numbering::Full(pair),
            Layout::Classes => unreachable!(),
        };
        if codes.len() as u64 != numbering.count() {
            return Err((codes, Count));
        }
        Ok(Raw::new(numbering, codes))
    }

    /// The table with these codes, one for each entry.
    pub(crate) fn new(numbering: Numbering<B>, codes: Vec<u16>) -> Raw<B>
        requires { vec_len codes ≡ entry_count B.shape B.POINTS (layout_of numbering) (pair_of numbering) }
        ensures { result ≡ table (layout_of numbering) (pair_of numbering) codes.items }
    {
        // The proof learns here that the numbers of stones are those of a pair.
        let _ = numbering.pair();
        Raw { numbering, codes }
    }

    /// The pair of the table's positions.
    pub fn pair(&self) -> Pair<B>
        ensures value { result ≡ self.now.pair }
        ensures lawful { IsPair B.POINTS self.now.pair }
        ensures raw { IsRaw B.shape self.now }
    {
        self.numbering.pair()
    }

    /// How the entries are laid out.
    pub fn layout(&self) -> Layout
        ensures { result ≡ self.now.layout }
    {
        self.numbering.layout()
    }

    /// How the entries are numbered.
    pub(crate) fn numbering(&self) -> &Numbering<B>
        ensures layout { layout_of result.now ≡ self.now.layout }
        ensures pair { pair_of result.now ≡ self.now.pair }
    {
        &self.numbering
    }

    /// How many entries the table has: in layout `Full` one for each position of the pair.
    pub fn len(&self) -> u64
        ensures value { result ≡ length self.now.codes }
        ensures size { result ≡ entry_count B.shape B.POINTS self.now.layout self.now.pair }
    {
        self.codes.len() as u64
    }

    /// The code that the entry `i` states, which is below [`Raw::len`].
    pub fn code(&self, i: u64) -> u16
        requires { i < entry_count B.shape B.POINTS self.now.layout self.now.pair }
        ensures { result ≡ slice_index self.now.codes i }
    {
        self.codes[i as usize]
    }

    /// The codes that the entries state, in their order.
    pub(crate) fn codes(&self) -> &[u16]
        ensures { result.now ≡ self.now.codes }
    {
        &self.codes
    }

    /// How the entries are numbered, and the codes.
    pub(crate) fn into_parts(self) -> (Numbering<B>, Vec<u16>)
        ensures layout { layout_of result.0 ≡ self.layout }
        ensures pair { pair_of result.0 ≡ self.pair }
        ensures codes { result.1.items ≡ self.codes }
        ensures raw { IsRaw B.shape self }
    {
        (self.numbering, self.codes)
    }
}
