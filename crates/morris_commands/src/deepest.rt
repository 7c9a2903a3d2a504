//! The deepest positions of a pair.
ghost use Rattle.std.specs.Prelude.{◌≡◌, ◌<◌, true, length, IfOk};
ghost use Rattle.morris_board.specs.Positions.{IsPosition};
ghost use Rattle.morris_index.specs.Pairs.{is_of};
ghost use Rattle.morris_pairs.specs.Entries.{entry_count, entry_index, has_own_entry};
ghost use Rattle.morris_commands.specs.Deepest.{HasDeepest, IsDeepest, IsGreatestStated, is_stated_by};

use morris_board::board::Geometry;
use morris_board::position::Position;
use morris_index::class_pair::ClassPair;
use morris_pairs::exact::Exact;
use morris_pairs::layout::Layout;
use std::alloc::{AllocError, Global};

/// The outcome of a decided position for the player to move.
#[derive(Clone, Copy, Debug, PartialEq, Eq)]
pub enum Outcome {
    /// The player to move wins.
    Won,
    /// The player to move loses.
    Lost,
}

impl Outcome {
    /// Whether a code states this: codes of losses are odd, and those of wins even and above 0.
    fn is_stated_by(self, code: u16) -> bool
        ensures { result ≡ is_stated_by self code }
    {
        match self {
            Outcome::Won => 0 < code && code % 2 == 0,
            Outcome::Lost => code % 2 == 1,
        }
    }
}

/// A position that is won or lost, and how deep it is.
#[derive_where(Clone, Copy, Debug)]
pub struct Deep<B: Geometry> {
    /// The position.
    pub position: Position<B>,
    /// In how many plies the game ends from it.
    pub depth: u16,
}

/// A deepest win and a deepest loss of a pair, where there are any.
#[derive_where(Clone, Copy, Debug)]
pub struct Deepest<B: Geometry> {
    /// The win.
    pub win: Option<Deep<B>>,
    /// The loss.
    pub loss: Option<Deep<B>>,
}

impl<B: Geometry> Deepest<B> {
    /// Those of a table's pair, see [`find_deepest`].
    ///
    /// # Errors
    /// [`AllocError`] where memory runs out; layout `Full` asks for none.
    pub fn of(alloc: Global, table: &Exact<B>) -> Result<Deepest<B>, AllocError>
        ensures { IfOk result (HasDeepest B.shape table.now.pair) }
    {
        let win = find_deepest(alloc, table, Outcome::Won)?;
        let loss = find_deepest(alloc, table, Outcome::Lost)?;
        Ok(Deepest { win, loss })
    }
}

/// Of the positions of a table's pair that have an outcome for the player to move, one with the
/// greatest depth: the one with the least index, whatever the table's layout. `None` where no
/// position of the pair has the outcome.
///
/// # Errors
/// [`AllocError`] where memory runs out; layout `Full` asks for none.
pub fn find_deepest<B: Geometry>(
    alloc: Global,
    table: &Exact<B>,
    outcome: Outcome,
) -> Result<Option<Deep<B>>, AllocError>
    ensures { IfOk result (IsDeepest B.shape table.now.pair outcome) }
{
    // The proof learns here that the table is exact.
    let _ = table.pair();
    let Some(entry) = deepest_entry(table, outcome) else {
        return Ok(None);
    };
    let position = position_of(alloc, table, entry)?;
    let depth = table.code(entry) - 1;
    Ok(Some(Deep { position, depth }))
}

/// The first entry with the greatest code that states the outcome.
fn deepest_entry<B: Geometry>(table: &Exact<B>, outcome: Outcome) -> Option<u64>
    ensures { IsGreatestStated outcome table.now.codes (length table.now.codes) result }
{
    let mut greatest = 0;
    let mut found = None;
    for entry in 0..table.len() {
        let code = table.code(entry);
        if greatest < code && outcome.is_stated_by(code) {
            greatest = code;
            found = Some(entry);
        }
    }
    found
}

/// The position of an entry; by classes its canonical form.
fn position_of<B: Geometry>(
    alloc: Global,
    table: &Exact<B>,
    entry: u64,
) -> Result<Position<B>, AllocError>
    requires { entry < entry_count B.shape B.POINTS table.now.layout table.now.pair }
    ensures entry { IfOk result (λ p. entry_index B.shape B.POINTS table.now.layout table.now.pair p ≡ entry) }
    ensures counts { IfOk result (λ p. is_of table.now.pair p ≡ true) }
    ensures lawful { IfOk result (λ p. IsPosition B.shape p) }
    ensures own { IfOk result (λ p. has_own_entry B.shape table.now.layout p ≡ true) }
{
    match table.layout() {
        Layout::Full => Ok(table.pair().position(entry)),
        Layout::Classes => {
            let entries = ClassPair::make(alloc, table.pair())?;
            Ok(entries.position(entry))
        }
    }
}
