//! The values by which positions are looked for.
ghost use Rattle.std.specs.Prelude.{◌≡◌, ℕ, ◌^◌, ◌≤◌, List, ◌++◌, length, IfNone, IfSome};
ghost use Rattle.morris_queries.specs.Wanted.{AreKindsBy, IsGreatestDepth, ReadsWanted, WritesNumber, is_of_kind};

use morris_jobs::fault::Fault;
use morris_pairs::value::Value;

/// A kind of values, for the player to move.
#[derive(Clone, Copy, Debug, PartialEq, Eq)]
pub enum Kind {
    /// A draw.
    Draw,
    /// A win, in any number of plies.
    Won,
    /// A loss, in any number of plies.
    Lost,
    /// A win in so many plies.
    WonIn(u16),
    /// A loss in so many plies.
    LostIn(u16),
}

impl Kind {
    /// Whether a value is of this kind.
    pub(crate) fn has(self, value: Value) -> bool
        ensures { result ≡ is_of_kind self value }
    {
        match (self, value) {
            (Kind::Draw, Value::Draw) => true,
            (Kind::Won, Value::Won(_)) => true,
            (Kind::Lost, Value::Lost(_)) => true,
            (Kind::WonIn(plies), Value::Won(depth)) => plies == depth,
            (Kind::LostIn(plies), Value::Lost(depth)) => plies == depth,
            _ => false,
        }
    }
}

/// Which values are looked for.
#[derive(Clone, Copy, Debug, PartialEq, Eq)]
pub enum Wanted {
    /// All whose value is of this kind.
    Every(Kind),
    /// Those that are won in the greatest depth, and those that are lost in the greatest.
    Deepest,
}

/// The values that a text names: `draw`, `won`, `lost`, `won in D`, `lost in D` or `deepest`.
///
/// # Errors
/// [`Fault::ValueText`] for any other text.
pub fn read_wanted(text: &str) -> Result<Wanted, Fault>
    ensures { ReadsWanted text.now result }
{
    match text {
        "draw" => Ok(Wanted::Every(Kind::Draw)),
        "won" => Ok(Wanted::Every(Kind::Won)),
        "lost" => Ok(Wanted::Every(Kind::Lost)),
        "deepest" => Ok(Wanted::Deepest),
        _ => match (depth_after("won in ", text), depth_after("lost in ", text)) {
            (Some(depth), _) => Ok(Wanted::Every(Kind::WonIn(depth))),
            (None, Some(depth)) => Ok(Wanted::Every(Kind::LostIn(depth))),
            (None, None) => Err(Fault::ValueText),
        },
    }
}

/// The number that follows `words` in a text; `None` where the text doesn't begin with them, or no
/// number of 16 bits follows.
fn depth_after(words: &str, text: &str) -> Option<u16>
    ensures written { IfSome result (λ depth. (digits : List ℕ) × (text.now ≡ words.now ++ digits) × WritesNumber digits depth) }
    ensures none { IfNone result ((digits : List ℕ) (depth : ℕ) → text.now ≡ words.now ++ digits → ¬ WritesNumber digits depth) }
{
    match text.strip_prefix(words) {
        Some(digits) => digits.parse::<u16>().ok(),
        None => None,
    }
}

/// The kinds of values that are looked for, one after the other, by the tallies of positions: one;
/// or of the deepest ones, won in the greatest depth that one of those with these tallies has, and
/// lost in the greatest. `None` where none is won, or lost.
pub(crate) fn kinds_by(wanted: Wanted, tallies: &[u64]) -> (Option<Kind>, Option<Kind>)
    requires { length tallies.now ≤ 2 ^ 16 }
    ensures { AreKindsBy wanted tallies.now result }
{
    match wanted {
        Wanted::Every(kind) => (Some(kind), None),
        Wanted::Deepest => {
            let (win, loss) = (greatest_depth(tallies, 0), greatest_depth(tallies, 1));
            (win.map(Kind::WonIn), loss.map(Kind::LostIn))
        }
    }
}

/// The greatest depth of the codes that some position has and that leave this remainder when
/// divided by 2: 0 are those of wins, and 1 those of losses.
fn greatest_depth(tallies: &[u64], rest: usize) -> Option<u16>
    requires { length tallies.now ≤ 2 ^ 16 }
    ensures { IsGreatestDepth tallies.now rest result }
{
    for code in (1..tallies.len()).rev() {
        if code % 2 == rest && 0 < tallies[code] {
            return Some(code as u16 - 1);
        }
    }
    None
}
