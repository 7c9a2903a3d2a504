//! The score of a result for the player whose move leads there: the better the result, the higher
//! it is.
ghost use Rattle.std.specs.Prelude.{◌≡◌};
ghost use Rattle.morris_pairs.specs.Scores.{score, score_of, code_of_score, IsShort};

use morris_wave::Exits;

/// The score of a draw: more than that of any result that is won for the opponent.
const DRAWN: u32 = 131_072;

/// The score of a result that is lost for the opponent at once. Each ply later it is one less, and
/// always more than that of a draw.
const LOST_AT_ONCE: u32 = 300_000;

/// The score of a result of this code.
#[tactic(auto, unfolding(crate::specs::Scores::score))]
pub(crate) fn score(code: u16) -> u32
    ensures { result ≡ score code }
{
    let code = u32::from(code);
    // Without a test for 0, since what comes next would have to wait until the code is there.
    let other = (code + DRAWN - 1) % DRAWN + 1;
    if code % 2 == 1 {
        LOST_AT_ONCE + 1 - code
    } else {
        other
    }
}

/// The best score of some results, and 0 where there is none.
#[tactic(auto, unfolding(crate::specs::Scores::score_of))]
pub(crate) fn score_of(results: Exits) -> u32
    ensures value { result ≡ score_of results }
    ensures short { IsShort results }
{
    let won = match results.greatest_won {
        Some(depth) => u32::from(depth) + 1,
        None => 0,
    };
    if let Some(depth) = results.least_lost {
        return LOST_AT_ONCE - u32::from(depth);
    }
    if results.drawn { DRAWN } else { won }
}

/// The code of a position whose best result has this score. It may be one more than a code of 16
/// bits.
#[tactic(auto, unfolding(crate::specs::Scores::code_of_score))]
pub(crate) fn code_of_score(best: u32) -> u32
    ensures { result ≡ code_of_score best }
{
    if best > DRAWN {
        (LOST_AT_ONCE + 2).saturating_sub(best)
    } else if best == DRAWN {
        0
    } else if best == 0 {
        1
    } else {
        best + 1
    }
}
