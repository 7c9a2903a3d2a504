//! Values and moves as records of numbers, which other languages read.
ghost use Rattle.std.specs.Prelude.{◌≡◌, ◌<◌, ◌≤◌, IfSome};
ghost use Rattle.morris_lookup.specs.Records.{value_record, move_record};

use morris_moves::game_move::Move;
use morris_pairs::value::Value;

/// A value as two numbers.
#[repr(C)]
#[derive(Clone, Copy)]
pub struct ValueRecord {
    /// [`DRAW`], [`WON`] or [`LOST`].
    pub kind: u16,
    /// In how many plies the game is over, 0 at a draw.
    pub depth: u16,
}

/// A move as numbers, and the value that it leads to.
#[repr(C)]
#[derive(Clone, Copy)]
pub struct MoveRecord {
    /// The point that the stone leaves.
    pub from: u8,
    /// The point that it goes to.
    pub to: u8,
    /// The point of the stone that is taken, or [`NONE`].
    pub taken: u8,
    /// Always 0.
    pub pad: u8,
    /// The value that the move leads to, for the player who makes it.
    pub value: ValueRecord,
}

/// The kinds of values.
pub const DRAW: u16 = 0;
/// The player to move wins.
pub const WON: u16 = 1;
/// The player to move has lost.
pub const LOST: u16 = 2;

/// What stands in the place of a point where no stone is taken.
pub const NONE: u8 = 255;

/// The record of a value.
pub fn value_record(value: Value) -> ValueRecord
    ensures { result ≡ value_record value }
{
    match value {
        Value::Draw => ValueRecord {
            kind: DRAW,
            depth: 0,
        },
        Value::Won(depth) => ValueRecord { kind: WON, depth },
        Value::Lost(depth) => ValueRecord { kind: LOST, depth },
    }
}

/// The record of a move that leads to a value.
pub fn move_record(m: Move, value: Value) -> MoveRecord
    ensures { result ≡ move_record m value }
{
    MoveRecord {
        from: m.from,
        to: m.to,
        taken: m.taken.unwrap_or(NONE),
        pad: 0,
        value: value_record(value),
    }
}
