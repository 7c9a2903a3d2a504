//! The command `look`.
ghost use Rattle.std.specs.Prelude.{◌-◌, ◌^◌, ◌<◌, ◌≤◌};
ghost use Rattle.morris_jobs.specs.Faults.{CountsWrites};
ghost use Rattle.morris_jobs.specs.BoardNames.{board_of};
ghost use Rattle.morris_commands.specs.Look.{Looks, LooksOn};

use crate::print_look::Looked;
use morris_board::board::Geometry;
use morris_board::position::Position;
use morris_board::streams::Sink;
use morris_jobs::fault::Fault;
use morris_jobs::on_board;
use morris_jobs::print::print;
use morris_moves::look_ahead::within;

/// Shows the position of a position string on the board named `board`: the string, how many stones
/// each side has, the legal moves, and the value as far as a search of `depth` plies, at most 6,
/// finds it. It takes no memory.
///
/// # Errors
/// [`Fault::Board`] where there is no such board, else [`Fault::Length`], [`Fault::Character`] or
/// [`Fault::Stones`] where the text isn't a position string, in this order and with nothing
/// written; else [`Fault::Write`], with the bytes that went out, at the first write that fails.
pub fn look<S: Sink>(board: &str, text: &str, depth: u8, output: &mut S) -> Result<(), Fault>
    requires depth { depth ≤ 6 }
    requires failures { S.failures output.old < 2 ^ 64 - 1 }
    ensures answer { Looks (board_of board.now) text.now depth (S.contents output.old) (S.contents output.new) result }
    ensures counted { CountsWrites (S.failures output.old) (S.failures output.new) result }
{
    on_board!(board, look_on::<S>(text, depth, output))
}

fn look_on<B: Geometry, S: Sink>(text: &str, depth: u8, output: &mut S) -> Result<(), Fault>
    requires depth { depth ≤ 6 }
    requires failures { S.failures output.old < 2 ^ 64 - 1 }
    ensures answer { LooksOn B.shape text.now depth (S.contents output.old) (S.contents output.new) result }
    ensures counted { CountsWrites (S.failures output.old) (S.failures output.new) result }
{
    let position = Position::<B>::read(text.as_bytes())?;
    let found = within(&position, depth);
    let looked = Looked {
        position,
        plies: depth,
        found,
    };
    print(&looked, output)
}
