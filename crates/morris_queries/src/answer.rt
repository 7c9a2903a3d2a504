//! The answer to one position string.
ghost use Rattle.std.specs.Prelude.{◌-◌, ◌^◌, ◌<◌, ℕ, List, Option, IfOk};
ghost use Rattle.morris_board.specs.Streams.{CountsFailure};
ghost use Rattle.morris_files.specs.Files.{Files};
ghost use Rattle.morris_queries.specs.Answers.{AnswersString, IsAnswer, GoesOut};
ghost use Rattle.morris_queries.specs.Folders.{IsOf, Stays};
ghost use Rattle.morris_queries.specs.Printing.{IsShort};

use crate::library::Library;
use crate::print::{Refused, ReportLines};
use crate::report::Report;
use crate::show::Show;
use crate::values::Folder;
use morris_board::board::Geometry;
use morris_board::position::Position;
use morris_board::streams::Sink;
use morris_board::streams::printed::{Printed, send};
use morris_jobs::fault::Fault;

/// An answer that went out.
#[derive(Clone, Copy, Debug, PartialEq, Eq)]
pub struct Answered {
    /// How many bytes it has.
    pub sent: u64,
    /// Whether it is a fault.
    pub is_refused: bool,
}

/// The report of the position of a position string.
///
/// # Errors
/// The fault of a text that isn't a position string; then those of [`Folder::report`].
#[tactic(auto, using(crate::proofs::FolderLaws::stays_laws))]
fn answer<B: Geometry, L: Library>(
    folder: &mut Folder<'_, '_, '_, B, L>,
    text: &[u8],
    show: Show,
) -> Result<Report<B>, Fault>
    ensures stays { Stays B.shape L.files folder.old folder.new }
    ensures answer { (name : List ℕ) (known : Option Files) → IsOf B.shape L.files name known folder.old → IsAnswer B.shape name known show text.now result }
    ensures few { IfOk result IsShort }
{
    let position = Position::read(text)?;
    // The proof learns the rules of a position where its stones are read.
    let _ = position.own();
    folder.report(&position, show)
}

/// Answers one position string from the files of a folder, and sends the answer. With `Show::Best`
/// it is one line: the string, the value of its position, and the best moves. What else is shown
/// stands below that line; lines of fields take its place. A text that isn't a position string, or
/// whose files aren't there or can't be read, is answered by the line of the fault after the text.
/// Files that are needed are opened, and stay open.
///
/// # Errors
/// How many bytes went out until a write failed.
pub fn answer_string<B: Geometry, L: Library, O: Sink>(
    folder: &mut Folder<'_, '_, '_, B, L>,
    text: &[u8],
    show: Show,
    output: &mut O,
) -> Result<Answered, u64>
    requires failures { O.failures output.old < 2 ^ 64 - 1 }
    ensures stays { Stays B.shape L.files folder.old folder.new }
    ensures answer { (name : List ℕ) (known : Option Files) → IsOf B.shape L.files name known folder.old → AnswersString B.shape name known show text.now (O.contents output.old) (O.contents output.new) result }
    ensures counted { CountsFailure (O.failures output.old) (O.failures output.new) result }
{
    match answer(folder, text, show) {
        Ok(reported) => {
            let reported = &reported;
            send_answer(
                &ReportLines {
                    text,
                    show,
                    reported,
                },
                false,
                output,
            )
        }
        Err(fault) => {
            let refused = Refused {
                text,
                points: B::POINTS,
                fault,
            };
            send_answer(&refused, true, output)
        }
    }
}

/// Sends an answer.
fn send_answer<P: Printed, O: Sink>(
    answer: &P,
    is_refused: bool,
    output: &mut O,
) -> Result<Answered, u64>
    requires short { P.is_short answer.now }
    requires failures { O.failures output.old < 2 ^ 64 - 1 }
    ensures sent { GoesOut (O.contents output.old) (O.contents output.new) (P.bytes answer.now) is_refused result }
    ensures counted { CountsFailure (O.failures output.old) (O.failures output.new) result }
{
    let sent = send(answer, output)?;
    Ok(Answered { sent, is_refused })
}
