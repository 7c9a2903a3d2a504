//! The answers to a list of position strings.
ghost use Rattle.std.specs.Prelude.{◌≡◌, ◌-◌, ◌^◌, ◌<◌, ℕ, List, [], Option, map};
ghost use Rattle.morris_board.specs.Streams.{CountsFailure};
ghost use Rattle.morris_files.specs.Files.{Files};
ghost use Rattle.morris_jobs.specs.Faults.{CountsWrites};
ghost use Rattle.morris_queries.specs.Answers.{AnswersStrings, AreOut, Begins, IsTallied};
ghost use Rattle.morris_queries.specs.Folders.{IsOf, Stays};
ghost use Rattle.morris_queries.specs.Printing.{head_text};

use crate::answer::{Answered, answer_string};
use crate::library::Library;
use crate::show::Show;
use crate::values::{Folder, no_files};
use morris_board::board::Geometry;
use morris_board::streams::Sink;
use morris_board::streams::printed::send;
use morris_jobs::fault::Fault;
use std::alloc::Global;

/// How much went out so far.
#[derive(Clone, Copy, Debug, PartialEq, Eq)]
pub(crate) struct Tally {
    /// How many bytes, or `u64::MAX` where they are more.
    pub(crate) sent: u64,
    /// How many answers were faults, or `u64::MAX` where they are more.
    pub(crate) refused: u64,
}

impl Tally {
    /// Sends what stands before all answers, and counts it.
    ///
    /// # Errors
    /// How many bytes went out until a write failed.
    pub(crate) fn begin<O: Sink>(show: Show, output: &mut O) -> Result<Tally, u64>
        requires failures { O.failures output.old < 2 ^ 64 - 1 }
        ensures begun { Begins show (O.contents output.old) (O.contents output.new) result }
        ensures counted { CountsFailure (O.failures output.old) (O.failures output.new) result }
    {
        let sent = send(&head_text(show), output)?;
        Ok(Tally { sent, refused: 0 })
    }

    /// Takes in what came of the next string.
    ///
    /// # Errors
    /// [`Fault::Write`] with the bytes that went out before and of this answer, where a write
    /// failed.
    pub(crate) fn take(&mut self, answered: Result<Answered, u64>) -> Result<(), Fault>
        ensures { IsTallied self.old self.new answered result }
    {
        match answered {
            Ok(done) => {
                self.sent = self.sent.saturating_add(done.sent);
                self.refused = self.refused.saturating_add(u64::from(done.is_refused));
                Ok(())
            }
            Err(sent) => Err(Fault::Write(self.sent.saturating_add(sent))),
        }
    }
}

/// What stands before all answers.
fn head_text(show: Show) -> &'static str
    ensures { result.now ≡ head_text show }
{
    match show {
        Show::Csv => "text,move,result,depth\n",
        _ => "",
    }
}

/// Answers a list of strings, one after the other, as [`answer_string`] answers each, and counts
/// those that are answered by a fault. Files are opened when a position first needs them, and stay
/// open.
///
/// # Errors
/// [`Fault::NoFolder`] where the place of the files isn't there, and then
/// [`Fault::Memory`] where there is no room for the places of open files, both before anything
/// is answered; [`Fault::Write`], with the bytes that went out, at the first write that fails.
pub fn answer_strings<B: Geometry, L: Library, O: Sink>(
    alloc: Global,
    board: &str,
    library: &mut L,
    strings: &[&str],
    show: Show,
    output: &mut O,
) -> Result<u64, Fault>
    requires failures { O.failures output.old < 2 ^ 64 - 1 }
    ensures unchanged { L.files library.new ≡ L.files library.old }
    ensures answer { AnswersStrings B.shape board.now (L.files library.old) show (map (λ text. text.now) strings.now) (O.contents output.old) (O.contents output.new) result }
    ensures counted { CountsWrites (O.failures output.old) (O.failures output.new) result }
{
    library.find()?;
    let Ok(mut tables) = no_files::<B, L>(alloc) else {
        return Err(Fault::Memory);
    };
    let mut folder = Folder::new(alloc, board, library, &mut tables);
    match Tally::begin(show, output) {
        Ok(tally) => answer_each(&mut folder, strings, show, tally, output),
        Err(sent) => Err(Fault::Write(sent)),
    }
}

/// Answers a list of strings, one after the other, after what stands before all answers, and counts
/// those that are answered by a fault.
///
/// # Errors
/// [`Fault::Write`], with the bytes that went out, at the first write that fails.
#[tactic(auto, using(crate::proofs::FolderLaws::stays_laws))]
fn answer_each<B: Geometry, L: Library, O: Sink>(
    folder: &mut Folder<'_, '_, '_, B, L>,
    strings: &[&str],
    show: Show,
    begun: Tally,
    output: &mut O,
) -> Result<u64, Fault>
    requires { O.failures output.old < 2 ^ 64 - 1 }
    ensures stays { Stays B.shape L.files folder.old folder.new }
    ensures answer { (name : List ℕ) (known : Option Files) (start : Option (List ℕ)) → IsOf B.shape L.files name known folder.old
        → AreOut B.shape name known show [] start (O.contents output.old) begun
        → AnswersStrings B.shape name known show (map (λ text. text.now) strings.now) start (O.contents output.new) result }
    ensures counted { CountsWrites (O.failures output.old) (O.failures output.new) result }
{
    let mut tally = begun;
    for text in strings {
        let answered = answer_string(folder, text.as_bytes(), show, output);
        tally.take(answered)?;
    }
    Ok(tally.refused)
}
