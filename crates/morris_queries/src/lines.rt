//! The answers to the lines of an input.
ghost use Rattle.std.specs.Prelude.{◌≡◌, ℕ, ◌-◌, ◌^◌, ◌<◌, ◌∷◌, [], List, Option, Err};
ghost use Rattle.morris_files.specs.Files.{Files};
ghost use Rattle.morris_jobs.specs.Faults.{CountsWrites};
ghost use Rattle.morris_queries.specs.Answers.{AreOut};
ghost use Rattle.morris_queries.specs.Folders.{IsOf};
ghost use Rattle.morris_queries.specs.LineAnswers.{AnswersFound, AnswersLines, CountsReads};
ghost use Rattle.morris_queries.specs.Readings.{Stands, StaysOf, Takes};

use crate::answer::answer_string;
use crate::library::Library;
use crate::line::{RETAINED, is_passed_over, take_in, text_of};
use crate::show::Show;
use crate::strings::Tally;
use crate::values::{Folder, no_files};
use arrayvec::ArrayVec;
use morris_board::board::Geometry;
use morris_board::streams::{Failed, Sink, Source};
use morris_jobs::fault::Fault;
use std::alloc::Global;

/// How many bytes are read at a time, at most.
const CHUNK: usize = 4096;

/// The reading of an input, and the answers to the lines that have ended in it.
#[derive(Drop)]
struct Reading<'n, 'l, 't, 'o, B: Geometry, L: Library, O> {
    /// Where the answers are found.
    folder: Folder<'n, 'l, 't, B, L>,
    /// What they show.
    show: Show,
    /// Where they go.
    output: &'o mut O,
    /// How much went out.
    tally: Tally,
    /// The first bytes of the line that is being read.
    line: ArrayVec<u8, RETAINED>,
}

#[tactic(auto, using(crate::proofs::ReadingLaws::reading_laws))]
impl<'n, 'l, 't, 'o, B: Geometry, L: Library, O: Sink> Reading<'n, 'l, 't, 'o, B, L, O> {
    /// A reading of which nothing is read yet; what stands before all answers went out.
    fn new(
        folder: Folder<'n, 'l, 't, B, L>,
        show: Show,
        output: &'o mut O,
        tally: Tally,
    ) -> Reading<'n, 'l, 't, 'o, B, L, O>
        ensures lent { result.output.ghost_name ≡ output.entry.ghost_name }
        ensures output { result.output.now ≡ output.old }
        ensures folder { result.folder ≡ folder.entry }
        ensures show { result.show ≡ show }
        ensures stands { (name : List ℕ) (known : Option Files) (start : Option (List ℕ)) → IsOf B.shape L.files name known folder.entry
            → AreOut B.shape name known show [] start (O.contents output.old) tally → Stands B.shape L.files O.contents name known start [] result }
    {
        Reading {
            folder,
            show,
            output,
            tally,
            line: ArrayVec::new(),
        }
    }

    /// Takes in the next byte: at a line feed, the line that it ends is answered, unless it is
    /// passed over.
    ///
    /// # Errors
    /// [`Fault::Write`], with the bytes that went out, where a write failed.
    fn take_byte(&mut self, byte: u8) -> Result<(), Fault>
        requires { O.failures self.old.output.now < 2 ^ 64 - 1 }
        ensures stays { StaysOf B.shape L.files self.old self.new }
        ensures taken { Takes B.shape L.files O.contents self.old self.new (byte ∷ []) result }
        ensures counted { CountsWrites (O.failures self.old.output.now) (O.failures self.new.output.now) result }
    {
        if byte == b'\n' {
            return self.end_line();
        }
        take_in(&mut self.line, byte);
        Ok(())
    }

    /// Ends the line that is being read: it is answered, unless it is passed over.
    ///
    /// # Errors
    /// Those of [`take_byte`](Reading::take_byte).
    fn end_line(&mut self) -> Result<(), Fault>
        requires { O.failures self.old.output.now < 2 ^ 64 - 1 }
        ensures stays { StaysOf B.shape L.files self.old self.new }
        ensures taken { Takes B.shape L.files O.contents self.old self.new (10 ∷ []) result }
        ensures counted { CountsWrites (O.failures self.old.output.now) (O.failures self.new.output.now) result }
    {
        let text = text_of(self.line.as_slice());
        if !is_passed_over(text) {
            let answered = answer_string(&mut self.folder, text, self.show, self.output);
            self.tally.take(answered)?;
        }
        self.line.clear();
        Ok(())
    }

    /// Takes in the next bytes, and answers the lines that end in them.
    ///
    /// # Errors
    /// Those of [`take_byte`](Reading::take_byte).
    fn take_bytes(&mut self, bytes: &[u8]) -> Result<(), Fault>
        requires { O.failures self.old.output.now < 2 ^ 64 - 1 }
        ensures stays { StaysOf B.shape L.files self.old self.new }
        ensures taken { Takes B.shape L.files O.contents self.old self.new bytes.now result }
        ensures counted { CountsWrites (O.failures self.old.output.now) (O.failures self.new.output.now) result }
    {
        for byte in bytes {
            self.take_byte(*byte)?;
        }
        Ok(())
    }

    /// Reads an input to its end, and answers its lines. Answers how many of the answers were
    /// faults.
    ///
    /// # Errors
    /// [`Fault::Read`] and [`Fault::Write`], as [`answer_lines`] says.
    fn read_all<I: Source>(&mut self, input: &mut I) -> Result<u64, Fault>
        requires reading { I.failures input.old < 2 ^ 64 - 1 }
        requires writing { O.failures self.old.output.now < 2 ^ 64 - 1 }
        ensures stays { StaysOf B.shape L.files self.old self.new }
        ensures answer { (name : List ℕ) (known : Option Files) (start : Option (List ℕ)) → Stands B.shape L.files O.contents name known start [] self.old
            → AnswersLines B.shape name known self.old.show (I.remaining input.old) (I.remaining input.new) start (O.contents self.new.output.now) result }
        ensures reads { (name : List ℕ) (known : Option Files) (start : Option (List ℕ)) → Stands B.shape L.files O.contents name known start [] self.old
            → CountsReads (I.remaining input.old) (I.remaining input.new) (I.failures input.old) (I.failures input.new) result }
        ensures counted { CountsWrites (O.failures self.old.output.now) (O.failures self.new.output.now) result }
    {
        for _ in 0..u64::MAX {
            let mut chunk = [0; CHUNK];
            match input.read(&mut chunk) {
                Ok(0) => {
                    self.end_line()?;
                    return Ok(self.tally.refused);
                }
                Ok(count) => self.take_bytes(&chunk[..count])?,
                Err(Failed) => return Err(Fault::Read),
            }
        }
        Err(Fault::Read)
    }
}

/// Answers the lines of an input, each as [`answer_string`] answers its text, and counts those that
/// are answered by a fault. A line ends before a line feed, and a carriage return there is passed
/// over; a last line needs no line feed. A line that is empty then, or begins with `#`, is passed
/// over: there is no answer to it, and nothing is counted.
///
/// What has come is read, up to 4 KiB at a time, and the answers to all lines that end there have
/// gone out before more is read: a caller that asks through a pipe gets each answer without having
/// to send more. Only 26 bytes of a line are in memory, however long it is.
///
/// # Errors
/// [`Fault::NoFolder`] where the place of the files isn't there, and then
/// [`Fault::Memory`] where there is no room for the places of open files, both before anything
/// is read; [`Fault::Read`] at the first read that fails, and after `u64::MAX` reads;
/// [`Fault::Write`], with the bytes that went out, at the first write that fails.
pub fn answer_lines<B: Geometry, L: Library, I: Source, O: Sink>(
    alloc: Global,
    board: &str,
    library: &mut L,
    input: &mut I,
    show: Show,
    output: &mut O,
) -> Result<u64, Fault>
    requires reading { I.failures input.old < 2 ^ 64 - 1 }
    requires writing { O.failures output.old < 2 ^ 64 - 1 }
    ensures unchanged { L.files library.new ≡ L.files library.old }
    ensures answer { AnswersFound B.shape board.now (L.files library.old) show (I.remaining input.old) (I.remaining input.new) (O.contents output.old) (O.contents output.new) result }
    ensures unread { result ≡ Err Fault.NoFolder → input.new ≡ input.old }
    ensures reads { CountsReads (I.remaining input.old) (I.remaining input.new) (I.failures input.old) (I.failures input.new) result }
    ensures counted { CountsWrites (O.failures output.old) (O.failures output.new) result }
{
    library.find()?;
    let Ok(mut tables) = no_files::<B, L>(alloc) else {
        return Err(Fault::Memory);
    };
    let folder = Folder::new(alloc, board, library, &mut tables);
    match Tally::begin(show, output) {
        Ok(tally) => {
            let mut reading = Reading::new(folder, show, output, tally);
            reading.read_all(input)
        }
        Err(sent) => Err(Fault::Write(sent)),
    }
}
