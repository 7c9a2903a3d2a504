//! Where the program begins: the arguments that the system gave, and the exit status.
ghost use Rattle.std.specs.Prelude.{◌≡◌, ◌≢◌, ◌-◌, ◌^◌, ◌<◌, ◌≤◌, ℕ, IfErr, IfOk, List, Option};
ghost use Rattle.std.specs.IoError.{error_kind};
ghost use Rattle.std.specs.Process.{exit_status};
ghost use Rattle.std.specs.Vec.Iter.{into_iter_items};
ghost use Rattle.std.specs.declared.io.ErrorKind.TheVariants.{OutOfMemory};
ghost use Rattle.morris.specs.Command.{AsksToRead, Ends, HasMistake, NamesFolder, ReportsProgress, not_text, status_of, texts_of};
ghost use Rattle.morris_jobs.specs.Faults.{ReportsFault, ReportsText};
ghost use Rattle.morris.specs.Reporting.{ReportsAt};
ghost use Rattle.morris_jobs.specs.Inputs.{input_of};
ghost use Rattle.morris_words.specs.Words.{faults_of, named_by};
ghost use Rattle.morris_jobs.specs.declared.fault.Fault.TheVariants as fault;

use crate::command::{Terminals, command_at, refuse_arguments};
use morris_board::streams::{Sink, Source};
use std::alloc::{AllocError, Global};
use std::env::Args;
use std::fs::File;
use std::io;
use std::io::ErrorKind;
use std::process::ExitCode;
use std::rt::Files;
use std::sync::Wait;
use std::thread::Threads;
use std::time::Clock;

/// Answers the arguments that the system gave, of which the first is the program's own name: runs
/// the command that they name, as [`command`](crate::command::command) says, on these three
/// streams, some of which may be terminals, and gives its exit status. `main` does nothing but call
/// this.
///
/// Where the system gave no arguments, nothing is read and nothing goes to `output`: with want of
/// memory the status is 1 and fault 12 goes to `errors`, and with an argument that isn't UTF-8 it
/// is 2, and one line says so on `errors`.
pub fn answer_arguments<
    R: AllocGlobal + Threads + Wait + Clock + Sync + Files<File = File>,
    I: Source,
    O: Sink,
    E: Sink,
>(
    rt: &R,
    words: io::Result<Args>,
    terminals: Terminals,
    input: &mut I,
    output: &mut O,
    errors: &mut E,
) -> ExitCode
    requires input { I.failures input.old < 2 ^ 64 - 1 }
    requires output { O.failures output.old < 2 ^ 64 - 1 }
    requires errors { E.failures errors.old < 2 ^ 64 - 1 }
    ensures status { exit_status result ≤ 2 }
    ensures silent { exit_status result ≡ 2 → output.new ≡ output.old }
    ensures untouched { exit_status result ≡ 2 → input.new ≡ input.old }
    ensures written { exit_status result ≡ 2 → (text : _) × ReportsText E.contents E.failures errors.old errors.new text }
    ensures mistaken { IfOk words (λ given. exit_status result ≡ 2 → HasMistake (faults_of (texts_of given))) }
    ensures unread { IfOk words (λ given. ¬ AsksToRead (named_by (texts_of given)) → input.new ≡ input.old) }
    ensures answer { IfOk words (λ given. exit_status result ≢ 2 → (answer : _) × (midway : _)
        × Ends terminals.output (texts_of given) (input_of (I.remaining input.old) (I.failures input.old)) (input_of (I.remaining input.new) (I.failures input.new))
        (O.contents output.old) (O.contents output.new) answer
        × ReportsProgress E.contents E.failures (texts_of given) terminals.errors errors.old midway
        × (exit_status result ≡ status_of answer)
        × ((path : Option (List ℕ)) × (why : _) × NamesFolder (texts_of given) path × ReportsAt E.contents E.failures path why midway errors.new answer)) }

    // Where there are no arguments.
    ensures unheard { IfErr words (λ refused. (output.new ≡ output.old) × (input.new ≡ input.old)) }
    ensures memory { IfErr words (λ refused. error_kind refused ≡ OutOfMemory →
        (exit_status result ≡ 1) × ReportsFault E.contents E.failures errors.old errors.new fault.Memory) }
    ensures not_text { IfErr words (λ refused. error_kind refused ≢ OutOfMemory →
        (exit_status result ≡ 2) × ReportsText E.contents E.failures errors.old errors.new not_text) }
{
    match words {
        Ok(words) => match list_of(rt.alloc(), words) {
            Ok(words) => {
                let words = words.as_slice();
                let status = command_at(rt, rt.alloc(), words, terminals, input, output, errors);
                ExitCode::from(status)
            }
            Err(AllocError) => ExitCode::from(refuse_arguments(true, errors)),
        },
        Err(error) => {
            let out_of_memory = error.kind() == ErrorKind::OutOfMemory;
            ExitCode::from(refuse_arguments(out_of_memory, errors))
        }
    }
}

/// All arguments, in order. They are pushed one by one: `collect` asks for less memory where its
/// first request is refused, and goes on.
#[tactic(auto, using(std::proofs::Common::append_assoc))]
fn list_of(alloc: Global, words: Args) -> Result<Vec<String>, AllocError>
    ensures { IfOk result (λ list. list.items ≡ into_iter_items words) }
{
    let mut list = Vec::new(alloc);
    for argument in words {
        list.push(argument)?;
    }
    Ok(list)
}
