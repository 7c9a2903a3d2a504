//! The command line: from its arguments to what goes out, and the exit status.
ghost use Rattle.std.specs.Prelude.{◌≡◌, ◌≢◌, ◌&&◌, is_none, ◌-◌, ◌^◌, ◌<◌, ◌≤◌, ◌==◌, IsTrue, false, length, map, if◌then◌else◌};
ghost use Rattle.morris_jobs.specs.Faults.{ReportsFault, ReportsText};
ghost use Rattle.morris_jobs.specs.declared.fault.Fault.TheVariants as fault;
ghost use Rattle.morris_words.specs.Words.{IsInRange, faults_of, named_by};
ghost use Rattle.morris_words.specs.declared.request.Task.TheVariants as task;
ghost use Rattle.morris_jobs.specs.Inputs.{Input, MayFail, input_of};
ghost use Rattle.morris.specs.Reporting.{ReportsAt};
ghost use Rattle.std.specs.Option.{option_map};
ghost use Rattle.std.specs.Prelude.{Option, None, List, ℕ};
ghost use Rattle.morris.specs.Command.{NamesFolder, folder_of, AnswersAt, AnswersCount, AnswersFiles, AnswersFind, AnswersQueries, AsksToRead, Ends, HasMistake, ReportsProgress, end_of, form_of, not_text, prints_tables, shown_as, to_show, status_of, takes_input};

use crate::report::{Place, report};
use morris_board::streams::{Sink, Source};
use morris_commands::build::build_on;
use morris_commands::look::look;
use morris_commands::probe::probe_with;
use morris_commands::stats::{stats_by_classes, stats_with};
use morris_commands::verify::verify_with;
use morris_files::reason::Reason;
use morris_files::system::SystemFolder;
use morris_folder_commands::bundle::verify_bundle;
use morris_folder_commands::from::verify_from;
use morris_folder_commands::into::build_into;
use morris_jobs::building::{BuildArgs, layout_of};
use morris_jobs::context::{Context, Parallelism};
use morris_jobs::counts::Form;
use morris_jobs::fault::Fault;
use morris_jobs::on_board;
use morris_jobs::print::{print, send};
use morris_jobs::progress::Progress;
use morris_jobs::progress_printer::ProgressPrinter;
use morris_queries::file_questions::{find_from, stats_from};
use morris_queries::find::Shown;
use morris_queries::lookup::{lookup_lines, lookup_strings};
use morris_queries::show::Show;
use morris_queries::system::SystemLibrary;
use morris_words::arguments::{Refusal, read_arguments};
use morris_words::request;
use morris_words::request::{Build, Find, Lookup, Stats, Task, Verify};
use std::alloc::Global;
use std::convert::AsStr;
use std::fs::File;
use std::rt::Files;
use std::sync::Wait;
use std::thread::Threads;
use std::time::Clock;

/// How many blocks `verify` divides the entries of each pair that it builds into: as many as there
/// may be workers. With more blocks each worker needs less memory at a time.
const VERIFIED_BLOCKS: usize = 64;

/// Reads the arguments of a command line, of which the first is the program's own name, runs the
/// command that they name, and answers the exit status of the program.
///
/// 0: the arguments have no mistake, and the whole text of the command, or of the help or the
/// version that was asked for, went to `output`, and nothing to `errors`. 1: the command was
/// refused, or memory was, and `output` has got nothing, or a part of the text where a write
/// failed, or what a command that goes from file to file, from string to string or from entry to
/// entry had printed until then; the fault went to `errors` as one line, `fault N: ` and its text.
/// 2: the arguments name no command, or don't fit the one that they name, or two of them exclude
/// each other; what is wrong with them went to `errors`, and nothing to `output`. A fault while
/// `errors` is written is ignored. Only `probe`, `verify` without a folder and `lookup` without
/// position strings read `input`.
///
/// Where the arguments ask for it, lines that begin with `progress: ` go to `errors` before all
/// else there, until one of them can't be written: first one that says how much there is to do.
/// Their seconds are those of the clock of `rt`. Nothing else changes by it, and it takes no memory
/// but for the names of the files whose headers `verify --from` reads first.
pub fn command<
    R: Threads + Wait + Clock + Sync + Files<File = File> + AllocGlobal,
    W: AsStr,
    I: Source,
    O: Sink,
    E: Sink,
>(rt: &R, alloc: Global, words: &[W], input: &mut I, output: &mut O, errors: &mut E) -> u8
    requires streams { MayFail (I.failures input.old) (O.failures output.old) }
    requires errors { E.failures errors.old < 2 ^ 64 - 1 }
    ensures status { result ≤ 2 }
    ensures mistaken { result ≡ 2 → HasMistake (faults_of (map W.text words.now)) }
    ensures silent { result ≡ 2 → output.new ≡ output.old }
    ensures untouched { result ≡ 2 → input.new ≡ input.old }
    ensures written { result ≡ 2 → (text : _) × ReportsText E.contents E.failures errors.old errors.new text }
    ensures unread { ¬ AsksToRead (named_by (map W.text words.now)) → input.new ≡ input.old }
    ensures answer { result ≢ 2 → (answer : _) × (midway : _)
        × Ends false (map W.text words.now) (input_of (I.remaining input.old) (I.failures input.old)) (input_of (I.remaining input.new) (I.failures input.new))
        (O.contents output.old) (O.contents output.new) answer
        × ReportsProgress E.contents E.failures (map W.text words.now) false errors.old midway
        × (result ≡ status_of answer)
        × ((path : Option (List ℕ)) × (why : _) × NamesFolder (map W.text words.now) path × ReportsAt E.contents E.failures path why midway errors.new answer) }
{
    command_at(rt, alloc, words, Terminals::NONE, input, output, errors)
}

/// Which of the streams are terminals.
#[derive(Clone, Copy, Debug)]
pub struct Terminals {
    /// Whether the output is one, to which no table goes.
    pub output: bool,
    /// Whether the stream for faults is one, on which a line of progress takes the place of the
    /// last one, and is cleared at the end.
    pub errors: bool,
}

impl Terminals {
    /// None of them.
    pub const NONE: Terminals = Terminals {
        output: false,
        errors: false,
    };
}

/// Does what [`command`] does where these streams are terminals.
///
/// The command `build` without a folder is refused where the output is one, before all else.
pub(crate) fn command_at<
    R: Threads + Wait + Clock + Sync + Files<File = File> + AllocGlobal,
    W: AsStr,
    I: Source,
    O: Sink,
    E: Sink,
>(
    rt: &R,
    alloc: Global,
    words: &[W],
    terminals: Terminals,
    input: &mut I,
    output: &mut O,
    errors: &mut E,
) -> u8
    requires streams { MayFail (I.failures input.old) (O.failures output.old) }
    requires errors { E.failures errors.old < 2 ^ 64 - 1 }
    ensures status { result ≤ 2 }
    ensures mistaken { result ≡ 2 → HasMistake (faults_of (map W.text words.now)) }
    ensures silent { result ≡ 2 → output.new ≡ output.old }
    ensures untouched { result ≡ 2 → input.new ≡ input.old }
    ensures written { result ≡ 2 → (text : _) × ReportsText E.contents E.failures errors.old errors.new text }
    ensures unread { ¬ AsksToRead (named_by (map W.text words.now)) → input.new ≡ input.old }
    ensures answer { result ≢ 2 → (answer : _) × (midway : _)
        × Ends terminals.output (map W.text words.now) (input_of (I.remaining input.old) (I.failures input.old)) (input_of (I.remaining input.new) (I.failures input.new))
        (O.contents output.old) (O.contents output.new) answer
        × ReportsProgress E.contents E.failures (map W.text words.now) terminals.errors errors.old midway
        × (result ≡ status_of answer)
        × ((path : Option (List ℕ)) × (why : _) × NamesFolder (map W.text words.now) path × ReportsAt E.contents E.failures path why midway errors.new answer) }
{
    match read_arguments(alloc, words) {
        Ok(request) => {
            let path = folder_of(&request.task);
            let mut progress = ProgressPrinter::new(rt, request.progress, terminals.errors, errors);
            let mut why = None;
            let done = run(
                rt,
                alloc,
                request.task,
                terminals.output,
                &mut why,
                input,
                output,
                &mut progress,
            );
            progress.clear();
            finish(done, Place { path, why }, errors)
        }
        Err(Refusal::Help(text)) => finish(print(&text.as_str(), output), Place::NONE, errors),
        Err(Refusal::Version(text)) => finish(print(&text.as_str(), output), Place::NONE, errors),
        Err(Refusal::Memory) => finish(Err(Fault::Memory), Place::NONE, errors),
        Err(Refusal::Wrong(text)) => {
            let _ = send(&text.as_str(), errors);
            2
        }
    }
}

/// The exit status where there are no arguments: memory was refused, which is a fault, or an
/// argument isn't UTF-8, which is a mistake.
pub fn refuse_arguments<E: Sink>(out_of_memory: bool, errors: &mut E) -> u8
    requires { E.failures errors.old < 2 ^ 64 - 1 }
    ensures status { result ≡ (if out_of_memory then 1 else 2) }
    ensures reported { IsTrue out_of_memory → ReportsFault E.contents E.failures errors.old errors.new fault.Memory }
    ensures written { out_of_memory ≡ false → ReportsText E.contents E.failures errors.old errors.new not_text }
{
    if out_of_memory {
        return finish(Err(Fault::Memory), Place::NONE, errors);
    }
    let _ = send(&"error: a word of the command line is not text\n", errors);
    2
}

/// The folder that a task works in, where it names one.
fn folder_of<'a>(task: &Task<'a>) -> Option<&'a str>
    ensures { option_map (λ path. path.now) result ≡ folder_of task.now }
{
    match task {
        Task::Build(asked) => asked.into,
        Task::Verify(asked) => asked.from,
        Task::Stats(asked) => asked.from,
        Task::Lookup(asked) => Some(asked.from),
        Task::Find(asked) => Some(asked.from),
        Task::Look(_) | Task::Probe(_) => None,
    }
}

/// Runs the command of a task, and reports to `progress`; `on_terminal` says that `output` is a
/// terminal. `why` is what the system said of the task's folder, where it refused something.
fn run<
    R: Threads + Wait + Sync + Files<File = File> + AllocGlobal,
    I: Source,
    O: Sink,
    T: Progress,
>(
    rt: &R,
    alloc: Global,
    task: Task<'_>,
    on_terminal: bool,
    why: &mut Option<Reason>,
    input: &mut I,
    output: &mut O,
    progress: &mut T,
) -> Result<(), Fault>
    requires range { IsInRange task }
    requires streams { MayFail (I.failures input.old) (O.failures output.old) }
    ensures answer { AnswersAt (prints_tables task.entry && on_terminal) (input_of (I.remaining input.old) (I.failures input.old))
        (input_of (I.remaining input.new) (I.failures input.new)) (O.contents output.old) (O.contents output.new) task.entry result }
    ensures unread { takes_input task.entry ≡ false → input.new ≡ input.old }
    ensures written { T.becomes progress.old progress.new }
{
    match task {
        Task::Look(asked) => look(asked.board, asked.text, asked.depth, output),
        Task::Stats(asked) => count(rt, alloc, asked, why, output, progress),
        Task::Build(asked) => build(rt, alloc, asked, on_terminal, why, output, progress),
        Task::Verify(asked) => verify(rt, alloc, asked, why, input, output, progress),
        Task::Probe(asked) => probe_with(alloc, asked.board, asked.text, input, output, progress),
        Task::Lookup(asked) => look_up(rt, alloc, asked, why, input, output),
        Task::Find(asked) => find(rt, alloc, asked, why, output),
    }
}

/// The build arguments of a pair.
fn build_args_of<'a>(board: &'a str, pair: &'a str, workers: u8, blocks: u16) -> BuildArgs<'a>
    ensures board { result.board.now ≡ board.now }
    ensures pair { result.pair.now ≡ pair.now }
    ensures workers { result.workers ≡ workers }
    ensures blocks { result.blocks ≡ blocks }
{
    BuildArgs {
        board,
        pair,
        workers: usize::from(workers),
        blocks: usize::from(blocks),
    }
}

/// The form in which `stats` prints. No request has both.
fn form_of(deepest: bool, csv: bool) -> Form
    ensures { result ≡ form_of deepest csv }
{
    if csv {
        Form::Csv
    } else if deepest {
        Form::Deepest
    } else {
        Form::Text
    }
}

/// Counts the values of a pair's positions: those that the file of the pair in a folder states,
/// where there is a folder; else with `classes` from tables by classes, which so many workers build
/// over so many blocks, and without it on one thread.
fn count<R: Threads + Wait + Sync + Files<File = File> + AllocGlobal, O: Sink, T: Progress>(
    rt: &R,
    alloc: Global,
    asked: Stats<'_>,
    why: &mut Option<Reason>,
    output: &mut O,
    progress: &mut T,
) -> Result<(), Fault>
    requires output { O.failures output.old < 2 ^ 64 - 1 }
    ensures answer { AnswersCount asked.entry.from asked.entry.classes asked.entry (O.contents output.old) (O.contents output.new) result }
    ensures written { T.becomes progress.old progress.new }
{
    let Stats { board, pair, .. } = asked;
    let form = form_of(asked.deepest, asked.csv);
    match asked.from {
        Some(path) => {
            let library = &mut SystemLibrary::new(rt, path);
            let done = stats_from(alloc, board, pair, asked.csv, library, output);
            *why = library.why();
            done
        }
        None if asked.classes => {
            let build_args = build_args_of(board, pair, asked.workers, asked.blocks);
            stats_by_classes(rt, alloc, build_args, form, output, progress)
        }
        None => stats_with(alloc, board, pair, form, output, progress),
    }
}

/// What `find` prints: how many positions there are, or their position strings, as many as there
/// may be.
fn shown_as(limit: Option<u32>, count: bool) -> Shown
    ensures { result ≡ shown_as limit count }
{
    if count {
        return Shown::Count;
    }
    match limit {
        Some(most) => Shown::Strings(u64::from(most)),
        None => Shown::Strings(u64::MAX),
    }
}

/// Finds the positions of a pair that have a value in the file of the pair in a folder.
fn find<R: Files<File = File> + AllocGlobal, O: Sink>(
    rt: &R,
    alloc: Global,
    asked: Find<'_>,
    why: &mut Option<Reason>,
    output: &mut O,
) -> Result<(), Fault>
    requires output { O.failures output.old < 2 ^ 64 - 1 }
    ensures answer { AnswersFind asked.entry (O.contents output.old) (O.contents output.new) result }
{
    let Find {
        board,
        pair,
        value,
        all,
        ..
    } = asked;
    let shown = shown_as(asked.limit, asked.count);
    let library = &mut SystemLibrary::new(rt, asked.from);
    let done = find_from(alloc, board, pair, value, all, shown, library, output);
    *why = library.why();
    done
}

/// Builds the tables of a pair by so many workers over so many blocks: into the files of a folder,
/// where there is one, and else onto `output`, unless that is a terminal.
fn build<R: Threads + Wait + Sync + Files<File = File> + AllocGlobal, O: Sink, T: Progress>(
    rt: &R,
    alloc: Global,
    asked: Build<'_>,
    on_terminal: bool,
    why: &mut Option<Reason>,
    output: &mut O,
    progress: &mut T,
) -> Result<(), Fault>
    requires output { O.failures output.old < 2 ^ 64 - 1 }
    ensures answer { (input : Input) → AnswersAt (is_none asked.entry.into && on_terminal) input input (O.contents output.old) (O.contents output.new)
        (task.Build asked.entry) result }
    ensures written { T.becomes progress.old progress.new }
{
    let Build {
        board,
        pair,
        workers,
        blocks,
        all,
        into,
        classes,
    } = asked;
    let build_args = build_args_of(board, pair, workers, blocks);
    match into {
        Some(path) => {
            let folder = &mut SystemFolder::new(rt, path);
            let BuildArgs {
                workers,
                blocks,
                ..
            } = build_args;
            let done = build_into(
                rt, alloc, board, pair, workers, blocks, classes, folder, output, progress,
            );
            *why = folder.why();
            done
        }
        None if on_terminal => Err(Fault::Terminal),
        None => {
            let layout = layout_of(classes);
            on_board!(
                board,
                build_on::<R, O, T>(rt, alloc, build_args, all, layout, output, progress)
            )
        }
    }
}

/// Verifies the table files of a folder, where there is one, and else those on `input` with `all`,
/// or the one on it, by so many workers.
fn verify<
    R: Threads + Wait + Sync + Files<File = File> + AllocGlobal,
    I: Source,
    O: Sink,
    T: Progress,
>(
    rt: &R,
    alloc: Global,
    asked: Verify<'_>,
    why: &mut Option<Reason>,
    input: &mut I,
    output: &mut O,
    progress: &mut T,
) -> Result<(), Fault>
    requires workers { (1 ≤ asked.workers) × (asked.workers ≤ 64) }
    requires streams { MayFail (I.failures input.old) (O.failures output.old) }
    ensures answer { AnswersFiles asked.entry.from asked.entry.all asked.entry (input_of (I.remaining input.old) (I.failures input.old))
        (input_of (I.remaining input.new) (I.failures input.new)) (O.contents output.old) (O.contents output.new) result }
    ensures unread { is_none asked.entry.from ≡ false → input.new ≡ input.old }
    ensures written { T.becomes progress.old progress.new }
{
    let Verify {
        board,
        all,
        from,
        workers,
    } = asked;
    let Ok(parallelism) = Parallelism::new(usize::from(workers), VERIFIED_BLOCKS) else {
        unreachable!()
    };
    match from {
        Some(path) => {
            let folder = &mut SystemFolder::new(rt, path);
            let done = verify_from(rt, alloc, board, parallelism, folder, output, progress);
            *why = folder.why();
            done
        }
        None if all => verify_bundle(rt, alloc, board, parallelism, input, output, progress),
        None => {
            let context = Context {
                rt,
                alloc,
                parallelism,
            };
            verify_with(context, board, input, output, progress)
        }
    }
}

/// Looks up positions in the table files of a folder: those of the position strings, where there
/// are any, and else those on the lines of `input`.
fn look_up<R: Files<File = File> + AllocGlobal, I: Source, O: Sink>(
    rt: &R,
    alloc: Global,
    asked: Lookup<'_>,
    why: &mut Option<Reason>,
    input: &mut I,
    output: &mut O,
) -> Result<(), Fault>
    requires streams { MayFail (I.failures input.old) (O.failures output.old) }
    ensures answer { AnswersQueries (map (λ t. t.now) asked.entry.strings.items) asked.entry (input_of (I.remaining input.old) (I.failures input.old))
        (input_of (I.remaining input.new) (I.failures input.new)) (O.contents output.old) (O.contents output.new) result }
    ensures unread { (length asked.entry.strings.items == 0) ≡ false → input.new ≡ input.old }
{
    let Lookup {
        board,
        from,
        show,
        strings,
    } = asked;
    let library = &mut SystemLibrary::new(rt, from);
    let show = to_show(show);
    let answered = if strings.is_empty() {
        lookup_lines(alloc, board, library, input, show, output)
    } else {
        lookup_strings(alloc, board, library, strings.as_slice(), show, output)
    };
    *why = library.why();
    end(answered)
}

/// How `lookup` ends: strings without an answer are a fault.
fn end(answered: Result<u64, Fault>) -> Result<(), Fault>
    ensures { result ≡ end_of answered }
{
    match answered {
        Ok(0) => Ok(()),
        Ok(unanswered) => Err(Fault::Unanswered(unanswered)),
        Err(refused) => Err(refused),
    }
}

/// What is shown of a position, by what the arguments ask for.
fn to_show(show: request::Show) -> Show
    ensures { result ≡ to_show show }
{
    match show {
        request::Show::Best => Show::Best,
        request::Show::Moves => Show::Moves,
        request::Show::Line => Show::Line,
        request::Show::Csv => Show::Csv,
    }
}

/// The exit status of a command; where it was refused, its fault goes to `errors`.
fn finish<E: Sink>(done: Result<(), Fault>, place: Place<'_>, errors: &mut E) -> u8
    requires { E.failures errors.old < 2 ^ 64 - 1 }
    ensures status { result ≡ status_of done }
    ensures reported { ReportsAt E.contents E.failures (option_map (λ path. path.now) place.entry.path) place.entry.why errors.old errors.new done }
{
    match done {
        Ok(()) => 0,
        Err(fault) => {
            report(fault, place, errors);
            1
        }
    }
}
