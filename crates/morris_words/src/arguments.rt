//! The command line's arguments, and the request that they make.
ghost use Rattle.std.specs.Prelude.{◌≡◌, List, ℕ, ◌<◌, ◌≤◌, ◌^◌, [], IfErr, IfOk, OnOk, Some, codes, is_some, map, option_map, true, unwrap_or};
ghost use Rattle.clap.specs.Takes.{is_given};
ghost use Rattle.clap.specs.Values.{bool_text};
ghost use Rattle.clap.specs.Words.{App, FailsBy, Rule, all_of, app_of, fault_of, first_of, found_of, kind_of, one_of, rows_of, subcommand_rows_of, with_subcommand};
ghost use Rattle.clap.specs.declared.error.kind.ErrorKind.TheVariants.{ArgumentConflict};
ghost use Rattle.morris_words.specs.Words.{AreArgs, AsksFor, HasFlag, HasNumber, HasNumberIfGiven, HasOption, HasValues};
ghost use Rattle.morris_words.specs.Words.{Is, IsAnswerTo, IsAnswerToOneOf, IsArg, IsInRange, IsLimit, IsOption, IsRequestOf, IsShown};
ghost use Rattle.morris_words.specs.Words.{NamesCommand, NamesRequest, blocks_rule, build_rules, clashes, command_app, depth_rule, faults_of, find_rules, flag_rule, has_clash, limit_rule, look_rules};
ghost use Rattle.morris_words.specs.Words.{lookup_rules, morris_app, named_by, number_of, option_rule, probe_rules, program, required_option_rule, required_rule};
ghost use Rattle.morris_words.specs.Words.{several_rule, stats_rules, verify_rules, workers_rule};

use crate::help;
use crate::request::{Build, Find, Look, Lookup, Probe, Request, Show, Stats, Task, Verify};
use clap::error::ErrorKind;
use clap::parser::ValueSource;
use clap::{Arg, ArgAction, ArgMatches, Command, Error, value_parser};
use std::alloc::{AllocError, Global};
use std::convert::AsStr;

/// Why the arguments make no request.
#[derive(Drop)]
pub enum Refusal {
    /// Memory ran out.
    Memory,
    /// Help was asked for: this text, for standard output.
    Help(String),
    /// The version was asked for: this text, for standard output.
    Version(String),
    /// The arguments were refused: what is wrong with them, for standard error.
    Wrong(String),
}

/// Reads the arguments, of which the first is the program's own name. It answers `Memory` only
/// where an allocation was refused; `Help` to `--help`, `-h` and `help`; `Version` to `--version`
/// and `-V` in place of a command; and `Wrong` where the arguments name no command, don't fit the
/// one that they name, or have two that exclude each other.
pub fn read_arguments<'a, S: AsStr>(
    alloc: Global,
    arguments: &'a [S],
) -> Result<Request<'a>, Refusal>
    ensures taken { OnOk result (faults_of (map S.text arguments.entry.now) ≡ []) }
    ensures request { IfOk result (AsksFor (named_by (map S.text arguments.entry.now))) }
    ensures range { IfOk result (λ request. IsInRange request.task) }
    ensures refused { IfErr result (IsAnswerToOneOf (faults_of (map S.text arguments.entry.now))) }
{
    match parse(alloc, arguments) {
        Ok(matches) => request_of(alloc, &matches),
        Err(error) => Err(refusal_of(alloc, &error)),
    }
}

fn parse<'a, S: AsStr>(alloc: Global, arguments: &'a [S]) -> Result<ArgMatches<'a>, Error>
    ensures kinds { FailsBy (fault_of morris_app (map S.text arguments.entry.now)) result }
    ensures matches { IfOk result (λ m.
        subcommand_rows_of m ≡ named_by (map S.text arguments.entry.now)) }
{
    morris_command(alloc)?.try_get_matches_from(arguments)
}

// The version of the program, and those of the table files that it writes and reads.
const VERSION: &str = "1.0.9\ntable files: writes and reads versions 1 and 2";

const BOARD_HELP: &str = "The board: nine or grid";

const POSITION_HELP: &str = "The position: for each point X own, O other or . vacant";

const PAIR_HELP: &str = "The numbers of stones of the two players: 3-3, 4-3, ..";

const BLOCKS_HELP: &str = "Into how many blocks the positions are cut, 1 to 1024";

const ALL_HELP: &str = "Write the files of the pairs below it too, one after the other";

const INTO_HELP: &str = "Write each pair's file into this folder, under a name of its own";

const FROM_HELP: &str = "Check every table file of the board in this folder";

const BUNDLE_HELP: &str = "Check all table files on standard input, each over those before it";

const CLASSES_HELP: &str = "Have one entry for each class of positions: files of version 2";

const CLASS_TABLES_HELP: &str = "Find the values by one entry for each class of positions";

const DEEPEST_HELP: &str = "Show a deepest win and a deepest loss too";

const PROGRESS_HELP: &str = "Show on standard error how much is done";

const TABLES_HELP: &str = "The folder of the table files";

const MOVES_HELP: &str = "Show each move with the value after it";

const LINE_HELP: &str = "Show a line of best moves to the game's end";

const COUNT_FROM_HELP: &str = "Count by the file of the pair in this folder, as it lies";

const CSV_HELP: &str = "Print fields with commas between them, for a spreadsheet";

const VALUE_HELP: &str = "The value: draw, won, lost, 'won in D', 'lost in D' or deepest";

const EACH_HELP: &str = "Show each position, also those that share an entry";

const COUNT_HELP: &str = "Show how many positions there are, and nothing else";

const POSITIONS_HELP: &str = "The positions, or else one on each line of standard input";

// How `clap` ends its message about a mistake.
const MORE_HELP: &str = "\n\nFor more information, try '--help'.\n";

// The default numbers of workers (of `stats`, `build` and `verify`) and of blocks (of the first
// two).
const DEFAULT_WORKERS: &str = "2";

const DEFAULT_BLOCKS: &str = "16";

// The program with its commands: each is one `with_command` here, and one arm of `request_named`.
fn morris_command<'a>(alloc: Global) -> Result<Command<'a>, AllocError>
    ensures { IfOk result (λ c. app_of c ≡ morris_app) }
{
    let program = with_command(bare_program(alloc), look_command(alloc));
    let program = with_command(program, stats_command(alloc));
    let program = with_command(program, build_command(alloc));
    let program = with_command(program, verify_command(alloc));
    let program = with_command(program, probe_command(alloc));
    let program = with_command(program, lookup_command(alloc));
    with_command(program, find_command(alloc))
}

// The program, with no command yet.
fn bare_program<'a>(alloc: Global) -> Result<Command<'a>, AllocError>
    ensures { IfOk result (λ c. app_of c ≡ program) }
{
    Command::new(alloc, "morris")
        .about("Endgame tables for Nine Men's Morris")
        .version(VERSION)
        .after_help(help::PROGRAM)
        .subcommand_required(true)
        .bin_name("morris")
}

// The program with one more command, where there was memory for both.
fn with_command<'a>(
    program: Result<Command<'a>, AllocError>,
    command: Result<Command<'a>, AllocError>,
) -> Result<Command<'a>, AllocError>
    ensures { (before added : App) → IfOk program.entry (λ c. app_of c ≡ before) → IfOk command.entry (Is added) → IfOk result (λ c. app_of c ≡ with_subcommand before added.top) }
{
    let Some((program, command)) = program.ok().zip(command.ok()) else {
        return Err(AllocError);
    };
    program.subcommand(command)
}

// A command of this name with these arguments.
fn command_of<'a>(
    alloc: Global,
    name: &'a str,
    about: &'a str,
    help: &'a str,
    args: Vec<Arg<'a>>,
) -> Result<Command<'a>, AllocError>
    ensures { (rules : List Rule) → AreArgs rules args.entry.items → IfOk result (Is (command_app name.entry.now rules)) }
{
    Command::new(alloc, name)
        .about(about)
        .after_help(help)
        .args(args)
}

fn look_command<'a>(alloc: Global) -> Result<Command<'a>, AllocError>
    ensures { IfOk result (Is (command_app (codes "look") look_rules)) }
{
    let about = "Show a position, its legal moves and its value within N plies";
    let args = vec![in alloc;
        required_arg(alloc, "BOARD", BOARD_HELP),
        required_arg(alloc, "TEXT", POSITION_HELP),
        depth_arg(alloc),
    ]?;
    command_of(alloc, "look", about, help::LOOK, args)
}

fn stats_command<'a>(alloc: Global) -> Result<Command<'a>, AllocError>
    ensures { IfOk result (Is (command_app (codes "stats") stats_rules)) }
{
    let about = "Count the values of all positions with a pair's numbers of stones";
    let args = vec![in alloc;
        required_arg(alloc, "BOARD", BOARD_HELP),
        required_arg(alloc, "PAIR", PAIR_HELP),
        flag_arg(alloc, "classes", CLASS_TABLES_HELP),
        workers_arg(alloc),
        blocks_arg(alloc),
        flag_arg(alloc, "deepest", DEEPEST_HELP),
        option_arg(alloc, "from", "FOLDER", COUNT_FROM_HELP),
        flag_arg(alloc, "csv", CSV_HELP),
        flag_arg(alloc, "progress", PROGRESS_HELP),
    ]?;
    command_of(alloc, "stats", about, help::STATS, args)
}

fn build_command<'a>(alloc: Global) -> Result<Command<'a>, AllocError>
    ensures { IfOk result (Is (command_app (codes "build") build_rules)) }
{
    let about = "Build the table of a pair, and write its file to standard output or a folder";
    let args = vec![in alloc;
        required_arg(alloc, "BOARD", BOARD_HELP),
        required_arg(alloc, "PAIR", PAIR_HELP),
        workers_arg(alloc),
        blocks_arg(alloc),
        flag_arg(alloc, "all", ALL_HELP),
        option_arg(alloc, "into", "FOLDER", INTO_HELP),
        flag_arg(alloc, "classes", CLASSES_HELP),
        flag_arg(alloc, "progress", PROGRESS_HELP),
    ]?;
    command_of(alloc, "build", about, help::BUILD, args)
}

fn verify_command<'a>(alloc: Global) -> Result<Command<'a>, AllocError>
    ensures { IfOk result (Is (command_app (codes "verify") verify_rules)) }
{
    let about = "Check each entry of the table files on standard input or in a folder";
    let args = vec![in alloc;
        required_arg(alloc, "BOARD", BOARD_HELP),
        flag_arg(alloc, "all", BUNDLE_HELP),
        option_arg(alloc, "from", "FOLDER", FROM_HELP),
        workers_arg(alloc),
        flag_arg(alloc, "progress", PROGRESS_HELP),
    ]?;
    command_of(alloc, "verify", about, help::VERIFY, args)
}

fn probe_command<'a>(alloc: Global) -> Result<Command<'a>, AllocError>
    ensures { IfOk result (Is (command_app (codes "probe") probe_rules)) }
{
    let about =
        "Report the value and the best moves of a position, by table files on standard input";
    let args = vec![in alloc;
        required_arg(alloc, "BOARD", BOARD_HELP),
        required_arg(alloc, "TEXT", POSITION_HELP),
        flag_arg(alloc, "progress", PROGRESS_HELP),
    ]?;
    command_of(alloc, "probe", about, help::PROBE, args)
}

fn lookup_command<'a>(alloc: Global) -> Result<Command<'a>, AllocError>
    ensures { IfOk result (Is (command_app (codes "lookup") lookup_rules)) }
{
    let about = "Look up positions in the table files of a folder";
    let args = vec![in alloc;
        required_arg(alloc, "BOARD", BOARD_HELP),
        required_option_arg(alloc, "from", "FOLDER", TABLES_HELP),
        flag_arg(alloc, "moves", MOVES_HELP),
        flag_arg(alloc, "line", LINE_HELP),
        flag_arg(alloc, "csv", CSV_HELP),
        several_arg(alloc, "TEXT", POSITIONS_HELP),
    ]?;
    command_of(alloc, "lookup", about, help::LOOKUP, args)
}

fn find_command<'a>(alloc: Global) -> Result<Command<'a>, AllocError>
    ensures { IfOk result (Is (command_app (codes "find") find_rules)) }
{
    let about = "Find the positions that have a value in the table file of a pair";
    let args = vec![in alloc;
        required_arg(alloc, "BOARD", BOARD_HELP),
        required_arg(alloc, "PAIR", PAIR_HELP),
        required_arg(alloc, "VALUE", VALUE_HELP),
        required_option_arg(alloc, "from", "FOLDER", TABLES_HELP),
        flag_arg(alloc, "all", EACH_HELP),
        limit_arg(alloc),
        flag_arg(alloc, "count", COUNT_HELP),
    ]?;
    command_of(alloc, "find", about, help::FIND, args)
}

fn required_arg<'a>(alloc: Global, name: &'a str, help: &'a str) -> Arg<'a>
    ensures { IsArg (required_rule name.entry.now) result }
{
    Arg::new(alloc, name).required(true).help(help)
}

fn depth_arg<'a>(alloc: Global) -> Arg<'a>
    ensures { IsArg depth_rule result }
{
    option_arg(alloc, "depth", "N", "How many plies to look ahead, 0 to 6")
        .value_parser(value_parser!(u16).range(0..=6))
        .default_value("2")
}

fn workers_arg<'a>(alloc: Global) -> Arg<'a>
    ensures { IsArg workers_rule result }
{
    option_arg(alloc, "workers", "W", "How many threads work, 1 to 64")
        .value_parser(value_parser!(u16).range(1..=64))
        .default_value(DEFAULT_WORKERS)
}

fn blocks_arg<'a>(alloc: Global) -> Arg<'a>
    ensures { IsArg blocks_rule result }
{
    option_arg(alloc, "blocks", "K", BLOCKS_HELP)
        .value_parser(value_parser!(u16).range(1..=1024))
        .default_value(DEFAULT_BLOCKS)
}

fn limit_arg<'a>(alloc: Global) -> Arg<'a>
    ensures { IsArg limit_rule result }
{
    let numbers = value_parser!(u32).range(1..=4_294_967_295);
    option_arg(alloc, "limit", "N", "Show at most N positions").value_parser(numbers)
}

fn flag_arg<'a>(alloc: Global, name: &'a str, help: &'a str) -> Arg<'a>
    ensures { IsArg (flag_rule name.entry.now) result }
{
    Arg::new(alloc, name)
        .long(name)
        .action(ArgAction::SetTrue)
        .help(help)
}

fn option_arg<'a>(alloc: Global, name: &'a str, value: &'a str, help: &'a str) -> Arg<'a>
    ensures { IsArg (option_rule name.entry.now) result }
{
    Arg::new(alloc, name)
        .long(name)
        .value_name(value)
        .help(help)
}

fn required_option_arg<'a>(alloc: Global, name: &'a str, value: &'a str, help: &'a str) -> Arg<'a>
    ensures { IsArg (required_option_rule name.entry.now) result }
{
    option_arg(alloc, name, value, help).required(true)
}

fn several_arg<'a>(alloc: Global, name: &'a str, help: &'a str) -> Arg<'a>
    ensures { IsArg (several_rule name.entry.now) result }
{
    Arg::new(alloc, name).num_args(1..).help(help)
}

fn request_of<'a>(alloc: Global, matches: &ArgMatches<'a>) -> Result<Request<'a>, Refusal>
    requires { NamesRequest (subcommand_rows_of matches.now) }
    ensures request { IfOk result (IsRequestOf (subcommand_rows_of matches.now)) }
    ensures refused { IfErr result (IsAnswerToOneOf (clashes (subcommand_rows_of matches.now))) }
{
    let Some((name, found)) = matches.subcommand() else {
        unreachable!()
    };
    request_named(alloc, name, found)
}

/// The request for the command of a name, by the values of its arguments.
fn request_named<'a>(
    alloc: Global,
    name: &str,
    found: &ArgMatches<'a>,
) -> Result<Request<'a>, Refusal>
    requires { NamesCommand (name.now, rows_of (found_of found.now)) }
    ensures request { IfOk result (IsRequestOf (Some (name.now, rows_of (found_of found.now)))) }
    ensures refused { IfErr result (IsAnswerToOneOf (clashes (Some (name.now, rows_of (found_of found.now))))) }
{
    match name {
        "look" => Ok(look_request(found)),
        "stats" => stats_request(alloc, found),
        "build" => build_request(alloc, found),
        "verify" => verify_request(alloc, found),
        "probe" => Ok(probe_request(found)),
        "lookup" => lookup_request(alloc, found),
        "find" => find_request(alloc, found),
        _ => unreachable!(),
    }
}

fn look_request<'a>(found: &ArgMatches<'a>) -> Request<'a>
    requires { HasValues look_rules (rows_of (found_of found.now)) }
    ensures { IsRequestOf (Some (codes "look", rows_of (found_of found.now))) result }
{
    Request {
        task: Task::Look(Look {
            board: given(found, "BOARD"),
            text: given(found, "TEXT"),
            depth: number(found, "depth") as u8,
        }),
        progress: false,
    }
}

fn stats_request<'a>(alloc: Global, found: &ArgMatches<'a>) -> Result<Request<'a>, Refusal>
    requires { HasValues stats_rules (rows_of (found_of found.now)) }
    ensures request { IfOk result (IsRequestOf (Some (codes "stats", rows_of (found_of found.now)))) }
    ensures refused { IfErr result (IsAnswerToOneOf (clashes (Some (codes "stats", rows_of (found_of found.now))))) }
{
    if let Some((one, other)) = stats_clash(found) {
        return Err(clash(alloc, one, other));
    }
    let classes = flag(found, "classes");
    Ok(Request {
        task: Task::Stats(Stats {
            board: given(found, "BOARD"),
            pair: given(found, "PAIR"),
            classes,
            workers: number(found, "workers") as u8,
            blocks: number(found, "blocks"),
            deepest: flag(found, "deepest"),
            from: optional(found, "from"),
            csv: flag(found, "csv"),
        }),
        progress: flag(found, "progress"),
    })
}

/// Two arguments of `stats` that exclude each other, where there are any.
fn stats_clash(found: &ArgMatches<'_>) -> Option<(&'static str, &'static str)>
    requires { HasValues stats_rules (rows_of (found_of found.now)) }
    ensures { is_some result ≡ has_clash (codes "stats") (rows_of (found_of found.now)) }
{
    let (csv, deepest) = (flag(found, "csv"), flag(found, "deepest"));
    if csv && deepest {
        return Some(("--csv", "with '--deepest'"));
    }
    optional(found, "from")?;
    let (classes, progress) = (flag(found, "classes"), flag(found, "progress"));
    let (workers, blocks) = (was_given(found, "workers"), was_given(found, "blocks"));
    let other = if classes {
        "--classes"
    } else if workers {
        "--workers <W>"
    } else if blocks {
        "--blocks <K>"
    } else if deepest {
        "--deepest"
    } else if progress {
        "--progress"
    } else {
        return None;
    };
    Some((other, "with '--from <FOLDER>'"))
}

fn build_request<'a>(alloc: Global, found: &ArgMatches<'a>) -> Result<Request<'a>, Refusal>
    requires { HasValues build_rules (rows_of (found_of found.now)) }
    ensures request { IfOk result (IsRequestOf (Some (codes "build", rows_of (found_of found.now)))) }
    ensures refused { IfErr result (IsAnswerToOneOf (clashes (Some (codes "build", rows_of (found_of found.now))))) }
{
    let (all, into) = (flag(found, "all"), optional(found, "into"));
    if all && into.is_some() {
        return Err(clash(alloc, "--all", "with '--into <FOLDER>'"));
    }
    Ok(Request {
        task: Task::Build(Build {
            board: given(found, "BOARD"),
            pair: given(found, "PAIR"),
            workers: number(found, "workers") as u8,
            blocks: number(found, "blocks"),
            all,
            into,
            classes: flag(found, "classes"),
        }),
        progress: flag(found, "progress"),
    })
}

fn verify_request<'a>(alloc: Global, found: &ArgMatches<'a>) -> Result<Request<'a>, Refusal>
    requires { HasValues verify_rules (rows_of (found_of found.now)) }
    ensures request { IfOk result (IsRequestOf (Some (codes "verify", rows_of (found_of found.now)))) }
    ensures refused { IfErr result (IsAnswerToOneOf (clashes (Some (codes "verify", rows_of (found_of found.now))))) }
{
    let (all, from) = (flag(found, "all"), optional(found, "from"));
    if all && from.is_some() {
        return Err(clash(alloc, "--all", "with '--from <FOLDER>'"));
    }
    Ok(Request {
        task: Task::Verify(Verify {
            board: given(found, "BOARD"),
            all,
            from,
            workers: number(found, "workers") as u8,
        }),
        progress: flag(found, "progress"),
    })
}

fn probe_request<'a>(found: &ArgMatches<'a>) -> Request<'a>
    requires { HasValues probe_rules (rows_of (found_of found.now)) }
    ensures { IsRequestOf (Some (codes "probe", rows_of (found_of found.now))) result }
{
    Request {
        task: Task::Probe(Probe {
            board: given(found, "BOARD"),
            text: given(found, "TEXT"),
        }),
        progress: flag(found, "progress"),
    }
}

fn lookup_request<'a>(alloc: Global, found: &ArgMatches<'a>) -> Result<Request<'a>, Refusal>
    requires { HasValues lookup_rules (rows_of (found_of found.now)) }
    ensures request { IfOk result (IsRequestOf (Some (codes "lookup", rows_of (found_of found.now)))) }
    ensures refused { IfErr result (IsAnswerToOneOf (clashes (Some (codes "lookup", rows_of (found_of found.now))))) }
{
    let show = match show_asked(found) {
        Ok(show) => show,
        Err((one, other)) => return Err(clash(alloc, one, other)),
    };
    let Ok(strings) = all_given(alloc, found, "TEXT") else {
        return Err(Refusal::Memory);
    };
    Ok(Request {
        task: Task::Lookup(Lookup {
            board: given(found, "BOARD"),
            from: given(found, "from"),
            show,
            strings,
        }),
        progress: false,
    })
}

fn find_request<'a>(alloc: Global, found: &ArgMatches<'a>) -> Result<Request<'a>, Refusal>
    requires { HasValues find_rules (rows_of (found_of found.now)) }
    ensures request { IfOk result (IsRequestOf (Some (codes "find", rows_of (found_of found.now)))) }
    ensures refused { IfErr result (IsAnswerToOneOf (clashes (Some (codes "find", rows_of (found_of found.now))))) }
{
    let (limit, count) = (limit_of(found), flag(found, "count"));
    if count && limit.is_some() {
        return Err(clash(alloc, "--limit <N>", "with '--count'"));
    }
    Ok(Request {
        task: Task::Find(Find {
            board: given(found, "BOARD"),
            pair: given(found, "PAIR"),
            value: given(found, "VALUE"),
            from: given(found, "from"),
            all: flag(found, "all"),
            limit,
            count,
        }),
        progress: false,
    })
}

/// What `lookup` is to show; or one of its flags, with the other one that excludes it or that it
/// needs.
fn show_asked(found: &ArgMatches<'_>) -> Result<Show, (&'static str, &'static str)>
    requires { HasValues lookup_rules (rows_of (found_of found.now)) }
    ensures show { IfOk result (IsShown (rows_of (found_of found.now))) }
    ensures clash { IfErr result (λ why. has_clash (codes "lookup") (rows_of (found_of found.now)) ≡ true) }
{
    match (
        flag(found, "moves"),
        flag(found, "line"),
        flag(found, "csv"),
    ) {
        (false, false, false) => Ok(Show::Best),
        (true, false, false) => Ok(Show::Moves),
        (false, true, false) => Ok(Show::Line),
        (true, false, true) => Ok(Show::Csv),
        (true, true, _) => Err(("--moves", "with '--line'")),
        (false, _, true) => Err(("--csv", "without '--moves'")),
    }
}

/// The value of an argument that has to be given.
fn given<'a>(found: &ArgMatches<'a>, name: &str) -> &'a str
    requires { is_some (first_of name.now (rows_of (found_of found.now))) ≡ true }
    ensures { first_of name.now (rows_of (found_of found.now)) ≡ Some result.now }
{
    let Some(text) = found.get_str(name) else {
        unreachable!()
    };
    text
}

/// The value of an option, where it was given.
fn optional<'a>(found: &ArgMatches<'a>, name: &str) -> Option<&'a str>
    requires { HasOption name.now (rows_of (found_of found.now)) }
    ensures { IsOption name.now (rows_of (found_of found.now)) result }
{
    found.get_str(name)
}

/// Whether an argument was given: one that wasn't may still have a default value.
fn was_given(found: &ArgMatches<'_>, name: &str) -> bool
    ensures { result ≡ is_given name.now (rows_of (found_of found.now)) }
{
    match found.value_source(name) {
        Some(ValueSource::DefaultValue) => false,
        Some(ValueSource::CommandLine) => true,
        None => found.contains_id(name),
    }
}

/// The most positions to show, where a limit was given.
fn limit_of(found: &ArgMatches<'_>) -> Option<u32>
    requires { HasNumberIfGiven (codes "limit") 1 4294967295 (rows_of (found_of found.now)) }
    ensures { IsLimit (rows_of (found_of found.now)) result }
{
    found.get_one::<u32>("limit")
}

/// The values of an argument that may be given several times, in order.
fn all_given<'a>(
    alloc: Global,
    found: &ArgMatches<'a>,
    name: &str,
) -> Result<Vec<&'a str>, AllocError>
    ensures { IfOk result (λ strings. unwrap_or (all_of name.now (rows_of (found_of found.now))) [] ≡ map (λ t. t.now) strings.items) }
{
    match found.get_strs(name) {
        Some(strings) => strings.to_vec(alloc),
        None => Ok(Vec::new(alloc)),
    }
}

/// The number that an argument gives, or its default.
fn number(found: &ArgMatches<'_>, name: &str) -> u16
    requires { (low : ℕ) × (high : ℕ) × (high < 2 ^ 16) × HasNumber name.now low high (rows_of (found_of found.now)) }
    ensures value { option_map number_of (one_of name.now (rows_of (found_of found.now))) ≡ Some result }
    ensures range { (low high : ℕ) → high < 2 ^ 16 → HasNumber name.now low high (rows_of (found_of found.now)) → (low ≤ result) × (result ≤ high) }
{
    let Some(number) = found.get_one::<u16>(name) else {
        unreachable!()
    };
    number
}

/// Whether a flag was given.
fn flag(found: &ArgMatches<'_>, name: &str) -> bool
    requires { HasFlag name.now (rows_of (found_of found.now)) }
    ensures { one_of name.now (rows_of (found_of found.now)) ≡ Some (bool_text result) }
{
    found.get_flag(name)
}

/// The refusal of arguments that don't go together: `one` excludes `other`, or needs it.
fn clash(alloc: Global, one: &str, other: &str) -> Refusal
    ensures { IsAnswerTo ArgumentConflict result }
{
    match format!(in alloc; "error: the argument '{one}' cannot be used {other}{MORE_HELP}") {
        Ok(text) => Refusal::Wrong(text),
        Err(AllocError) => Refusal::Memory,
    }
}

fn refusal_of(alloc: Global, error: &Error) -> Refusal
    ensures { IsAnswerTo (kind_of error.now) result }
{
    match (error.kind(), error.to_string(alloc)) {
        (ErrorKind::OutOfMemory, _) | (_, Err(AllocError)) => Refusal::Memory,
        (ErrorKind::DisplayHelp, Ok(text)) => Refusal::Help(text),
        (ErrorKind::DisplayVersion, Ok(text)) => Refusal::Version(text),
        (_, Ok(text)) => Refusal::Wrong(text),
    }
}
