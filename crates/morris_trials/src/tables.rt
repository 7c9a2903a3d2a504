//! The calls on tables of the board `grid`, of three stones against three.
ghost use Rattle.std.specs.Prelude.{◌≡◌};

use morris_board::grid::Grid;
use morris_board::position::Position;
use morris_board::streams::{FromRead, IntoWrite};
use morris_engine_tests::digests::BY_CLASSES;
use morris_engine_tests::printing::{mark, or_refused, print_answer};
use morris_index::class_pair::ClassPair;
use morris_index::classes::Classes;
use morris_index::pair::Pair;
use morris_pairs::class_graph::ClassGraph;
use morris_pairs::exact::Exact;
use morris_pairs::file_faults::ReadFault;
use morris_pairs::graph::PairGraph;
use morris_pairs::reading::{read_next, read_table};
use morris_pairs::shelf::Shelf;
use morris_pairs::sweeping::sweep_pair;
use morris_pairs::value::Value;
use morris_pairs::writing::write_table;
use morris_probe::best::best;
use morris_probe::fault::ProbeFault;
use morris_probe::report::report;
use morris_wave::Graph;
use std::alloc::{AllocError, Global};
use std::fmt::Display;

/// A shelf with the table of 3-3.
fn shelf(alloc: Global) -> Option<Shelf<Grid>> {
    let mut shelf = Shelf::<Grid>::new(alloc).ok()?;
    let table = sweep_pair(alloc, &shelf, Pair::new(3, 3).ok()?).ok()?;
    shelf.put(table).ok()?;
    Some(shelf)
}

/// The file of a table.
fn file_of(alloc: Global, table: &Exact<Grid>) -> Option<Vec<u8>> {
    let mut sink = IntoWrite::new(Vec::new(alloc));
    write_table(&mut sink, table).ok()?;
    Some(sink.into_inner())
}

/// The file of 3-3.
pub(crate) fn file_of_three(alloc: Global) -> Option<Vec<u8>> {
    let shelf = shelf(alloc)?;
    file_of(alloc, shelf.get(Pair::new(3, 3).ok()?)?)
}

/// Prints the length and the digest of a table's file, or why there is no table.
pub(crate) fn tell_table<E: Display>(
    rt: &impl Print,
    alloc: Global,
    call: &str,
    when: &str,
    answer: &Result<Exact<Grid>, E>,
) -> Option<()> {
    let table = match answer {
        Ok(table) => table,
        Err(fault) => return println!(rt; "{call} {when}: {fault}").ok(),
    };
    let file = file_of(alloc, table)?;
    let start = file.len().checked_sub(32)?;
    print!(rt; "{call} {when}: {} bytes, digest ", file.len()).ok()?;
    for byte in file.as_slice().get(start..)? {
        print!(rt; "{byte:02x}").ok()?;
    }
    println!(rt; "").ok()
}

/// Prints how many tables stand on a shelf.
pub(crate) fn tell_shelf(rt: &impl Print, call: &str, shelf: &Shelf<Grid>) -> Option<()> {
    let most = Pair::<Grid>::new(5, 4).ok()?;
    let wide = Pair::<Grid>::new(6, 3).ok()?;
    let mut tables = u8::from(shelf.get(wide).is_some());
    for pair in most.below() {
        if shelf.get(pair).is_some() {
            tables = tables.saturating_add(1);
        }
    }
    println!(rt; "{call} after: {tables} tables on the shelf").ok()
}

pub(crate) fn sweeps_a_pair(rt: &impl Print, alloc: Global) -> Option<()> {
    let shelf = Shelf::<Grid>::new(alloc).ok()?;
    let pair = Pair::new(3, 3).ok()?;
    mark(alloc)?;
    let first = sweep_pair(alloc, &shelf, pair);
    mark(alloc)?;
    tell_table(rt, alloc, "sweep_pair", "first", &first)?;
    tell_shelf(rt, "sweep_pair", &shelf)?;
    let again = sweep_pair(alloc, &shelf, pair);
    tell_table(rt, alloc, "sweep_pair", "again", &again)
}

pub(crate) fn goes_back(rt: &impl Print, alloc: Global) -> Option<()> {
    let pair = Pair::new(3, 3).ok()?;
    let shelf = Shelf::<Grid>::new(alloc).ok()?;
    goes_back_in(rt, alloc, &PairGraph::new(&shelf, pair).ok()?)
}

/// Lists the predecessors of a position in a graph.
fn goes_back_in(rt: &impl Print, alloc: Global, graph: &PairGraph<'_, Grid>) -> Option<()> {
    if graph.size() < 982 {
        return None;
    }
    // What was in the list before is dropped, refused or not.
    let mut list = Vec::new(alloc);
    list.push(7).ok()?;
    list.shrink_to_fit();
    mark(alloc)?;
    let first = graph.back(981, &mut list);
    mark(alloc)?;
    let first = or_refused(first).map(|_| list.as_slice());
    print_answer(rt, "back", "first", &first)?;
    if first.is_err() {
        println!(rt; "back left: {:?}", list.as_slice()).ok()?;
    }
    let again = or_refused(graph.back(981, &mut list));
    print_answer(rt, "back", "again", &again.map(|_| list.as_slice()))
}

pub(crate) fn makes_a_shelf(rt: &impl Print, alloc: Global) -> Option<()> {
    mark(alloc)?;
    let first = Shelf::<Grid>::new(alloc);
    mark(alloc)?;
    let pair = Pair::new(3, 3).ok()?;
    let first = or_refused(first).map(|shelf| shelf.get(pair).is_none());
    print_answer(rt, "shelf", "first", &first)?;
    let again = or_refused(Shelf::<Grid>::new(alloc));
    print_answer(
        rt,
        "shelf",
        "again",
        &again.map(|shelf| shelf.get(pair).is_none()),
    )
}

/// How many classes of three points are made.
fn class_count(alloc: Global) -> Result<u32, &'static str> {
    or_refused(Classes::<Grid>::make(alloc, 3)).map(|classes| classes.count())
}

pub(crate) fn makes_classes(rt: &impl Print, alloc: Global) -> Option<()> {
    mark(alloc)?;
    let first = class_count(alloc);
    mark(alloc)?;
    print_answer(rt, "classes", "first", &first)?;
    print_answer(rt, "classes", "again", &class_count(alloc))
}

/// How many entries of classes a pair has that are made.
fn entry_count(alloc: Global, pair: Pair<Grid>) -> Result<u64, &'static str> {
    or_refused(ClassPair::make(alloc, pair)).map(|entries| entries.size())
}

pub(crate) fn makes_entries_of_classes(rt: &impl Print, alloc: Global) -> Option<()> {
    let pair = Pair::<Grid>::new(4, 3).ok()?;
    mark(alloc)?;
    let first = entry_count(alloc, pair);
    mark(alloc)?;
    print_answer(rt, "class_pair", "first", &first)?;
    print_answer(rt, "class_pair", "again", &entry_count(alloc, pair))
}

pub(crate) fn counts_codes(rt: &impl Print, alloc: Global) -> Option<()> {
    let shelf = shelf(alloc)?;
    let table = shelf.get(Pair::new(3, 3).ok()?)?;
    mark(alloc)?;
    let first = table.tallies(alloc);
    mark(alloc)?;
    print_answer(rt, "tallies", "first", &or_refused(first))?;
    print_answer(rt, "tallies", "again", &or_refused(table.tallies(alloc)))
}

/// How many entries the table has that is read from a file.
fn length_read(alloc: Global, file: &[u8]) -> Result<u64, ReadFault> {
    read_table::<Grid, _>(alloc, &mut FromRead::new(file)).map(|raw| raw.len())
}

/// Reads a file, for a call of this name.
fn reads(rt: &impl Print, alloc: Global, call: &str, file: &[u8]) -> Option<()> {
    mark(alloc)?;
    let first = length_read(alloc, file);
    mark(alloc)?;
    print_answer(rt, call, "first", &first)?;
    print_answer(rt, call, "again", &length_read(alloc, file))
}

pub(crate) fn reads_a_table(rt: &impl Print, alloc: Global) -> Option<()> {
    let file = file_of_three(alloc)?;
    reads(rt, alloc, "read_table", file.as_slice())
}

/// What the file of 3-3 by classes begins with: version 2, board 1, and 320 entries.
const HEADER_OF_CLASSES: [u8; 16] = *b"NMMT\x02\x01\x03\x03\x00\x00\x00\x00\x00\x00\x01\x40";

/// The code of a value in a file.
fn code_of(value: Value) -> u16 {
    match value {
        Value::Draw => 0,
        Value::Won(depth) | Value::Lost(depth) => depth.saturating_add(1),
    }
}

/// Adds the code of each entry of a pair to a file.
fn add_codes(
    file: &mut Vec<u8>,
    table: &Exact<Grid>,
    entries: &ClassPair<Grid>,
) -> Result<(), AllocError>
    requires { table.now.pair ≡ entries.now }
{
    for entry in 0..entries.size() {
        let code = code_of(table.value_of(&entries.position(entry)));
        file.extend_from_slice(code.to_be_bytes().as_slice())?;
    }
    Ok(())
}

/// The file of the table of 3-3 by classes: each entry has the code of its position.
fn file_by_classes(alloc: Global) -> Option<Vec<u8>> {
    let pair = Pair::new(3, 3).ok()?;
    let shelf = shelf(alloc)?;
    let entries = ClassPair::make(alloc, pair).ok()?;
    let mut file = Vec::from_slice(alloc, HEADER_OF_CLASSES.as_slice()).ok()?;
    add_codes(&mut file, shelf.get(pair)?, &entries).ok()?;
    file.extend_from_slice(BY_CLASSES.as_slice()).ok()?;
    Some(file)
}

pub(crate) fn reads_a_table_by_classes(rt: &impl Print, alloc: Global) -> Option<()> {
    let file = file_by_classes(alloc)?;
    reads(rt, alloc, "read_classes", file.as_slice())
}

/// How many entries the next table has that is read from a file.
fn next_length(alloc: Global, file: &[u8]) -> Result<Option<u64>, ReadFault> {
    read_next::<Grid, _>(alloc, &mut FromRead::new(file)).map(|found| found.map(|raw| raw.len()))
}

pub(crate) fn reads_the_next_table(rt: &impl Print, alloc: Global) -> Option<()> {
    let file = file_of_three(alloc)?;
    mark(alloc)?;
    let first = next_length(alloc, file.as_slice());
    mark(alloc)?;
    print_answer(rt, "read_next", "first", &first)?;
    let again = next_length(alloc, file.as_slice());
    print_answer(rt, "read_next", "again", &again)
}

pub(crate) fn finds_best_moves(rt: &impl Print, alloc: Global) -> Option<()> {
    let shelf = shelf(alloc)?;
    let position = Position::<Grid>::read(b"OO.OXX.X.").ok()?;
    mark(alloc)?;
    let first = best(alloc, &shelf, &position);
    mark(alloc)?;
    print_answer(rt, "best", "first", &first.map(|moves| moves.len()))?;
    tell_shelf(rt, "best", &shelf)?;
    match best(alloc, &shelf, &position) {
        Ok(moves) => {
            for step in &moves {
                println!(rt; "best again: {step}").ok()?;
            }
            Some(())
        }
        Err(fault) => println!(rt; "best again: {fault}").ok(),
    }
}

pub(crate) fn reports(rt: &impl Print, alloc: Global) -> Option<()> {
    let shelf = shelf(alloc)?;
    let position = Position::<Grid>::read(b"OO.OXX.X.").ok()?;
    // Has room for the whole, so that the sink asks for no memory.
    let room = Vec::with_capacity(alloc, 4_096).ok()?;
    mark(alloc)?;
    let (first, written) = reported(alloc, room, &shelf, &position);
    mark(alloc)?;
    print_answer(rt, "report", "first", &first.map(|_| written.len()))?;
    let (again, written) = reported(alloc, Vec::new(alloc), &shelf, &position);
    let text = String::from_utf8(written).ok()?;
    print_answer(rt, "report", "again", &again.map(|_| text))
}

/// What the prober says of a position into this room, and what it writes.
fn reported(
    alloc: Global,
    room: Vec<u8>,
    shelf: &Shelf<Grid>,
    position: &Position<Grid>,
) -> (Result<(), ProbeFault<Grid>>, Vec<u8>) {
    let mut sink = IntoWrite::new(room);
    let answer = report(alloc, &mut sink, shelf, position);
    (answer, sink.into_inner())
}

pub(crate) fn makes_a_graph_of_classes(rt: &impl Print, alloc: Global) -> Option<()> {
    let shelf = Shelf::<Grid>::new(alloc).ok()?;
    let pair = Pair::new(3, 3).ok()?;
    mark(alloc)?;
    let first = ClassGraph::new(alloc, &shelf, pair).map(|graph| graph.size());
    mark(alloc)?;
    print_answer(rt, "class_graph", "first", &first)?;
    let again = ClassGraph::new(alloc, &shelf, pair).map(|graph| graph.size());
    print_answer(rt, "class_graph", "again", &again)
}
