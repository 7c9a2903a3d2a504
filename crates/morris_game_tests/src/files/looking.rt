// What the files of 3-3 on `grid` say, in either version. The values follow from the rules.
use crate::tables::making::{built, empty, file_of, pair};
use morris_board::grid::Grid;
use morris_board::position::Position;
use morris_index::pair::Pair;
use morris_lookup::best::{best, next};
use morris_lookup::opened::Opened;
use morris_lookup::outcomes::outcomes;
use morris_lookup::storage::Storage;
use morris_lookup::tables::Tables;
use morris_moves::game_move::Move;
use morris_pairs::layout::Layout;
use morris_pairs::value::Value;
use std::alloc::Global;
use std::fs;
use std::fs::File;
use std::io::Write;
use std::process::Abort;
use std::sync::Wait;
use std::thread::Threads;

/// A move that takes this stone.
fn taking(from: u8, to: u8, taken: u8) -> Move {
    Move {
        from,
        to,
        taken: Some(taken),
    }
}

/// A move that takes none.
fn quiet(from: u8, to: u8) -> Move {
    Move {
        from,
        to,
        taken: None,
    }
}

/// Whether the files give a position this value and these best moves.
fn is_reported<S: Storage>(
    alloc: Global,
    tables: &Tables<Grid, S>,
    text: &[u8],
    value: Value,
    moves: &[Move],
) -> bool {
    let Ok(position) = Position::read(text) else {
        return false;
    };
    let Ok(found) = best(alloc, tables, &position) else {
        return false;
    };
    tables.value(&position) == Ok(value) && found.as_slice() == moves
}

/// Whether the values and the best moves of some positions are right.
fn are_told<S: Storage>(alloc: Global, tables: &Tables<Grid, S>) -> bool {
    let drawn = [quiet(0, 6), quiet(1, 7), quiet(2, 8)];
    let winning = [taking(8, 2, 4), taking(8, 2, 5), taking(8, 2, 7)];
    is_reported(alloc, tables, b"XXXOOO...", Value::Draw, &drawn)
        && is_reported(alloc, tables, b"XXX.OO.O.", Value::Won(3), &[quiet(2, 3)])
        && is_reported(alloc, tables, b"XX..OO.OX", Value::Won(1), &winning)
        && is_reported(alloc, tables, b"XX.OOO...", Value::Lost(0), &[])
}

/// The value that a move leads to.
fn value_after<S: Storage>(
    alloc: Global,
    tables: &Tables<Grid, S>,
    text: &[u8],
    step: Move,
) -> Option<Value> {
    let position = Position::read(text).ok()?;
    let outcomes = outcomes(alloc, tables, &position).ok()?;
    for outcome in outcomes.iter() {
        if outcome.step == step {
            return Some(outcome.value);
        }
    }
    None
}

/// How many plies the line of best play has, up to 9.
fn plies<S: Storage>(alloc: Global, tables: &Tables<Grid, S>, text: &[u8]) -> Option<u8> {
    let mut position = Position::read(text).ok()?;
    for count in 0..9 {
        match next(alloc, tables, &position).ok()? {
            None => return Some(count),
            Some((_, after)) => position = after,
        }
    }
    None
}

/// Whether all is right: the capture that wins at once, and the quiet move that lets the opponent
/// win at once where it could have been stopped, and how long two lines are.
fn is_right<S: Storage>(alloc: Global, tables: &Tables<Grid, S>) -> bool {
    are_told(alloc, tables)
        && value_after(alloc, tables, b"XX..OO.OX", taking(8, 2, 4)) == Some(Value::Won(1))
        && value_after(alloc, tables, b"XX..OO.OX", quiet(8, 3)) == Some(Value::Won(3))
        && plies(alloc, tables, b"XXX.OO.O.") == Some(3)
        && plies(alloc, tables, b"OO.OXX.X.") == Some(2)
}

/// The file of 3-3 in a layout.
fn three_three<R: Abort + Threads + Wait + Sync>(rt: &R, alloc: Global, layout: Layout) -> Vec<u8> {
    let table = built(rt, alloc, &empty(rt, alloc), pair(rt, 3, 3), layout);
    file_of(rt, alloc, &table)
}

/// The tables of one file of 3-3.
fn tables_of<S: Storage + Drop>(alloc: Global, file: S) -> Option<Tables<Grid, S>> {
    let pair = Pair::new(3, 3).ok()?;
    let mut tables = Tables::new(alloc).ok()?;
    tables.put(Opened::open(alloc, file, pair).ok()?);
    Some(tables)
}

#[test]
fn a_file_by_positions_tells(rt: HostRuntime) {
    let bytes = three_three(&rt, rt.alloc(), Layout::Full);
    let tables = tables_of(rt.alloc(), bytes.as_slice()).expect(&rt, "tables");
    assert!(rt; is_right(rt.alloc(), &tables));
}

#[test]
fn a_file_by_classes_tells(rt: HostRuntime) {
    let bytes = three_three(&rt, rt.alloc(), Layout::Classes);
    let tables = tables_of(rt.alloc(), bytes.as_slice()).expect(&rt, "tables");
    assert!(rt; is_right(rt.alloc(), &tables));
}

#[test]
fn a_file_on_a_disk_tells(rt: HostRuntime) {
    let bytes = three_three(&rt, rt.alloc(), Layout::Classes);
    let path = "looked_up_by_a_test";
    let mut file = File::create(&rt, path).expect(&rt, "a place to write");
    file.write_all(bytes.as_slice()).expect(&rt, "room");
    drop(file);
    let file = File::open(&rt, path).expect(&rt, "the file");
    let _ = fs::remove_file(&rt, path);
    let tables = tables_of(rt.alloc(), file).expect(&rt, "tables");
    assert!(rt; is_right(rt.alloc(), &tables));
}
