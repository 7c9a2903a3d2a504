//! What a program that plays does with tables: from the bytes of their files to its moves.
use morris_board::grid::Grid;
use morris_board::position::Position;
use morris_board::streams::{FromRead, IntoWrite};
use morris_index::pair::Pair;
use morris_moves::game_move::Move;
use morris_pairs::reading::read_next;
use morris_pairs::shelf::Shelf;
use morris_pairs::sweeping::sweep_pair;
use morris_pairs::value::Value;
use morris_pairs::writing::write_table;
use morris_probe::best::best;
use morris_probe::value::value;
use std::alloc::Global;
use std::process::Abort;
use std::test::Fail;

/// The tables of files that stand one after the other. A file that is damaged, a table with a wrong
/// entry, and one that comes before those that it needs are refused.
fn load(alloc: Global, bundle: &[u8]) -> Result<Shelf<Grid>, Fail> {
    let mut shelf = Shelf::new(alloc)?;
    let mut source = FromRead::new(bundle);
    for _ in 0..=bundle.len() {
        let Some(raw) = read_next(alloc, &mut source)? else {
            return Ok(shelf);
        };
        let Ok(exact) = raw.verify(&shelf) else {
            return Err(Fail::new("a table isn't right"));
        };
        let Ok(()) = shelf.put(exact) else {
            return Err(Fail::new("a table comes before one that it needs"));
        };
    }
    Err(Fail::new("more files than bytes"))
}

/// The bytes of the file of 3-3, in place of a file that the program would open.
fn some_file(alloc: Global) -> Result<Vec<u8>, Fail> {
    let table = sweep_pair(alloc, &Shelf::<Grid>::new(alloc)?, Pair::new(3, 3)?)?;
    let mut sink = IntoWrite::new(Vec::new(alloc));
    write_table(&mut sink, &table)?;
    Ok(sink.into_inner())
}

#[test]
fn from_the_bytes_of_a_table_to_the_best_moves(rt: HostRuntime) -> Result<(), Fail> {
    let bytes = some_file(rt.alloc())?;
    let shelf = load(rt.alloc(), bytes.as_slice())?;

    let position = Position::read(b"XXX.OO.O.")?;
    assert_eq!(rt; value(&shelf, &position), Ok(Value::Won(3)));

    let moves = best(rt.alloc(), &shelf, &position)?;
    let wins = Move {
        from: 2,
        to: 3,
        taken: None,
    };
    assert_eq!(rt; moves.as_slice(), [wins].as_slice());
    Ok(())
}
