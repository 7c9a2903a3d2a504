//! What the prober says of many positions, over tables that are verified once.
use morris_board::nine::Nine;
use morris_board::position::Position;
use morris_board::streams::{FromRead, IntoWrite};
use morris_pairs::reading::read_next;
use morris_pairs::shelf::Shelf;
use morris_probe::report::report;
use std::alloc::Global;

/// How many files may stand one after the other on the input.
const MOST_FILES: usize = 64;

/// Prints what `probe` prints of each of these positions of the board `nine`, whose strings have
/// commas between them, over the files on standard input. `probe` would verify them for each
/// position; `tests/lookups` asks for so many that this would take hours.
pub(crate) fn probes(rt: &(impl Print + Input), alloc: Global, texts: &str) -> Option<()> {
    let shelf = verified_input(rt, alloc)?;
    for text in texts.split(',') {
        let position = Position::<Nine>::read(text.as_bytes()).ok()?;
        let mut sink = IntoWrite::new(Vec::new(alloc));
        report(alloc, &mut sink, &shelf, &position).ok()?;
        print!(rt; "{}", String::from_utf8(sink.into_inner()).ok()?).ok()?;
    }
    Some(())
}

/// The tables of the files on standard input, each verified over those before it.
fn verified_input(rt: &impl Input, alloc: Global) -> Option<Shelf<Nine>> {
    let mut shelf = Shelf::new(alloc).ok()?;
    let mut input = FromRead::new(rt.reader());
    for _ in 0..MOST_FILES {
        let Some(raw) = read_next(alloc, &mut input).ok()? else {
            return Some(shelf);
        };
        let Ok(exact) = raw.verify(&shelf) else {
            return None;
        };
        let Ok(()) = shelf.put(exact) else {
            return None;
        };
    }
    None
}
