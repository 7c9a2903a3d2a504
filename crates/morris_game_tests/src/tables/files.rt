// Files of tables by classes.
use crate::checks::{holds, same};
use crate::tables::making::{agree, empty, file_of, three_by_classes, three_three};
use morris_board::grid::Grid;
use morris_board::streams::FromRead;
use morris_engine_tests::digests::BY_CLASSES;
use morris_pairs::exact::Exact;
use morris_pairs::layout::Layout;
use morris_pairs::raw::Raw;
use morris_pairs::reading::read_table;
use std::alloc::Global;
use std::process::Abort;

/// The file of a table is the one of 3-3 by classes.
fn assert_file(rt: &impl Abort, alloc: Global, table: &Exact<Grid>) {
    let file = file_of(rt, alloc, table);
    same(rt, file.len() as u64, 688, "bytes");
    holds(
        rt,
        file.as_slice().ends_with(BY_CLASSES.as_slice()),
        "digest",
    );
}

/// What the file of a table states.
fn read_back(rt: &impl Abort, alloc: Global, table: &Exact<Grid>) -> Raw<Grid> {
    let file = file_of(rt, alloc, table);
    let mut source = FromRead::new(file.as_slice());
    read_table(alloc, &mut source).expect(rt, "a table")
}

/// A table has the entries of the classes of 3-3, and the values of the swept one.
fn assert_by_classes(rt: &impl Abort, alloc: Global, table: &Exact<Grid>) {
    let swept = three_three(rt, alloc);
    holds(rt, table.layout() == Layout::Classes, "layout");
    same(rt, table.len(), 320, "entries");
    holds(rt, agree(&swept, table), "values");
}

#[test]
fn a_file_of_classes_is_read_verified_and_written_again(rt: HostRuntime) {
    let table = three_by_classes(&rt, rt.alloc());
    let raw = read_back(&rt, rt.alloc(), &table);
    let again = raw.verify(&empty(&rt, rt.alloc())).ok();
    let again = again.expect(&rt, "an exact table");
    assert_file(&rt, rt.alloc(), &again);
    assert_by_classes(&rt, rt.alloc(), &again);
}
