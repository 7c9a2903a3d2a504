// What the swept table of 3-3 says, beside what is known from outside.
use crate::checks::holds;
use crate::tables::making::{position, three_three};
use morris_board::grid::Grid;
use morris_index::pair::Pair;
use morris_pairs::exact::Exact;
use morris_pairs::value::Value;
use std::process::Abort;

/// A table gives the position of a string this value.
fn assert_value(rt: &impl Abort, table: &Exact<Grid>, text: &[u8], wanted: Value) {
    let position = position(rt, text);
    assert!(rt; Pair::of(&position) == Some(table.pair()));
    holds(rt, table.value_of(&position) == wanted, "value");
}

// The values of these positions were found by hand.
#[test]
fn three_stones_each_have_their_values(rt: HostRuntime) {
    let table = three_three(&rt, rt.alloc());
    assert_value(&rt, &table, b"XXXOO.O..", Value::Won(3));
    assert_value(&rt, &table, b"XXX.OO.O.", Value::Won(3));
    assert_value(&rt, &table, b"OO.OXX.X.", Value::Lost(2));
    assert_value(&rt, &table, b"XX..OO.OX", Value::Won(1));
    assert_value(&rt, &table, b"XXXOOO...", Value::Draw);
    let tallies = table.tallies(rt.alloc()).expect(&rt, "memory");
    let are_right = tallies.as_slice() == [600, 0, 936, 36, 108].as_slice();
    holds(&rt, are_right, "tallies");
}
