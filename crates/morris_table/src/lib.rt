//! Tables of the game's values, pair by pair, made by several workers.
//!
//! - `building`: the table of a pair, in either layout
//!
//! All else that there is to a table stands in `morris_pairs`, which is proved beside the workers,
//! and is found here too.
#![tactic(auto)]

pub mod building;

pub use morris_pairs::{
    build_fault, class_graph, exact, file_faults, graph, header, layout, levels, raw, reading,
    row_graph, shelf, sweeping, table_set, value, verify, writing,
};
