//! What the libraries do where memory runs out, and the commands that run on the thread of the
//! caller. No part of the product.
//!
//! The program makes a call by itself: it prints what the call answers, how it leaves what it works
//! on, and what it answers when it is made again. Its arguments are names of calls.
//! `tests/cli/memory.py` runs this program once for each request for memory of each call, and has
//! that request refused.
//!
//! An argument that names no call has position strings, which are probed over the table files on
//! standard input: `tests/lookups` compares what `lookup` answers with that.
//!
//! Its functions have no clauses: what they print is compared by the gate, with the stored output
//! and after each refusal, and no contract can say what a terminal takes.
//!
//! - `engine`: calls on graphs and their blocks
//! - `tables`: calls on tables
//! - `threads`: calls that build a table by several workers
//! - `calls`: the commands on the thread of the caller
//! - `probes`: what the prober says of many positions
#![tactic(auto)]

mod calls;
mod engine;
mod probes;
mod tables;
mod threads;

use std::alloc::Global;
use std::env;
use std::process::ExitCode;
use std::sync::Wait;
use std::thread::Threads;

fn main(rt: HostRuntime) -> ExitCode {
    let Ok(words) = env::args(&rt) else {
        return ExitCode::from(1);
    };
    for word in words.skip(1) {
        if run(&rt, rt.alloc(), word.as_str()).is_none() {
            return ExitCode::from(1);
        }
    }
    ExitCode::from(0)
}

/// Makes the call of this name, or probes the positions that the argument has.
fn run<R: Print + Input + Threads + Wait + Sync>(rt: &R, alloc: Global, name: &str) -> Option<()> {
    match name {
        "sweep" => engine::sweeps(rt, alloc),
        "make" => engine::makes_a_block(rt, alloc),
        "fresh" => engine::lists_fresh_nodes(rt, alloc),
        "scatter" => engine::scatters(rt, alloc),
        "gather" => engine::gathers(rt, alloc),
        "yard" => engine::makes_a_yard(rt, alloc),
        "tickets" => engine::makes_tickets(rt, alloc),
        "back" => tables::goes_back(rt, alloc),
        "shelf" => tables::makes_a_shelf(rt, alloc),
        "classes" => tables::makes_classes(rt, alloc),
        "class_pair" => tables::makes_entries_of_classes(rt, alloc),
        "class_graph" => tables::makes_a_graph_of_classes(rt, alloc),
        "sweep_pair" => tables::sweeps_a_pair(rt, alloc),
        "tallies" => tables::counts_codes(rt, alloc),
        "read_table" => tables::reads_a_table(rt, alloc),
        "read_classes" => tables::reads_a_table_by_classes(rt, alloc),
        "read_next" => tables::reads_the_next_table(rt, alloc),
        "best" => tables::finds_best_moves(rt, alloc),
        "report" => tables::reports(rt, alloc),
        "build" => threads::builds(rt, alloc),
        "build_classes" => threads::builds_by_classes(rt, alloc),
        "stats" => calls::counts_values(rt, alloc),
        "verify_in" => calls::verifies(rt, alloc),
        "probe_in" => calls::probes_a_bundle(rt, alloc),
        texts => probes::probes(rt, alloc, texts),
    }
}
