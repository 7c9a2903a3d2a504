// The texts of faults.
use crate::checks::same_text;
use morris_board::faults::{Stones, TextFault};
use morris_index::faults::PairFault;
use morris_wave::{AdvanceFault, Blocks, GatherFault, SweepFault};
use morris_workers::SolveFault;
use std::alloc::Global;
use std::fmt::Display;
use std::process::Abort;

// What a fault says.
fn says<F: Display + Drop>(rt: &impl Abort, alloc: Global, fault: F, text: &str) {
    let told = format!(in alloc; "{fault}").expect(rt, "memory");
    same_text(rt, told.as_str(), text);
}

#[test]
fn faults_of_positions_and_pairs_have_their_texts(rt: HostRuntime) {
    for (fault, text) in [
        (TextFault::Length, "text is not one character per point"),
        (TextFault::Character(7), "bad character at 7"),
        (TextFault::Stones, "bad number of stones"),
    ] {
        says(&rt, rt.alloc(), fault, text);
    }
    says(&rt, rt.alloc(), Stones, "bad number of stones");
    for (fault, text) in [
        (PairFault::Counts, "bad counts"),
        (PairFault::Crowded, "more stones than points"),
    ] {
        says(&rt, rt.alloc(), fault, text);
    }
}

#[test]
fn faults_of_blocks_have_their_texts(rt: HostRuntime) {
    says(&rt, rt.alloc(), Blocks, "blocks must be 1 to 1024");
    for (fault, text) in [
        (AdvanceFault::NotComplete, "wave is not complete"),
        (AdvanceFault::TooDeep, "depth is too great"),
    ] {
        says(&rt, rt.alloc(), fault, text);
    }
    for (fault, text) in [
        (SweepFault::TooDeep, "depth is too great"),
        (SweepFault::Memory, "out of memory"),
    ] {
        says(&rt, rt.alloc(), fault, text);
    }
}

#[test]
fn faults_of_gathering_have_their_texts(rt: HostRuntime) {
    for (fault, text) in [
        (GatherFault::Foreign(1), "block at 1 is of another build"),
        (GatherFault::Double(3), "block 3 came twice"),
        (GatherFault::Missing(2), "block 2 is not complete"),
        (GatherFault::Memory, "out of memory"),
    ] {
        says(&rt, rt.alloc(), fault, text);
    }
}

#[test]
fn faults_of_solving_have_their_texts(rt: HostRuntime) {
    for (fault, text) in [
        (SolveFault::Workers, "workers must be 1 to 64"),
        (SolveFault::Blocks, "blocks must be 1 to 1024"),
        (SolveFault::Memory, "out of memory"),
        (SolveFault::Missing(7), "block 7 is not complete"),
        (SolveFault::TooDeep, "depth is too great"),
    ] {
        says(&rt, rt.alloc(), fault, text);
    }
}
