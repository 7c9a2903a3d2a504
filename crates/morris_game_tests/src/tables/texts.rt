// The texts of faults.
use crate::checks::holds;
use crate::tables::making::pair;
use morris_board::grid::Grid;
use morris_board::nine::Nine;
use morris_pairs::build_fault::BuildFault;
use morris_pairs::file_faults::{ReadFault, Write};
use morris_pairs::raw::Count;
use morris_pairs::shelf::Needs;
use morris_pairs::verify::VerifyFault;
use morris_probe::fault::ProbeFault;
use std::alloc::Global;
use std::fmt::Display;
use std::process::Abort;

/// This is the text of a fault.
fn assert_text<D: Display + Drop>(rt: &impl Abort, alloc: Global, fault: D, text: &str) {
    let made = format!(in alloc; "{fault}").expect(rt, "memory");
    holds(rt, made.as_str() == text, text);
}

#[test]
fn faults_of_files_have_texts(rt: HostRuntime) {
    for (fault, text) in [
        (ReadFault::Short, "file is too short"),
        (ReadFault::Magic, "not a table file"),
        (ReadFault::Version, "unknown version"),
        (ReadFault::BoardId, "another board"),
        (ReadFault::Counts, "bad counts"),
        (ReadFault::Crowded, "more stones than points"),
        (ReadFault::Count, "wrong number of entries"),
        (ReadFault::Digest, "digest is wrong"),
        (ReadFault::Trailing, "bytes after the table"),
        (ReadFault::Read, "reading failed"),
        (ReadFault::Memory, "out of memory"),
    ] {
        assert_text(&rt, rt.alloc(), fault, text);
    }
    let write = "writing failed after 16 bytes";
    assert_text(&rt, rt.alloc(), Write(16), write);
    assert_text(&rt, rt.alloc(), Count, "wrong number of entries");
}

#[test]
fn faults_of_builds_and_the_prober_have_texts(rt: HostRuntime) {
    for (fault, text) in [
        (BuildFault::<Grid>::TooDeep, "depth is too great"),
        (BuildFault::Memory, "out of memory"),
        (BuildFault::Workers, "workers must be 1 to 64"),
        (BuildFault::Blocks, "blocks must be 1 to 1024"),
        (BuildFault::Missing(7), "block 7 is not complete"),
    ] {
        assert_text(&rt, rt.alloc(), fault, text);
    }
    let differs = VerifyFault::<Nine>::Differs(20);
    assert_text(&rt, rt.alloc(), differs, "entry 20 differs");
    for (fault, text) in [
        (ProbeFault::<Nine>::Memory, "out of memory"),
        (ProbeFault::Write(16), "writing failed after 16 bytes"),
    ] {
        assert_text(&rt, rt.alloc(), fault, text);
    }
}

// Each fault that says which table is needed has the text of `Needs`.
#[test]
fn faults_name_the_table_that_is_needed(rt: HostRuntime) {
    let (alloc, pair) = (rt.alloc(), pair::<Nine>(&rt, 3, 4));
    assert_text(&rt, alloc, Needs(pair), "needs 4-3");
    assert_text(&rt, alloc, BuildFault::Needs(Needs(pair)), "needs 4-3");
    assert_text(&rt, alloc, VerifyFault::Needs(Needs(pair)), "needs 4-3");
    assert_text(&rt, alloc, ProbeFault::Needs(Needs(pair)), "needs 4-3");
}
