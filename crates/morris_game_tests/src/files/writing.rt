// Files in memory, written while calls fail.
use crate::files::text::Two;
use crate::memory::MemoryFolder;
use morris_files::folder::Folder;
use morris_files::whole::{NotWhole, Step, write_whole};
use morris_workers::NoProgress;
use std::alloc::Global;
use std::process::Abort;

/// What stands under the name, and how many files there are, once a file was written over another
/// one while these calls and writes failed.
fn writes(alloc: Global, calls: u64, failing: u64) -> Option<(Result<(), NotWhole>, bool, usize)> {
    let mut folder = MemoryFolder::new(alloc, calls, failing);
    folder.put("kept", b"old").ok()?;
    let answer = write_whole(
        alloc,
        &mut folder,
        "kept",
        &Two(b"new", b"er"),
        &mut NoProgress,
    );
    let answer = answer.map(|_| ());
    let wanted = if answer.is_ok() {
        b"newer".as_slice()
    } else {
        b"old".as_slice()
    };
    Some((answer, folder.get("kept") == Some(wanted), folder.count()))
}

/// Whether a file that is written while these fail is refused at the step, with the old one as it
/// was and no other file but a part that the refusal names.
fn is_refused(alloc: Global, calls: u64, failing: u64, step: Step, left: bool) -> bool {
    let files = if left { 2 } else { 1 };
    writes(alloc, calls, failing) == Some((Err(NotWhole { step, left }), true, files))
}

#[test]
fn a_file_is_whole_or_as_it_was_whichever_calls_fail(rt: HostRuntime) {
    let alloc = rt.alloc();
    assert!(rt; writes(alloc, 0, 0) == Some((Ok(()), true, 1)));
    assert!(rt; is_refused(alloc, 0b1, 0, Step::Create, false));
    assert!(rt; is_refused(alloc, 0b10, 0, Step::Create, false));
    assert!(rt; is_refused(alloc, 0, 0b1, Step::Write, false));
    assert!(rt; is_refused(alloc, 0, 0b10, Step::Write, false));
    assert!(rt; is_refused(alloc, 0b100, 0b10, Step::Write, true));
    assert!(rt; is_refused(alloc, 0b100, 0, Step::Sync, false));
    assert!(rt; is_refused(alloc, 0b1100, 0, Step::Sync, true));
    assert!(rt; is_refused(alloc, 0b1000, 0, Step::Rename, false));
    assert!(rt; is_refused(alloc, 0b11000, 0, Step::Rename, true));
}

#[test]
fn a_file_is_whole_where_its_name_may_not_last(rt: HostRuntime) {
    let mut folder = MemoryFolder::new(rt.alloc(), 0b10000, 0);
    let answer = write_whole(
        rt.alloc(),
        &mut folder,
        "kept",
        &Two(b"new", b"er"),
        &mut NoProgress,
    );
    let refused = NotWhole {
        step: Step::Settle,
        left: false,
    };
    assert!(rt; answer == Err(refused));
    assert!(rt; folder.get("kept") == Some(b"newer".as_slice()));
    assert!(rt; folder.count() == 1);
}

#[test]
fn a_part_that_was_left_is_replaced(rt: HostRuntime) {
    let mut folder = MemoryFolder::new(rt.alloc(), 0, 0);
    assert!(rt; folder.put("kept.part", b"left").is_ok());
    assert!(rt; folder.create("kept.part").is_err());
    assert!(rt; folder.get("kept.part") == Some(b"left".as_slice()));
    let answer = write_whole(
        rt.alloc(),
        &mut folder,
        "kept",
        &Two(b"new", b"er"),
        &mut NoProgress,
    );
    assert!(rt; answer.is_ok());
    assert!(rt; folder.get("kept") == Some(b"newer".as_slice()));
    assert!(rt; folder.count() == 1);
}
