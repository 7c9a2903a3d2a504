// Files of the system.
use crate::files::text::Two;
use morris_board::streams::{Failed, Source};
use morris_files::folder::Folder;
use morris_files::reason::Reason;
use morris_files::system::SystemFolder;
use morris_files::whole::{NotWhole, Step, write_whole};
use morris_workers::NoProgress;
use std::fs::File;
use std::io::ErrorKind;
use std::os::unix::fs::symlink;
use std::process::Abort;
use std::rt::Files;
use std::{fs, io};

/// Whether the file of this name has these five bytes.
fn has<R: Files<File = File> + AllocGlobal>(rt: &R, path: &str, name: &str, text: &[u8]) -> bool {
    let mut folder = SystemFolder::new(rt, path);
    let mut bytes = [0; 8];
    match folder.open(name) {
        Ok(Some(mut reader)) => match reader.read(&mut bytes) {
            Ok(count) => bytes.get(..count) == Some(text),
            Err(_) => false,
        },
        _ => false,
    }
}

/// Whether there is no file of this name.
fn lacks<R: Files<File = File> + AllocGlobal>(rt: &R, path: &str, name: &str) -> bool {
    matches!(SystemFolder::new(rt, path).open(name), Ok(None))
}

/// Whether a file is written whole.
fn writes<R: Files<File = File> + AllocGlobal>(rt: &R, path: &str, first: &[u8]) -> bool {
    let mut folder = SystemFolder::new(rt, path);
    write_whole(
        rt.alloc(),
        &mut folder,
        "kept",
        &Two(first, b"er"),
        &mut NoProgress,
    )
    .is_ok()
}

/// Whether a file is written whole twice, and then read, in a folder that is made.
fn keeps<R: Files<File = File> + AllocGlobal>(rt: &R, path: &str) -> bool {
    let mut folder = SystemFolder::new(rt, path);
    // The second time it is there already.
    if folder.make().is_err() || folder.make().is_err() || folder.find().is_err() {
        return false;
    }
    writes(rt, path, b"old")
        && writes(rt, path, b"new")
        && has(rt, path, "kept", b"newer")
        && lacks(rt, path, "kept.part")
}

#[test]
fn a_folder_of_the_system_keeps_what_is_written(rt: HostRuntime) {
    let path = "kept_by_a_test";
    assert!(rt; keeps(&rt, path));
    let _ = fs::remove_dir_all(&rt, path);
}

#[test]
fn a_folder_that_is_not_there_is_refused(rt: HostRuntime) {
    let mut folder = SystemFolder::new(&rt, "nowhere/at/all");
    let answer = write_whole(
        rt.alloc(),
        &mut folder,
        "kept",
        &Two(b"new", b"er"),
        &mut NoProgress,
    );
    let refused = NotWhole {
        step: Step::Create,
        left: false,
    };
    assert!(rt; answer == Err(refused));
    assert!(rt; folder.make().is_err());
    assert!(rt; folder.find().is_err());
    assert!(rt; folder.failures() == 3);
    assert!(rt; folder.why() == Some(Reason::NotFound));
}

/// Why there is no folder with this path.
fn unfound<R: Files<File = File> + AllocGlobal>(rt: &R, path: &str) -> Option<Reason> {
    let mut folder = SystemFolder::new(rt, path);
    match (folder.make(), folder.find()) {
        (Ok(()), Err(Failed)) => folder.why(),
        _ => None,
    }
}

#[test]
fn what_is_no_folder_is_not_found(rt: HostRuntime) {
    let _ = fs::write(&rt, "file_of_a_test", b"text".as_slice());
    assert!(rt; unfound(&rt, "") == Some(Reason::Nameless));
    assert!(rt; unfound(&rt, "file_of_a_test") == Some(Reason::NotAFolder));
    let _ = fs::remove_file(&rt, "file_of_a_test");
    assert!(rt; SystemFolder::new(&rt, "").create("kept").is_err());
}

#[test]
fn a_folder_is_locked_once(rt: HostRuntime) {
    let path = "locked_by_a_test";
    let mut one = SystemFolder::new(&rt, path);
    let mut two = SystemFolder::new(&rt, path);
    assert!(rt; one.lock("lock") == Err(Failed));
    assert!(rt; one.make() == Ok(()));
    let _ = fs::write(&rt, "locked_by_a_test/lock", b"ed".as_slice());
    assert!(rt; one.lock("lock") == Ok(true));
    assert!(rt; one.lock("lock") == Ok(true));
    assert!(rt; two.lock("lock") == Ok(false));
    assert!(rt; two.lock("lock") == Ok(false));
    drop(one);
    assert!(rt; two.lock("lock") == Ok(true));
    assert!(rt; two.failures() == 0);
    assert!(rt; has(&rt, path, "lock", b"ed"));
    let _ = fs::remove_dir_all(&rt, path);
}

#[test]
fn a_link_is_no_lock(rt: HostRuntime) {
    let path = "unlocked_by_a_test";
    let mut folder = SystemFolder::new(&rt, path);
    assert!(rt; folder.make() == Ok(()));
    let _ = symlink(&rt, "elsewhere", "unlocked_by_a_test/lock");
    assert!(rt; folder.lock("lock") == Err(Failed));
    assert!(rt; folder.why() == Some(Reason::Irregular));
    assert!(rt; lacks(&rt, path, "elsewhere"));
    let _ = fs::remove_dir_all(&rt, path);
}

#[test]
fn a_file_is_created_once(rt: HostRuntime) {
    let path = "created_by_a_test";
    let mut folder = SystemFolder::new(&rt, path);
    assert!(rt; folder.make() == Ok(()));
    let _ = fs::write(&rt, "created_by_a_test/kept", b"older".as_slice());
    assert!(rt; folder.create("kept").is_err());
    assert!(rt; folder.why() == Some(Reason::Exists));
    assert!(rt; has(&rt, path, "kept", b"older"));
    let _ = fs::remove_dir_all(&rt, path);
}

/// Whether a file is written although there is a link under the name of its part, and what the link
/// leads to is as it was.
fn spares<R: Files<File = File> + AllocGlobal>(rt: &R, path: &str) -> bool {
    writes(rt, path, b"new")
        && has(rt, path, "kept", b"newer")
        && has(rt, path, "precious", b"older")
        && lacks(rt, path, "kept.part")
}

#[test]
fn a_link_under_the_name_of_a_part_is_not_followed(rt: HostRuntime) {
    let path = "linked_by_a_test";
    let _ = fs::create_dir(&rt, path);
    let _ = fs::write(&rt, "linked_by_a_test/precious", b"older".as_slice());
    let _ = symlink(&rt, "precious", "linked_by_a_test/kept.part");
    assert!(rt; spares(&rt, path));
    let _ = fs::hard_link(
        &rt,
        "linked_by_a_test/precious",
        "linked_by_a_test/kept.part",
    );
    assert!(rt; spares(&rt, path));
    let _ = fs::remove_dir_all(&rt, path);
}

#[test]
fn a_folder_under_the_name_of_a_part_is_refused(rt: HostRuntime) {
    let path = "parted_by_a_test";
    let mut folder = SystemFolder::new(&rt, path);
    assert!(rt; folder.make() == Ok(()));
    let _ = fs::create_dir(&rt, "parted_by_a_test/kept.part");
    let answer = write_whole(
        rt.alloc(),
        &mut folder,
        "kept",
        &Two(b"new", b"er"),
        &mut NoProgress,
    );
    let refused = NotWhole {
        step: Step::Create,
        left: false,
    };
    assert!(rt; answer == Err(refused));
    assert!(rt; folder.why() == Some(Reason::IsAFolder));
    let _ = fs::remove_dir_all(&rt, path);
}

#[test]
fn what_has_no_bytes_of_its_own_is_not_opened(rt: HostRuntime) {
    let path = "device_of_a_test";
    let mut folder = SystemFolder::new(&rt, path);
    assert!(rt; folder.make() == Ok(()));
    let _ = symlink(&rt, "/dev/null", "device_of_a_test/kept");
    let _ = symlink(&rt, "/dev", "device_of_a_test/folder");
    assert!(rt; folder.open("kept").is_err());
    assert!(rt; folder.why() == Some(Reason::Irregular));
    assert!(rt; folder.open("folder").is_err());
    assert!(rt; folder.failures() == 2);
    let _ = fs::remove_dir_all(&rt, path);
}

#[test]
fn a_full_device_is_told(rt: HostRuntime) {
    let full = io::Error::from(ErrorKind::StorageFull);
    assert!(rt; Reason::of(&full) == Reason::Full);
    assert!(rt; Reason::Full.text() == "No space left on device");
}
