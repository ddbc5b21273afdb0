//! Rounds over files in memory and in a real folder.

use case_commits::{INPUT, KINDS, REPLIES, SECOND, SECOND_REPLY};
use gix_ref_file::{Files, MemoryFiles};
use gix_ref_folder::{Disk, Folder, Part};
use history::{Bytes, Collected, End, Kind, create};
use history_rounds::{round, round_after};
use std::alloc::Global;
use std::process::{self, Abort};
use std::test::Fail;
use std::{env, fs};

// Makes a repository of two empty parts; stops if a round, and one after it, don't reply as one run
// does.
fn check_rounds<F: Files + Drop>(rt: &impl Abort, alloc: Global, kind: Kind, parts: (F, F)) {
    let (mut objects, mut names) = parts;
    assert!(rt; create(alloc, &mut objects, &mut names, kind).is_ok());
    let mut replies = Collected::new(alloc);
    let mut reader = Bytes::new(INPUT);
    let Ok(made) = round(alloc, objects, names, kind, &mut reader, &mut replies) else {
        panic!(rt; "no round")
    };
    assert!(rt; made.ended == Ok(End::Input) && replies.as_slice() == REPLIES.of(kind));
    let (objects, names) = (made.objects, made.names);
    let mut replies = Collected::new(alloc);
    let mut reader = Bytes::new(SECOND);
    let Ok(made) = round_after(alloc, objects, names, kind, &mut reader, &mut replies) else {
        panic!(rt; "no round after it")
    };
    assert!(rt; made.ended == Ok(End::Input) && replies.as_slice() == SECOND_REPLY.of(kind));
}

#[test]
fn rounds_in_memory(rt: HostRuntime) {
    let alloc = rt.alloc();
    for kind in KINDS {
        let parts = (MemoryFiles::new(alloc), MemoryFiles::new(alloc));
        check_rounds(&rt, alloc, kind, parts);
    }
}

#[test]
fn rounds_in_a_folder(rt: HostRuntime) -> Result<(), Fail> {
    let alloc = rt.alloc();
    let place = env::temp_dir(&rt)?;
    let number = process::id(rt.process());
    let root = format!(in alloc; "{}/history-rounds-{number}", place.as_str())?;
    for kind in KINDS {
        fs::create_dir(&rt, root.as_str())?;
        let objects = Folder::new(alloc, Disk::new(&rt), root.clone()?, Part::Objects);
        let names = Folder::new(alloc, Disk::new(&rt), root.clone()?, Part::Names);
        check_rounds(&rt, alloc, kind, (objects, names));
        fs::remove_dir_all(&rt, root.as_str())?;
    }
    Ok(())
}
