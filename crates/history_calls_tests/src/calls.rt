//! How few calls of the files an object takes that is put, and how few a commit.
//! No contract counts calls, so this must be tested.

use gix_ref_file::{Files, MemoryFiles};
use gix_ref_fuse::Fuse;
use history::{Bytes, Collected, End, Kind, Repository, create, run};
use history_store::{ObjectKind, Objects, PutError};
use std::alloc::Global;
use std::process::Abort;

// A blob, another of the same folder, and one of another folder.
const HELLO: &[u8] = b"hello";

const BESIDE: &[u8] = b"hello 345";

const ELSEWHERE: &[u8] = b"world";

// The folder of the first two.
const FOLDER: &[u8] = b"objects/b6";

// While no folder is known: whether `objects` exists, it, its folder, its text, its place. Or, of
// what exists already: whether `objects` does, whether its folder does, and its folder or whether a
// file is at its place.
const THE_FIRST: u64 = 5;

// Whether its folder exists, its folder, its text, its place.
const IN_A_NEW_FOLDER: u64 = 4;

// Whether a file is at its place, its text, its place: its folder was seen.
const IN_A_FOLDER: u64 = 3;

// Whether a file is at its place, what it holds.
const STORED_ALREADY: u64 = 2;

// A blob, three trees and the commit, none of which has a folder before; nothing is read.
const OF_A_FIRST_COMMIT: u64 = THE_FIRST + 4 * IN_A_NEW_FOLDER;

const COMMIT: &[u8] =
    b"commit refs/heads/main new\nput file 5 5\na/b/c\nhello\nauthor 1 3 1 +0000\nA\na@b\ncommitter 1 3 1 +0000\nA\na@b\nmessage 3\none\nend\n";

// Returns how many calls of the files it takes to put a blob.
fn calls_of_putting(
    objects: &mut Objects<Fuse<MemoryFiles>>,
    alloc: Global,
    text: &[u8],
) -> Result<u64, PutError> {
    let before = objects.files().calls();
    objects.put(alloc, ObjectKind::Blob, text.to_vec(alloc)?)?;
    Ok(objects.files().calls().saturating_sub(before))
}

// A part that has these folders and no file, of which this call fails.
fn part_with<R: Abort>(rt: &R, alloc: Global, folders: &[&[u8]], fails: u64) -> Fuse<MemoryFiles> {
    let mut files = MemoryFiles::new(alloc);
    for folder in folders {
        assert!(rt; files.make_folder(alloc, folder).is_ok());
    }
    Fuse::failing_at(files, fails, None)
}

// Puts blobs into a part that has these folders and no file.
fn check_puts<R: Abort>(rt: &R, alloc: Global, folders: &[&[u8]]) -> Result<(), PutError> {
    let files = part_with(rt, alloc, folders, 0);
    let mut objects = Objects::new(alloc, files, Kind::Sha1);
    for (text, most) in [
        (HELLO, THE_FIRST),
        (BESIDE, IN_A_FOLDER),
        (ELSEWHERE, IN_A_NEW_FOLDER),
        (HELLO, STORED_ALREADY),
    ] {
        let met = calls_of_putting(&mut objects, alloc, text)?;
        assert!(rt; met <= most, "{met} for {most}");
    }
    Ok(())
}

#[test]
fn an_object_takes_few_calls(rt: HostRuntime) -> Result<(), PutError> {
    let alloc = rt.alloc();
    let root = b"objects".as_slice();
    check_puts(&rt, alloc, &[])?;
    check_puts(&rt, alloc, &[root])?;
    check_puts(&rt, alloc, &[root, FOLDER])
}

#[test]
fn a_folder_that_opening_saw_is_not_looked_up(rt: HostRuntime) -> Result<(), PutError> {
    let alloc = rt.alloc();
    let files = part_with(&rt, alloc, &[b"objects".as_slice(), FOLDER], 0);
    let Ok(mut objects) = Objects::open(alloc, files, Kind::Sha1) else {
        panic!(rt; "not opened")
    };
    let met = calls_of_putting(&mut objects, alloc, HELLO)?;
    assert!(rt; met == IN_A_FOLDER, "{met}");
    let met = calls_of_putting(&mut objects, alloc, ELSEWHERE)?;
    assert!(rt; met == IN_A_NEW_FOLDER, "{met}");
    Ok(())
}

// The first put fails as it writes the text: its folder was made.
#[test]
fn a_folder_that_a_failed_put_made_is_not_looked_up(rt: HostRuntime) -> Result<(), PutError> {
    let alloc = rt.alloc();
    let files = part_with(&rt, alloc, &[], THE_FIRST - 1);
    let mut objects = Objects::new(alloc, files, Kind::Sha1);
    let failed = calls_of_putting(&mut objects, alloc, HELLO);
    assert!(rt; matches!(failed, Err(PutError::File)));
    let met = calls_of_putting(&mut objects, alloc, HELLO)?;
    assert!(rt; met == IN_A_FOLDER, "{met}");
    Ok(())
}

// Returns how many calls on the objects part a run makes over a new repository.
fn calls(alloc: Global, input: &[u8]) -> Option<u64> {
    let mut objects = MemoryFiles::new(alloc);
    let mut names = MemoryFiles::new(alloc);
    create(alloc, &mut objects, &mut names, Kind::Sha1).ok()?;
    let objects = Fuse::failing_at(objects, 0, None);
    let names = Fuse::failing_at(names, 0, None);
    let mut repository = Repository::open(alloc, objects, names, Kind::Sha1).ok()?;
    let mut written = Collected::new(alloc);
    let ended = run(alloc, &mut Bytes::new(input), &mut written, &mut repository);
    let (objects, _) = repository.into_parts();
    match ended {
        Ok(End::Input) => Some(objects.calls()),
        _ => None,
    }
}

#[test]
fn a_commit_takes_few_calls(rt: HostRuntime) {
    let alloc = rt.alloc();
    let (Some(before), Some(after)) = (calls(alloc, b""), calls(alloc, COMMIT)) else {
        panic!(rt; "no run")
    };
    let made = after.saturating_sub(before);
    assert!(rt; made <= OF_A_FIRST_COMMIT, "{made}");
}
