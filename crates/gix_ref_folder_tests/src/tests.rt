//! What a folder over a system in memory does.

use crate::memory::{folder_in_memory, system_in_memory};
use crate::over_files::OverFiles;
use crate::rows::ROWS;
use case_words::{Page, call_by};
use gix_ref_file::{Files, MemoryFiles};
use gix_ref_folder::{Folder, LastCall, Part, System};
use gix_ref_fuse::Fuse;
use std::alloc::{AllocError, Global};
use std::io::{self, ErrorKind};
use std::rc::Rc;
use std::test::Fail;

const ROOT: &str = "repository";

// Returns what the words return over the two parts of a folder.
fn play(alloc: Global, line: &str) -> Result<String, AllocError> {
    let mut objects = folder_in_memory(alloc, ROOT, Part::Objects)?;
    let mut names = folder_in_memory(alloc, ROOT, Part::Names)?;
    let mut page = Page::new(alloc);
    for word in line.split(' ') {
        let done = match word.split_once(':') {
            Some(("o", call)) => call_by(alloc, &mut objects, call, &mut page),
            Some(("n", call)) => call_by(alloc, &mut names, call, &mut page),
            _ => None,
        };
        if done.is_none() {
            page.word("unread");
        }
    }
    page.finish()
}

// Returns what the words return over one part.
fn play_on<S: System>(
    alloc: Global,
    folder: &mut Folder<S>,
    line: &str,
) -> Result<String, AllocError> {
    let mut page = Page::new(alloc);
    for word in line.split(' ') {
        if call_by(alloc, folder, word, &mut page).is_none() {
            page.word("unread");
        }
    }
    page.finish()
}

#[test]
fn a_folder_in_memory_is_written_and_read(rt: HostRuntime) -> Result<(), Fail> {
    let alloc = rt.alloc();
    let mut names = folder_in_memory(alloc, "repository", Part::Names)?;
    names.write(alloc, b"HEAD", b"ref: refs/heads/main\n")?;
    let mut text = Vec::new(alloc);
    let count = names.read(b"HEAD", &mut text)?;
    assert_eq!(rt; count, Some(21));
    assert_eq!(rt; text.as_slice(), b"ref: refs/heads/main\n".as_slice());
    Ok(())
}

#[test]
fn rows_over_memory_are_those_over_a_disk(rt: HostRuntime) -> Result<(), Fail> {
    for (words, wanted) in ROWS {
        let returned = play(rt.alloc(), words)?;
        assert_eq!(rt; returned.as_str(), wanted, "of {words}");
    }
    Ok(())
}

// Returns a system with a file of each part.
fn filled(alloc: Global) -> io::Result<OverFiles<MemoryFiles>> {
    let mut system = system_in_memory(alloc, String::from_str(alloc, ROOT)?);
    system.make_folder("repository/objects")?;
    system.write("repository/objects/ab", b"blob")?;
    system.create_new("repository/HEAD", b"re")?;
    system.append("repository/HEAD", b"f")?;
    Ok(system)
}

#[test]
fn each_part_of_one_system_is_shown_alone(rt: HostRuntime) -> Result<(), Fail> {
    let alloc = rt.alloc();
    let words = "list:- kind:objects kind:objects/ab read:HEAD";
    for (part, wanted) in [
        (Part::Objects, "names:objects folder file:4 none:so%20"),
        (Part::Names, "names:HEAD absent absent 3:so%20ref"),
    ] {
        let root = String::from_str(alloc, ROOT)?;
        let mut folder = Folder::new(alloc, filled(alloc)?, root, part);
        let returned = play_on(alloc, &mut folder, words)?;
        assert_eq!(rt; returned.as_str(), wanted);
    }
    Ok(())
}

// Returns the kind of the error that was returned.
fn kind_of<T: Drop>(returned: io::Result<T>) -> Option<ErrorKind> {
    match returned {
        Ok(_) => None,
        Err(error) => Some(error.kind()),
    }
}

#[test]
fn a_system_says_why_it_fails(rt: HostRuntime) -> Result<(), Fail> {
    let alloc = rt.alloc();
    let mut system = filled(alloc)?;
    let mut buffer = [0u8; 4];
    assert!(rt; kind_of(system.kind("repository/none")) == Some(ErrorKind::NotFound));
    assert!(rt; kind_of(system.kind("elsewhere/HEAD")) == Some(ErrorKind::NotFound));
    assert_eq!(rt; system.read_at("repository/HEAD", 1, &mut buffer)?, Some(2));
    assert_eq!(rt; buffer.as_slice(), b"ef\0\0".as_slice());
    assert!(rt; system.read(alloc, "repository/objects", 0)?.is_none());
    assert!(rt; system.read(alloc, "repository/HEAD", 3)?.is_some());
    assert!(rt; kind_of(system.read(alloc, "repository/HEAD", 2)) == Some(ErrorKind::FileTooLarge));
    assert!(rt; kind_of(system.read(alloc, "elsewhere/HEAD", 3)) == Some(ErrorKind::NotFound));
    assert!(rt; kind_of(system.list_root(alloc, "elsewhere")) == Some(ErrorKind::NotFound));
    assert!(rt;
        kind_of(system.create_new("repository/HEAD", b"")) == Some(ErrorKind::AlreadyExists)
    );
    assert!(rt; kind_of(system.write("elsewhere/HEAD", b"x")) == Some(ErrorKind::NotFound));
    assert!(rt;
        kind_of(system.rename("repository/HEAD", "repository/objects/x"))
            == Some(ErrorKind::CrossesDevices)
    );
    assert!(rt; kind_of(system.remove_folder("repository/objects")) == Some(ErrorKind::Other));
    Ok(())
}

/// The call of the names' files that fails, what it leaves of its bytes, words, and what they
/// return.
const FAILING: [(u64, Option<usize>, &str, &str); 14] = [
    (
        1,
        None,
        "create:HEAD create:HEAD create:HEAD",
        "failed done stands",
    ),
    (
        1,
        None,
        "folder:refs folder:refs list:-",
        "failed done names:refs",
    ),
    (
        2,
        None,
        "write:HEAD:ref kind:HEAD kind:HEAD",
        "done failed file:3",
    ),
    (
        2,
        None,
        "write:HEAD:ref list:- list:-",
        "done failed names:HEAD",
    ),
    (
        2,
        None,
        "write:HEAD:ref read:HEAD read:HEAD",
        "done failed 3:so%20ref",
    ),
    (
        2,
        None,
        "write:HEAD:ref read-at:HEAD:1 read-at:HEAD:1",
        "done failed 2:ef....",
    ),
    (
        2,
        None,
        "folder:refs list:refs list:refs",
        "done failed names",
    ),
    (
        1,
        Some(2),
        "create:HEAD:ref read:HEAD create:HEAD:x",
        "failed 2:so%20re stands",
    ),
    (
        2,
        Some(2),
        "write:HEAD:ref write:HEAD:longer read:HEAD",
        "done failed 2:so%20lo",
    ),
    (
        2,
        Some(1),
        "write:HEAD:ref append:HEAD:more read:HEAD",
        "done failed 4:so%20refm",
    ),
    (
        2,
        None,
        "write:HEAD:ref rename:HEAD:new list:-",
        "done failed names:HEAD",
    ),
    (
        3,
        None,
        "write:HEAD:ref folder:refs rename:HEAD:new list:-",
        "done done failed names:HEAD:refs",
    ),
    (
        4,
        None,
        "write:HEAD:ref folder:refs rename:HEAD:new list:-",
        "done done failed names:HEAD:refs",
    ),
    (
        2,
        None,
        "write:HEAD:ref remove:HEAD remove:HEAD",
        "done failed done",
    ),
];

// Returns a folder in memory whose names' files fail at a call, which is kept in `last`.
fn failing_folder(
    alloc: Global,
    call: u64,
    kept: Option<usize>,
    last: &Rc<LastCall>,
) -> Result<Folder<OverFiles<Fuse<MemoryFiles>>>, AllocError> {
    let objects = Fuse::failing_at(MemoryFiles::new(alloc), 0, None);
    let names = Fuse::failing_at(MemoryFiles::new(alloc), call, kept);
    let system = OverFiles::new(alloc, String::from_str(alloc, ROOT)?, objects, names);
    let root = String::from_str(alloc, ROOT)?;
    let mut folder = Folder::new(alloc, system, root, Part::Names);
    folder.share(last.clone()?);
    Ok(folder)
}

#[test]
fn a_failed_call_is_no_absence(rt: HostRuntime) -> Result<(), Fail> {
    let alloc = rt.alloc();
    for (call, kept, words, wanted) in FAILING {
        let last = Rc::new(alloc, LastCall::new(alloc))?;
        let mut folder = failing_folder(alloc, call, kept, &last)?;
        let returned = play_on(alloc, &mut folder, words)?;
        assert_eq!(rt; returned.as_str(), wanted, "of {words}, at {call}");
        // A failure before a file was made was passed over.
        let why = if wanted.ends_with("done stands") {
            b": File exists".as_slice()
        } else {
            b": the files failed".as_slice()
        };
        assert!(rt; last.cause().text(alloc)?.ends_with(why), "of {words}");
    }
    Ok(())
}

/// The call of the names' files that fails, words, the call that explains a fault after them, and
/// the last change that failed.
const EXPLAINED: [(u64, &str, &str, &str); 5] = [
    // What is missing or can't be looked at is the source.
    (
        3,
        "write:HEAD:ref folder:refs rename:HEAD:new",
        "HEAD: the files failed",
        "HEAD: the files failed",
    ),
    (
        9,
        "rename:none:new remove:other",
        "none: No such file or directory",
        "other: the files failed",
    ),
    // The rename itself failed.
    (
        4,
        "write:HEAD:ref folder:refs rename:HEAD:new read:HEAD",
        "new: the files failed",
        "new: the files failed",
    ),
    // What failed first explains what failed later.
    (
        2,
        "write:HEAD:ref read:HEAD remove:none remove:HEAD",
        "HEAD: the files failed",
        "none: the files failed",
    ),
    // A file that was made shows that what failed before was passed over.
    (
        1,
        "create:HEAD create:HEAD remove:none",
        "none: the files failed",
        "none: the files failed",
    ),
];

#[test]
fn the_first_call_that_failed_explains_a_fault(rt: HostRuntime) -> Result<(), Fail> {
    let alloc = rt.alloc();
    for (call, words, wanted, wanted_change) in EXPLAINED {
        let last = Rc::new(alloc, LastCall::new(alloc))?;
        let mut folder = failing_folder(alloc, call, None, &last)?;
        let _ = play_on(alloc, &mut folder, words)?;
        let told = last.cause().text(alloc)?;
        assert!(rt;
            told.as_slice() == wanted.as_bytes(),
            "of {words}, at {call}"
        );
        let told = match folder.last_failure() {
            Some(failure) => failure.text(alloc)?,
            None => Vec::new(alloc),
        };
        assert!(rt;
            told.as_slice() == wanted_change.as_bytes(),
            "of {words}, at {call}"
        );
        last.forget();
        assert!(rt; last.cause().path().is_empty());
    }
    Ok(())
}

#[test]
fn objects_that_were_read_are_kept(rt: HostRuntime) -> Result<(), Fail> {
    let alloc = rt.alloc();
    let root = String::from_str(alloc, ROOT)?;
    let mut folder = Folder::new(alloc, filled(alloc)?, root, Part::Objects);
    let last = Rc::new(alloc, LastCall::new(alloc))?;
    folder.share(last.clone()?);
    let _ = play_on(
        alloc,
        &mut folder,
        "read:objects/ab kind:objects read-at:objects/ab:0",
    )?;
    let kept = last.take_objects();
    assert!(rt; kept.as_slice() == b"objects/ab\nobjects/ab\n".as_slice());
    assert!(rt; last.take_objects().is_empty());
    // A call that failed explains a fault without them.
    let _ = play_on(alloc, &mut folder, "read:objects/ab read:objects/none")?;
    assert!(rt; last.take_objects().is_empty());
    let told = last.cause().text(alloc)?;
    assert!(rt; told.as_slice() == b"objects/none: nothing is there".as_slice());
    Ok(())
}

#[test]
fn a_file_that_is_too_long_for_a_name_is_not_read(rt: HostRuntime) -> Result<(), Fail> {
    let alloc = rt.alloc();
    let mut names = folder_in_memory(alloc, ROOT, Part::Names)?;
    let last = Rc::new(alloc, LastCall::new(alloc))?;
    names.share(last.clone()?);
    names.make_folder(alloc, b"refs")?;
    for path in [b"HEAD".as_slice(), b"refs/a".as_slice()] {
        let mut text = Vec::new(alloc);
        let mut out = Vec::new(alloc);
        text.resize(4103, b'a')?;
        names.write(alloc, path, &text)?;
        assert!(rt; names.read(path, &mut out).is_err());
        assert!(rt; out.is_empty());
        assert!(rt; last.cause().text(alloc)?.ends_with(b": File too large"));
        last.forget();
        text.truncate(4102);
        names.write(alloc, path, &text)?;
        assert_eq!(rt; names.read(path, &mut out)?, Some(4102));
        text.push(b'a')?;
        names.write(alloc, b"packed-refs", &text)?;
        assert_eq!(rt; names.read(b"packed-refs", &mut out)?, Some(4103));
    }
    Ok(())
}
