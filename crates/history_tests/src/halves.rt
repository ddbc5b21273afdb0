//! The two halves of a command that changes files, each called by itself.

use case_commits::{INPUT, KINDS, REPLIES, first_command};
use gix_ref_file::MemoryFiles;
use gix_ref_fuse::Fuse;
use history::{
    Bytes, Cause, Collected, Command, End, Fault, Kind, Moves, Repository, Source, Stopped, create,
    run,
};
use std::alloc::Global;
use std::process::Abort;

/// More calls than either part gets.
const MANY: u64 = 60;

/// Returns a new repository over parts each of which fails at the call of its number; `None` if
/// opening it makes that call.
fn fresh(
    alloc: Global,
    kind: Kind,
    in_objects: u64,
    in_names: u64,
) -> Option<Repository<Fuse<MemoryFiles>>> {
    let mut objects = MemoryFiles::new(alloc);
    let mut names = MemoryFiles::new(alloc);
    create(alloc, &mut objects, &mut names, kind).ok()?;
    let objects = Fuse::failing_at(objects, in_objects, None);
    let names = Fuse::failing_at(names, in_names, None);
    Repository::open(alloc, objects, names, kind).ok()
}

/// Returns what a run over this input writes, and how it ends.
fn answer(
    alloc: Global,
    repository: &mut Repository<Fuse<MemoryFiles>>,
    input: &[u8],
) -> (Collected, Option<End>) {
    let mut written = Collected::new(alloc);
    let ended = run(alloc, &mut Bytes::new(input), &mut written, repository);
    (written, ended.ok())
}

/// Stops if the repository hasn't failed, or a run over it reads or writes.
fn check_failed(
    rt: &impl Abort,
    alloc: Global,
    mut repository: Repository<Fuse<MemoryFiles>>,
    call: u64,
) {
    assert!(rt; repository.has_failed(), "at {call}");
    let mut reader = Bytes::new(b"names\n");
    let mut written = Collected::new(alloc);
    let ended = run(alloc, &mut reader, &mut written, &mut repository);
    assert!(rt;
        ended == Ok(End::Fault) && written.as_slice().is_empty(),
        "at {call}"
    );
    let mut unread = [0u8; 8];
    assert!(rt; matches!(reader.read(&mut unread), Ok(6)) && unread.starts_with(b"names\n"));
}

/// The half of a commit in which a call failed.
#[derive(Clone, Copy, PartialEq, Eq)]
enum Met {
    /// None: it came before them, or after.
    Neither,
    Storing,
    Moving,
}

/// Tries the halves of a commit over parts that fail so.
fn try_halves(rt: &impl Abort, alloc: Global, kind: Kind, in_objects: u64, in_names: u64) -> Met {
    let call = in_objects.max(in_names);
    let Some(mut repository) = fresh(alloc, kind, in_objects, in_names) else {
        return Met::Neither;
    };
    let command = first_command(alloc, INPUT).expect(rt, "no command");
    let moves = match repository.store_objects(alloc, command) {
        Ok(moves) => moves,
        Err(stopped) => {
            assert!(rt; matches!(stopped, Stopped::Fault(Fault::File)), "at {call}");
            check_failed(rt, alloc, repository, call);
            return Met::Storing;
        }
    };
    assert!(rt; !repository.has_failed(), "at {call}");
    match repository.move_names(alloc, moves) {
        Ok(()) => {
            assert!(rt; !repository.has_failed(), "at {call}");
            Met::Neither
        }
        Err(fault) => {
            assert!(rt; matches!(fault, Fault::File), "at {call}");
            check_failed(rt, alloc, repository, call);
            Met::Moving
        }
    }
}

// Between the halves no name has moved, and after both the commit is read.
#[test]
fn the_halves_make_a_commit(rt: HostRuntime) {
    let alloc = rt.alloc();
    for kind in KINDS {
        let Some(mut repository) = fresh(alloc, kind, 0, 0) else {
            panic!(rt; "not opened")
        };
        let command = first_command(alloc, INPUT).expect(&rt, "no command");
        let Ok(moves) = repository.store_objects(alloc, command) else {
            panic!(rt; "not stored")
        };
        let (written, _) = answer(alloc, &mut repository, b"names\n");
        assert!(rt; written.as_slice() == b"ok names 0 refs/heads/main\n".as_slice());
        assert!(rt; repository.move_names(alloc, moves).is_ok());
        let reads = b"files main\nshow main path 1\na\n";
        let (written, ended) = answer(alloc, &mut repository, reads);
        assert!(rt; ended == Some(End::Input) && written.as_slice().starts_with(b"ok files 1\n"));
        assert!(rt; REPLIES.of(kind).ends_with(written.as_slice()));
    }
}

// What is refused, and what changes no file, leaves a repository that takes further commands.
#[test]
fn a_refusal_fails_no_repository(rt: HostRuntime) {
    let alloc = rt.alloc();
    for kind in KINDS {
        let Some(mut repository) = fresh(alloc, kind, 0, 0) else {
            panic!(rt; "not opened")
        };
        let (written, _) = answer(alloc, &mut repository, INPUT);
        assert!(rt; written.as_slice() == REPLIES.of(kind));
        let command = first_command(alloc, INPUT).expect(&rt, "no command");
        let refused = repository.store_objects(alloc, command).err();
        assert!(rt; matches!(refused, Some(Stopped::Refused(Cause::Taken))));
        let nothing = repository.store_objects(alloc, Command::Index);
        assert!(rt; matches!(nothing, Ok(Moves::Nothing)));
        assert!(rt; repository.move_names(alloc, Moves::Nothing).is_ok());
        assert!(rt; !repository.has_failed());
        let (_, ended) = answer(alloc, &mut repository, b"names\n");
        assert!(rt; ended == Some(End::Input));
    }
}

// After a failed call in either half the repository has failed, and a run reads and writes nothing.
#[test]
fn a_fault_in_a_half_fails_the_repository(rt: HostRuntime) {
    for kind in KINDS {
        let (mut storing, mut moving) = (false, false);
        for call in 1..MANY {
            storing |= try_halves(&rt, rt.alloc(), kind, call, 0) == Met::Storing;
            moving |= try_halves(&rt, rt.alloc(), kind, 0, call) == Met::Moving;
        }
        assert!(rt; storing && moving);
        assert!(rt; try_halves(&rt, rt.alloc(), kind, MANY, 0) == Met::Neither);
        assert!(rt; try_halves(&rt, rt.alloc(), kind, 0, MANY) == Met::Neither);
    }
}
