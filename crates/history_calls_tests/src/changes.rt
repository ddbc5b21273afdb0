//! What a change of names costs and reads, and what comes of another writer's lock.
//! No contract counts calls, and the files of a contract have one writer: so these must be tested.

use crate::watched::{THEIRS, Watched};
use case_commits::{
    ByKind, INPUT, KINDS, SECOND, SECOND_REPLY, TWO_BRANCHES, first_command, parts_after,
};
use gix_ref_file::paths::joined;
use gix_ref_file::{FileError, Files, MemoryFiles, Place};
use gix_ref_fuse::Fuse;
use history::{Bytes, Collected, End, Kind, Repository, recover, run};
use history_store::PACKED;
use std::alloc::Global;
use std::process::Abort;
use std::test::Fail;

// The name's log: whether it is a file, and its line. Whether the name is a file. Its lock made,
// written and renamed. The name's file read, for what it holds.
const OF_A_NAME: u64 = 7;

const TWO_NAMES: &[u8] =
    b"move\nto refs/heads/main any other\nto refs/heads/other any main\nactor 1 3 6 +0000\nA\na@b\nmessage 4\nmove\nend\n";

// Returns how many calls on the names part a command makes, with the moves of its names or before.
fn calls(rt: &impl Abort, alloc: Global, made: &[u8], input: &[u8], moves: bool) -> u64 {
    let (objects, names) = parts_after(alloc, Kind::Sha1, &[made]).expect(rt, "no parts");
    let objects = Fuse::failing_at(objects, 0, None);
    let names = Fuse::failing_at(names, 0, None);
    let Ok(mut repository) = Repository::open(alloc, objects, names, Kind::Sha1) else {
        panic!(rt; "not opened")
    };
    let command = first_command(alloc, input).expect(rt, "no command");
    let Ok(planned) = repository.store_objects(alloc, command) else {
        panic!(rt; "not stored")
    };
    if moves {
        assert!(rt; repository.move_names(alloc, planned).is_ok());
    }
    repository.into_parts().1.calls()
}

#[test]
fn a_name_moves_by_few_calls(rt: HostRuntime) {
    let alloc = rt.alloc();
    for (made, input, names) in [(INPUT, SECOND, 1), (TWO_BRANCHES, TWO_NAMES, 2)] {
        let before = calls(&rt, alloc, made, input, false);
        let met = calls(&rt, alloc, made, input, true).saturating_sub(before);
        assert!(rt; met <= OF_A_NAME.saturating_mul(names), "{met} of {names}");
    }
}

const MANY_COMMITS: u64 = 100;

// Writes the records of 400 names that hold the commit which `INPUT` makes.
fn write_records(alloc: Global, names: &mut MemoryFiles) -> Result<(), Fail> {
    let header = b"# pack-refs with: peeled fully-peeled sorted \n";
    let mut text = Vec::from_slice(alloc, header)?;
    for number in 1000..1400 {
        let line = format!(in alloc;
            "66685e2ab14c48f6b22dfeca748179d40cfc74f0 refs/tags/{number}\n"
        )?;
        text.extend_from_slice(line.as_bytes())?;
    }
    names.write(alloc, PACKED, &text)?;
    Ok(())
}

// An opening sees how long `packed-refs` is, reads it once, lists the folder and sees what it is.
const OF_AN_OPENING: u64 = 3;

#[test]
fn an_opening_alone_reads_records(rt: HostRuntime) -> Result<(), Fail> {
    let alloc = rt.alloc();
    let (objects, mut names) = parts_after(alloc, Kind::Sha1, &[INPUT]).ok_or("no parts")?;
    write_records(alloc, &mut names)?;
    let opened = open(&rt, alloc, Kind::Sha1, objects, names, b"");
    let (objects, names) = opened.into_parts();
    let once = names.readings();
    let (objects, names) = (objects.into_inner(), names.into_inner());
    let mut repository = open(&rt, alloc, Kind::Sha1, objects, names, b"");
    for _ in 0..MANY_COMMITS {
        let (replies, ended) = answer(alloc, &mut repository, SECOND);
        assert!(rt; ended == Some(End::Input) && replies.as_slice().starts_with(b"ok commit "));
    }
    let met = repository.into_parts().1.readings();
    assert!(rt; once == OF_AN_OPENING && met == once, "{met} for {once}");
    Ok(())
}

// Opens two parts, beside which another writer makes a lock of names.
fn open(
    rt: &impl Abort,
    alloc: Global,
    kind: Kind,
    objects: MemoryFiles,
    names: MemoryFiles,
    lock: &'static [u8],
) -> Repository<Watched> {
    let objects = Watched::new(objects, b"");
    let names = Watched::new(names, lock);
    match Repository::open(alloc, objects, names, kind) {
        Ok(repository) => repository,
        Err(_) => panic!(rt; "not opened"),
    }
}

// Returns what a run over this input writes, and how it ends.
fn answer<F: Files>(
    alloc: Global,
    repository: &mut Repository<F>,
    input: &[u8],
) -> (Collected, Option<End>) {
    let mut written = Collected::new(alloc);
    let ended = run(alloc, &mut Bytes::new(input), &mut written, repository);
    (written, ended.ok())
}

// The folders of a names part; none of these tests makes any other.
const FOLDERS: [&[u8]; 6] = [
    b"",
    b"refs",
    b"refs/heads",
    b"logs",
    b"logs/refs",
    b"logs/refs/heads",
];

// Returns the path of each file and folder in a names part, with what it holds.
fn all_files(alloc: Global, names: &MemoryFiles) -> Result<Vec<u8>, FileError> {
    let mut all = Vec::new(alloc);
    for folder in FOLDERS {
        for name in &names.list(alloc, folder)? {
            let path = joined(alloc, folder, name)?;
            all.extend_from_slice(&path)?;
            all.push(b'\n')?;
            names.read(&path, &mut all)?;
        }
    }
    Ok(all)
}

#[derive(Drop)]
struct Locked {
    lock: &'static [u8],
    // What is done before, after a first commit.
    made: &'static [u8],
    input: &'static [u8],
    reply: ByKind,
}

const COMMIT: Locked = Locked {
    lock: b"refs/heads/main.lock",
    made: b"",
    input: SECOND,
    reply: SECOND_REPLY,
};

const SWITCH: Locked = Locked {
    lock: b"HEAD.lock",
    made: b"",
    input: b"switch refs/heads/other\n",
    reply: ByKind {
        sha1: b"ok switch\n",
        sha256: b"ok switch\n",
    },
};

const DELETE: Locked = Locked {
    lock: b"packed-refs.lock",
    made: b"pack\n",
    input: b"delete refs/heads/main any\n",
    reply: ByKind {
        sha1: b"ok delete\n",
        sha256: b"ok delete\n",
    },
};

// The command is a fault and changes nothing, the lock is there until it is recovered, and then the
// command is done.
fn check_locked(rt: &impl Abort, alloc: Global, kind: Kind, it: &Locked) -> Result<(), Fail> {
    let (mut objects, mut names) = parts_after(alloc, kind, &[INPUT, it.made]).ok_or("no parts")?;
    names.write(alloc, it.lock, THEIRS)?;
    let wanted = all_files(alloc, &names)?;
    assert!(rt; recover(alloc, &mut objects, &mut names, kind).is_ok());
    assert!(rt; names.kind_of(it.lock)? == Place::Absent);
    let recovered = all_files(alloc, &names)?;
    let (objects, names) = parts_after(alloc, kind, &[INPUT, it.made]).ok_or("no parts")?;
    let mut repository = open(rt, alloc, kind, objects, names, it.lock);
    let (reply, ended) = answer(alloc, &mut repository, it.input);
    assert!(rt; ended == Some(End::Fault) && reply.as_slice() == b"fault File\n".as_slice());
    let (objects, names) = repository.into_parts();
    let (mut objects, mut names) = (objects.into_inner(), names.into_inner());
    assert!(rt; all_files(alloc, &names)? == wanted);
    assert!(rt; recover(alloc, &mut objects, &mut names, kind).is_ok());
    assert!(rt; all_files(alloc, &names)? == recovered);
    let mut repository = open(rt, alloc, kind, objects, names, b"");
    let (reply, ended) = answer(alloc, &mut repository, it.input);
    assert!(rt; ended == Some(End::Input) && reply.as_slice() == it.reply.of(kind));
    Ok(())
}

#[test]
fn a_lock_of_others_is_kept(rt: HostRuntime) -> Result<(), Fail> {
    for kind in KINDS {
        for it in [COMMIT, SWITCH, DELETE] {
            check_locked(&rt, rt.alloc(), kind, &it)?;
        }
    }
    Ok(())
}
