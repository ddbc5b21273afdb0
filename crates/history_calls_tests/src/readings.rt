//! How many objects a command and an opening read: each once, however much leads to it.

use case_commits::{KINDS, TWO_BRANCHES, first_command, parts_after};
use gix_ref_file::paths::joined;
use gix_ref_file::{Files, MemoryFiles};
use gix_ref_fuse::Fuse;
use history::{Bytes, Collected, Command, End, Graph, Kind, Repository as Whole, run};
use history_plans::{names_to_pack, plan_commit, plan_moves, plan_tag, test_delete};
use history_queries::{all_rows, list_files, list_names, log, show};
use history_repository::Repository;
use std::alloc::{AllocError, Global};
use std::process::Abort;

/// The commit, the root, and the folders `a` and `a/b`.
const CHANGED: (&[u8], u64) = (
    b"commit refs/heads/main any\nput file 5 3\na/b/c\nbye\nauthor 1 3 3 +0000\nA\na@b\ncommitter 1 3 3 +0000\nA\na@b\nmessage 5\nthree\nend\n",
    4,
);

/// The same, on a new name.
const BRANCHED: (&[u8], u64) = (
    b"commit refs/heads/new new\nparent main\nput file 5 3\na/b/c\nbye\nauthor 1 3 3 +0000\nA\na@b\ncommitter 1 3 3 +0000\nA\na@b\nmessage 5\nthree\nend\n",
    4,
);

/// Both commits, both roots, and the folder `d` to measure its paths.
const GRAFTED: (&[u8], u64) = (
    b"commit refs/heads/main any\ngraft 1 other 1\nz\nd\nauthor 1 3 3 +0000\nA\na@b\ncommitter 1 3 3 +0000\nA\na@b\nmessage 5\nthree\nend\n",
    5,
);

/// The commit, the root, the folders `a` and `a/b`, and the content.
const SHOWN: (&[u8], u64) = (b"show main path 5\na/b/c\n", 5);

/// The commit.
const SHOWN_COMMIT: (&[u8], u64) = (b"show main\n", 1);

/// The commit, the root, and the folders `a` and `a/b`.
const LISTED: (&[u8], u64) = (b"files main\n", 4);

/// Three more names on the first branch's commit, one of which holds a tag of it. All are packed.
const PACKED_NAMES: &[u8] =
    b"tag refs/tags/v1 new main\ntagger 1 3 3 +0000\nA\na@b\nmessage 3\ntag\nend\nmove\nto refs/heads/a new main\nto refs/heads/b new main\nactor 1 3 4 +0000\nA\na@b\nmessage 4\nmore\nend\npack\n";

/// The same, each in a file of its own.
const LOOSE_NAMES: &[u8] =
    b"tag refs/tags/v2 new main\ntagger 1 3 5 +0000\nA\na@b\nmessage 5\nother\nend\nmove\nto refs/heads/c new main\nto refs/heads/d new main\nactor 1 3 6 +0000\nA\na@b\nmessage 4\nmore\nend\n";

/// A second commit on `main`, a tag of it, and a name that holds the tag's commit.
const LATER: &[u8] =
    b"commit refs/heads/main any\nput file 5 3\na/b/c\nbye\nauthor 1 3 3 +0000\nA\na@b\ncommitter 1 3 3 +0000\nA\na@b\nmessage 5\nthree\nend\ntag refs/tags/v1 new main\ntagger 1 3 4 +0000\nA\na@b\nmessage 3\ntag\nend\nmove\nto refs/heads/same new main\nactor 1 3 5 +0000\nA\na@b\nmessage 4\nsame\nend\n";

/// All names but the tag's move to the other commit, so that the tag's is held by no name; and a
/// second tag of it.
const APART: &[u8] =
    b"move\nto refs/heads/main any other\nto refs/heads/same any other\nactor 1 3 6 +0000\nA\na@b\nmessage 5\napart\nend\ntag refs/tags/v2 new v1\ntagger 1 3 7 +0000\nA\na@b\nmessage 3\ntag\nend\n";

/// The commit, the root, and the folders `a` and `a/b`.
const AT_ITS_TIP: (&[u8], u64) = (
    b"commit refs/heads/main at main\nput file 5 3\na/b/c\nhey\nauthor 1 3 6 +0000\nA\na@b\ncommitter 1 3 6 +0000\nA\na@b\nmessage 4\nfour\nend\n",
    4,
);

/// The same, and the tag.
const AT_ITS_TAG: (&[u8], u64) = (
    b"commit refs/heads/main at v1\nput file 5 3\na/b/c\nhey\nauthor 1 3 6 +0000\nA\na@b\ncommitter 1 3 6 +0000\nA\na@b\nmessage 4\nfour\nend\n",
    5,
);

/// Both commits, the tag, both roots, and the folders `a` and `a/b` to measure their paths.
const GRAFTED_BY_TAG: (&[u8], u64) = (
    b"commit refs/heads/new new\nparent other\ngraft 1 v1 0\nz\n\nauthor 1 3 6 +0000\nA\na@b\ncommitter 1 3 6 +0000\nA\na@b\nmessage 4\nfour\nend\n",
    7,
);

/// Both commits, and the root of the first.
const MERGED: (&[u8], u64) = (
    b"commit refs/heads/main at same\nparent other\nremove 1\nx\nauthor 1 3 6 +0000\nA\na@b\ncommitter 1 3 6 +0000\nA\na@b\nmessage 4\nfour\nend\n",
    3,
);

/// A content at three paths, in two equal folders and beside them, and another at two. Read are the
/// commit and the root, and then compared each content once, the folder once, the root and the
/// commit.
const PUT_THRICE: (&[u8], u64, u64) = (
    b"commit refs/heads/main any\nput file 3 4\nx/c\nsame\nput file 3 4\ny/c\nsame\nput file 1 4\nz\nsame\nput file 1 3\nt\nbye\nput file 1 3\nu\nbye\nauthor 1 3 3 +0000\nA\na@b\ncommitter 1 3 3 +0000\nA\na@b\nmessage 5\nthree\nend\n",
    2,
    5,
);

/// The commit and the root, which stays; and the commit that is made.
const PUT_NOTHING: (&[u8], u64, u64) = (
    b"commit refs/heads/main any\nauthor 1 3 3 +0000\nA\na@b\ncommitter 1 3 3 +0000\nA\na@b\nmessage 5\nthree\nend\n",
    2,
    1,
);

/// The commit, the root, and the folders `a` and `a/b`, which stay; and the content and the commit
/// that is made.
const PUT_AGAIN: (&[u8], u64, u64) = (
    b"commit refs/heads/main any\nput file 5 5\na/b/c\nhello\nauthor 1 3 3 +0000\nA\na@b\ncommitter 1 3 3 +0000\nA\na@b\nmessage 5\nthree\nend\n",
    4,
    2,
);

/// The same of a file that is put, and then removed: its content is stored too.
const PUT_AND_REMOVED: (&[u8], u64, u64) = (
    b"commit refs/heads/main any\nput file 5 3\na/b/d\nbye\nremove 5\na/b/d\nauthor 1 3 3 +0000\nA\na@b\ncommitter 1 3 3 +0000\nA\na@b\nmessage 5\nthree\nend\n",
    4,
    2,
);

/// The commit.
const TAGGED: (&[u8], u64) = (
    b"tag refs/tags/v2 new main\ntagger 1 3 6 +0000\nA\na@b\nmessage 3\ntag\nend\n",
    1,
);

/// The commit, and the tag that the name holds.
const TAGGED_AGAIN: (&[u8], u64) = (
    b"tag refs/tags/v1 at main main\ntagger 1 3 6 +0000\nA\na@b\nmessage 3\nnew\nend\n",
    2,
);

/// Both commits, and the tag.
const MOVED: (&[u8], u64) = (
    b"move\nto refs/heads/main at v1 other\nto refs/heads/other at other main\nto refs/heads/same any other\nactor 1 3 6 +0000\nA\na@b\nmessage 4\nmove\nend\n",
    3,
);

/// The commit.
const DELETED: (&[u8], u64) = (b"delete refs/heads/main at same\n", 1);

/// The tag, and its commit.
const TAG_DELETED: (&[u8], u64) = (b"delete refs/tags/v1 at main\n", 2);

/// The two commits that names hold, and the tag.
const NAMED: (&[u8], u64) = (b"names\n", 3);

/// The same.
const PACKED: (&[u8], u64) = (b"pack\n", 3);

/// The two commits, and both tags.
const PACKED_APART: (&[u8], u64) = (b"pack\n", 4);

/// Both commits of `main`.
const LOGGED: (&[u8], u64) = (b"log breadth all +main\n", 2);

/// The same.
const LOGGED_TOPOLOGICAL: (&[u8], u64) = (b"log topological all +main +same +main\n", 2);

/// The same, and the tag.
const LOGGED_BY_TAG: (&[u8], u64) = (b"log date all +v1 +main +v1\n", 3);

/// All three commits.
const LOGGED_BY_TIME: (&[u8], u64) = (b"log newest all +main -other\n", 3);

/// Both commits of `main`, and of each the root and the folders `a` and `a/b`.
const LOGGED_AT_PATH: (&[u8], u64) = (b"log topological all +main path 5\na/b/c\n", 8);

/// The same.
const LOGGED_BY_FIRST: (&[u8], u64) = (b"log breadth first +main path 5\na/b/c\n", 8);

/// The same, and the tag.
const LOGGED_BY_FIRST_DATE: (&[u8], u64) = (b"log date first +v1 path 5\na/b/c\n", 9);

/// The three commits, and no other object.
const INDEXED: (&[u8], u64) = (b"index\n", 3);

/// A branch whose folders `a` and `b` have the same files, and a commit on it of another file.
const ALIKE: &[u8] =
    b"commit refs/heads/main new\nput file 5 5\na/x/c\nhello\nput file 5 5\nb/x/c\nhello\nauthor 1 3 1 +0000\nA\na@b\ncommitter 1 3 1 +0000\nA\na@b\nmessage 3\none\nend\ncommit refs/heads/main any\nput file 1 4\nd\nmore\nauthor 1 3 2 +0000\nA\na@b\ncommitter 1 3 2 +0000\nA\na@b\nmessage 3\ntwo\nend\n";

/// The commit, the root, and the folders `a` and `a/x`, which are also `b` and `b/x`.
const LISTED_ALIKE: (&[u8], u64) = (b"files main\n", 4);

/// Both commits, both roots, and the folders `a` and `a/x`, which both have.
const LOGGED_ALIKE: (&[u8], u64) = (b"log topological all +main path 5\na/x/c\n", 6);

/// The same, since `b` is `a`.
const LOGGED_AT_BOTH: (&[u8], u64) = (
    b"log topological all +main path 5 path 5\na/x/c\nb/x/c\n",
    6,
);

/// Three commits on `main`: a file is put, removed, and put again.
const BACK_AND_FORTH: &[u8] =
    b"commit refs/heads/main any\nput file 1 4\nd\nmore\nauthor 1 3 2 +0000\nA\na@b\ncommitter 1 3 2 +0000\nA\na@b\nmessage 3\ntwo\nend\ncommit refs/heads/main any\nremove 1\nd\nauthor 1 3 3 +0000\nA\na@b\ncommitter 1 3 3 +0000\nA\na@b\nmessage 5\nthree\nend\ncommit refs/heads/main any\nput file 1 4\nd\nmore\nauthor 1 3 4 +0000\nA\na@b\ncommitter 1 3 4 +0000\nA\na@b\nmessage 4\nfour\nend\n";

/// The four commits, and the two roots that they have in turn.
const LOGGED_BACK_AND_FORTH: (&[u8], u64) = (b"log topological all +main path 1\nd\n", 6);

/// The commit, the root, and the folders `a` and `a/x`, which are also `b` and `b/x`.
const CHANGED_AT_BOTH: (&[u8], u64) = (
    b"commit refs/heads/main any\nput file 5 3\na/x/c\nbye\nput file 5 3\nb/x/c\nhey\nauthor 1 3 3 +0000\nA\na@b\ncommitter 1 3 3 +0000\nA\na@b\nmessage 5\nthree\nend\n",
    4,
);

/// The same: what is grafted and measured is the base's.
const GRAFTED_FROM_BASE: (&[u8], u64) = (
    b"commit refs/heads/main any\ngraft 1 main 1\nz\na\nput file 5 3\nb/x/c\nhey\nauthor 1 3 3 +0000\nA\na@b\ncommitter 1 3 3 +0000\nA\na@b\nmessage 5\nthree\nend\n",
    4,
);

/// The same, by two grafts of one source, one by a path and one of all files.
const GRAFTED_TWICE: (&[u8], u64) = (
    b"commit refs/heads/main any\ngraft 1 main 3\ny\na/x\ngraft 1 main 0\nz\n\nauthor 1 3 3 +0000\nA\na@b\ncommitter 1 3 3 +0000\nA\na@b\nmessage 5\nthree\nend\n",
    4,
);

/// The same, the last of them put into what was grafted.
const CHANGED_BELOW_A_GRAFT: (&[u8], u64) = (
    b"commit refs/heads/main any\ngraft 1 main 1\nz\na\nput file 5 3\nz/x/c\nhey\nauthor 1 3 3 +0000\nA\na@b\ncommitter 1 3 3 +0000\nA\na@b\nmessage 5\nthree\nend\n",
    4,
);

/// The commit, the root, and the folder `a`: nothing is at `a/x` when a file is put below it.
const REPLACED: (&[u8], u64) = (
    b"commit refs/heads/main any\nremove 3\na/x\nput file 5 3\na/x/c\nhey\nauthor 1 3 3 +0000\nA\na@b\ncommitter 1 3 3 +0000\nA\na@b\nmessage 5\nthree\nend\n",
    3,
);

/// The commit, the root, and the folder `a`: it is refused since that is one.
const REFUSED: (&[u8], u64) = (
    b"commit refs/heads/main any\nremove-file 1\na\nput file 5 3\nb/x/c\nhey\nauthor 1 3 3 +0000\nA\na@b\ncommitter 1 3 3 +0000\nA\na@b\nmessage 5\nthree\nend\n",
    3,
);

/// The commit and the root: it is refused since a file is put below `n` before.
const REFUSED_LATER: (&[u8], u64) = (
    b"commit refs/heads/main any\nput file 3 3\nn/f\nbye\nremove-file 1\nn\nput file 5 3\nb/x/c\nhey\nauthor 1 3 3 +0000\nA\na@b\ncommitter 1 3 3 +0000\nA\na@b\nmessage 5\nthree\nend\n",
    2,
);

/// Whether a command succeeds, planned or answered.
fn is_done<F: Files>(repository: &Repository<F>, alloc: Global, command: Command) -> bool {
    match command {
        Command::Commit(command) => plan_commit(repository, alloc, command).is_ok(),
        Command::Tag(command) => plan_tag(repository, alloc, command).is_ok(),
        Command::Move(command) => plan_moves(repository, alloc, command).is_ok(),
        Command::Delete(command) => test_delete(repository, alloc, &command).is_ok(),
        Command::Pack => names_to_pack(repository, alloc).is_ok(),
        Command::Show(command) => show(repository, alloc, &command).is_ok(),
        Command::Files(word) => list_files(repository, alloc, &word).is_ok(),
        Command::Names(folder) => list_names(repository, alloc, folder.as_deref()).is_ok(),
        Command::Log(command) => log(repository, alloc, &command).is_ok(),
        Command::Index => all_rows(repository, alloc).is_ok(),
        _ => false,
    }
}

/// Returns the number of objects that a command reads, once it is planned or answered.
fn readings(
    rt: &impl Abort,
    repository: &Repository<Fuse<MemoryFiles>>,
    alloc: Global,
    input: &[u8],
) -> u64 {
    let (done, met) = readings_of_any(rt, repository, alloc, input);
    assert!(rt; done);
    met
}

/// Returns whether a command succeeds, and the number of objects that it reads.
fn readings_of_any(
    rt: &impl Abort,
    repository: &Repository<Fuse<MemoryFiles>>,
    alloc: Global,
    input: &[u8],
) -> (bool, u64) {
    let command = first_command(alloc, input).expect(rt, "no command");
    let before = repository.objects.files().calls();
    let done = is_done(repository, alloc, command);
    let met = repository.objects.files().calls().saturating_sub(before);
    (done, met)
}

/// Returns the repository after these inputs, whose calls are counted.
fn counted(
    rt: &impl Abort,
    alloc: Global,
    kind: Kind,
    inputs: &[&[u8]],
) -> Repository<Fuse<MemoryFiles>> {
    let (objects, names) = parts_after(alloc, kind, inputs).expect(rt, "no parts");
    let objects = Fuse::failing_at(objects, 0, None);
    let names = Fuse::failing_at(names, 0, None);
    match Repository::open(alloc, objects, names, kind) {
        Ok(repository) => repository,
        Err(_) => panic!(rt; "not opened"),
    }
}

#[test]
fn a_command_reads_each_object_once(rt: HostRuntime) {
    let alloc = rt.alloc();
    for kind in KINDS {
        let repository = counted(&rt, alloc, kind, &[TWO_BRANCHES]);
        for (input, wanted) in [CHANGED, BRANCHED, GRAFTED, SHOWN, SHOWN_COMMIT, LISTED] {
            let met = readings(&rt, &repository, alloc, input);
            assert!(rt; met == wanted, "{met} for {wanted}");
        }
    }
}

/// Returns the number of calls on the objects part, once a repository is opened after these inputs
/// and acts on this one.
fn calls_of_acting(
    rt: &impl Abort,
    alloc: Global,
    kind: Kind,
    inputs: &[&[u8]],
    input: &[u8],
) -> u64 {
    let (objects, names) = parts_after(alloc, kind, inputs).expect(rt, "no parts");
    let objects = Fuse::failing_at(objects, 0, None);
    let names = Fuse::failing_at(names, 0, None);
    let Ok(mut repository) = Whole::open(alloc, objects, names, kind) else {
        panic!(rt; "not opened")
    };
    let mut replies = Collected::new(alloc);
    let ended = run(alloc, &mut Bytes::new(input), &mut replies, &mut repository);
    assert!(rt; ended == Ok(End::Input));
    let (objects, _) = repository.into_parts();
    objects.calls()
}

// The names are planned and moved: what the plan has read isn't looked up again.
#[test]
fn a_pack_reads_each_object_once(rt: HostRuntime) {
    let alloc = rt.alloc();
    for kind in KINDS {
        for (inputs, command) in [
            ([TWO_BRANCHES, LATER].as_slice(), PACKED),
            ([TWO_BRANCHES, LATER, APART].as_slice(), PACKED_APART),
        ] {
            let (input, wanted) = command;
            let opened = calls_of_acting(&rt, alloc, kind, inputs, b"");
            let packed = calls_of_acting(&rt, alloc, kind, inputs, input);
            let met = packed.saturating_sub(opened);
            assert!(rt; met == wanted, "{met} for {wanted}");
        }
    }
}

/// Returns the number of calls of planning a commit and putting its objects; `None` if it fails.
fn calls_of_storing(
    repository: &mut Repository<Fuse<MemoryFiles>>,
    alloc: Global,
    command: Command,
) -> Option<u64> {
    let Command::Commit(command) = command else {
        return None;
    };
    let before = repository.objects.files().calls();
    let plan = plan_commit(repository, alloc, command).ok()?;
    for object in &plan.objects {
        repository.objects.put_made(alloc, object).ok()?;
    }
    Some(repository.objects.files().calls().saturating_sub(before))
}

// Once all is stored, storing it again compares each object with its file: it is looked up and read.
#[test]
fn a_commit_compares_each_object_once(rt: HostRuntime) {
    let alloc = rt.alloc();
    for kind in KINDS {
        for (input, read, compared) in [PUT_THRICE, PUT_NOTHING, PUT_AGAIN, PUT_AND_REMOVED] {
            let mut repository = counted(&rt, alloc, kind, &[TWO_BRANCHES]);
            let planned = readings(&rt, &repository, alloc, input);
            assert!(rt; planned == read, "{planned} for {read}");
            let first = first_command(alloc, input).expect(&rt, "no command");
            assert!(rt; calls_of_storing(&mut repository, alloc, first).is_some());
            let again = first_command(alloc, input).expect(&rt, "no command");
            let met = calls_of_storing(&mut repository, alloc, again);
            let wanted = read.saturating_add(compared.saturating_mul(2));
            assert!(rt; met == Some(wanted), "{met:?} for {wanted}");
        }
    }
}

#[test]
fn words_of_one_object_read_it_once(rt: HostRuntime) {
    let alloc = rt.alloc();
    for kind in KINDS {
        let repository = counted(&rt, alloc, kind, &[TWO_BRANCHES, LATER]);
        for (input, wanted) in [
            AT_ITS_TIP,
            AT_ITS_TAG,
            GRAFTED_BY_TAG,
            MERGED,
            TAGGED,
            TAGGED_AGAIN,
            MOVED,
            DELETED,
            TAG_DELETED,
            NAMED,
            PACKED,
        ] {
            let met = readings(&rt, &repository, alloc, input);
            assert!(rt; met == wanted, "{met} for {wanted}");
        }
    }
}

#[test]
fn a_log_reads_each_object_once(rt: HostRuntime) {
    let alloc = rt.alloc();
    for kind in KINDS {
        let repository = counted(&rt, alloc, kind, &[TWO_BRANCHES, LATER]);
        for (input, wanted) in [
            LOGGED,
            LOGGED_TOPOLOGICAL,
            LOGGED_BY_TAG,
            LOGGED_BY_TIME,
            LOGGED_AT_PATH,
            LOGGED_BY_FIRST,
            LOGGED_BY_FIRST_DATE,
            INDEXED,
        ] {
            let met = readings(&rt, &repository, alloc, input);
            assert!(rt; met == wanted, "{met} for {wanted}");
        }
    }
}

#[test]
fn trees_at_several_paths_are_read_once(rt: HostRuntime) {
    let alloc = rt.alloc();
    for kind in KINDS {
        let repository = counted(&rt, alloc, kind, &[ALIKE]);
        for (input, wanted) in [LISTED_ALIKE, LOGGED_ALIKE, LOGGED_AT_BOTH] {
            let met = readings(&rt, &repository, alloc, input);
            assert!(rt; met == wanted, "{met} for {wanted}");
        }
    }
}

/// Returns a commit on `main` whose root has more than half a megabyte: 300 files, whose names have
/// 2000 bytes each.
fn with_long_names(alloc: Global) -> Result<Vec<u8>, AllocError> {
    let mut input = b"commit refs/heads/main new\n".to_vec(alloc)?;
    for number in 100..400u32 {
        let mut name = format!(in alloc; "{number}")?.as_bytes().to_vec(alloc)?;
        name.resize(2000, b'n')?;
        input.extend_from_slice(b"put file 2000 1\n")?;
        input.extend_from_slice(&name)?;
        input.extend_from_slice(b"\nx\n")?;
    }
    input.extend_from_slice(
        b"author 1 3 1 +0000\nA\na@b\ncommitter 1 3 1 +0000\nA\na@b\nmessage 3\none\nend\n",
    )?;
    Ok(input)
}

// Both roots together have more than a megabyte.
#[test]
fn a_log_reads_large_trees_once(rt: HostRuntime) -> Result<(), AllocError> {
    let alloc = rt.alloc();
    let long = with_long_names(alloc)?;
    for kind in KINDS {
        let repository = counted(&rt, alloc, kind, &[long.as_slice(), BACK_AND_FORTH]);
        let (input, wanted) = LOGGED_BACK_AND_FORTH;
        let met = readings(&rt, &repository, alloc, input);
        assert!(rt; met == wanted, "{met} for {wanted}");
    }
    Ok(())
}

#[test]
fn trees_of_a_commit_are_read_once(rt: HostRuntime) {
    let alloc = rt.alloc();
    for kind in KINDS {
        let repository = counted(&rt, alloc, kind, &[ALIKE]);
        for (input, wanted) in [
            CHANGED_AT_BOTH,
            GRAFTED_FROM_BASE,
            GRAFTED_TWICE,
            CHANGED_BELOW_A_GRAFT,
            REPLACED,
        ] {
            let met = readings(&rt, &repository, alloc, input);
            assert!(rt; met == wanted, "{met} for {wanted}");
        }
    }
}

#[test]
fn a_refused_commit_reads_no_further(rt: HostRuntime) {
    let alloc = rt.alloc();
    for kind in KINDS {
        let repository = counted(&rt, alloc, kind, &[ALIKE]);
        for (input, wanted) in [REFUSED, REFUSED_LATER] {
            let (done, met) = readings_of_any(&rt, &repository, alloc, input);
            assert!(rt; !done);
            assert!(rt; met == wanted, "{met} for {wanted}");
        }
    }
}

/// Returns a commit on `main` whose message has so many bytes.
fn with_message_of(alloc: Global, size: usize) -> Result<Vec<u8>, AllocError> {
    let mut message = b"one\n".to_vec(alloc)?;
    message.resize(size, b'm')?;
    let mut input =
        b"commit refs/heads/main any\nauthor 1 3 3 +0000\nA\na@b\ncommitter 1 3 3 +0000\nA\na@b\nmessage ".to_vec(
            alloc,
        )?;
    input.extend_from_slice(format!(in alloc; "{size}\n")?.as_bytes())?;
    input.extend_from_slice(&message)?;
    input.extend_from_slice(b"\nend\n")?;
    Ok(input)
}

#[test]
fn an_index_reads_a_long_commit_once(rt: HostRuntime) -> Result<(), AllocError> {
    let alloc = rt.alloc();
    let long = with_message_of(alloc, 20_000)?;
    for kind in KINDS {
        let repository = counted(&rt, alloc, kind, &[TWO_BRANCHES, long.as_slice()]);
        let met = readings(&rt, &repository, alloc, b"index\n");
        assert!(rt; met == 3, "{met}");
    }
    Ok(())
}

/// Returns the number of calls of a pass over a part that reads each object once: the part and
/// `objects` are listed, and `objects` is looked up; so is each folder, and it is listed; each
/// object is looked up, with its length, and read.
fn calls_of_a_pass(alloc: Global, files: &MemoryFiles) -> Option<u64> {
    let mut calls = 3u64;
    for folder in &files.list(alloc, b"objects").ok()? {
        let path = joined(alloc, b"objects", folder).ok()?;
        let objects = files.list(alloc, &path).ok()?.len() as u64;
        calls = calls
            .saturating_add(2)
            .saturating_add(objects.saturating_mul(2));
    }
    Some(calls)
}

#[test]
fn opening_reads_each_object_once(rt: HostRuntime) {
    let alloc = rt.alloc();
    for kind in KINDS {
        let (objects, names) = parts_after(
            alloc,
            kind,
            &[TWO_BRANCHES, PACKED_NAMES, LOOSE_NAMES],
        ).expect(&rt, "no parts");
        let wanted = calls_of_a_pass(alloc, &objects);
        let objects = Fuse::failing_at(objects, 0, None);
        let names = Fuse::failing_at(names, 0, None);
        match Repository::open(alloc, objects, names, kind) {
            Ok(opened) => {
                let met = opened.objects.files().calls();
                assert!(rt; Some(met) == wanted, "{met}");
            }
            Err(_) => panic!(rt; "not opened"),
        }
    }
}

#[test]
fn commits_that_have_rows_are_not_read(rt: HostRuntime) {
    let alloc = rt.alloc();
    for kind in KINDS {
        let mut repository = counted(&rt, alloc, kind, &[TWO_BRANCHES, LATER]);
        let Ok(rows) = all_rows(&repository, alloc) else {
            panic!(rt; "no rows")
        };
        let Ok(graph) = Graph::from_rows(rows) else {
            panic!(rt; "no graph")
        };
        repository.rows = Some(graph);
        // Less the commits: the trees and the tag.
        for (command, wanted) in [
            (AT_ITS_TIP, 3),
            (LOGGED_BY_TIME, 0),
            (LOGGED_AT_PATH, 6),
            (LOGGED_BY_FIRST_DATE, 7),
            (NAMED, 1),
            (INDEXED, 0),
        ] {
            let met = readings(&rt, &repository, alloc, command.0);
            assert!(rt; met == wanted, "{met} for {wanted}");
        }
    }
}
