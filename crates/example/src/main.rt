//! A program to copy: commands, a transaction's branch, and a walk, in memory and in a folder.
#![tactic(auto)]

use anyhow::{Context, Result, ensure};
use gix_object::find::Never;
use gix_object_lines::ByteString;
use gix_object_lines::lines::read_actor;
use gix_ref::file::{Store, Transact};
use gix_ref::transaction::{Change, LogChange, PackedRefs, PreviousValue, RefEdit};
use gix_ref::{Disk, Files, Folder, FullName, MemoryFiles, Part, Target};
use gix_traverse::commit::Simple;
use history::{Bytes, Collected, End, Kind, ObjectId, Objects, Repository, Stream, create, run};
use std::alloc::Global;
use std::io::Read;
use std::{env, fs};

fn main(rt: HostRuntime) -> Result<()> {
    let alloc = rt.alloc();
    let mut commands = Vec::new(alloc);
    rt.stdin().read_to_end(&mut commands)?;
    let parts = (MemoryFiles::new(alloc), MemoryFiles::new(alloc));
    tour(&rt, parts, &commands)?;
    let Some(path) = env::args(&rt)?.nth(1) else {
        return Ok(());
    };
    fs::create_dir(&rt, path.as_str())?;
    let objects = Folder::new(alloc, Disk::new(&rt), path.clone()?, Part::Objects);
    let names = Folder::new(alloc, Disk::new(&rt), path, Part::Names);
    tour(&rt, (objects, names), &commands)
}

// Makes a repository of two empty parts, and prints the replies to the commands, the log of a
// branch that is then made at HEAD's commit, and the commits that it reaches. Nobody else may work
// on the parts meanwhile.
fn tour<F: Files + Drop>(rt: &HostRuntime, parts: (F, F), commands: &[u8]) -> Result<()> {
    let alloc = rt.alloc();
    let (mut objects, mut names) = parts;
    create(alloc, &mut objects, &mut names, Kind::Sha1)?;
    let opened = Repository::open(alloc, objects, names, Kind::Sha1);
    let mut repository = opened.map_err(|refusal| refusal.error)?;
    let mut reader = Bytes::new(commands);
    let mut writer = Stream::new(rt.stdout());
    let end = run(alloc, &mut reader, &mut writer, &mut repository)?;
    ensure!(end == End::Input, "the run ended before its input");

    let mut reader = Bytes::new(b"show HEAD\n");
    let mut reply = Collected::new(alloc);
    run(alloc, &mut reader, &mut reply, &mut repository)?;
    let tip = shown_commit(reply.as_slice()).context("HEAD has no commit")?;

    // Changes made beside the repository are seen by one that is opened after them.
    let (objects, names) = repository.into_parts();
    let names = add_branch(alloc, names, tip)?;
    let opened = Repository::open(alloc, objects, names, Kind::Sha1);
    let mut repository = opened.map_err(|refusal| refusal.error)?;
    let mut reader = Bytes::new(b"past refs/heads/topic\n");
    run(alloc, &mut reader, &mut writer, &mut repository)?;

    let (objects, _) = repository.into_parts();
    let objects = Objects::open(alloc, objects, Kind::Sha1).map_err(|refusal| refusal.error)?;
    for commit in Simple::new(vec![in alloc; tip]?, &objects)? {
        println!(rt; "{}", commit?.id)?;
    }
    Ok(())
}

// Returns the id in the first line of a reply, if that is `ok show commit <id>`.
fn shown_commit(reply: &[u8]) -> Option<ObjectId> {
    let line = reply.split(|byte| *byte == b'\n').next()?;
    ObjectId::from_hex(line.strip_prefix(b"ok show commit ")?).ok()
}

// Makes the branch `refs/heads/topic` at a commit, with a line in its log, and returns the files.
// If the branch exists, the transaction changes nothing.
fn add_branch<F: Files + Drop>(alloc: Global, names: F, commit: ObjectId) -> Result<F> {
    let mut log = LogChange::new(alloc);
    log.message = ByteString::from_slice(alloc, b"branch: Created from HEAD")?;
    let edit = RefEdit {
        change: Change::Update {
            log,
            expected: PreviousValue::MustNotExist,
            new: Target::Object(commit),
        },
        name: FullName::from_bytes(alloc, b"refs/heads/topic")?,
        deref: false,
    };
    let committer = Some(read_actor(b"A <a@b> 3 +0000")?);
    let mut store = Store::at(names, Vec::new(alloc)).map_err(|refused| refused.error)?;
    let edits = vec![in alloc; edit]?;
    let mode = PackedRefs::<Never>::DeletionsOnly;
    let prepared = store.transaction().prepare(alloc, edits, committer, mode)?;
    prepared.commit(alloc)?;
    Ok(store.into_files())
}
