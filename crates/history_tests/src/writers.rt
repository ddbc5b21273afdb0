//! Writers that take little, and fail.

ghost use Rattle.std.specs.Prelude.{None};

use case_commits::{INPUT, KINDS, LISTED, REPLIES};
use gix_ref_file::MemoryFiles;
use history::in_memory::new_repository;
use history::{Broken, Bytes, Collected, End, Kind, Repository, RunError, Sink, run};
use std::alloc::Global;
use std::process::Abort;

/// Takes one byte a call, and fails once it has taken so many.
#[derive(Drop)]
struct Narrow {
    bytes: Vec<u8>,
    room: usize,
    is_broken: bool,
}

impl Sink for Narrow {
    ghost contents = { λ _. None };

    ghost has_failed = { λ sink. sink.is_broken };

    fn write(&mut self, bytes: &[u8]) -> Result<usize, Broken> {
        let Some(first) = bytes.first() else {
            self.is_broken = self.is_broken || self.room == 0;
            return if self.is_broken { Err(Broken) } else { Ok(0) };
        };
        if self.room == 0 || self.is_broken || self.bytes.push(*first).is_err() {
            self.is_broken = true;
            return Err(Broken);
        }
        self.room -= 1;
        Ok(1)
    }
}

/// Returns a new repository in memory.
fn fresh(rt: &impl Abort, alloc: Global, kind: Kind) -> Repository<MemoryFiles> {
    match new_repository(alloc, kind) {
        Ok(repository) => repository,
        Err(_) => panic!(rt; "not opened"),
    }
}

/// Returns what a writer that takes so many bytes holds, and how the run over it ends.
fn squeeze(
    alloc: Global,
    repository: &mut Repository<MemoryFiles>,
    room: usize,
) -> (Vec<u8>, Result<End, RunError>) {
    let mut writer = Narrow {
        bytes: Vec::new(alloc),
        room,
        is_broken: false,
    };
    let ended = run(alloc, &mut Bytes::new(INPUT), &mut writer, repository);
    let Narrow { bytes, .. } = writer;
    (bytes, ended)
}

/// Stops if a run reports no error of a writer that fails after so many bytes, or its first command
/// isn't done.
fn try_writer(rt: &impl Abort, alloc: Global, kind: Kind, room: usize) {
    let mut repository = fresh(rt, alloc, kind);
    let (bytes, ended) = squeeze(alloc, &mut repository, room);
    assert!(rt; ended == Err(RunError::Write), "at {room}");
    assert!(rt;
        bytes.len() == room && REPLIES.of(kind).starts_with(&bytes),
        "at {room}"
    );
    assert!(rt; !repository.has_failed());
    let mut later = Collected::new(alloc);
    let ended = run(
        alloc,
        &mut Bytes::new(b"files main\n"),
        &mut later,
        &mut repository,
    );
    assert!(rt;
        ended == Ok(End::Input) && later.as_slice() == LISTED.of(kind),
        "at {room}"
    );
}

// A beginning of the replies is written, and the first command is done.
#[test]
fn a_writer_that_fails_at_each_byte(rt: HostRuntime) {
    for kind in KINDS {
        for room in 0..REPLIES.of(kind).len() {
            try_writer(&rt, rt.alloc(), kind, room);
        }
        let mut repository = fresh(&rt, rt.alloc(), kind);
        let (bytes, ended) = squeeze(rt.alloc(), &mut repository, REPLIES.of(kind).len());
        assert!(rt; ended == Ok(End::Input) && bytes.as_slice() == REPLIES.of(kind));
    }
}
