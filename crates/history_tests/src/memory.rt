//! With ample memory each command has its own reply.
//! A body that only gives up for memory is proved under any contract, so this must be tested.

use case_commits::{INPUT, KINDS, REPLIES};
use history::in_memory::answer_stream;
use history::{End, Kind};
use std::alloc::Global;

const FIRST: &[u8] =
    b"commit refs/heads/main new\nauthor 1 3 1 +0000\nA\na@b\ncommitter 1 3 1 +0000\nA\na@b\nmessage 3\none\nend\nfiles main\nshow main\n";

const ANSWERED: &[u8] =
    b"ok commit d39b036c797dcd9c0210b66a094ee846a3bc4fd9\nok files 0\nok show commit d39b036c797dcd9c0210b66a094ee846a3bc4fd9\ntree 4b825dc642cb6eb9a060e54bf8d69288fbee4904\nparents 0\nauthor 1 3 1 +0000\nA\na@b\ncommitter 1 3 1 +0000\nA\na@b\nmessage 3\none\n";

// Returns whether this is written for a stream, over a new repository in memory.
fn answers(alloc: Global, kind: Kind, input: &[u8], wanted: &[u8]) -> bool {
    match answer_stream(alloc, kind, input) {
        Ok(answer) => answer.end == End::Input && answer.written.as_slice() == wanted,
        Err(_) => false,
    }
}

#[test]
fn ample_memory_meets_no_fault(rt: HostRuntime) {
    assert!(rt; answers(rt.alloc(), Kind::Sha1, FIRST, ANSWERED));
    for kind in KINDS {
        assert!(rt; answers(rt.alloc(), kind, INPUT, REPLIES.of(kind)));
    }
}
