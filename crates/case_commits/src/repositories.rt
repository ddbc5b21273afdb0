//! Commands of streams, and repositories in memory after them.

use gix_ref_file::MemoryFiles;
use history::in_memory::new_repository;
use history::{Bytes, Collected, Command, End, Kind, Received, run};
use history_repository::Repository;
use history_word::{Buffer, read_command};
use std::alloc::Global;

/// Returns the command that an input begins with.
pub fn first_command(alloc: Global, input: &[u8]) -> Option<Command> {
    match read_command(alloc, &mut Buffer::new(), &mut Bytes::new(input)) {
        Ok(Received::Command(command)) => Some(command),
        _ => None,
    }
}

/// Returns the two parts of a new repository in memory, after these inputs.
pub fn parts_after(
    alloc: Global,
    kind: Kind,
    inputs: &[&[u8]],
) -> Option<(MemoryFiles, MemoryFiles)> {
    let mut repository = new_repository(alloc, kind).ok()?;
    for input in inputs {
        let mut reader = Bytes::new(*input);
        let mut replies = Collected::new(alloc);
        if run(alloc, &mut reader, &mut replies, &mut repository) != Ok(End::Input) {
            return None;
        }
    }
    Some(repository.into_parts())
}

/// Returns the repository opened over such parts, as the crates below `history` take it.
pub fn opened_after(
    alloc: Global,
    kind: Kind,
    inputs: &[&[u8]],
) -> Option<Repository<MemoryFiles>> {
    let (objects, names) = parts_after(alloc, kind, inputs)?;
    Repository::open(alloc, objects, names, kind).ok()
}
