//! A run over standard input and output, on a new repository in memory.

use crate::in_memory::opened::new_repository;
use crate::in_memory::patient::Patient;
use crate::running::run;
use gix_hash::Kind;
use history_model::End;
use history_word::Stream;

// Makes a repository and runs on it. Returns `None` if that failed.
fn run_on_new(rt: &HostRuntime) -> Option<End> {
    let alloc = rt.alloc();
    let mut repository = new_repository(alloc, Kind::Sha1).ok()?;
    // Each reply is written by one call, so neither stream needs a buffer of its own.
    let mut reader = Stream::new(Patient::new(rt.stdin()));
    let mut writer = Stream::new(rt.stdout());
    run(alloc, &mut reader, &mut writer, &mut repository).ok()
}

/// Runs on a new repository with ids of SHA-1, and returns a program's status: 0 if the input ended
/// between two commands; 1 if the run ended otherwise, reader or writer failed, or no repository
/// was made.
pub fn serve(rt: &HostRuntime) -> u8 {
    match run_on_new(rt) {
        Some(End::Input) => 0,
        _ => 1,
    }
}
