//! A log's lines, each `<old> <new> <actor>`, a tab, the message and a line feed, listed newest first.
ghost use Rattle.std.specs.Prelude.{◌≡◌, ◌++◌, List, IfOk, map, reverse};
ghost use Rattle.std.specs.List.{All, flat_map};
ghost use Rattle.gix_object_lines.specs.Bytes.{Lacks};
ghost use Rattle.history_model.specs.Bytes.{Bytes, line};

use crate::actor::Actor;
use gix_hash::ObjectId;
use std::alloc::{AllocError, Global};

/// One move of a name. The id before is null if the move created the name.
#[derive(Drop)]
pub struct LogEntry {
    pub before: ObjectId,
    pub after: ObjectId,
    pub actor: Actor,
    /// One line, without its line feed.
    pub message: Vec<u8>,
}

/// Returns the lines of a log without their line feeds, the newest first. What follows the last
/// line feed is left out. Fails only if memory runs out.
pub fn log_lines(alloc: Global, log: &[u8]) -> Result<Vec<&[u8]>, AllocError>
    ensures { (lines : List Bytes) (rest : Bytes) → All (Lacks 10) lines → Lacks 10 rest
        → log.now ≡ flat_map line (reverse lines) ++ rest
        → IfOk result (λ found. map (λ text. text.now) found.items ≡ lines) }
{
    let mut lines: Vec<&[u8]> = log.split(|byte| *byte == b'\n').collect(alloc)?;
    lines.pop();
    lines.reverse();
    Ok(lines)
}
