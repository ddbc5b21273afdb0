//! The action `recover`: recovers a folder that is a repository's, and writes `recovered`.
ghost use Rattle.history_actions.specs.Recovering.{Recovers, Restores};
ghost use Rattle.history_actions.specs.Saying.{Says, recovered};

use crate::failure::Failure;
use crate::looking::look;
use gix_hash::Kind;
use gix_ref_file::Files;
use history::{Sink, recover};
use history_word::write_all;
use std::alloc::Global;

/// Recovers a folder's two parts if they are a repository's, and writes `recovered`.
pub(crate) fn recover_folder<F: Files, W: Sink>(
    alloc: Global,
    objects: &mut F,
    names: &mut F,
    kind: Kind,
    writer: &mut W,
) -> Result<(), Failure>
    ensures files { Recovers F.is_honest F.history F.failures F.reading_may_fail kind
        objects.old names.old objects.new names.new result }
    ensures says { Says W.contents W.has_failed writer.old writer.new recovered result }
{
    match look(alloc, &*objects, &*names, kind) {
        Ok(()) => restore(alloc, objects, names, kind, writer),
        Err(cause) => Err(Failure::Unopened(cause)),
    }
}

// Recovers two parts, whatever they hold, and writes `recovered`.
fn restore<F: Files, W: Sink>(
    alloc: Global,
    objects: &mut F,
    names: &mut F,
    kind: Kind,
    writer: &mut W,
) -> Result<(), Failure>
    ensures files { Restores F.is_honest F.history F.failures F.reading_may_fail kind
        objects.old names.old objects.new names.new result }
    ensures says { Says W.contents W.has_failed writer.old writer.new recovered result }
{
    recover(alloc, objects, names, kind)?;
    write_all(writer, b"recovered\n")?;
    Ok(())
}
