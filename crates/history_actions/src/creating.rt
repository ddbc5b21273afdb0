//! The action `create`: makes a repository, and writes `created`.
ghost use Rattle.history_actions.specs.Creating.{Creates};
ghost use Rattle.history_actions.specs.Saying.{Says, created};

use crate::failure::Failure;
use gix_hash::Kind;
use gix_ref_file::Files;
use history::{Sink, create};
use history_word::write_all;
use std::alloc::Global;

/// Makes a repository of a folder's two parts, and writes `created`.
pub(crate) fn create_folder<F: Files, W: Sink>(
    alloc: Global,
    objects: &mut F,
    names: &mut F,
    kind: Kind,
    writer: &mut W,
) -> Result<(), Failure>
    ensures files { Creates F.is_honest F.history F.failures F.reading_may_fail kind
        objects.old names.old objects.new names.new result }
    ensures says { Says W.contents W.has_failed writer.old writer.new created result }
{
    create(alloc, objects, names, kind)?;
    write_all(writer, b"created\n")?;
    Ok(())
}
