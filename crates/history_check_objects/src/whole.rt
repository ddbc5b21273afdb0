//! The check of a whole objects part: its files are listed, then its objects surveyed.
ghost use Rattle.std.specs.Prelude.{IfErr, IfOk};
ghost use Rattle.history_check_objects.specs.Flaws.{IsObjectsFlaw};
ghost use Rattle.history_check_objects.specs.Folders.{HasFolders};
ghost use Rattle.history_check_objects.specs.Surveyed.{IsWholePart};

use crate::listing::{Listed, list_objects};
use crate::order::survey_objects;
use crate::stored::Stored;
use gix_hash::Kind;
use gix_ref_file::Files;
use history_texts::OpenError;
use std::alloc::Global;
use std::collections::BTreeSet;

/// What is known of a part that is whole: its objects, and the paths of its folders.
#[derive(Drop)]
pub struct WholeObjects {
    pub stored: Stored,
    pub folders: BTreeSet<Vec<u8>>,
}

/// Returns what is known of the objects of a part that is whole: each file is an object's, in written
/// form and under its own id, all that an object names is stored, and none reaches itself. No file
/// is changed. Each object is read once.
///
/// Otherwise the error holds of the part: `File` if a call of the files failed, `Memory` if no
/// memory is left, and else a cause.
pub fn whole_objects<F: Files>(
    alloc: Global,
    files: &F,
    kind: Kind,
) -> Result<WholeObjects, OpenError>
    ensures whole { F.is_honest files.now
        → IfOk result (λ found. IsWholePart kind (F.history files.now).tree found.stored) }
    ensures folders { F.is_honest files.now
        → IfOk result (λ found. HasFolders (F.history files.now).tree found.folders) }
    ensures flaw { F.is_honest files.now
        → IfErr result (IsObjectsFlaw F.reading_may_fail kind (F.history files.now).tree) }
{
    let Listed { ids, folders } = list_objects(alloc, files, kind)?;
    let stored = survey_objects(alloc, files, kind, ids)?;
    Ok(WholeObjects { stored, folders })
}
