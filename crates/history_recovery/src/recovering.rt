//! Recovers the two parts: the objects' unfinished file goes, then leftovers among the names; logs are cut.
ghost use Rattle.std.specs.Prelude.{◌≡◌, ◌⊎◌, OnOk, IsErrOf};
ghost use Rattle.gix_ref_file.specs.Calls.{Achieves, HasFault, Passes};
ghost use Rattle.gix_ref_file.specs.declared.files.FileError.TheVariants.{Failed};
ghost use Rattle.gix_ref_file.specs.declared.files.FileError.TheVariants as calls;
ghost use Rattle.history_model.specs.Places.{Pair};
ghost use Rattle.history_model.specs.Recovery.{recovered};
ghost use Rattle.history_recovery.specs.Recovering.{ObjectsAlike, NamesAlike, AreObjectsRecovered, AreNamesRecovered, IsOnTheWay, pair_in, recover_fault};
ghost use Rattle.history_recovery.specs.Changes.{ChangesHonestly};
ghost use Rattle.history_recovery.specs.declared.recovering.RecoverError.TheVariants.{File, Memory};

use crate::clearing::clear_below;
use crate::cutting::cut_below;
use crate::packed::Packed;
use gix_hash::Kind;
use gix_ref_file::{FileError, Files, Place};
use std::alloc::Global;
use thiserror::Error;

// The file in which an object is written before it is renamed to its place.
const UNFINISHED: &[u8] = b"objects/unfinished";

// The folder of the logs.
const LOGS: &[u8] = b"logs";

/// Why a repository isn't recovered to its end.
#[derive(Clone, Copy, Debug, PartialEq, Eq, Error)]
pub enum RecoverError {
    #[error("a call of the files failed")]
    File,
    #[error("a growth was refused")]
    Memory,
}

impl From<FileError> for RecoverError {
    ghost from_gives = { λ error e. e ≡ recover_fault error };

    fn from(error: FileError) -> Self {
        match error {
            FileError::Failed => RecoverError::File,
            FileError::Memory => RecoverError::Memory,
        }
    }
}

/// Recovers a repository that a stopped or failed call left, whatever bytes its two parts hold;
/// `kind` is that of its ids.
///
/// Removes `objects/unfinished`, and then, in the names part, each lock file (a file whose path
/// ends with `.lock`), and each log whose name reads as absent: by its own file, by `packed-refs`,
/// and by the rules of names. Folders below `refs` and `logs` that have no file below them go too.
/// Then a log that doesn't end with a line feed is shortened after its last one, in place, which
/// takes no room. Nothing else changes. Each folder is listed, `packed-refs` is read once, and logs
/// are read in pieces.
///
/// It may be stopped at any call, and run again: what is left then recovers to the same. Returns
/// `File` if a call of the files failed, and `Memory` if no memory is left.
pub fn recover<F: Files>(
    alloc: Global,
    objects: &mut F,
    names: &mut F,
    kind: Kind,
) -> Result<(), RecoverError>
    // With any result but `File` no failed call was counted.
    ensures objects { ChangesHonestly F.Files Memory objects.old objects.new result }
    ensures names { ChangesHonestly F.Files Memory names.old names.new result }
    ensures recovered { F.is_honest objects.old → F.is_honest names.old
        → OnOk result (pair_in F.Files objects.new names.new
        ≡ recovered kind (pair_in F.Files objects.old names.old)) }

    // Whatever is returned, what is left recovers to the same as what was there at first, and so
    // does each pair on the way.
    ensures left { F.is_honest objects.old → F.is_honest names.old
        → recovered kind (pair_in F.Files objects.new names.new)
        ≡ recovered kind (pair_in F.Files objects.old names.old) }
    ensures objects_alike { Passes F.is_honest F.history objects.old objects.new ObjectsAlike }
    ensures names_alike { Passes F.is_honest F.history names.old names.new (NamesAlike kind) }
    ensures stops { F.is_honest objects.old → F.is_honest names.old → (pair : Pair)
        → IsOnTheWay (F.history objects.old) (F.history names.old)
        (F.history objects.new) (F.history names.new) pair
        → recovered kind pair
        ≡ recovered kind (pair_in F.Files objects.old names.old) }

    // `File` is returned only after a failed call.
    ensures failed { F.is_honest objects.old → F.is_honest names.old
        → IsErrOf result File
        → HasFault F.failures F.reading_may_fail objects.old objects.new
        ⊎ HasFault F.failures F.reading_may_fail names.old names.new }
{
    remove_unfinished(alloc, objects)?;
    recover_names(alloc, names, kind)?;
    Ok(())
}

// Removes an object's file that was not renamed to its place.
fn remove_unfinished<F: Files>(alloc: Global, objects: &mut F) -> Result<(), FileError>
    ensures keeps { ChangesHonestly F.Files calls.Memory objects.old objects.new result }
    ensures recovered { Achieves F.is_honest F.history objects.old objects.new result
        AreObjectsRecovered }
    ensures alike { Passes F.is_honest F.history objects.old objects.new ObjectsAlike }
    ensures failed { F.is_honest objects.old → IsErrOf result Failed
        → HasFault F.failures F.reading_may_fail objects.old objects.new }
{
    match objects.kind_of(UNFINISHED)? {
        Place::File(_) => objects.remove_file(alloc, UNFINISHED),
        Place::Absent | Place::Folder => Ok(()),
    }
}

// Removes the leftovers of the names part, and then cuts the logs.
fn recover_names<F: Files>(alloc: Global, names: &mut F, kind: Kind) -> Result<(), FileError>
    ensures keeps { ChangesHonestly F.Files calls.Memory names.old names.new result }
    ensures recovered { Achieves F.is_honest F.history names.old names.new result
        (AreNamesRecovered kind) }
    ensures alike { Passes F.is_honest F.history names.old names.new (NamesAlike kind) }
    ensures failed { F.is_honest names.old → IsErrOf result Failed
        → HasFault F.failures F.reading_may_fail names.old names.new }
{
    let packed = Packed::read(alloc, &*names, kind)?;
    clear_below(alloc, names, &packed, b"")?;
    cut_below(alloc, names, LOGS)
}
