//! Lists the ids of a part's objects by the paths of its files, of which any other is stray or unfinished, and its folders.
ghost use Rattle.std.specs.Prelude.{◌≡◌, ◌≢◌, IfErr, IfOk, IsTrue, MatchOption, OnOk};
ghost use Rattle.gix_hash.specs.Id.{Id, id_of};
ghost use Rattle.history_model.specs.Forms.{is_id};
ghost use Rattle.history_model.specs.Places.{object_place};
ghost use Rattle.history_check_objects.specs.Flaws.{IsObjectsFlaw};
ghost use Rattle.history_check_objects.specs.Folders.{HasFolders};
ghost use Rattle.history_check_objects.specs.Listing.{Gathers, IsNoObject};
ghost use Rattle.history_check_objects.specs.Surveying.{AreListed};

use gix_hash::{Kind, ObjectId};
use gix_ref_file::paths::{is_deeper, joined};
use gix_ref_file::{Files, Place};
use history_model::limits::MAX_CONTENT;
use history_texts::{OpenError, Part, UNFINISHED, object_place, parse_lower_hex};
use std::alloc::{AllocError, Global};
use std::collections::BTreeSet;

/// The most bytes that an object's text has: a content within the limit after a kind, a space, eight
/// digits and a zero byte.
const MAX_TEXT: u64 = MAX_CONTENT as u64 + 16;

/// What a part has: the ids whose places have files, and the folders that they are in.
#[derive(Drop)]
pub(crate) struct Listed {
    pub(crate) ids: Vec<ObjectId>,
    pub(crate) folders: BTreeSet<Vec<u8>>,
}

/// Returns the ids whose places have files, and the folders of the part. Otherwise the error is `Stray` for another file or a
/// folder that isn't one of objects, `Unfinished` for the unfinished file, `TooLarge` for a file
/// that is longer than any object's, `File` if a call of the files failed, or `Memory` if no memory
/// is left.
pub(crate) fn list_objects<F: Files>(
    alloc: Global,
    files: &F,
    kind: Kind,
) -> Result<Listed, OpenError>
    ensures listed { F.is_honest files.now
        → IfOk result (λ listed. AreListed kind (F.history files.now).tree listed.ids.items) }
    ensures folders { F.is_honest files.now
        → IfOk result (λ listed. HasFolders (F.history files.now).tree listed.folders) }
    ensures flaw { F.is_honest files.now
        → IfErr result (IsObjectsFlaw F.reading_may_fail kind (F.history files.now).tree) }
{
    let mut ids = Vec::new(alloc);
    let mut folders = BTreeSet::new(alloc);
    gather(alloc, files, kind, b"", &mut ids, &mut folders)?;
    Ok(Listed { ids, folders })
}

// Adds the ids whose places have files below a folder, and the folders there. The errors are those
// of `list_objects`.
fn gather<F: Files>(
    alloc: Global,
    files: &F,
    kind: Kind,
    folder: &[u8],
    ids: &mut Vec<ObjectId>,
    folders: &mut BTreeSet<Vec<u8>>,
) -> Result<(), OpenError>
    ensures gathered { F.is_honest files.now
        → OnOk result (Gathers kind (F.history files.now).tree folder.now ids.old.items
        ids.new.items) }
    ensures folders { F.is_honest files.now → HasFolders (F.history files.now).tree folders.old
        → OnOk result (HasFolders (F.history files.now).tree folders.new) }
    ensures flaw { F.is_honest files.now
        → IfErr result (IsObjectsFlaw F.reading_may_fail kind (F.history files.now).tree) }
{
    for name in &files.list(alloc, folder)? {
        let path = joined(alloc, folder, name)?;
        match files.kind_of(&path)? {
            Place::Folder if Part::Objects.may_hold_folder(&path) && is_deeper(&path, folder) => {
                gather(alloc, files, kind, &path, ids, folders)?;
                folders.insert(path)?;
            }
            Place::Folder => return Err(OpenError::Stray(path)),
            // A name that is gone: the folder changed while it was read.
            Place::Absent => return Err(OpenError::Stray(path)),
            Place::File(len) => {
                let id = id_of_file(alloc, kind, path, len)?;
                ids.push(id)?;
            }
        }
    }
    Ok(())
}

// Returns the id whose place the path of a file of so many bytes is. Otherwise the error is
// `TooLarge`, `Unfinished` or `Stray`, with the path, or no memory is left.
fn id_of_file(alloc: Global, kind: Kind, path: Vec<u8>, len: u64) -> Result<ObjectId, OpenError>
    ensures placed { IfOk result (λ id. IsTrue (is_id kind (id_of id))
        × (path.items ≡ object_place (id_of id))) }
    ensures flaw { IfErr result (IsNoObject kind path.items len) }
{
    if let Some(id) = placed_id(alloc, kind, &path)? {
        if len > MAX_TEXT {
            return Err(OpenError::TooLarge(path));
        }
        return Ok(id);
    }
    if path.as_slice() == UNFINISHED {
        return Err(OpenError::Unfinished(path));
    }
    Err(OpenError::Stray(path))
}

// Returns the id of this kind whose place the path is; `None` if there is no such id.
fn placed_id(alloc: Global, kind: Kind, path: &[u8]) -> Result<Option<ObjectId>, AllocError>
    ensures { IfOk result (λ found. MatchOption found
        ((id : Id) → IsTrue (is_id kind id) → path.now ≢ object_place id)
        (λ id. IsTrue (is_id kind (id_of id)) × (path.now ≡ object_place (id_of id)))) }
{
    // `objects/`, two digits, a slash and the others
    if path.len() < 11 {
        return Ok(None);
    }
    let mut digits = Vec::from_slice(alloc, &path[8..10])?;
    digits.extend_from_slice(&path[11..])?;
    let Some(id) = parse_lower_hex(kind, &digits) else {
        return Ok(None);
    };
    let place = object_place(alloc, &id)?;
    if place.as_slice() == path {
        Ok(Some(id))
    } else {
        Ok(None)
    }
}
