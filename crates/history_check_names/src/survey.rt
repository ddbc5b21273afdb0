//! Surveys the names part: HEAD's branch, the text of `packed-refs`, and all folders and files.

ghost use Rattle.std.specs.Prelude.{◌≡◌, option_map, IfErr, IfOk, OnOk};
ghost use Rattle.gix_ref_file.specs.Tree.{bytes_at};
ghost use Rattle.history_model.specs.Places.{file_at, packed_place};
ghost use Rattle.gix_ref_file.specs.Calls.{Finds};
ghost use Rattle.history_model.specs.Forms.{is_branch};
ghost use Rattle.history_model.specs.Repository.{Repository};
ghost use Rattle.history_store.specs.NamesFace.{files_of_names, kind_of_names};
ghost use Rattle.history_store.specs.Packing.{KeepsRecords};
ghost use Rattle.history_check_names.specs.Causes.{HasCause, IsOpenFault};
ghost use Rattle.history_check_names.specs.PackedRead.{ReadsPacked};
ghost use Rattle.history_check_names.specs.Parts.{IsNamesPart, NamesBranch, StandsNames};
ghost use Rattle.history_check_names.specs.Sound.{IsSound, IsSoundBelow};
ghost use Rattle.history_check_objects.specs.Stored.{AreFactsOf, Facts, facts_in};

use crate::file::{file_len, test_file};
use crate::loose::MAX_LOOSE;
use crate::packed::Packed;
use crate::packed_pieces::test_long_packed;
use crate::records::test_records;
use gix_hash::Kind;
use gix_ref_file::paths::{is_deeper, joined};
use gix_ref_file::{Files, Place};
use history_check_objects::Stored;
use history_model::names::{HEAD, HEADS};
use history_store::Names;
use history_texts::{OpenError, Part, is_name};
use std::alloc::Global;

/// Returns HEAD's branch and keeps the records of `packed-refs`, if the names part is a repository's
/// over this store of objects: HEAD names a branch; each name, in a file of its own or in
/// `packed-refs`, holds a stored commit or tag and is no folder of another; a record's peeled id is
/// its tag's commit; each log is of a name and has only moves; and there is nothing else but folders
/// of names and logs. A name's own file takes precedence over its record. No file is changed; each
/// is read once, a long log in pieces, and each folder is listed once. A long `packed-refs` is gone
/// through in pieces first, and is read whole only if it may be one.
///
/// Otherwise the error is a cause that holds of this part, none that only objects have. It is `File`
/// if a call of the files failed, and `Memory` if no memory is left.
pub fn survey_names<F: Files>(
    alloc: Global,
    names: &mut Names<F>,
    stored: &Stored,
) -> Result<Vec<u8>, OpenError>
    ensures files { files_of_names names.new ≡ files_of_names names.old }
    ensures kind { kind_of_names names.new ≡ kind_of_names names.old }
    ensures stands { Finds F.is_honest F.history (files_of_names names.old) (λ tree. IfOk result
        (λ branch. IsNamesPart (kind_of_names names.old) (facts_in stored.now) tree branch.items)) }
    ensures keeps { Finds F.is_honest F.history (files_of_names names.old)
        (λ tree. OnOk result (KeepsRecords names.new tree)) }
    ensures wrong { Finds F.is_honest F.history (files_of_names names.old) (λ tree. IfErr result
        (HasCause F.reading_may_fail (kind_of_names names.old) (facts_in stored.now) tree)) }
    // A repository's names part is refused only for a fault.
    ensures accepted { (r : Repository) → r.kind ≡ kind_of_names names.old
        → AreFactsOf (facts_in stored.now) r.objects
        → Finds F.is_honest F.history (files_of_names names.old)
        (λ tree. StandsNames tree r → IfErr result IsOpenFault) }
{
    let branch = head_branch(alloc, &*names)?;
    let text = packed_text(alloc, &*names)?;
    let bytes = text.as_deref().unwrap_or(b"");
    test_all(alloc, names.files(), names.kind(), stored, bytes)?;
    match names.keep_packed(alloc, text) {
        Ok(()) => Ok(branch),
        // The text was tested, so memory ran out.
        Err(_) => Err(OpenError::Memory),
    }
}

// Returns the branch that HEAD names.
fn head_branch<F: Files>(alloc: Global, names: &Names<F>) -> Result<Vec<u8>, OpenError>
    ensures found { Finds F.is_honest F.history (files_of_names names.now)
        (λ tree. IfOk result (λ branch. NamesBranch tree branch.items)) }
    ensures wrong { (facts : Facts) → Finds F.is_honest F.history (files_of_names names.now)
        (λ tree. IfErr result
        (HasCause F.reading_may_fail (kind_of_names names.now) facts tree)) }
{
    let Some(len) = file_len(names.files(), HEAD)? else {
        return Err(OpenError::NoHead);
    };
    if len > MAX_LOOSE {
        return Err(OpenError::BadHead);
    }
    let Some(branch) = names.head(alloc)? else {
        return Err(OpenError::BadHead);
    };
    if is_branch(&branch) {
        return Ok(branch);
    }
    Err(OpenError::BadHead)
}

// Returns the text of `packed-refs`, if there is one. It is read whole only if it may be a file of
// packed names.
fn packed_text<F: Files>(alloc: Global, names: &Names<F>) -> Result<Option<Vec<u8>>, OpenError>
    ensures found { Finds F.is_honest F.history (files_of_names names.now) (λ tree. IfOk result
        (λ text. option_map (λ text. text.items) text ≡ file_at tree packed_place)) }
    ensures wrong { (facts : Facts) → Finds F.is_honest F.history (files_of_names names.now)
        (λ tree. IfErr result
        (HasCause F.reading_may_fail (kind_of_names names.now) facts tree)) }
{
    test_long_packed(alloc, names.files(), names.kind())?;
    Ok(names.read_packed(alloc)?)
}

// Returns whether it is a branch's name.
fn is_branch(name: &[u8]) -> bool
    ensures { result ≡ is_branch name.now }
{
    is_name(name) && name.starts_with(HEADS)
}

// Tests everything in the part, where `packed-refs` has this text.
fn test_all<F: Files>(
    alloc: Global,
    files: &F,
    kind: Kind,
    stored: &Stored,
    text: &[u8],
) -> Result<(), OpenError>
    requires { Finds F.is_honest F.history files.now
        (λ tree. text.now ≡ bytes_at tree packed_place) }
    ensures sound { Finds F.is_honest F.history files.now
        (λ tree. OnOk result (IsSound kind (facts_in stored.now) tree)) }
    ensures wrong { Finds F.is_honest F.history files.now
        (λ tree. IfErr result (HasCause F.reading_may_fail kind (facts_in stored.now) tree)) }
{
    let packed = Packed::read(alloc, kind, text)?;
    test_folder(alloc, files, kind, stored, &packed, b"")?;
    test_records(alloc, files, kind, stored, &packed)
}

// Tests everything below a folder.
fn test_folder<F: Files>(
    alloc: Global,
    files: &F,
    kind: Kind,
    stored: &Stored,
    packed: &Packed<'_>,
    folder: &[u8],
) -> Result<(), OpenError>
    requires { Finds F.is_honest F.history files.now (ReadsPacked kind packed.now) }
    ensures sound { Finds F.is_honest F.history files.now
        (λ tree. OnOk result (IsSoundBelow kind (facts_in stored.now) folder.now tree)) }
    ensures wrong { Finds F.is_honest F.history files.now
        (λ tree. IfErr result (HasCause F.reading_may_fail kind (facts_in stored.now) tree)) }
{
    for name in &files.list(alloc, folder)? {
        let path = joined(alloc, folder, name)?;
        match files.kind_of(&path)? {
            Place::Folder if Part::Names.may_hold_folder(&path) && is_deeper(&path, folder) => {
                test_folder(alloc, files, kind, stored, packed, &path)?;
            }
            Place::Folder => return Err(OpenError::Stray(path)),
            Place::File(len) => test_file(alloc, files, kind, stored, packed, path, len)?,
            // A name of nothing: the folder changed while it was read.
            Place::Absent => return Err(OpenError::Stray(path)),
        }
    }
    Ok(())
}
