//! Opens the two parts of a folder as objects, names and HEAD's branch (`open_folder`).

ghost use Rattle.std.specs.Prelude.{◌≡◌, IfOk};
ghost use Rattle.history_store.specs.NamesFace.{files_of_names, kind_of_names};
ghost use Rattle.history_store.specs.KnownObjects.{HasKnown};
ghost use Rattle.history_store.specs.ObjectsFace.{files_of_objects, ids_of_objects, kind_of_objects};
ghost use Rattle.history_check_objects.specs.Stored.{facts_in};
ghost use Rattle.history_store.specs.Opened.{IsOpenedWith};
ghost use Rattle.history_repository.specs.Opened.{OpensWhole, RefusesParts};

use crate::open_error::OpenRefusal;
use gix_hash::Kind;
use gix_ref_file::Files;
use history_check_names::survey_names;
use history_check_objects::Stored;
use history_store::{Names, Objects, open_objects};
use std::alloc::Global;

/// A folder that was opened: its objects, its names, and the branch that HEAD names.
#[derive(Drop)]
pub struct OpenedFolder<F: Files> {
    pub objects: Objects<F>,
    pub names: Names<F>,
    pub branch: Vec<u8>,
}

/// Opens a folder whose two parts are those of one repository of this kind: whole, in written form
/// and within the limits, with no file and no folder besides, whoever wrote them. No file is
/// changed; each object and `packed-refs` is read once.
///
/// Otherwise the refusal names a cause that holds of the parts, and returns both. The objects are
/// surveyed before the names, so a cause of the names comes only if the objects are whole.
pub fn open_folder<F: Files>(
    alloc: Global,
    objects: F,
    names: F,
    kind: Kind,
) -> Result<OpenedFolder<F>, OpenRefusal<F>>
    ensures parts { IfOk result (λ opened. (files_of_objects opened.objects ≡ objects)
        × (files_of_names opened.names ≡ names)) }
    ensures kinds { IfOk result (λ opened. (kind_of_objects opened.objects ≡ kind)
        × (kind_of_names opened.names ≡ kind)) }
    ensures opens { OpensWhole F.Files kind objects names result }
    ensures refuses { RefusesParts F.Files kind objects names result }
{
    match open_objects(alloc, objects, kind) {
        Ok(opened) => open_names(alloc, opened.objects, &opened.stored, names),
        Err(refusal) => Err(OpenRefusal {
            error: refusal.error,
            objects: refusal.files,
            names,
        }),
    }
}

// Opens the names part over objects that are whole.
fn open_names<F: Files>(
    alloc: Global,
    objects: Objects<F>,
    stored: &Stored,
    names: F,
) -> Result<OpenedFolder<F>, OpenRefusal<F>>
    requires exist { F.is_honest (files_of_objects objects)
        → HasKnown (F.history (files_of_objects objects)).tree objects }
    requires whole { F.is_honest (files_of_objects objects)
        → IsOpenedWith (kind_of_objects objects) (F.history (files_of_objects objects)).tree
        (ids_of_objects objects) (facts_in stored.now) }
    ensures parts { IfOk result (λ opened. (opened.objects ≡ objects)
        × (files_of_names opened.names ≡ names)) }
    ensures kind { IfOk result (λ opened. kind_of_names opened.names ≡ kind_of_objects objects) }
    ensures opens { OpensWhole F.Files (kind_of_objects objects) (files_of_objects objects) names
        result }
    ensures refuses { RefusesParts F.Files (kind_of_objects objects) (files_of_objects objects) names
        result }
{
    let mut names = Names::new(alloc, names, objects.kind());
    match survey_names(alloc, &mut names, stored) {
        Ok(branch) => Ok(OpenedFolder {
            objects,
            names,
            branch,
        }),
        Err(error) => Err(OpenRefusal {
            error,
            objects: objects.into_files(),
            names: names.into_files(),
        }),
    }
}
