//! Opens a part that is whole as a store of objects, with what is known of them, or returns why it isn't.
ghost use Rattle.std.specs.Prelude.{◌≡◌, IfErr, IfOk};
ghost use Rattle.history_store.specs.ObjectsFace.{files_of_objects, ids_of_objects, kind_of_objects};
ghost use Rattle.history_store.specs.KnownObjects.{HoldsKnown, KnownExist};
ghost use Rattle.history_store.specs.Opened.{IsOpened, IsOpenedWith};
ghost use Rattle.history_check_objects.specs.Flaws.{IsObjectsFlaw};
ghost use Rattle.history_check_objects.specs.Folders.{HasFolders};
ghost use Rattle.history_check_objects.specs.Stored.{facts_in};
ghost use Rattle.history_check_objects.specs.Surveyed.{IsWholePart};

use crate::objects::Objects;
use gix_hash::Kind;
use gix_ref_file::Files;
use history_check_objects::{Stored, WholeObjects, whole_objects};
use history_texts::OpenError;
use std::alloc::Global;
use std::collections::BTreeSet;

/// Objects that were opened, and what is known of them.
#[derive(Drop)]
pub struct OpenedObjects<F: Files> {
    pub objects: Objects<F>,
    pub stored: Stored,
}

/// Why objects aren't opened, and their part, as it was given.
#[derive(Drop)]
pub struct ObjectsRefusal<F: Files> {
    pub error: OpenError,
    pub files: F,
}

impl<F: Files> Objects<F> {
    /// Opens the objects of a part that is whole: each file is an object's, in written form and
    /// under its own id, all that an object names is stored, and none reaches itself. A part
    /// without files is whole. No file is changed. Each object is read once.
    ///
    /// Otherwise the refusal returns the part, with an error that holds of it: `File` if a call of
    /// the files failed, `Memory` if no memory is left, and else a cause.
    pub fn open(alloc: Global, files: F, kind: Kind) -> Result<Objects<F>, ObjectsRefusal<F>>
        ensures files { IfOk result (λ objects. (files_of_objects objects ≡ files)
            × (kind_of_objects objects ≡ kind)) }
        ensures whole { F.is_honest files → IfOk result (λ objects.
            IsOpened kind (F.history files).tree (ids_of_objects objects)) }
        ensures holds { F.is_honest files → IfOk result (HoldsKnown F.is_honest F.history) }
        ensures exist { F.is_honest files → IfOk result (KnownExist F.is_honest F.history) }
        ensures flaw { F.is_honest files → IfErr result (λ refusal.
            IsObjectsFlaw F.reading_may_fail kind (F.history files).tree refusal.error) }
        ensures handed_back { IfErr result (λ refusal. refusal.files ≡ files) }
    {
        match open_objects(alloc, files, kind) {
            Ok(opened) => Ok(opened.objects),
            Err(refusal) => Err(refusal),
        }
    }
}

/// Opens the objects of a part as `Objects::open` does, and returns what is known of them too.
pub fn open_objects<F: Files>(
    alloc: Global,
    files: F,
    kind: Kind,
) -> Result<OpenedObjects<F>, ObjectsRefusal<F>>
    ensures files { IfOk result (λ opened. (files_of_objects opened.objects ≡ files)
        × (kind_of_objects opened.objects ≡ kind)) }
    ensures whole { F.is_honest files → IfOk result (λ opened. IsOpenedWith kind
        (F.history files).tree (ids_of_objects opened.objects) (facts_in opened.stored)) }
    ensures holds { F.is_honest files → IfOk result (λ opened.
        HoldsKnown F.is_honest F.history opened.objects) }
    ensures exist { F.is_honest files → IfOk result (λ opened.
        KnownExist F.is_honest F.history opened.objects) }
    ensures flaw { F.is_honest files → IfErr result (λ refusal.
        IsObjectsFlaw F.reading_may_fail kind (F.history files).tree refusal.error) }
    ensures handed_back { IfErr result (λ refusal. refusal.files ≡ files) }
{
    match whole_objects(alloc, &files, kind) {
        Ok(WholeObjects { stored, folders }) => open_stored(alloc, files, kind, stored, folders),
        Err(error) => Err(ObjectsRefusal { error, files }),
    }
}

// Opens a part that holds these objects and has these folders.
fn open_stored<F: Files>(
    alloc: Global,
    files: F,
    kind: Kind,
    stored: Stored,
    folders: BTreeSet<Vec<u8>>,
) -> Result<OpenedObjects<F>, ObjectsRefusal<F>>
    requires whole { F.is_honest files → IsWholePart kind (F.history files).tree stored }
    requires folders { F.is_honest files → HasFolders (F.history files).tree folders }
    ensures files { IfOk result (λ opened. (files_of_objects opened.objects ≡ files)
        × (kind_of_objects opened.objects ≡ kind)) }
    ensures whole { F.is_honest files → IfOk result (λ opened. IsOpenedWith kind
        (F.history files).tree (ids_of_objects opened.objects) (facts_in opened.stored)) }
    ensures holds { F.is_honest files → IfOk result (λ opened.
        HoldsKnown F.is_honest F.history opened.objects) }
    ensures exist { F.is_honest files → IfOk result (λ opened.
        KnownExist F.is_honest F.history opened.objects) }
    ensures flaw { F.is_honest files → IfErr result (λ refusal.
        IsObjectsFlaw F.reading_may_fail kind (F.history files).tree refusal.error) }
    ensures handed_back { IfErr result (λ refusal. refusal.files ≡ files) }
{
    let mut objects = Objects::with_folders(alloc, files, kind, folders);
    match objects.know(alloc, &stored) {
        Ok(()) => Ok(OpenedObjects { objects, stored }),
        Err(_) => Err(ObjectsRefusal {
            error: OpenError::Memory,
            files: objects.into_files(),
        }),
    }
}
