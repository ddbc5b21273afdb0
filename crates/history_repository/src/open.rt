//! Opens a repository from its two parts (`Repository::open`).

ghost use Rattle.std.specs.Prelude.{◌≡◌, false, None, IfOk};
ghost use Rattle.history_model.specs.StandsFor.{StandsWhole};
ghost use Rattle.history_repository.specs.Opened.{RefusesParts, trees_of};
ghost use Rattle.history_store.specs.Creation.{IsNew};
ghost use Rattle.history_model.specs.Repository.{fresh};
ghost use Rattle.history_repository.specs.Face.{objects_part, names_part, has_failed, rows_in};
ghost use Rattle.history_repository.specs.Stands.{Stands};
ghost use Rattle.history_model.specs.Repository as plain;

use crate::folder::{OpenedFolder, open_folder};
use crate::open_error::OpenRefusal;
use crate::repository::Repository;
use gix_hash::Kind;
use gix_ref_file::Files;
use std::alloc::Global;

impl<F: Files> Repository<F> {
    /// Opens a folder whose two parts are those of one repository with ids of this kind: whole, in
    /// written form and within the limits, with no file and no folder besides. So are those that
    /// `create` and `run` leave, and those that `recover` leaves after a call that stopped or
    /// failed. No file is changed.
    ///
    /// Otherwise the refusal names a cause that holds of the parts, and returns both. The objects
    /// are surveyed before the names. The error is `File` if a call of the files failed, and
    /// `Memory` if no memory is left.
    pub fn open(
        alloc: Global,
        objects: F,
        names: F,
        kind: Kind,
    ) -> Result<Repository<F>, OpenRefusal<F>>
        ensures ok { IfOk result (λ opened. (objects_part opened ≡ objects)
            × (names_part opened ≡ names) × (has_failed opened ≡ false)
            × (rows_in opened ≡ None)) }
        // What is opened represents a repository of this kind, whole and in its written form.
        ensures stands { F.is_honest objects → F.is_honest names
            → IfOk result (λ opened. (r : plain.Repository) × (r.kind ≡ kind)
            × Stands F.is_honest F.history opened r) }
        // Whichever repository the two parts represent, it is that one.
        ensures same { (r : plain.Repository) → F.is_honest objects → F.is_honest names
            → StandsWhole kind (trees_of F.history objects names) r
            → IfOk result (λ opened. Stands F.is_honest F.history opened r) }
        // Of a new folder it is the one without names and objects, on `refs/heads/main`.
        ensures fresh { F.is_honest objects → F.is_honest names
            → IsNew (F.history objects).tree (F.history names).tree
            → IfOk result (λ opened. Stands F.is_honest F.history opened (fresh kind)) }
        ensures refuses { RefusesParts F.Files kind objects names result }
    {
        let OpenedFolder {
            objects,
            names,
            branch,
        } = open_folder(alloc, objects, names, kind)?;
        Ok(Repository {
            objects,
            names,
            branch,
            rows: None,
            has_failed: false,
        })
    }
}
