//! HEAD of an existing repository, made to name another branch by a transaction (`switch`).
ghost use Rattle.std.specs.Prelude.{◌≡◌, ◌≢◌, Err, [], ◌∷◌, IfOk, IsErrOf, IsTrue};
ghost use Rattle.gix_ref_edit.specs.declared.change.RefEdit.{RefEdit};
ghost use Rattle.gix_ref_file.specs.declared.files.FileError.TheVariants.{Failed};
ghost use Rattle.history_model.specs.Forms.{is_name};
ghost use Rattle.history_model.specs.Repository.{Repository};
ghost use Rattle.history_edits.specs.SwitchPlans.{AsksHead};
ghost use Rattle.history_store.specs.Calls.{KeepsNames, SwitchesHead};
ghost use Rattle.history_store.specs.Changing.{MaySwitch};

use crate::faults::{full_name, of_preparing};
use crate::names::Names;
use gix_object_lookup::find::Never;
use gix_ref_edit::{Change, LogChange, PreviousValue, RefEdit};
use gix_ref_file::{FileError, Files};
use gix_ref_name::Target;
use gix_ref_transaction::PackedRefs;
use gix_ref_transaction::transaction::prepare_with;
use history_model::names::HEAD;
use std::alloc::Global;

// Returns the edit by which HEAD, if it names the one branch, names the other.
fn head_edit(alloc: Global, from: &[u8], to: &[u8]) -> Result<Vec<RefEdit>, FileError>
    ensures asks { IfOk result (λ edits. (edit : RefEdit)
        × (edits.items ≡ edit ∷ []) × AsksHead from.now to.now edit) }
    ensures failed { IsTrue (is_name from.now) → IsTrue (is_name to.now) → result ≢ Err Failed }
{
    let log = LogChange::new(alloc);
    let old = full_name(alloc, from)?;
    let new = full_name(alloc, to)?;
    let head = full_name(alloc, HEAD)?;
    let mut edits = Vec::new(alloc);
    edits.push(RefEdit {
        change: Change::Update {
            log,
            expected: PreviousValue::MustExistAndMatch(Target::Symbolic(old)),
            new: Target::Symbolic(new),
        },
        name: head,
        deref: false,
    })?;
    Ok(edits)
}

impl<F: Files> Names<F> {
    /// Makes HEAD, which names the one branch, name the other, whether that exists or not: its lock
    /// is made exclusively, and then put in its place. No log gets a line.
    ///
    /// Returns `Failed` if a file call failed, or if HEAD names another branch or is locked, and
    /// `Memory` if memory ran out. After an error HEAD is as before or names the branch, whole.
    pub fn switch(&mut self, alloc: Global, from: &[u8], to: &[u8]) -> Result<(), FileError>
        ensures keeps { KeepsNames F.Files (IsErrOf result Failed) self.old self.new }
        ensures switches { (r : Repository)
            → MaySwitch F.is_honest F.history self.old r from.now to.now
            → SwitchesHead F.Files to.now self.old self.new result }
    {
        let edits = head_edit(alloc, from, to)?;
        let records = self.packed.as_ref();
        let mode = PackedRefs::<Never>::DeletionsOnly;
        match prepare_with(alloc, &mut self.store, records, edits, None, mode) {
            Ok(made) => self.commit_made(alloc, made),
            Err(error) => Err(of_preparing(error)),
        }
    }
}
