//! The edits by which names move or one is deleted, if each is as expected, and their committer and time.
ghost use Rattle.std.specs.Prelude.{◌≢◌, Err, None, IfOk, IsErrOf, IsTrue, map, option_map};
ghost use Rattle.std.specs.List.{AllByRecursion, AllZip};
ghost use Rattle.gix_ref_file.specs.Calls.{Finds};
ghost use Rattle.gix_ref_file.specs.declared.files.FileError.TheVariants.{Failed};
ghost use Rattle.history_model.specs.Forms.{is_name};
ghost use Rattle.history_model.specs.Repository.{Repository};
ghost use Rattle.gix_hash.specs.Id.{id_of};
ghost use Rattle.history_edits.specs.EditFaults.{AllTest, Tests};
ghost use Rattle.history_edits.specs.EditPlans.{AreEdits};
ghost use Rattle.history_store.specs.Packing.{KeepsRecords, id_read};
ghost use Rattle.history_store.specs.Changing.{AreUnsplit, AsksAs, AsksToDelete, ExpectsId, IsCommitter, MayChange, SpellsTimeOf, moved_in, moved_text};

use crate::changing::MovedName;
use crate::faults::full_name;
use crate::names::Names;
use bstr::BStr;
use gix_hash::ObjectId;
use gix_object_lines::ByteString;
use gix_object_lines::lines::{ActorRef, write_time};
use gix_ref_edit::{Change, LogChange, PreviousValue, RefEdit, RefLog};
use gix_ref_file::{FileError, Files};
use gix_ref_name::Target;
use std::alloc::{AllocError, Global};

impl<F: Files> Names<F> {
    // Returns the edits that move these names, each if it is as its entry says, and then delete that one.
    pub(crate) fn edits_of(
        &self,
        alloc: Global,
        moved: &[MovedName],
        taken: Option<&[u8]>,
    ) -> Result<Vec<RefEdit>, FileError>
        ensures asks { IfOk result (λ edits. AreEdits (map moved_in moved.now)
            (option_map (λ name. name.now) taken.entry) edits.items) }
        ensures plain { IfOk result (λ edits. AreUnsplit edits.items) }
        ensures tests { (r : Repository) → let names = map moved_in moved.now in
            let gone = option_map (λ name. name.now) taken.entry in
            MayChange F.is_honest F.history self.now r names gone
            → IfOk result (λ edits. AllTest r edits.items) }
        ensures failed { (r : Repository) → let names = map moved_in moved.now in
            let gone = option_map (λ name. name.now) taken.entry in
            MayChange F.is_honest F.history self.now r names gone → IsErrOf result Failed
            → F.reading_may_fail }
    {
        let mut edits = updates_of(alloc, moved)?;
        match taken {
            Some(name) => {
                let last = self.deletion_of(alloc, name)?;
                edits.push(last)?;
                Ok(edits)
            }
            None => Ok(edits),
        }
    }

    // Returns the edit that deletes the name if it holds what it holds now.
    fn deletion_of(&self, alloc: Global, name: &[u8]) -> Result<RefEdit, FileError>
        ensures asks { IfOk result (AsksToDelete name.now) }
        ensures tests { Finds F.is_honest F.history self.now.store.files
            (λ tree. KeepsRecords self.now tree → IfOk result (λ edit.
            Tests (id_read self.now.kind tree name.now) edit.change)) }
        ensures failed { Finds F.is_honest F.history self.now.store.files
            (λ tree. KeepsRecords self.now tree → IsTrue (is_name name.now)
            → id_read self.now.kind tree name.now ≢ None → IsErrOf result Failed → F.reading_may_fail) }
    {
        let Some(held) = self.find(alloc, name)? else {
            return Err(FileError::Failed);
        };
        Ok(RefEdit {
            change: Change::Delete {
                expected: PreviousValue::MustExistAndMatch(Target::Object(held)),
                log: RefLog::AndReference,
            },
            name: full_name(alloc, name)?,
            deref: false,
        })
    }
}

// Returns the edits that move these names, each if it is as its entry says.
fn updates_of(alloc: Global, moved: &[MovedName]) -> Result<Vec<RefEdit>, FileError>
    ensures asks { IfOk result (λ edits. AllZip AsksAs (map moved_in moved.now) edits.items) }
    ensures failed { AllByRecursion (λ m. IsTrue (is_name (moved_text m))) moved.now
        → result ≢ Err Failed }
{
    let mut edits = Vec::new(alloc);
    for named in moved {
        edits.push(update_of(alloc, named)?)?;
    }
    Ok(edits)
}

// Returns the edit that moves the name if it is as the entry says.
fn update_of(alloc: Global, named: &MovedName) -> Result<RefEdit, FileError>
    ensures asks { IfOk result (AsksAs (moved_in named.now)) }
    ensures failed { IsTrue (is_name (moved_text named.now)) → result ≢ Err Failed }
{
    let log = LogChange {
        mode: RefLog::AndReference,
        force_create_reflog: false,
        message: ByteString::from_slice(alloc, &named.entry.message)?,
    };
    Ok(RefEdit {
        change: Change::Update {
            log,
            expected: previous_value(named.entry.before),
            new: Target::Object(named.entry.after),
        },
        name: full_name(alloc, &named.name)?,
        deref: false,
    })
}

// Returns what is expected of a name that an entry moves from this id.
fn previous_value(before: ObjectId) -> PreviousValue
    ensures { ExpectsId (id_of before) result }
{
    if before.is_null() {
        PreviousValue::MustNotExist
    } else {
        PreviousValue::MustExistAndMatch(Target::Object(before))
    }
}

// Returns the text of the time of the first move; nothing if there is none.
pub(crate) fn time_of(alloc: Global, moved: &[MovedName]) -> Result<Vec<u8>, AllocError>
    ensures { IfOk result (λ text. SpellsTimeOf (map moved_in moved.now) text.items) }
{
    let mut text = Vec::new(alloc);
    if let Some(first) = moved.first() {
        // Each actor's time can be written, so only memory can be missing.
        write_time(first.entry.actor.time, &mut text).map_err(|_| AllocError)?;
    }
    Ok(text)
}

// Returns who makes the first move, at the time of this text; `None` if there is none.
pub(crate) fn committer_of<'a>(moved: &'a [MovedName], time: &'a [u8]) -> Option<ActorRef<'a>>
    ensures { SpellsTimeOf (map moved_in moved.now) time.now
        → IsCommitter (map moved_in moved.now) result }
{
    let first = moved.first()?;
    Some(ActorRef {
        name: BStr::new(&first.entry.actor.name),
        email: BStr::new(&first.entry.actor.email),
        time: BStr::new(time),
    })
}
