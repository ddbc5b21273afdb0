//! Stored objects read: a content, a tag's commit, what an id peels to, a commit's root, what is at a path.

ghost use Rattle.std.specs.Prelude.{◌≡◌, ⊤, IfSome, MatchOption, Some, map, option_map};
ghost use Rattle.std.specs.FinMap.{get};
ghost use Rattle.history_model.specs.FileMap.{FileMap};
ghost use Rattle.history_model.specs.Objects.{CommitValue, StoredCommit, StoredFolder, StoredTag, TagValue, Value, commit_content, content_of, entry_at, folder_id, object_kind, tag_content};
ghost use Rattle.history_files.specs.Reading.{entry_of};
ghost use Rattle.gix_hash.specs.Id.{Id, id_of};
ghost use Rattle.history_repository.specs.Stands.{Stands};
ghost use Rattle.history_repository.specs.Reads.{GivesMeant, ReadsMore};
ghost use Rattle.std.specs.List.{AllByRecursion};
ghost use Rattle.history_model.specs.Repository.{HoldsCommit};
ghost use Rattle.history_repository.specs.Meant.{HasContent, HasRoot, IsMeantBy, IsObject, IsPeeledBy, IsRootOf, IsRooted, peeled_id};
ghost use Rattle.history_repository.specs.TreesBefore.{IsTreeBefore};
ghost use Rattle.history_model.specs.Repository as plain;

use crate::read_objects::ReadObjects;
use crate::repository::Repository;
use crate::stopped::Stopped;
use gix_hash::ObjectId;
use gix_ref_file::Files;
use history_files::{Found, entry_at};
use history_model::Fault;
use history_store::{Object, commit_tree, tag_target};
use std::alloc::Global;

// In a whole repository each id that is read names an object of its kind, so only a failed call
// leads to `fault File`.

/// Returns the content of a stored object. It is a fault if a call of the files failed, or if no
/// memory is left.
pub fn content<F: Files>(
    repository: &Repository<F>,
    alloc: Global,
    kind: gix_object::Kind,
    id: &ObjectId,
) -> Result<Vec<u8>, Stopped>
    ensures { (r : plain.Repository) (value : Value) → Stands F.is_honest F.history repository.now r
        → get r.objects (id_of id.now) ≡ Some value → object_kind value ≡ kind
        → GivesMeant F.reading_may_fail
        (λ content. content.items ≡ content_of r.kind value) result }
{
    match repository.objects.read(alloc, id)? {
        Some(object) if object.kind == kind => Ok(object.content),
        _ => Err(Stopped::Fault(Fault::File)),
    }
}

/// Returns a stored object. The faults are those of `content`.
fn read_object<F: Files>(
    repository: &Repository<F>,
    alloc: Global,
    id: &ObjectId,
) -> Result<Object, Stopped>
    ensures { (r : plain.Repository) (value : Value) → Stands F.is_honest F.history repository.now r
        → get r.objects (id_of id.now) ≡ Some value
        → GivesMeant F.reading_may_fail (IsObject r.kind value) result }
{
    Ok(repository.objects.read(alloc, id)?.ok_or(Fault::File)?)
}

/// Returns the commit that a tag of this content is of.
fn tagged<F: Files>(repository: &Repository<F>, content: &[u8]) -> Result<ObjectId, Stopped>
    ensures { (r : plain.Repository) (id : Id) (tag : TagValue)
        → Stands F.is_honest F.history repository.now r
        → get r.objects id ≡ Some (StoredTag tag) → content.now ≡ tag_content tag
        → GivesMeant F.reading_may_fail (λ target. id_of target ≡ tag.target) result }
{
    Ok(tag_target(repository.objects.kind(), content).ok_or(Fault::File)?)
}

/// A commit that a word or a name means: its id, and its content, if the object that was read is
/// the commit itself. Of a tag's commit no content was read.
#[derive(Drop)]
pub struct MeantCommit {
    pub id: ObjectId,
    pub content: Option<Vec<u8>>,
}

/// Returns the commit that a stored object peels to: a commit itself, a tag's commit; `None` of
/// another object. One object is read. The faults are those of `content`.
pub(crate) fn read_meant<F: Files>(
    repository: &Repository<F>,
    alloc: Global,
    id: ObjectId,
) -> Result<Option<MeantCommit>, Stopped>
    ensures { (r : plain.Repository) (value : Value) → Stands F.is_honest F.history repository.now r
        → get r.objects (id_of id) ≡ Some value
        → GivesMeant F.reading_may_fail (IsMeantBy r (id_of id)) result }
{
    let object = read_object(repository, alloc, &id)?;
    match object.kind {
        gix_object::Kind::Commit => Ok(Some(MeantCommit {
            id,
            content: Some(object.content),
        })),
        gix_object::Kind::Tag => Ok(Some(MeantCommit {
            id: tagged(repository, &object.content)?,
            content: None,
        })),
        gix_object::Kind::Tree => Ok(None),
        gix_object::Kind::Blob => Ok(None),
    }
}

/// A commit that a word or a name means, as `MeantCommit` is, with its root in place of its content.
#[derive(Clone, Copy)]
pub struct PeeledCommit {
    pub id: ObjectId,
    pub root: Option<ObjectId>,
}

/// Returns the commit that a stored object peels to, as `read_meant` does. The object is read only if
/// it wasn't read before and has no row.
pub(crate) fn peeled<F: Files>(
    repository: &Repository<F>,
    alloc: Global,
    read: &mut ReadObjects,
    id: ObjectId,
) -> Result<Option<PeeledCommit>, Stopped>
    ensures { (r : plain.Repository) (value : Value) → Stands F.is_honest F.history repository.now r
        → get r.objects (id_of id) ≡ Some value
        → ReadsMore F.reading_may_fail r read.old read.new (IsPeeledBy r (id_of id)) result }
{
    if let Some(commit) = read.known(&id) {
        return Ok(commit);
    }
    let commit = peeled_anew(repository, alloc, read, id)?;
    read.know(id, commit)?;
    Ok(commit)
}

/// Returns the commit of this id with its root, if it has a row. No object is read.
fn rowed<F: Files>(repository: &Repository<F>, id: ObjectId) -> Option<PeeledCommit>
    ensures { (r : plain.Repository) → Stands F.is_honest F.history repository.now r
        → IfSome result (λ commit. IsPeeledBy r (id_of id) (Some commit)) }
{
    let row = repository.rows()?.commit_by_id(&id)?;
    Some(PeeledCommit {
        id,
        root: Some(row.tree),
    })
}

/// Returns the same of an object that is read, unless it has a row. Its content is kept, if it is a
/// commit's and contents are to be kept.
fn peeled_anew<F: Files>(
    repository: &Repository<F>,
    alloc: Global,
    read: &mut ReadObjects,
    id: ObjectId,
) -> Result<Option<PeeledCommit>, Stopped>
    ensures { (r : plain.Repository) (value : Value) → Stands F.is_honest F.history repository.now r
        → get r.objects (id_of id) ≡ Some value
        → ReadsMore F.reading_may_fail r read.old read.new (IsPeeledBy r (id_of id)) result }
{
    if let Some(commit) = rowed(repository, id) {
        return Ok(Some(commit));
    }
    let Some(meant) = read_meant(repository, alloc, id)? else {
        return Ok(None);
    };
    let root = root_read(repository, &meant)?;
    let commit = PeeledCommit { id: meant.id, root };
    read.keep(meant)?;
    Ok(Some(commit))
}

/// Returns the root of a commit that is meant, if its content was read.
fn root_read<F: Files>(
    repository: &Repository<F>,
    meant: &MeantCommit,
) -> Result<Option<ObjectId>, Stopped>
    ensures { (r : plain.Repository) (value : CommitValue)
        → Stands F.is_honest F.history repository.now r
        → get r.objects (id_of meant.now.id) ≡ Some (StoredCommit value)
        → HasContent r meant.now → GivesMeant F.reading_may_fail
        (λ root. MatchOption root ⊤ (IsRootOf r (id_of meant.now.id))) result }
{
    match &meant.content {
        Some(content) => Ok(Some(root_in(repository, content)?)),
        None => Ok(None),
    }
}

/// Returns the root of a commit of this content: the id of its tree, which its first line names.
/// Nothing after that line is parsed.
fn root_in<F: Files>(repository: &Repository<F>, content: &[u8]) -> Result<ObjectId, Stopped>
    ensures { (r : plain.Repository) (id : Id) (value : CommitValue)
        → Stands F.is_honest F.history repository.now r
        → get r.objects id ≡ Some (StoredCommit value) → content.now ≡ commit_content r.kind value
        → GivesMeant F.reading_may_fail
        (λ root. id_of root ≡ folder_id r.kind value.files) result }
{
    Ok(commit_tree(repository.objects.kind(), content).ok_or(Fault::File)?)
}

/// Returns the root of a stored commit, whose content is read. The faults are those of `content`.
fn root_of<F: Files>(
    repository: &Repository<F>,
    alloc: Global,
    id: &ObjectId,
) -> Result<ObjectId, Stopped>
    ensures { (r : plain.Repository) (value : CommitValue)
        → Stands F.is_honest F.history repository.now r
        → get r.objects (id_of id.now) ≡ Some (StoredCommit value)
        → GivesMeant F.reading_may_fail
        (λ root. id_of root ≡ folder_id r.kind value.files) result }
{
    let content = content(repository, alloc, gix_object::Kind::Commit, id)?;
    root_in(repository, &content)
}

/// Returns the root of a commit that is meant. Its content is read only if it wasn't read before.
/// The faults are those of `content`.
pub fn root_meant<F: Files>(
    repository: &Repository<F>,
    alloc: Global,
    meant: &MeantCommit,
) -> Result<ObjectId, Stopped>
    ensures { (r : plain.Repository) (value : CommitValue)
        → Stands F.is_honest F.history repository.now r
        → get r.objects (id_of meant.now.id) ≡ Some (StoredCommit value)
        → HasContent r meant.now → GivesMeant F.reading_may_fail
        (λ root. id_of root ≡ folder_id r.kind value.files) result }
{
    match &meant.content {
        Some(content) => root_in(repository, content),
        None => root_of(repository, alloc, &meant.id),
    }
}

/// Returns the root of a commit that was peeled. The commit is read only if its root isn't known.
/// The faults are those of `content`.
pub fn root_peeled<F: Files>(
    repository: &Repository<F>,
    alloc: Global,
    commit: &PeeledCommit,
) -> Result<ObjectId, Stopped>
    ensures { (r : plain.Repository) (value : CommitValue)
        → Stands F.is_honest F.history repository.now r
        → get r.objects (peeled_id commit.now) ≡ Some (StoredCommit value)
        → HasRoot r commit.now → GivesMeant F.reading_may_fail
        (λ root. id_of root ≡ folder_id r.kind value.files) result }
{
    match commit.root {
        Some(root) => Ok(root),
        None => root_of(repository, alloc, &commit.id),
    }
}

/// Returns a commit that was peeled, with its root. The commit is read only if it wasn't read before.
/// The faults are those of `content`.
pub fn rooted<F: Files>(
    repository: &Repository<F>,
    alloc: Global,
    read: &mut ReadObjects,
    commit: PeeledCommit,
) -> Result<PeeledCommit, Stopped>
    ensures { (r : plain.Repository) → Stands F.is_honest F.history repository.now r
        → HoldsCommit r (peeled_id commit) → HasRoot r commit
        → ReadsMore F.reading_may_fail r read.old read.new (IsRooted r (peeled_id commit)) result }
{
    if commit.root.is_some() {
        return Ok(commit);
    }
    Ok(peeled(repository, alloc, read, commit.id)?.ok_or(Fault::File)?)
}

/// Returns the tree of the first of these parents; `None` without parents. The parent is read only
/// if it wasn't read before. The faults are those of `content`.
pub fn tree_before<F: Files>(
    repository: &Repository<F>,
    alloc: Global,
    read: &mut ReadObjects,
    parents: &[PeeledCommit],
) -> Result<Option<ObjectId>, Stopped>
    ensures { (r : plain.Repository) → Stands F.is_honest F.history repository.now r
        → AllByRecursion (HoldsCommit r) (map peeled_id parents.now)
        → AllByRecursion (HasRoot r) parents.now
        → ReadsMore F.reading_may_fail r read.old read.new
        (IsTreeBefore r (map peeled_id parents.now)) result }
{
    match parents.first() {
        Some(commit) => {
            let commit = rooted(repository, alloc, read, *commit)?;
            Ok(Some(root_peeled(repository, alloc, &commit)?))
        }
        None => Ok(None),
    }
}

/// Returns what is at a path below a stored tree: a file's kind and id, or a folder's id, or
/// nothing. Only the trees on the path are read. It is a fault if a call of the files failed, or if
/// no memory is left.
pub fn found_below<F: Files>(
    repository: &Repository<F>,
    alloc: Global,
    tree: &ObjectId,
    path: &[u8],
) -> Result<Option<Found>, Stopped>
    ensures { (r : plain.Repository) (below : FileMap) → Stands F.is_honest F.history repository.now r
        → get r.objects (id_of tree.now) ≡ Some (StoredFolder below)
        → GivesMeant F.reading_may_fail (λ found.
        option_map entry_of found ≡ entry_at r.kind below path.now) result }
{
    Ok(entry_at(alloc, &repository.objects, tree, path)?)
}
