//! Stored commits, files and lists of commits.

ghost use Rattle.std.specs.Prelude.{◌≡◌, IfErr, IfOk, Some, map};
ghost use Rattle.std.specs.FinMap.{entries, get};
ghost use Rattle.history_model.specs.Answers.{file_line};
ghost use Rattle.history_files.specs.Reading.{line_of};
ghost use Rattle.history_model.specs.FileMap.{FileMap};
ghost use Rattle.history_model.specs.Objects.{CommitValue, StoredCommit, StoredFolder, commit_content};
ghost use Rattle.history_texts.specs.Commits.{SaysCommit};
ghost use Rattle.gix_hash.specs.Id.{Id, id_of};
ghost use Rattle.gix_traverse_graph.specs.Rows.{AllHeld};
ghost use Rattle.gix_traverse_commit_known.specs.Told.{rows_of};
ghost use Rattle.history_model.specs.declared.Fault.TheVariants.{Memory};
ghost use Rattle.history_repository.specs.Stands.{Stands};
ghost use Rattle.history_repository.specs.Meant.{HasContent};
ghost use Rattle.history_repository.specs.Reads.{GivesMeant, IsReadingFault};
ghost use Rattle.history_repository.specs.Face.{rows_in};
ghost use Rattle.history_walks.specs.Asking.{parents_in};
ghost use Rattle.history_queries.specs.Walked.{AllHold, AreRead, IsFollowed};
ghost use Rattle.history_repository.specs.declared.stopped.Stopped.TheVariants as why;
ghost use Rattle.history_model.specs.Repository as plain;

use gix_hash::ObjectId;
use gix_object::Commit;
use gix_ref_file::Files;
use gix_traverse_graph::Graph;
use history_files::{File, files_by_trees};
use history_model::Fault;
use history_repository::{MeantCommit, Repository, Stopped, content};
use history_store::parse_commit;
use history_walks::{Order, Parents, ReadCommits, ReadStore, Request, list_commits};
use std::alloc::{AllocError, Global};

/// The commits that a walk lists, and those that were read for it and are kept.
#[derive(Drop)]
pub(crate) struct Walk {
    pub ids: Vec<ObjectId>,
    pub read: ReadCommits,
}

// In a whole repository each id that is read names an object of its kind, so only a failed call
// leads to `fault File`.

/// Returns the commit of this content.
fn commit_in<F: Files>(
    repository: &Repository<F>,
    alloc: Global,
    content: &[u8],
) -> Result<Commit, Stopped>
    ensures { (r : plain.Repository) (id : Id) (value : CommitValue)
        → Stands F.is_honest F.history repository.now r
        → get r.objects id ≡ Some (StoredCommit value) → content.now ≡ commit_content r.kind value
        → GivesMeant F.reading_may_fail (λ commit. SaysCommit r.kind commit value) result }
{
    Ok(parse_commit(alloc, repository.objects.kind(), content)?.ok_or(Fault::File)?)
}

/// Returns a stored commit, whose content is read. It is a fault if a call of the files failed, or
/// if no memory is left.
pub(crate) fn read_commit<F: Files>(
    repository: &Repository<F>,
    alloc: Global,
    id: &ObjectId,
) -> Result<Commit, Stopped>
    ensures { (r : plain.Repository) (value : CommitValue)
        → Stands F.is_honest F.history repository.now r
        → get r.objects (id_of id.now) ≡ Some (StoredCommit value)
        → GivesMeant F.reading_may_fail (λ commit. SaysCommit r.kind commit value) result }
{
    let content = content(repository, alloc, gix_object::Kind::Commit, id)?;
    commit_in(repository, alloc, &content)
}

/// Returns a commit that is meant. Its content is read only if it wasn't read before. The faults
/// are those of `read_commit`.
pub(crate) fn commit_meant<F: Files>(
    repository: &Repository<F>,
    alloc: Global,
    meant: &MeantCommit,
) -> Result<Commit, Stopped>
    ensures { (r : plain.Repository) (value : CommitValue)
        → Stands F.is_honest F.history repository.now r
        → get r.objects (id_of meant.now.id) ≡ Some (StoredCommit value)
        → HasContent r meant.now
        → GivesMeant F.reading_may_fail (λ commit. SaysCommit r.kind commit value) result }
{
    match &meant.content {
        Some(content) => commit_in(repository, alloc, content),
        None => read_commit(repository, alloc, &meant.id),
    }
}

/// Returns a stored commit. Its content is read only if it isn't kept. The faults are those of
/// `read_commit`.
pub(crate) fn commit_kept<F: Files>(
    repository: &Repository<F>,
    alloc: Global,
    read: &ReadCommits,
    id: &ObjectId,
) -> Result<Commit, Stopped>
    ensures { (r : plain.Repository) (value : CommitValue)
        → Stands F.is_honest F.history repository.now r → AreRead r read.now
        → get r.objects (id_of id.now) ≡ Some (StoredCommit value)
        → GivesMeant F.reading_may_fail (λ commit. SaysCommit r.kind commit value) result }
{
    match read.content(id) {
        Some(content) => commit_in(repository, alloc, content),
        None => read_commit(repository, alloc, id),
    }
}

/// Returns the files below a stored tree, their paths ascending. Each different tree is read once,
/// however often it occurs; no content of theirs is read. The faults are those of `read_commit`.
pub(crate) fn files_below<F: Files>(
    repository: &Repository<F>,
    alloc: Global,
    tree: &ObjectId,
) -> Result<Vec<File>, Stopped>
    ensures { (r : plain.Repository) (below : FileMap) → Stands F.is_honest F.history repository.now r
        → get r.objects (id_of tree.now) ≡ Some (StoredFolder below)
        → GivesMeant F.reading_may_fail (λ found. map line_of found.items
        ≡ map (file_line r.kind) (entries below)) result }
{
    Ok(files_by_trees(alloc, &repository.objects, tree)?)
}

/// Returns the rows that are kept again; no row is copied.
fn copied_rows<F: Files>(repository: &Repository<F>) -> Result<Option<Graph>, AllocError>
    ensures { IfOk result (λ rows. rows ≡ rows_in repository.now) }
{
    match &repository.rows {
        Some(rows) => Ok(Some(rows.try_clone()?)),
        None => Ok(None),
    }
}

// Returns the parents that a walk in this order goes along.
fn parents_along(order: &Order) -> Parents
    ensures { result ≡ parents_in order.now }
{
    match order {
        Order::Breadth(parents) | Order::Date(parents) | Order::Topological(parents) => *parents,
        Order::Newest { .. } | Order::Oldest { .. } => Parents::All,
    }
}

/// Returns the commits that are known, and with them, if all are to be kept, those without rows
/// that tips or hidden commits reach along the order's parents: each of these is read once. The
/// tips, the hidden ones, what is known and the faults are those of `commits`.
fn read_ahead<F: Files>(
    repository: &Repository<F>,
    alloc: Global,
    known: ReadCommits,
    request: &Request,
    keeps: bool,
) -> Result<ReadCommits, Stopped>
    ensures reads { (r : plain.Repository) → Stands F.is_honest F.history repository.now r
        → AreRead r known → IfOk result (AreRead r) }
    ensures stopped { (r : plain.Repository) → Stands F.is_honest F.history repository.now r
        → AreRead r known
        → AllHold r request.now.tips.items → AllHold r request.now.hidden.items
        → IfErr result (IsReadingFault F.reading_may_fail) }
    ensures rowed { (r : plain.Repository) → Stands F.is_honest F.history repository.now r
        → AreRead r known
        → AllHeld (rows_of (rows_in repository.now)) request.now.tips.items
        → AllHeld (rows_of (rows_in repository.now)) request.now.hidden.items
        → IfErr result (λ stopped. stopped ≡ why.Fault Memory) }
{
    if !keeps {
        return Ok(known);
    }
    let rows = copied_rows(repository)?;
    let store = ReadStore {
        store: &repository.objects,
        read: &known,
    };
    Ok(ReadCommits::reached(
        alloc,
        &store,
        rows,
        &request.tips,
        &request.hidden,
        parents_along(&request.order),
    )?)
}

/// Returns the commits that some tips reach and no hidden commit reaches, each once, in the
/// requested order; and the commits that were read. These are those that are known, of which none
/// is read again; and, if all are to be kept, those without rows that the walk comes to, of which
/// each is read once. Of a commit that has a row no file is read.
///
/// The tips and the hidden ones are stored commits, and what is known is as it is stored. It is a
/// fault if a call of the files failed, or if no memory is left.
pub(crate) fn commits<F: Files>(
    repository: &Repository<F>,
    alloc: Global,
    known: ReadCommits,
    request: Request,
    keeps: bool,
) -> Result<Walk, Stopped>
    ensures lists { (r : plain.Repository) → Stands F.is_honest F.history repository.now r
        → AreRead r known → AllHold r request.tips.items → AllHold r request.hidden.items
        → GivesMeant F.reading_may_fail (IsFollowed r request) result }
    // If all of them have rows, the walk looks up no object, so that no failed call stops it.
    ensures rowed { (r : plain.Repository) → Stands F.is_honest F.history repository.now r
        → AreRead r known
        → AllHeld (rows_of (rows_in repository.now)) request.tips.items
        → AllHeld (rows_of (rows_in repository.now)) request.hidden.items
        → IfErr result (λ stopped. stopped ≡ why.Fault Memory) }
{
    let read = read_ahead(repository, alloc, known, &request, keeps)?;
    let rows = copied_rows(repository)?;
    let store = ReadStore {
        store: &repository.objects,
        read: &read,
    };
    let ids = list_commits(alloc, &store, rows, request)?;
    Ok(Walk { ids, read })
}
