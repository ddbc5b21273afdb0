//! The rows of all stored commits.

ghost use Rattle.std.specs.Prelude.{◌≡◌, Contains, IfOk, IfSome};
ghost use Rattle.gix_hash.specs.Id.{id_of};
ghost use Rattle.gix_traverse_graph.specs.Rows.{AreRows};
ghost use Rattle.gix_traverse_commit_known.specs.Told.{rows_of as graph_rows};
ghost use Rattle.history_model.specs.Repository.{HoldsCommit};
ghost use Rattle.history_walks.specs.Rows.{AreTheRows};
ghost use Rattle.history_walks.specs.Telling.{TellsStored};
ghost use Rattle.history_repository.specs.Face.{rows_in};
ghost use Rattle.history_repository.specs.Reads.{GivesMeant};
ghost use Rattle.history_queries.specs.Indexing.{AreTheCommits, AreToldOf};
ghost use Rattle.history_repository.specs.Stands.{Stands};
ghost use Rattle.history_queries.specs.Walked.{AllHold, AreRead};
ghost use Rattle.history_model.specs.Answers as model;
ghost use Rattle.history_model.specs.Repository as plain;

use crate::reading::{commit_kept, commits};
use gix_hash::ObjectId;
use gix_object::Commit;
use gix_ref_file::Files;
use gix_traverse_graph::{ParentIds, Row};
use history_repository::{Repository, Stopped};
use history_walks::{Order, Parents, ReadCommits, Request, Told, rows_of};
use std::alloc::{AllocError, Global};

/// Returns the row that is kept of a commit, if it has one.
fn row_of<'a, F: Files>(repository: &'a Repository<F>, id: &ObjectId) -> Option<&'a Row>
    ensures { IfSome result (λ row. Contains (graph_rows (rows_in repository.now)) row.now
        × (row.now.id ≡ id.now)) }
{
    repository.rows()?.commit_by_id(id)
}

/// Returns the ids of all stored commits. No file is read. Fails only if memory runs out.
fn stored_commits<F: Files>(
    repository: &Repository<F>,
    alloc: Global,
) -> Result<Vec<ObjectId>, AllocError>
    ensures { (r : plain.Repository) → Stands F.is_honest F.history repository.now r
        → IfOk result (λ ids. AreTheCommits r ids.items) }
{
    let mut commits = Vec::new(alloc);
    'ids: for id in repository.objects.commits() {
        commits.push(id)?;
    }
    Ok(commits)
}

/// Returns what a stored commit says: by its row, if it has one; else by its content, which is read
/// only if it isn't kept. It is a fault if a call of the files failed, or if no memory is left.
pub(crate) fn told_of<F: Files>(
    repository: &Repository<F>,
    alloc: Global,
    read: &ReadCommits,
    id: &ObjectId,
) -> Result<Told, Stopped>
    ensures { (r : plain.Repository) → Stands F.is_honest F.history repository.now r
        → AreRead r read.now → HoldsCommit r (id_of id.now) → GivesMeant F.reading_may_fail
        (λ told. (told.id ≡ id.now) × TellsStored r told) result }
{
    if let Some(row) = row_of(repository, id) {
        return Ok(Told {
            id: *id,
            tree: row.tree,
            parents: ParentIds::from_slice(alloc, row.parents.as_slice())?,
            time: row.time,
        });
    }
    let Commit {
        tree,
        parents,
        committer,
        ..
    } = commit_kept(repository, alloc, read, id)?;
    Ok(Told {
        id: *id,
        tree,
        parents,
        time: committer.time.seconds,
    })
}

/// Returns what stored commits say, in their order. The faults are those of `told_of`.
fn told<F: Files>(
    repository: &Repository<F>,
    alloc: Global,
    read: &ReadCommits,
    ids: &[ObjectId],
) -> Result<Vec<Told>, Stopped>
    ensures { (r : plain.Repository) → Stands F.is_honest F.history repository.now r
        → AreRead r read.now → AllHold r ids.now
        → GivesMeant F.reading_may_fail (λ told. AreToldOf r ids.now told.items) result }
{
    let mut commits = Vec::new(alloc);
    'ids: for id in ids {
        commits.push(told_of(repository, alloc, read, id)?)?;
    }
    Ok(commits)
}

/// Returns the rows of all stored commits. Each that has no row is read once, and no other object.
/// It is a fault if a call of the files failed, or if no memory is left.
pub fn all_rows<F: Files>(repository: &Repository<F>, alloc: Global) -> Result<Vec<Row>, Stopped>
    ensures rows { (r : plain.Repository) → Stands F.is_honest F.history repository.now r
        → GivesMeant F.reading_may_fail (λ rows. AreTheRows (model.rows_of r) rows.items)
        result }
    ensures graph { (r : plain.Repository) → Stands F.is_honest F.history repository.now r
        → IfOk result (λ rows. AreRows rows.items) }
{
    let request = Request {
        order: Order::Topological(Parents::All),
        tips: stored_commits(repository, alloc)?,
        hidden: Vec::new(alloc),
    };
    let walk = commits(repository, alloc, ReadCommits::new(alloc), request, true)?;
    Ok(rows_of(alloc, told(repository, alloc, &walk.read, &walk.ids)?)?)
}
