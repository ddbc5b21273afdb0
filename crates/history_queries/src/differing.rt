//! The commits that differ at some paths from their first parents.

ghost use Rattle.std.specs.Prelude.{◌≡◌, List, filter, map, option_map, replicate, IfOk, IfSome, None, Some};
ghost use Rattle.std.specs.Borrow.{Bor};
ghost use Rattle.std.specs.FinMap.{get};
ghost use Rattle.gix_hash.specs.Id.{id_of};
ghost use Rattle.history_files.specs.Reading.{entry_of};
ghost use Rattle.history_model.specs.Answers.{differs_at};
ghost use Rattle.history_model.specs.Bytes.{Bytes};
ghost use Rattle.history_model.specs.FileMap.{FileMap};
ghost use Rattle.history_model.specs.Objects.{StoredFolder, entry_at};
ghost use Rattle.history_model.specs.Repository.{HoldsCommit};
ghost use Rattle.history_repository.specs.Reads.{GivesMeant};
ghost use Rattle.history_repository.specs.Stands.{Stands};
ghost use Rattle.history_queries.specs.Seen.{IsCompared, IsSeen, IsSeenAt, ReadsNamed};
ghost use Rattle.history_queries.specs.Walked.{AllHold, AreRead};
ghost use Rattle.history_model.specs.Repository as plain;

use crate::rows::told_of;
use gix_hash::ObjectId;
use gix_ref_file::Files;
use gix_traverse_graph::ParentIds;
use history_files::{Found, NamedTrees, entries_at_once};
use history_repository::{Repository, Stopped};
use history_walks::ReadCommits;
use std::alloc::{AllocError, Global};

// Returns nothing at each of so many paths. Fails only if memory runs out.
fn nothing_at(alloc: Global, paths: usize) -> Result<Vec<Option<Found>>, AllocError>
    ensures { IfOk result (λ found. found.items ≡ replicate paths None) }
{
    let mut found = Vec::new(alloc);
    found.resize(paths, None)?;
    Ok(found)
}

/// Returns what is at each of the paths below a stored tree, in their order. Of the trees on the
/// paths only those are read that weren't before. The faults are those of `see`.
fn found_each<F: Files>(
    repository: &Repository<F>,
    alloc: Global,
    tree: &ObjectId,
    trees: &mut NamedTrees<'_>,
) -> Result<Vec<Option<Found>>, Stopped>
    ensures { (r : plain.Repository) (below : FileMap) (paths : List (Bor Bytes))
        → Stands F.is_honest F.history repository.now r
        → get r.objects (id_of tree.now) ≡ Some (StoredFolder below)
        → ReadsNamed F.reading_may_fail r paths trees.old trees.new (λ found.
        map (option_map entry_of) found.items
        ≡ map (λ path. entry_at r.kind below path.now) paths) result }
{
    Ok(entries_at_once(alloc, &repository.objects, tree, trees)?)
}

/// A commit that was seen: its parents, and what it has at some paths.
#[derive(Drop)]
struct Seen {
    id: ObjectId,
    parents: ParentIds,
    found: Vec<Option<Found>>,
}

/// Whether a commit differs at some paths from its first parent, and what was seen of that, if
/// there is one.
#[derive(Drop)]
struct Compared {
    differs: bool,
    before: Option<Seen>,
}

/// Returns the parents of a stored commit, and what it has at some paths.
///
/// Its content is read, unless it has a row or is kept, and the trees on the paths that weren't
/// read before. It is a fault if a call of the files failed, or if no memory is left.
fn see<F: Files>(
    repository: &Repository<F>,
    alloc: Global,
    read: &ReadCommits,
    id: &ObjectId,
    trees: &mut NamedTrees<'_>,
) -> Result<Seen, Stopped>
    ensures { (r : plain.Repository) (paths : List (Bor Bytes))
        → Stands F.is_honest F.history repository.now r → AreRead r read.now
        → HoldsCommit r (id_of id.now) → ReadsNamed F.reading_may_fail r paths trees.old trees.new
        (IsSeenAt r paths (id_of id.now)) result }
{
    let told = told_of(repository, alloc, read, id)?;
    let found = found_each(repository, alloc, &told.tree, trees)?;
    Ok(Seen {
        id: told.id,
        parents: told.parents,
        found,
    })
}

/// Returns the same of a commit that may be the one that was seen last: then nothing is read.
fn see_next<F: Files>(
    repository: &Repository<F>,
    alloc: Global,
    read: &ReadCommits,
    last: Option<Seen>,
    id: &ObjectId,
    trees: &mut NamedTrees<'_>,
) -> Result<Seen, Stopped>
    ensures { (r : plain.Repository) (paths : List (Bor Bytes))
        → Stands F.is_honest F.history repository.now r → AreRead r read.now
        → HoldsCommit r (id_of id.now) → IfSome last (IsSeen r paths)
        → ReadsNamed F.reading_may_fail r paths trees.old trees.new
        (IsSeenAt r paths (id_of id.now)) result }
{
    if let Some(seen) = last {
        if seen.id == *id {
            return Ok(seen);
        }
    }
    see(repository, alloc, read, id, trees)
}

/// Returns whether what a commit has at some paths isn't what its first parent has there.
///
/// The first parent is seen, if there is one. It is a fault if a call of the files failed, or if no
/// memory is left.
fn compare<F: Files>(
    repository: &Repository<F>,
    alloc: Global,
    read: &ReadCommits,
    here: &Seen,
    paths: &[&[u8]],
    trees: &mut NamedTrees<'_>,
) -> Result<Compared, Stopped>
    ensures { (r : plain.Repository) → Stands F.is_honest F.history repository.now r
        → AreRead r read.now → IsSeen r paths.now here.now
        → ReadsNamed F.reading_may_fail r paths.now trees.old trees.new
        (IsCompared r paths.now (id_of here.now.id)) result }
{
    let Some(parent) = here.parents.as_slice().first() else {
        let nothing = nothing_at(alloc, paths.len())?;
        return Ok(Compared {
            differs: here.found.as_slice() != nothing.as_slice(),
            before: None,
        });
    };
    let before = see(repository, alloc, read, parent, trees)?;
    Ok(Compared {
        differs: here.found.as_slice() != before.found.as_slice(),
        before: Some(before),
    })
}

/// Returns those of some commits that differ at some paths from their first parents, in their
/// order.
///
/// The commits are stored. Of each and of its first parent the content is read, unless it has a row
/// or is kept, and the trees on the paths, each once: what each has under the paths' names is kept.
/// It is a fault if a call of the files failed, or if no memory is left.
pub(crate) fn differing<F: Files>(
    repository: &Repository<F>,
    alloc: Global,
    read: &ReadCommits,
    ids: &[ObjectId],
    paths: &[&[u8]],
) -> Result<Vec<ObjectId>, Stopped>
    ensures { (r : plain.Repository) → Stands F.is_honest F.history repository.now r
        → AreRead r read.now → AllHold r ids.now → GivesMeant F.reading_may_fail
        (λ differing. map id_of differing.items
        ≡ filter (differs_at r (map (λ path. path.now) paths.now)) (map id_of ids.now)) result }
{
    let mut trees = NamedTrees::new(alloc, paths)?;
    let mut differing = Vec::new(alloc);
    let mut last = None;
    for id in ids {
        let here = see_next(repository, alloc, read, last.take(), id, &mut trees)?;
        let Compared { differs, before } = compare(
            repository, alloc, read, &here, paths, &mut trees,
        )?;
        if differs {
            differing.push(*id)?;
        }
        last = before;
    }
    Ok(differing)
}
