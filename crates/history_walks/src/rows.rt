//! Rows of all commits, each made after its parents', with its generation: the greatest of theirs plus one.

ghost use Rattle.std.specs.Prelude.{◌≡◌, IfOk, fold, map, max, unwrap_or};
ghost use Rattle.std.specs.HashMap.{get};
ghost use Rattle.gix_traverse_graph.specs.Numbered.{same_id};
ghost use Rattle.gix_traverse_graph.specs.Rows.{AreRows};
ghost use Rattle.history_model.specs.Answers as model;
ghost use Rattle.history_model.specs.Repository.{Repository};
ghost use Rattle.history_walks.specs.Rows.{AreTheRows};
ghost use Rattle.history_walks.specs.Telling.{AreAllTold};

use crate::told::Told;
use gix_hash::ObjectId;
use gix_traverse_graph::{GENERATION_LIMIT, Row};
use std::alloc::{AllocError, Global};
use std::collections::HashMap;

/// Returns the greatest of the generations of these commits, and 0 if there are none.
fn greatest(generations: &HashMap<ObjectId, u64>, parents: &[ObjectId]) -> u64
    ensures { result ≡ fold max 0
        (map (λ parent. unwrap_or (get same_id generations.now parent) 0) parents.now) }
{
    let mut greatest: u64 = 0;
    'parents: for parent in parents {
        if let Some(generation) = generations.get(parent) {
            greatest = greatest.max(*generation);
        }
    }
    greatest
}

/// Returns the rows of a repository's commits: all of them are given, each before its parents. A
/// commit whose longest way along parents has more than [`GENERATION_LIMIT`] commits has no row.
///
/// Fails only if memory runs out.
pub fn rows_of(alloc: Global, mut commits: Vec<Told>) -> Result<Vec<Row>, AllocError>
    ensures rows { (r : Repository) → AreAllTold r commits.items
        → IfOk result (λ rows. AreTheRows (model.rows_of r) rows.items) }
    ensures graph { (r : Repository) → AreAllTold r commits.items
        → IfOk result (λ rows. AreRows rows.items) }
{
    let mut rows = Vec::new(alloc);
    let mut generations: HashMap<ObjectId, u64> = HashMap::new(alloc);
    'commits: while let Some(told) = commits.pop() {
        let generation = greatest(&generations, told.parents.as_slice()).saturating_add(1);
        generations.insert(told.id, generation)?;
        if generation <= GENERATION_LIMIT as u64 {
            rows.push(Row {
                id: told.id,
                tree: told.tree,
                parents: told.parents,
                time: told.time,
                generation: generation as u32,
            })?;
        }
    }
    Ok(rows)
}
