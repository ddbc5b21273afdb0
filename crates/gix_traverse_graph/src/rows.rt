//! `Graph`: rows of commits, numbered, parents and generations checked (`RowsError`); lookups by id, copies.

ghost use Rattle.std.specs.Prelude.{◌≡◌, ◌≢◌, ◌+◌, ◌<◌, ◌≤◌, ℕ, Contains, IfOk, IfErr, IfSome, IfNone, IsSome};
ghost use Rattle.gix_traverse_graph.specs.Rows.{Holds, HasParents, HasGeneration, IsGreatest, AreRows, IsRowsFault, IsOnce, LacksParent};
ghost use Rattle.gix_traverse_graph.specs.declared.rows.RowsError.TheVariants.{Memory};
ghost use Rattle.gix_traverse_graph.specs.Numbered.{Numbers, NumbersBelow};
ghost use Rattle.gix_traverse_graph.specs.RowCommits.{commits_of};

use crate::ParentIds;
use gix_hash::ObjectId;
use std::alloc::{AllocError, AllocFailed, Global};
use std::collections::HashMap;
use std::marker::Model;
use std::rc::Rc;
use thiserror::Error;

/// The greatest generation that a row may have.
pub const GENERATION_LIMIT: u32 = 1_073_741_823;

/// What a walk needs of a commit.
#[derive(Debug, PartialEq, Eq, Drop)]
pub struct Row {
    /// The commit's id.
    pub id: ObjectId,
    /// The id of its tree.
    pub tree: ObjectId,
    /// The ids of its parents, in their order.
    pub parents: ParentIds,
    /// Its committer's seconds since 1970.
    pub time: i64,
    /// 1 for a commit without parents, otherwise one more than its parents' greatest.
    pub generation: u32,
}

/// Why some rows make no graph.
#[derive(Debug, Clone, Copy, PartialEq, Eq, Error)]
pub enum RowsError {
    /// Two rows are of this commit.
    #[error("the commit {0} has two rows")]
    Twice(ObjectId),
    /// The first commit has the second as a parent, which has no row.
    #[error("the commit {0} has a row, and its parent {1} has none")]
    MissingParent(ObjectId, ObjectId),
    /// The generation in this commit's row is not by the rule, or is above the limit.
    #[error("the row of the commit {0} has a wrong generation")]
    BadGeneration(ObjectId),
    /// There is no memory for the graph.
    #[error("there is no memory for the rows")]
    Memory,
}

impl<T: Drop> From<AllocFailed<T>> for RowsError {
    ghost from_gives = { λ _ error. error ≡ Memory };

    fn from(_refused: AllocFailed<T>) -> Self {
        RowsError::Memory
    }
}

/// Rows, and the number of each commit's row.
#[derive(Drop)]
struct Table {
    rows: Vec<Row>,
    numbers: HashMap<ObjectId, usize>,
}

impl Table {
    /// The rows, numbered. Returns `Twice` if two rows are of one commit.
    fn numbered(rows: Vec<Row>) -> Result<Table, RowsError>
        ensures rows { IfOk result (λ table. table.rows.items ≡ rows.items) }
        ensures numbers { IfOk result (λ table. Numbers table.rows.items table.numbers) }
        ensures refused { IfErr result (IsRowsFault rows.items) }
    {
        let mut numbers: HashMap<ObjectId, usize> = HashMap::new(*rows.allocator());
        'rows: for (number, row) in rows.iter().enumerate() {
            let before = numbers.insert(row.id, number)?;
            if before.is_some() {
                return Err(RowsError::Twice(row.id));
            }
        }
        Ok(Table { rows, numbers })
    }

    /// The rows, numbered, if they make a graph. If not, the error says why.
    fn checked(rows: Vec<Row>) -> Result<Table, RowsError>
        ensures rows { IfOk result (λ table. table.rows.items ≡ rows.items) }
        ensures numbers { IfOk result (λ table. Numbers table.rows.items table.numbers) }
        ensures whole { IfOk result (λ table. AreRows table.rows.items) }
        ensures refused { IfErr result (IsRowsFault rows.items) }
    {
        let table = Table::numbered(rows)?;
        table.check_parents()?;
        table.check_generations()?;
        Ok(table)
    }

    /// The row of a commit, if it has one.
    fn row(&self, id: &ObjectId) -> Option<&Row>
        requires { Numbers self.now.rows.items self.now.numbers }
        ensures found { IfSome result (λ row. Contains self.now.rows.items row.now
            × (row.now.id ≡ id.now)) }
        ensures none { IfNone result (¬ Holds self.now.rows.items id.now) }
    {
        self.rows.get(*self.numbers.get(id)?)
    }

    /// A parent of a row that has no row.
    fn missing_parent(&self, row: &Row) -> Option<ObjectId>
        requires { Numbers self.now.rows.items self.now.numbers }
        ensures missing { IfSome result (LacksParent self.now.rows.items row.now) }
        ensures none { IfNone result (HasParents self.now.rows.items row.now) }
    {
        'parents: for parent in row.parents.as_slice() {
            if self.row(parent).is_none() {
                return Some(*parent);
            }
        }
        None
    }

    /// The greatest generation of the rows of these commits, and 0 if there is none.
    fn greatest(&self, parents: &[ObjectId]) -> u32
        requires numbers { Numbers self.now.rows.items self.now.numbers }
        requires rows { (p : _) → Contains parents.now p → Holds self.now.rows.items p }
        ensures { IsGreatest self.now.rows.items parents.now result }
    {
        let mut greatest: u32 = 0;
        'parents: for parent in parents {
            if let Some(row) = self.row(parent) {
                greatest = greatest.max(row.generation);
            }
        }
        greatest
    }

    /// Tests that each row's parents have rows. If not, returns `MissingParent`.
    fn check_parents(&self) -> Result<(), RowsError>
        requires { Numbers self.now.rows.items self.now.numbers }
        ensures checked { IfOk result (λ _. (r : Row) → Contains self.now.rows.items r
            → HasParents self.now.rows.items r) }
        ensures refused { IfErr result (IsRowsFault self.now.rows.items) }
    {
        'rows: for row in &self.rows {
            if let Some(parent) = self.missing_parent(row) {
                return Err(RowsError::MissingParent(row.id, parent));
            }
        }
        Ok(())
    }

    /// Tests that each row's generation is by the rule. If not, returns `BadGeneration`.
    fn check_generations(&self) -> Result<(), RowsError>
        requires numbers { Numbers self.now.rows.items self.now.numbers }
        requires parents { (r : Row) → Contains self.now.rows.items r
            → HasParents self.now.rows.items r }
        ensures checked { IfOk result (λ _. (r : Row) → Contains self.now.rows.items r
            → HasGeneration self.now.rows.items r) }
        ensures refused { IfErr result (IsRowsFault self.now.rows.items) }
    {
        'rows: for row in &self.rows {
            let greatest = self.greatest(row.parents.as_slice());
            if greatest >= GENERATION_LIMIT || row.generation != greatest + 1 {
                return Err(RowsError::BadGeneration(row.id));
            }
        }
        Ok(())
    }
}

/// Rows of commits, in which each parent of a row has a row too.
#[derive(Drop)]
pub struct Graph {
    table: Rc<Table>,
}

impl Model for Graph {
    ghost use Rattle.std.specs.Prelude.{List};
    ghost use Rattle.gix_traverse_graph.specs.declared.rows.Row.{Row};

    ghost Value = { List Row };

    ghost use Rattle.gix_traverse_graph.specs.Rows.{AreRows};
    ghost use Rattle.gix_traverse_graph.specs.Numbered.{Numbers};

    ghost view = { λ graph. graph.table.value.rows.items };

    ghost invariant = { λ graph. AreRows graph.table.value.rows.items
        × Numbers graph.table.value.rows.items graph.table.value.numbers };
}

impl Graph {
    /// The graph of these rows.
    ///
    /// Returns `Twice` if two rows are of one commit, otherwise `MissingParent` if a row's parent
    /// has no row, otherwise `BadGeneration` if a row's generation is not by the rule or above the
    /// limit, and `Memory` if there is no memory for the graph.
    pub fn from_rows(rows: Vec<Row>) -> Result<Graph, RowsError>
        ensures kept { IfOk result (λ graph. graph ≡ rows.items) }
        ensures whole { IfOk result AreRows }
        ensures refused { IfErr result (IsRowsFault rows.items) }
    {
        let alloc: Global = *rows.allocator();
        let table = Rc::new(alloc, Table::checked(rows)?)?;
        Ok(Graph { table })
    }

    /// The row of a commit; `None` if it has none.
    pub fn commit_by_id(&self, id: &ObjectId) -> Option<&Row>
        ensures found { IfSome result (λ row. Contains self.now row.now × (row.now.id ≡ id.now)) }
        ensures none { IfNone result (¬ Holds self.now id.now) }
        ensures rows { AreRows self.now }
    {
        self.table.row(id)
    }

    /// The parents of a commit, if it has a row.
    pub(crate) fn parents_of(&self, id: &ObjectId) -> Option<&[ObjectId]>
        ensures stored { IsSome result → Holds self.now id.now }
        ensures missing { IfNone result (¬ Holds self.now id.now) }
        ensures parents { IfSome result (λ ids. ids.now ≡ (commits_of self.now id.now).parents) }
    {
        let row = self.commit_by_id(id)?;
        Some(row.parents.as_slice())
    }

    /// The same graph once more, which copies no row; `AllocError` if there are too many already.
    pub fn try_clone(&self) -> Result<Graph, AllocError>
        ensures { IfOk result (λ graph. graph ≡ self.now) }
    {
        Ok(Graph {
            table: self.table.clone()?,
        })
    }
}
