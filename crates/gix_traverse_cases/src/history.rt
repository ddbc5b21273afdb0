//! Commits as the lines give them, as objects and as rows.

use crate::numbers::{number, read_id, read_ids};
use case_words::{Page, Store, Stored};
use gix_hash::ObjectId;
use gix_object_lines::Kind;
use gix_traverse_commit::{Graph, ParentIds, Row, RowsError};
use std::alloc::Global;
use std::mem;

/// Objects, and the graph that rows made last.
#[derive(Drop)]
pub struct History {
    /// The objects.
    pub objects: Store,
    /// The graph, if one was made.
    pub graph: Option<Graph>,
    rows: Vec<Row>,
}

impl History {
    /// Nothing is known.
    pub fn new(alloc: Global) -> History {
        History {
            objects: Store::new(alloc),
            graph: None,
            rows: Vec::new(alloc),
        }
    }

    /// A further row: a number, a time, a generation and the parents' numbers. `None` if the words
    /// spell none, or no memory is left.
    pub fn add_row(&mut self, alloc: Global, word: &[&str]) -> Option<()> {
        let id = read_id(*word.get(1)?)?;
        let parents = read_ids(alloc, *word.get(4)?)?;
        let row = Row {
            id,
            tree: id,
            parents: ParentIds::from_slice(alloc, parents.as_slice()).ok()?,
            time: word.get(2)?.parse::<i64>().ok()?,
            generation: word.get(3)?.parse::<u32>().ok()?,
        };
        self.rows.push(row).ok()
    }

    /// Makes a graph of the rows since the last one, and adds why it can't be made.
    pub fn make_graph(&mut self, alloc: Global, page: &mut Page) {
        let rows = mem::replace(&mut self.rows, Vec::new(alloc));
        match Graph::from_rows(rows) {
            Ok(graph) => {
                self.graph = Some(graph);
                page.text("graph");
            }
            Err(error) => put_error(error, page),
        }
    }

    /// The object of a commit: a number, a time and the parents' numbers.
    pub fn add_commit(&mut self, alloc: Global, word: &[&str]) -> Option<()> {
        let id = read_id(*word.get(1)?)?;
        let mut text = Page::new(alloc);
        put_commit(alloc, &id, *word.get(2)?, *word.get(3)?, &mut text)?;
        let content = Vec::from_slice(alloc, text.as_str().as_bytes()).ok()?;
        let kind = Kind::Commit;
        self.objects.put(Stored { id, kind, content }).ok()
    }
}

fn put_commit(
    alloc: Global,
    id: &ObjectId,
    seconds: &str,
    parents: &str,
    text: &mut Page,
) -> Option<()> {
    text.put_between("tree ", id, "\n");
    for parent in &read_ids(alloc, parents)? {
        text.put_between("parent ", parent, "\n");
    }
    text.text("author A <a@b> 0 +0000\ncommitter A <a@b> ");
    text.text(seconds);
    text.text(" +0000\n\nA message.\n");
    Some(())
}

fn put_error(error: RowsError, page: &mut Page) {
    match error {
        RowsError::Twice(id) => page.put_between("twice ", number(&id), ""),
        RowsError::MissingParent(id, parent) => {
            page.put_between("missing ", number(&id), " ");
            page.put(number(&parent));
        }
        RowsError::BadGeneration(id) => page.put_between("generation ", number(&id), ""),
        RowsError::Memory => page.text("memory"),
    }
}
