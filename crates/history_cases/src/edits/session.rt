//! The words of a line, one after another.

use crate::edits::case::{PathEdit, kind_word, lent, read_edit};
use crate::edits::store::has_named;
use case_words::{Page, Row, Trees, read_digits, read_id, read_kind, row_of_content};
use gix_hash::{Kind, ObjectId};
use history_files::{
    EditError, EditedFiles, EditedTree, EntriesState, File, Found, ReadError, edit_files,
    entries_at, entry_at, files, files_by_trees,
};
use std::alloc::{AllocError, Global};

/// Returns the answer to the words of a line.
pub fn answer(alloc: Global, line: &str) -> Result<String, AllocError> {
    let mut page = Page::new(alloc);
    if play(alloc, line, &mut page).is_none() {
        page.word("unread");
    }
    page.finish()
}

fn play(alloc: Global, line: &str, page: &mut Page) -> Option<()> {
    let mut words = line.split(' ');
    let mut session = Session::new(alloc, read_kind(words.next()?)?);
    for word in words {
        session.act(alloc, word, page)?;
    }
    Some(())
}

// A root over trees, and the edits that are to be made of its files.
#[derive(Drop)]
struct Session {
    kind: Kind,
    trees: Trees,
    root: Option<ObjectId>,
    edits: Vec<PathEdit>,
}

impl Session {
    // Returns a session without a root and trees.
    fn new(alloc: Global, kind: Kind) -> Session {
        Session {
            kind,
            trees: Trees::new(alloc),
            root: None,
            edits: Vec::new(alloc),
        }
    }

    fn act(&mut self, alloc: Global, word: &str, page: &mut Page) -> Option<()> {
        let mut parts = word.split(':');
        match parts.next()? {
            "edit" => self.edit(alloc, page),
            "files" => self.list_files(alloc, page),
            "by-trees" => self.list_by_trees(alloc, page),
            "at" => self.find(alloc, parts.next()?, page),
            "each" => self.find_each(alloc, word, page),
            "tree" => self.add(alloc, parts.next()?, page),
            "root" => self.stand_on(parts.next()?),
            "fail" => self.fail_at(parts.next()?),
            _ => self.edits.push(read_edit(alloc, word)?).ok(),
        }
    }

    // Adds a tree, and shows its id.
    fn add(&mut self, alloc: Global, content: &str, page: &mut Page) -> Option<()> {
        let row = row_of_content(self.kind, read_digits(alloc, content)?);
        page.value(row.oid);
        self.trees.add(row).ok()
    }

    // Sets another root, or none for `-`.
    fn stand_on(&mut self, root: &str) -> Option<()> {
        self.root = match root {
            "-" => None,
            digits => Some(read_id(digits)?),
        };
        Some(())
    }

    // Sets the lookup at which the trees fail.
    fn fail_at(&self, number: &str) -> Option<()> {
        self.trees.fail_at(number.parse().ok()?);
        Some(())
    }

    // Makes the edits. If they are accepted, their trees are added to the others, and the root
    // becomes theirs.
    fn edit(&mut self, alloc: Global, page: &mut Page) -> Option<()> {
        let made = self.made(alloc)?;
        self.edits.clear();
        match made {
            Ok(edited) => self.take(alloc, edited, page),
            Err(error) => {
                show_edit_error(error, page);
                self.show_asked(page);
                Some(())
            }
        }
    }

    fn made(&self, alloc: Global) -> Option<Result<EditedFiles, EditError>> {
        let edits = lent(alloc, self.edits.as_slice())?;
        let root = self.root.as_ref();
        Some(edit_files(alloc, &self.trees, self.kind, root, edits.as_slice()))
    }

    fn take(&mut self, alloc: Global, edited: EditedFiles, page: &mut Page) -> Option<()> {
        page.value(edited.root);
        page.word("written");
        page.value(edited.trees.len());
        page.word("lookups");
        page.value(edited.lookups);
        self.show_asked(page);
        self.root = Some(edited.root);
        let mut known = true;
        for tree in edited.trees {
            known = known && has_named(&self.trees, alloc, self.kind, tree.content.as_slice());
            self.keep(tree)?;
        }
        page.word(if known { "known+" } else { "known-" });
        Some(())
    }

    fn keep(&mut self, tree: EditedTree) -> Option<()> {
        let row = Row {
            oid: tree.id,
            content: tree.content,
        };
        self.trees.add(row).ok()
    }

    // Shows all files of the root, each folder read.
    fn list_files(&self, alloc: Global, page: &mut Page) -> Option<()> {
        let found = files(alloc, &self.trees, self.root.as_ref()?);
        self.list(found, page)
    }

    // Shows all files of the root, each distinct tree read once.
    fn list_by_trees(&self, alloc: Global, page: &mut Page) -> Option<()> {
        let found = files_by_trees(alloc, &self.trees, self.root.as_ref()?);
        self.list(found, page)
    }

    // Shows the files that were found.
    fn list(&self, found: Result<Vec<File>, ReadError>, page: &mut Page) -> Option<()> {
        match found {
            Ok(found) => {
                page.word("files");
                page.value(found.len());
                for file in &found {
                    page.word(kind_word(file.kind));
                    page.text(":");
                    page.put(file.id);
                    page.text(":");
                    page.hex(file.path.as_slice());
                }
            }
            Err(error) => show_read_error(error, page),
        }
        self.show_asked(page);
        Some(())
    }

    // Shows what the root has at a path.
    fn find(&self, alloc: Global, path: &str, page: &mut Page) -> Option<()> {
        let path = read_digits(alloc, path)?;
        match entry_at(alloc, &self.trees, self.root.as_ref()?, path.as_slice()) {
            Ok(found) => show_found(found, page),
            Err(error) => show_read_error(error, page),
        }
        self.show_asked(page);
        Some(())
    }

    // Shows what the root has at each of the paths that a word names, and how many lookups the call
    // counted.
    fn find_each(&self, alloc: Global, word: &str, page: &mut Page) -> Option<()> {
        let root = self.root.as_ref()?;
        let paths = paths_in(alloc, word)?;
        let lent = lent_paths(alloc, paths.as_slice())?;
        self.show_each(alloc, root, lent.as_slice(), page);
        Some(())
    }

    fn show_each(&self, alloc: Global, root: &ObjectId, paths: &[&[u8]], page: &mut Page) {
        let mut state = EntriesState::new(alloc);
        match entries_at(alloc, &self.trees, root, paths, &mut state) {
            Ok(entries) => {
                for found in &entries {
                    show_found(*found, page);
                }
            }
            Err(error) => show_read_error(error, page),
        }
        page.word("told");
        page.value(state.asked());
        self.show_asked(page);
    }

    // Shows how often trees were looked up, and counts anew.
    fn show_asked(&self, page: &mut Page) {
        page.word("asked");
        page.value(self.trees.asked());
        self.trees.count_anew();
    }
}

fn show_found(found: Option<Found>, page: &mut Page) {
    match found {
        Some(Found::File { kind, id }) => {
            page.word(kind_word(kind));
            page.text(":");
            page.put(id);
        }
        Some(Found::Folder { id }) => {
            page.word("folder:");
            page.put(id);
        }
        None => page.word("none"),
    }
}

fn show_read_error(error: ReadError, page: &mut Page) {
    match error {
        ReadError::Failed => page.word("Failed"),
        ReadError::Broken { oid } => show_broken(oid, page),
        ReadError::Memory => page.word("Memory"),
    }
}

fn show_edit_error(error: EditError, page: &mut Page) {
    match error {
        EditError::BadPath => page.word("BadPath"),
        EditError::IsFolder => page.word("IsFolder"),
        EditError::NullId => page.word("NullId"),
        EditError::EmptyTree => page.word("EmptyTree"),
        EditError::Failed => page.word("Failed"),
        EditError::Broken { oid } => show_broken(oid, page),
        EditError::Memory => page.word("Memory"),
    }
}

fn show_broken(oid: ObjectId, page: &mut Page) {
    page.word("Broken(");
    page.put(oid);
    page.text(")");
}

// Returns the paths, lent.
fn lent_paths(alloc: Global, paths: &[Vec<u8>]) -> Option<Vec<&[u8]>> {
    let mut lent = Vec::new(alloc);
    for path in paths {
        lent.push(path.as_slice()).ok()?;
    }
    Some(lent)
}

// Returns the paths that a word names after its first part.
fn paths_in(alloc: Global, word: &str) -> Option<Vec<Vec<u8>>> {
    let mut parts = word.split(':');
    parts.next()?;
    let mut paths = Vec::new(alloc);
    for part in parts {
        paths.push(read_digits(alloc, part)?).ok()?;
    }
    Some(paths)
}
