//! Lists of edits, made ready for a transaction.

ghost use Rattle.std.specs.Prelude.{⊤, None};

use crate::name::targets;
use case_words::{Page, text_of};
use gix_hash::ObjectId;
use gix_ref_edit::{
    Change, FindTarget, FindTargetError, LogChange, PreProcessError, PreviousValue, RefEdit,
    RefEditsExt, RefLog, SplitError, TwiceError,
};
use gix_ref_name::{FullName, FullNameRef, Target};
use std::alloc::Global;

// References: their names and what they point to.
#[derive(Drop)]
struct Table {
    rows: Vec<(FullName, Target)>,
}

impl FindTarget for Table {
    ghost targets = { λ _ _. None };

    ghost is_honest = { λ _. ⊥ };

    ghost may_fail = { λ _. ⊤ };

    fn find_target(
        &self,
        alloc: Global,
        name: FullNameRef<'_>,
    ) -> Result<Option<Target>, FindTargetError> {
        for (other, target) in &self.rows {
            if other.as_ref() == name {
                return Ok(Some(target.to_ref().into_owned(alloc)?));
            }
        }
        Ok(None)
    }
}

// The references of lines that have a name, a space and the text of a loose file.
fn read_table(alloc: Global, text: &str) -> Option<Table> {
    let mut rows = Vec::new(alloc);
    for line in text.lines() {
        let (name, target) = line.split_once(' ')?;
        let name = FullName::from_bytes(alloc, name.as_bytes()).ok()?;
        let target = targets::read(alloc, target.as_bytes())?;
        rows.push((name, target)).ok()?;
    }
    Some(Table { rows })
}

// The edits of lines that have a word, a space and a name.
fn read_edits(alloc: Global, text: &str) -> Option<Vec<RefEdit>> {
    let mut edits = Vec::new(alloc);
    for line in text.lines() {
        let (word, name) = line.split_once(' ')?;
        edits.push(read_edit(alloc, word, name)?).ok()?;
    }
    Some(edits)
}

fn read_edit(alloc: Global, word: &str, name: &str) -> Option<RefEdit> {
    let (change, deref) = match word {
        "move" => (update(alloc)?, true),
        "move-here" => (update(alloc)?, false),
        "drop" => (deletion(RefLog::AndReference), true),
        "drop-here" => (deletion(RefLog::AndReference), false),
        "drop-log" => (deletion(RefLog::Only), true),
        _ => return None,
    };
    let name = FullName::from_bytes(alloc, name.as_bytes()).ok()?;
    Some(RefEdit {
        change,
        name,
        deref,
    })
}

fn update(alloc: Global) -> Option<Change> {
    let id = ObjectId::from_hex(b"64c5e58854b06001b3a0c20edb97900dd0131025").ok()?;
    Some(Change::Update {
        log: LogChange::new(alloc),
        expected: PreviousValue::MustExist,
        new: Target::from(id),
    })
}

fn deletion(log: RefLog) -> Change {
    Change::Delete {
        expected: PreviousValue::MustExist,
        log,
    }
}

/// The edits of the second field's lines over the references of the first's, made ready: each by
/// its name, what it concerns and what it expects; then the places of those that were split. Or why
/// they aren't made ready.
pub fn ready(alloc: Global, references: &[u8], edits: &[u8], page: &mut Page) -> Option<()> {
    let table = read_table(alloc, text_of(references)?)?;
    let mut edits = read_edits(alloc, text_of(edits)?)?;
    make_ready(alloc, &table, &mut edits, page);
    Some(())
}

fn make_ready(alloc: Global, table: &Table, edits: &mut Vec<RefEdit>, page: &mut Page) {
    match edits.pre_process(alloc, table) {
        Ok(places) => show_ready(edits.as_slice(), places.as_slice(), page),
        Err(PreProcessError::Twice(error)) => show_twice(&error, page),
        Err(PreProcessError::Split(SplitError::Cycle)) => page.text("too far"),
        Err(PreProcessError::Split(error)) => page.put(error),
    }
}

fn show_ready(edits: &[RefEdit], places: &[usize], page: &mut Page) {
    for edit in edits {
        show_edit(edit, page);
    }
    for place in places {
        page.put_between(" ", *place, "");
    }
}

fn show_edit(edit: &RefEdit, page: &mut Page) {
    let (word, mode, asked) = match &edit.change {
        Change::Update { log, expected, .. } => ("move ", log.mode, expected),
        Change::Delete { expected, log } => ("drop ", *log, expected),
    };
    page.put_between(word, &edit.name, " ");
    page.text(if mode == RefLog::Only { "log" } else { "both" });
    page.text(if *asked == PreviousValue::MustExist {
        " asks"
    } else {
        " free"
    });
    page.text(if edit.deref { " leads;" } else { " stays;" });
}

/// Whether each name of the text's words has one edit.
pub fn once(alloc: Global, names: &[u8], page: &mut Page) -> Option<()> {
    let edits = one_a_name(alloc, names)?;
    match edits.assure_one_name_has_one_edit(alloc) {
        Ok(()) => page.text("once"),
        Err(error) => show_twice(&error, page),
    }
    Some(())
}

fn one_a_name(alloc: Global, names: &[u8]) -> Option<Vec<RefEdit>> {
    let mut edits = Vec::new(alloc);
    for name in text_of(names)?.split_whitespace() {
        edits.push(read_edit(alloc, "drop-here", name)?).ok()?;
    }
    Some(edits)
}

fn show_twice(error: &TwiceError, page: &mut Page) {
    match error {
        TwiceError::Name(name) => page.put_between("twice ", name.as_bstr(), ""),
        TwiceError::Memory => page.put(error),
    }
}

/// The edit of the word and the name, whether its `try_clone` is equal to it, and whether that of
/// the next word and name is.
pub fn copied(alloc: Global, word: &[u8], name: &[u8], page: &mut Page) -> Option<()> {
    let edit = read_edit(alloc, text_of(word)?, text_of(name)?)?;
    compare(&edit, &read_edit(alloc, "move", "HEAD")?, page)
}

fn compare(edit: &RefEdit, other: &RefEdit, page: &mut Page) -> Option<()> {
    let copy = edit.try_clone().ok()?;
    page.put(copy == *edit);
    page.value(copy == *other);
    Some(())
}
