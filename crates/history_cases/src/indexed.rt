//! The rows that a repository keeps.

use case_words::{Page, Trial};
use history::{Kind, ObjectId, Repository};
use std::alloc::Global;

/// Shows the row of the commit of this id: its tree, its parents, its seconds and its generation;
/// or `none`.
pub fn show_row(
    alloc: Global,
    repository: &Repository<Trial>,
    digits: &str,
    page: &mut Page,
) -> Option<()> {
    let id = ObjectId::from_hex(digits.as_bytes()).ok()?;
    let Some(row) = repository.rows().and_then(|rows| rows.commit_by_id(&id)) else {
        page.word("none");
        return Some(());
    };
    let mut text = Vec::new(alloc);
    write_id(&mut text, "tree ", &row.tree)?;
    text.extend_from_slice(b" parents").ok()?;
    'parents: for parent in row.parents.as_slice() {
        write_id(&mut text, " ", parent)?;
    }
    let mut count = itoa::Buffer::new();
    text.extend_from_slice(b" seconds ").ok()?;
    text.extend_from_slice(count.format(row.time).as_bytes())
        .ok()?;
    text.extend_from_slice(b" generation ").ok()?;
    text.extend_from_slice(count.format(row.generation).as_bytes())
        .ok()?;
    page.named("row", &text);
    Some(())
}

fn write_id(text: &mut Vec<u8>, before: &str, id: &ObjectId) -> Option<()> {
    let mut digits = Kind::hex_buf();
    text.extend_from_slice(before.as_bytes()).ok()?;
    text.extend_from_slice(id.hex_to_buf(&mut digits).as_bytes())
        .ok()
}
