//! Runs of a prefix's matches in a list of ids.

use crate::hash::fields;
use case_words::{Page, text_of};
use gix_hash::{ObjectId, Prefix, Run, can_run, prefix_run};
use std::alloc::Global;

/// Sets the list to the ids of the fields, of which an empty one is none, and adds how many they
/// are.
pub fn set(
    alloc: Global,
    list: &mut Vec<ObjectId>,
    fields: &[Vec<u8>],
    page: &mut Page,
) -> Option<()> {
    let mut ids = Vec::new(alloc);
    for field in fields {
        if !field.is_empty() {
            ids.push(fields::id(field)?).ok()?;
        }
    }
    page.put_between("", ids.len(), " ids");
    *list = ids;
    Some(())
}

/// Where the run of a text's prefix begins and ends in the list, and whether the comparisons stayed
/// within twice the binary digits of the list's length.
pub fn find(list: &[ObjectId], fields: &[Vec<u8>], page: &mut Page) -> Option<()> {
    let [text] = fields else {
        return None;
    };
    let prefix = Prefix::from_hex_nonempty(text_of(text)?).ok()?;
    if can_run(list, &prefix) {
        show(&prefix_run(list, &prefix), list.len(), page);
    } else {
        page.text("no run");
    }
    Some(())
}

fn show(run: &Run, length: usize, page: &mut Page) {
    let digits = usize::BITS - length.leading_zeros();
    let is_within = run.calls <= 2 * digits as usize;
    page.put(run.first);
    page.value(run.past);
    page.value(is_within);
}
