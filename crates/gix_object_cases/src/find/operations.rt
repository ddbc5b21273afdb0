//! One line to one answer.

use crate::find::asked::ask;
use crate::find::keeping;
use crate::find::store::Store;
use case_words::{Case, Page};
use gix_object_lookup::find::Never;
use std::alloc::Global;
use std::rc::Rc;

// The operation on the store, on a reference to it, on a shared one, on one that fails, and on
// none.
fn ask_all(alloc: Global, operation: &str, case: &Case, page: &mut Page) {
    let objects = case.behind(2);
    let Some(mut store) = Store::new(alloc, case.kind, objects) else {
        return page.text("no objects");
    };
    ask(alloc, &store, operation, case, page);
    page.text(" | ");
    ask(alloc, &&store, operation, case, page);
    page.text(" | ");
    store.is_broken = true;
    ask(alloc, &store, operation, case, page);
    page.text(" | ");
    ask(alloc, &Never, operation, case, page);
    store.is_broken = false;
    page.text(" | ");
    match Rc::new(alloc, store) {
        Ok(shared) => ask(alloc, &shared, operation, case, page),
        Err(_) => page.text("refused Memory"),
    }
}

/// Adds what the operation gives.
pub fn put_answer(alloc: Global, operation: &str, case: &Case, page: &mut Page) {
    match operation {
        "keep" => keeping::keep(alloc, case, page),
        _ => ask_all(alloc, operation, case, page),
    }
}
