//! Objects that weren't read yet.

use crate::object::borrowed;
use case_words::{Case, Page};
use gix_hash::ObjectId;
use gix_object_any::Data;
use gix_object_any::data::verify::Error;
use gix_object_lines::Kind;
use std::alloc::Global;

fn data(case: &Case) -> Option<Data<'_>> {
    let kind = Kind::from_bytes(case.text(0)).ok()?;
    Some(Data::new(kind, case.kind, case.text(1)))
}

/// The object of a kind and its content.
pub fn decode(alloc: Global, case: &Case, page: &mut Page) {
    let Some(data) = data(case) else {
        return page.text("no kind");
    };
    match data.decode(alloc) {
        Ok(object) => borrowed::show(alloc, case.kind, &object, page),
        Err(error) => page.refused(error),
    }
}

/// The id of an object of a kind and its content, if it is this one.
pub fn verify(case: &Case, page: &mut Page) {
    let (Some(data), Ok(expected)) = (data(case), ObjectId::from_hex(case.text(2))) else {
        return page.text("no kind or id");
    };
    match data.verify_checksum(expected.as_oid()) {
        Ok(id) => page.put(id),
        Err(Error::Verify(fault)) => {
            page.put_between("refused actual ", fault.actual, " expected ");
            page.put(fault.expected);
        }
    }
}
