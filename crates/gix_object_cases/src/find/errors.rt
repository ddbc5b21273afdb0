//! Why an object isn't given, as it is written.

use case_words::Page;
use gix_hash::ObjectId;
use gix_object_lines::Kind;
use gix_object_lookup::find::{existing, existing_iter, existing_object};
use gix_object_lookup::lookup;

fn absent(id: ObjectId, page: &mut Page) {
    page.put_between("refused NotFound ", id, "");
}

fn other_kind(id: ObjectId, actual: Kind, expected: Kind, page: &mut Page) {
    page.put_between("refused ObjectKind ", id, " ");
    page.put_between("is ", actual, ", not ");
    page.put(expected);
}

/// Of an object of any kind.
pub fn existing(error: existing::Error, page: &mut Page) {
    match error {
        existing::Error::Find(error) => page.refused(error),
        existing::Error::NotFound { oid } => absent(oid, page),
    }
}

/// Of an object of one kind.
pub fn existing_iter(error: existing_iter::Error, page: &mut Page) {
    match error {
        existing_iter::Error::Find(error) => page.refused(error),
        existing_iter::Error::NotFound { oid } => absent(oid, page),
        existing_iter::Error::ObjectKind {
            oid,
            actual,
            expected,
        } => other_kind(oid, actual, expected, page),
    }
}

/// Of an object of one kind that is read.
pub fn existing_object(error: existing_object::Error, page: &mut Page) {
    match error {
        existing_object::Error::Find(error) => page.refused(error),
        existing_object::Error::Decode { oid, source } => {
            page.put_between("refused Decode ", oid, " ");
            page.name(source);
        }
        existing_object::Error::NotFound { oid } => absent(oid, page),
        existing_object::Error::ObjectKind {
            oid,
            actual,
            expected,
        } => other_kind(oid, actual, expected, page),
    }
}

/// Of an entry of a path.
pub fn lookup(error: lookup::Error, page: &mut Page) {
    match error {
        lookup::Error::Find(error) => existing_iter(error, page),
        lookup::Error::Decode(error) => page.refused(error),
        lookup::Error::Memory => page.text("refused Memory"),
    }
}
