//! Ids, prefixes and kinds as texts, and the texts of errors.

use crate::hash::fields;
use bstr::BStr;
use case_words::{Page, text_of};
use gix_hash::{ChangeId, Kind, ObjectId, Prefix, oid};
use std::alloc::Global;

/// The digits of an id, of its view, of its change id or of a text's prefix as they are written.
pub fn written(alloc: Global, operation: &str, fields: &[Vec<u8>], page: &mut Page) -> Option<()> {
    let [bytes] = fields else {
        return None;
    };
    let mut out = Vec::new(alloc);
    match operation {
        "write_id" => fields::id(bytes)?.write_hex_to(&mut out).ok()?,
        "write_view" => oid::try_from_bytes(bytes)
            .ok()?
            .write_hex_to(&mut out)
            .ok()?,
        "write_change" => ChangeId::from(fields::id(bytes)?)
            .write_hex_to(&mut out)
            .ok()?,
        _ => {
            let prefix = Prefix::from_hex_nonempty(text_of(bytes)?).ok()?;
            prefix.write_hex_to(&mut out).ok()?;
        }
    }
    page.put(BStr::new(&out));
    Some(())
}

/// The kind that a text names.
pub fn kind_of_name(fields: &[Vec<u8>], page: &mut Page) -> Option<()> {
    let [name] = fields else {
        return None;
    };
    match text_of(name)?.parse::<Kind>() {
        Ok(kind) => page.put(kind),
        Err(error) => page.put(error),
    }
    Some(())
}

/// The id that hexadecimal digits spell.
pub fn read_id(fields: &[Vec<u8>], page: &mut Page) -> Option<()> {
    let [text] = fields else {
        return None;
    };
    match ObjectId::from_hex(text) {
        Ok(id) => page.name(id),
        Err(error) => page.put(error),
    }
    Some(())
}

/// The prefix of so many digits of an id.
pub fn prefix(fields: &[Vec<u8>], page: &mut Page) -> Option<()> {
    let [bytes, length] = fields else {
        return None;
    };
    let id = fields::id(bytes)?;
    match Prefix::new(id.as_oid(), fields::number(length)?) {
        Ok(prefix) => show(&prefix, page),
        Err(error) => page.put(error),
    }
    Some(())
}

/// The prefix that a text spells, of four digits or more.
pub fn read_prefix(fields: &[Vec<u8>], page: &mut Page) -> Option<()> {
    let [text] = fields else {
        return None;
    };
    match Prefix::from_hex(text_of(text)?) {
        Ok(prefix) => show(&prefix, page),
        Err(error) => page.put(error),
    }
    Some(())
}

// Its digits, how many, the kind that they may belong to, and in reverse.
fn show(prefix: &Prefix, page: &mut Page) {
    page.put(*prefix);
    page.value(prefix.hex_len());
    page.value(prefix.as_oid().kind());
    page.value(prefix.to_reverse_hex());
}

/// Whether an id is the one that was expected, by the id, its view and its change id.
pub fn verify(fields: &[Vec<u8>], page: &mut Page) -> Option<()> {
    let [actual, expected] = fields else {
        return None;
    };
    let actual = fields::id(actual)?;
    let expected = fields::id(expected)?;
    match actual.verify(expected.as_oid()) {
        Ok(()) => page.text("as expected"),
        Err(error) => page.put(error),
    }
    page.value(actual.as_oid().verify(expected.as_oid()).is_ok());
    page.value(ChangeId::from(actual).verify(expected.as_oid()).is_ok());
    Some(())
}
