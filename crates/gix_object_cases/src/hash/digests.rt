//! Digests of pieces.

use crate::hash::fields;
use bstr::BStr;
use case_words::Page;
use gix_hash::hasher::{Hasher, hasher};
use gix_hash::io::Write;
use std::alloc::Global;
use std::io::Write as _;

/// The digest of a kind of all pieces.
pub fn digest(fields: &[Vec<u8>], page: &mut Page) -> Option<()> {
    let [kind, pieces @ ..] = fields else {
        return None;
    };
    let mut hasher = hasher(fields::kind(kind)?);
    feed(&mut hasher, pieces);
    page.put(hasher.try_finalize());
    Some(())
}

fn feed(hasher: &mut Hasher, pieces: &[Vec<u8>]) {
    for piece in pieces {
        hasher.update(piece);
    }
}

/// The id of a kind of a blob.
pub fn blob(alloc: Global, fields: &[Vec<u8>], page: &mut Page) -> Option<()> {
    let [kind, content] = fields else {
        return None;
    };
    let mut hasher = hasher(fields::kind(kind)?);
    let mut header = Page::new(alloc);
    header.put_between("blob ", content.len(), "\0");
    hasher.update(header.as_str().as_bytes());
    hasher.update(content);
    page.put(hasher.try_finalize());
    Some(())
}

/// What a writer that hashes hands on, and the digest of it.
pub fn write(alloc: Global, fields: &[Vec<u8>], page: &mut Page) -> Option<()> {
    let [kind, pieces @ ..] = fields else {
        return None;
    };
    let mut writer = Write::new(Vec::new(alloc), fields::kind(kind)?);
    write_pieces(&mut writer, pieces)?;
    let Write { hash, inner } = writer;
    page.name(BStr::new(&inner));
    page.value(hash.try_finalize());
    Some(())
}

fn write_pieces(writer: &mut Write<Vec<u8>>, pieces: &[Vec<u8>]) -> Option<()> {
    for piece in pieces {
        writer.write_all(piece).ok()?;
    }
    writer.flush().ok()
}
