//! Cases of `gix_object_lines`.

use bstr::BStr;
use case_words::{Page, Texts, text_of};
use gix_object_lines::decode::loose_header;
use gix_object_lines::lines::{
    Actor, ActorRef, is_capitals, is_full_name, is_partial_name, read_actor, write_actor,
};
use gix_object_lines::{Kind, encode};
use std::alloc::Global;

/// Adds what the operation of the line gives. `None` if the line is no case or no memory is left.
pub fn put_answer(alloc: Global, line: &str, page: &mut Page) -> Option<()> {
    let (operation, words) = line.split_once(' ')?;
    put_of_texts(alloc, operation, &Texts::read(alloc, words)?, page)
}

fn put_of_texts(alloc: Global, operation: &str, texts: &Texts, page: &mut Page) -> Option<()> {
    match operation {
        "name" => put_tests(texts.text(0), page),
        "header" => put_header(texts.text(0), page),
        "write_header" => put_written_header(texts.text(0), texts.text(1), page)?,
        "actor" => put_actor(alloc, texts.text(0), page)?,
        _ => return None,
    }
    Some(())
}

// Adds the bytes as a word, in quotes and with escapes for what doesn't print.
fn put_quoted(bytes: &[u8], page: &mut Page) {
    page.word("");
    page.name(BStr::new(bytes));
}

// Whether the bytes are a partial name, a full one, and capital letters and `_` alone.
fn put_tests(name: &[u8], page: &mut Page) {
    page.put(is_partial_name(name));
    page.value(is_full_name(name));
    page.value(is_capitals(name));
}

// The kind, the size and the length of the header that begins the bytes.
fn put_header(input: &[u8], page: &mut Page) {
    match loose_header(input) {
        Ok((kind, size, taken)) => {
            page.put(kind);
            page.value(size);
            page.value(taken);
        }
        Err(error) => page.put(error),
    }
}

// The header of an object of this kind and size.
fn put_written_header(word: &[u8], size: &[u8], page: &mut Page) -> Option<()> {
    let kind = Kind::from_bytes(word).ok()?;
    let size = text_of(size)?.parse().ok()?;
    put_quoted(encode::loose_header(kind, size).as_slice(), page);
    Some(())
}

// The parts of the line, and the line as it is written again.
fn put_actor(alloc: Global, line: &[u8], page: &mut Page) -> Option<()> {
    match read_actor(line) {
        Ok(actor) => put_parts(alloc, actor, page),
        Err(error) => {
            page.put(error);
            Some(())
        }
    }
}

fn put_parts(alloc: Global, actor: ActorRef<'_>, page: &mut Page) -> Option<()> {
    let owned = actor.to_owned(alloc).ok()?;
    put_quoted(actor.name.as_bytes(), page);
    put_quoted(actor.email.as_bytes(), page);
    put_quoted(actor.time.as_bytes(), page);
    put_written(alloc, &owned, page);
    Some(())
}

// The actor as it is written, or why it isn't.
fn put_written(alloc: Global, actor: &Actor, page: &mut Page) {
    let mut out = Vec::new(alloc);
    match write_actor(actor, &mut out) {
        Ok(()) => put_quoted(&out, page),
        Err(error) => page.value(error),
    }
}
