//! Writing commits that own their parts.

ghost use Rattle.std.specs.Prelude.{◌+◌, ◌^◌, ◌≤◌, ◌≡◌, ◌==◌, List, [], ◌∷◌, map, length, count_by, codes, MatchOption};
ghost use Rattle.gix_object_lines.specs.HexLine.{hex_line};
ghost use Rattle.gix_object_lines.specs.declared.kind.Kind.TheVariants as kinds;
ghost use Rattle.gix_object_commit.specs.Commit.{Field, commit_text, field_text, folded};
ghost use Rattle.gix_object_commit.specs.OwnedText.{own_digits, own_field, own_front_pieces, own_parts, own_person_piece, own_refusal, text_piece};
ghost use Rattle.gix_object_commit.specs.Writing.{tree_piece, parent_piece, field_piece, id_pieces, header_pieces, is_encoding_first as is_named_first};
ghost use Rattle.gix_object_lines.specs.Pieces.{WritesPieces, pieces_text};
ghost use Rattle.gix_object_commit.specs.Headers.{is_named};

use crate::commit::spelling::{is_name, is_own_person, unless};
use crate::commit::write::{
    add_encoding, add_message, add_parent, write_encoding_line, write_message, write_parent,
    write_tree,
};
use crate::commit::{Commit, ExtraHeader};
use bstr::BStr;
use gix_hash::ObjectId;
use gix_object_lines::cut::split_once;
use gix_object_lines::lines::{Actor, write_actor};
use gix_object_lines::text::bstr_of;
use gix_object_lines::write::{Error, add_lengths, write_piece};
use gix_object_lines::{Kind, WriteTo};
use std::io;

impl WriteTo for Commit {
    ghost text = { λ commit. commit_text (own_parts commit) };

    ghost refusal = { own_refusal };

    ghost object_kind = { λ _. kinds.Commit };

    fn write_to<W: io::Write>(&self, out: &mut W) -> Result<(), Error> {
        let headers = self.extra_headers.as_slice();
        write_own_front(self, is_own_encoding_first(headers), out)?;
        write_own_header_lines(headers, out)?;
        write_message(self.message.as_bstr(), out)
    }

    fn kind(&self) -> Kind {
        Kind::Commit
    }

    fn size(&self) -> Option<u64> {
        let total = add_own_ids(0, self)?;
        let total = add_own_person(total, b"author", &self.author)?;
        let total = add_own_person(total, b"committer", &self.committer)?;
        let total = add_encoding(total, bstr_of(&self.encoding))?;
        let total = add_own_headers(total, self)?;
        add_message(total, self.message.as_bstr())
    }
}

/// Writes the lines before the further headers, of which the first may be named as the line for the
/// encoding is.
pub(crate) fn write_own_front<W: io::Write>(
    commit: &Commit,
    is_encoding_first: bool,
    out: &mut W,
) -> Result<(), Error>
    ensures { (headers : List Field) → is_encoding_first ≡ is_named_first headers
        → WritesPieces (W.contents out.old) (W.contents out.new)
        (own_front_pieces headers commit.now) result }
{
    write_own_ids(commit, out)?;
    write_own_person(b"author", &commit.author, out)?;
    write_own_person(b"committer", &commit.committer, out)?;
    write_encoding_line(bstr_of(&commit.encoding), is_encoding_first, out)
}

// The ids of the tree and the parents.
fn write_own_ids<W: io::Write>(commit: &Commit, out: &mut W) -> Result<(), Error>
    ensures { WritesPieces (W.contents out.old) (W.contents out.new)
        (id_pieces (own_parts commit.now)) result }
{
    let mut digits = gix_hash::Kind::hex_buf();
    let tree = commit.tree.hex_to_buf(&mut digits).as_bytes();
    write_own_id_lines(tree, commit.parents.as_slice(), out)
}

fn write_own_id_lines<W: io::Write>(
    tree: &[u8],
    parents: &[ObjectId],
    out: &mut W,
) -> Result<(), Error>
    ensures { WritesPieces (W.contents out.old) (W.contents out.new)
        (tree_piece tree.now ∷ map (parent_piece tree.now) (map own_digits parents.now)) result }
{
    write_tree(tree, out)?;
    for parent in parents {
        write_own_parent(tree, parent, out)?;
    }
    Ok(())
}

fn write_own_parent<W: io::Write>(tree: &[u8], parent: &ObjectId, out: &mut W) -> Result<(), Error>
    ensures { WritesPieces (W.contents out.old) (W.contents out.new)
        (parent_piece tree.now (own_digits parent.now) ∷ []) result }
{
    let mut digits = gix_hash::Kind::hex_buf();
    let parent = BStr::new(parent.hex_to_buf(&mut digits).as_bytes());
    write_parent(tree, &parent, out)
}

// An actor's line.
fn write_own_person<W: io::Write>(word: &[u8], actor: &Actor, out: &mut W) -> Result<(), Error>
    ensures { WritesPieces (W.contents out.old) (W.contents out.new)
        (own_person_piece word.now actor.now ∷ []) result }
{
    write_piece(unless(is_own_person(actor)), &[word, b" "], out)?;
    write_actor(actor, out)?;
    write_piece(None, &[b"\n"], out)
}

fn is_own_encoding_first(headers: &[ExtraHeader]) -> bool
    ensures { result ≡ is_named_first (map own_field headers.now) }
{
    match headers.first() {
        Some(header) => is_named_encoding(header),
        None => false,
    }
}

/// Returns whether the header is named as the line for the encoding is.
pub(crate) fn is_named_encoding(header: &ExtraHeader) -> bool
    ensures { result ≡ is_named (codes "encoding") (own_field header.now) }
{
    header.name.as_bytes() == b"encoding".as_slice()
}

// The further headers.
fn write_own_header_lines<W: io::Write>(headers: &[ExtraHeader], out: &mut W) -> Result<(), Error>
    ensures { WritesPieces (W.contents out.old) (W.contents out.new)
        (map field_piece (map own_field headers.now)) result }
{
    for header in headers {
        write_own_header(header, out)?;
    }
    Ok(())
}

/// Writes a further header.
pub(crate) fn write_own_header<W: io::Write>(header: &ExtraHeader, out: &mut W) -> Result<(), Error>
    ensures { WritesPieces (W.contents out.old) (W.contents out.new)
        (field_piece (own_field header.now) ∷ []) result }
{
    let name = header.name.as_bytes();
    write_piece(unless(is_name(name)), &[name, b" "], out)?;
    write_folded(header.value.as_bytes(), out)?;
    write_piece(None, &[b"\n"], out)
}

// A header's value as in a commit: with a space after each of its line feeds.
fn write_folded<W: io::Write>(value: &[u8], out: &mut W) -> Result<(), Error>
    ensures { WritesPieces (W.contents out.old) (W.contents out.new)
        (text_piece (folded value.now) ∷ []) result }
{
    let mut rest = value;
    'lines: while let Some((line, after)) = split_once(rest, b'\n') {
        write_piece(None, &[line, b"\n "], out)?;
        rest = after;
    }
    write_piece(None, &[rest], out)
}

fn add_own_ids(before: u64, commit: &Commit) -> Option<u64>
    ensures { let text = pieces_text (id_pieces (own_parts commit.now)) in
        MatchOption result (2 ^ 64 ≤ before + length text) (λ total. total ≡ before + length text) }
{
    let mut digits = gix_hash::Kind::hex_buf();
    let tree = commit.tree.hex_to_buf(&mut digits).as_bytes();
    add_own_id_lines(before, tree, commit.parents.as_slice())
}

fn add_own_id_lines(before: u64, tree: &[u8], parents: &[ObjectId]) -> Option<u64>
    ensures { let text =
        pieces_text
        (tree_piece tree.now ∷ map (parent_piece tree.now) (map own_digits parents.now)) in
        MatchOption result (2 ^ 64 ≤ before + length text) (λ total. total ≡ before + length text) }
{
    let mut total = add_lengths(before, &[b"tree ", tree, b"\n"])?;
    for parent in parents {
        total = add_own_parent(total, parent)?;
    }
    Some(total)
}

fn add_own_parent(before: u64, parent: &ObjectId) -> Option<u64>
    ensures { let text = hex_line (codes "parent") (own_digits parent.now) in
        MatchOption result (2 ^ 64 ≤ before + length text) (λ total. total ≡ before + length text) }
{
    let mut digits = gix_hash::Kind::hex_buf();
    let parent = BStr::new(parent.hex_to_buf(&mut digits).as_bytes());
    add_parent(before, &parent)
}

// An offset has five bytes, whatever it is.
fn add_own_person(before: u64, word: &[u8], actor: &Actor) -> Option<u64>
    ensures { let text = pieces_text (own_person_piece word.now actor.now ∷ []) in
        MatchOption result (2 ^ 64 ≤ before + length text) (λ total. total ≡ before + length text) }
{
    let mut digits = itoa::Buffer::new();
    let seconds = digits.format(actor.time.seconds).as_bytes();
    let parts = [
        word,
        b" ",
        actor.name.as_bytes(),
        b" <",
        actor.email.as_bytes(),
        b"> ",
        seconds,
        b" +0000\n",
    ];
    add_lengths(before, &parts)
}

fn add_own_headers(before: u64, commit: &Commit) -> Option<u64>
    ensures { let text = pieces_text (header_pieces (own_parts commit.now)) in
        MatchOption result (2 ^ 64 ≤ before + length text) (λ total. total ≡ before + length text) }
{
    add_own_header_lines(before, commit.extra_headers.as_slice())
}

fn add_own_header_lines(before: u64, headers: &[ExtraHeader]) -> Option<u64>
    ensures { let text = pieces_text (map field_piece (map own_field headers.now)) in
        MatchOption result (2 ^ 64 ≤ before + length text) (λ total. total ≡ before + length text) }
{
    let mut total = before;
    for header in headers {
        total = add_own_header(total, header)?;
    }
    Some(total)
}

fn add_own_header(before: u64, header: &ExtraHeader) -> Option<u64>
    ensures { let text = field_text (own_field header.now) in
        MatchOption result (2 ^ 64 ≤ before + length text) (λ total. total ≡ before + length text) }
{
    let value = header.value.as_bytes();
    let total = add_lengths(before, &[header.name.as_bytes(), b" ", value, b"\n"])?;
    total.checked_add(count_feeds(value) as u64)
}

// How many line feeds a value has: as many bytes it gains when it is folded.
fn count_feeds(value: &[u8]) -> usize
    ensures { result ≡ count_by (λ byte. byte == 10) value.now }
{
    value.iter().filter(|byte| **byte == b'\n').count()
}
