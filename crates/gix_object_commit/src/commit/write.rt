//! Writing commits.

ghost use Rattle.std.specs.Prelude.{◌+◌, ◌^◌, ◌≤◌, ◌≡◌, List, ℕ, [], ◌∷◌, Option, map, length, codes, MatchOption};
ghost use Rattle.std.specs.Option.{option_map};
ghost use Rattle.bstr.specs.BStr.{bstr_bytes};
ghost use Rattle.gix_object_lines.specs.HexLine.{hex_line};
ghost use Rattle.gix_object_lines.specs.declared.kind.Kind.TheVariants as kinds;
ghost use Rattle.gix_object_commit.specs.Commit.{Field, commit_text, field_text};
ghost use Rattle.gix_object_commit.specs.LineViews.{field_of};
ghost use Rattle.gix_object_commit.specs.Views.{parts_of};
ghost use Rattle.gix_object_commit.specs.Writing.{tree_piece, parent_piece, person_piece, encoding_piece, field_piece, message_piece, id_pieces, encoding_pieces, header_pieces, is_encoding_first as is_named_first, commit_refusal};
ghost use Rattle.gix_object_lines.specs.Pieces.{WritesPieces, pieces_text};
ghost use Rattle.gix_object_lines.specs.Person.{person_of};

use crate::commit::spelling::{
    encoding_cause, is_encoding_first, is_field, is_id_like, is_person, unless,
};
use crate::commit::{CommitRef, HeaderRef};
use bstr::BStr;
use gix_object_lines::hex_line::is_id;
use gix_object_lines::lines::ActorRef;
use gix_object_lines::write::{Error, add_lengths, write_piece};
use gix_object_lines::{Kind, WriteTo};
use std::io;

impl<'a> WriteTo for CommitRef<'a> {
    ghost text = { λ commit. commit_text (parts_of commit) };

    ghost refusal = { λ commit. commit_refusal (parts_of commit) };

    ghost object_kind = { λ _. kinds.Commit };

    fn write_to<W: io::Write>(&self, out: &mut W) -> Result<(), Error> {
        write_ids(self, out)?;
        write_person(b"author", &self.author, out)?;
        write_person(b"committer", &self.committer, out)?;
        write_encoding(self, out)?;
        write_headers(self, out)?;
        write_message(self.message, out)
    }

    fn kind(&self) -> Kind {
        Kind::Commit
    }

    fn size(&self) -> Option<u64> {
        let total = add_ids(0, self)?;
        let total = add_person(total, b"author", &self.author)?;
        let total = add_person(total, b"committer", &self.committer)?;
        let total = add_encoding(total, self.encoding)?;
        let total = add_headers(total, self)?;
        add_message(total, self.message)
    }
}

// The ids of the tree and the parents.
fn write_ids<W: io::Write>(commit: &CommitRef<'_>, out: &mut W) -> Result<(), Error>
    ensures { WritesPieces (W.contents out.old) (W.contents out.new)
        (id_pieces (parts_of commit.now)) result }
{
    write_id_lines(commit.tree.as_bytes(), commit.parents.as_slice(), out)
}

// The lines for the tree and the parents.
fn write_id_lines<W: io::Write>(tree: &[u8], parents: &[BStr<'_>], out: &mut W) -> Result<(), Error>
    ensures { WritesPieces (W.contents out.old) (W.contents out.new)
        (tree_piece tree.now ∷ map (parent_piece tree.now) (map bstr_bytes parents.now)) result }
{
    write_tree(tree, out)?;
    for parent in parents {
        write_parent(tree, parent, out)?;
    }
    Ok(())
}

// The tree's line.
pub(crate) fn write_tree<W: io::Write>(tree: &[u8], out: &mut W) -> Result<(), Error>
    ensures { WritesPieces (W.contents out.old) (W.contents out.new)
        (tree_piece tree.now ∷ []) result }
{
    write_piece(unless(is_id(tree)), &[b"tree ", tree, b"\n"], out)
}

// A parent's line, if the id is in as many digits as the tree's.
pub(crate) fn write_parent<W: io::Write>(
    tree: &[u8],
    parent: &BStr<'_>,
    out: &mut W,
) -> Result<(), Error>
    ensures { WritesPieces (W.contents out.old) (W.contents out.new)
        (parent_piece tree.now (bstr_bytes parent.now) ∷ []) result }
{
    let digits = parent.as_bytes();
    write_piece(
        unless(is_id_like(tree, digits)),
        &[b"parent ", digits, b"\n"],
        out,
    )
}

// An actor's line.
fn write_person<W: io::Write>(word: &[u8], actor: &ActorRef<'_>, out: &mut W) -> Result<(), Error>
    ensures { WritesPieces (W.contents out.old) (W.contents out.new)
        (person_piece word.now (person_of actor.now) ∷ []) result }
{
    let parts = [
        word,
        b" ",
        actor.name.as_bytes(),
        b" <",
        actor.email.as_bytes(),
        b"> ",
        actor.time.as_bytes(),
        b"\n",
    ];
    write_piece(unless(is_person(actor)), &parts, out)
}

// The line for the encoding, if there is one.
fn write_encoding<W: io::Write>(commit: &CommitRef<'_>, out: &mut W) -> Result<(), Error>
    ensures { WritesPieces (W.contents out.old) (W.contents out.new)
        (encoding_pieces (parts_of commit.now)) result }
{
    let is_named_first = is_encoding_first(commit.extra_headers.as_slice());
    write_encoding_line(commit.encoding, is_named_first, out)
}

pub(crate) fn write_encoding_line<W: io::Write>(
    encoding: Option<BStr<'_>>,
    is_first_header: bool,
    out: &mut W,
) -> Result<(), Error>
    ensures { (headers : List Field) → is_first_header ≡ is_named_first headers
        → WritesPieces (W.contents out.old) (W.contents out.new)
        (encoding_piece (option_map bstr_bytes encoding.entry) headers ∷ []) result }
{
    let cause = encoding_cause(encoding, is_first_header);
    match encoding {
        Some(name) => write_piece(cause, &[b"encoding ", name.as_bytes(), b"\n"], out),
        None => write_piece(cause, &[], out),
    }
}

// The further headers.
fn write_headers<W: io::Write>(commit: &CommitRef<'_>, out: &mut W) -> Result<(), Error>
    ensures { WritesPieces (W.contents out.old) (W.contents out.new)
        (header_pieces (parts_of commit.now)) result }
{
    write_header_lines(commit.extra_headers.as_slice(), out)
}

// The empty line and the message.
pub(crate) fn write_message<W: io::Write>(message: BStr<'_>, out: &mut W) -> Result<(), Error>
    ensures { WritesPieces (W.contents out.old) (W.contents out.new)
        (message_piece (bstr_bytes message.entry) ∷ []) result }
{
    write_piece(None, &[b"\n", message.as_bytes()], out)
}

fn write_header_lines<W: io::Write>(headers: &[HeaderRef<'_>], out: &mut W) -> Result<(), Error>
    ensures { WritesPieces (W.contents out.old) (W.contents out.new)
        (map field_piece (map field_of headers.now)) result }
{
    for header in headers {
        write_header(header, out)?;
    }
    Ok(())
}

// A header.
fn write_header<W: io::Write>(header: &HeaderRef<'_>, out: &mut W) -> Result<(), Error>
    ensures { WritesPieces (W.contents out.old) (W.contents out.new)
        (field_piece (field_of header.now) ∷ []) result }
{
    let parts = [header.name.as_bytes(), b" ", header.value.as_bytes(), b"\n"];
    write_piece(unless(is_field(header)), &parts, out)
}

fn add_ids(before: u64, commit: &CommitRef<'_>) -> Option<u64>
    ensures { let text = pieces_text (id_pieces (parts_of commit.now)) in
        MatchOption result (2 ^ 64 ≤ before + length text) (λ total. total ≡ before + length text) }
{
    add_id_lines(before, commit.tree.as_bytes(), commit.parents.as_slice())
}

fn add_id_lines(before: u64, tree: &[u8], parents: &[BStr<'_>]) -> Option<u64>
    ensures { let text =
        pieces_text
        (tree_piece tree.now ∷ map (parent_piece tree.now) (map bstr_bytes parents.now)) in
        MatchOption result (2 ^ 64 ≤ before + length text) (λ total. total ≡ before + length text) }
{
    let mut total = add_lengths(before, &[b"tree ", tree, b"\n"])?;
    for parent in parents {
        total = add_parent(total, parent)?;
    }
    Some(total)
}

pub(crate) fn add_parent(before: u64, parent: &BStr<'_>) -> Option<u64>
    ensures { let text = hex_line (codes "parent") (bstr_bytes parent.now) in
        MatchOption result (2 ^ 64 ≤ before + length text) (λ total. total ≡ before + length text) }
{
    add_lengths(before, &[b"parent ", parent.as_bytes(), b"\n"])
}

fn add_person(before: u64, word: &[u8], actor: &ActorRef<'_>) -> Option<u64>
    ensures { let text = pieces_text (person_piece word.now (person_of actor.now) ∷ []) in
        MatchOption result (2 ^ 64 ≤ before + length text) (λ total. total ≡ before + length text) }
{
    let parts = [
        word,
        b" ",
        actor.name.as_bytes(),
        b" <",
        actor.email.as_bytes(),
        b"> ",
        actor.time.as_bytes(),
        b"\n",
    ];
    add_lengths(before, &parts)
}

pub(crate) fn add_encoding(before: u64, encoding: Option<BStr<'_>>) -> Option<u64>
    ensures { let text =
        pieces_text (encoding_piece (option_map bstr_bytes encoding.entry) [] ∷ []) in
        MatchOption result (2 ^ 64 ≤ before + length text) (λ total. total ≡ before + length text) }
{
    match encoding {
        Some(name) => add_lengths(before, &[b"encoding ", name.as_bytes(), b"\n"]),
        None => Some(before),
    }
}

fn add_headers(before: u64, commit: &CommitRef<'_>) -> Option<u64>
    ensures { let text = pieces_text (header_pieces (parts_of commit.now)) in
        MatchOption result (2 ^ 64 ≤ before + length text) (λ total. total ≡ before + length text) }
{
    add_header_lines(before, commit.extra_headers.as_slice())
}

pub(crate) fn add_message(before: u64, message: BStr<'_>) -> Option<u64>
    ensures { let text = pieces_text (message_piece (bstr_bytes message.entry) ∷ []) in
        MatchOption result (2 ^ 64 ≤ before + length text) (λ total. total ≡ before + length text) }
{
    add_lengths(before, &[b"\n", message.as_bytes()])
}

fn add_header_lines(before: u64, headers: &[HeaderRef<'_>]) -> Option<u64>
    ensures { let text = pieces_text (map field_piece (map field_of headers.now)) in
        MatchOption result (2 ^ 64 ≤ before + length text) (λ total. total ≡ before + length text) }
{
    let mut total = before;
    for header in headers {
        total = add_header(total, header)?;
    }
    Some(total)
}

fn add_header(before: u64, header: &HeaderRef<'_>) -> Option<u64>
    ensures { let text = field_text (field_of header.now) in
        MatchOption result (2 ^ 64 ≤ before + length text) (λ total. total ≡ before + length text) }
{
    let parts = [header.name.as_bytes(), b" ", header.value.as_bytes(), b"\n"];
    add_lengths(before, &parts)
}
