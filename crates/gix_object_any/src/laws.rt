//! Laws of loose objects, each the contract of a function.
//!
//! The functions call the laws of trees, commits and tags, and do nothing else.

ghost use Rattle.std.specs.Prelude.{◌≡◌, ℕ, List, None};
ghost use Rattle.gix_object_lines.specs.declared.kind.Kind.{Kind};
ghost use Rattle.gix_object_any.specs.Format.{HasIds, IsWritable, IsSpelledAsWritten};
ghost use Rattle.gix_object_any.specs.Loose.{IsLoose, loose_text};
ghost use Rattle.gix_object_any.specs.Object.{Value, Tells, kind_of, value_text, value_refusal};
ghost use Rattle.gix_object_any.specs.Views.{value_of};

pub mod owned;

use crate::ObjectRef;
use gix_object_commit::laws::{one_commit, read_is_written, written_is_read};
use gix_object_lines::decode::loose_header;
use gix_object_tag::laws as tags;
use gix_object_tag::laws::one_tag;
use gix_object_tree::laws::{
    bytes_spell_one_tree, read_tree_is_written, written_tree_is_read_back,
};

/// Bytes are a header and as much content as it says in at most one way.
pub fn one_kind_and_content(bytes: &[u8])
    ensures { (kind other : Kind) (content rest : List ℕ) → bytes.now ≡ loose_text kind content
        → bytes.now ≡ loose_text other rest → (kind ≡ other) × (content ≡ rest) }
{
    let _header = loose_header(bytes);
}

/// Content of a kind has at most one value.
pub fn one_value(content: &[u8], hash_kind: gix_hash::Kind)
    ensures { (kind : Kind) (one other : Value) → Tells hash_kind kind content.now one
        → Tells hash_kind kind content.now other → one ≡ other }
{
    bytes_spell_one_tree(content, hash_kind);
    one_commit(content, hash_kind);
    one_tag(content, hash_kind);
}

/// Bytes are at most one loose object, so they alone determine what `ObjectRef::from_loose` reads.
pub fn one_loose_object(bytes: &[u8], hash_kind: gix_hash::Kind)
    ensures { (one other : Value) → IsLoose hash_kind bytes.now one
        → IsLoose hash_kind bytes.now other → one ≡ other }
{
    one_kind_and_content(bytes);
    one_value(content_of(bytes), hash_kind);
}

/// What is written of an object that isn't refused, after its header, is a loose object with the
/// same value, if its ids are of this hash function. So `ObjectRef::from_loose` reads it as that
/// value.
pub fn written_object_is_read_back(object: &ObjectRef<'_>, hash_kind: gix_hash::Kind)
    ensures { let value = value_of object.now in value_refusal value ≡ None → HasIds hash_kind value
        → IsLoose hash_kind (loose_text (kind_of value) (value_text value)) value }
{
    match object {
        ObjectRef::Blob(_) => {}
        ObjectRef::Tree(tree) => written_tree_is_read_back(tree, hash_kind),
        ObjectRef::Commit(_) => written_is_read(),
        ObjectRef::Tag(_) => tags::written_is_read(hash_kind),
    }
}

/// The ids of an object that was read are of its hash function, so that it is read back if its
/// writing isn't refused. Nothing is done: the contract is the law.
pub fn read_object_has_ids(_bytes: &[u8], _hash_kind: gix_hash::Kind)
    ensures { (value : Value) → IsLoose _hash_kind _bytes.now value → HasIds _hash_kind value }
{}

/// An object that was read is written to the bytes that it was read from, unless it is a tree with
/// further zeros before a mode, or a tag with an empty message: such a tag may end after its lines,
/// or have a line feed more before its signature. Its writing is refused only if a name or an email
/// holds `<` or `>`, a commit's encoding has no name, or a tag's name is none that Git makes.
pub fn read_object_is_written_back(bytes: &[u8], hash_kind: gix_hash::Kind)
    ensures bytes { (value : Value) → (is : IsLoose hash_kind bytes.now value)
        → IsSpelledAsWritten hash_kind is.content value
        → loose_text (kind_of value) (value_text value) ≡ bytes.now }
    ensures accepted { (value : Value) → IsLoose hash_kind bytes.now value → IsWritable value
        → value_refusal value ≡ None }
{
    let content = content_of(bytes);
    read_tree_is_written(content, hash_kind);
    read_is_written(content, hash_kind);
    tags::read_is_written(content, hash_kind);
}

// What follows the header of a loose object.
fn content_of(bytes: &[u8]) -> &[u8]
    ensures { (kind : Kind) (content : List ℕ) → bytes.now ≡ loose_text kind content
        → result.now ≡ content }
{
    match loose_header(bytes) {
        Ok((_, _, header)) => &bytes[header..],
        Err(_) => bytes,
    }
}
