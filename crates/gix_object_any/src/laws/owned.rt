//! Laws of loose objects that own their parts.

ghost use Rattle.std.specs.Prelude.{◌≡◌, None};
ghost use Rattle.gix_object_any.specs.Format.{HasOwnIds, IsSpelledAsWritten, IsKeptWhole};
ghost use Rattle.gix_object_any.specs.Loose.{IsLoose, loose_text};
ghost use Rattle.gix_object_any.specs.Object.{Value, kind_of, value_text};
ghost use Rattle.gix_object_any.specs.Owned.{own_value, own_value_refusal, IsOwned};
ghost use Rattle.gix_object_any.specs.declared.owned.Object as owned;

use crate::Object;
use crate::laws::read_object_is_written_back;
use gix_hash::laws::lower_case_is_written;
use gix_object_commit::laws::owned::owned_written_is_read;
use gix_object_tag::laws::owned as tags;
use gix_object_tree::laws::owned_written_tree_is_read_back;

/// What is written of an object that owns its parts and isn't refused, after its header, is a loose
/// object with its value, if its ids are of this hash function.
pub fn owned_written_object_is_read_back(object: &Object, _hash_kind: gix_hash::Kind)
    ensures { let value =
        own_value object.now
        in own_value_refusal object.now ≡ None → HasOwnIds _hash_kind object.now
        → IsLoose _hash_kind (loose_text (kind_of value) (value_text value)) value }
{
    match object {
        Object::Blob(_) => {}
        Object::Tree(tree) => owned_written_tree_is_read_back(tree, _hash_kind),
        Object::Commit(commit) => owned_written_is_read(commit),
        Object::Tag(tag) => tags::owned_written_is_read(tag),
    }
}

/// An object that was read, and then owned, keeps its value if its ids are in lower case, and its
/// times as they are written.
pub fn owned_object_keeps_its_value(_bytes: &[u8], _hash_kind: gix_hash::Kind)
    ensures { (value : Value) (object : owned.Object) → IsLoose _hash_kind _bytes.now value
        → IsOwned value object → IsKeptWhole value
        → own_value object ≡ value }
{
    lower_case_is_written();
}

/// So it is written to the bytes that it was read from, unless it is a tree with further zeros
/// before a mode, or a tag with an empty message.
pub fn owned_object_is_written_back(bytes: &[u8], hash_kind: gix_hash::Kind)
    ensures { (value : Value) (object : owned.Object) → (is : IsLoose hash_kind bytes.now value)
        → IsOwned value object → IsKeptWhole value
        → IsSpelledAsWritten hash_kind is.content value
        → loose_text (kind_of (own_value object)) (value_text (own_value object)) ≡ bytes.now }
{
    owned_object_keeps_its_value(bytes, hash_kind);
    read_object_is_written_back(bytes, hash_kind);
}
