//! Laws of ids, views and their spellings, each the contract of a function.
//!
//! The function makes the calls that its law names, if any.

ghost use Rattle.std.specs.Prelude.{◌≡◌, ◌↔◌, ℕ, List, length, IsTrue, ◌<◌, slice_index, IsOkAnd};
ghost use Rattle.std.specs.declared.cmp.Ordering.TheVariants.{Less, Greater};
ghost use Rattle.gix_hash.specs.Id.{id_of};
ghost use Rattle.gix_hash.specs.Kind.{byte_len, kind_number};
ghost use Rattle.gix_hash.specs.LetterCase.{IsLowerCase};
ghost use Rattle.gix_hash.specs.Order.{digits_cmp};
ghost use Rattle.gix_hash.specs.Spelling.{hex_text, IsHexOf};
ghost use Rattle.gix_hash.specs.Views.{viewed_id, IsBytesOf, IsHexOfId};

use crate::object_id::decode;
use crate::{ObjectId, oid};
use std::cmp::Ordering;

/// Each byte is below 256.
pub fn bytes_fit(bytes: &[u8])
    ensures { (i : ℕ) → slice_index bytes.now i < 256 }
{
    let _len = bytes.len();
}

/// Ids are equal exactly if their lower-case hexadecimal texts are.
pub fn ids_are_equal(one: &ObjectId, other: &ObjectId) -> bool
    ensures { IsTrue result
        ↔ (hex_text (id_of one.now).digits ≡ hex_text (id_of other.now).digits) }
{
    bytes_fit(one.as_slice());
    bytes_fit(other.as_slice());
    one == other
}

/// Views are equal exactly if they show one id, and so exactly if their lower-case hexadecimal
/// texts are equal.
pub fn views_are_equal(one: oid<'_>, other: oid<'_>) -> bool
    ensures ids { IsTrue result ↔ (viewed_id one.entry ≡ viewed_id other.entry) }
    ensures texts { IsTrue result
        ↔ (hex_text (viewed_id one.entry).digits ≡ hex_text (viewed_id other.entry).digits) }
{
    bytes_fit(one.as_bytes());
    bytes_fit(other.as_bytes());
    one == other
}

/// Ids are ordered by kind, and in one kind by their lower-case hexadecimal texts.
pub fn order_of_ids(one: &ObjectId, other: &ObjectId) -> Ordering
    ensures less { kind_number (id_of one.now).kind < kind_number (id_of other.now).kind
        → result ≡ Less }
    ensures greater { kind_number (id_of other.now).kind < kind_number (id_of one.now).kind
        → result ≡ Greater }
    ensures texts { (id_of one.now).kind ≡ (id_of other.now).kind
        → result
        ≡ digits_cmp (hex_text (id_of one.now).digits) (hex_text (id_of other.now).digits) }
{
    bytes_fit(one.as_slice());
    bytes_fit(other.as_slice());
    one.cmp(other)
}

/// Views are ordered by their digits alone, a shorter beginning first: in one kind as their ids
/// are.
pub fn order_of_views(one: oid<'_>, other: oid<'_>) -> Ordering
    ensures digits { result
        ≡ digits_cmp (viewed_id one.entry).digits (viewed_id other.entry).digits }
    ensures texts { result
        ≡ digits_cmp (hex_text (viewed_id one.entry).digits)
        (hex_text (viewed_id other.entry).digits) }
{
    bytes_fit(one.as_bytes());
    bytes_fit(other.as_bytes());
    one.cmp(&other)
}

/// Bytes that are written through `as_mut_slice` are then the id's, whose kind stays.
pub fn written_bytes_are_the_id(id: &mut ObjectId, bytes: &[u8])
    requires { length bytes.now ≡ byte_len (id_of id.old).kind }
    ensures kind { (id_of id.new).kind ≡ (id_of id.old).kind }
    ensures bytes { IsBytesOf bytes.now (id_of id.new) }
{
    id.as_mut_slice().copy_from_slice(bytes);
}

/// An id's lower-case text spells that id.
pub fn printed_id_reads_back(id: &ObjectId)
    ensures { IsHexOf (hex_text (id_of id.now).digits) (id_of id.now).digits }
{
    bytes_fit(id.as_slice());
}

/// A text without a capital letter is the text of the digits that it spells.
pub fn lower_case_is_written()
    ensures { (text digits : List ℕ) → IsHexOf text digits → IsLowerCase text
        → hex_text digits ≡ text }
{}

/// A text spells at most one id, whatever its letter case.
pub fn text_spells_one_id(text: &[u8], one: &ObjectId, other: &ObjectId)
    requires one { IsHexOfId text.now (id_of one.now) }
    requires other { IsHexOfId text.now (id_of other.now) }
    ensures { id_of one.now ≡ id_of other.now }
{}

/// A text that spells an id in full, in any letter case, is read as that id.
pub fn text_of_id_is_read(text: &[u8], id: &ObjectId) -> Result<ObjectId, decode::Error>
    requires { IsHexOfId text.now (id_of id.now) }
    ensures { IsOkAnd result (λ read. id_of read ≡ id_of id.now) }
{
    ObjectId::from_hex(text)
}
