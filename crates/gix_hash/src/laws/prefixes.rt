//! Laws of prefixes, change ids and their spellings, each the contract of a function.
//!
//! The function makes the calls that its law names, if any.

ghost use Rattle.std.specs.Prelude.{◌≡◌, ◌≤◌, ◌↔◌, ◌⊎◌, ℕ, length, take, IsTrue, ◌<◌, Some, IfOk, IsOkAnd};
ghost use Rattle.std.specs.declared.cmp.Ordering.TheVariants.{Less, Equal, Greater};
ghost use Rattle.gix_hash.specs.Id.{id_of};
ghost use Rattle.gix_hash.specs.Kind.{kind_number, kind_for_digits};
ghost use Rattle.gix_hash.specs.Order.{digits_cmp};
ghost use Rattle.gix_hash.specs.Beginnings.{IsBeginningOf, BeginsAllOf, BeginNoneTogether};
ghost use Rattle.gix_hash.specs.Prefix.{first_digits, IsPrefixLength};
ghost use Rattle.gix_hash.specs.Run.{IsAscending, HasEnoughDigits, FallsAt};
ghost use Rattle.gix_hash.specs.Spelling.{hex_text};
ghost use Rattle.gix_hash.specs.ReverseSpelling.{reverse_hex_text, IsReverseHexOf, IsReverseHexOfId};

use crate::laws::bytes_fit;
use crate::prefix::from_hex;
use crate::{ChangeId, ObjectId, Prefix, decode, prefix_run};
use std::cmp::Ordering;

/// Prefixes are equal exactly if their kinds and their lower-case hexadecimal texts are.
pub fn prefixes_are_equal(one: &Prefix, other: &Prefix) -> bool
    ensures { IsTrue result
        ↔ ((one.now.kind ≡ other.now.kind)
        × (hex_text one.now.digits ≡ hex_text other.now.digits)) }
{
    bytes_fit(one.as_oid().as_bytes());
    bytes_fit(other.as_oid().as_bytes());
    one == other
}

/// Prefixes are ordered by kind, and in one kind by their lower-case hexadecimal texts.
pub fn order_of_prefixes(one: &Prefix, other: &Prefix) -> Ordering
    ensures less { kind_number one.now.kind < kind_number other.now.kind → result ≡ Less }
    ensures greater { kind_number other.now.kind < kind_number one.now.kind → result ≡ Greater }
    ensures texts { one.now.kind ≡ other.now.kind
        → result ≡ digits_cmp (hex_text one.now.digits) (hex_text other.now.digits) }
{
    bytes_fit(one.as_oid().as_bytes());
    bytes_fit(other.as_oid().as_bytes());
    one.cmp(other)
}

/// The prefix of an id's first digits compares with that id as equal.
pub fn own_prefix_is_equal(id: &ObjectId, hex_len: usize)
    requires { IsPrefixLength (id_of id.now) hex_len }
    ensures { let prefix = first_digits (id_of id.now) hex_len in
        digits_cmp prefix.digits (take (length prefix.digits) (id_of id.now).digits) ≡ Equal }
{}

/// A prefix compares with digits as equal exactly if it begins them.
pub fn equal_is_beginning(prefix: &Prefix, id: &ObjectId)
    ensures { digits_cmp prefix.now.digits (take (length prefix.now.digits) (id_of id.now).digits)
        ≡ Equal
        ↔ IsBeginningOf prefix.now.digits (id_of id.now).digits }
{}

/// Over a list of ids that ascend and have enough digits `Prefix::cmp_oid` is first greater, then
/// equal, then less.
pub fn comparisons_fall(ids: &[ObjectId], prefix: &Prefix)
    requires ascending { IsAscending ids.now }
    requires enough { HasEnoughDigits ids.now prefix.now }
    ensures { (first past : ℕ) × (first ≤ past) × (past ≤ length ids.now)
        × FallsAt ids.now prefix.now first past }
{
    let _run = prefix_run(ids, prefix);
}

/// Of two prefixes the one begins all that the other begins, or they begin nothing in common: so
/// the ids of one kind that two prefixes of that kind begin are nested or disjoint.
pub fn matches_nest_or_are_disjoint(one: &Prefix, other: &Prefix)
    ensures { BeginsAllOf one.now.digits other.now.digits
        ⊎ (BeginsAllOf other.now.digits one.now.digits
        ⊎ BeginNoneTogether one.now.digits other.now.digits) }
{}

/// A change id's lower-case text spells that id.
pub fn printed_change_id_reads_back(id: &ChangeId)
    ensures { IsReverseHexOf (reverse_hex_text id.now.digits) id.now.digits }
{
    bytes_fit(id.as_bytes());
}

/// A text spells at most one change id, whatever its letter case.
pub fn text_spells_one_change_id(text: &[u8], one: &ChangeId, other: &ChangeId)
    requires one { IsReverseHexOfId text.now one.now }
    requires other { IsReverseHexOfId text.now other.now }
    ensures { one.now ≡ other.now }
{}

/// A text that spells a change id in full, in any letter case, is read as that id.
pub fn text_of_change_id_is_read(text: &[u8], id: &ChangeId) -> Result<ChangeId, decode::Error>
    requires { IsReverseHexOfId text.now id.now }
    ensures { IsOkAnd result (λ read. read ≡ id.now) }
{
    ChangeId::from_reverse_hex(text)
}

/// The text of a prefix of at least one digit is read as its digits, in the kind of the shortest
/// ids that have so many: as the prefix itself exactly if that is its kind.
pub fn printed_prefix_reads_back(prefix: &Prefix) -> Result<Prefix, from_hex::Error>
    requires { 1 ≤ length prefix.now.digits }
    ensures digits { IsOkAnd result (λ read. read.digits ≡ prefix.now.digits) }
    ensures kind { IfOk result
        (λ read. kind_for_digits (length prefix.now.digits) ≡ Some read.kind) }
    ensures itself { IfOk result (λ read. (read ≡ prefix.now)
        ↔ (kind_for_digits (length prefix.now.digits) ≡ Some prefix.now.kind)) }
{
    bytes_fit(prefix.as_oid().as_bytes());
    let mut buffer = [0u8; 64];
    Prefix::from_hex_nonempty(prefix.hex_to_buf(&mut buffer))
}

/// In one kind the order of reverse hexadecimal texts is the opposite of the order of the ids.
pub fn reverse_texts_are_ordered_oppositely(one: &ChangeId, other: &ChangeId) -> Ordering
    requires { one.now.kind ≡ other.now.kind }
    ensures { result
        ≡ digits_cmp (reverse_hex_text other.now.digits) (reverse_hex_text one.now.digits) }
{
    bytes_fit(one.as_bytes());
    bytes_fit(other.as_bytes());
    one.cmp(other)
}
