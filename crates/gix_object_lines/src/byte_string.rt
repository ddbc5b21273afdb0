//! Bytes that are owned.

ghost use Rattle.std.specs.Prelude.{◌≡◌, ℕ, List, IfOk, Some, refl};
ghost use Rattle.std.specs.Ordering.{nat_cmp};
ghost use Rattle.std.specs.Hash as fed;
ghost use Rattle.std.specs.Cmp.Lexicographic.{pointwise, slice_cmp, nat_list_eq_equiv, nat_list_cmp_total, texts_ties, texts_po};
ghost use Rattle.std.specs.Cmp.{partial_equiv_from_equiv};
ghost use Rattle.std.specs.Cmp.Rules.{hashing};
ghost use Rattle.std.proofs.Common.{rules};
ghost use Rattle.std.specs.Prelude.{nat_eq};
ghost use Rattle.bstr.specs.BStr.{bstr_bytes};
ghost use Rattle.gix_object_lines.specs.Bytes as spec;

use bstr::BStr;
use std::alloc::{AllocError, Global};
use std::cmp::Ordering;
use std::hash::{Hash, Hasher};
use std::marker::Model;

/// A string of bytes, of any value. Contracts see the list of them.
#[derive(Debug, Drop)]
pub struct ByteString {
    bytes: Vec<u8>,
}

impl Model for ByteString {
    ghost Value = { List ℕ };

    ghost view = { λ s. s.bytes.items };
}

impl ByteString {
    /// Takes the bytes over, without memory.
    pub fn new(bytes: Vec<u8>) -> ByteString
        ensures { result ≡ bytes.items }
    {
        ByteString { bytes }
    }

    /// A copy of the bytes.
    pub fn from_slice(alloc: Global, bytes: &[u8]) -> Result<ByteString, AllocError>
        ensures { IfOk result (λ copy. copy ≡ bytes.now) }
    {
        Ok(ByteString::new(Vec::from_slice(alloc, bytes)?))
    }

    /// The bytes.
    pub fn as_bytes(&self) -> &[u8]
        ensures { result.now ≡ self.now }
    {
        self.bytes.as_slice()
    }

    /// The bytes, as text that may be no UTF-8.
    pub fn as_bstr(&self) -> BStr<'_>
        ensures { bstr_bytes result ≡ self.now }
    {
        BStr::new(self.as_bytes())
    }

    /// The allocator that the string keeps, of which a copy of it takes memory.
    pub fn allocator(&self) -> Global {
        *self.bytes.allocator()
    }

    /// Gives the bytes back, without memory.
    pub fn into_vec(self) -> Vec<u8>
        ensures { result.items ≡ self }
    {
        let ByteString { bytes } = self;
        bytes
    }

    /// The bytes without the line feed that ends them, if one does.
    pub fn without_last_feed(self) -> ByteString
        ensures { result ≡ spec.without_last_feed self }
    {
        let mut bytes = self.into_vec();
        if bytes.ends_with(b"\n") {
            bytes.pop();
        }
        ByteString::new(bytes)
    }

    /// A string of the same bytes.
    pub fn try_clone(&self) -> Result<ByteString, AllocError>
        ensures { IfOk result (λ copy. copy ≡ self.now) }
    {
        Ok(ByteString::new(self.bytes.clone()?))
    }
}

impl PartialEq for ByteString {
    ghost eq = { pointwise nat_eq };

    ghost laws = { partial_equiv_from_equiv nat_list_eq_equiv };

    fn eq(&self, other: &ByteString) -> bool {
        self.bytes == other.bytes
    }
}

impl Eq for ByteString {
    ghost laws = { nat_list_eq_equiv };
}

impl PartialOrd for ByteString {
    ghost partial_cmp = { λ x y. Some (slice_cmp nat_cmp x y) };

    ghost laws = { texts_po };

    fn partial_cmp(&self, other: &ByteString) -> Option<Ordering> {
        Some(self.cmp(other))
    }
}

impl Ord for ByteString {
    ghost cmp = { λ x y. slice_cmp nat_cmp x y };

    ghost total = { nat_list_cmp_total };

    ghost matches_partial_cmp = { λ x y. refl };

    ghost matches_eq = { λ x y. texts_ties x y };

    fn cmp(&self, other: &ByteString) -> Ordering {
        self.bytes.cmp(&other.bytes)
    }
}

impl Hash for ByteString {
    ghost hash_input = { λ s. fed.slice fed.u8 s };

    ghost respects_eq = { Prim.search (hashing, rules) };

    fn hash<H: Hasher>(&self, state: &mut H) {
        self.bytes.as_slice().hash(state);
    }
}
