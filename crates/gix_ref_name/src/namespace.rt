//! Namespaces: the `refs/namespaces/<name>/` before the names of a part of a repository, made by `expand`.

ghost use Rattle.std.specs.Prelude.{◌≡◌, ◌++◌, ℕ, List, IfOk, OnOk};
ghost use Rattle.bstr.specs.BStr.{bstr_bytes};
ghost use Rattle.gix_ref_name.specs.Names.{part_of};
ghost use Rattle.gix_ref_name.specs.Namespaces.{expanded, level};

use crate::name::PartialNameRef;
use bstr::BStr;
use gix_object_lines::ByteString;
use gix_object_lines::cut::split_once;
use std::alloc::{AllocError, Global};
use std::marker::Model;

/// The front that all names of a namespace have, as `refs/namespaces/foo/`. Contracts see the list
/// of its bytes.
#[derive(Debug, Drop, PartialEq, Eq, PartialOrd, Ord, Hash)]
pub struct Namespace {
    bytes: ByteString,
}

impl Model for Namespace {
    ghost Value = { List ℕ };

    ghost view = { λ namespace. namespace.bytes };

    ghost inverse = { λ bytes. record { bytes = bytes } };
}

impl Namespace {
    /// The bytes of the front.
    pub fn as_bytes(&self) -> &[u8]
        ensures { result.now ≡ self.now }
    {
        self.bytes.as_bytes()
    }

    /// The bytes of the front.
    pub fn as_bstr(&self) -> BStr<'_>
        ensures { bstr_bytes result ≡ self.now }
    {
        self.bytes.as_bstr()
    }

    /// The path, which has the bytes of the front.
    pub fn to_path(&self) -> &[u8]
        ensures { result.now ≡ self.now }
    {
        self.bytes.as_bytes()
    }

    /// The bytes of the front, taken out.
    pub fn into_bstring(self) -> ByteString
        ensures { result ≡ self }
    {
        let Namespace { bytes } = self;
        bytes
    }

    /// The front with a prefix of names after it.
    pub fn into_namespaced_prefix(self, prefix: &[u8]) -> Result<ByteString, AllocError>
        ensures { IfOk result (λ text. text ≡ self ++ prefix.now) }
    {
        let mut bytes = self.into_bstring().into_vec();
        bytes.extend_from_slice(prefix)?;
        Ok(ByteString::new(bytes))
    }

    /// A namespace of the same front.
    pub fn try_clone(&self) -> Result<Namespace, AllocError>
        ensures { IfOk result (λ copy. copy ≡ self.now) }
    {
        let bytes = self.bytes.try_clone()?;
        Ok(Namespace { bytes })
    }
}

/// The namespace of this name: for each of its components a level `refs/namespaces/<component>/`.
pub fn expand(alloc: Global, name: PartialNameRef<'_>) -> Result<Namespace, AllocError>
    ensures { IfOk result (λ namespace. namespace ≡ expanded (part_of name.entry)) }
{
    let mut out = Vec::new(alloc);
    let mut left = name.as_bstr().as_bytes();
    while let Some((component, rest)) = split_once(left, b'/') {
        push_level(&mut out, component)?;
        left = rest;
    }
    push_level(&mut out, left)?;
    let bytes = ByteString::new(out);
    Ok(Namespace { bytes })
}

fn push_level(out: &mut Vec<u8>, component: &[u8]) -> Result<(), AllocError>
    ensures { OnOk result (out.new.items ≡ out.old.items ++ level component.now) }
{
    out.extend_from_slice(b"refs/namespaces/")?;
    out.extend_from_slice(component)?;
    out.push(b'/')?;
    Ok(())
}
