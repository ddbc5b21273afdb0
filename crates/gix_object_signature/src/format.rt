//! The formats of signatures, recognised by the armor that begins one.

ghost use Rattle.std.specs.Prelude.{MatchOption};
ghost use Rattle.gix_object_signature.specs.Armor.{BeginsArmor, BeginsNoArmor};

use bstr::BStr;
use gix_object_lines::cut::starts_with;

/// The format of a signature.
#[derive(Debug, Clone, Copy, PartialEq, Eq)]
pub enum Format {
    /// OpenPGP.
    OpenPgp,
    /// X.509, in a cryptographic message.
    X509,
    /// An SSH key.
    Ssh,
}

impl Format {
    /// The format whose armor begins the signature; `None` if none does.
    pub fn from_signature(signature: &[u8]) -> Option<Format>
        ensures { MatchOption result (BeginsNoArmor signature.now) (BeginsArmor signature.now) }
    {
        if starts_with(signature, b"-----BEGIN PGP SIGNATURE-----") {
            Some(Format::OpenPgp)
        } else if starts_with(signature, b"-----BEGIN PGP MESSAGE-----") {
            Some(Format::OpenPgp)
        } else if starts_with(signature, b"-----BEGIN SIGNED MESSAGE-----") {
            Some(Format::X509)
        } else if starts_with(signature, b"-----BEGIN SSH SIGNATURE-----") {
            Some(Format::Ssh)
        } else {
            None
        }
    }
}

/// A signature, and the format of its armor.
#[derive(Debug, Clone, Copy, PartialEq, Eq)]
pub struct SignatureRef<'a> {
    /// The signature, from its armor on.
    pub signature: BStr<'a>,
    /// The format of its armor.
    pub format: Format,
}
