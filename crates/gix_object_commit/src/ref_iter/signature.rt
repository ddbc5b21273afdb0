//! A commit's signature, and what it signs.

ghost use Rattle.std.specs.Prelude.{◌≡◌, Option, IfOk, IfErr, IsOkAnd};
ghost use Rattle.std.specs.Option.{option_map};
ghost use Rattle.gix_object_commit.specs.ReadingOn.{TellsNone};
ghost use Rattle.gix_object_commit.specs.SignedCommit.{Cut, FindsSignature, cut_of, signature_told};
ghost use Rattle.gix_object_commit.specs.Tokens.{start};

use crate::extra_headers::is_named;
use crate::header::HeaderRef;
use crate::ref_iter::{CommitRefIter, Token};
use crate::signature_name::signature_field_name;
use bstr::BStr;
use gix_hash::Kind;
use gix_object_lines::decode::Error;
use gix_object_signature::SignedData;

/// A commit's signature, and what it signs.
#[derive(Debug, Clone, Copy, PartialEq, Eq)]
pub struct CommitSignature<'a> {
    /// The header that holds the signature; `HeaderRef::unfolded` gives the signature's own bytes.
    pub header: HeaderRef<'a>,
    /// The commit's bytes without that header.
    pub signed_data: SignedData<'a>,
}

impl<'a> CommitRefIter<'a> {
    /// The signature of this commit, whose ids are of this hash function, and what it signs: the
    /// first header that `signature_field_name` names, and the commit's bytes without it. What
    /// follows that header isn't read; further headers of signatures stay in what is signed, unlike
    /// in Git, which leaves out each of them.
    ///
    /// Returns `None` if the message comes before any such header; `FieldName` if the input ends
    /// before either, and otherwise the error of the first token that has one. No memory is taken.
    pub fn signature(input: &'a [u8], hash_kind: Kind) -> Result<Option<CommitSignature<'a>>, Error>
        ensures read { IfOk result
            (λ found. FindsSignature hash_kind input.now (option_map cut_of found)) }
        ensures every { (found : Option Cut) → FindsSignature hash_kind input.now found
            → IsOkAnd result (λ given. option_map cut_of given ≡ found) }
        ensures refused { IfErr result
            (λ error. TellsNone (signature_told hash_kind) (start hash_kind input.now) error) }
    {
        let name = signature_field_name(hash_kind).as_bytes();
        let mut tokens = CommitRefIter::from_bytes(input, hash_kind);
        'tokens: loop {
            let rest = tokens.rest;
            match tokens.next().ok_or(Error::FieldName)?? {
                Token::Tree(_) | Token::Parent(_) | Token::Author(_) => {}
                Token::Committer(_) | Token::Encoding(_) => {}
                Token::ExtraHeader(header) => {
                    if is_named(header, name) {
                        let before = &input[..input.len() - rest.len()];
                        return Ok(Some(CommitSignature {
                            header,
                            signed_data: SignedData {
                                before: BStr::new(before),
                                behind: BStr::new(tokens.rest),
                            },
                        }));
                    }
                }
                Token::Message(_) => return Ok(None),
            }
        }
    }
}
