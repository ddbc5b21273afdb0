//! Reading commits.

ghost use Rattle.std.specs.Prelude.{ℕ, List, ◌≡◌, ◌++◌, ◌∷◌, ◌⊎◌, map, flat_map, All, IfOk, IfErr, MatchResult, codes};
ghost use Rattle.bstr.specs.BStr.{bstr_bytes};
ghost use Rattle.gix_hash.specs.Kind.{hex_len};
ghost use Rattle.gix_object_lines.specs.Bytes.{IsBeginningOf};
ghost use Rattle.gix_object_lines.specs.HexLine.{hex_line, IsHex};
ghost use Rattle.gix_object_lines.specs.declared.decode.Error.TheVariants.{Memory};
ghost use Rattle.gix_object_commit.specs.Commit.{Field, Parts, field_text, IsField, SpellsCommit};
ghost use Rattle.gix_object_commit.specs.Faults.{ParentFault, HeadersFault, HasTwoParents, HasHeader, CommitFault};
ghost use Rattle.gix_object_commit.specs.LineViews.{field_of};
ghost use Rattle.gix_object_commit.specs.Views.{parts_of};

use crate::commit::CommitRef;
use crate::encoding::read_encoding;
use crate::header::{HeaderRef, read_header};
use crate::person::read_person;
use bstr::BStr;
use gix_hash::Kind;
use gix_object_lines::cut::{starts_with, strip_prefix};
use gix_object_lines::decode::Error;
use gix_object_lines::hex_line::read_hex_line;
use smallvec::SmallVec;
use std::alloc::Global;

impl<'a> CommitRef<'a> {
    /// The commit that the bytes spell, its ids in the digits of this hash function: a line for the
    /// tree, any number of lines for parents, lines for author and committer, perhaps one for the
    /// encoding, any number of further headers, an empty line, and the message up to the end.
    ///
    /// The error is that of the first part that fails: `FieldName` if another line is in the place
    /// of the tree's, the author's or the committer's, or neither a header's name nor an empty line
    /// follows; `HexDigits` if fewer digits follow `tree ` or `parent ` than an id has;
    /// `InvalidActor` if the line of author or committer isn't a name, an email and a time, and
    /// `InvalidTime` if the time is none; and `LineEnd` if a line lacks its line feed. Returns
    /// `Memory` if no memory is left for a second parent or a later one, or for a further header.
    pub fn from_bytes(
        alloc: Global,
        input: &'a [u8],
        hash_kind: Kind,
    ) -> Result<CommitRef<'a>, Error>
        ensures read { IfOk result
            (λ commit. SpellsCommit (hex_len hash_kind) input.now (parts_of commit)) }
        ensures every { (parts : Parts) → SpellsCommit (hex_len hash_kind) input.now parts
            → MatchResult result (λ commit. parts_of commit ≡ parts) (λ fault. fault ≡ Memory) }
        ensures refused { IfErr result (λ error. CommitFault (hex_len hash_kind) input.now error) }
    {
        let digits = hash_kind.len_in_hex();
        let (tree, rest) = read_hex_line(input, b"tree", digits)?;
        let (parents, rest) = read_parents(alloc, rest, digits)?;
        let (author, rest) = read_person(rest, b"author")?;
        let (committer, rest) = read_person(rest, b"committer")?;
        let (encoding, rest) = read_encoding(rest)?;
        let (extra_headers, message) = read_headers(alloc, rest)?;
        Ok(CommitRef {
            tree: BStr::new(tree),
            parents,
            author,
            committer,
            encoding,
            message: BStr::new(message),
            extra_headers,
        })
    }
}

// The digits of all lines for parents that begin the input, and what follows them.
fn read_parents<'a>(
    alloc: Global,
    input: &'a [u8],
    digits: usize,
) -> Result<(SmallVec<BStr<'a>, 1>, &'a [u8]), Error>
    ensures read { IfOk result
        (λ parents.
        (input.now
        ≡ flat_map (hex_line (codes "parent")) (map bstr_bytes parents.0.items) ++ parents.1.now)
        × All (IsHex digits) (map bstr_bytes parents.0.items)
        × ¬ IsBeginningOf (codes "parent ") parents.1.now) }
    ensures every { (parents : List (List ℕ)) (rest : List ℕ) → All (IsHex digits) parents
        → ¬ IsBeginningOf (codes "parent ") rest
        → input.now ≡ flat_map (hex_line (codes "parent")) parents ++ rest
        → MatchResult result
        (λ read. (map bstr_bytes read.0.items ≡ parents) × (read.1.now ≡ rest))
        (λ fault. fault ≡ Memory) }
    ensures refused { IfErr result
        (λ error. ParentFault digits input.now error
        ⊎ ((error ≡ Memory) × HasTwoParents digits input.now)) }
{
    let mut parents = SmallVec::new(alloc);
    let mut rest = input;
    'parents: while starts_with(rest, b"parent ") {
        let (parent, after) = read_hex_line(rest, b"parent", digits)?;
        if parents.push(BStr::new(parent)).is_err() {
            return Err(Error::Memory);
        }
        rest = after;
    }
    Ok((parents, rest))
}

// All headers up to the empty line, and what follows that: the message.
fn read_headers<'a>(alloc: Global, input: &'a [u8]) -> Result<(Vec<HeaderRef<'a>>, &'a [u8]), Error>
    ensures read { IfOk result
        (λ read. (input.now ≡ flat_map field_text (map field_of read.0.items) ++ 10 ∷ read.1.now)
        × All IsField (map field_of read.0.items)) }
    ensures every { (fields : List Field) (message : List ℕ) → All IsField fields
        → input.now ≡ flat_map field_text fields ++ 10 ∷ message
        → MatchResult result
        (λ read. (map field_of read.0.items ≡ fields) × (read.1.now ≡ message))
        (λ fault. fault ≡ Memory) }
    ensures refused { IfErr result
        (λ error. HeadersFault input.now error ⊎ ((error ≡ Memory) × HasHeader input.now)) }
{
    let mut headers = Vec::new(alloc);
    let mut rest = input;
    'headers: loop {
        if let Some(message) = strip_prefix(rest, b"\n") {
            return Ok((headers, message));
        }
        let (header, after) = read_header(rest)?;
        if headers.push(header).is_err() {
            return Err(Error::Memory);
        }
        rest = after;
    }
}
