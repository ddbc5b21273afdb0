//! Commits that own their parts.

ghost use Rattle.std.specs.Prelude.{◌≡◌, ◌⊎◌, map, Any, IfOk, IfErr};
ghost use Rattle.std.specs.List.{AllZip};
ghost use Rattle.bstr.specs.BStr.{bstr_bytes};
ghost use Rattle.gix_object_lines.specs.Actor.{TellsTime};
ghost use Rattle.gix_object_lines.specs.declared.decode.Error.TheVariants.{HexDigits, InvalidTime, Memory};
ghost use Rattle.gix_object_lines.specs.Person.{person_of, IsActorOf};
ghost use Rattle.gix_object_commit.specs.HeaderViews.{own_header, headers_of};
ghost use Rattle.gix_object_commit.specs.Owned.{IsOwnId, IsHeaderOf, IsCommitOf, SpellsNoId, OwningFault};
ghost use Rattle.gix_object_commit.specs.LineViews.{field_of};
ghost use Rattle.gix_object_commit.specs.Views.{parts_of};

use crate::commit::{CommitRef, ExtraHeader, ExtraHeaders, HeaderRef};
use bstr::BStr;
use gix_hash::ObjectId;
use gix_object_lines::ByteString;
use gix_object_lines::decode::Error;
use gix_object_lines::hex_line::own_id;
use gix_object_lines::lines::{Actor, ActorRef};
use gix_object_lines::text::{own_text, own_text_if_any};
use smallvec::SmallVec;
use std::alloc::Global;

/// A commit.
#[derive(Debug, Drop, PartialEq, Eq)]
pub struct Commit {
    /// The id of the tree.
    pub tree: ObjectId,
    /// The id of each parent.
    pub parents: SmallVec<ObjectId, 1>,
    /// Who made the change, and when.
    pub author: Actor,
    /// Who committed it, and when.
    pub committer: Actor,
    /// The name of the message's encoding, if it isn't UTF-8.
    pub encoding: Option<ByteString>,
    /// The message.
    pub message: ByteString,
    /// The further headers, in order.
    pub extra_headers: Vec<ExtraHeader>,
}

impl Commit {
    /// The further headers, each value without the spaces of the commit's text.
    pub fn extra_headers(&self) -> ExtraHeaders<'_, '_>
        ensures { headers_of result ≡ map own_header self.now.extra_headers.items }
    {
        ExtraHeaders::from_owned(self.extra_headers.as_slice())
    }
}

impl<'a> CommitRef<'a> {
    /// The commit with copies of its parts: see `to_owned`.
    pub fn into_owned(self) -> Result<Commit, Error>
        ensures own { IfOk result (IsCommitOf (parts_of self.entry)) }
        ensures refused { IfErr result (OwningFault (parts_of self.entry)) }
    {
        self.to_owned()
    }

    /// A commit with copies of the parts. Returns `HexDigits` if the tree or a parent is no id's
    /// digits, and otherwise `InvalidTime` if an actor has no time; neither happens for a commit
    /// that was read. Returns `Memory` if no memory is left, unless the tree is no id's digits.
    pub fn to_owned(&self) -> Result<Commit, Error>
        ensures own { IfOk result (IsCommitOf (parts_of self.now)) }
        ensures refused { IfErr result (OwningFault (parts_of self.now)) }
    {
        let alloc = *self.extra_headers.allocator();
        let tree = own_id(self.tree)?;
        let parents = own_ids(alloc, self.parents.as_slice())?;
        let (author, committer) = own_actors(alloc, self.author, self.committer)?;
        let (encoding, message, extra_headers) = own_texts(alloc, self)?;
        Ok(Commit {
            tree,
            parents,
            author,
            committer,
            encoding,
            message,
            extra_headers,
        })
    }
}

// The encoding, the message and the further headers.
fn own_texts(
    alloc: Global,
    commit: &CommitRef<'_>,
) -> Result<(Option<ByteString>, ByteString, Vec<ExtraHeader>), Error>
    ensures encoding { IfOk result (λ texts. texts.0 ≡ (parts_of commit.now).encoding) }
    ensures message { IfOk result (λ texts. texts.1 ≡ (parts_of commit.now).message) }
    ensures headers { IfOk result
        (λ texts. AllZip IsHeaderOf (parts_of commit.now).headers texts.2.items) }
    ensures refused { IfErr result (λ error. error ≡ Memory) }
{
    let encoding = own_text_if_any(alloc, commit.encoding)?;
    let message = own_text(alloc, commit.message)?;
    let extra_headers = own_headers(alloc, commit.extra_headers.as_slice())?;
    Ok((encoding, message, extra_headers))
}

fn own_actors(
    alloc: Global,
    author: ActorRef<'_>,
    committer: ActorRef<'_>,
) -> Result<(Actor, Actor), Error>
    ensures author { IfOk result (λ actors. IsActorOf (person_of author.entry) actors.0) }
    ensures committer { IfOk result (λ actors. IsActorOf (person_of committer.entry) actors.1) }
    ensures refused { IfErr result
        (λ error. (error ≡ Memory)
        ⊎ ((error ≡ InvalidTime)
        × ((¬ TellsTime (bstr_bytes author.entry.time))
        ⊎ (¬ TellsTime (bstr_bytes committer.entry.time))))) }
{
    let author = own_actor(alloc, author)?;
    let committer = own_actor(alloc, committer)?;
    Ok((author, committer))
}

fn own_ids(alloc: Global, texts: &[BStr<'_>]) -> Result<SmallVec<ObjectId, 1>, Error>
    ensures own { IfOk result (λ ids. AllZip IsOwnId (map bstr_bytes texts.now) ids.items) }
    ensures refused { IfErr result
        (λ error. (error ≡ Memory)
        ⊎ ((error ≡ HexDigits) × Any SpellsNoId (map bstr_bytes texts.now))) }
{
    let mut ids = SmallVec::new(alloc);
    for text in texts {
        let id = own_id(*text)?;
        if ids.push(id).is_err() {
            return Err(Error::Memory);
        }
    }
    Ok(ids)
}

fn own_actor(alloc: Global, actor: ActorRef<'_>) -> Result<Actor, Error>
    ensures own { IfOk result (IsActorOf (person_of actor.entry)) }
    ensures refused { IfErr result
        (λ error. (error ≡ Memory)
        ⊎ ((error ≡ InvalidTime) × (¬ TellsTime (bstr_bytes actor.entry.time)))) }
{
    actor.to_owned(alloc)
}

fn own_headers(alloc: Global, headers: &[HeaderRef<'_>]) -> Result<Vec<ExtraHeader>, Error>
    ensures own { IfOk result
        (λ copies. AllZip IsHeaderOf (map field_of headers.now) copies.items) }
    ensures refused { IfErr result (λ error. error ≡ Memory) }
{
    let mut copies = Vec::new(alloc);
    for header in headers {
        let copy = own_header(alloc, header)?;
        if copies.push(copy).is_err() {
            return Err(Error::Memory);
        }
    }
    Ok(copies)
}

fn own_header(alloc: Global, header: &HeaderRef<'_>) -> Result<ExtraHeader, Error>
    ensures own { IfOk result (IsHeaderOf (field_of header.now)) }
    ensures refused { IfErr result (λ error. error ≡ Memory) }
{
    let name = own_text(alloc, header.name)?;
    match header.unfolded(alloc) {
        Ok(value) => Ok(ExtraHeader { name, value }),
        Err(_) => Err(Error::Memory),
    }
}
