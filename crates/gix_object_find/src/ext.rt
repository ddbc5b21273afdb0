//! Objects that must exist, of any kind and of one.

ghost use Rattle.std.specs.Prelude.{◌≡◌, Some, IfOk, IfErr};
ghost use Rattle.gix_hash.specs.Views.{viewed_id};
ghost use Rattle.gix_object_lines.specs.declared.kind.Kind.TheVariants as kinds;
ghost use Rattle.gix_object_any.specs.Readers.{ReadsCommit, ReadsTag, ReadsTree};
ghost use Rattle.gix_object_find.specs.Values.{object_of, StandsAs, tree_value, commit_value, tag_value, ReadsStanding, ObjectFault};
ghost use Rattle.gix_object_lookup.specs.Existing.{Stands, ExistingFault, KindFault};
ghost use Rattle.gix_object_lookup.specs.Table.{header_at};

use crate::Find;
use gix_hash::{ObjectId, oid};
use gix_object_any::Data;
use gix_object_commit::{CommitRef, CommitRefIter};
use gix_object_hash::BlobRef;
use gix_object_lines::{Header, Kind};
use gix_object_lookup::find::{existing, existing_iter, existing_object};
use gix_object_lookup::{FindHeader, content_of, entries_of};
use gix_object_tag::{TagRef, TagRefIter};
use gix_object_tree::{TreeRef, TreeRefIter};
use std::alloc::Global;

/// Gives objects, and their kinds and sizes.
pub trait FindObjectOrHeader: Find + FindHeader {}

impl<T: Find + FindHeader> FindObjectOrHeader for T {}

/// Returns the kinds and sizes of objects that must exist.
pub trait HeaderExt: FindHeader {
    /// The kind of the object of this id and the length of its content. Returns `NotFound` if there
    /// is no such object, and `Find` if the lookup failed.
    fn header(&self, id: oid<'_>) -> Result<Header, existing::Error>
        ensures found { Self.is_honest self.now → IfOk result (λ header.
            header_at (Self.table self.now) (viewed_id id.entry) ≡ Some header) }
        ensures refused { IfErr result (ExistingFault (Self.is_honest self.now)
            (Self.may_fail self.now) (Self.table self.now) (viewed_id id.entry)) }
    {
        match self.try_header(id)? {
            Some(header) => Ok(header),
            None => Err(existing::Error::NotFound {
                oid: ObjectId::from(id),
            }),
        }
    }
}

impl<T: FindHeader> HeaderExt for T {}

/// Returns objects that must exist. Each call returns `NotFound` if there is no such object, `Find`
/// if the lookup failed, `ObjectKind` if the call wants another kind than the object has, and
/// `Decode` if the content isn't read.
pub trait FindExt: Find {
    /// The object of this id, whose content is in the buffer. Returns `NotFound` if there is none.
    fn find<'a>(&self, id: oid<'_>, buffer: &'a mut Vec<u8>) -> Result<Data<'a>, existing::Error>
        ensures found { Self.is_honest self.now → IfOk result (λ found.
            Self.table self.now (viewed_id id.entry) ≡ Some (object_of found)) }
        ensures hash { IfOk result (λ found. found.object_hash ≡ (viewed_id id.entry).kind) }
        ensures refused { IfErr result (ExistingFault (Self.is_honest self.now)
            (Self.may_fail self.now) (Self.table self.now) (viewed_id id.entry)) }
    {
        match self.try_find(id, buffer)? {
            Some(found) => Ok(found),
            None => Err(existing::Error::NotFound {
                oid: ObjectId::from(id),
            }),
        }
    }

    /// The blob of this id, whose content is in the buffer. Returns `ObjectKind` if it is no blob.
    fn find_blob<'a>(
        &self,
        id: oid<'_>,
        buffer: &'a mut Vec<u8>,
    ) -> Result<BlobRef<'a>, existing_object::Error>
        ensures found { Self.is_honest self.now → IfOk result (λ blob.
            Stands (Self.table self.now) (viewed_id id.entry) kinds.Blob blob.content.now) }
        ensures refused { IfErr result (ObjectFault (Self.is_honest self.now)
            (Self.may_fail self.now) (Self.table self.now) (viewed_id id.entry) kinds.Blob) }
    {
        let content = content_of(self, id, Kind::Blob, buffer)?;
        Ok(BlobRef::from_bytes(content))
    }

    /// The tree of this id, whose entries are in the buffer. Returns `ObjectKind` if it is no tree,
    /// and `Decode` if its content isn't read.
    fn find_tree<'a>(
        &self,
        alloc: Global,
        id: oid<'_>,
        buffer: &'a mut Vec<u8>,
    ) -> Result<TreeRef<'a>, existing_object::Error>
        ensures found { Self.is_honest self.now → IfOk result (λ tree.
            StandsAs (Self.table self.now) (viewed_id id.entry) kinds.Tree (tree_value tree)) }
        ensures refused { IfErr result (ObjectFault (Self.is_honest self.now)
            (Self.may_fail self.now) (Self.table self.now) (viewed_id id.entry) kinds.Tree) }
    {
        let content = content_of(self, id, Kind::Tree, buffer)?;
        match TreeRef::from_bytes(alloc, content, id.kind()) {
            Ok(tree) => Ok(tree),
            Err(source) => Err(existing_object::Error::Decode {
                oid: ObjectId::from(id),
                source,
            }),
        }
    }

    /// The commit of this id, whose parts are in the buffer. Returns `ObjectKind` if it is no
    /// commit, and `Decode` if its content isn't read.
    fn find_commit<'a>(
        &self,
        alloc: Global,
        id: oid<'_>,
        buffer: &'a mut Vec<u8>,
    ) -> Result<CommitRef<'a>, existing_object::Error>
        ensures found { Self.is_honest self.now → IfOk result (λ commit.
            StandsAs (Self.table self.now) (viewed_id id.entry) kinds.Commit
            (commit_value commit)) }
        ensures refused { IfErr result (ObjectFault (Self.is_honest self.now)
            (Self.may_fail self.now) (Self.table self.now) (viewed_id id.entry) kinds.Commit) }
    {
        let content = content_of(self, id, Kind::Commit, buffer)?;
        match CommitRef::from_bytes(alloc, content, id.kind()) {
            Ok(commit) => Ok(commit),
            Err(source) => Err(existing_object::Error::Decode {
                oid: ObjectId::from(id),
                source,
            }),
        }
    }

    /// The tag of this id, whose parts are in the buffer. Returns `ObjectKind` if it is no tag, and
    /// `Decode` if its content isn't read.
    fn find_tag<'a>(
        &self,
        id: oid<'_>,
        buffer: &'a mut Vec<u8>,
    ) -> Result<TagRef<'a>, existing_object::Error>
        ensures found { Self.is_honest self.now → IfOk result (λ tag.
            StandsAs (Self.table self.now) (viewed_id id.entry) kinds.Tag (tag_value tag)) }
        ensures refused { IfErr result (ObjectFault (Self.is_honest self.now)
            (Self.may_fail self.now) (Self.table self.now) (viewed_id id.entry) kinds.Tag) }
    {
        let content = content_of(self, id, Kind::Tag, buffer)?;
        match TagRef::from_bytes(content, id.kind()) {
            Ok(tag) => Ok(tag),
            Err(source) => Err(existing_object::Error::Decode {
                oid: ObjectId::from(id),
                source,
            }),
        }
    }

    /// A reader of the entries of the tree of this id, which are in the buffer. Returns
    /// `ObjectKind` if it is no tree.
    fn find_tree_iter<'a>(
        &self,
        id: oid<'_>,
        buffer: &'a mut Vec<u8>,
    ) -> Result<TreeRefIter<'a>, existing_iter::Error>
        ensures found { Self.is_honest self.now → IfOk result (λ reader.
            ReadsStanding ReadsTree (Self.table self.now) (viewed_id id.entry) kinds.Tree reader) }
        ensures refused { IfErr result (KindFault (Self.is_honest self.now) (Self.may_fail self.now)
            (Self.table self.now) (viewed_id id.entry) kinds.Tree) }
    {
        entries_of(self, id, buffer)
    }

    /// A reader of the parts of the commit of this id, which are in the buffer. Returns
    /// `ObjectKind` if it is no commit.
    fn find_commit_iter<'a>(
        &self,
        id: oid<'_>,
        buffer: &'a mut Vec<u8>,
    ) -> Result<CommitRefIter<'a>, existing_iter::Error>
        ensures found { Self.is_honest self.now → IfOk result (λ reader.
            ReadsStanding ReadsCommit (Self.table self.now) (viewed_id id.entry) kinds.Commit
            reader) }
        ensures refused { IfErr result (KindFault (Self.is_honest self.now) (Self.may_fail self.now)
            (Self.table self.now) (viewed_id id.entry) kinds.Commit) }
    {
        let content = content_of(self, id, Kind::Commit, buffer)?;
        Ok(CommitRefIter::from_bytes(content, id.kind()))
    }

    /// A reader of the parts of the tag of this id, which are in the buffer. Returns `ObjectKind`
    /// if it is no tag.
    fn find_tag_iter<'a>(
        &self,
        id: oid<'_>,
        buffer: &'a mut Vec<u8>,
    ) -> Result<TagRefIter<'a>, existing_iter::Error>
        ensures found { Self.is_honest self.now → IfOk result (λ reader.
            ReadsStanding ReadsTag (Self.table self.now) (viewed_id id.entry) kinds.Tag reader) }
        ensures refused { IfErr result (KindFault (Self.is_honest self.now) (Self.may_fail self.now)
            (Self.table self.now) (viewed_id id.entry) kinds.Tag) }
    {
        let content = content_of(self, id, Kind::Tag, buffer)?;
        Ok(TagRefIter::from_bytes(content, id.kind()))
    }
}

impl<T: Find> FindExt for T {}
