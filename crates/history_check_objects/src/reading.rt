//! Reads one object from its file: its kind and links, or what is wrong with its size, id or written form.
ghost use Rattle.std.specs.Prelude.{◌≡◌, IfErr, IfOk, MatchOption, map};
ghost use Rattle.gix_hash.specs.Id.{id_of};
ghost use Rattle.gix_hash.specs.declared.kind.Kind.{Kind};
ghost use Rattle.gix_object_tree.specs.Entry.{item_of};
ghost use Rattle.gix_object_lines.specs.declared.kind.Kind.TheVariants as kinds;
ghost use Rattle.gix_ref_file.specs.Tree.{Tree};
ghost use Rattle.history_model.specs.Objects.{digest, object_text};
ghost use Rattle.history_texts.specs.ObjectTexts.{is_empty_tree};
ghost use Rattle.history_texts.specs.Written.{IsMalformed, naming_of};
ghost use Rattle.history_check_objects.specs.Flaws.{HasFile, IsObjectsFlaw};
ghost use Rattle.history_check_objects.specs.Links.{LinksByTree, LinksObjects, link_by_item, plain_link};
ghost use Rattle.history_check_objects.specs.Reading.{IsFileFor, IsRead, is_reserved_in};
ghost use Rattle.history_check_objects.specs.Surveying.{link_of, links_of};

use gix_hash::hasher::hasher;
use gix_hash::{Kind, ObjectId};
use gix_object::decode::Error;
use gix_object::tree::EntryRef;
use gix_object::{Kind as ObjectKind, TreeRef};
use gix_ref_file::Files;
use history_model::limits::MAX_CONTENT;
use history_texts::{
    Named, OpenError, is_before_1970, is_tag_of_other, is_written_tree, named_by, object_place,
    parse_header,
};
use std::alloc::{AllocError, Global};

/// An object that another one names: its id, the kind that it must be of, and the length of the
/// name that a tree gives it.
#[derive(Clone, Copy)]
pub(crate) struct Link {
    pub(crate) id: ObjectId,
    pub(crate) kind: ObjectKind,
    pub(crate) name: usize,
}

/// What was read of an object.
#[derive(Drop)]
pub(crate) struct Found {
    pub(crate) kind: ObjectKind,
    pub(crate) links: Vec<Link>,
}

/// Reads the object at an id's place, where a file must be: once, whole. It is refused if it isn't
/// the text of an object in written form, within the limits and of this id.
pub(crate) fn read_object<F: Files>(
    alloc: Global,
    files: &F,
    kind: Kind,
    id: &ObjectId,
) -> Result<Found, OpenError>
    ensures read { F.is_honest files.now
        → IsFileFor kind (F.history files.now).tree (id_of id.now)
        → IfOk result (λ found. IsRead kind (F.history files.now).tree (id_of id.now) found) }
    ensures flaw { F.is_honest files.now
        → IsFileFor kind (F.history files.now).tree (id_of id.now)
        → IfErr result (IsObjectsFlaw F.reading_may_fail kind (F.history files.now).tree) }
{
    let place = object_place(alloc, id)?;
    let mut text = Vec::new(alloc);
    files.read(&place, &mut text)?;
    found_in(alloc, kind, id, place, &text)
}

// Returns what the text at an id's place says of an object; otherwise the error is a flaw of the
// text, or no memory is left.
fn found_in(
    alloc: Global,
    kind: Kind,
    id: &ObjectId,
    place: Vec<u8>,
    text: &[u8],
) -> Result<Found, OpenError>
    ensures read { (tree : Tree) → HasFile kind tree place.items (id_of id.now) text.now
        → IfOk result (IsRead kind tree (id_of id.now)) }
    ensures flaw { (tree : Tree) → HasFile kind tree place.items (id_of id.now) text.now
        → IfErr result (IsObjectsFlaw ⊥ kind tree) }
{
    let Some((object, start)) = parse_header(text) else {
        return Err(OpenError::BadObject(place));
    };
    let content = &text[start..];
    if content.len() > MAX_CONTENT {
        return Err(OpenError::TooLarge(place));
    }
    if digest_of(kind, text) != *id {
        return Err(OpenError::WrongId(place));
    }
    if is_reserved(kind, id, object, content) {
        return Err(OpenError::IdReserved);
    }
    match links_in(alloc, kind, object, content)? {
        Some(links) => Ok(Found {
            kind: object,
            links,
        }),
        None => Err(malformed(alloc, kind, object, id, place, content)?),
    }
}

// Returns what is wrong with a content that isn't in the written form of its kind.
fn malformed(
    alloc: Global,
    kind: Kind,
    object: ObjectKind,
    id: &ObjectId,
    place: Vec<u8>,
    content: &[u8],
) -> Result<OpenError, AllocError>
    ensures { (tree : Tree)
        → HasFile kind tree place.items (id_of id.now) (object_text object content.now)
        → IsMalformed kind object content.now → IfOk result (IsObjectsFlaw ⊥ kind tree) }
{
    if matches!(object, ObjectKind::Tree) {
        return Ok(OpenError::BadTree(*id));
    }
    if is_before_1970(alloc, kind, object, content)? {
        return Ok(OpenError::BadTime(*id));
    }
    if matches!(object, ObjectKind::Tag) && is_tag_of_other(content) {
        return Ok(OpenError::BadTag(*id));
    }
    Ok(OpenError::BadObject(place))
}

// Returns the digest of a text.
fn digest_of(kind: Kind, text: &[u8]) -> ObjectId
    ensures { id_of result ≡ digest kind text.now }
{
    let mut hasher = hasher(kind);
    hasher.update(text);
    hasher.try_finalize()
}

// Returns whether no object, or none but the empty tree, has this id.
fn is_reserved(kind: Kind, id: &ObjectId, object: ObjectKind, content: &[u8]) -> bool
    ensures { result ≡ is_reserved_in kind (id_of id.now) object content.now }
{
    *id == ObjectId::null(kind)
        || (*id == ObjectId::empty_tree(kind) && !is_empty_tree(object, content))
}

fn is_empty_tree(object: ObjectKind, content: &[u8]) -> bool
    ensures { result ≡ is_empty_tree object content.now }
{
    matches!(object, ObjectKind::Tree) && content.is_empty()
}

// Returns the objects that a content of this kind names; `None` if it isn't in written form.
fn links_in(
    alloc: Global,
    kind: Kind,
    object: ObjectKind,
    content: &[u8],
) -> Result<Option<Vec<Link>>, AllocError>
    ensures { IfOk result (λ found. MatchOption found (IsMalformed kind object content.now)
        (λ links. LinksObjects kind object content.now (links_of links.items))) }
{
    if matches!(object, ObjectKind::Tree) {
        return tree_links(alloc, kind, content);
    }
    match named_by(alloc, kind, object, content)? {
        Some(named) => Ok(Some(plain_links(alloc, &named)?)),
        None => Ok(None),
    }
}

fn plain_links(alloc: Global, named: &[Named]) -> Result<Vec<Link>, AllocError>
    ensures { IfOk result (λ links. links_of links.items ≡ map plain_link (map naming_of named.now)) }
{
    let mut links = Vec::with_capacity(alloc, named.len())?;
    for object in named {
        links.push(Link {
            id: object.id,
            kind: object.kind,
            name: 0,
        })?;
    }
    Ok(links)
}

// Returns the objects that a tree's content names; `None` if it isn't in written form.
fn tree_links(alloc: Global, kind: Kind, content: &[u8]) -> Result<Option<Vec<Link>>, AllocError>
    ensures { IfOk result (λ found. MatchOption found (IsMalformed kind kinds.Tree content.now)
        (λ links. LinksByTree kind content.now (links_of links.items))) }
{
    match TreeRef::from_bytes(alloc, content, kind) {
        Ok(tree) => {
            if is_written_tree(alloc, kind, content, &tree)? {
                Ok(Some(entry_links(alloc, tree.entries.as_slice())?))
            } else {
                Ok(None)
            }
        }
        Err(fault) => match fault {
            Error::Memory => Err(AllocError),
            _ => Ok(None),
        },
    }
}

fn entry_links(alloc: Global, entries: &[EntryRef<'_>]) -> Result<Vec<Link>, AllocError>
    ensures { IfOk result (λ links. links_of links.items ≡ map link_by_item (map item_of entries.now)) }
{
    let mut links = Vec::with_capacity(alloc, entries.len())?;
    for entry in entries {
        links.push(entry_link(*entry))?;
    }
    Ok(links)
}

fn entry_link(entry: EntryRef<'_>) -> Link
    ensures { link_of result ≡ link_by_item (item_of entry.entry) }
{
    let kind = if entry.mode.is_tree() {
        ObjectKind::Tree
    } else {
        ObjectKind::Blob
    };
    Link {
        id: ObjectId::from(entry.oid),
        kind,
        name: entry.filename.as_bytes().len(),
    }
}
