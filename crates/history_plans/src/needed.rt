//! Which of a commit's objects need storing: of equal ones the first, and no tree that was read.

ghost use Rattle.std.specs.Prelude.{◌≡◌, ◌⊎◌, IfOk, IsTrue};
ghost use Rattle.history_store.specs.Stores.{text_of};
ghost use Rattle.history_plans.specs.Needed.{AreNeededOf, HasEqual, WasRead};

use gix_hash::ObjectId;
use gix_object::Kind;
use history_files::ReadTrees;
use history_store::NewObject;
use std::alloc::{AllocError, Global};
use std::collections::BTreeMap;

/// Returns whether two objects are of one kind and have the same bytes.
fn are_equal(object: &NewObject, other: &NewObject) -> bool
    ensures { IsTrue result → text_of object.now ≡ text_of other.now }
{
    object.kind == other.kind && object.content.as_slice() == other.content.as_slice()
}

/// Returns whether the object whose place is kept under an object's id is equal to it.
fn has_equal(objects: &[NewObject], places: &BTreeMap<ObjectId, usize>, object: &NewObject) -> bool
    ensures { IsTrue result → HasEqual objects.now object.now }
{
    let Some(place) = places.get(&object.id) else {
        return false;
    };
    match objects.get(*place) {
        Some(other) => are_equal(other, object),
        None => false,
    }
}

/// Returns whether an object is a tree that was read, and has the bytes that were read.
fn was_read(read: &ReadTrees, object: &NewObject) -> bool
    ensures { IsTrue result → WasRead read.now object.now }
{
    let Kind::Tree = object.kind else {
        return false;
    };
    match read.content(&object.id) {
        Some(content) => content == object.content.as_slice(),
        None => false,
    }
}

/// Returns whether an object needs no storing after these objects.
fn is_needless(
    objects: &[NewObject],
    places: &BTreeMap<ObjectId, usize>,
    read: &ReadTrees,
    object: &NewObject,
) -> bool
    ensures { IsTrue result → HasEqual objects.now object.now ⊎ WasRead read.now object.now }
{
    has_equal(objects, places, object) || was_read(read, object)
}

/// Returns objects without those that need no storing: each that is equal to one before it, and
/// each tree of which just these bytes were read. One of other bytes stays, whatever its id. Fails
/// only if memory runs out.
pub(crate) fn needed(
    alloc: Global,
    objects: Vec<NewObject>,
    read: &ReadTrees,
) -> Result<Vec<NewObject>, AllocError>
    ensures { IfOk result (λ needed. AreNeededOf read.now objects.items needed.items) }
{
    let mut places = BTreeMap::new(alloc);
    let mut needed = Vec::new(alloc);
    for object in objects {
        if !is_needless(&needed, &places, read, &object) {
            places.insert(object.id, needed.len())?;
            needed.push(object)?;
        }
    }
    Ok(needed)
}
