//! `Editor`: made of a root, its store and lookups, its calls `get`, `remove`, `remove_leaf`, `upsert`, `graft`.

ghost use Rattle.std.specs.Prelude.{◌≡◌, map, option_map, IfOk, IfErr, OnOk, OnErr, ⊤};
ghost use Rattle.std.specs.Borrow.{sem};
ghost use Rattle.gix_hash.specs.Id.{id_of};
ghost use Rattle.gix_object_tree.specs.Entry.{item_of, own_item};
ghost use Rattle.gix_object_nodes.specs.Files.{HasSomeBelow, no_trees};
ghost use Rattle.gix_object_nodes.specs.Nodes.{slots_of, entry_at};
ghost use Rattle.gix_object_editor.specs.Editor.{files_of, names_of, leaf_of_kind, IsNonLeaf};
ghost use Rattle.gix_object_editor.specs.Asked.{front_of};
ghost use Rattle.gix_object_editor.specs.Entries.{MayStand};
ghost use Rattle.gix_object_tree.specs.WellFormed.{IsWellFormed};
ghost use Rattle.gix_object_editor.specs.Outcomes.{IsKept, Removes, RemovesLeaf, Puts, Grafts, MayGraft, RefusesEmpty, HasRoot, AsksInto, FaultOfEdit, FaultOfGraft, FaultOfLeaf, Finds};

mod cursor;
mod edits;
mod entry;
mod error;
mod filled;
mod forest;
mod lay;
mod load;
mod marks;
mod root;
mod state;
pub mod write;

use crate::tree::editor::edits::check_graft;
use crate::tree::editor::entry::entry_from;
use crate::tree::editor::root::opened_root;
pub use error::Error;
use gix_hash::ObjectId;
use gix_object_lookup::FindInto;
use gix_object_nodes::node::NodeId;
use gix_object_tree::Tree;
use gix_object_tree::tree::{EntryKind, EntryRef};
pub use state::{Cursor, Editor};
use std::alloc::{AllocError, Global};

impl<S: FindInto> Editor<S> {
    ghost use Rattle.gix_object_editor.specs.Lending.{LendsStore};

    /// An editor of this tree, whose subtrees are looked up in the store. The tree must be
    /// well-formed.
    pub fn new(alloc: Global, root: &Tree, store: S) -> Result<Editor<S>, AllocError>
    where
        S: Drop,
        requires { IsWellFormed (map own_item root.now.entries.items) }
        ensures root { IfOk result (HasRoot (map own_item root.now.entries.items)) }
        ensures store { IfOk result (λ editor. editor.store ≡ store) }
    {
        let nodes = opened_root(alloc, root)?;
        Ok(Editor {
            store,
            nodes,
            lookups: 0,
        })
    }

    /// Edits this tree from now on, and counts lookups from here. The tree must be well-formed.
    /// Without memory nothing changes.
    pub fn set_root(&mut self, alloc: Global, root: &Tree) -> Result<(), AllocError>
        requires { IsWellFormed (map own_item root.now.entries.items) }
        ensures root { OnOk result (HasRoot (map own_item root.now.entries.items) self.new) }
        ensures unchanged { OnErr result (self.new ≡ self.old) }
        ensures store { self.new.store ≡ self.old.store }
    {
        self.nodes = opened_root(alloc, root)?;
        self.lookups = 0;
        Ok(())
    }

    /// Lends the store.
    pub fn store_mut(&mut self) -> &mut S
        ensures* lends { sem 𝓛 (LendsStore S.row self.entry result) }
        ensures value { result.now ≡ self.old.store }
    {
        &mut self.store
    }

    /// How many trees were looked up in the store since the root was set.
    pub fn lookups(&self) -> u64
        ensures { result ≡ self.now.lookups }
    {
        self.lookups
    }

    /// The entry at the path, as far as edits opened trees; `None` if there is none, or a tree
    /// above it isn't opened. If the path has a file, the result is that file. An entry whose id
    /// isn't null exists, as a file or with a tree that was opened for it. The id of a tree is the
    /// one that it had before edits below it, or the null id if it was made for them.
    pub fn get<'a>(&'a self, path: &[&'a [u8]]) -> Option<EntryRef<'a>>
        ensures answer { option_map item_of result ≡ entry_at (slots_of self.now.nodes.items) 0
            (names_of path.now) }
        ensures found { Finds self.now (names_of path.now) (option_map item_of result) }
    {
        entry_from(self.nodes.as_slice(), NodeId(0), path)
    }

    /// Removes what is at or below the path, if anything.
    ///
    /// Returns `EmptyPathComponent` if the path has no name or an empty one, `FindExistingObject`
    /// if a tree on the path can't be read, `MalformedTree` if one isn't well-formed, and `Memory`
    /// if no memory is left. The files are then unchanged.
    pub fn remove(&mut self, alloc: Global, path: &[&[u8]]) -> Result<(), Error>
        ensures removed { OnOk result (Removes S.is_honest S.table (names_of path.now) self.old
            self.new) }
        ensures refused { FaultOfEdit S.is_honest S.may_fail S.table (names_of path.now)
            (names_of path.now) self.old self.new result }
        ensures asked { AsksInto S.is_honest S.may_fail S.table (front_of (names_of path.now))
            self.old self.new result }
        ensures kept { IsKept S.is_honest S.table path.now (λ has. ⊤) self.old self.new result }
    {
        self.remove_from(alloc, NodeId(0), path)
    }

    /// Removes the file at the path, if there is one.
    ///
    /// Refused as `remove` is, for the trees on the path and for a folder at its end. Returns
    /// `CannotRemoveNonLeaf` with the last name if a file is below the path.
    pub fn remove_leaf(&mut self, alloc: Global, path: &[&[u8]]) -> Result<(), Error>
        ensures removed { OnOk result (RemovesLeaf S.is_honest S.table (names_of path.now) self.old
            self.new) }
        ensures refused { FaultOfLeaf S.is_honest S.may_fail S.table (names_of path.now)
            (names_of path.now) self.old self.new result }
        ensures folder { IfErr result (λ error. IsNonLeaf error
            → HasSomeBelow (names_of path.now) (files_of no_trees self.new)) }
        ensures asked { AsksInto S.is_honest S.may_fail S.table (names_of path.now) self.old
            self.new result }
        ensures kept { IsKept S.is_honest S.table path.now (λ has. ⊤) self.old self.new result }
    {
        self.remove_leaf_from(alloc, NodeId(0), path)
    }

    /// Puts an entry of this kind and id at the path, in folders that are made for it: a file, or a
    /// tree with its files. All that is at or below the path goes, and each file above it. An entry
    /// with the null id has no file: it only removes.
    ///
    /// Refused as `remove` is.
    pub fn upsert(
        &mut self,
        alloc: Global,
        path: &[&[u8]],
        kind: EntryKind,
        id: ObjectId,
    ) -> Result<(), Error>
        ensures put { OnOk result (Puts S.is_honest S.table (names_of path.now)
            (leaf_of_kind kind id) self.old self.new) }
        ensures refused { FaultOfEdit S.is_honest S.may_fail S.table (names_of path.now)
            (names_of path.now) self.old self.new result }
        ensures asked { AsksInto S.is_honest S.may_fail S.table (front_of (names_of path.now))
            self.old self.new result }
        ensures kept { IsKept S.is_honest S.table path.now (λ has. MayStand has (names_of path.now)
            (leaf_of_kind kind id)) self.old self.new result }
    {
        self.upsert_from(alloc, NodeId(0), path, kind, id)
    }

    /// Grafts what is stored under this id: a file of this kind at the path, or the folder with the
    /// files that the tree has, in folders that are made for it. All that is at or below the path
    /// goes, and each file above it. It looks up the same trees as an upsert: none at or below the
    /// id. With the null id it only removes, as an upsert does.
    ///
    /// Refused as `upsert` is. Returns `EmptyTree` if the id is the empty tree's, whatever the
    /// kind: no file lies in that tree, and nothing else is stored under its id. Of the two causes
    /// that are found before a tree is looked up, the path's comes first.
    pub fn graft(
        &mut self,
        alloc: Global,
        path: &[&[u8]],
        kind: EntryKind,
        id: ObjectId,
    ) -> Result<(), Error>
        ensures grafted { OnOk result (Grafts S.is_honest S.table (names_of path.now) kind id
            self.old self.new) }
        ensures refused { FaultOfGraft S.is_honest S.may_fail S.table (names_of path.now) (id_of id)
            (names_of path.now) self.old self.new result }
        ensures empty { RefusesEmpty (names_of path.now) (id_of id) self.old self.new result }
        ensures asked { AsksInto S.is_honest S.may_fail S.table (front_of (names_of path.now))
            self.old self.new result }
        ensures kept { IsKept S.is_honest S.table path.now (MayGraft (names_of path.now) kind id)
            self.old self.new result }
    {
        check_graft(path, id)?;
        self.upsert(alloc, path, kind, id)
    }
}
