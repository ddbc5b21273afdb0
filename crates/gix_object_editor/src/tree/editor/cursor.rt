//! `Cursor`: put at the root or a folder (`cursor_at`), and its calls `get`, `remove`, `upsert`, `graft`, `write`.

ghost use Rattle.std.specs.Prelude.{◌≡◌, ◌≢◌, ◌+◌, ◌++◌, [], option_map, IfOk, IfErr, OnOk, Err, None, ⊤};
ghost use Rattle.std.specs.Borrow.{sem};
ghost use Rattle.gix_hash.specs.Id.{id_of};
ghost use Rattle.gix_object_tree.specs.Entry.{item_of};
ghost use Rattle.gix_object_nodes.specs.Files.{Path, Trees, IsEmptyTree, NamesAreFull, HasSomeBelow, no_trees};
ghost use Rattle.gix_object_editor.specs.Stored.{HasStored};
ghost use Rattle.gix_object_nodes.specs.Nodes.{slots_of, entry_at};
ghost use Rattle.gix_object_editor.specs.Editor.{files_of, names_of, leaf_of_kind, IsNonLeaf, asked_by};
ghost use Rattle.gix_object_editor.specs.Asked.{front_of, AsksAll};
ghost use Rattle.gix_object_editor.specs.declared.tree.editor.error.Error.TheVariants.{EmptyTree};
ghost use Rattle.gix_object_editor.specs.Entries.{MayStand, MayStandMade};
ghost use Rattle.gix_object_editor.specs.Written.{WriteFault, Writes};
ghost use Rattle.gix_object_editor.specs.Cursor.{StandsAt, IsLeft, LendsOrLeaves, Stays};
ghost use Rattle.gix_object_editor.specs.Outcomes.{IsKept, Removes, RemovesLeaf, Puts, Grafts, MayGraft, MakesFolder, AsksInto, FaultOfEdit, FaultOfGraft, FaultOfLeaf, Finds};

use crate::tree::editor::edits::check_graft;
use crate::tree::editor::entry::entry_from;
use crate::tree::editor::{Cursor, Editor, Error, write};
use gix_hash::{Kind, ObjectId};
use gix_object_lookup::FindInto;
use gix_object_nodes::node::NodeId;
use gix_object_tree::Tree;
use gix_object_tree::tree::{EntryKind, EntryRef};
use std::alloc::Global;

impl<S: FindInto> Editor<S> {
    /// A cursor at the root.
    pub fn to_cursor(&mut self) -> Cursor<'_, S>
        ensures stands { StandsAt result [] }
        ensures same { result.editor.now ≡ self.old }
        ensures lent { result.editor.ghost_name ≡ self.entry.ghost_name }
    {
        Cursor {
            editor: self,
            at: NodeId(0),
        }
    }

    /// A cursor at the folder of this path. If there is none, it is made without entries, and each
    /// file at a beginning of the path goes. A folder that is made has the null id of this hash
    /// function until it is written.
    ///
    /// Refused as `remove` is, for the trees on the path and for the one at its end. The files are
    /// then unchanged.
    pub fn cursor_at(
        &mut self,
        alloc: Global,
        path: &[&[u8]],
        hash: Kind,
    ) -> Result<Cursor<'_, S>, Error>
        ensures* left { sem 𝓛 (LendsOrLeaves S.row self.entry result (λ left.
            IfErr result (IsLeft (S.is_honest self.old.store) (S.may_fail self.old.store)
            (S.table self.old.store) (names_of path.now) self.old left))) }
        ensures made { IfOk result (λ cursor. MakesFolder S.is_honest S.table hash
            (names_of path.now)
            self.old cursor.editor.now) }
        ensures stands { IfOk result (λ cursor. StandsAt cursor (names_of path.now)) }
        ensures asked { S.is_honest self.old.store
            → IfOk result (λ cursor. (trees : Trees) → HasStored (S.table self.old.store) trees
            → AsksAll (S.table self.old.store) (asked_by self.old
            (names_of path.now) trees) self.old.lookups cursor.editor.now.lookups) }
        ensures kept { IfOk result (λ cursor. IsKept S.is_honest S.table path.now
            (λ has. MayStandMade has hash (names_of path.now)) self.old cursor.editor.now result) }
        ensures lent { IfOk result (λ cursor. cursor.editor.ghost_name ≡ self.entry.ghost_name) }
    {
        let at = self.folder_at(alloc, path, hash)?;
        Ok(Cursor { editor: self, at })
    }
}

impl<'c, S: FindInto> Cursor<'c, S> {
    /// The entry at the path below the cursor, as `Editor::get` returns it.
    pub fn get<'a>(&'a self, path: &[&'a [u8]]) -> Option<EntryRef<'a>>
        ensures entry { (base : Path) → StandsAt self.now base → path.now ≢ []
            → option_map item_of result ≡ entry_at (slots_of self.now.editor.now.nodes.items) 0
            (base ++ names_of path.now) }
        ensures none { path.now ≡ [] → result ≡ None }
        ensures found { (base : Path) → StandsAt self.now base
            → Finds self.now.editor.now (base ++ names_of path.now) (option_map item_of result) }
    {
        entry_from(self.editor.nodes.as_slice(), self.at, path)
    }

    /// Removes what is at or below the path, which begins at the cursor, as `Editor::remove` does.
    /// Refused as that is.
    pub fn remove(&mut self, alloc: Global, path: &[&[u8]]) -> Result<(), Error>
        ensures removed { (base : Path) → StandsAt self.old base
            → OnOk result (Removes S.is_honest S.table (base ++ names_of path.now)
            self.old.editor.now self.new.editor.now) }
        ensures refused { (base : Path) → StandsAt self.old base
            → FaultOfEdit S.is_honest S.may_fail S.table (names_of path.now)
            (base ++ names_of path.now) self.old.editor.now self.new.editor.now result }
        ensures asked { (base : Path) → StandsAt self.old base
            → AsksInto S.is_honest S.may_fail S.table (base ++ front_of (names_of path.now))
            self.old.editor.now self.new.editor.now result }
        ensures kept { IsKept S.is_honest S.table path.now (λ has. ⊤) self.old.editor.now
            self.new.editor.now result }
        ensures stays { Stays self.old self.new }
    {
        self.editor.remove_from(alloc, self.at, path)
    }

    /// Removes the file at the path, which begins at the cursor, as `Editor::remove_leaf` does.
    /// Refused as that is.
    pub fn remove_leaf(&mut self, alloc: Global, path: &[&[u8]]) -> Result<(), Error>
        ensures removed { (base : Path) → StandsAt self.old base
            → OnOk result (RemovesLeaf S.is_honest S.table (base ++ names_of path.now)
            self.old.editor.now self.new.editor.now) }
        ensures refused { (base : Path) → StandsAt self.old base
            → FaultOfLeaf S.is_honest S.may_fail S.table (names_of path.now)
            (base ++ names_of path.now) self.old.editor.now self.new.editor.now result }
        ensures folder { (base : Path) → StandsAt self.old base
            → IfErr result (λ error. IsNonLeaf error
            → HasSomeBelow (base ++ names_of path.now) (files_of no_trees self.new.editor.now)) }
        ensures asked { (base : Path) → StandsAt self.old base
            → AsksInto S.is_honest S.may_fail S.table (base ++ names_of path.now)
            self.old.editor.now self.new.editor.now result }
        ensures kept { IsKept S.is_honest S.table path.now (λ has. ⊤) self.old.editor.now
            self.new.editor.now result }
        ensures stays { Stays self.old self.new }
    {
        self.editor.remove_leaf_from(alloc, self.at, path)
    }

    /// Puts an entry of this kind and id at the path, which begins at the cursor, as
    /// `Editor::upsert` does. Refused as that is.
    pub fn upsert(
        &mut self,
        alloc: Global,
        path: &[&[u8]],
        kind: EntryKind,
        id: ObjectId,
    ) -> Result<(), Error>
        ensures put { (base : Path) → StandsAt self.old base
            → OnOk result (Puts S.is_honest S.table (base ++ names_of path.now)
            (leaf_of_kind kind id) self.old.editor.now self.new.editor.now) }
        ensures refused { (base : Path) → StandsAt self.old base
            → FaultOfEdit S.is_honest S.may_fail S.table (names_of path.now)
            (base ++ names_of path.now) self.old.editor.now self.new.editor.now result }
        ensures asked { (base : Path) → StandsAt self.old base
            → AsksInto S.is_honest S.may_fail S.table (base ++ front_of (names_of path.now))
            self.old.editor.now self.new.editor.now result }
        ensures kept { IsKept S.is_honest S.table path.now (λ has. MayStand has (names_of path.now)
            (leaf_of_kind kind id)) self.old.editor.now self.new.editor.now result }
        ensures stays { Stays self.old self.new }
    {
        self.editor.upsert_from(alloc, self.at, path, kind, id)
    }

    /// Grafts what is stored under this id at the path, which begins at the cursor, as
    /// `Editor::graft` does. Refused as that is.
    pub fn graft(
        &mut self,
        alloc: Global,
        path: &[&[u8]],
        kind: EntryKind,
        id: ObjectId,
    ) -> Result<(), Error>
        ensures grafted { (base : Path) → StandsAt self.old base
            → OnOk result (Grafts S.is_honest S.table (base ++ names_of path.now) kind id
            self.old.editor.now self.new.editor.now) }
        ensures refused { (base : Path) → StandsAt self.old base
            → FaultOfGraft S.is_honest S.may_fail S.table (names_of path.now)
            (id_of id) (base ++ names_of path.now) self.old.editor.now self.new.editor.now result }
        ensures empty { NamesAreFull (names_of path.now) → IsEmptyTree (id_of id)
            → result ≡ Err EmptyTree }
        ensures untouched { (base : Path) → StandsAt self.old base
            → result ≡ Err EmptyTree
            → self.new.editor.now ≡ self.old.editor.now }
        ensures asked { (base : Path) → StandsAt self.old base
            → AsksInto S.is_honest S.may_fail S.table (base ++ front_of (names_of path.now))
            self.old.editor.now self.new.editor.now result }
        ensures kept { IsKept S.is_honest S.table path.now (MayGraft (names_of path.now) kind id)
            self.old.editor.now self.new.editor.now result }
        ensures stays { Stays self.old self.new }
    {
        check_graft(path, id)?;
        self.upsert(alloc, path, kind, id)
    }

    /// Hands out the trees from the cursor's folder down as `Editor::write` does from the root,
    /// that folder's last, and returns its id. Fails as that does.
    pub fn write<E, F: FnMut(&Tree) -> Result<ObjectId, E>>(
        &self,
        alloc: Global,
        out: &mut F,
    ) -> Result<ObjectId, write::Error<E>>
        requires { F.IsAlwaysCallable out.old }
        ensures written { (base : Path) → StandsAt self.now base
            → IfOk result (λ id. Writes F.FnMut self.now.editor.now self.now.at.0 base out.old
            (id_of id) out.new) }
        ensures refused { (base : Path) → StandsAt self.now base
            → IfErr result
            (λ error. WriteFault F.FnMut self.now.editor.now self.now.at.0 base out.old error
            out.new) }
        ensures callable { F.IsAlwaysCallable out.new }
    {
        self.editor.write_from(alloc, self.at, out)
    }
}
