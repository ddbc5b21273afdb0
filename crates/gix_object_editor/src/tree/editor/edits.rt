//! What editors and cursors share: edits at a path below an opened tree, a cursor's folder, tests of a path.

ghost use Rattle.std.specs.Prelude.{◌≡◌, ◌<◌, ◌⊎◌, length, IfErr, OnOk, IfOk, [], ⊤};
ghost use Rattle.gix_hash.specs.Id.{id_of};
ghost use Rattle.gix_object_nodes.specs.Files.{Path, IsEmptyTree, NamesAreFull};
ghost use Rattle.gix_object_nodes.specs.Nodes.{slots_of, Way, onto, LeadsTo};
ghost use Rattle.gix_object_editor.specs.Editor.{names_of, leaf_of_kind};
ghost use Rattle.gix_object_editor.specs.Asked.{front_of, unopened_into, Asks};
ghost use Rattle.gix_object_editor.specs.Entries.{MayStand, MayStandMade};
ghost use Rattle.gix_object_editor.specs.declared.tree.editor.error.Error.TheVariants.{EmptyPathComponent, EmptyTree};
ghost use Rattle.gix_object_editor.specs.Outcomes.{IsKept, KeepsTree, Removes, RemovesLeaf, Puts, MakesFolder, AsksInto, FaultOfEdit, FaultOfFolder, FaultOfLeaf};

use crate::tree::editor::entry::stands_already;
use crate::tree::editor::filled::refuse_folder;
use crate::tree::editor::forest::{folder_below, walk};
use crate::tree::editor::lay::{lay_entry, make_folders};
use crate::tree::editor::marks::{cut, mark_if};
use crate::tree::editor::{Editor, Error};
use gix_hash::{Kind, ObjectId};
use gix_object_lookup::FindInto;
use gix_object_nodes::node::{NodeId, Slot, slot_at};
use gix_object_tree::tree::{EntryKind, EntryMode};
use std::alloc::Global;

impl<S: FindInto> Editor<S> {
    /// Removes what is at or below the path, which begins at an opened tree.
    pub(crate) fn remove_from(
        &mut self,
        alloc: Global,
        from: NodeId,
        path: &[&[u8]],
    ) -> Result<(), Error>
        requires { from.0 < length self.old.nodes.items }
        ensures removed { (way : Path) → Way (slots_of self.old.nodes.items) way from.0
            → OnOk result (Removes S.is_honest S.table (onto way (names_of path.now)) self.old
            self.new) }
        ensures refused { (way : Path) → Way (slots_of self.old.nodes.items) way from.0
            → FaultOfEdit S.is_honest S.may_fail S.table (names_of path.now)
            (onto way (names_of path.now)) self.old self.new result }
        ensures asked { Asks (S.is_honest self.old.store) (S.may_fail self.old.store)
            (S.table self.old.store)
            (λ trees. unopened_into trees (slots_of self.old.nodes.items) from.0
            (front_of (names_of path.now))) self.old.lookups self.new.lookups result }
        ensures kept { IsKept S.is_honest S.table path.now (λ has. ⊤) self.old self.new result }
        ensures stays { KeepsTree from.0 self.old self.new }
    {
        check_names(path)?;
        let (at, depth) = walk(
            &self.store,
            &mut self.nodes,
            &mut self.lookups,
            alloc,
            from,
            path,
        )?;
        if depth + 1 == path.len() {
            cut(self.nodes.as_mut_slice(), at, path[depth]);
        }
        Ok(())
    }

    /// The same, but refused if a file is below the path.
    pub(crate) fn remove_leaf_from(
        &mut self,
        alloc: Global,
        from: NodeId,
        path: &[&[u8]],
    ) -> Result<(), Error>
        requires { from.0 < length self.old.nodes.items }
        ensures removed { (way : Path) → Way (slots_of self.old.nodes.items) way from.0
            → OnOk result (RemovesLeaf S.is_honest S.table (onto way (names_of path.now)) self.old
            self.new) }
        ensures refused { (way : Path) → Way (slots_of self.old.nodes.items) way from.0
            → FaultOfLeaf S.is_honest S.may_fail S.table (names_of path.now)
            (onto way (names_of path.now)) self.old self.new result }
        ensures asked { Asks (S.is_honest self.old.store) (S.may_fail self.old.store)
            (S.table self.old.store)
            (λ trees. unopened_into trees (slots_of self.old.nodes.items) from.0
            (names_of path.now)) self.old.lookups self.new.lookups result }
        ensures kept { IsKept S.is_honest S.table path.now (λ has. ⊤) self.old self.new result }
        ensures stays { KeepsTree from.0 self.old self.new }
    {
        check_names(path)?;
        let (at, depth) = walk(
            &self.store,
            &mut self.nodes,
            &mut self.lookups,
            alloc,
            from,
            path,
        )?;
        if depth + 1 == path.len() {
            refuse_folder(
                &self.store,
                &mut self.nodes,
                &mut self.lookups,
                alloc,
                at,
                path[depth],
            )?;
            cut(self.nodes.as_mut_slice(), at, path[depth]);
        }
        Ok(())
    }

    /// Puts an entry at the end of the path, which begins at an opened tree.
    pub(crate) fn upsert_from(
        &mut self,
        alloc: Global,
        from: NodeId,
        path: &[&[u8]],
        kind: EntryKind,
        id: ObjectId,
    ) -> Result<(), Error>
        requires { from.0 < length self.old.nodes.items }
        ensures put { (way : Path) → Way (slots_of self.old.nodes.items) way from.0
            → OnOk result (Puts S.is_honest S.table (onto way (names_of path.now))
            (leaf_of_kind kind id) self.old self.new) }
        ensures refused { (way : Path) → Way (slots_of self.old.nodes.items) way from.0
            → FaultOfEdit S.is_honest S.may_fail S.table (names_of path.now)
            (onto way (names_of path.now)) self.old self.new result }
        ensures asked { Asks (S.is_honest self.old.store) (S.may_fail self.old.store)
            (S.table self.old.store)
            (λ trees. unopened_into trees (slots_of self.old.nodes.items) from.0
            (front_of (names_of path.now))) self.old.lookups self.new.lookups result }
        ensures kept { IsKept S.is_honest S.table path.now (λ has. MayStand has (names_of path.now)
            (leaf_of_kind kind id)) self.old self.new result }
        ensures stays { KeepsTree from.0 self.old self.new }
    {
        check_names(path)?;
        let (at, depth) = walk(
            &self.store,
            &mut self.nodes,
            &mut self.lookups,
            alloc,
            from,
            path,
        )?;
        if id.is_null() {
            cut(self.nodes.as_mut_slice(), at, path[depth]);
            return Ok(());
        }
        let slot = Slot {
            mode: EntryMode::from(kind),
            oid: id,
            child: None,
        };
        if stands_already(self.nodes.as_slice(), at, &path[depth..], slot) {
            return Ok(());
        }
        lay_entry(&mut self.nodes, alloc, at, &path[depth..], slot, true)?;
        mark_if(self.nodes.as_mut_slice(), at, true);
        Ok(())
    }

    /// The folder at the path, opened, which begins at the root. If there is none, it is made, and
    /// each file on the path goes.
    pub(crate) fn folder_at(
        &mut self,
        alloc: Global,
        path: &[&[u8]],
        hash: Kind,
    ) -> Result<NodeId, Error>
        ensures made { OnOk result (MakesFolder S.is_honest S.table hash (names_of path.now)
            self.old self.new) }
        ensures leads { IfOk result (λ end. LeadsTo (slots_of self.new.nodes.items)
            (names_of path.now) end.0 []) }
        ensures within { IfOk result (λ end. end.0 < length self.new.nodes.items) }
        ensures refused { FaultOfFolder S.is_honest S.may_fail S.table (names_of path.now) self.old
            self.new result }
        ensures asked { AsksInto S.is_honest S.may_fail S.table (names_of path.now) self.old
            self.new result }
        ensures kept { IsKept S.is_honest S.table path.now (λ has. MayStandMade has hash
            (names_of path.now)) self.old self.new result }
    {
        check_names(path)?;
        let (at, depth) = walk(
            &self.store,
            &mut self.nodes,
            &mut self.lookups,
            alloc,
            NodeId(0),
            path,
        )?;
        let found = folder_below(
            &self.store,
            &mut self.nodes,
            &mut self.lookups,
            alloc,
            at,
            &path[depth..],
        )?;
        match found {
            Some(folder) => Ok(folder),
            None => {
                let stands = slot_at(self.nodes.as_slice(), at, path[depth]).is_some();
                let left = &path[depth..];
                let made = make_folders(&mut self.nodes, alloc, at, left, hash, stands)?;
                mark_if(self.nodes.as_mut_slice(), at, stands);
                Ok(made)
            }
        }
    }
}

/// Refuses a path without a name, or with an empty one, and then the empty tree's id.
pub(crate) fn check_graft(path: &[&[u8]], id: ObjectId) -> Result<(), Error>
    ensures ok { OnOk result (NamesAreFull (names_of path.now)
        × (IsEmptyTree (id_of id) → ⊥)) }
    ensures refused { IfErr result (λ error.
        ((error ≡ EmptyPathComponent) × (NamesAreFull (names_of path.now) → ⊥))
        ⊎ ((error ≡ EmptyTree) × NamesAreFull (names_of path.now) × IsEmptyTree (id_of id))) }
{
    check_names(path)?;
    if id.is_empty_tree() {
        return Err(Error::EmptyTree);
    }
    Ok(())
}

// Refuses a path without a name, or with an empty one.
fn check_names(path: &[&[u8]]) -> Result<(), Error>
    ensures ok { OnOk result (NamesAreFull (names_of path.now)) }
    ensures refused { IfErr result (λ error. (error ≡ EmptyPathComponent)
        × (NamesAreFull (names_of path.now) → ⊥)) }
{
    if path.is_empty() {
        return Err(Error::EmptyPathComponent);
    }
    for name in path {
        if name.is_empty() {
            return Err(Error::EmptyPathComponent);
        }
    }
    Ok(())
}
