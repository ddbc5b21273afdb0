//! Laws on a command's way: stops while it stores, moves, switches or packs, and the names that it edits.

ghost use Rattle.history_layout.specs.Passing.{PutsPass, CommitsStoreWhole, TagsStoreWhole, StoringStops, MovingStops, ActsLater, ActsThen, SomeStops, FirstAreSome, NamesPass, NamesBegin};
ghost use Rattle.history_layout.specs.PackSteps.{PacksReadAlike, PacksPass, PacksStand};
ghost use Rattle.history_layout.specs.SwitchSteps.{SwitchesStand, SwitchesPass};
ghost use Rattle.history_layout.specs.EditSteps.{EditsPass, EditsStand};
ghost use Rattle.history_layout.specs.CommandEdits.{CommitsEdit, TagsEdit, MovesEdit, RenamesEdit, DeletesEdit};
ghost use Rattle.history_layout.specs.EditFits.{CommitsCanBeEdited, TagsCanBeEdited, MovesCanBeEdited, RenamesCanBeEdited, DeletesCanBeEdited};

/// While a value is put that takes no id, the tree, once recovered, holds the values of before, and
/// the new value whole or not at all.
pub fn puts_pass()
    ensures { PutsPass }
{}

/// A commit stores the bytes of its `put`s, its new folders, children first, and the commit in an
/// order in which each beginning leaves a whole store.
pub fn commits_store_whole()
    ensures { CommitsStoreWhole }
{}

/// A tag leaves a whole store, and so does each beginning of what it stores.
pub fn tags_store_whole()
    ensures { TagsStoreWhole }
{}

/// A stop while a command's values are stored leaves a repository in which no name has moved.
pub fn storing_stops()
    ensures { StoringStops }
{}

/// A stop while a command's names move leaves each name as before the command or as after it.
pub fn moving_stops()
    ensures { MovingStops }
{}

/// What commands did to the files remains true when the files go on.
pub fn acts_later()
    ensures { ActsLater (Unit {0}) }
{}

/// Commands after others, none of which failed, are one sequence of commands.
pub fn acts_then()
    ensures { ActsThen (Unit {0}) }
{}

/// A stop while a command's values are stored, in any order that leaves whole stores, leaves a
/// repository in which no name has moved.
pub fn some_stops()
    ensures { SomeStops }
{}

/// A tree that holds the first of some values, of which each beginning leaves a whole store, holds
/// some of them.
pub fn first_are_some()
    ensures { FirstAreSome }
{}

/// If each name's state is as before the command or as after it, recovery leaves each name and HEAD
/// as before or as after.
pub fn names_pass()
    ensures { NamesPass }
{}

/// Files that represent a repository are at the beginning of each command's way.
pub fn names_begin()
    ensures { NamesBegin }
{}

/// If only HEAD was written anew, the tree holds the names and the branch after a switch.
pub fn switches_stand()
    ensures { SwitchesStand }
{}

/// Meanwhile HEAD's branch, once recovered, is as before the switch or as after it, and each name
/// is as before.
pub fn switches_pass()
    ensures { SwitchesPass }
{}

/// While names are packed, each name reads as before at each moment, and its log is as before.
pub fn packs_read_alike()
    ensures { PacksReadAlike }
{}

/// Stopped then and recovered, the tree holds the names of before.
pub fn packs_pass()
    ensures { PacksPass }
{}

/// When all names are packed, the pair represents the repository as before.
pub fn packs_stand()
    ensures { PacksStand }
{}

/// While names move, in any order between them, and one goes after them, each name is as before the
/// command or as after it.
pub fn edits_pass()
    ensures { EditsPass }
{}

/// After all edits the tree holds the names of the repository after the command.
pub fn edits_stand()
    ensures { EditsStand }
{}

/// A commit moves its name to the commit, and changes no other.
pub fn commits_edit()
    ensures { CommitsEdit }
{}

/// A tag moves its name to the tag.
pub fn tags_edit()
    ensures { TagsEdit }
{}

/// A move moves the names of its lines.
pub fn moves_edit()
    ensures { MovesEdit }
{}

/// A rename moves the new name to the id that the old one holds, and removes the old one.
pub fn renames_edit()
    ensures { RenamesEdit }
{}

/// A deletion removes its name.
pub fn deletes_edit()
    ensures { DeletesEdit }
{}

/// If no cause holds of a commit, its name can be moved.
pub fn commits_can_be_edited()
    ensures { CommitsCanBeEdited }
{}

/// If no cause holds of a tag, its name can be moved.
pub fn tags_can_be_edited()
    ensures { TagsCanBeEdited }
{}

/// If no cause holds of a move, the names of its lines can be moved in one transaction.
pub fn moves_can_be_edited()
    ensures { MovesCanBeEdited }
{}

/// If no cause holds of a rename, the new name can be moved and the old one removed in one
/// transaction.
pub fn renames_can_be_edited()
    ensures { RenamesCanBeEdited }
{}

/// If no cause holds of a deletion, its name can be removed.
pub fn deletes_can_be_edited()
    ensures { DeletesCanBeEdited }
{}
