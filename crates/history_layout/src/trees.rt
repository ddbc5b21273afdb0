//! Laws on a repository's two trees: places of ids, what is put, stored and read, and the one name that moves.

ghost use Rattle.history_layout.specs.TreeHalves.{HalvesStand, NamesSpeakOfMore, PlacesTellIds, PlacesTellValues, ValuesHaveIds};
ghost use Rattle.history_layout.specs.TreeSteps.{PutsStore, StandingIsStored, StoredStands, TreesTellTaken, OwnIdsStay, StoresInAnyOrder, NoneUnfinished, RenamesPut};
ghost use Rattle.history_layout.specs.OneNameSteps.{CommitsMoveOneName, TagsMoveOneName};
ghost use Rattle.history_layout.specs.TreeReads.{ObjectsTellValues, CommitsAreRead, FoldersAreRead, BytesAreRead};

/// A pair represents a repository exactly if each of its trees holds its half.
pub fn halves_stand()
    ensures { HalvesStand }
{}

/// Different ids have different places.
pub fn places_tell_ids()
    ensures { PlacesTellIds }
{}

/// At the place of an id is the text of what is stored under it, or no file.
pub fn places_tell_values()
    ensures { PlacesTellValues }
{}

/// Values are stored only under ids of the kind.
pub fn values_have_ids()
    ensures { ValuesHaveIds }
{}

/// A put of a value whose id is not taken stores it.
pub fn puts_store()
    ensures { PutsStore }
{}

/// If the text of a value is at its place, storing the value changes nothing.
pub fn standing_is_stored()
    ensures { StandingIsStored }
{}

/// Under an id that is not taken is the text of the value, if anything.
pub fn stored_stands()
    ensures { StoredStands }
{}

/// The tree determines whether the id of a value is taken.
pub fn trees_tell_taken()
    ensures { TreesTellTaken }
{}

/// Storing a value keeps each value under its own id.
pub fn own_ids_stay()
    ensures { OwnIdsStay }
{}

/// A commit moves one name, to the commit that it stores.
pub fn commits_move_one_name()
    ensures { CommitsMoveOneName }
{}

/// A tag moves one name, to the tag that it stores.
pub fn tags_move_one_name()
    ensures { TagsMoveOneName }
{}

/// If the tree has an object, a value of its type and content is stored.
pub fn objects_tell_values()
    ensures { ObjectsTellValues }
{}

/// If the tree has a commit, one of its content is stored.
pub fn commits_are_read()
    ensures { CommitsAreRead }
{}

/// If the tree has a tree, a folder of its content is stored.
pub fn folders_are_read()
    ensures { FoldersAreRead }
{}

/// If the tree has a blob, its bytes are stored.
pub fn bytes_are_read()
    ensures { BytesAreRead }
{}

/// Values may be stored in any order, and those whose text is stored already may be left out: it
/// changes neither whether an id is taken, nor the files, nor the known ids.
pub fn stores_in_any_order()
    ensures { StoresInAnyOrder }
{}

/// There is no file where an object is written before it is renamed to its place.
pub fn none_unfinished()
    ensures { NoneUnfinished }
{}

/// A text that was written there and renamed to its place is put.
pub fn renames_put()
    ensures { RenamesPut }
{}

/// A tree that holds a repository's names holds them with more values too, whatever is packed.
pub fn names_speak_of_more()
    ensures { NamesSpeakOfMore }
{}
