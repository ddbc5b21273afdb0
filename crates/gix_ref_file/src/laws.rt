//! Laws of the definitions, each the contract of a function that does nothing.
ghost use Rattle.std.specs.Prelude.{◌≡◌, ◌≤◌, ◌++◌, ◌∷◌, ℕ, List, None, length, take, IsTrue, IsFalse, IsSome};
ghost use Rattle.std.specs.List.{list_any};
ghost use Rattle.gix_ref_file.specs.Tree.{Tree, same_path, node_at, bytes_at, names_at, IsRooted, IsAscending, max_path};
ghost use Rattle.gix_ref_file.specs.Changes.{Change, to_write, to_append, to_shorten, to_rename, allows, after, paths_of};
ghost use Rattle.gix_ref_file.specs.History.{History, trees, moment, stood_between};

/// The names in a folder ascend by their bytes, so each is there once.
pub fn names_ascend()
    ensures { (tree : Tree) (folder : List ℕ) → IsRooted tree → IsAscending (names_at tree folder) }
{}

/// Every path of a tree has at most 4,096 bytes.
pub fn paths_are_short()
    ensures { (tree : Tree) (path : List ℕ) → IsRooted tree → IsSome (node_at tree path)
        → length path ≤ max_path }
{}

/// A change leaves all as it is at paths that it doesn't name.
pub fn other_paths_stay()
    ensures { (change : Change) (tree : Tree) (path : List ℕ)
        → IsFalse (list_any (same_path path) (paths_of change))
        → node_at (after change tree) path ≡ node_at tree path }
{}

/// What was written, appended, shortened or renamed is read, and nothing is left at a file's old path.
pub fn changes_are_read()
    ensures written { (tree : Tree) (path bytes : List ℕ)
        → IsTrue (allows tree (to_write path bytes))
        → bytes_at (after (to_write path bytes) tree) path ≡ bytes }
    ensures appended { (tree : Tree) (path bytes : List ℕ)
        → IsTrue (allows tree (to_append path bytes))
        → bytes_at (after (to_append path bytes) tree) path ≡ bytes_at tree path ++ bytes }
    ensures shortened { (tree : Tree) (path : List ℕ) (count : ℕ) → IsRooted tree
        → IsTrue (allows tree (to_shorten path count))
        → bytes_at (after (to_shorten path count) tree) path ≡ take count (bytes_at tree path) }
    ensures renamed { (tree : Tree) (from to : List ℕ) → IsTrue (allows tree (to_rename from to))
        → bytes_at (after (to_rename from to) tree) to ≡ bytes_at tree from }
    ensures moved { (tree : Tree) (from to : List ℕ) → IsTrue (allows tree (to_rename from to))
        → IsFalse (same_path from to) → node_at (after (to_rename from to) tree) from ≡ None }
{}

/// The trees between two moments are the same ones after later changes.
pub fn past_stays()
    ensures { (old new : History) (during : List Tree) (from to : ℕ)
        → trees new ≡ trees old ++ during → to ≤ moment old
        → stood_between new from to ≡ stood_between old from to }
{}

/// Between the moments before and after trees are added, there are the tree before and the added
/// ones, and no others.
pub fn added_trees_stood()
    ensures { (old new : History) (during : List Tree) → trees new ≡ trees old ++ during
        → stood_between new (moment old) (moment new) ≡ old.tree ∷ during }
{}
