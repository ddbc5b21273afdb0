//! Laws of file maps and their unfolded trees, each the contract of a function that does nothing.

ghost use Rattle.history_files.specs.Laws.{TreesUnfold, WholeStoresHaveTrees, PutsAgree, GraftsAgree, RemovalsAgree, FoldersAgree, UnfoldingsTellRoots, RootsAreWellFormed};

/// If trees have a file map and its folders, its tree unfolds to its files: at the components of
/// each path the mode of its kind and the id of its bytes, and nothing elsewhere.
pub fn trees_unfold()
    ensures { TreesUnfold }
{}

/// A whole store has the trees of each folder that is stored in it.
pub fn whole_stores_have_trees()
    ensures { WholeStoresHaveTrees }
{}

/// A put in a file map is a put at the path's components in what it unfolds to.
pub fn puts_agree()
    ensures { PutsAgree }
{}

/// A graft in a file map puts what is at its source at the path's components in what it unfolds to,
/// over trees that have the other files and their folders.
pub fn grafts_agree()
    ensures { GraftsAgree }
{}

/// A removal in a file map is a removal at the path's components in what it unfolds to.
pub fn removals_agree()
    ensures { RemovalsAgree }
{}

/// A file map has nothing below a path exactly if what it unfolds to has nothing below its
/// components.
pub fn folders_agree()
    ensures { FoldersAgree }
{}

/// File maps that unfold to the same files have the same root.
pub fn unfoldings_tell_roots()
    ensures { UnfoldingsTellRoots }
{}

/// The entries that the root of a file map spells are a well-formed tree.
pub fn roots_are_well_formed()
    ensures { RootsAreWellFormed }
{}
