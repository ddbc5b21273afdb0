//! Laws on whole repositories: files' bytes and parents are stored, names peel to commits, tags to other ids.

ghost use Rattle.history_layout.specs.Offered.{FilesAreStored};
ghost use Rattle.history_layout.specs.OfferedWords.{NamesStandForCommits, TagsStandForOthers, ParentsAreCommits};

/// The bytes of each file of a stored folder are stored.
pub fn files_are_stored()
    ensures { FilesAreStored }
{}

/// Each name peels to a stored commit.
pub fn names_stand_for_commits()
    ensures { NamesStandForCommits }
{}

/// An id is a tag's exactly if it peels to another id.
pub fn tags_stand_for_others()
    ensures { TagsStandForOthers }
{}

/// Each parent of a commit is a stored commit.
pub fn parents_are_commits()
    ensures { ParentsAreCommits }
{}
