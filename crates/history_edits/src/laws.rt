//! Laws on edits made ready, prepared and committed, of names, of HEAD and of `packed-refs`, and on their locks.

ghost use Rattle.history_edits.specs.Bridges.{NamesStandInPlace, ReadsWhole, PathsOnce, LineTold, RecordTaken};
ghost use Rattle.history_edits.specs.EditChanges.{CommittingMakes, CommittingPasses, PreparingPasses};
ghost use Rattle.history_edits.specs.EditCommits.{ReadyingPasses, CommitPasses, CommitMakes};
ghost use Rattle.history_edits.specs.EditFaults.{EditsAreExcused, EditsAreLockable, EditsHaveRoom, RecordsAreLockable};
ghost use Rattle.history_edits.specs.EditPlans.{EditsSay, EditsReady, UnsplitStay};
ghost use Rattle.history_edits.specs.PackPlans.{PackCommits, PackIsMade, PackIsReady, PackPrepares, PacksAreExcused, PacksFit, PeelsWhole};
ghost use Rattle.history_edits.specs.SwitchPlans.{HeadCommits, HeadIsReady, HeadPrepares, HeadSwitched, HeadSwitches};

use gix_ref_file::Files;

/// A name's files are where a store of the root looks for them.
pub fn names_stand_in_place()
    ensures { NamesStandInPlace }
{}

/// Each name reads in the store as what it holds.
pub fn reads_whole()
    ensures { ReadsWhole }
{}

/// If no name is there twice, no path of their edits is.
pub fn paths_once()
    ensures { PathsOnce }
{}

/// The line of an update is the entry's.
pub fn line_told()
    ensures { LineTold }
{}

/// If a deletion of a name has changed the packed records, or hit none, they are without the name.
pub fn record_taken()
    ensures { RecordTaken }
{}

/// While edits are made ready nothing has moved.
pub fn readying_passes()
    ensures { ReadyingPasses }
{}

/// While they are committed they are on the way.
pub fn commit_passes()
    ensures { CommitPasses }
{}

/// After it they are made.
pub fn commit_makes()
    ensures { CommitMakes }
{}

/// The edits say that the record of the name that goes goes too, and nothing else of records.
pub fn edits_say()
    ensures { EditsSay }
{}

/// Edits that are prepared are ready to be committed.
pub fn edits_ready()
    ensures { EditsReady }
{}

/// Edits that don't follow symbolic references aren't split.
pub fn unsplit_stay()
    ensures { UnsplitStay }
{}

/// The locks of edits of names that can be edited can be made.
pub fn edits_are_lockable()
    ensures { EditsAreLockable }
{}

/// What is prepared of such edits has room.
pub fn edits_have_room()
    ensures { EditsHaveRoom }
{}

/// Packed records can be locked and read.
pub fn records_are_lockable()
    ensures { RecordsAreLockable }
{}

/// Over the names of a repository, edits that test what these hold aren't refused.
pub fn edits_are_excused<F: Files>()
    ensures { EditsAreExcused F.reading_may_fail }
{}

/// While edits are prepared no name moves, and no folders come but those of names.
pub fn preparing_passes()
    ensures { PreparingPasses }
{}

/// While they are committed the names are on the way, and no folders come but those of names.
pub fn committing_passes()
    ensures { CommittingPasses }
{}

/// After it they are made, and no lock is left.
pub fn committing_makes()
    ensures { CommittingMakes }
{}

/// Once the edit of a switch is prepared, only HEAD is to be replaced.
pub fn head_is_ready()
    ensures { HeadIsReady }
{}

/// While HEAD's edit is prepared, HEAD is as before.
pub fn head_prepares()
    ensures { HeadPrepares }
{}

/// What is made of it can be committed.
pub fn head_commits()
    ensures { HeadCommits }
{}

/// While it is committed HEAD is on its way.
pub fn head_switches()
    ensures { HeadSwitches }
{}

/// After it HEAD names the branch, and no lock is left.
pub fn head_switched()
    ensures { HeadSwitched }
{}

/// The edits of a pack fit as those of moves do.
pub fn packs_fit()
    ensures { PacksFit }
{}

/// Once the edits of a pack are prepared, all names are ready to be packed.
pub fn pack_is_ready()
    ensures { PackIsReady }
{}

/// The edits of a pack of a repository's names aren't refused.
pub fn packs_are_excused<F: Files>()
    ensures { PacksAreExcused F.reading_may_fail }
{}

/// While they are prepared nothing is packed, and no folders come but those of names.
pub fn pack_prepares()
    ensures { PackPrepares }
{}

/// While they are committed the names are on the way, and no folders come but those of names.
pub fn pack_commits()
    ensures { PackCommits }
{}

/// After it all names are packed, and no lock is left.
pub fn pack_is_made()
    ensures { PackIsMade }
{}

/// Over the objects of a sound repository the ids of names lead to what it says.
pub fn peels_whole()
    ensures { PeelsWhole }
{}
