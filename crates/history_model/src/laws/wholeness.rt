//! Laws on whole repositories: steps and recovered stops keep them, commands store exactly, a pair is of one.

ghost use Rattle.history_model.specs.laws.Wholeness.{StepsKeepSound, SequencesKeepSound, StopsKeepSound, AcceptedStoreExactly, PairsAreOfOne};

/// A step keeps a repository whole and in written form, whatever the reply is.
pub fn steps_keep_sound()
    ensures { StepsKeepSound }
{}

/// So do several steps.
pub fn sequences_keep_sound()
    ensures { SequencesKeepSound }
{}

/// So does a stop during a command, once recovered.
pub fn stops_keep_sound()
    ensures { StopsKeepSound }
{}

/// Everything that an accepted command stores is stored afterwards, each value under its own id;
/// what was stored stays, and nothing else is added.
pub fn accepted_store_exactly()
    ensures { AcceptedStoreExactly }
{}

/// A pair of file trees represents at most one whole repository of a kind.
pub fn pairs_are_of_one()
    ensures { PairsAreOfOne }
{}
