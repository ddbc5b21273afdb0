//! Laws that a run from a whole repository is a round, stopped and recovered or ended, by definitions alone.

ghost use Rattle.history_model.specs.laws.Joining.{RunsMakeRounds, StopsMakeRounds};

use gix_ref_file::Files;

/// A run from a whole repository, stopped at a pair of its trace and recovered, is a round, with
/// the first of its replies.
pub fn stops_make_rounds<F: Files>()
    ensures { StopsMakeRounds F.reading_may_fail }
{}

/// A run that ended without a fault in a changing command is a round too, without a recovery.
pub fn runs_make_rounds<F: Files>()
    ensures { RunsMakeRounds F.reading_may_fail }
{}
