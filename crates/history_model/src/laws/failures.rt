//! Laws on failed calls of files: how many a run counts, and that a reply `fault File` is its last.

ghost use Rattle.history_model.specs.laws.Failures.{FaultsAreCounted, FaultsComeLast, UnfailedCountNone};

/// Over files whose readings can't fail: if a run counted no failed call, none of its replies is
/// `fault File`.
pub fn faults_are_counted()
    ensures { FaultsAreCounted }
{}

/// Over files whose readings can't fail, a reply `fault File` is a run's last, to a command that
/// changes files, and the run's first counted failure was in that command.
pub fn faults_come_last()
    ensures { FaultsComeLast }
{}

/// If no command that changes files has a fault, a run counts no failed call.
pub fn unfailed_count_none()
    ensures { UnfailedCountNone }
{}
