//! The law on the past of a name: exactly the moves since it was last created, newest first.

ghost use Rattle.history_model.specs.laws.Pasts.{PastsTellMoves};

/// If no changing command had a fault, the past of a name is exactly the moves that these steps
/// made since it was last created, newest first, and then those before these steps, if it existed
/// all the while.
pub fn pasts_tell_moves()
    ensures { PastsTellMoves }
{}
