//! The law that a whole objects part and a names part over it join into one whole repository.

ghost use Rattle.history_check_names.specs.Joined.{PartsJoin};

/// If the objects part holds whole values, and the names part is a repository's over their facts,
/// the two represent one whole repository.
pub fn parts_join()
    ensures { PartsJoin }
{}
