//! Laws on commands with one effect: edits cut into commits in two ways, and logs of one set in all orders.

ghost use Rattle.history_model.specs.laws.Alike.{EditsCutAnyWay, OrdersPrintOneSet};

/// A list of edits, cut in two ways into accepted commits from equal files in repositories of one
/// kind, gives equal files and one root tree id, if each graft's word means a commit with the same
/// files however the list is cut.
pub fn edits_cut_any_way()
    ensures { EditsCutAnyWay }
{}

/// For the same tips and hidden words, along all parents and without a cutoff or a path, all orders
/// print the same set.
pub fn orders_print_one_set()
    ensures { OrdersPrintOneSet }
{}
