//! Laws: which entries and paths a recorder records in a whole walk, in depth or breadth order.

ghost use Rattle.std.specs.Prelude.{◌≡◌, [], ◌++◌, List, ℕ};
ghost use Rattle.gix_hash.specs.Id.{Id};
ghost use Rattle.gix_hash.specs.declared.kind.Kind.{Kind};
ghost use Rattle.gix_traverse_tree.specs.Breadth.{InBreadth};
ghost use Rattle.gix_traverse_tree.specs.Calls.{Call, Runs};
ghost use Rattle.gix_traverse_tree.specs.Depth.{InDepth, before};
ghost use Rattle.gix_traverse_tree.specs.Orders.{HasNames, IsFresh, RecordsInDepth, RecordsInBreadth};
ghost use Rattle.gix_traverse_tree.specs.Recorder.{Records};
ghost use Rattle.gix_traverse_tree.specs.Trees.{whole};
ghost use Rattle.gix_traverse_tree.specs.declared.recorder.Recorder.{Recorder};

use gix_object_lookup::FindInto;

/// What a whole walk in depth order has a recorder record: each entry with its path, then what lies
/// in it.
pub fn records_in_depth<F: FindInto>(objects: &F)
    ensures { (id : Id) (calls : List Call) (old new : Recorder)
        → InDepth (F.is_honest objects.now) (F.may_fail objects.now) (F.table objects.now) []
        (before id) calls whole → HasNames calls → IsFresh old → Runs Records old calls new
        → RecordsInDepth (F.is_honest objects.now) (F.table objects.now) id old new }
{
    let _ = objects;
}

/// What a whole walk in breadth order has a recorder record: the entries of the root with their
/// paths, then those of the trees among them, level by level.
pub fn records_in_breadth<F: FindInto>(objects: &F)
    ensures { (ids : Kind) (content : List ℕ) (calls : List Call) (old new : Recorder)
        → InBreadth (F.is_honest objects.now) (F.may_fail objects.now)
        (F.table objects.now) ids content calls whole → HasNames calls → IsFresh old
        → Runs Records old calls new
        → RecordsInBreadth (F.is_honest objects.now) (F.table objects.now) ids content old new }
{
    let _ = objects;
}
