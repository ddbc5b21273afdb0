//! A law: date and topological order list the set that any order lists.

ghost use Rattle.std.specs.Prelude.{◌↔◌, List, Contains, IsTrue};
ghost use Rattle.gix_hash.specs.declared.object_id.ObjectId.{ObjectId};
ghost use Rattle.gix_traverse_graph.specs.Commits.{Commits, WalkRequest};
ghost use Rattle.gix_traverse_graph.specs.Walks.{InSomeOrder};
ghost use Rattle.gix_traverse_topo.specs.Standing.{Answers};
ghost use Rattle.gix_traverse_topo.specs.declared.init.Sorting.{Sorting};

/// A walk by date or by topology lists the set that a walk in any order lists, if no commit is
/// refused.
pub fn lists_one_set()
    ensures { (sorting : Sorting) (g : Commits ObjectId) (q : WalkRequest ObjectId)
        (xs ys : List ObjectId) → ((x : ObjectId) → IsTrue (q.accepts x)) → Answers sorting g q xs
        → InSomeOrder g q ys → (x : ObjectId) → Contains xs x ↔ Contains ys x }
{}
