//! Laws: one list alone is in breadth, and one in topological order; all orders list one set.

ghost use Rattle.std.specs.Prelude.{◌≡◌, ◌↔◌, List, Contains, IsTrue};
ghost use Rattle.gix_traverse_graph.specs.Commits.{Commits, WalkRequest};
ghost use Rattle.gix_traverse_graph.specs.Walks.{InBreadth, InTopological, InSomeOrder};

/// Only one list is that of a walk in breadth order.
pub fn breadth_is_one<I>()
    ensures { (g : Commits I) (q : WalkRequest I) (xs ys : List I)
        → InBreadth g q xs → InBreadth g q ys → xs ≡ ys }
{}

/// Only one list is that of a walk in topological order.
pub fn topological_is_one<I>()
    ensures { (g : Commits I) (q : WalkRequest I) (xs ys : List I)
        → InTopological g q xs → InTopological g q ys → xs ≡ ys }
{}

/// All orders list one set, if no commit is refused.
pub fn orders_list_one_set<I>()
    ensures { (g : Commits I) (q : WalkRequest I) (xs ys : List I)
        → ((x : I) → IsTrue (q.accepts x)) → InSomeOrder g q xs → InSomeOrder g q ys → (x : I)
        → Contains xs x ↔ Contains ys x }
{}
