//! `Parents`: whether a walk goes along all parents of a commit (the default), or the first alone.

ghost use Rattle.std.specs.Prelude.{◌≡◌};
ghost use Rattle.gix_traverse_graph.specs.declared.parents.Parents.TheVariants.{All as AllParents};

/// Along which parents a walk goes.
#[derive(Debug, Clone, Copy, PartialEq, Eq)]
pub enum Parents {
    /// Along all parents of a commit.
    All,
    /// Along the first parent of a commit alone.
    First,
}

impl Default for Parents {
    ghost is_default = { λ parents. parents ≡ AllParents };

    fn default() -> Parents {
        Parents::All
    }
}
