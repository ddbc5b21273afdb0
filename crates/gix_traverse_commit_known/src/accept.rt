//! `Accept`: the predicate, which commits a walk accepts; `All` accepts each.

ghost use Rattle.std.specs.Prelude.{◌≡◌, Bool, true};
ghost use Rattle.gix_hash.specs.Id.{Id};
ghost use Rattle.gix_hash.specs.Views.{viewed_id};

use gix_hash::oid;

/// Decides which commits a walk accepts, and names them in its contract.
pub trait Accept {
    /// The ids that are accepted.
    ghost accepts: { Self → Id → Bool };

    /// What a question makes of the predicate.
    ghost goes: { Self → Id → Self → Type 0 };

    /// Returns whether this id is accepted. A call changes no later result.
    fn accept(&mut self, id: oid<'_>) -> bool
        ensures told { result ≡ Self.accepts self.old (viewed_id id.entry) }
        ensures kept { Self.accepts self.new ≡ Self.accepts self.old }
        ensures gone { Self.goes self.old (viewed_id id.entry) self.new };
}

/// Accepts each commit.
#[derive(Debug, Clone, Copy, PartialEq, Eq)]
pub struct All;

impl Accept for All {
    ghost accepts = { λ _ _. true };

    ghost goes = { λ before _ after. after ≡ before };

    fn accept(&mut self, _id: oid<'_>) -> bool {
        true
    }
}
