//! A predicate that notes its calls.

ghost use Rattle.std.specs.Prelude.{◌≡◌, not};
ghost use Rattle.std.specs.List.{list_any};
ghost use Rattle.gix_hash.specs.Id.{id_of};
ghost use Rattle.gix_hash.specs.Order.{id_eq};
ghost use Rattle.gix_hash.specs.Views.{viewed_id};

use gix_hash::{ObjectId, oid};
use gix_traverse_commit::Accept;

/// Refuses some commits, and notes for which commits it was called, in order.
#[derive(Drop)]
pub struct Refusing<'a> {
    /// The commits that it refuses.
    pub refused: Vec<ObjectId>,
    /// The commits for which it was called.
    pub asked: &'a mut Vec<ObjectId>,
}

impl Refusing<'_> {
    fn refuses(&self, id: oid<'_>) -> bool
        ensures { result
            ≡ list_any (λ it. id_eq (id_of it) (viewed_id id.entry)) self.now.refused.items }
    {
        self.refused.iter().any(|it| is_of(it, id))
    }

    // If no memory is left, it is missing in what is shown.
    fn note(&mut self, id: oid<'_>)
        ensures { self.new.refused ≡ self.old.refused }
    {
        let _ = self.asked.push(id.to_owned());
    }
}

fn is_of(it: &ObjectId, id: oid<'_>) -> bool
    ensures { result ≡ id_eq (id_of it.now) (viewed_id id.entry) }
{
    it.as_oid().eq_oid(id)
}

impl Accept for Refusing<'_> {
    ghost accepts = { λ predicate id.
        not (list_any (λ it. id_eq (id_of it) id) predicate.refused.items) };

    ghost goes = { λ before _ after. after.refused ≡ before.refused };

    fn accept(&mut self, id: oid<'_>) -> bool {
        self.note(id);
        !self.refuses(id)
    }
}
