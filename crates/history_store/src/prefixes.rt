//! Which of some ids a prefix names (`Lookup`, `Hit`), and whether ascending ids are all of one kind.
ghost use Rattle.std.specs.Prelude.{◌≡◌, ◌≤◌, ◌↔◌, length, IsTrue};
ghost use Rattle.std.specs.FinMap.{is_sorted};
ghost use Rattle.std.specs.List.{All};
ghost use Rattle.gix_hash.specs.Id.{id_of};
ghost use Rattle.history_model.specs.Objects.{by_id};
ghost use Rattle.history_store.specs.Ids.{marked};
ghost use Rattle.history_store.specs.Prefixes.{IsHitOfRun};

use gix_hash::{Kind, ObjectId, Run};

/// Which id a prefix names.
#[derive(Clone, Copy, Debug, PartialEq, Eq)]
pub enum Hit {
    /// No id begins with the prefix.
    Absent,
    /// This id begins with it, and no other.
    One(ObjectId),
    /// Two ids at least begin with it.
    Several,
}

/// Which id a prefix names, and what finding it took.
#[derive(Clone, Copy, Debug, PartialEq, Eq)]
pub struct Lookup {
    pub hit: Hit,
    /// How often `Prefix::cmp_oid` was called.
    pub calls: usize,
}

/// Returns which id a run of these ids makes a prefix name.
pub(crate) fn hit_of(ids: &[ObjectId], run: Run) -> Hit
    requires first { run.first ≤ run.past }
    requires past { run.past ≤ length ids.now }
    ensures { IsHitOfRun ids.now run.first run.past result }
{
    match run.past - run.first {
        0 => Hit::Absent,
        1 => Hit::One(ids[run.first]),
        _ => Hit::Several,
    }
}

/// Returns whether ids that ascend are all of this kind: if the first and the last are, those
/// between them are too.
pub(crate) fn are_of_kind(ids: &[ObjectId], kind: Kind) -> bool
    requires { IsTrue (is_sorted by_id (marked ids.now)) }
    ensures { IsTrue result ↔ All (λ id. (id_of id).kind ≡ kind) ids.now }
{
    let Some(first) = ids.first() else {
        return true;
    };
    is_of_kind(first, kind) && is_of_kind(&ids[ids.len() - 1], kind)
}

fn is_of_kind(id: &ObjectId, kind: Kind) -> bool
    ensures { IsTrue result ↔ ((id_of id.now).kind ≡ kind) }
{
    id.kind() == kind
}
