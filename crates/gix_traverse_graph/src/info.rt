//! `Info`: what a walk gives of a commit (id, parents, generation, time), and copies of it.

ghost use Rattle.std.specs.Prelude.{◌≡◌, IfOk};

use gix_hash::ObjectId;
use smallvec::SmallVec;
use std::alloc::AllocError;

/// The ids of a commit's parents, one of them without an allocation.
pub type ParentIds = SmallVec<ObjectId, 1>;

/// What a walk gives of a commit.
#[derive(Debug, Drop, PartialEq, Eq, PartialOrd, Ord, Hash)]
pub struct Info {
    /// The commit's id.
    pub id: ObjectId,
    /// The ids of its parents, in their order: the first alone if `Simple` walks along first
    /// parents.
    pub parent_ids: ParentIds,
    /// The generation in its row, if it has one.
    pub generation: Option<u32>,
    /// Its committer's seconds since 1970, if the walk goes by time.
    pub commit_time: Option<i64>,
}

impl Info {
    /// A copy; `AllocError` if there is no memory for it.
    pub fn try_clone(&self) -> Result<Info, AllocError>
        ensures id { IfOk result (λ copy. copy.id ≡ self.now.id) }
        ensures parents { IfOk result (λ copy. copy.parent_ids.items ≡ self.now.parent_ids.items) }
        ensures generation { IfOk result (λ copy. copy.generation ≡ self.now.generation) }
        ensures time { IfOk result (λ copy. copy.commit_time ≡ self.now.commit_time) }
    {
        Ok(Info {
            id: self.id,
            parent_ids: ParentIds::from_slice(
                *self.parent_ids.allocator(),
                self.parent_ids.as_slice(),
            )?,
            generation: self.generation,
            commit_time: self.commit_time,
        })
    }
}
