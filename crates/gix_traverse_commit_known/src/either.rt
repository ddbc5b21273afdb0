//! `find`, `Either`: a commit by its row, or by its object; its tree's id, its committer's time.

ghost use Rattle.std.specs.Prelude.{◌≡◌, Ok, ℤ, IfOk, IfErr, IfSome, IfNone, Contains};
ghost use Rattle.std.specs.Option.{option_copied};
ghost use Rattle.gix_hash.specs.Id.{id_of};
ghost use Rattle.gix_object_commit.specs.ReadingOn.{TellsNone, committer_told};
ghost use Rattle.gix_object_commit.specs.Tokens.{place_of};
ghost use Rattle.gix_object_lookup.specs.Existing.{KindFault};
ghost use Rattle.gix_object_lines.specs.declared.kind.Kind.TheVariants as kinds;
ghost use Rattle.gix_traverse_graph.specs.Rows.{Holds, AreRows};
ghost use Rattle.gix_traverse_commit_known.specs.Told.{IsFound, TakesTreeOf, TellsTime, TellsSeconds, LacksTime, rows_of};

use gix_hash::ObjectId;
use gix_object_commit::CommitRefIter;
use gix_object_lines::lines::read_time;
use gix_object_lines::{Kind, decode};
use gix_object_lookup::find::existing_iter;
use gix_object_lookup::{FindInto, content_of};
use gix_traverse_graph::{Graph, Row};

/// A commit: its row if it has one, and otherwise a reader of its object's parts.
#[derive(Debug, Clone, Copy)]
pub enum Either<'buf, 'cache> {
    /// A reader of the parts of its object.
    CommitRefIter(CommitRefIter<'buf>),
    /// Its row.
    CachedCommit(&'cache Row),
}

impl<'buf, 'cache> Either<'buf, 'cache> {
    /// The id of the commit's tree. Returns an error if the part that comes next is no tree.
    pub fn tree_id(self) -> Result<ObjectId, decode::Error>
        ensures { TakesTreeOf self.entry result }
    {
        match self {
            Either::CommitRefIter(mut reader) => reader.tree_id(),
            Either::CachedCommit(row) => Ok(row.tree),
        }
    }

    /// The committer's seconds since 1970. Returns an error if the object has no committer.
    pub fn commit_time(self) -> Result<i64, decode::Error>
        ensures told { IfOk result (TellsTime self.entry) }
        ensures every { (time : ℤ) → TellsTime self.entry time → result ≡ Ok time }
        ensures refused { IfErr result (LacksTime self.entry) }
    {
        match self {
            Either::CommitRefIter(reader) => seconds(reader),
            Either::CachedCommit(row) => Ok(row.time),
        }
    }
}

// The committer's seconds, from the parts to come.
pub(crate) fn seconds(reader: CommitRefIter<'_>) -> Result<i64, decode::Error>
    ensures told { IfOk result (TellsSeconds (place_of reader.entry)) }
    ensures every { (seconds : ℤ) → TellsSeconds (place_of reader.entry) seconds
        → result ≡ Ok seconds }
    ensures refused { IfErr result (TellsNone committer_told (place_of reader.entry)) }
{
    let committer = reader.committer()?;
    let time = read_time(committer.time.as_bytes())?;
    Ok(time.seconds)
}

/// The commit of this id: by its row if the rows have it, and otherwise by its object, whose
/// content is then in the buffer. If the rows don't have it, returns `NotFound` if there is no
/// object either, `ObjectKind` if the object is no commit, and `Find` if the lookup failed.
pub fn find<'buf, 'cache, F: FindInto>(
    cache: Option<&'cache Graph>,
    objects: &F,
    id: &ObjectId,
    buffer: &'buf mut Vec<u8>,
) -> Result<Either<'buf, 'cache>, existing_iter::Error>
    ensures found { F.is_honest objects.now
        → IfOk result (IsFound (rows_of (option_copied cache.entry)) (F.table objects.now) id.now) }
    ensures refused { IfErr result (KindFault (F.is_honest objects.now) (F.may_fail objects.now)
        (F.table objects.now) (id_of id.now) kinds.Commit) }
    ensures rowless { IfErr result (λ _. ¬ Holds (rows_of (option_copied cache.entry)) id.now) }
{
    match row_in(cache, id) {
        Some(row) => Ok(Either::CachedCommit(row)),
        None => {
            let content = content_of(objects, id.as_oid(), Kind::Commit, buffer)?;
            Ok(Either::CommitRefIter(CommitRefIter::from_bytes(content, id.kind())))
        }
    }
}

/// The row of this commit, if the rows have it.
pub(crate) fn row_in<'cache>(cache: Option<&'cache Graph>, id: &ObjectId) -> Option<&'cache Row>
    ensures found { IfSome result (λ row. Contains (rows_of (option_copied cache.entry)) row.now
        × (row.now.id ≡ id.now)) }
    ensures none { IfNone result (¬ Holds (rows_of (option_copied cache.entry)) id.now) }
    ensures rows { AreRows (rows_of (option_copied cache.entry)) }
{
    cache?.commit_by_id(id)
}
