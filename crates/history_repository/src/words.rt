//! What a word of a command means: HEAD, a name that exists or a short id, then a commit or the cause of none.

ghost use Rattle.std.specs.Prelude.{◌≡◌, ◌++◌, ◌&&◌, not, Some, None, Ok, Err, IfOk, IsFalse, MatchOption, MatchResult, map};
ghost use Rattle.std.specs.List.{list_any};
ghost use Rattle.history_model.specs.Bytes.{begins};
ghost use Rattle.history_model.specs.Forms.{is_private, refs_front};
ghost use Rattle.history_model.specs.Words.{is_short_id, ReadsAs, id_meaning, word_meaning};
ghost use Rattle.history_repository.specs.Meanings.{reads_as, words_cause, commit_in, peeled_in, is_ambiguous_word, is_not_a_commit, is_unborn_head, is_unknown_word, meaning_of, SpellsPrefix, IsFirstStanding, IsLookedUp, IsReadAs};
ghost use Rattle.gix_hash.specs.Id.{id_of};
ghost use Rattle.history_repository.specs.Stands.{Stands};
ghost use Rattle.history_repository.specs.Reads.{GivesMeant, ReadsMeant, ReadsMore};
ghost use Rattle.history_model.specs.Objects.{Value};
ghost use Rattle.std.specs.FinMap.{get};
ghost use Rattle.history_model.specs.Repository as plain;

use crate::naming::is_private;
use crate::read_objects::ReadObjects;
use crate::repository::Repository;
use crate::stopped::Stopped;
use crate::stored::{MeantCommit, PeeledCommit, peeled, read_meant};
use gix_hash::{Kind, ObjectId, Prefix};
use gix_ref_file::Files;
use history_model::Cause;
use history_model::names::{HEAD, HEADS, REFS, TAGS};
use history_store::Hit;
use std::alloc::{AllocError, Global};
use std::str;

/// What a word reads as.
#[derive(Clone, Copy)]
pub enum WordMeaning {
    /// A commit.
    Commit(PeeledCommit),
    /// The id of an object that is neither a commit nor a tag of one.
    NoCommit,
    /// HEAD, whose branch doesn't exist.
    Unborn,
    /// No candidate exists, and no stored object's id begins with the word.
    Unknown,
    /// No candidate exists, and several ids begin with the word.
    Ambiguous,
}

/// What a word means, before any object is read.
#[derive(Clone, Copy)]
enum LookedUp {
    /// The object that its name holds, or whose id alone begins with it.
    Object(ObjectId),
    /// HEAD, whose branch doesn't exist.
    Unborn,
    /// No candidate exists, and no stored object's id begins with the word.
    Unknown,
    /// No candidate exists, and several ids begin with the word.
    Ambiguous,
}

/// An existing name, and the id that it holds.
#[derive(Drop)]
pub struct Standing {
    pub name: Vec<u8>,
    pub id: ObjectId,
}

/// What is before and after a word in the names that it may mean, in the order of the search.
const CANDIDATES: [(&[u8], &[u8]); 6] = [
    (b"", b""),
    (REFS, b""),
    (TAGS, b""),
    (HEADS, b""),
    (b"refs/remotes/", b""),
    (b"refs/remotes/", b"/HEAD"),
];

/// Returns the three texts in one. Fails only if memory runs out.
fn joined(alloc: Global, front: &[u8], word: &[u8], back: &[u8]) -> Result<Vec<u8>, AllocError>
    ensures { IfOk result (λ name. name.items ≡ front.now ++ word.now ++ back.now) }
{
    let mut name = Vec::from_slice(alloc, front)?;
    name.extend_from_slice(word)?;
    name.extend_from_slice(back)?;
    Ok(name)
}

/// Returns whether a word may mean this name.
fn is_candidate(name: &[u8]) -> bool
    ensures { result ≡ (begins refs_front name.now && not (is_private name.now)) }
{
    name.starts_with(REFS) && !is_private(name)
}

/// Returns the prefix that a short id spells: 4 hexadecimal digits at least, in any letter case,
/// and no more than an id of the kind has. `None` of another word.
fn short_id(kind: Kind, word: &[u8]) -> Option<Prefix>
    ensures { MatchOption result (IsFalse (is_short_id kind word.now))
        (SpellsPrefix kind word.now) }
{
    if word.len() > kind.len_in_hex() {
        return None;
    }
    let Ok(text) = str::from_utf8(word) else {
        return None;
    };
    match Prefix::from_hex(text) {
        Ok(prefix) => Some(prefix),
        Err(_) => None,
    }
}

impl WordMeaning {
    /// Tests that the word means this commit, which its name peels to. Otherwise returns
    /// `NotExpected`.
    pub fn test(self, held: ObjectId) -> Result<(), Cause>
        ensures { MatchResult result (λ _. reads_as (id_of held) (meaning_of self) ≡ None)
            (λ cause. reads_as (id_of held) (meaning_of self) ≡ Some cause) }
    {
        match self {
            WordMeaning::Commit(commit) => {
                if held == commit.id {
                    Ok(())
                } else {
                    Err(Cause::NotExpected)
                }
            }
            WordMeaning::NoCommit => Err(Cause::NotExpected),
            WordMeaning::Unborn => Err(Cause::NotExpected),
            WordMeaning::Unknown => Err(Cause::NotExpected),
            WordMeaning::Ambiguous => Err(Cause::NotExpected),
        }
    }

    /// Returns the commit that the word means; `None` if it means none.
    pub fn peeled(self) -> Option<PeeledCommit>
        ensures { result ≡ peeled_in self }
    {
        match self {
            WordMeaning::Commit(commit) => Some(commit),
            WordMeaning::NoCommit => None,
            WordMeaning::Unborn => None,
            WordMeaning::Unknown => None,
            WordMeaning::Ambiguous => None,
        }
    }

    /// Returns the id of the commit that the word means; `None` if it means none.
    pub fn id(self) -> Option<ObjectId>
        ensures { result ≡ commit_in self }
    {
        match self {
            WordMeaning::Commit(commit) => Some(commit.id),
            WordMeaning::NoCommit => None,
            WordMeaning::Unborn => None,
            WordMeaning::Unknown => None,
            WordMeaning::Ambiguous => None,
        }
    }

    fn is_unknown(self) -> bool
        ensures { result ≡ is_unknown_word (meaning_of self) }
    {
        matches!(self, WordMeaning::Unknown)
    }

    fn is_ambiguous(self) -> bool
        ensures { result ≡ is_ambiguous_word (meaning_of self) }
    {
        matches!(self, WordMeaning::Ambiguous)
    }

    fn is_unborn(self) -> bool
        ensures { result ≡ is_unborn_head (meaning_of self) }
    {
        matches!(self, WordMeaning::Unborn)
    }

    fn is_no_commit(self) -> bool
        ensures { result ≡ is_not_a_commit (meaning_of self) }
    {
        matches!(self, WordMeaning::NoCommit)
    }

    /// Returns the commit, if there is one; otherwise why there is none.
    pub fn commit(self) -> Result<ObjectId, Cause>
        ensures { MatchResult result (λ id. meaning_of self ≡ Ok (id_of id))
            (λ cause. meaning_of self ≡ Err cause) }
    {
        match self {
            WordMeaning::Commit(commit) => Ok(commit.id),
            WordMeaning::NoCommit => Err(Cause::NotACommit),
            WordMeaning::Unborn => Err(Cause::UnbornHead),
            WordMeaning::Unknown => Err(Cause::UnknownWord),
            WordMeaning::Ambiguous => Err(Cause::AmbiguousWord),
        }
    }
}

fn have_unknown(meanings: &[WordMeaning]) -> bool
    ensures { result ≡ list_any is_unknown_word (map meaning_of meanings.now) }
{
    meanings.iter().any(|meaning| meaning.is_unknown())
}

fn have_ambiguous(meanings: &[WordMeaning]) -> bool
    ensures { result ≡ list_any is_ambiguous_word (map meaning_of meanings.now) }
{
    meanings.iter().any(|meaning| meaning.is_ambiguous())
}

fn have_unborn(meanings: &[WordMeaning]) -> bool
    ensures { result ≡ list_any is_unborn_head (map meaning_of meanings.now) }
{
    meanings.iter().any(|meaning| meaning.is_unborn())
}

fn have_no_commit(meanings: &[WordMeaning]) -> bool
    ensures { result ≡ list_any is_not_a_commit (map meaning_of meanings.now) }
{
    meanings.iter().any(|meaning| meaning.is_no_commit())
}

/// Tests that the words of a command, given in two lists, mean commits. Otherwise returns the first
/// of these causes that any of them has: `UnknownWord`, `AmbiguousWord`, `UnbornHead`,
/// `NotACommit`.
pub fn test_all(some: &[WordMeaning], others: &[WordMeaning]) -> Result<(), Cause>
    ensures { MatchResult result
        (λ _. words_cause (map meaning_of some.now ++ map meaning_of others.now) ≡ None)
        (λ cause. words_cause (map meaning_of some.now ++ map meaning_of others.now)
        ≡ Some cause) }
{
    if have_unknown(some) || have_unknown(others) {
        return Err(Cause::UnknownWord);
    }
    if have_ambiguous(some) || have_ambiguous(others) {
        return Err(Cause::AmbiguousWord);
    }
    if have_unborn(some) || have_unborn(others) {
        return Err(Cause::UnbornHead);
    }
    if have_no_commit(some) || have_no_commit(others) {
        return Err(Cause::NotACommit);
    }
    Ok(())
}

/// Returns the first existing name of those that a word may mean; `None` if none exists. It is a
/// fault if a call of the files failed, or if no memory is left.
pub fn first_standing<F: Files>(
    repository: &Repository<F>,
    alloc: Global,
    word: &[u8],
) -> Result<Option<Standing>, Stopped>
    ensures { (r : plain.Repository) → Stands F.is_honest F.history repository.now r
        → GivesMeant F.reading_may_fail (IsFirstStanding r word.now) result }
{
    for (front, back) in CANDIDATES {
        let name = joined(alloc, front, word, back)?;
        if is_candidate(&name) {
            if let Some(id) = repository.names.find(alloc, &name)? {
                return Ok(Some(Standing { name, id }));
            }
        }
    }
    Ok(None)
}

/// Returns what a word means: of HEAD what its branch holds; of another word what the first
/// existing candidate holds, and else the stored object whose id alone begins with it. No object is
/// read. The faults are those of `first_standing`.
fn look_up<F: Files>(
    repository: &Repository<F>,
    alloc: Global,
    word: &[u8],
) -> Result<LookedUp, Stopped>
    ensures { (r : plain.Repository) → Stands F.is_honest F.history repository.now r
        → GivesMeant F.reading_may_fail (IsLookedUp r (word_meaning r word.now)) result }
{
    if word == HEAD {
        return match repository.names.find(alloc, &repository.branch)? {
            Some(id) => Ok(LookedUp::Object(id)),
            None => Ok(LookedUp::Unborn),
        };
    }
    match first_standing(repository, alloc, word)? {
        Some(standing) => Ok(LookedUp::Object(standing.id)),
        None => Ok(look_up_id(repository, word)),
    }
}

/// Returns what a word means that is no name: the stored object whose id alone begins with it, if
/// it is a short id.
fn look_up_id<F: Files>(repository: &Repository<F>, word: &[u8]) -> LookedUp
    ensures { (r : plain.Repository) → Stands F.is_honest F.history repository.now r
        → IsLookedUp r (id_meaning r word.now) result }
{
    let Some(prefix) = short_id(repository.objects.kind(), word) else {
        return LookedUp::Unknown;
    };
    match repository.objects.lookup_prefix(&prefix).hit {
        Hit::Absent => LookedUp::Unknown,
        Hit::One(id) => LookedUp::Object(id),
        Hit::Several => LookedUp::Ambiguous,
    }
}

/// Returns what a word means. Its object is read only if it wasn't read before. The faults are those
/// of `first_standing`.
pub fn read_word<F: Files>(
    repository: &Repository<F>,
    alloc: Global,
    read: &mut ReadObjects,
    word: &[u8],
) -> Result<WordMeaning, Stopped>
    ensures { (r : plain.Repository) → Stands F.is_honest F.history repository.now r
        → ReadsMore F.reading_may_fail r read.old read.new
        (IsReadAs r (word_meaning r word.now)) result }
{
    match look_up(repository, alloc, word)? {
        LookedUp::Object(id) => read_stored(repository, alloc, read, id),
        LookedUp::Unborn => Ok(WordMeaning::Unborn),
        LookedUp::Unknown => Ok(WordMeaning::Unknown),
        LookedUp::Ambiguous => Ok(WordMeaning::Ambiguous),
    }
}

/// Returns what the id of a stored object means: a commit itself, a tag its commit, another object
/// none.
fn read_stored<F: Files>(
    repository: &Repository<F>,
    alloc: Global,
    read: &mut ReadObjects,
    id: ObjectId,
) -> Result<WordMeaning, Stopped>
    ensures { (r : plain.Repository) (value : Value) → Stands F.is_honest F.history repository.now r
        → get r.objects (id_of id) ≡ Some value
        → ReadsMore F.reading_may_fail r read.old read.new
        (IsReadAs r (ReadsAs (id_of id))) result }
{
    Ok(match peeled(repository, alloc, read, id)? {
        Some(commit) => WordMeaning::Commit(commit),
        None => WordMeaning::NoCommit,
    })
}

/// Returns the commit that a word means, with its content unless the word means a tag of it. One
/// object is read.
///
/// It is refused with the cause if the word means no commit; the faults are those of
/// `first_standing`.
pub fn read_commit_of<F: Files>(
    repository: &Repository<F>,
    alloc: Global,
    word: &[u8],
) -> Result<MeantCommit, Stopped>
    ensures { (r : plain.Repository) → Stands F.is_honest F.history repository.now r
        → ReadsMeant F.reading_may_fail r word.now result }
{
    match look_up(repository, alloc, word)? {
        LookedUp::Object(id) => match read_meant(repository, alloc, id)? {
            Some(meant) => Ok(meant),
            None => Err(Stopped::Refused(Cause::NotACommit)),
        },
        LookedUp::Unborn => Err(Stopped::Refused(Cause::UnbornHead)),
        LookedUp::Unknown => Err(Stopped::Refused(Cause::UnknownWord)),
        LookedUp::Ambiguous => Err(Stopped::Refused(Cause::AmbiguousWord)),
    }
}
