//! The base of a `commit`: its name, what is expected and held there, words read and tested, parents, sources.

ghost use Rattle.std.specs.Prelude.{◌≡◌, MatchResult, None, Some, ◌++◌, ⊤, IfOk, IsTrue, List, OnOk, map, option_and_then, option_map, option_to_list};
ghost use Rattle.history_plans.specs.CommitCauses.{IsNamed, Tests, name_form_causes, name_causes, place_causes};
ghost use Rattle.history_repository.specs.Stands.{Stands};
ghost use Rattle.std.specs.List.{AllByRecursion, filter_map};
ghost use Rattle.history_model.specs.Forms.{is_name};
ghost use Rattle.history_model.specs.Meaning.{branch_or_name};
ghost use Rattle.history_word.specs.Commands.{AreEdits, IsEdit, IsExpect};
ghost use Rattle.history_repository.specs.Reads.{GivesMeant, ReadsMore};
ghost use Rattle.history_repository.specs.Known.{AreMeant};
ghost use Rattle.history_plans.specs.Asked.{AskedCommit};
ghost use Rattle.history_plans.specs.Bases.{AreRootedSources, AreSourcesRead, AreWordsRead, IsCommitBase, IsExpected, IsHeldSource, IsRootedAs, IsSourceRead, expected_meanings, held_cause, parents_cause};
ghost use Rattle.history_repository.specs.Meanings.{words_cause, meaning_of, peeled_in};
ghost use Rattle.history_repository.specs.Held.{IsHeld};
ghost use Rattle.gix_hash.specs.Id.{id_of};
ghost use Rattle.history_repository.specs.declared.stored.PeeledCommit.{PeeledCommit};
ghost use Rattle.history_model.specs.Repository as plain;
ghost use Rattle.history_model.specs.Commands as commands;

use gix_hash::ObjectId;
use gix_ref_file::Files;
use history_model::Cause;
use history_model::limits::MAX_PARENTS;
use history_model::names::HEAD;
use history_repository::{
    Held, PeeledCommit, ReadObjects, Repository, Stopped, WordMeaning, commit_held, id_held,
    peeled_held, read_held, read_word, rooted, test_all, test_name, tree_before,
};
use history_store::has_twice;
use history_word::{CommitCommand, Edit, Expect};
use std::alloc::{AllocError, Global};

/// Returns the name that a `commit` moves: for HEAD its branch, and else the name itself. A name
/// that a repository can't hold is refused with `BadName` or `PrivateName`; it is a fault if no
/// memory is left.
pub(crate) fn name_of<F: Files>(
    repository: &Repository<F>,
    alloc: Global,
    name: &[u8],
) -> Result<Vec<u8>, Stopped>
    ensures { (r : plain.Repository) (sent : commands.CommitCommand)
        → Stands F.is_honest F.history repository.now r → name.now ≡ sent.name
        → Tests F.reading_may_fail name_form_causes r sent (IsNamed r sent) result }
{
    if name == HEAD {
        return Ok(Vec::from_slice(alloc, &repository.branch)?);
    }
    test_name(name)?;
    Ok(Vec::from_slice(alloc, name)?)
}

/// The name that a commit moves, what it holds, the commit's parents, the tree of the first, and of
/// each edit the commit of its word, if it has one.
#[derive(Drop)]
pub(crate) struct Base {
    pub(crate) name: Vec<u8>,
    pub(crate) held: Option<ObjectId>,
    pub(crate) parents: Vec<ObjectId>,
    pub(crate) tree: Option<ObjectId>,
    pub(crate) sources: Vec<Option<PeeledCommit>>,
}

/// What is expected of a name, its word read.
#[derive(Clone, Copy)]
pub(crate) enum Expected {
    Any,
    New,
    At(WordMeaning),
}

impl Expected {
    /// Tests the commit that the name peels to, `None` if the name doesn't exist. Otherwise returns
    /// `NoSuchName`, `Taken` or `NotExpected`.
    pub(crate) fn test(self, held: Option<ObjectId>) -> Result<(), Cause>
        ensures { MatchResult result (λ _. held_cause self (option_map id_of held) ≡ None)
            (λ cause. held_cause self (option_map id_of held) ≡ Some cause) }
    {
        match self {
            Expected::Any => Ok(()),
            Expected::New => match held {
                Some(_) => Err(Cause::Taken),
                None => Ok(()),
            },
            Expected::At(meaning) => match held {
                Some(id) => meaning.test(id),
                None => Err(Cause::NoSuchName),
            },
        }
    }
}

/// Returns what the words of the parents read as, and then those of edits.
fn all_words(
    alloc: Global,
    parents: &[WordMeaning],
    sources: &[Option<WordMeaning>],
) -> Result<Vec<WordMeaning>, AllocError>
    ensures { IfOk result
        (λ all. all.items ≡ parents.now ++ filter_map (λ source. source) sources.now) }
{
    let mut all = Vec::new(alloc);
    all.extend_from_slice(parents)?;
    all.extend(sources.iter().filter_map(|source| *source))?;
    Ok(all)
}

/// Returns the commits of the edits' words.
fn peeled_sources(
    alloc: Global,
    sources: &[Option<WordMeaning>],
) -> Result<Vec<Option<PeeledCommit>>, AllocError>
    ensures { IfOk result
        (λ commits. commits.items ≡ map (option_and_then peeled_in) sources.now) }
{
    sources
        .iter()
        .map(|source| peeled_source(*source))
        .collect(alloc)
}

fn peeled_source(source: Option<WordMeaning>) -> Option<PeeledCommit>
    ensures { result ≡ option_and_then peeled_in source }
{
    match source {
        Some(meaning) => meaning.peeled(),
        None => None,
    }
}

/// Tests that the words mean commits. Otherwise returns the cause, as `test_all` does.
pub(crate) fn test_words(expected: Expected, parents: &[WordMeaning]) -> Result<(), Cause>
    ensures { MatchResult result
        (λ _. words_cause (expected_meanings expected ++ map meaning_of parents.now) ≡ None)
        (λ cause. words_cause (expected_meanings expected ++ map meaning_of parents.now)
        ≡ Some cause) }
{
    match expected {
        Expected::Any => test_all(&[], parents),
        Expected::New => test_all(&[], parents),
        Expected::At(meaning) => test_all(&[meaning], parents),
    }
}

/// Returns the parents of a commit: that of its name, and then what its words read as.
fn parents_of(
    alloc: Global,
    held: Option<PeeledCommit>,
    words: &[WordMeaning],
) -> Result<Vec<PeeledCommit>, AllocError>
    ensures { IfOk result
        (λ parents. parents.items ≡ option_to_list held ++ filter_map peeled_in words.now) }
{
    let mut parents = Vec::new(alloc);
    parents.extend(held)?;
    parents.extend(words.iter().filter_map(|word| word.peeled()))?;
    Ok(parents)
}

fn ids_of(alloc: Global, commits: &[PeeledCommit]) -> Result<Vec<ObjectId>, AllocError>
    ensures { IfOk result
        (λ ids. ids.items ≡ map (λ (commit : PeeledCommit). commit.id) commits.now) }
{
    commits.iter().map(|commit| commit.id).collect(alloc)
}

/// Tests that the parents aren't too many, and that none occurs twice. Otherwise returns
/// `TooManyParents` or `DuplicateParent`.
fn test_parents(parents: &[ObjectId]) -> Result<(), Cause>
    ensures { MatchResult result (λ _. parents_cause (map id_of parents.now) ≡ None)
        (λ cause. parents_cause (map id_of parents.now) ≡ Some cause) }
{
    if parents.len() > MAX_PARENTS {
        return Err(Cause::TooManyParents);
    }
    if has_twice(parents) {
        return Err(Cause::DuplicateParent);
    }
    Ok(())
}

/// Returns what is expected of a name, its word read. It is a fault if a call of the files failed,
/// or if no memory is left.
pub(crate) fn read_expected<F: Files>(
    repository: &Repository<F>,
    alloc: Global,
    read: &mut ReadObjects,
    expect: &Expect,
) -> Result<Expected, Stopped>
    ensures reads { (r : plain.Repository) (sent : commands.Expect)
        → Stands F.is_honest F.history repository.now r → IsExpect expect.now sent
        → AreMeant r read.old → GivesMeant F.reading_may_fail (IsExpected r sent) result }
    ensures kept { (r : plain.Repository) → Stands F.is_honest F.history repository.now r
        → AreMeant r read.old → OnOk result (AreMeant r read.new) }
{
    Ok(match expect {
        Expect::Any => Expected::Any,
        Expect::New => Expected::New,
        Expect::At(word) => Expected::At(read_word(repository, alloc, read, word)?),
    })
}

/// Returns what words read as. The faults are those of `read_expected`.
fn read_words<F: Files>(
    repository: &Repository<F>,
    alloc: Global,
    read: &mut ReadObjects,
    words: &[Vec<u8>],
) -> Result<Vec<WordMeaning>, Stopped>
    ensures { (r : plain.Repository) → Stands F.is_honest F.history repository.now r
        → ReadsMore F.reading_may_fail r read.old read.new
        (λ meanings. AreWordsRead r words.now meanings.items) result }
{
    let mut meanings = Vec::new(alloc);
    for word in words {
        meanings.push(read_word(repository, alloc, read, word)?)?;
    }
    Ok(meanings)
}

/// Returns what the word of an edit reads as, if it has one. The faults are those of
/// `read_expected`.
fn read_source<F: Files>(
    repository: &Repository<F>,
    alloc: Global,
    read: &mut ReadObjects,
    edit: &Edit,
) -> Result<Option<WordMeaning>, Stopped>
    ensures reads { (r : plain.Repository) (line : commands.EditLine)
        → Stands F.is_honest F.history repository.now r → IsEdit edit.now line
        → AreMeant r read.old → GivesMeant F.reading_may_fail (IsSourceRead r line) result }
    ensures kept { (r : plain.Repository) → Stands F.is_honest F.history repository.now r
        → AreMeant r read.old → OnOk result (AreMeant r read.new) }
{
    match edit {
        Edit::Graft(graft) => Ok(Some(read_word(repository, alloc, read, &graft.word)?)),
        Edit::Put(_) => Ok(None),
        Edit::Remove(_) => Ok(None),
        Edit::RemoveFile(_) => Ok(None),
    }
}

/// Returns what the words of edits read as, one of each edit, if it has one. The faults are those
/// of `read_expected`.
fn read_sources<F: Files>(
    repository: &Repository<F>,
    alloc: Global,
    read: &mut ReadObjects,
    edits: &[Edit],
) -> Result<Vec<Option<WordMeaning>>, Stopped>
    ensures { (r : plain.Repository) (lines : List commands.EditLine)
        → Stands F.is_honest F.history repository.now r → AreEdits edits.now lines
        → ReadsMore F.reading_may_fail r read.old read.new
        (λ sources. AreSourcesRead r lines sources.items) result }
{
    let mut sources = Vec::new(alloc);
    for edit in edits {
        sources.push(read_source(repository, alloc, read, edit)?)?;
    }
    Ok(sources)
}

/// Returns the commit of an edit's word, if it has one, with its root. The faults are those of
/// `read_expected`.
fn root_source<F: Files>(
    repository: &Repository<F>,
    alloc: Global,
    read: &mut ReadObjects,
    source: Option<PeeledCommit>,
) -> Result<Option<PeeledCommit>, Stopped>
    ensures { (r : plain.Repository) → Stands F.is_honest F.history repository.now r
        → IsHeldSource r source
        → ReadsMore F.reading_may_fail r read.old read.new (IsRootedAs r source) result }
{
    match source {
        Some(commit) => Ok(Some(rooted(repository, alloc, read, commit)?)),
        None => Ok(None),
    }
}

/// Returns the commits of edits' words with their roots. The faults are those of `read_expected`.
fn root_sources<F: Files>(
    repository: &Repository<F>,
    alloc: Global,
    read: &mut ReadObjects,
    sources: &[Option<PeeledCommit>],
) -> Result<Vec<Option<PeeledCommit>>, Stopped>
    ensures { (r : plain.Repository) → Stands F.is_honest F.history repository.now r
        → AllByRecursion (IsHeldSource r) sources.now
        → ReadsMore F.reading_may_fail r read.old read.new
        (λ roots. AreRootedSources r sources.now roots.items) result }
{
    let mut roots = Vec::new(alloc);
    for source in sources {
        roots.push(root_source(repository, alloc, read, *source)?)?;
    }
    Ok(roots)
}

/// Tests that the name holds a commit, or doesn't exist and can be made beside the others.
/// Otherwise it is refused with `HoldsTag` or `Collides`. The faults are those of `read_expected`.
fn test_place<F: Files>(
    repository: &Repository<F>,
    alloc: Global,
    name: &[u8],
    held: Option<Held>,
) -> Result<(), Stopped>
    ensures { (r : plain.Repository) (sent : commands.CommitCommand)
        → Stands F.is_honest F.history repository.now r
        → name.now ≡ branch_or_name r sent.name → IsTrue (is_name name.now)
        → IsHeld r (branch_or_name r sent.name) held
        → Tests F.reading_may_fail place_causes r sent (λ _. ⊤) result }
{
    if let Some(held) = held {
        if held.is_tag() {
            return Err(Stopped::Refused(Cause::HoldsTag));
        }
        return Ok(());
    }
    if repository.names.collides_any(alloc, name)? {
        return Err(Stopped::Refused(Cause::Collides));
    }
    Ok(())
}

/// Returns what a `commit` is based on, if no cause lies in its name, its words and its parents;
/// otherwise it is refused for the first that holds. Each object is read once, however many words
/// mean it. The faults are those of `read_expected`.
pub(crate) fn read_base<F: Files>(
    repository: &Repository<F>,
    alloc: Global,
    command: &CommitCommand,
) -> Result<Base, Stopped>
    ensures { (r : plain.Repository) (sent : commands.CommitCommand)
        → AskedCommit F.is_honest F.history repository.now command.now r sent
        → Tests F.reading_may_fail name_causes r sent (IsCommitBase r sent) result }
{
    let mut read = ReadObjects::new(alloc);
    let name = name_of(repository, alloc, &command.name)?;
    let expected = read_expected(repository, alloc, &mut read, &command.expect)?;
    let words = read_words(repository, alloc, &mut read, &command.parents)?;
    let sources = read_sources(repository, alloc, &mut read, &command.edits)?;
    let all = all_words(alloc, &words, &sources)?;
    test_words(expected, &all)?;
    let held = read_held(repository, alloc, &mut read, &name)?;
    expected.test(commit_held(held))?;
    test_place(repository, alloc, &name, held)?;
    let commits = parents_of(alloc, peeled_held(held), &words)?;
    let parents = ids_of(alloc, &commits)?;
    test_parents(&parents)?;
    let tree = tree_before(repository, alloc, &mut read, &commits)?;
    let sources = peeled_sources(alloc, &sources)?;
    let sources = root_sources(repository, alloc, &mut read, &sources)?;
    Ok(Base {
        name,
        held: id_held(held),
        parents,
        tree,
        sources,
    })
}
