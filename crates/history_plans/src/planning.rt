//! The plan of a `commit`: new files, actors, trees and commit object within the limit, and the move (`moves_to`).

ghost use Rattle.std.specs.Prelude.{◌≡◌, ◌≤◌, ◌<◌, ◌++◌, None, Err, OnOk, MatchOption, MatchResult, map, length};
ghost use Rattle.std.specs.List.{list_any};
ghost use Rattle.gix_hash.specs.Id.{id_of};
ghost use Rattle.history_model.specs.Forms.{max_content};
ghost use Rattle.history_model.specs.CommandParts.{contents_in};
ghost use Rattle.history_model.specs.Commands.{Commit};
ghost use Rattle.history_model.specs.Meaning.{new_commit};
ghost use Rattle.history_model.specs.Objects.{CommitValue, folder_id};
ghost use Rattle.history_model.specs.declared.Cause.TheVariants.{TooLarge};
ghost use Rattle.history_model.specs.declared.Fault.TheVariants.{IdTaken};
ghost use Rattle.history_store.specs.ObjectsFace.{kind_of_objects};
ghost use Rattle.history_word.specs.Commands.{IsActor};
ghost use Rattle.history_word.specs.Fields.{Keeps};
ghost use Rattle.history_plans.specs.Asked.{AskedCommit, AskedFiles};
ghost use Rattle.history_plans.specs.Bases.{IsCommitBase};
ghost use Rattle.history_plans.specs.CommitCauses.{first_among, is_long, path_causes};
ghost use Rattle.history_plans.specs.Plans.{AreActors, AreAdded, AreNewFiles, GivesCommitted, GivesObjects, HasActors, IsMade, IsNotAdded, IsUnplanned, MakesCommit, Plans, Says, is_long_tree, object_parts, tree_parts};
ghost use Rattle.history_repository.specs.Stands.{Stands};
ghost use Rattle.history_model.specs.Repository as plain;
ghost use Rattle.history_model.specs.Commands as commands;
ghost use Rattle.history_repository.specs.declared.stopped.Stopped.TheVariants as why;

use crate::actors::actor_at;
use crate::base::{Base, read_base};
use crate::causes::{have_long_content, read_times, test_paths};
use crate::editing::{edited, graft_nothing, read_edits};
use crate::needed::needed;
use gix_hash::ObjectId;
use gix_ref_file::Files;
use history_files::{EditedFiles, EditedTree, ReadTrees};
use history_model::limits::MAX_CONTENT;
use history_model::{Cause, Fault};
use history_repository::{PeeledCommit, Repository, Stopped, into_kept};
use history_store::{Actor, LogEntry, MovedName, NewObject, commit_bytes, plain_commit, title};
use history_word::{ActorLine, CommitCommand, Edit, Field};
use std::alloc::{AllocError, Global};

/// What a commit is to store, and how its name is to move.
#[derive(Drop)]
pub struct Plan {
    /// The content of each `put`, the trees, each after those of its folders, the commit; but each
    /// text once, and no tree that was read as it is.
    pub objects: Vec<NewObject>,
    pub moves: MovedName,
}

/// Who wrote a commit, and who made it.
#[derive(Drop)]
struct Actors {
    author: Actor,
    committer: Actor,
}

/// What a commit's edits come to: the object of each content that they put, the trees of what they
/// make (`None` if what is put or a tree would have the null id), whether a content is over its
/// limit, and the trees that were read for it.
#[derive(Drop)]
struct NewFiles {
    blobs: Vec<NewObject>,
    edited: Option<EditedFiles>,
    has_long_content: bool,
    read: ReadTrees,
}

/// The objects that are stored before a commit's own, and the id of its root.
#[derive(Drop)]
struct Below {
    root: ObjectId,
    objects: Vec<NewObject>,
}

/// A commit's own object, and how its name moves to it.
#[derive(Drop)]
struct Committed {
    object: NewObject,
    moves: MovedName,
}

/// Returns whether a tree is over the limit.
fn has_long_tree(trees: &[EditedTree]) -> bool
    ensures { result ≡ list_any is_long_tree trees.now }
{
    trees.iter().any(|tree| tree.content.len() > MAX_CONTENT)
}

/// Adds the objects of trees, which have their ids. Fails only if memory runs out.
fn add_tree_objects(objects: &mut Vec<NewObject>, trees: Vec<EditedTree>) -> Result<(), AllocError>
    ensures { OnOk result (map object_parts objects.new.items
        ≡ map object_parts objects.old.items ++ map tree_parts trees.items) }
{
    for tree in trees {
        objects.push(NewObject {
            id: tree.id,
            kind: gix_object::Kind::Tree,
            content: tree.content,
        })?;
    }
    Ok(())
}

/// Adds the objects of trees, if each is within the limit; otherwise it is refused with `TooLarge`.
/// It is a fault if no memory is left.
fn add_trees(objects: &mut Vec<NewObject>, trees: Vec<EditedTree>) -> Result<(), Stopped>
    ensures { MatchResult result (λ _. AreAdded objects.old.items trees.items objects.new.items)
        (IsNotAdded trees.items) }
{
    if has_long_tree(&trees) {
        return Err(Stopped::Refused(Cause::TooLarge));
    }
    Ok(add_tree_objects(objects, trees)?)
}

impl NewFiles {
    /// Returns the objects of the contents and of the trees, but for those that need no storing. It
    /// is refused with `TooLarge` if a tree is over the limit. It is the fault `IdTaken` if what is
    /// put or a tree would have the null id, and a fault too if no memory is left.
    fn into_objects(self, alloc: Global) -> Result<Below, Stopped>
        ensures { MatchOption self.edited (result ≡ Err (why.Fault IdTaken))
            (λ edited. GivesObjects self.read self.blobs.items edited result) }
    {
        let edited = self.edited.ok_or(Fault::IdTaken)?;
        let mut made = self.blobs;
        add_trees(&mut made, edited.trees)?;
        let objects = needed(alloc, made, &self.read)?;
        Ok(Below {
            root: edited.root,
            objects,
        })
    }
}

/// Returns the actors of a commit's lines, if no cause after those of its paths lies in the command
/// itself; otherwise `BadActor`, `BadTime`, `BadMessage` or `TooLarge`.
fn read_actors(
    author: ActorLine,
    committer: ActorLine,
    message: &Field,
    has_long_content: bool,
) -> Result<Actors, Cause>
    ensures { (r : plain.Repository) (sent : commands.CommitCommand)
        → IsActor author sent.author → IsActor committer sent.committer
        → Keeps max_content message.now sent.message
        → has_long_content ≡ list_any is_long (contents_in (Commit sent))
        → first_among path_causes r (Commit sent) ≡ None
        → AreActors r sent result }
{
    let times = read_times(&author, &committer, message, has_long_content)?;
    let author = actor_at(author, times.author).ok_or(Cause::BadActor)?;
    let committer = actor_at(committer, times.committer).ok_or(Cause::BadActor)?;
    Ok(Actors { author, committer })
}

/// Returns the move of a name from one id to another, with this actor and message in its log.
pub(crate) fn moves_to(
    name: Vec<u8>,
    before: ObjectId,
    after: ObjectId,
    actor: Actor,
    message: Vec<u8>,
) -> MovedName
    ensures name { result.name ≡ name }
    ensures before { result.entry.before ≡ before }
    ensures after { result.entry.after ≡ after }
    ensures actor { result.entry.actor ≡ actor }
    ensures message { result.entry.message ≡ message }
{
    MovedName {
        name,
        entry: LogEntry {
            before,
            after,
            actor,
            message,
        },
    }
}

/// Returns an object of this content, if that is within the limit; otherwise `TooLarge`.
pub(crate) fn new_object<F: Files>(
    repository: &Repository<F>,
    kind: gix_object::Kind,
    content: Vec<u8>,
) -> Result<NewObject, Cause>
    ensures { MatchResult result
        (λ made. IsMade (kind_of_objects repository.now.objects) kind content.items made
        × (length content.items ≤ max_content))
        (λ cause. (cause ≡ TooLarge) × (max_content < length content.items)) }
{
    if content.len() > MAX_CONTENT {
        return Err(Cause::TooLarge);
    }
    Ok(NewObject::new(repository.objects.kind(), kind, content))
}

/// Returns the object of the commit that says this, if its content is within the limit; otherwise
/// it is refused with `TooLarge`. It is a fault if no memory is left.
fn commit_object<F: Files>(
    repository: &Repository<F>,
    alloc: Global,
    tree: ObjectId,
    parents: Vec<ObjectId>,
    actors: Actors,
    message: Vec<u8>,
) -> Result<NewObject, Stopped>
    ensures { (value : CommitValue)
        → Says (kind_of_objects repository.now.objects) tree parents.items actors message.items value
        → MakesCommit (kind_of_objects repository.now.objects) value result }
{
    let commit = plain_commit(
        alloc,
        tree,
        parents,
        actors.author,
        actors.committer,
        message,
    );
    // Its ids are of the kind of the store, so it can be spelled.
    let content = commit_bytes(alloc, &commit)?.ok_or(Fault::File)?;
    Ok(new_object(repository, gix_object::Kind::Commit, content)?)
}

/// Returns the object of a commit with this root and message on its base, and how its name moves to
/// it. The errors are those of `commit_object`.
fn make_commit<F: Files>(
    repository: &Repository<F>,
    alloc: Global,
    base: Base,
    root: ObjectId,
    actors: Actors,
    message: Vec<u8>,
) -> Result<Committed, Stopped>
    ensures { (r : plain.Repository) (sent : commands.CommitCommand)
        → Stands F.is_honest F.history repository.now r → IsCommitBase r sent base
        → id_of root ≡ folder_id r.kind (new_commit r sent).files
        → HasActors r sent actors → message.items ≡ sent.message
        → GivesCommitted r sent result }
{
    let title = Vec::from_slice(alloc, title(&message))?;
    let log_actor = actors.committer.try_clone()?;
    let object = commit_object(repository, alloc, root, base.parents, actors, message)?;
    let before = base
        .held
        .unwrap_or(ObjectId::null(repository.objects.kind()));
    let moves = moves_to(base.name, before, object.id, log_actor, title);
    Ok(Committed { object, moves })
}

/// Returns what edits put, and what they make of the first parent's files, if no cause lies in
/// their paths; otherwise it is refused with `BadPath`, `IsFolder` or `NoSuchPath`. Each tree is
/// read once, wherever it is. It is a fault if a call of the files failed, or if no memory is left.
fn new_files<F: Files>(
    repository: &Repository<F>,
    alloc: Global,
    tree: Option<ObjectId>,
    sources: &[Option<PeeledCommit>],
    edits: Vec<Edit>,
) -> Result<NewFiles, Stopped>
    ensures { (r : plain.Repository) (sent : commands.CommitCommand)
        → AskedFiles F.is_honest F.history repository.now tree sources.now edits.items r sent
        → MatchResult result (AreNewFiles r sent) (IsUnplanned F.reading_may_fail r sent) }
{
    test_paths(&edits)?;
    let has_long_content = have_long_content(&edits);
    let mut read = ReadTrees::new(alloc);
    let changes = read_edits(repository, alloc, &mut read, edits, sources)?;
    let edited = edited(repository, alloc, &mut read, tree, &changes.made)?;
    if graft_nothing(&changes.made) {
        return Err(Stopped::Refused(Cause::NoSuchPath));
    }
    Ok(NewFiles {
        blobs: changes.blobs,
        edited,
        has_long_content,
        read,
    })
}

/// Tests every cause, and returns all that is to be stored. It changes nothing.
///
/// It is refused for the first cause that holds: `BadName`, `PrivateName`, one of a word that means
/// no commit, `NoSuchName`, `Taken`, `NotExpected`, `Collides`, `HoldsTag`, `TooManyParents`,
/// `DuplicateParent`, `BadPath`, `IsFolder`, `NoSuchPath`, `BadActor`, `BadTime`, `BadMessage` or
/// `TooLarge`. It is a fault if a needed id is taken, a call of the files failed, or no memory is
/// left.
pub fn plan_commit<F: Files>(
    repository: &Repository<F>,
    alloc: Global,
    command: CommitCommand,
) -> Result<Plan, Stopped>
    ensures { (r : plain.Repository) (sent : commands.CommitCommand)
        → AskedCommit F.is_honest F.history repository.now command r sent
        → Plans F.reading_may_fail r sent result }
{
    let base = read_base(repository, alloc, &command)?;
    let files = new_files(repository, alloc, base.tree, &base.sources, command.edits)?;
    let actors = read_actors(
        command.author,
        command.committer,
        &command.message,
        files.has_long_content,
    )?;
    let below = files.into_objects(alloc)?;
    let message = into_kept(command.message);
    let committed = make_commit(repository, alloc, base, below.root, actors, message)?;
    let mut objects = below.objects;
    objects.push(committed.object)?;
    Ok(Plan {
        objects,
        moves: committed.moves,
    })
}
