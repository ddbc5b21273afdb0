//! A command that is being read: parts are added to a draft, items to lists; edits and actors of their fields.

ghost use Rattle.std.specs.Prelude.{◌≡◌, [], ◌∷◌, ◌++◌, None, Some, IfSome, MatchOption, Option};
ghost use Rattle.history_model.specs.Bytes.{Bytes};
ghost use Rattle.history_model.specs.CommandParts.{option_expect};
ghost use Rattle.history_model.specs.Commands as model;
ghost use Rattle.history_model.specs.Forms.{max_path, max_actor_part, max_content};
ghost use Rattle.history_model.specs.Stops.{is_changing};
ghost use Rattle.history_word.specs.Fields.{Keeps};
ghost use Rattle.history_word.specs.Commands.{IsExpect, IsEdit, IsActor, IsCommit, IsTag, IsTo, IsMove, IsCommandOf};
ghost use Rattle.history_word.specs.Drafts.{IsCommitDraft, IsTagDraft, IsMoveDraft, IsDraft, target_of, with_parent, with_edit, with_to, with_actor, with_message};

use crate::command::{
    ActorLine, Command, CommitCommand, Delete, Edit, Expect, Field, Graft, LogCommand, MoveCommand,
    Put, Rename, Show, TagCommand, To,
};
use crate::heading::Role;
use history_model::FileKind;
use std::alloc::Global;

/// A commit as far as it has come. A part is `None` until it comes, and if memory ran out for it.
#[derive(Drop)]
pub(crate) struct CommitDraft {
    name: Option<Vec<u8>>,
    expect: Option<Expect>,
    parents: Option<Vec<Vec<u8>>>,
    edits: Option<Vec<Edit>>,
    author: Option<ActorLine>,
    committer: Option<ActorLine>,
    message: Option<Field>,
}

/// A tag as far as it has come. A part is `None` until it comes, and if memory ran out for it.
#[derive(Drop)]
pub(crate) struct TagDraft {
    target: Option<To>,
    tagger: Option<ActorLine>,
    message: Option<Field>,
}

/// A move as far as it has come. A part is `None` until it comes, and if memory ran out for it.
#[derive(Drop)]
pub(crate) struct MoveDraft {
    to: Option<Vec<To>>,
    actor: Option<ActorLine>,
    message: Option<Field>,
}

/// A command as far as it has come.
#[derive(Drop)]
pub(crate) enum Draft {
    Empty,
    Commit(CommitDraft),
    Tag(TagDraft),
    Move(MoveDraft),
    Rename(Option<Rename>),
    Delete(Option<Delete>),
    Files(Option<Vec<u8>>),
    Show(Option<Show>),
    Names,
    NamesIn(Option<Vec<u8>>),
    Past(Option<Vec<u8>>),
    Switch(Option<Vec<u8>>),
    Pack,
    Index,
    Log(Option<LogCommand>),
}

impl CommitDraft {
    fn new(alloc: Global, name: Option<Vec<u8>>, expect: Option<Expect>) -> Self
        ensures { (sent : model.CommitCommand) → IfSome name (λ word. word.items ≡ sent.name)
            → IfSome expect (λ x. IsExpect x sent.expect)
            → sent.parents ≡ [] → sent.edits ≡ []
            → IsCommitDraft result sent }
    {
        CommitDraft {
            name,
            expect,
            parents: Some(Vec::new(alloc)),
            edits: Some(Vec::new(alloc)),
            author: None,
            committer: None,
            message: None,
        }
    }

    fn add_parent(&mut self, word: Option<Vec<u8>>)
        ensures { (sent : model.CommitCommand) (w : Bytes)
            → IsCommitDraft self.old sent → IfSome word (λ x. x.items ≡ w)
            → IsCommitDraft self.new (with_parent sent w) }
    {
        self.parents = pushed(self.parents.take(), word);
    }

    fn add_edit(&mut self, edit: Option<Edit>)
        ensures { (sent : model.CommitCommand) (line : model.EditLine)
            → IsCommitDraft self.old sent → IfSome edit (λ x. IsEdit x line)
            → IsCommitDraft self.new (with_edit sent line) }
    {
        self.edits = pushed(self.edits.take(), edit);
    }

    fn finish(self) -> Option<CommitCommand>
        ensures { (sent : model.CommitCommand) → IsCommitDraft self sent
            → IfSome result (λ commit. IsCommit commit sent) }
    {
        Some(CommitCommand {
            name: self.name?,
            expect: self.expect?,
            parents: self.parents?,
            edits: self.edits?,
            author: self.author?,
            committer: self.committer?,
            message: self.message?,
        })
    }
}

impl TagDraft {
    fn new(target: Option<To>) -> Self
        ensures { (sent : model.TagCommand) → IfSome target (λ x. IsTo x (target_of sent))
            → IsTagDraft result sent }
    {
        TagDraft {
            target,
            tagger: None,
            message: None,
        }
    }

    fn finish(self) -> Option<TagCommand>
        ensures { (sent : model.TagCommand) → IsTagDraft self sent
            → IfSome result (λ tag. IsTag tag sent) }
    {
        let target = self.target?;
        Some(TagCommand {
            name: target.name,
            expect: target.expect,
            word: target.word,
            tagger: self.tagger?,
            message: self.message?,
        })
    }
}

impl MoveDraft {
    fn new(alloc: Global) -> Self
        ensures { (sent : model.MoveCommand) → sent.to ≡ [] → IsMoveDraft result sent }
    {
        MoveDraft {
            to: Some(Vec::new(alloc)),
            actor: None,
            message: None,
        }
    }

    fn add_to(&mut self, to: Option<To>)
        ensures { (sent : model.MoveCommand) (line : model.To)
            → IsMoveDraft self.old sent → IfSome to (λ x. IsTo x line)
            → IsMoveDraft self.new (with_to sent line) }
    {
        self.to = pushed(self.to.take(), to);
    }

    fn finish(self) -> Option<MoveCommand>
        ensures { (sent : model.MoveCommand) → IsMoveDraft self sent
            → IfSome result (λ found. IsMove found sent) }
    {
        Some(MoveCommand {
            to: self.to?,
            actor: self.actor?,
            message: self.message?,
        })
    }
}

impl Draft {
    pub(crate) fn commit(alloc: Global, name: Option<Vec<u8>>, expect: Option<Expect>) -> Self
        ensures { (sent : model.CommitCommand) → IfSome name (λ word. word.items ≡ sent.name)
            → IfSome expect (λ x. IsExpect x sent.expect)
            → sent.parents ≡ [] → sent.edits ≡ []
            → IsDraft result (model.Commit sent) }
    {
        Draft::Commit(CommitDraft::new(alloc, name, expect))
    }

    pub(crate) fn tag(target: Option<To>) -> Self
        ensures { (sent : model.TagCommand) → IfSome target (λ x. IsTo x (target_of sent))
            → IsDraft result (model.Tag sent) }
    {
        Draft::Tag(TagDraft::new(target))
    }

    pub(crate) fn new_move(alloc: Global) -> Self
        ensures { (sent : model.MoveCommand) → sent.to ≡ [] → IsDraft result (model.Move sent) }
    {
        Draft::Move(MoveDraft::new(alloc))
    }

    pub(crate) fn rename(from: Option<Vec<u8>>, to: Option<Vec<u8>>) -> Self
        ensures { (old new : Bytes) → IfSome from (λ x. x.items ≡ old)
            → IfSome to (λ x. x.items ≡ new)
            → IsDraft result (model.Rename old new) }
    {
        let (Some(from), Some(to)) = (from, to) else {
            return Draft::Rename(None);
        };
        Draft::Rename(Some(Rename { from, to }))
    }

    pub(crate) fn delete(name: Option<Vec<u8>>, expect: Option<Expect>) -> Self
        ensures { (n : Bytes) (at : Option Bytes) → IfSome name (λ x. x.items ≡ n)
            → IfSome expect (λ x. IsExpect x (option_expect at))
            → IsDraft result (model.Delete n at) }
    {
        let (Some(name), Some(expect)) = (name, expect) else {
            return Draft::Delete(None);
        };
        Draft::Delete(Some(Delete { name, expect }))
    }

    pub(crate) fn show(word: Option<Vec<u8>>) -> Self
        ensures { (w : Bytes) → IfSome word (λ x. x.items ≡ w)
            → IsDraft result (model.Show w None) }
    {
        Draft::Show(word.map(|word| Show { word, path: None }))
    }

    pub(crate) fn show_path(word: Option<Vec<u8>>, path: Option<Field>) -> Self
        ensures { (w p : Bytes) → IfSome word (λ x. x.items ≡ w)
            → IfSome path (λ x. Keeps max_path x p) → IsDraft result (model.Show w (Some p)) }
    {
        let (Some(word), Some(path)) = (word, path) else {
            return Draft::Show(None);
        };
        Draft::Show(Some(Show {
            word,
            path: Some(path),
        }))
    }

    pub(crate) fn add_parent(&mut self, word: Option<Vec<u8>>)
        ensures { (sent : model.CommitCommand) (w : Bytes)
            → IsDraft self.old (model.Commit sent) → IfSome word (λ x. x.items ≡ w)
            → IsDraft self.new (model.Commit (with_parent sent w)) }
    {
        if let Draft::Commit(commit) = self {
            commit.add_parent(word);
        }
    }

    pub(crate) fn add_edit(&mut self, edit: Option<Edit>)
        ensures { (sent : model.CommitCommand) (line : model.EditLine)
            → IsDraft self.old (model.Commit sent) → IfSome edit (λ x. IsEdit x line)
            → IsDraft self.new (model.Commit (with_edit sent line)) }
    {
        if let Draft::Commit(commit) = self {
            commit.add_edit(edit);
        }
    }

    pub(crate) fn add_to(&mut self, to: Option<To>)
        ensures { (sent : model.MoveCommand) (line : model.To)
            → IsDraft self.old (model.Move sent) → IfSome to (λ x. IsTo x line)
            → IsDraft self.new (model.Move (with_to sent line)) }
    {
        if let Draft::Move(sent) = self {
            sent.add_to(to);
        }
    }

    pub(crate) fn set_actor(&mut self, role: Role, actor: Option<ActorLine>)
        ensures commit { (sent : model.CommitCommand) (line : model.ActorLine)
            → IsDraft self.old (model.Commit sent) → IfSome actor (λ x. IsActor x line)
            → IsDraft self.new (with_actor role (model.Commit sent) line) }
        ensures tag { (sent : model.TagCommand) (line : model.ActorLine)
            → IsDraft self.old (model.Tag sent) → IfSome actor (λ x. IsActor x line)
            → IsDraft self.new (with_actor role (model.Tag sent) line) }
        ensures moves { (sent : model.MoveCommand) (line : model.ActorLine)
            → IsDraft self.old (model.Move sent) → IfSome actor (λ x. IsActor x line)
            → IsDraft self.new (with_actor role (model.Move sent) line) }
    {
        match (self, role) {
            (Draft::Commit(commit), Role::Author) => commit.author = actor,
            (Draft::Commit(commit), Role::Committer) => commit.committer = actor,
            (Draft::Tag(tag), Role::Tagger) => tag.tagger = actor,
            (Draft::Move(sent), Role::Mover) => sent.actor = actor,
            _ => {}
        }
    }

    pub(crate) fn set_message(&mut self, message: Option<Field>)
        ensures commit { (sent : model.CommitCommand) (m : Bytes)
            → IsDraft self.old (model.Commit sent) → IfSome message (λ x. Keeps max_content x m)
            → IsDraft self.new (with_message (model.Commit sent) m) }
        ensures tag { (sent : model.TagCommand) (m : Bytes)
            → IsDraft self.old (model.Tag sent) → IfSome message (λ x. Keeps max_content x m)
            → IsDraft self.new (with_message (model.Tag sent) m) }
        ensures moves { (sent : model.MoveCommand) (m : Bytes)
            → IsDraft self.old (model.Move sent) → IfSome message (λ x. Keeps max_content x m)
            → IsDraft self.new (with_message (model.Move sent) m) }
    {
        match self {
            Draft::Commit(commit) => commit.message = message,
            Draft::Tag(tag) => tag.message = message,
            Draft::Move(sent) => sent.message = message,
            _ => {}
        }
    }

    /// Returns whether the command changes the repository.
    pub(crate) fn is_changing(&self) -> bool
        ensures { (sent : model.Command) → IsDraft self.now sent → result ≡ is_changing sent }
    {
        matches!(
            self,
            Draft::Commit(_)
                | Draft::Tag(_)
                | Draft::Move(_)
                | Draft::Rename(_)
                | Draft::Delete(_)
                | Draft::Switch(_)
                | Draft::Pack
        )
    }

    /// Returns the command, unless memory ran out for one of its parts.
    pub(crate) fn finish(self) -> Option<Command>
        ensures { (sent : model.Command) → IsDraft self sent
            → IfSome result (λ command. IsCommandOf command sent) }
    {
        match self {
            Draft::Empty => None,
            Draft::Commit(commit) => Some(Command::Commit(commit.finish()?)),
            Draft::Tag(tag) => Some(Command::Tag(tag.finish()?)),
            Draft::Move(sent) => Some(Command::Move(sent.finish()?)),
            Draft::Rename(rename) => Some(Command::Rename(rename?)),
            Draft::Delete(delete) => Some(Command::Delete(delete?)),
            Draft::Files(word) => Some(Command::Files(word?)),
            Draft::Show(show) => Some(Command::Show(show?)),
            Draft::Names => Some(Command::Names(None)),
            Draft::NamesIn(folder) => Some(Command::Names(Some(folder?))),
            Draft::Past(word) => Some(Command::Past(word?)),
            Draft::Switch(name) => Some(Command::Switch(name?)),
            Draft::Pack => Some(Command::Pack),
            Draft::Index => Some(Command::Index),
            Draft::Log(log) => Some(Command::Log(log?)),
        }
    }
}

/// Returns the list with one more item, if there is memory for both.
pub(crate) fn pushed<T: Drop>(list: Option<Vec<T>>, item: Option<T>) -> Option<Vec<T>>
    ensures { IfSome result (λ all. MatchOption list ⊥
        (λ old. MatchOption item ⊥ (λ x. all.items ≡ old.items ++ x ∷ []))) }
{
    let mut list = list?;
    list.push(item?).ok()?;
    Some(list)
}

/// Returns the edit of a line and its two fields, if there was memory for each field.
pub(crate) fn put(kind: FileKind, path: Option<Field>, content: Option<Field>) -> Option<Edit>
    ensures { (p c : Bytes) → IfSome path (λ x. Keeps max_path x p)
        → IfSome content (λ x. Keeps max_content x c)
        → IfSome result (λ edit. IsEdit edit (model.PutLine kind p c)) }
{
    Some(Edit::Put(Put {
        kind,
        path: path?,
        content: content?,
    }))
}

/// Returns the graft of a line and its two fields, if there was memory for each of its parts.
pub(crate) fn graft(
    path: Option<Field>,
    word: Option<Vec<u8>>,
    source: Option<Field>,
) -> Option<Edit>
    ensures { (p w s : Bytes) → IfSome path (λ x. Keeps max_path x p)
        → IfSome word (λ x. x.items ≡ w) → IfSome source (λ x. Keeps max_path x s)
        → IfSome result (λ edit. IsEdit edit (model.GraftLine p w s)) }
{
    Some(Edit::Graft(Graft {
        path: path?,
        word: word?,
        source: source?,
    }))
}

/// Returns the actor of a line and its two fields, if there was memory for each of its parts.
pub(crate) fn actor_line(
    name: Option<Field>,
    email: Option<Field>,
    seconds: Option<Vec<u8>>,
    offset: Option<Vec<u8>>,
) -> Option<ActorLine>
    ensures { (line : model.ActorLine) → IfSome name (λ x. Keeps max_actor_part x line.name)
        → IfSome email (λ x. Keeps max_actor_part x line.email)
        → IfSome seconds (λ x. x.items ≡ line.seconds) → IfSome offset (λ x. x.items ≡ line.offset)
        → IfSome result (λ actor. IsActor actor line) }
{
    Some(ActorLine {
        name: name?,
        email: email?,
        seconds: seconds?,
        offset: offset?,
    })
}
