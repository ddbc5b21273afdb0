//! The command `show`.

ghost use Rattle.std.specs.Prelude.{◌≡◌, ◌++◌, map, IfOk, OnOk, Ok, Option, Some, None};
ghost use Rattle.history_model.specs.Bytes.{Bytes};
ghost use Rattle.history_model.specs.Objects.{hex, StoredBytes};
ghost use Rattle.history_model.specs.Spelling.{parts_text, parent_part, actor_parts};
ghost use Rattle.history_model.specs.Replies.{reply_text, spelled_actor, ShowsCommit, ShowsContent};
ghost use Rattle.history_texts.specs.Actors.{HasActorForm};
ghost use Rattle.history_texts.specs.Commits.{IsPlainCommit};
ghost use Rattle.history_texts.specs.Formats.{own_actor};
ghost use Rattle.history_queries.specs.Shown.{shown_commit, shown_content};
ghost use Rattle.gix_hash.specs.Id.{id_of};
ghost use Rattle.history_model.specs.Forms.{max_path};
ghost use Rattle.history_word.specs.Commands.{IsPath};
ghost use Rattle.history_word.specs.Fields.{Keeps};
ghost use Rattle.std.specs.FinMap.{get};
ghost use Rattle.history_repository.specs.Meanings.{commit_or_cause};
ghost use Rattle.history_repository.specs.Meant.{HasContent};
ghost use Rattle.history_repository.specs.Stands.{Stands};
ghost use Rattle.history_repository.specs.Reads.{OnlyAnswers, GivesMeant};
ghost use Rattle.gix_hash.specs.declared.kind.Kind as hash;
ghost use Rattle.history_model.specs.Repository as plain;
ghost use Rattle.history_model.specs.Commands as model;

use crate::reading::commit_meant;
use gix_hash::{Kind, ObjectId};
use gix_object::Commit;
use gix_object::lines::{Actor, write_time};
use gix_ref_file::Files;
use history_files::Found;
use history_model::{Cause, FileKind};
use history_repository::{
    MeantCommit, Repository, Stopped, content, found_below, is_bad_path, kept, read_commit_of,
    root_meant,
};
use history_store::hex_digits;
use history_word::{Field, Show, field, kind_word, line};
use std::alloc::{AllocError, Global};

/// Appends a line for each parent.
fn parent_lines(text: &mut Vec<u8>, parents: &[ObjectId]) -> Result<(), AllocError>
    ensures { OnOk result (text.new.items ≡ text.old.items
        ++ parts_text (map (λ id. parent_part (hex (id_of id))) parents.now)) }
{
    for parent in parents {
        let mut digits = Kind::hex_buf();
        line(
            text,
            &[b"parent".as_slice(), hex_digits(parent, &mut digits)],
        )?;
    }
    Ok(())
}

/// Appends an actor as a command spells it.
fn actor(alloc: Global, text: &mut Vec<u8>, role: &[u8], actor: &Actor) -> Result<(), AllocError>
    ensures { HasActorForm actor.now → OnOk result (text.new.items ≡ text.old.items
        ++ parts_text (actor_parts role.now (spelled_actor (own_actor actor.now)))) }
{
    let name = actor.name.as_bytes();
    let email = actor.email.as_bytes();
    let mut name_len = itoa::Buffer::new();
    let mut email_len = itoa::Buffer::new();
    // The seconds, a space and the offset, as two words of the line.
    let mut time = Vec::new(alloc);
    write_time(actor.time, &mut time).map_err(|_| AllocError)?;
    line(
        text,
        &[
            role,
            name_len.format(name.len()).as_bytes(),
            email_len.format(email.len()).as_bytes(),
            &time,
        ],
    )?;
    field(text, name)?;
    field(text, email)
}

/// Returns the text that shows a commit of this id.
fn commit_text(alloc: Global, id: &ObjectId, commit: &Commit) -> Result<Vec<u8>, AllocError>
    ensures { (kind : hash.Kind) → IsPlainCommit kind commit.now → IfOk result (λ text. text.items
        ≡ reply_text (ShowsCommit (shown_commit id.now commit.now))) }
{
    let mut text = Vec::new(alloc);
    let mut count = itoa::Buffer::new();
    let mut digits = Kind::hex_buf();
    line(
        &mut text,
        &[
            b"ok".as_slice(),
            b"show".as_slice(),
            b"commit".as_slice(),
            hex_digits(id, &mut digits),
        ],
    )?;
    line(
        &mut text,
        &[b"tree".as_slice(), hex_digits(&commit.tree, &mut digits)],
    )?;
    line(
        &mut text,
        &[
            b"parents".as_slice(),
            count.format(commit.parents.len()).as_bytes(),
        ],
    )?;
    parent_lines(&mut text, commit.parents.as_slice())?;
    actor(alloc, &mut text, b"author", &commit.author)?;
    actor(alloc, &mut text, b"committer", &commit.committer)?;
    let mut size = itoa::Buffer::new();
    line(
        &mut text,
        &[
            b"message".as_slice(),
            size.format(commit.message.as_bytes().len()).as_bytes(),
        ],
    )?;
    field(&mut text, commit.message.as_bytes())?;
    Ok(text)
}

/// Returns the text that shows a file whose content has this id.
fn content_text(
    alloc: Global,
    kind: FileKind,
    id: &ObjectId,
    content: &[u8],
) -> Result<Vec<u8>, AllocError>
    ensures { IfOk result (λ text. text.items
        ≡ reply_text (ShowsContent (shown_content kind id.now content.now))) }
{
    let mut text = Vec::new(alloc);
    let mut size = itoa::Buffer::new();
    let mut digits = Kind::hex_buf();
    line(
        &mut text,
        &[
            b"ok".as_slice(),
            b"show".as_slice(),
            b"content".as_slice(),
            kind_word(kind),
            hex_digits(id, &mut digits),
            size.format(content.len()).as_bytes(),
        ],
    )?;
    field(&mut text, content)?;
    Ok(text)
}

/// Returns the reply to `show` of a commit.
fn show_commit<F: Files>(
    repository: &Repository<F>,
    alloc: Global,
    meant: &MeantCommit,
) -> Result<Vec<u8>, Stopped>
    ensures { (r : plain.Repository) (word : Bytes) → Stands F.is_honest F.history repository.now r
        → commit_or_cause r word ≡ Ok (id_of meant.now.id) → HasContent r meant.now
        → OnlyAnswers F.reading_may_fail r (model.Show word None) result }
{
    let commit = commit_meant(repository, alloc, meant)?;
    Ok(commit_text(alloc, &meant.id, &commit)?)
}

/// Returns the text that shows a file whose content has this id. The content is read.
fn show_file<F: Files>(
    repository: &Repository<F>,
    alloc: Global,
    kind: FileKind,
    id: &ObjectId,
) -> Result<Vec<u8>, Stopped>
    ensures { (r : plain.Repository) (bytes : Bytes) → Stands F.is_honest F.history repository.now r
        → get r.objects (id_of id.now) ≡ Some (StoredBytes bytes)
        → GivesMeant F.reading_may_fail (λ text. text.items
        ≡ reply_text (ShowsContent (shown_content kind id.now bytes))) result }
{
    let content = content(repository, alloc, gix_object::Kind::Blob, id)?;
    Ok(content_text(alloc, kind, id, &content)?)
}

/// Returns the reply to `show` of what a commit has at a path. It is refused with `BadPath` if the
/// path is invalid, `NoSuchPath` if nothing is there, and `IsFolder` if a folder is.
fn show_content<F: Files>(
    repository: &Repository<F>,
    alloc: Global,
    meant: &MeantCommit,
    path: &Field,
) -> Result<Vec<u8>, Stopped>
    ensures { (r : plain.Repository) (word bytes : Bytes)
        → Stands F.is_honest F.history repository.now r
        → commit_or_cause r word ≡ Ok (id_of meant.now.id) → HasContent r meant.now
        → Keeps max_path path.now bytes → OnlyAnswers F.reading_may_fail r (model.Show word (Some bytes)) result }
{
    if is_bad_path(path) {
        return Err(Stopped::Refused(Cause::BadPath));
    }
    let root = root_meant(repository, alloc, meant)?;
    match found_below(repository, alloc, &root, kept(path))? {
        None => Err(Stopped::Refused(Cause::NoSuchPath)),
        Some(Found::Folder { .. }) => Err(Stopped::Refused(Cause::IsFolder)),
        Some(Found::File { kind, id }) => show_file(repository, alloc, kind, &id),
    }
}

/// Returns the reply to `show`: a commit, or what it has at a path.
///
/// It is refused with `UnknownWord`, `AmbiguousWord`, `UnbornHead` or `NotACommit` if the word
/// means no commit, and else with `BadPath` if the path is invalid, `NoSuchPath` if nothing is
/// there, and `IsFolder` if a folder is. It is a fault if a call of the files failed, or if no
/// memory is left.
pub fn show<F: Files>(
    repository: &Repository<F>,
    alloc: Global,
    command: &Show,
) -> Result<Vec<u8>, Stopped>
    ensures { (r : plain.Repository) (path : Option Bytes)
        → Stands F.is_honest F.history repository.now r → IsPath command.now.path path
        → OnlyAnswers F.reading_may_fail r (model.Show command.now.word.items path) result }
{
    let commit = read_commit_of(repository, alloc, &command.word)?;
    match &command.path {
        None => show_commit(repository, alloc, &commit),
        Some(path) => show_content(repository, alloc, &commit, path),
    }
}
