//! The plan of a `tag`: its name below `refs/tags/`, its tagger, its object, and the move of the name to it.

ghost use Rattle.std.specs.Prelude.{◌≡◌, IsFalse, IsTrue, MatchOption};
ghost use Rattle.history_model.specs.Forms.{is_name, max_content};
ghost use Rattle.history_model.specs.Meaning.{tag_rest};
ghost use Rattle.history_model.specs.Objects.{TagValue};
ghost use Rattle.history_store.specs.ObjectsFace.{kind_of_objects};
ghost use Rattle.history_texts.specs.Tags.{SaysTag};
ghost use Rattle.history_word.specs.Commands.{IsActor, IsExpect, IsTag};
ghost use Rattle.history_word.specs.Fields.{Keeps};
ghost use Rattle.history_plans.specs.CommitCauses.{TestsOf};
ghost use Rattle.history_repository.specs.Stands.{Stands};
ghost use Rattle.history_plans.specs.Tagging.{IsTagBase, MakesTag, PlansTag, TellsTagger, is_tag_place, target_causes};
ghost use Rattle.history_model.specs.Commands as commands;
ghost use Rattle.history_model.specs.Repository as plain;

use crate::actors::{actor_at, has_good_names, time_of};
use crate::base::{read_expected, test_words};
use crate::causes::is_bad_title;
use crate::moving::same_id;
use crate::planning::{moves_to, new_object};
use gix_hash::ObjectId;
use gix_object_lines::cut::strip_prefix;
use gix_ref_file::Files;
use history_model::names::TAGS;
use history_model::{Cause, Fault};
use history_repository::{
    Held, ReadObjects, Repository, Stopped, commit_held, id_before, id_held, into_kept,
    is_too_long, kept, read_held, read_word,
};
use history_store::{Actor, MovedName, NewObject, is_name, tag_bytes, title};
use history_word::{ActorLine, Expect, Field, TagCommand};
use std::alloc::Global;

/// What a tag is based on: what its name holds, and the commit that it is of.
#[derive(Clone, Copy)]
struct TagBase {
    held: Option<Held>,
    commit: ObjectId,
}

/// A tag's object, and how its name moves to it.
#[derive(Drop)]
pub struct Tagged {
    pub object: NewObject,
    pub moves: MovedName,
}

/// Returns a tag's own name, which follows `refs/tags/`; `None` if no tag may have the name.
fn own_name(name: &[u8]) -> Option<&[u8]>
    ensures { MatchOption result (IsFalse (is_tag_place name.now))
        (λ own. IsTrue (is_tag_place name.now) × (own.now ≡ tag_rest name.now)) }
{
    if !is_name(name) {
        return None;
    }
    let own = strip_prefix(name, TAGS)?;
    if own == b"@".as_slice() || own.starts_with(b"-") {
        return None;
    }
    Some(own)
}

/// Returns the tagger, if neither that nor the message is refused; otherwise `BadActor`, `BadTime`,
/// `BadMessage` or `TooLarge`.
fn read_tagger(actor: ActorLine, message: &Field) -> Result<Actor, Cause>
    ensures { (r : plain.Repository) (sent : commands.TagCommand)
        → IsActor actor sent.tagger → Keeps max_content message.now sent.message
        → TellsTagger r sent message.now result }
{
    if !has_good_names(&actor) {
        return Err(Cause::BadActor);
    }
    let time = time_of(&actor).ok_or(Cause::BadTime)?;
    if is_bad_title(title(kept(message))) {
        return Err(Cause::BadMessage);
    }
    if is_too_long(message) {
        return Err(Cause::TooLarge);
    }
    Ok(actor_at(actor, time).ok_or(Cause::BadActor)?)
}

/// Returns what a tag is based on, if no cause lies in its words, what its name holds or the other
/// names; otherwise it is refused for the first that holds. It is a fault if a call of the files
/// failed, or if no memory is left.
fn tag_base<F: Files>(
    repository: &Repository<F>,
    alloc: Global,
    name: &[u8],
    expect: &Expect,
    word: &[u8],
) -> Result<TagBase, Stopped>
    ensures { (r : plain.Repository) (sent : commands.TagCommand)
        → Stands F.is_honest F.history repository.now r → name.now ≡ sent.name
        → IsExpect expect.now sent.expect → word.now ≡ sent.word
        → IsTrue (is_name sent.name)
        → TestsOf F.reading_may_fail target_causes r (commands.Tag sent)
        (IsTagBase r sent) result }
{
    let mut read = ReadObjects::new(alloc);
    let expected = read_expected(repository, alloc, &mut read, expect)?;
    let meaning = read_word(repository, alloc, &mut read, word)?;
    test_words(expected, &[meaning])?;
    let held = read_held(repository, alloc, &mut read, name)?;
    expected.test(commit_held(held))?;
    if held.is_none() && repository.names.collides_any(alloc, name)? {
        return Err(Stopped::Refused(Cause::Collides));
    }
    let commit = meaning.commit()?;
    Ok(TagBase { held, commit })
}

/// Returns the object of the tag that says this, if its content is within the limit; otherwise it
/// is refused with `TooLarge`. It is a fault if no memory is left.
fn tag_object<F: Files>(
    repository: &Repository<F>,
    alloc: Global,
    commit: ObjectId,
    own_name: Vec<u8>,
    tagger: Actor,
    message: &[u8],
) -> Result<NewObject, Stopped>
    ensures { (value : TagValue)
        → SaysTag (kind_of_objects repository.now.objects) commit own_name.items tagger message.now
        value
        → MakesTag (kind_of_objects repository.now.objects) value result }
{
    // No part of it is refused, so it can be spelled.
    let content = tag_bytes(alloc, commit, own_name, tagger, message)?.ok_or(Fault::File)?;
    Ok(new_object(repository, gix_object::Kind::Tag, content)?)
}

/// Tests every cause, and returns the tag. It changes nothing.
///
/// It is refused for the first cause that holds: `BadName`, one of a word that means no commit,
/// `NoSuchName`, `Taken`, `NotExpected`, `Collides`, `BadActor`, `BadTime`, `BadMessage`,
/// `TooLarge` or `NothingMoves`. It is a fault if a call of the files failed, or if no memory is
/// left.
pub fn plan_tag<F: Files>(
    repository: &Repository<F>,
    alloc: Global,
    command: TagCommand,
) -> Result<Tagged, Stopped>
    ensures { (r : plain.Repository) (sent : commands.TagCommand)
        → Stands F.is_honest F.history repository.now r → IsTag command sent
        → PlansTag F.reading_may_fail r sent result }
{
    let own = own_name(&command.name).ok_or(Cause::BadName)?;
    let tag_name = Vec::from_slice(alloc, own)?;
    let base = tag_base(
        repository,
        alloc,
        &command.name,
        &command.expect,
        &command.word,
    )?;
    let tagger = read_tagger(command.tagger, &command.message)?;
    let log_actor = tagger.try_clone()?;
    let message = into_kept(command.message);
    let title = Vec::from_slice(alloc, title(&message))?;
    let object = tag_object(repository, alloc, base.commit, tag_name, tagger, &message)?;
    if same_id(id_held(base.held), Some(object.id)) {
        return Err(Stopped::Refused(Cause::NothingMoves));
    }
    let before = id_before(base.held, repository.objects.kind());
    let moves = moves_to(command.name, before, object.id, log_actor, title);
    Ok(Tagged { object, moves })
}
