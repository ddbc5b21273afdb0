//! Actors in commands: which names, emails and times are allowed (`BadActor`, `BadTime`), and their values.

ghost use Rattle.std.specs.Prelude.{◌≡◌, ◌&&◌, not, IsFalse, MatchOption};
ghost use Rattle.history_model.specs.Bytes.{Bytes, is_empty};
ghost use Rattle.history_model.specs.Forms.{is_actor_part, max_actor_part};
ghost use Rattle.history_model.specs.Causes.{is_bad_actor};
ghost use Rattle.history_model.specs.Meaning.{read_actor};
ghost use Rattle.history_word.specs.Commands.{IsActor};
ghost use Rattle.history_word.specs.Fields.{Keeps};
ghost use Rattle.history_texts.specs.Formats.{actor_of};
ghost use Rattle.history_plans.specs.CommitCauses.{IsTime, ReadsTime};
ghost use Rattle.history_model.specs.Commands as model;

use gix_object::lines::Time;
use history_repository::into_kept;
use history_store::{Actor, is_actor_part, parse_time};
use history_word::{ActorLine, Field};

fn is_actor_name(field: &Field) -> bool
    ensures { (name : Bytes) → Keeps max_actor_part field.now name
        → result ≡ (not (is_empty name) && is_actor_part name) }
{
    match field {
        Field::Whole(name) => !name.is_empty() && is_actor_part(name),
        Field::TooLong(_) => false,
    }
}

fn is_email(field: &Field) -> bool
    ensures { (email : Bytes) → Keeps max_actor_part field.now email
        → result ≡ is_actor_part email }
{
    match field {
        Field::Whole(email) => is_actor_part(email),
        Field::TooLong(_) => false,
    }
}

/// Returns whether the name and the email can be in an actor's line. The email may be empty.
pub(crate) fn has_good_names(line: &ActorLine) -> bool
    ensures { (sent : model.ActorLine) → IsActor line.now sent
        → result ≡ not (is_bad_actor sent) }
{
    is_actor_name(&line.name) && is_email(&line.email)
}

/// Returns when the actor acted, if both words can be in an actor's line.
pub(crate) fn time_of(line: &ActorLine) -> Option<Time>
    ensures { (sent : model.ActorLine) → IsActor line.now sent → ReadsTime sent result }
{
    parse_time(&line.seconds, &line.offset)
}

/// Returns the actor of a line, who acted at this time; `None` if the parts can't be in an actor's
/// line.
pub(crate) fn actor_at(line: ActorLine, time: Time) -> Option<Actor>
    ensures { (sent : model.ActorLine) → IsActor line sent → IsFalse (is_bad_actor sent)
        → IsTime sent time
        → MatchOption result ⊥ (λ actor. actor_of actor ≡ read_actor sent) }
{
    Actor::new(into_kept(line.name), into_kept(line.email), time)
}
