//! Which line of a command may come next: the place after its first line, after an actor's, after any other.

ghost use Rattle.std.specs.Prelude.{◌≡◌, ℕ, Some, option_map};
ghost use Rattle.history_model.specs.Bytes.{Bytes};
ghost use Rattle.history_model.specs.Lines as lines;
ghost use Rattle.history_word.specs.LineTable as table;
ghost use Rattle.history_word.specs.TableRuns.{next_offered};
ghost use Rattle.history_word.specs.Drafts.{place_of, role_of, IsOpening, IsHeading};

use crate::heading::{ActorHeading, Heading, Opening, Role};

/// Where in a command the next line is.
#[derive(Clone, Copy, PartialEq, Eq)]
pub(crate) enum Place {
    Start,
    Parents,
    Edits,
    Committer,
    /// After `tag`.
    Tagger,
    /// After `move`.
    ToFirst,
    /// After a line `to`.
    ToMore,
    Message,
    End,
    Done,
}

impl Place {
    /// Returns the place after a line, if that line may be here.
    pub(crate) fn next(self, heading: &Heading) -> Option<Place>
        ensures { (h : lines.Heading) → IsHeading heading.now h
            → option_map place_of result ≡ next_offered (place_of self) h }
    {
        match (self, heading) {
            (Place::Start, Heading::Opening(opening)) => Some(opening.next()),
            (Place::Parents, Heading::Parent { .. }) => Some(Place::Parents),
            (Place::Parents | Place::Edits, Heading::Edit(_)) => Some(Place::Edits),
            (Place::ToFirst | Place::ToMore, Heading::To(_)) => Some(Place::ToMore),
            (_, Heading::Actor(line)) => line.role.next(self),
            (Place::Message, Heading::Message { .. }) => Some(Place::End),
            (Place::End, Heading::End) => Some(Place::Done),
            _ => None,
        }
    }
}

impl Opening {
    /// Returns the place after the first line of a command.
    pub(crate) fn next(&self) -> Place
        ensures { (h : lines.Heading) → IsOpening self.now h
            → next_offered table.Start h ≡ Some (place_of result) }
    {
        match self {
            Opening::Commit { .. } => Place::Parents,
            Opening::Tag(_) => Place::Tagger,
            Opening::Move => Place::ToFirst,
            _ => Place::Done,
        }
    }
}

impl Role {
    /// Returns the place after an actor's line, if that line may be at this place.
    pub(crate) fn next(self, place: Place) -> Option<Place>
        ensures { (name email : ℕ) (seconds offset : Bytes) → option_map place_of result
            ≡ next_offered (place_of place)
            (lines.ActorHeading (role_of self) name email seconds offset) }
    {
        match (self, place) {
            (Role::Author, Place::Parents | Place::Edits) => Some(Place::Committer),
            (Role::Committer, Place::Committer) => Some(Place::Message),
            (Role::Tagger, Place::Tagger) => Some(Place::Message),
            (Role::Mover, Place::ToMore) => Some(Place::Message),
            _ => None,
        }
    }
}
