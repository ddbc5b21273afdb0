//! The trailers of a text, one after another.

use crate::lines::split_line;
use crate::trailer::{TrailerRef, read_trailer};

/// The trailers of a text, in order; its other lines are skipped.
#[derive(Debug, Clone, Copy)]
pub struct Trailers<'a> {
    text: &'a [u8],
}

impl<'a> Trailers<'a> {
    ghost use Rattle.std.specs.Prelude.{◌≡◌, filter};
    ghost use Rattle.gix_object_message.specs.Attribution as spec;
    ghost use Rattle.gix_object_message.specs.Trailer.{trailers_in};
    ghost use Rattle.gix_object_message.specs.Views.{trailers_left};
    ghost use Rattle.gix_object_message.specs.Selected.{selected_left};

    pub(crate) fn new(text: &'a [u8]) -> Trailers<'a>
        ensures { trailers_left result ≡ trailers_in text.now }
    {
        Trailers { text }
    }

    /// Those whose token is `Signed-off-by`, letter case aside.
    pub fn signed_off_by(self) -> SelectedTrailers<'a>
        ensures { selected_left result
            ≡ filter (λ trailer. spec.is_signed_off_by trailer.token) (trailers_left self.entry) }
    {
        self.select(Wanted::SignedOffBy)
    }

    /// Those whose token is `Co-authored-by`, letter case aside.
    pub fn co_authored_by(self) -> SelectedTrailers<'a>
        ensures { selected_left result
            ≡ filter (λ trailer. spec.is_co_authored_by trailer.token)
            (trailers_left self.entry) }
    {
        self.select(Wanted::CoAuthoredBy)
    }

    /// Those whose token is `Assisted-by`, letter case aside.
    pub fn assisted_by(self) -> SelectedTrailers<'a>
        ensures { selected_left result
            ≡ filter (λ trailer. spec.is_assisted_by trailer.token) (trailers_left self.entry) }
    {
        self.select(Wanted::AssistedBy)
    }

    /// The trailers for which `TrailerRef::is_attribution` holds.
    pub fn attributions(self) -> SelectedTrailers<'a>
        ensures { selected_left result
            ≡ filter (λ trailer. spec.is_attribution trailer.token) (trailers_left self.entry) }
    {
        self.select(Wanted::Attribution)
    }

    /// Those that name an author: whose token is `Signed-off-by` or `Co-authored-by`, letter case
    /// aside.
    pub fn authors(self) -> SelectedTrailers<'a>
        ensures { selected_left result
            ≡ filter (λ trailer. spec.is_author trailer.token) (trailers_left self.entry) }
    {
        self.select(Wanted::Author)
    }
}

impl<'a> Trailers<'a> {
    ghost use Rattle.std.specs.Prelude.{◌≡◌, filter};
    ghost use Rattle.gix_object_message.specs.Views.{trailers_left};
    ghost use Rattle.gix_object_message.specs.Selected.{is_wanted, selected_left};

    fn select(self, wanted: Wanted) -> SelectedTrailers<'a>
        ensures { selected_left result ≡ filter (is_wanted wanted) (trailers_left self.entry) }
    {
        SelectedTrailers {
            trailers: self,
            wanted,
        }
    }
}

impl<'a> Iterator for Trailers<'a> {
    ghost use Rattle.std.specs.Iterator.{YieldsFirstBy, item_count};
    ghost use Rattle.gix_object_message.specs.Views.{trailer_text, trailers_left};

    type Item = TrailerRef<'a>;

    ghost next_gives = { YieldsFirstBy trailer_text trailers_left };

    ghost remaining = { item_count trailers_left };

    fn next(&mut self) -> Option<TrailerRef<'a>> {
        while let Some((line, rest)) = split_line(self.text) {
            self.text = rest;
            if let Some(trailer) = read_trailer(line) {
                return Some(trailer);
            }
        }
        None
    }
}

// Which trailers are wanted.
#[derive(Debug, Clone, Copy, PartialEq, Eq)]
enum Wanted {
    SignedOffBy,
    CoAuthoredBy,
    AssistedBy,
    Attribution,
    Author,
}

impl Wanted {
    ghost use Rattle.std.specs.Prelude.{◌≡◌};
    ghost use Rattle.gix_object_message.specs.Selected.{is_wanted};
    ghost use Rattle.gix_object_message.specs.Views.{trailer_text};

    fn is_met_by(self, trailer: TrailerRef<'_>) -> bool
        ensures { result ≡ is_wanted self (trailer_text trailer.entry) }
    {
        match self {
            Wanted::SignedOffBy => trailer.is_signed_off_by(),
            Wanted::CoAuthoredBy => trailer.is_co_authored_by(),
            Wanted::AssistedBy => trailer.is_assisted_by(),
            Wanted::Attribution => trailer.is_attribution(),
            Wanted::Author => trailer.is_author(),
        }
    }
}

/// The trailers of a text whose token is wanted, in order.
#[derive(Debug, Clone, Copy)]
pub struct SelectedTrailers<'a> {
    trailers: Trailers<'a>,
    wanted: Wanted,
}

impl<'a> Iterator for SelectedTrailers<'a> {
    ghost use Rattle.std.specs.Iterator.{YieldsFirstBy, item_count};
    ghost use Rattle.gix_object_message.specs.Views.{trailer_text};
    ghost use Rattle.gix_object_message.specs.Selected.{selected_left};

    type Item = TrailerRef<'a>;

    ghost next_gives = { YieldsFirstBy trailer_text selected_left };

    ghost remaining = { item_count selected_left };

    fn next(&mut self) -> Option<TrailerRef<'a>> {
        while let Some(trailer) = self.trailers.next() {
            if self.wanted.is_met_by(trailer) {
                return Some(trailer);
            }
        }
        None
    }
}
