//! Surveys the objects, each after all that it names: cycles, missing ones, wrong kinds, paths too long.
ghost use Rattle.std.specs.Prelude.{◌≡◌, ◌∷◌, ◌<◌, ◌≤◌, List, [], None, Some, IfErr, IfOk, OnOk, MatchOption, length, option_map, reverse};
ghost use Rattle.gix_hash.specs.Id.{id_of};
ghost use Rattle.gix_hash.specs.declared.kind.Kind.{Kind};
ghost use Rattle.gix_hash.specs.declared.object_id.ObjectId.{ObjectId};
ghost use Rattle.gix_ref_file.specs.Tree.{Tree};
ghost use Rattle.history_check_objects.specs.Flaws.{IsObjectsFlaw};
ghost use Rattle.history_check_objects.specs.Links.{reach_of};
ghost use Rattle.history_check_objects.specs.Nexts.{target_linked};
ghost use Rattle.history_check_objects.specs.Passing.{IsPassed, IsReach, IsRefusedLink, IsSame};
ghost use Rattle.history_check_objects.specs.Surveyed.{IsLacking, IsWholePart, StandsAt, StandsOver, is_open, left_of};
ghost use Rattle.history_check_objects.specs.Surveying.{AreListed, links_of};

use crate::reading::{Found, Link, read_object};
use crate::stored::{Done, Stored};
use gix_hash::{Kind, ObjectId};
use gix_object::Kind as ObjectKind;
use gix_ref_file::Files;
use history_model::limits::MAX_PATH;
use history_texts::{NamedBy, OpenError};
use std::alloc::{AllocError, Global};
use std::collections::BTreeSet;

/// An object that was read. The links before `next` are done, and `longest` is how long the longest
/// path by these is.
#[derive(Drop)]
pub(crate) struct Frame {
    pub(crate) id: ObjectId,
    pub(crate) kind: ObjectKind,
    pub(crate) links: Vec<Link>,
    pub(crate) next: usize,
    pub(crate) longest: usize,
}

impl Frame {
    // Goes past a link that is done, or returns what is wrong with it: its kind, or a path that is
    // too long.
    fn pass_link(&mut self, link: Link, done: Done) -> Result<(), OpenError>
        requires { self.old.next < length self.old.links.items }
        ensures same { IsSame self.old self.new }
        ensures passed { OnOk result (IsPassed self.old self.new link done) }
        ensures refused { IfErr result (IsRefusedLink self.old link done) }
    {
        if done.kind != link.kind {
            return Err(OpenError::WrongKind(link.id, NamedBy::Object(self.id)));
        }
        if self.kind == ObjectKind::Tree {
            let reach = path_length(link.name, done.longest);
            if reach > MAX_PATH {
                return Err(OpenError::BadTree(self.id));
            }
            self.longest = self.longest.max(reach);
        }
        self.next += 1;
        Ok(())
    }

    // Returns what a tag is of; `None` of another object.
    fn commit(&self) -> Option<ObjectId>
        ensures { option_map id_of result
            ≡ target_linked self.now.kind (links_of self.now.links.items) }
    {
        match self.kind {
            ObjectKind::Tag => Some(self.links.first()?.id),
            ObjectKind::Commit | ObjectKind::Tree | ObjectKind::Blob => None,
        }
    }
}

// Returns how long the longest path is that a name makes with what it names, which has a longest
// path of this length.
fn path_length(name: usize, longest: usize) -> usize
    ensures { IsReach (reach_of name longest) result }
{
    if longest == 0 {
        name
    } else {
        name.saturating_add(1).saturating_add(longest)
    }
}

/// The objects that are still to come, those that were read and wait for what they name, each named
/// by the one before it, and those that are done.
#[derive(Drop)]
pub(crate) struct Survey {
    unmet: BTreeSet<ObjectId>,
    waiting: Vec<Frame>,
    stored: Stored,
}

impl Survey {
    /// Returns the survey of these objects, none of which has come. Fails only if memory runs out.
    pub(crate) fn new(alloc: Global, ids: Vec<ObjectId>) -> Result<Survey, AllocError>
        ensures { (kind : Kind) (tree : Tree) → AreListed kind tree ids.items
            → IfOk result (λ survey. StandsAt kind tree ids.items survey None) }
    {
        let mut unmet = BTreeSet::new(alloc);
        for id in &ids {
            unmet.insert(*id)?;
        }
        Ok(Survey {
            unmet,
            waiting: Vec::new(alloc),
            stored: Stored::new(alloc),
        })
    }

    /// Notes all objects that can be noted, and returns the one that is to be read next; `None` if
    /// all are noted. An error is a flaw of the part.
    pub(crate) fn next(&mut self) -> Result<Option<ObjectId>, OpenError>
        ensures stands { (kind : Kind) (tree : Tree) (ids : List ObjectId)
            → StandsAt kind tree ids self.old None
            → IfOk result (StandsAt kind tree ids self.new) }
        ensures flaw { (kind : Kind) (tree : Tree) (ids : List ObjectId)
            → StandsAt kind tree ids self.old None
            → IfErr result (IsObjectsFlaw ⊥ kind tree) }
        ensures fewer { IfOk result (λ due. MatchOption due
            ((self.new.waiting.items ≡ []) × (self.new.unmet.keys ≡ []))
            (λ _. left_of self.new < left_of self.old)) }
    {
        'noted: while let Some(mut frame) = self.waiting.pop() {
            if let Some(id) = self.advance(&mut frame)? {
                self.waiting.push(frame)?;
                return Ok(Some(id));
            }
            let done = Done {
                kind: frame.kind,
                longest: frame.longest,
            };
            self.stored.note(frame.id, done, frame.commit())?;
        }
        Ok(self.unmet.pop_first())
    }

    // Goes past the links of an object that are done, and returns the first that is to come; `None`
    // if all are done. An error is a flaw of the part.
    fn advance(&mut self, frame: &mut Frame) -> Result<Option<ObjectId>, OpenError>
        ensures stands { (kind : Kind) (tree : Tree) (ids : List ObjectId)
            → StandsOver kind tree ids self.old (frame.old ∷ reverse self.old.waiting.items) None
            → IfOk result (StandsOver kind tree ids self.new
            (frame.new ∷ reverse self.old.waiting.items)) }
        ensures flaw { (kind : Kind) (tree : Tree) (ids : List ObjectId)
            → StandsOver kind tree ids self.old (frame.old ∷ reverse self.old.waiting.items) None
            → IfErr result (IsObjectsFlaw ⊥ kind tree) }
        ensures waiting { self.new.waiting ≡ self.old.waiting }
        ensures same { IsSame frame.old frame.new }
        ensures fewer { IfOk result (λ due. MatchOption due
            ((length frame.new.links.items ≤ frame.new.next)
            × (left_of self.new ≡ left_of self.old))
            (λ _. left_of self.new < left_of self.old)) }
    {
        'links: while frame.next < frame.links.len() {
            let link = frame.links[frame.next];
            if let Some(done) = self.stored.done.get(&link.id).copied() {
                frame.pass_link(link, done)?;
            } else if self.unmet.remove(&link.id) {
                return Ok(Some(link.id));
            } else {
                return Err(self.missing_or_cycle(frame.id, link.id));
            }
        }
        Ok(None)
    }

    // Returns what is wrong if an object is named that is neither done nor to come: `Cycle` if it
    // is open itself, and else `Missing`.
    fn missing_or_cycle(&self, by: ObjectId, id: ObjectId) -> OpenError
        ensures { IsLacking self.now.waiting.items by id result }
    {
        if id == by || self.is_open(&id) {
            OpenError::Cycle(id)
        } else {
            OpenError::Missing(id, NamedBy::Object(by))
        }
    }

    fn is_open(&self, id: &ObjectId) -> bool
        ensures { result ≡ is_open self.now.waiting.items (id_of id.now) }
    {
        self.waiting.iter().any(|frame| *id == frame.id)
    }

    /// Reads an object, which is then open. The errors are those of `read_object`.
    pub(crate) fn enter<F: Files>(
        &mut self,
        alloc: Global,
        files: &F,
        kind: Kind,
        id: ObjectId,
    ) -> Result<(), OpenError>
        ensures stands { F.is_honest files.now → (ids : List ObjectId)
            → StandsAt kind (F.history files.now).tree ids self.old (Some id)
            → OnOk result (StandsAt kind (F.history files.now).tree ids self.new None) }
        ensures flaw { F.is_honest files.now → (ids : List ObjectId)
            → StandsAt kind (F.history files.now).tree ids self.old (Some id)
            → IfErr result (IsObjectsFlaw F.reading_may_fail kind (F.history files.now).tree) }
        ensures unmet { self.new.unmet ≡ self.old.unmet }
    {
        let Found { kind, links } = read_object(alloc, files, kind, &id)?;
        self.waiting.push(Frame {
            id,
            kind,
            links,
            next: 0,
            longest: 0,
        })?;
        Ok(())
    }
}

/// Reads the objects of these ids, each once, and each after all that it names.
///
/// Returns what is known of them, if they are whole; otherwise the error is a flaw of the part, or no memory is
/// left.
pub(crate) fn survey_objects<F: Files>(
    alloc: Global,
    files: &F,
    kind: Kind,
    ids: Vec<ObjectId>,
) -> Result<Stored, OpenError>
    ensures whole { F.is_honest files.now → AreListed kind (F.history files.now).tree ids.items
        → IfOk result (IsWholePart kind (F.history files.now).tree) }
    ensures flaw { F.is_honest files.now → AreListed kind (F.history files.now).tree ids.items
        → IfErr result (IsObjectsFlaw F.reading_may_fail kind (F.history files.now).tree) }
{
    let mut survey = Survey::new(alloc, ids)?;
    'survey: while let Some(id) = survey.next()? {
        survey.enter(alloc, files, kind, id)?;
    }
    Ok(survey.stored)
}
