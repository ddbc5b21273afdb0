//! Edits of symbolic references, split into one of the log alone and one of the next reference (`FindTarget`).

ghost use Rattle.std.specs.Prelude.{◌≡◌, ⊤, ℕ, ◌++◌, ◌∷◌, [], List, Option, map, is_some, option_map, if◌then◌else◌, IfOk, OnOk, IfErr, IsErrOf};
ghost use Rattle.std.specs.Option.{option_to_list};
ghost use Rattle.gix_ref_name.specs.Names.{name_of};
ghost use Rattle.gix_ref_name.specs.Targets.{Points, target_view};
ghost use Rattle.gix_ref_edit.specs.Splits as spec;
ghost use Rattle.gix_ref_edit.specs.declared.splits.FindTargetError.TheVariants as finding;
ghost use Rattle.gix_ref_edit.specs.declared.splits.SplitError.TheVariants as fault;

use crate::change::{Change, PreviousValue, RefEdit};
use crate::log::RefLog;
use gix_ref_name::{FullName, FullNameRef, Target};
use std::alloc::{AllocError, AllocFailed, Global};
use thiserror::Error;

// How many rounds of edits are added: those that the last of them lead to are too far.
pub(crate) const MAX_ROUNDS: usize = 4;

/// Why it isn't known what a name points to.
#[derive(Debug, Clone, Copy, PartialEq, Eq, Error)]
pub enum FindTargetError {
    /// A reading failed.
    #[error("what a name points to can't be read")]
    Failed,
    /// No memory is left.
    #[error("no memory is left")]
    Memory,
}

impl From<AllocError> for FindTargetError {
    ghost from_gives = { λ _ e. e ≡ finding.Memory };

    fn from(_: AllocError) -> Self {
        FindTargetError::Memory
    }
}

/// Looks up what names point to.
pub trait FindTarget {
    /// What each name points to: none if there is no reference, or none that can be read.
    ghost targets: { Self → List ℕ → Option Points };

    /// Whether the results are those.
    ghost is_honest: { Self → Type 0 };

    /// Whether a reading may fail.
    ghost may_fail: { Self → Type 0 };

    /// What the name points to; `None` if there is no reference, or none that can be read. Returns
    /// `Failed` if a reading failed, and `Memory` if no memory is left.
    fn find_target(
        &self,
        alloc: Global,
        name: FullNameRef<'_>,
    ) -> Result<Option<Target>, FindTargetError>
        ensures told { Self.is_honest self.now → IfOk result (λ found.
            option_map target_view found ≡ Self.targets self.now (name_of name.entry)) }
        ensures failed { IsErrOf result finding.Failed → Self.may_fail self.now };
}

/// Why edits aren't split.
#[derive(Debug, Clone, Copy, PartialEq, Eq, Error)]
pub enum SplitError {
    /// What a name points to can't be read.
    #[error("what a name points to can't be read")]
    Find,
    /// Symbolic references lead on after the fourth reference, as they do in a ring.
    #[error("symbolic references lead too far, or in a ring")]
    Cycle,
    /// No memory is left.
    #[error("no memory is left")]
    Memory,
}

impl From<FindTargetError> for SplitError {
    ghost from_gives = { λ error e. e ≡ spec.as_split error };

    fn from(error: FindTargetError) -> Self {
        match error {
            FindTargetError::Failed => SplitError::Find,
            FindTargetError::Memory => SplitError::Memory,
        }
    }
}

impl From<AllocError> for SplitError {
    ghost from_gives = { λ _ e. e ≡ fault.Memory };

    fn from(_: AllocError) -> Self {
        SplitError::Memory
    }
}

impl<T: Drop> From<AllocFailed<T>> for SplitError {
    ghost from_gives = { λ _ e. e ≡ fault.Memory };

    fn from(_: AllocFailed<T>) -> Self {
        SplitError::Memory
    }
}

// The same change of the reference that an edit's leads to; `None` if it leads to none, or wants
// none.
fn hop<F: FindTarget>(
    alloc: Global,
    finder: &F,
    edit: &RefEdit,
) -> Result<Option<RefEdit>, SplitError>
    ensures found { F.is_honest finder.now → IfOk result (λ found.
        found ≡ spec.hop (F.targets finder.now) edit.now) }
    ensures failed { IfErr result (spec.HopFault (F.may_fail finder.now)) }
{
    if !edit.deref {
        return Ok(None);
    }
    match finder.find_target(alloc, edit.name.as_ref())? {
        Some(Target::Symbolic(name)) => Ok(Some(renamed(edit, name)?)),
        Some(Target::Object(_)) => Ok(None),
        None => Ok(None),
    }
}

// The same change of another name.
fn renamed(edit: &RefEdit, name: FullName) -> Result<RefEdit, AllocError>
    ensures { IfOk result (λ other. other ≡ record edit.now { name = name }) }
{
    Ok(RefEdit {
        change: edit.change.try_clone()?,
        name,
        deref: edit.deref,
    })
}

// Adds the edit that this one leads to, if it leads to one, and returns whether it does.
fn add_hop<F: FindTarget>(
    alloc: Global,
    finder: &F,
    edit: &RefEdit,
    found: &mut Vec<RefEdit>,
    marks: &mut Vec<bool>,
) -> Result<(), SplitError>
    ensures found { F.is_honest finder.now → OnOk result (found.new.items
        ≡ found.old.items ++ option_to_list (spec.hop (F.targets finder.now) edit.now)) }
    ensures marks { F.is_honest finder.now → OnOk result (marks.new.items
        ≡ marks.old.items ++ spec.leads_on (F.targets finder.now) edit.now ∷ []) }
    ensures failed { IfErr result (spec.HopFault (F.may_fail finder.now)) }
{
    let next = hop(alloc, finder, edit)?;
    marks.push(next.is_some())?;
    if let Some(next) = next {
        found.push(next)?;
    }
    Ok(())
}

// The edits that these lead to, in order; and for each of these is added whether it leads to one.
fn hops<F: FindTarget>(
    alloc: Global,
    finder: &F,
    edits: &[RefEdit],
    marks: &mut Vec<bool>,
) -> Result<Vec<RefEdit>, SplitError>
    ensures found { F.is_honest finder.now → IfOk result (λ found.
        found.items ≡ spec.hops (F.targets finder.now) edits.now) }
    ensures marks { F.is_honest finder.now → OnOk result (marks.new.items
        ≡ marks.old.items ++ map (spec.leads_on (F.targets finder.now)) edits.now) }
    ensures failed { IfErr result (spec.HopFault (F.may_fail finder.now)) }
{
    let mut found = Vec::new(alloc);
    let mut rest = edits;
    while let Some((edit, others)) = rest.split_first() {
        add_hop(alloc, finder, edit, &mut found, marks)?;
        rest = others;
    }
    Ok(found)
}

// The edits that these lead to, and on over so many rounds; and for each of these and those is
// added whether it leads on.
pub(crate) fn further<F: FindTarget>(
    alloc: Global,
    finder: &F,
    edits: &[RefEdit],
    rounds: usize,
    marks: &mut Vec<bool>,
) -> Result<Vec<RefEdit>, SplitError>
    ensures found { F.is_honest finder.now → IfOk result (λ found.
        found.items ≡ spec.further (F.targets finder.now) rounds edits.now) }
    ensures marks { F.is_honest finder.now → let read = F.targets finder.now in
        OnOk result (marks.new.items ≡ marks.old.items
        ++ map (spec.leads_on read) (edits.now ++ spec.further read rounds edits.now)) }
    ensures ends { F.is_honest finder.now
        → OnOk result (spec.behind (F.targets finder.now) rounds edits.now ≡ []) }
    ensures failed { IfErr result (spec.SplitFault (F.is_honest finder.now)
        (F.may_fail finder.now) (F.targets finder.now) rounds edits.now) }
{
    let mut next = hops(alloc, finder, edits, marks)?;
    if rounds == 0 {
        return if next.is_empty() {
            Ok(next)
        } else {
            Err(SplitError::Cycle)
        };
    }
    let mut rest = further(alloc, finder, next.as_slice(), rounds - 1, marks)?;
    next.append(&mut rest)?;
    Ok(next)
}

// Takes from an edit what leads on, and from one that was split all but the change of the log.
fn settle(edit: &mut RefEdit, was_split: bool)
    ensures { edit.new ≡ spec.settled_as was_split edit.old }
{
    edit.deref = false;
    if was_split {
        keep_log_part(&mut edit.change);
    }
}

fn keep_log_part(change: &mut Change)
    ensures { change.new ≡ spec.log_part change.old }
{
    match change {
        Change::Update { log, expected, .. } => {
            log.mode = RefLog::Only;
            *expected = PreviousValue::Any;
        }
        Change::Delete { log, .. } => *log = RefLog::Only,
    }
}

// Settles as many edits as there are marks.
pub(crate) fn settle_all(edits: &mut Vec<RefEdit>, marks: &[bool])
    ensures { edits.new.items ≡ spec.settled_by marks.now edits.old.items }
{
    let count = marks.len().min(edits.len());
    for i in 0..count {
        let edit = &mut edits[i];
        settle(edit, marks[i]);
    }
}

// The places that are marked.
pub(crate) fn marked_places(alloc: Global, marks: &[bool]) -> Result<Vec<usize>, AllocError>
    ensures { IfOk result (λ places. places.items ≡ spec.marked 0 marks.now) }
{
    let mut places = Vec::new(alloc);
    for (place, is_marked) in marks.iter().enumerate() {
        if *is_marked {
            places.push(place)?;
        }
    }
    Ok(places)
}
