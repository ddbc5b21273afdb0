//! The test that a reference is as its edit expects (`PreviousValue`, `Refusal`); whether targets are equal.

ghost use Rattle.std.specs.Prelude.{◌≡◌, ◌≢◌, ◌⊎◌, None, Some, IfErr, MatchResult, option_map};
ghost use Rattle.std.specs.Bool.{Decides};
ghost use Rattle.gix_hash.specs.Id.{id_of};
ghost use Rattle.gix_ref_name.specs.Targets.{target_view};
ghost use Rattle.gix_ref_transaction.specs.Asked.{Meets, MeetsOf, points_of};
ghost use Rattle.gix_ref_transaction.specs.Causes.{refused, refused_deletion, refused_update};
ghost use Rattle.gix_ref_transaction.specs.declared.asked.Refusal.TheVariants.{MustExist, ReferenceOutOfDate};

use gix_hash::ObjectId;
use gix_ref_edit::{Change, PreviousValue};
use gix_ref_name::{FullName, Target};
use gix_ref_store::Reference;
use thiserror::Error;

/// Why a reference isn't as its edit expects.
#[derive(Debug, Clone, Copy, PartialEq, Eq, Error)]
pub enum Refusal {
    /// A reference that is to be removed doesn't exist.
    #[error("a reference that is to be removed doesn't exist")]
    DeleteReferenceMustExist,
    /// A reference is to be removed that must not exist.
    #[error("a reference can't be removed that mustn't exist")]
    DeleteMustNotExist,
    /// The reference doesn't exist.
    #[error("the reference doesn't exist")]
    MustExist,
    /// The reference exists, and points to something else than the new target.
    #[error("the reference exists already")]
    MustNotExist,
    /// The reference points to something else.
    #[error("the reference points to something else")]
    ReferenceOutOfDate,
}

// Tests that a reference that was found so is as the change expects. Otherwise returns why it
// isn't.
pub(crate) fn test(change: &Change, found: &Option<Reference>) -> Result<(), Refusal>
    ensures met { MatchResult result (λ _. MeetsOf change.now (option_map points_of found.now))
        (λ _. ¬ MeetsOf change.now (option_map points_of found.now)) }
    ensures why { IfErr result (λ why.
        why ≡ refused change.now (option_map points_of found.now)) }
{
    match change {
        Change::Update { expected, new, .. } => test_update(expected, new, found),
        Change::Delete { expected, .. } => test_deletion(expected, found),
    }
}

fn test_update(
    expected: &PreviousValue,
    new: &Target,
    found: &Option<Reference>,
) -> Result<(), Refusal>
    ensures met { let new = Some (target_view new.now) in
        MatchResult result (λ _. Meets expected.now new (option_map points_of found.now))
        (λ _. ¬ Meets expected.now new (option_map points_of found.now)) }
    ensures why { IfErr result (λ why.
        why ≡ refused_update expected.now (option_map points_of found.now)) }
{
    match found {
        Some(found) => test_update_of_existing(expected, new, &found.target),
        None => test_update_of_missing(expected, new),
    }
}

fn test_update_of_missing(expected: &PreviousValue, new: &Target) -> Result<(), Refusal>
    ensures met { MatchResult result (λ _. Meets expected.now (Some (target_view new.now)) None)
        (λ _. ¬ Meets expected.now (Some (target_view new.now)) None) }
    ensures why { IfErr result (λ why. why ≡ MustExist) }
{
    let _new = new;
    match expected {
        PreviousValue::Any => Ok(()),
        PreviousValue::MustNotExist => Ok(()),
        PreviousValue::ExistingMustMatch(_) => Ok(()),
        PreviousValue::MustExist => Err(Refusal::MustExist),
        PreviousValue::MustExistAndMatch(_) => Err(Refusal::MustExist),
    }
}

fn test_update_of_existing(
    expected: &PreviousValue,
    new: &Target,
    found: &Target,
) -> Result<(), Refusal>
    ensures met { let new = Some (target_view new.now) in let found = Some (target_view found.now) in
        MatchResult result (λ _. Meets expected.now new found)
        (λ _. ¬ Meets expected.now new found) }
    ensures why { IfErr result (λ why.
        why ≡ refused_update expected.now (Some (target_view found.now))) }
{
    match expected {
        PreviousValue::Any => Ok(()),
        PreviousValue::MustExist => Ok(()),
        PreviousValue::MustNotExist => test_equal(found, new, Refusal::MustNotExist),
        PreviousValue::MustExistAndMatch(stated) => test_equal_to_either(found, stated, new),
        PreviousValue::ExistingMustMatch(stated) => test_equal_to_either(found, stated, new),
    }
}

fn test_deletion(expected: &PreviousValue, found: &Option<Reference>) -> Result<(), Refusal>
    ensures met { MatchResult result (λ _. Meets expected.now None (option_map points_of found.now))
        (λ _. ¬ Meets expected.now None (option_map points_of found.now)) }
    ensures why { IfErr result (λ why.
        why ≡ refused_deletion expected.now (option_map points_of found.now)) }
{
    match found {
        Some(found) => test_deletion_of_existing(expected, &found.target),
        None => test_deletion_of_missing(expected),
    }
}

fn test_deletion_of_existing(expected: &PreviousValue, found: &Target) -> Result<(), Refusal>
    ensures met { MatchResult result (λ _. Meets expected.now None (Some (target_view found.now)))
        (λ _. ¬ Meets expected.now None (Some (target_view found.now))) }
    ensures why { IfErr result (λ why.
        why ≡ refused_deletion expected.now (Some (target_view found.now))) }
{
    match expected {
        PreviousValue::Any => Ok(()),
        PreviousValue::MustExist => Ok(()),
        PreviousValue::MustNotExist => Err(Refusal::DeleteMustNotExist),
        PreviousValue::MustExistAndMatch(stated) => {
            test_equal(found, stated, Refusal::ReferenceOutOfDate)
        }
        PreviousValue::ExistingMustMatch(stated) => {
            test_equal(found, stated, Refusal::ReferenceOutOfDate)
        }
    }
}

fn test_deletion_of_missing(expected: &PreviousValue) -> Result<(), Refusal>
    ensures met { MatchResult result (λ _. Meets expected.now None None)
        (λ _. ¬ Meets expected.now None None) }
    ensures why { IfErr result (λ why. why ≡ refused_deletion expected.now None) }
{
    match expected {
        PreviousValue::Any => Ok(()),
        PreviousValue::ExistingMustMatch(_) => Ok(()),
        PreviousValue::MustNotExist => Err(Refusal::DeleteMustNotExist),
        PreviousValue::MustExist => Err(Refusal::DeleteReferenceMustExist),
        PreviousValue::MustExistAndMatch(_) => Err(Refusal::DeleteReferenceMustExist),
    }
}

// Tests that the two targets are equal. Otherwise returns `why`.
fn test_equal(found: &Target, wanted: &Target, why: Refusal) -> Result<(), Refusal>
    ensures met { MatchResult result (λ _. target_view found.now ≡ target_view wanted.now)
        (λ _. target_view found.now ≢ target_view wanted.now) }
    ensures why { IfErr result (λ told. told ≡ why) }
{
    if are_equal(found, wanted) {
        Ok(())
    } else {
        Err(why)
    }
}

// Tests that what was found equals one of the two targets. Otherwise returns `ReferenceOutOfDate`.
fn test_equal_to_either(found: &Target, stated: &Target, new: &Target) -> Result<(), Refusal>
    ensures met { MatchResult result (λ _. (target_view found.now ≡ target_view stated.now)
        ⊎ (target_view found.now ≡ target_view new.now))
        (λ _. ¬ ((target_view found.now ≡ target_view stated.now)
        ⊎ (target_view found.now ≡ target_view new.now))) }
    ensures why { IfErr result (λ why. why ≡ ReferenceOutOfDate) }
{
    if are_equal(found, stated) {
        return Ok(());
    }
    test_equal(found, new, Refusal::ReferenceOutOfDate)
}

// Returns whether two targets are equal.
fn are_equal(first: &Target, second: &Target) -> bool
    ensures { Decides result (target_view first.now ≡ target_view second.now) }
{
    match first {
        Target::Object(first) => match second {
            Target::Object(second) => are_equal_ids(first, second),
            Target::Symbolic(_) => false,
        },
        Target::Symbolic(first) => match second {
            Target::Symbolic(second) => are_equal_names(first, second),
            Target::Object(_) => false,
        },
    }
}

fn are_equal_ids(first: &ObjectId, second: &ObjectId) -> bool
    ensures { Decides result (id_of first.now ≡ id_of second.now) }
{
    *first == *second
}

fn are_equal_names(first: &FullName, second: &FullName) -> bool
    ensures { Decides result (first.now ≡ second.now) }
{
    first.to_path() == second.to_path()
}
