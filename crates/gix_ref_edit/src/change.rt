//! `RefEdit` and `Change`: the value after a change, and the one expected before it (`PreviousValue`).

ghost use Rattle.std.specs.Prelude.{◌≡◌, option_map};
ghost use Rattle.gix_ref_name.specs.Targets.{target_ref_view};
ghost use Rattle.gix_ref_edit.specs.Edits.{new_target, expected_target};

use crate::log::{LogChange, RefLog};
use gix_ref_name::{FullName, Target, TargetRef};

/// What is expected of a reference before it is changed.
#[derive(Debug, Drop, PartialEq, Eq, PartialOrd, Ord, Hash)]
pub enum PreviousValue {
    /// Nothing: it may exist or not.
    Any,
    /// That it exists.
    MustExist,
    /// That it doesn't exist.
    MustNotExist,
    /// That it exists and points to this.
    MustExistAndMatch(Target),
    /// That it points to this, if it exists.
    ExistingMustMatch(Target),
}

impl PreviousValue {
    // What the reference must point to; `None` if nothing is said of that.
    fn target(&self) -> Option<TargetRef<'_>>
        ensures { option_map target_ref_view result ≡ expected_target self.now }
    {
        match self {
            PreviousValue::MustExistAndMatch(target) => Some(target.to_ref()),
            PreviousValue::ExistingMustMatch(target) => Some(target.to_ref()),
            PreviousValue::Any => None,
            PreviousValue::MustExist => None,
            PreviousValue::MustNotExist => None,
        }
    }
}

/// A change of a reference.
#[derive(Debug, Drop, PartialEq, Eq)]
pub enum Change {
    /// It is made to point to a target.
    Update {
        /// What is written to its log.
        log: LogChange,
        /// What is expected of it before.
        expected: PreviousValue,
        /// What it points to afterwards.
        new: Target,
    },
    /// It is removed.
    Delete {
        /// What is expected of it before.
        expected: PreviousValue,
        /// Whether it is removed with its log, or its log alone.
        log: RefLog,
    },
}

impl Change {
    ghost use Rattle.gix_ref_edit.specs.Edits.{expected_of};

    /// What the reference points to afterwards; `None` if it is removed.
    pub fn new_value(&self) -> Option<TargetRef<'_>>
        ensures { option_map target_ref_view result ≡ new_target self.now }
    {
        match self {
            Change::Update { new, .. } => Some(new.to_ref()),
            Change::Delete { .. } => None,
        }
    }

    /// What the reference must point to before; `None` if nothing is said of that.
    pub fn previous_value(&self) -> Option<TargetRef<'_>>
        ensures { option_map target_ref_view result ≡ expected_target (expected_of self.now) }
    {
        match self {
            Change::Update { expected, .. } => expected.target(),
            Change::Delete { expected, .. } => expected.target(),
        }
    }
}

/// An edit of a reference.
#[derive(Debug, Drop, PartialEq, Eq)]
pub struct RefEdit {
    /// The change.
    pub change: Change,
    /// The reference's name.
    pub name: FullName,
    /// Whether the reference that a symbolic one points to is changed in its place.
    pub deref: bool,
}
