//! Copies of edits and of their parts (`try_clone`).

ghost use Rattle.std.specs.Prelude.{◌≡◌, IfOk};

use crate::change::{Change, PreviousValue, RefEdit};
use crate::log::LogChange;
use std::alloc::AllocError;

impl LogChange {
    /// The same change of a log.
    pub fn try_clone(&self) -> Result<LogChange, AllocError>
        ensures { IfOk result (λ copy. copy ≡ self.now) }
    {
        Ok(LogChange {
            mode: self.mode,
            force_create_reflog: self.force_create_reflog,
            message: self.message.try_clone()?,
        })
    }
}

impl PreviousValue {
    /// A copy of what is expected.
    pub fn try_clone(&self) -> Result<PreviousValue, AllocError>
        ensures { IfOk result (λ copy. copy ≡ self.now) }
    {
        match self {
            PreviousValue::Any => Ok(PreviousValue::Any),
            PreviousValue::MustExist => Ok(PreviousValue::MustExist),
            PreviousValue::MustNotExist => Ok(PreviousValue::MustNotExist),
            PreviousValue::MustExistAndMatch(target) => {
                Ok(PreviousValue::MustExistAndMatch(target.try_clone()?))
            }
            PreviousValue::ExistingMustMatch(target) => {
                Ok(PreviousValue::ExistingMustMatch(target.try_clone()?))
            }
        }
    }
}

impl Change {
    /// The same change.
    pub fn try_clone(&self) -> Result<Change, AllocError>
        ensures { IfOk result (λ copy. copy ≡ self.now) }
    {
        match self {
            Change::Update { log, expected, new } => Ok(Change::Update {
                log: log.try_clone()?,
                expected: expected.try_clone()?,
                new: new.try_clone()?,
            }),
            Change::Delete { expected, log } => Ok(Change::Delete {
                expected: expected.try_clone()?,
                log: *log,
            }),
        }
    }
}

impl RefEdit {
    /// The same edit.
    pub fn try_clone(&self) -> Result<RefEdit, AllocError>
        ensures { IfOk result (λ copy. copy ≡ self.now) }
    {
        Ok(RefEdit {
            change: self.change.try_clone()?,
            name: self.name.try_clone()?,
            deref: self.deref,
        })
    }
}
