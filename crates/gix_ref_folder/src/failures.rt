//! The count of failed changes with the last of them; what is kept of each call.
ghost use Rattle.std.specs.Prelude.{◌≡◌, ◌≤◌, ◌+◌, ◌-◌, ◌^◌, min, option_map, IfErr, IfNone, IfOk, OnOk, Ok, Some, IsErrOf};
ghost use Rattle.gix_ref_file.specs.Changes.{Change};
ghost use Rattle.gix_ref_file.specs.History.{HasRisen, History, Makes};
ghost use Rattle.gix_ref_file.specs.declared.files.FileError.TheVariants.{Failed, Memory};
ghost use Rattle.gix_ref_folder.specs.Errors.{count_of, last_of, IsLast};
ghost use Rattle.gix_ref_folder.specs.Systems.{Does};

use crate::failure::Failure;
use crate::last_call::{LastCall, Outcome};
use crate::system_errors::fault;
use gix_ref_file::FileError;
use std::alloc::Global;
use std::io;
use std::rc::Rc;

// What is kept of calls.
#[derive(Drop)]
pub struct Failures {
    changes: Option<FailedChanges>,
    // The last call of all parts, if they share one.
    call: Option<Rc<LastCall>>,
}

// How many changes failed, up to the last `u64`, and the last of them.
#[derive(Drop)]
struct FailedChanges {
    count: u64,
    last: Failure,
}

impl Failures {
    /// No call that failed.
    pub fn new() -> Self
        ensures { count_of result ≡ 0 }
    {
        Failures {
            changes: None,
            call: None,
        }
    }

    /// Keeps calls in `call` too.
    pub fn share(&mut self, call: Rc<LastCall>)
        ensures count { count_of self.new ≡ count_of self.old }
        ensures last { last_of self.new ≡ last_of self.old }
    {
        self.call = Some(call);
    }

    /// Returns the last change that failed, if one did.
    pub fn last(&self) -> Option<&Failure>
        ensures last { option_map (λ last. last.now) result ≡ last_of self.now }
        ensures none { IfNone result (count_of self.now ≡ 0) }
    {
        self.changes.as_ref().map(|changes| &changes.last)
    }

    fn keep(&self, path: &[u8], outcome: Outcome) {
        if let Some(call) = &self.call {
            call.keep(path, outcome);
        }
    }

    /// Returns what a reading returned. What it came to is kept: `outcome` if it didn't fail. One
    /// that was refused memory isn't.
    pub fn read<T: Drop>(
        &self,
        path: &[u8],
        read: io::Result<T>,
        outcome: Outcome,
    ) -> Result<T, FileError>
        ensures ok { IfOk result (λ value. read ≡ Ok value) }
    {
        match read {
            Ok(value) => {
                self.keep(path, outcome);
                Ok(value)
            }
            Err(error) => {
                let fault = fault(&error);
                if fault == FileError::Failed {
                    self.keep(path, Outcome::Failed(error));
                }
                Err(fault)
            }
        }
    }

    /// Keeps that something is at the path of a file that was to be made. If one was made, what
    /// failed before was passed over.
    pub fn made(&self, path: &[u8], made: &io::Result<bool>) {
        match (made, &self.call) {
            (Ok(false), Some(call)) => {
                call.keep(path, Outcome::Failed(io::Error::other("File exists")));
            }
            (Ok(true), Some(call)) => call.forget_failure(),
            _ => {}
        }
    }

    /// Returns what a change returned; if it failed it is counted, and why is kept. `Memory` isn't
    /// counted.
    pub fn changed<T: Drop>(
        &mut self,
        alloc: Global,
        path: &[u8],
        changed: io::Result<T>,
    ) -> Result<T, FileError>
        ensures ok { IfOk result (λ value. changed ≡ Ok value) }
        ensures made { (change : Change) (old new : History) → Does change old new changed
            → Makes change old new result }
        ensures later { count_of self.old ≤ count_of self.new }
        ensures unfailed { OnOk result (count_of self.new ≡ count_of self.old) }
        ensures risen { IsErrOf result Failed → HasRisen (count_of self.old) (count_of self.new) }
        ensures memory { IsErrOf result Memory → count_of self.new ≡ count_of self.old }
        ensures named { IsErrOf result Failed
            → IfErr changed (λ error. IsLast path.now error self.new) }
    {
        match changed {
            Ok(value) => Ok(value),
            Err(error) => Err(self.failed(alloc, path, error)),
        }
    }

    fn failed(&mut self, alloc: Global, path: &[u8], error: io::Error) -> FileError
        ensures later { count_of self.old ≤ count_of self.new }
        ensures risen { result ≡ Failed → HasRisen (count_of self.old) (count_of self.new) }
        ensures memory { result ≡ Memory → count_of self.new ≡ count_of self.old }
        ensures named { result ≡ Failed → IsLast path.now error self.new }
    {
        let fault = fault(&error);
        if fault == FileError::Memory {
            return fault;
        }
        self.keep(path, Outcome::Failed(error));
        self.count(Failure::new(alloc, path, error));
        fault
    }

    fn count(&mut self, last: Failure)
        ensures count { count_of self.new ≡ min (count_of self.old + 1) (2 ^ 64 - 1) }
        ensures later { count_of self.old ≤ count_of self.new }
        ensures last { last_of self.new ≡ Some last }
    {
        let before = self.changes.as_ref().map_or(0, |changes| changes.count);
        self.changes = Some(FailedChanges {
            count: before.saturating_add(1),
            last,
        });
    }
}
