//! The call that explains a fault (`LastCall`), which the parts of a folder share.

use crate::failure::Failure;
use std::alloc::Global;
use std::cell::Cell;
use std::io::{self, ErrorKind};

// The most bytes that are kept of the paths of objects.
const MOST_PATHS: usize = 1 << 22;

/// What came of a call.
#[derive(Clone, Copy)]
pub(crate) enum Outcome {
    /// It is a reading, and whether something was there to be read.
    Read(bool),
    /// It read an object.
    Object,
    /// It failed, or met what it mustn't.
    Failed(io::Error),
}

/// The first call that failed since all was forgotten, of all parts that share this: what fails
/// later may be what the fault led to. Without one, the last reading, and the objects that were
/// read. So it explains a fault that also a file can cause that is missing, or isn't as it was
/// written.
#[derive(Drop)]
pub struct LastCall {
    path: Cell<Vec<u8>>,
    outcome: Cell<Outcome>,
    // The paths of the objects that were read, each with a line feed.
    objects: Cell<Vec<u8>>,
    alloc: Global,
}

impl LastCall {
    /// Returns one before any call.
    pub fn new(alloc: Global) -> Self {
        LastCall {
            path: Cell::new(Vec::new(alloc)),
            outcome: Cell::new(Outcome::Read(true)),
            objects: Cell::new(Vec::new(alloc)),
            alloc,
        }
    }

    /// Returns the call's path, and the system's reason or what the reading found.
    pub fn cause(&self) -> Failure {
        let error = match self.outcome.get() {
            Outcome::Read(true) | Outcome::Object => {
                io::Error::other("read last, and no call failed")
            }
            Outcome::Read(false) => nothing_there(),
            Outcome::Failed(error) => error,
        };
        let path = self.path.replace(Vec::new(self.alloc));
        let cause = Failure::new(self.alloc, &path, error);
        self.path.set(path);
        cause
    }

    /// Returns the paths of the objects that were read, each with a line feed, but for the oldest of
    /// many; none if a call failed. They are forgotten.
    pub fn take_objects(&self) -> Vec<u8> {
        let objects = self.objects.replace(Vec::new(self.alloc));
        if self.has_failed() {
            return Vec::new(self.alloc);
        }
        objects
    }

    /// Forgets every call.
    pub fn forget(&self) {
        self.objects.set(Vec::new(self.alloc));
        self.set(b"", Outcome::Read(true));
    }

    /// Forgets a call that failed, which was passed over.
    pub fn forget_failure(&self) {
        if self.has_failed() {
            self.set(b"", Outcome::Read(true));
        }
    }

    // Keeps what came of a call, unless one failed before. A look at a lock explains nothing: it is
    // to be given back.
    pub(crate) fn keep(&self, path: &[u8], outcome: Outcome) {
        if self.has_failed() {
            return;
        }
        if matches!(outcome, Outcome::Object) {
            self.keep_object(path);
        }
        if matches!(outcome, Outcome::Failed(_)) || !path.ends_with(b".lock") {
            self.set(path, outcome);
        }
    }

    // If memory for the path is refused, it isn't kept.
    fn keep_object(&self, path: &[u8]) {
        let mut objects = self.objects.replace(Vec::new(self.alloc));
        if objects.len() > MOST_PATHS {
            objects.clear();
        }
        let _ = objects.extend_from_slice(path);
        let _ = objects.push(b'\n');
        self.objects.set(objects);
    }

    fn has_failed(&self) -> bool {
        matches!(self.outcome.get(), Outcome::Failed(_))
    }

    // The bytes of the last path make room for the next. If memory is refused, the path is empty.
    fn set(&self, path: &[u8], outcome: Outcome) {
        let mut kept = self.path.replace(Vec::new(self.alloc));
        kept.clear();
        let _ = kept.extend_from_slice(path);
        self.path.set(kept);
        self.outcome.set(outcome);
    }
}

// The system's words where nothing is.
pub(crate) fn nothing_there() -> io::Error {
    io::Error::new(ErrorKind::NotFound, "No such file or directory")
}
