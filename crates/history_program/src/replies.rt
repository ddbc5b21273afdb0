//! Replies on standard output (`Replies`), each fault of the files followed by its note on standard error.

use crate::notes::note_cause;
use gix_ref_folder::LastCall;
use std::io::{self, Write};

/// Standard output of a run on a folder. It is given each reply whole. After one that is a fault of
/// the files, it notes the call that led to it on standard error, before more is read.
#[derive(Drop)]
pub struct Replies<'a> {
    rt: &'a HostRuntime,
    folder: &'a str,
    call: &'a LastCall,
}

impl<'a> Replies<'a> {
    /// Returns the output of a run on this folder, whose parts keep their calls in `call`.
    pub fn new(rt: &'a HostRuntime, folder: &'a str, call: &'a LastCall) -> Self {
        Replies { rt, folder, call }
    }
}

impl Write for Replies<'_> {
    fn write(&mut self, reply: &[u8]) -> io::Result<usize> {
        self.rt.stdout().write_all(reply)?;
        if reply == b"fault File\n".as_slice() {
            note_cause(self.rt, self.folder, self.call);
        }
        // What failed before this reply explains no later one.
        self.call.forget();
        Ok(reply.len())
    }

    fn flush(&mut self) -> io::Result<()> {
        Ok(())
    }
}
