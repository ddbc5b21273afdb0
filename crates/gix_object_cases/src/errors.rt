//! What errors and headers print, and writers that are interrupted.

use case_words::{Case, Page};
use gix_object_lines::write::{FilenameError, TagNameError, write_bytes};
use gix_object_lines::{Header, Kind, decode, encode, kind};
use std::alloc::Global;
use std::fmt::{Debug, Display};
use std::io;

fn tell<E: Display + Debug + Drop + Copy>(error: E, page: &mut Page) {
    page.put(error);
    page.text(" (");
    page.name(error);
    page.text("); ");
}

// The errors of kinds, headers, values, tags' names and trees' names.
fn errors(page: &mut Page) {
    let kind = kind::Error::InvalidObjectKind;
    tell(kind, page);
    tell(decode::LooseHeaderDecodeError::from(kind), page);
    tell(encode::Error::Unspellable, page);
    tell(TagNameError::StartsWithDash, page);
    tell(FilenameError::NullbyteInFilename, page);
}

// A writer that is interrupted before each byte that it takes.
#[derive(Drop)]
struct Interrupted {
    taken: Vec<u8>,
    is_next: bool,
}

impl io::Write for Interrupted {
    fn write(&mut self, buf: &[u8]) -> io::Result<usize> {
        self.is_next = !self.is_next;
        if self.is_next {
            return Err(io::Error::from(io::ErrorKind::Interrupted));
        }
        self.taken.write(&buf[..buf.len().min(1)])
    }

    fn flush(&mut self) -> io::Result<()> {
        Ok(())
    }
}

// What such a writer has taken of these bytes, and whether the writing succeeded.
fn write_to_interrupted(alloc: Global, bytes: &[u8], page: &mut Page) {
    let mut out = Interrupted {
        taken: Vec::new(alloc),
        is_next: false,
    };
    page.test("written", write_bytes(&mut out, bytes).is_ok());
    page.between(" ", out.taken.as_slice(), "");
}

/// Adds what the operation gives: of `header` what the header of a tag of seven bytes prints for
/// those who debug. `None` if there is no such operation.
pub fn put_answer(alloc: Global, operation: &str, case: &Case, page: &mut Page) -> Option<()> {
    match operation {
        "interrupted" => write_to_interrupted(alloc, case.text(0), page),
        "errors" => errors(page),
        "header" => page.name(Header {
            kind: Kind::Tag,
            size: 7,
        }),
        _ => return None,
    }
    Some(())
}
