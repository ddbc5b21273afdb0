//! Lookups in `Objects` by id: whether one exists, its header, or its content, from which the header is taken.
ghost use Rattle.std.specs.Prelude.{◌≡◌, option_map};
ghost use Rattle.std.specs.FinMap.{keys};
ghost use Rattle.gix_object_lookup.specs.Table.{content_or_none};
ghost use Rattle.history_store.specs.ObjectsFace.{ids_of_objects};
ghost use Rattle.history_store.specs.KnownObjects.{table_of, HoldsKnown};
ghost use Rattle.history_store.specs.Lookups.{find_fault};
ghost use Rattle.history_texts.specs.ObjectTexts.{object_in};

use crate::objects::{Objects, cut_front};
use gix_hash::{ObjectId, oid};
use gix_object_lines::{Header, Kind as ObjectKind};
use gix_object_lookup::{Exists, FindHeader, FindInto, Lookup, find};
use gix_ref_file::{FileError, Files};
use history_texts::{object_place, parse_header};

impl<F: Files> Lookup for Objects<F> {
    ghost table = { table_of F.history };

    ghost ids = { λ objects. keys (ids_of_objects objects) };

    ghost is_honest = { HoldsKnown F.is_honest F.history };

    ghost may_fail = { λ _. F.reading_may_fail };
}

impl<F: Files> Exists for Objects<F> {
    fn exists(&self, id: oid<'_>) -> bool {
        self.contains(&ObjectId::from(id))
    }
}

impl<F: Files> FindInto for Objects<F> {
    fn find_into(
        &self,
        id: oid<'_>,
        buffer: &mut Vec<u8>,
    ) -> Result<Option<ObjectKind>, find::Error> {
        buffer.clear();
        let id = ObjectId::from(id);
        if !self.contains(&id) {
            return Ok(None);
        }
        let place = object_place(self.alloc, &id)?;
        match self.files.read(&place, buffer) {
            Ok(_) => Ok(take_header(buffer)),
            Err(error) => Err(find_fault(error)),
        }
    }
}

impl<F: Files> FindHeader for Objects<F> {
    fn try_header(&self, id: oid<'_>) -> Result<Option<Header>, find::Error> {
        let mut content = Vec::new(self.alloc);
        match self.find_into(id, &mut content) {
            Ok(Some(kind)) => Ok(Some(Header {
                kind,
                size: content.len() as u64,
            })),
            Ok(None) => Ok(None),
            Err(error) => Err(error),
        }
    }
}

fn find_fault(error: FileError) -> find::Error
    ensures { result ≡ find_fault error }
{
    match error {
        FileError::Failed => find::Error::Failed,
        FileError::Memory => find::Error::Memory,
    }
}

// Takes the header off an object's text, and returns the object's kind; a text that is no object's
// is cleared.
fn take_header(text: &mut Vec<u8>) -> Option<ObjectKind>
    ensures kind { result ≡ option_map (λ object. object.kind) (object_in text.old.items) }
    ensures content { text.new.items ≡ content_or_none (object_in text.old.items) }
{
    // The text has no more bytes than a header can say.
    let _length = text.len();
    match parse_header(text) {
        Some((kind, start)) => {
            cut_front(text, start);
            Some(kind)
        }
        None => {
            text.clear();
            None
        }
    }
}
