//! Objects that a store keeps.

ghost use Rattle.std.specs.Prelude.{◌≡◌, true};

use crate::find::store::Store;
use case_words::{Case, Page, Stored};
use gix_hash::{Kind as HashKind, ObjectId};
use gix_object_any::ObjectRef;
use gix_object_find::FindExt;
use gix_object_lines::Kind;
use gix_object_lines::decode::loose_header;
use gix_object_lookup::find::Never;
use gix_object_write::Write;
use gix_object_write::write::Error;
use std::alloc::Global;

impl Write for Store {
    ghost ids_kind = { λ store. store.kind };

    ghost may_refuse = { λ store. store.is_broken ≡ true };

    fn object_hash(&self) -> HashKind {
        self.kind
    }

    fn write_buf_with_known_id(
        &mut self,
        object: Kind,
        from: &[u8],
        id: ObjectId,
    ) -> Result<ObjectId, Error> {
        if self.is_broken {
            return Err(Error::Failed);
        }
        let stored = Stored {
            id,
            kind: object,
            content: Vec::from_slice(*self.objects.allocator(), from)?,
        };
        self.objects.insert(0, stored)?;
        Ok(id)
    }
}

// The id that an object was kept under.
fn show(kept: Result<ObjectId, Error>, page: &mut Page) {
    match kept {
        Ok(id) => page.put_between("", id, "; "),
        Err(error) => {
            page.refused(error);
            page.text("; ");
        }
    }
}

// An object that was read, by the call that takes any value.
fn keep_read<W: Write>(alloc: Global, store: &mut W, case: &Case, page: &mut Page) {
    match ObjectRef::from_loose(alloc, case.text(2), case.kind) {
        Ok(object) => show(store.write(alloc, &object), page),
        Err(error) => page.refused(error),
    }
}

// The two calls that read a stream, of as many bytes as this.
fn keep_stream<W: Write>(
    alloc: Global,
    store: &mut W,
    kind: Kind,
    content: &[u8],
    size: u64,
    page: &mut Page,
) {
    let mut stream = content;
    let kept = store.write_stream(alloc, kind, size, &mut stream);
    show(kept, page);
    let mut stream = content;
    let null = ObjectId::null(store.object_hash());
    show(
        store.write_stream_with_known_id(alloc, kind, size, &mut stream, null),
        page,
    );
}

// Each call in turn.
fn keep_in<W: Write>(alloc: Global, store: &mut W, case: &Case, page: &mut Page) {
    let Ok((kind, size, header)) = loose_header(case.text(2)) else {
        return page.text("no object");
    };
    let content = case.text(2).get(header..).unwrap_or(b"");
    keep_read(alloc, store, case, page);
    show(store.write_buf(kind, content), page);
    let null = ObjectId::null(store.object_hash());
    show(store.write_buf_with_known_id(kind, content, null), page);
    keep_stream(alloc, store, kind, content, size, page);
    keep_stream(alloc, store, kind, content, size.saturating_add(1), page);
}

/// The ids that a store of nothing, one that fails and `Never` keep an object under by each call;
/// then the kind and the length of what the first holds under the object's own id and under the
/// null one.
pub fn keep(alloc: Global, case: &Case, page: &mut Page) {
    let Some(mut store) = Store::new(alloc, case.kind, &[]) else {
        return page.text("no store");
    };
    keep_in(alloc, &mut store, case, page);
    let mut buffer = Vec::new(alloc);
    for stored in &store.objects {
        if let Ok(found) = store.find(stored.id.as_oid(), &mut buffer) {
            page.put_between("", found.kind, " ");
            page.put_between("", found.content.len(), " ");
        }
    }
    page.text("| ");
    store.is_broken = true;
    keep_in(alloc, &mut store, case, page);
    page.text("| ");
    keep_in(alloc, &mut Never, case, page);
}
