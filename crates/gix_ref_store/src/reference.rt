//! A reference (`Reference`): name, target and peeled id; made from a packed record or a loose reference.

ghost use Rattle.std.specs.Prelude.{◌≡◌, None, IfOk};
ghost use Rattle.gix_ref_name.specs.Targets.{kind_of, target_view};
ghost use Rattle.gix_ref_store.specs.References.{IsOfRecord};

mod namespace;

use gix_hash::ObjectId;
use gix_ref_format::{loose, packed};
use gix_ref_name::{FullName, Kind, Target};
use std::alloc::{AllocError, Global};

/// A reference, from a file of its own or from a packed record.
#[derive(Debug, Drop, PartialEq, Eq)]
pub struct Reference {
    /// Its name.
    pub name: FullName,
    /// What it points to.
    pub target: Target,
    /// The id of the object that a tag points to in the end, if a packed record has it.
    pub peeled: Option<ObjectId>,
}

impl Reference {
    /// The reference that a packed record holds, with a copy of its name.
    pub fn from_packed(alloc: Global, held: packed::Reference<'_>) -> Result<Reference, AllocError>
        ensures { IfOk result (IsOfRecord held.entry) }
    {
        Ok(Reference {
            name: held.name.to_owned(alloc)?,
            target: Target::Object(held.target),
            peeled: held.object,
        })
    }

    /// Returns whether it points to an object or to another reference.
    pub fn kind(&self) -> Kind
        ensures { result ≡ kind_of (target_view self.now.target) }
    {
        self.target.kind()
    }
}

impl From<loose::Reference> for Reference {
    ghost from_gives = { λ given r. (r.name ≡ given.name)
        × (r.target ≡ given.target) × (r.peeled ≡ None) };

    fn from(reference: loose::Reference) -> Reference {
        let loose::Reference { name, target } = reference;
        Reference {
            name,
            target,
            peeled: None,
        }
    }
}

impl From<Reference> for loose::Reference {
    ghost from_gives = { λ given r. (r.name ≡ given.name) × (r.target ≡ given.target) };

    fn from(reference: Reference) -> loose::Reference {
        let Reference { name, target, .. } = reference;
        loose::Reference { name, target }
    }
}
