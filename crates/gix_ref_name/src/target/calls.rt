//! The calls of `Target` and `TargetRef`: kind, id, name, whether null, copies, conversions, and printing.

ghost use Rattle.std.specs.Prelude.{◌≡◌, ◌↔◌, ℕ, List, IsTrue, IfOk, MatchResult, Some, None};
ghost use Rattle.std.specs.Option.{option_map};
ghost use Rattle.gix_hash.specs.Id.{id_of};
ghost use Rattle.gix_hash.specs.Views.{viewed_id};
ghost use Rattle.gix_ref_name.specs.Names.{name_of};
ghost use Rattle.gix_ref_name.specs.Targets.{ToObject, ToName, IsNull, IsObject, target_view, target_ref_view, kind_of, id_in, name_in, target_text};

use crate::fullname::{FullName, FullNameRef};
use crate::target::{Kind, Target, TargetRef};
use gix_hash::{ObjectId, oid};
use std::alloc::{AllocError, Global};
use std::fmt;

impl Target {
    /// Returns whether it is an object or a name.
    pub fn kind(&self) -> Kind
        ensures { result ≡ kind_of (target_view self.now) }
    {
        match self {
            Target::Object(_) => Kind::Object,
            Target::Symbolic(_) => Kind::Symbolic,
        }
    }

    /// Returns whether it is the null id of its hash function.
    pub fn is_null(&self) -> bool
        ensures { IsTrue result ↔ IsNull (target_view self.now) }
    {
        match self {
            Target::Object(id) => id.is_null(),
            Target::Symbolic(_) => false,
        }
    }

    /// A view of the target.
    pub fn to_ref(&self) -> TargetRef<'_>
        ensures { target_ref_view result ≡ target_view self.now }
    {
        match self {
            Target::Object(id) => TargetRef::Object(id.as_oid()),
            Target::Symbolic(name) => TargetRef::Symbolic(name.as_ref()),
        }
    }

    /// The object's id; `None` if it is a name.
    pub fn try_id(&self) -> Option<oid<'_>>
        ensures { option_map viewed_id result ≡ id_in (target_view self.now) }
    {
        match self {
            Target::Object(id) => Some(id.as_oid()),
            Target::Symbolic(_) => None,
        }
    }

    /// The object's id.
    pub fn id(&self) -> oid<'_>
        requires { IsObject (target_view self.now) }
        ensures { target_view self.now ≡ ToObject (viewed_id result) }
    {
        match self {
            Target::Object(id) => id.as_oid(),
            Target::Symbolic(_) => unreachable!(),
        }
    }

    /// The name; `None` if it is an object.
    pub fn try_name(&self) -> Option<FullNameRef<'_>>
        ensures { option_map name_of result ≡ name_in (target_view self.now) }
    {
        match self {
            Target::Object(_) => None,
            Target::Symbolic(name) => Some(name.as_ref()),
        }
    }

    /// The object's id, taken out; the target itself if it is a name.
    pub fn try_into_id(self) -> Result<ObjectId, Target>
        ensures { MatchResult result (λ id. target_view self ≡ ToObject (id_of id))
            (λ target. (target ≡ self) × (id_in (target_view self) ≡ None)) }
    {
        match self {
            Target::Object(id) => Ok(id),
            Target::Symbolic(name) => Err(Target::Symbolic(name)),
        }
    }

    /// The object's id, taken out.
    pub fn into_id(self) -> ObjectId
        requires { IsObject (target_view self) }
        ensures { target_view self ≡ ToObject (id_of result) }
    {
        match self {
            Target::Object(id) => id,
            Target::Symbolic(_) => unreachable!(),
        }
    }

    /// A target of the same value.
    pub fn try_clone(&self) -> Result<Target, AllocError>
        ensures { IfOk result (λ copy. copy ≡ self.now) }
    {
        match self {
            Target::Object(id) => Ok(Target::Object(*id)),
            Target::Symbolic(name) => Ok(Target::Symbolic(name.try_clone()?)),
        }
    }
}

impl<'a> TargetRef<'a> {
    /// Returns whether it is an object or a name.
    pub fn kind(self) -> Kind
        ensures { result ≡ kind_of (target_ref_view self.entry) }
    {
        match self {
            TargetRef::Object(_) => Kind::Object,
            TargetRef::Symbolic(_) => Kind::Symbolic,
        }
    }

    /// Returns whether it is the null id of its hash function.
    pub fn is_null(self) -> bool
        ensures { IsTrue result ↔ IsNull (target_ref_view self.entry) }
    {
        match self {
            TargetRef::Object(id) => id.is_null(),
            TargetRef::Symbolic(_) => false,
        }
    }

    /// The object's id; `None` if it is a name.
    pub fn try_id(self) -> Option<oid<'a>>
        ensures { option_map viewed_id result ≡ id_in (target_ref_view self.entry) }
    {
        match self {
            TargetRef::Object(id) => Some(id),
            TargetRef::Symbolic(_) => None,
        }
    }

    /// The object's id.
    pub fn id(self) -> oid<'a>
        requires { IsObject (target_ref_view self) }
        ensures { target_ref_view self.entry ≡ ToObject (viewed_id result) }
    {
        match self {
            TargetRef::Object(id) => id,
            TargetRef::Symbolic(_) => unreachable!(),
        }
    }

    /// The name; `None` if it is an object.
    pub fn try_name(self) -> Option<FullNameRef<'a>>
        ensures { option_map name_of result ≡ name_in (target_ref_view self.entry) }
    {
        match self {
            TargetRef::Object(_) => None,
            TargetRef::Symbolic(name) => Some(name),
        }
    }

    /// A target that owns its value.
    pub fn into_owned(self, alloc: Global) -> Result<Target, AllocError>
        ensures { IfOk result (λ target. target_view target ≡ target_ref_view self.entry) }
    {
        match self {
            TargetRef::Object(id) => Ok(Target::Object(id.to_owned())),
            TargetRef::Symbolic(name) => Ok(Target::Symbolic(name.to_owned(alloc)?)),
        }
    }
}

impl From<ObjectId> for Target {
    ghost from_gives = { λ id target. target_view target ≡ ToObject (id_of id) };

    fn from(id: ObjectId) -> Target {
        Target::Object(id)
    }
}

impl TryFrom<Target> for ObjectId {
    type Error = Target;

    ghost try_from_gives = { λ target r. MatchResult r
        (λ id. target_view target ≡ ToObject (id_of id))
        (λ back. (back ≡ target) × (id_in (target_view target) ≡ None)) };

    fn try_from(target: Target) -> Result<ObjectId, Target> {
        target.try_into_id()
    }
}

impl From<FullName> for Target {
    ghost from_gives = { λ name target. target_view target ≡ ToName name };

    fn from(name: FullName) -> Target {
        Target::Symbolic(name)
    }
}

impl fmt::Display for Target {
    ghost output = { λ target. Some (target_text (target_view target)) };

    fn fmt<W: fmt::Write>(&self, f: &mut fmt::Formatter<W>) -> fmt::Result {
        match self {
            Target::Object(id) => write!(f, "{id}"),
            Target::Symbolic(name) => write!(f, "ref: {}", name.as_bstr()),
        }
    }
}
