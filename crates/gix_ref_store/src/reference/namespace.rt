//! A reference without its namespace: the namespace's front taken off its name and its target.

ghost use Rattle.std.specs.Prelude.{◌≡◌, ◌++◌, ℕ, List, IsFalse, IfOk, OnOk, OnErr, MatchOption};
ghost use Rattle.gix_object_lines.specs.NameTest.{is_full_name};
ghost use Rattle.gix_ref_name.specs.Names.{name_of};
ghost use Rattle.gix_ref_name.specs.Targets.{target_view};
ghost use Rattle.gix_ref_store.specs.References.{IsOutside};
ghost use Rattle.gix_ref_store.specs.Stripped.{points_outside};

use crate::reference::Reference;
use gix_object_lines::cut::strip_prefix;
use gix_ref_name::{FullNameRef, Namespace, Target};
use std::alloc::{AllocError, Global};

impl Reference {
    /// The name without the namespace's front; `None` if it doesn't begin with the front, or what
    /// is left is no full name.
    pub fn name_without_namespace(&self, namespace: &Namespace) -> Option<FullNameRef<'_>>
        ensures { MatchOption result
            ((rest : List ℕ) → self.now.name ≡ namespace.now ++ rest → IsFalse (is_full_name rest))
            (λ name. self.now.name ≡ namespace.now ++ name_of name) }
    {
        let rest = strip_prefix(self.name.to_path(), namespace.as_bytes())?;
        match FullNameRef::new(rest) {
            Ok(name) => Some(name),
            Err(_) => None,
        }
    }

    /// Takes the namespace's front off the name, and off the name that it points to, as
    /// `FullName::strip_namespace` does. If no memory is left, it is as it was.
    pub fn strip_namespace(
        &mut self,
        alloc: Global,
        namespace: &Namespace,
    ) -> Result<(), AllocError>
        ensures stripped { OnOk result (IsOutside namespace.now self.old self.new) }
        ensures refused { OnErr result (self.new ≡ self.old) }
    {
        let name = self.name.strip_namespace(alloc, namespace)?;
        let target = stripped(alloc, &self.target, namespace)?;
        self.name = name;
        self.target = target;
        Ok(())
    }
}

// The target without the namespace's front.
fn stripped(alloc: Global, target: &Target, namespace: &Namespace) -> Result<Target, AllocError>
    ensures { IfOk result (λ stripped.
        target_view stripped ≡ points_outside namespace.now (target_view target.now)) }
{
    match target {
        Target::Object(id) => Ok(Target::Object(*id)),
        Target::Symbolic(name) => Ok(Target::Symbolic(name.strip_namespace(alloc, namespace)?)),
    }
}
