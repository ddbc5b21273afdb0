//! Which edits of references also change the packed ones (`PackedRefs`: three modes).

ghost use Rattle.std.specs.Prelude.{◌≡◌, option_copied};
ghost use Rattle.gix_ref_transaction.specs.Modes as spec;

/// Which changes of references also change the packed ones. References that each worktree has of
/// its own (names of capital letters, and names below `refs/bisect/`, `refs/rewritten/` and
/// `refs/worktree/`) are never packed: their own files are written in each mode.
#[derive(Debug, Clone, Copy)]
pub enum PackedRefs<'f, O> {
    /// Only deletions.
    DeletionsOnly,
    /// Deletions, and updates to objects, which are also written into the references' own files.
    /// The objects say what tags lead to.
    DeletionsAndNonSymbolicUpdates(&'f O),
    /// The same, and the own files of the references that are updated to objects are removed after
    /// the packed ones are replaced.
    DeletionsAndNonSymbolicUpdatesRemoveLooseSourceReference(&'f O),
}

impl<'f, O> PackedRefs<'f, O> {
    /// Returns the objects that say what tags lead to, if updates are packed.
    pub fn objects(&self) -> Option<&'f O>
        ensures { option_copied result ≡ spec.objects_in self.now }
    {
        match self {
            PackedRefs::DeletionsOnly => None,
            PackedRefs::DeletionsAndNonSymbolicUpdates(objects) => Some(objects),
            PackedRefs::DeletionsAndNonSymbolicUpdatesRemoveLooseSourceReference(objects) => {
                Some(objects)
            }
        }
    }

    /// Returns whether the own files of packed references are removed.
    pub fn removes(&self) -> bool
        ensures { result ≡ spec.removes self.now }
    {
        match self {
            PackedRefs::DeletionsOnly => false,
            PackedRefs::DeletionsAndNonSymbolicUpdates(_) => false,
            PackedRefs::DeletionsAndNonSymbolicUpdatesRemoveLooseSourceReference(_) => true,
        }
    }
}
