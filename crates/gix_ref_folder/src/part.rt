//! Which part of a repository's folder is shown (`Part`), and which paths are in it.
ghost use Rattle.std.specs.Prelude.{◌≡◌};
ghost use Rattle.gix_ref_folder.specs.Parts.{has};

/// A part of a repository's folder. A path is whole in both, from the folder's root.
#[derive(Clone, Copy, Debug, PartialEq, Eq)]
pub enum Part {
    /// `objects`, and all below it.
    Objects,
    /// Everything else.
    Names,
}

impl Part {
    /// Returns whether what is at this path belongs to the part.
    pub fn has(self, path: &[u8]) -> bool
        ensures { result ≡ has self path.now }
    {
        let is_object = path == b"objects".as_slice() || path.starts_with(b"objects/");
        match self {
            Part::Objects => is_object,
            Part::Names => !is_object,
        }
    }
}
