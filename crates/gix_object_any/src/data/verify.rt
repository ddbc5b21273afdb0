//! Why an object isn't the expected one.

ghost use Rattle.std.specs.Prelude.{◌≡◌};
ghost use Rattle.gix_object_any.specs.declared.data.verify.Error.TheVariants.{Verify};

/// Why an object isn't the expected one.
#[derive(Debug, Clone, Copy, PartialEq, Eq, thiserror::Error)]
pub enum Error {
    /// Its id isn't the expected one.
    #[error("{0}")]
    Verify(gix_hash::verify::Error),
}

impl From<gix_hash::verify::Error> for Error {
    ghost from_gives = { λ mismatch given. given ≡ Verify mismatch };

    fn from(mismatch: gix_hash::verify::Error) -> Error {
        Error::Verify(mismatch)
    }
}
