//! How far a key's owner is trusted.

ghost use Rattle.std.specs.Prelude.{◌≡◌, MatchOption};
ghost use Rattle.gix_object_signature.specs.Trust.{NamesLevel, NamesNoLevel};
ghost use Rattle.gix_object_signature.specs.Verifying.{rank_of};

/// How far a key's owner is trusted, from least to most.
#[derive(Debug, Clone, Copy, PartialEq, Eq, PartialOrd, Ord)]
pub enum TrustLevel {
    /// No level is named.
    Undefined,
    /// Not at all.
    Never,
    /// A little.
    Marginal,
    /// Fully.
    Fully,
    /// As oneself.
    Ultimate,
}

impl TrustLevel {
    /// The level that the word names, in any letter case, as `gpg.minTrustLevel` is read; `None` if
    /// it names none.
    pub fn from_bytes(value: &[u8]) -> Option<TrustLevel>
        ensures { MatchOption result (NamesNoLevel value.now) (NamesLevel value.now) }
    {
        if value.eq_ignore_ascii_case(b"undefined") {
            Some(TrustLevel::Undefined)
        } else if value.eq_ignore_ascii_case(b"never") {
            Some(TrustLevel::Never)
        } else if value.eq_ignore_ascii_case(b"marginal") {
            Some(TrustLevel::Marginal)
        } else if value.eq_ignore_ascii_case(b"fully") {
            Some(TrustLevel::Fully)
        } else if value.eq_ignore_ascii_case(b"ultimate") {
            Some(TrustLevel::Ultimate)
        } else {
            None
        }
    }

    // How many levels are below.
    pub(crate) fn rank(self) -> u8
        ensures { result ≡ rank_of self }
    {
        match self {
            TrustLevel::Undefined => 0,
            TrustLevel::Never => 1,
            TrustLevel::Marginal => 2,
            TrustLevel::Fully => 3,
            TrustLevel::Ultimate => 4,
        }
    }
}
