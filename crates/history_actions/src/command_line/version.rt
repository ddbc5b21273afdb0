//! The program's version.

/// What `--version` prints after the program's name: the version, and that it is proved. The kit
/// builds only what it has proved; whoever builds by other means writes `unproved` here first.
pub(crate) const VERSION: &str = "0.2.0 (proved)";
