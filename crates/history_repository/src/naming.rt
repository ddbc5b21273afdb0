//! Whether a repository may hold a name (`test_name`), and whether it is a single working tree's.

ghost use Rattle.std.specs.Prelude.{◌≡◌, MatchResult, None, Some};
ghost use Rattle.history_model.specs.Forms.{is_private};
ghost use Rattle.history_repository.specs.NameForms.{form_cause};

use history_model::Cause;
use history_store::is_name;

/// Returns whether the name belongs to one working tree.
pub fn is_private(name: &[u8]) -> bool
    ensures { result ≡ is_private name.now }
{
    name.starts_with(b"refs/bisect/")
        || name.starts_with(b"refs/worktree/")
        || name.starts_with(b"refs/rewritten/")
}

/// Tests that a repository may hold the name. Otherwise returns the cause.
pub fn test_name(name: &[u8]) -> Result<(), Cause>
    ensures { MatchResult result (λ _. form_cause name.now ≡ None)
        (λ cause. form_cause name.now ≡ Some cause) }
{
    if !is_name(name) {
        return Err(Cause::BadName);
    }
    if is_private(name) {
        return Err(Cause::PrivateName);
    }
    Ok(())
}
