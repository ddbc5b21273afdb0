//! The tests of a `switch`: its name is a branch's, and HEAD doesn't name it already.

ghost use Rattle.std.specs.Prelude.{◌≡◌, MatchResult, None, Some};
ghost use Rattle.history_model.specs.Causes.{first_cause};
ghost use Rattle.history_model.specs.Forms.{is_branch};
ghost use Rattle.history_repository.specs.Stands.{Stands};
ghost use Rattle.history_model.specs.Commands as commands;
ghost use Rattle.history_model.specs.Repository as plain;

use gix_ref_file::Files;
use history_model::Cause;
use history_repository::Repository;
use history_store::is_name;

/// Returns whether HEAD may name this branch, as a repository has its names. None below
/// `refs/heads/` belongs to one working tree.
fn is_branch(name: &[u8]) -> bool
    ensures { result ≡ is_branch name.now }
{
    is_name(name) && name.starts_with(b"refs/heads/")
}

/// Tests every cause. Otherwise returns `BadName` if the name is no branch's, and `NothingMoves` if
/// HEAD names it already.
pub fn test_switch<F: Files>(repository: &Repository<F>, name: &[u8]) -> Result<(), Cause>
    ensures { (r : plain.Repository) → Stands F.is_honest F.history repository.now r
        → MatchResult result (λ _. first_cause r (commands.Switch name.now) ≡ None)
        (λ cause. first_cause r (commands.Switch name.now) ≡ Some cause) }
{
    if !is_branch(name) {
        return Err(Cause::BadName);
    }
    if name == repository.branch.as_slice() {
        return Err(Cause::NothingMoves);
    }
    Ok(())
}
