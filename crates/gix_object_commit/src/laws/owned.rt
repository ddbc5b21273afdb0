//! What follows for commits that own their parts.

ghost use Rattle.std.specs.Prelude.{◌≡◌, None, FitsSigned};
ghost use Rattle.std.specs.Int.{w64};
ghost use Rattle.gix_hash.specs.Id.{id_of};
ghost use Rattle.gix_hash.specs.Kind.{hex_len};
ghost use Rattle.gix_object_commit.specs.Commit.{SpellsCommit, commit_text};
ghost use Rattle.gix_object_commit.specs.OwnedText.{own_parts, own_refusal};

use crate::commit::Commit;
use gix_object_lines::lines::Time;

// The seconds of a time are a number of 64 bits.
fn seconds_fit(time: Time)
    ensures { FitsSigned w64 time.seconds }
{
    let _seconds = time.seconds;
}

/// What is written of a commit that isn't refused spells its parts, with ids of its tree's kind; so
/// it is read back to them. The contract is the law.
pub fn owned_written_is_read(commit: &Commit)
    ensures { own_refusal commit.now ≡ None
        → SpellsCommit (hex_len (id_of commit.now.tree).kind) (commit_text (own_parts commit.now))
        (own_parts commit.now) }
{
    let _bytes = commit.tree.as_slice();
    seconds_fit(commit.author.time);
    seconds_fit(commit.committer.time);
}
