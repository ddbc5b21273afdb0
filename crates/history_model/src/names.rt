//! The names that every repository has, and how names begin, as constants that are those of the definitions.

ghost use Rattle.std.specs.Prelude.{◌≡◌};
ghost use Rattle.history_model.specs.Forms.{refs_front, heads_front, tags_front};
ghost use Rattle.history_model.specs.Repository.{first_branch};
ghost use Rattle.history_model.specs.StandsFor.{head_text};
ghost use Rattle.history_model.specs.Words.{head_word};

/// The file that has the current branch, and the word for that branch.
pub const HEAD: &[u8] = b"HEAD";

/// How each name but HEAD begins.
pub const REFS: &[u8] = b"refs/";

/// How a branch's name begins.
pub const HEADS: &[u8] = b"refs/heads/";

/// How a tag's name begins.
pub const TAGS: &[u8] = b"refs/tags/";

/// HEAD's branch in a new repository.
pub const FIRST_BRANCH: &[u8] = b"refs/heads/main";

/// What the file of HEAD holds in a new repository.
pub const FIRST_HEAD: &[u8] = b"ref: refs/heads/main\n";

/// The constants are the names of the definitions.
pub fn are_defined()
    ensures head { HEAD.now ≡ head_word }
    ensures refs { REFS.now ≡ refs_front }
    ensures heads { HEADS.now ≡ heads_front }
    ensures tags { TAGS.now ≡ tags_front }
    ensures first_branch { FIRST_BRANCH.now ≡ first_branch }
    ensures first_head { FIRST_HEAD.now ≡ head_text first_branch }
{}
