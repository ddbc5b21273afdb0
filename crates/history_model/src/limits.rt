//! The limits of commands and of what is stored, as constants that are those of the definitions.

ghost use Rattle.std.specs.Prelude.{◌≡◌};
ghost use Rattle.history_model.specs.Forms.{max_content, max_path, max_name, max_title, max_actor_part, max_seconds, max_parents};
ghost use Rattle.history_model.specs.Spelling.{max_line};

/// The most bytes of a content, of a message, and of any object that is stored.
pub const MAX_CONTENT: usize = 16_777_216;

/// The most bytes of a path.
pub const MAX_PATH: usize = 4_096;

/// The most bytes of a name.
pub const MAX_NAME: usize = 1_024;

/// The most bytes of a title.
pub const MAX_TITLE: usize = 1_024;

/// The most bytes of an actor's name or email.
pub const MAX_ACTOR_PART: usize = 512;

/// The last second that an actor's time may have.
pub const MAX_SECONDS: u64 = 9_223_372_036_854_775_807;

/// The most parents of a commit.
pub const MAX_PARENTS: usize = 64;

/// The most bytes of a line, its line feed not counted.
pub const MAX_LINE: usize = 4_096;

/// The constants are the limits of the definitions.
pub fn are_defined()
    ensures content { MAX_CONTENT ≡ max_content }
    ensures path { MAX_PATH ≡ max_path }
    ensures name { MAX_NAME ≡ max_name }
    ensures title { MAX_TITLE ≡ max_title }
    ensures actor_part { MAX_ACTOR_PART ≡ max_actor_part }
    ensures seconds { MAX_SECONDS ≡ max_seconds }
    ensures parents { MAX_PARENTS ≡ max_parents }
    ensures line { MAX_LINE ≡ max_line }
{}
