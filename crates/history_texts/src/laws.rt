//! The law that no commit or tag in written form has a time before 1970, and no such tag is of another object.

ghost use Rattle.history_texts.specs.Malformed.{BeforeIsMalformed, OfOtherIsMalformed};

/// No commit and no tag in written form has a time before 1970, and no tag in written form is of
/// something other than a commit.
pub fn are_malformed()
    ensures before { BeforeIsMalformed }
    ensures of_other { OfOtherIsMalformed }
{}
