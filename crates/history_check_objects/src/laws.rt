//! Laws that values whose links are stored can be stored too, and that a whole store stays whole with any names.

ghost use Rattle.history_check_objects.specs.Nexts.{NextsAreStored};
ghost use Rattle.history_check_objects.specs.Opened.{StaysWhole};

/// An object of a tree all of whose links are stored is a value that can be stored with the others.
pub fn nexts_are_stored()
    ensures { NextsAreStored }
{}

/// A whole store stays whole with any names.
pub fn stays_whole()
    ensures { StaysWhole }
{}
