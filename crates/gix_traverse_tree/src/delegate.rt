//! `Visit`: the trait of a walk's delegate, which builds and queues paths, and is shown entries.

ghost use Rattle.std.specs.Prelude.{IfOk, OnOk};
ghost use Rattle.bstr.specs.BStr.{bstr_bytes};
ghost use Rattle.gix_object_tree.specs.Entry.{item_of};
ghost use Rattle.gix_traverse_tree.specs.Calls.{Call, pop_back, pop_front, push_back, push, pop, at_tree, at_nontree};

use crate::visit::{Action, Error};
use bstr::BStr;
use gix_object_tree::tree::EntryRef;

/// Is called by a walk over trees at each entry, and follows the way there. A call that finds no
/// memory returns an error, which ends the walk.
pub trait Visit {
    /// What a call makes of the delegate.
    ghost goes: { Self → Call → Self → Type 0 };

    /// Takes the last queued path as the path that is built on.
    fn pop_back_tracked_path_and_set_current(&mut self) -> Result<(), Error>
        ensures { OnOk result (Self.goes self.old pop_back self.new) };

    /// Takes the first queued path as the path that is built on.
    fn pop_front_tracked_path_and_set_current(&mut self) -> Result<(), Error>
        ensures { OnOk result (Self.goes self.old pop_front self.new) };

    /// Appends a component to the path, and queues the path at the back. An empty component leaves
    /// the path as it is.
    fn push_back_tracked_path_component(&mut self, component: BStr<'_>) -> Result<(), Error>
        ensures { OnOk result
            (Self.goes self.old (push_back (bstr_bytes component.entry)) self.new) };

    /// Appends a component to the path.
    fn push_path_component(&mut self, component: BStr<'_>) -> Result<(), Error>
        ensures { OnOk result (Self.goes self.old (push (bstr_bytes component.entry)) self.new) };

    /// Takes the last component off the path.
    fn pop_path_component(&mut self) -> Result<(), Error>
        ensures { OnOk result (Self.goes self.old pop self.new) };

    /// Is shown an entry that is a tree, and returns how the walk goes on.
    fn visit_tree(&mut self, entry: &EntryRef<'_>) -> Result<Action, Error>
        ensures { IfOk result
            (λ action. Self.goes self.old (at_tree (item_of entry.now) action) self.new) };

    /// Is shown an entry that is no tree, and returns how the walk goes on.
    fn visit_nontree(&mut self, entry: &EntryRef<'_>) -> Result<Action, Error>
        ensures { IfOk result
            (λ action. Self.goes self.old (at_nontree (item_of entry.now) action) self.new) };
}
