//! Shows one entry, with its name, to a delegate, in either order, and returns the reply.

ghost use Rattle.std.specs.Prelude.{IfOk};
ghost use Rattle.gix_object_tree.specs.Entry.{item_of};
ghost use Rattle.gix_traverse_tree.specs.Calls.{Runs, shown};

use crate::Visit;
use crate::visit::{Action, Error};
use gix_object_tree::tree::EntryRef;

/// Gives the delegate the entry's name, shows it the entry, and returns its reply.
pub(crate) fn show<V: Visit>(entry: &EntryRef<'_>, delegate: &mut V) -> Result<Action, Error>
    ensures { IfOk result
        (λ action. Runs V.goes delegate.old (shown (item_of entry.now) action) delegate.new) }
{
    delegate.push_path_component(entry.filename)?;
    if entry.mode.is_tree() {
        delegate.visit_tree(entry)
    } else {
        delegate.visit_nontree(entry)
    }
}
