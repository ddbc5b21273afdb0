//! Which category a full name has, by its beginning, and its short name: tags, branches, notes, worktrees' names.

ghost use Rattle.std.specs.Prelude.{◌≡◌, ◌⊎◌, ℕ, List, codes, IsTrue, MatchOption};
ghost use Rattle.bstr.specs.BStr.{bstr_bytes};
ghost use Rattle.gix_ref_name.specs.Categories.{Tells, HasNoCategory};
ghost use Rattle.gix_ref_name.specs.Kinds.{SharedNone, PrivateNone, MainNone, LinkedNone, NoWord, HasWord};

use crate::category::Category;
use bstr::BStr;
use gix_object_lines::cut::{split_once, starts_with, strip_prefix};
use gix_object_lines::lines::is_capitals;

/// The category of a name and its short name; `None` if it has none.
pub(crate) fn category_of(name: &[u8]) -> Option<(Category<'_>, BStr<'_>)>
    ensures { MatchOption result (HasNoCategory name.now)
        (λ found. Tells name.now found.0 (bstr_bytes found.1)) }
{
    if let Some(found) = tag_or_branch(name) {
        return Some(found);
    }
    if let Some(found) = note_or_private(name) {
        return Some(found);
    }
    if is_capitals(name) {
        return Some((Category::PseudoRef, BStr::new(name)));
    }
    if let Some(found) = of_main_worktree(name) {
        return Some(found);
    }
    of_linked_worktree(name)
}

// Tags and branches.
fn tag_or_branch(name: &[u8]) -> Option<(Category<'_>, BStr<'_>)>
    ensures { MatchOption result (SharedNone name.now)
        (λ found. Tells name.now found.0 (bstr_bytes found.1)) }
{
    if let Some(short) = strip_prefix(name, b"refs/tags/") {
        return Some((Category::Tag, BStr::new(short)));
    }
    if let Some(short) = strip_prefix(name, b"refs/heads/") {
        return Some((Category::LocalBranch, BStr::new(short)));
    }
    let short = strip_prefix(name, b"refs/remotes/")?;
    Some((Category::RemoteBranch, BStr::new(short)))
}

// Notes, and what each worktree has of its own.
fn note_or_private(name: &[u8]) -> Option<(Category<'_>, BStr<'_>)>
    ensures { MatchOption result (PrivateNone name.now)
        (λ found. Tells name.now found.0 (bstr_bytes found.1)) }
{
    let short = strip_prefix(name, b"refs/")?;
    let category = below_refs(short)?;
    Some((category, BStr::new(short)))
}

// The category of a name that begins so after `refs/`.
fn below_refs(short: &[u8]) -> Option<Category<'_>>
    ensures { MatchOption result (NoWord short.now) (λ category. HasWord category short.now) }
{
    if starts_with(short, b"notes/") {
        return Some(Category::Note);
    }
    if starts_with(short, b"bisect/") {
        return Some(Category::Bisect);
    }
    if starts_with(short, b"rewritten/") {
        return Some(Category::Rewritten);
    }
    if starts_with(short, b"worktree/") {
        return Some(Category::WorktreePrivate);
    }
    None
}

fn of_main_worktree(name: &[u8]) -> Option<(Category<'_>, BStr<'_>)>
    ensures { MatchOption result (MainNone name.now)
        (λ found. Tells name.now found.0 (bstr_bytes found.1)) }
{
    let short = strip_prefix(name, b"main-worktree/")?;
    if starts_with(short, b"refs/") {
        return Some((Category::MainRef, BStr::new(short)));
    }
    if is_capitals(short) {
        return Some((Category::MainPseudoRef, BStr::new(short)));
    }
    None
}

fn of_linked_worktree(name: &[u8]) -> Option<(Category<'_>, BStr<'_>)>
    ensures { MatchOption result (LinkedNone name.now)
        (λ found. Tells name.now found.0 (bstr_bytes found.1)) }
{
    let rest = strip_prefix(name, b"worktrees/")?;
    let (worktree, short) = split_once(rest, b'/')?;
    let worktree = BStr::new(worktree);
    if starts_with(short, b"refs/") {
        return Some((Category::LinkedRef { name: worktree }, BStr::new(short)));
    }
    if is_capitals(short) {
        return Some((
            Category::LinkedPseudoRef { name: worktree },
            BStr::new(short),
        ));
    }
    None
}
