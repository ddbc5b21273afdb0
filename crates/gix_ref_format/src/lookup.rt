//! Which names no rule completes, which are per worktree; names after a worktree's front; the keys of records.

ghost use Rattle.std.specs.Prelude.{◌≡◌, Some, option_map};
ghost use Rattle.gix_ref_format.specs.Lookup as spec;
ghost use Rattle.gix_ref_format.specs.Lookup.{packed_key, in_worktree, key_by};

use gix_object_lines::cut::split_once;
use gix_object_lines::lines::is_capitals;

/// Returns whether no rule completes the name: it begins `refs/` or with a worktree's front, or is
/// of capital letters and `_` alone.
pub fn is_complete(word: &[u8]) -> bool
    ensures { result ≡ spec.is_complete word.now }
{
    word.starts_with(b"refs/")
        || word.starts_with(b"main-worktree/")
        || word.starts_with(b"worktrees/")
        || is_capitals(word)
}

/// Returns whether each worktree has its own reference of this name.
pub fn is_per_worktree(name: &[u8]) -> bool
    ensures { result ≡ spec.is_own name.now }
{
    is_capitals(name)
        || name.starts_with(b"refs/bisect/")
        || name.starts_with(b"refs/rewritten/")
        || name.starts_with(b"refs/worktree/")
}

/// The name by which a record may be found for a full name; `None` if each worktree has its own.
pub fn key_of(name: &[u8]) -> Option<&[u8]>
    ensures { option_map (λ key. key.now) result ≡ packed_key name.now }
{
    match after_worktree_prefix(name) {
        Some(rest) => key_in_worktree(name, rest),
        None if is_per_worktree(name) => None,
        None => Some(name),
    }
}

// The same for a name after a worktree's front.
fn key_in_worktree<'a>(name: &'a [u8], rest: &'a [u8]) -> Option<&'a [u8]>
    ensures { option_map (λ key. key.now) result ≡ key_by name.now (Some rest.now) }
{
    if is_per_worktree(rest) {
        None
    } else if rest.starts_with(b"refs/") {
        Some(rest)
    } else {
        Some(name)
    }
}

// What follows the front of a worktree.
fn after_worktree_prefix(name: &[u8]) -> Option<&[u8]>
    ensures { option_map (λ rest. rest.now) result ≡ in_worktree name.now }
{
    if name.starts_with(b"main-worktree/") {
        return Some(&name[14..]);
    }
    if name.starts_with(b"worktrees/") {
        return behind_slash(&name[10..]);
    }
    None
}

/// What follows the first slash; `None` if there is none.
pub fn behind_slash(text: &[u8]) -> Option<&[u8]>
    ensures { option_map (λ rest. rest.now) result ≡ spec.behind_slash text.now }
{
    let (_, rest) = split_once(text, b'/')?;
    Some(rest)
}
