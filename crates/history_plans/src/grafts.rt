//! Grafts: what each finds in its source commit, a file or a folder, and whether a path would be too long.

ghost use Rattle.std.specs.Prelude.{◌≡◌, ◌∷◌, [], ◌+◌, ⊤, IsFalse, None, OnOk, Some, get_or, length, map, nat_lt, option_map};
ghost use Rattle.std.specs.FinMap.{entries, get};
ghost use Rattle.std.specs.List.{list_any};
ghost use Rattle.gix_hash.specs.Id.{id_of};
ghost use Rattle.history_repository.specs.Meant.{HasRoot, peeled_id};
ghost use Rattle.history_model.specs.Answers.{file_line};
ghost use Rattle.history_model.specs.Bytes.{Bytes};
ghost use Rattle.history_model.specs.Causes.{is_bad_path};
ghost use Rattle.history_model.specs.CommandParts.{edit_paths};
ghost use Rattle.history_model.specs.Commands.{EditLine};
ghost use Rattle.history_model.specs.FileMap.{FileMap, Graft};
ghost use Rattle.history_model.specs.Forms.{max_path};
ghost use Rattle.history_model.specs.Meaning.{files_at};
ghost use Rattle.history_model.specs.Objects.{StoredFolder, entry_at};
ghost use Rattle.history_model.specs.Repository.{HoldsCommit};
ghost use Rattle.history_model.specs.Repository as plain;
ghost use Rattle.history_files.specs.Edits.{IsSource};
ghost use Rattle.history_files.specs.Laws.{table_of};
ghost use Rattle.history_files.specs.Reading.{entry_of, line_of};
ghost use Rattle.history_files.specs.declared.found.Found.TheVariants.{Folder};
ghost use Rattle.history_word.specs.Commands.{IsEdit};
ghost use Rattle.history_repository.specs.Reads.{AreTrees, GivesMeant};
ghost use Rattle.history_repository.specs.Stands.{Stands};
ghost use Rattle.history_plans.specs.Files.{HasSource, IsFoundFor, StandsWithFolders, TellsRead, kept_edit};

use gix_hash::ObjectId;
use gix_ref_file::Files;
use history_files::{
    File, Found, ReadTrees, TreeStore, entry_at, files, read_below, read_on_paths,
};
use history_model::limits::MAX_PATH;
use history_model::{Cause, Fault};
use history_repository::{PeeledCommit, Repository, Stopped, kept, root_peeled};
use history_word::Edit;
use std::alloc::Global;

/// Returns the commit of the word of the edit at a place, if it has one.
pub(crate) fn source_at(sources: &[Option<PeeledCommit>], at: usize) -> Option<PeeledCommit>
    ensures { result ≡ get_or sources.now at None }
{
    match sources.get(at) {
        Some(source) => *source,
        None => None,
    }
}

/// Returns what is found for an edit: of a graft, what its source has in the commit of its word.
/// The errors are those of `test_graft`.
pub(crate) fn found_for<F: Files>(
    repository: &Repository<F>,
    alloc: Global,
    read: &mut ReadTrees,
    edit: &Edit,
    source: Option<PeeledCommit>,
) -> Result<Option<Found>, Stopped>
    ensures found { (r : plain.Repository) (line : EditLine)
        → Stands F.is_honest F.history repository.now r → IsEdit edit.now line
        → IsFalse (list_any is_bad_path (edit_paths line)) → HasSource r line source
        → AreTrees r read.old
        → TellsRead F.reading_may_fail (kept_edit r edit.now ∷ []) (IsFoundFor r edit.now) result }
    ensures trees { (r : plain.Repository) → Stands F.is_honest F.history repository.now r
        → AreTrees r read.old → OnOk result (AreTrees r read.new) }
{
    let Edit::Graft(graft) = edit else {
        return Ok(None);
    };
    let commit = source.ok_or(Fault::File)?;
    let found = found_in(repository, alloc, read, &commit, kept(&graft.source))?;
    test_graft(repository, alloc, read, kept(&graft.path), found)?;
    Ok(found)
}

/// Returns what a stored commit's files have at or below a source; all of them at an empty one.
fn found_in<F: Files>(
    repository: &Repository<F>,
    alloc: Global,
    read: &mut ReadTrees,
    commit: &PeeledCommit,
    source: &[u8],
) -> Result<Option<Found>, Stopped>
    ensures found { (r : plain.Repository) → Stands F.is_honest F.history repository.now r
        → HoldsCommit r (peeled_id commit.now) → HasRoot r commit.now → AreTrees r read.old
        → GivesMeant F.reading_may_fail
        (IsSource (table_of r) r.kind source.now (files_at r (peeled_id commit.now))) result }
    ensures trees { (r : plain.Repository) → Stands F.is_honest F.history repository.now r
        → AreTrees r read.old → OnOk result (AreTrees r read.new) }
{
    let root = root_peeled(repository, alloc, commit)?;
    if !source.is_empty() {
        return found_at(repository, alloc, read, &root, source);
    }
    if root.is_empty_tree() {
        return Ok(None);
    }
    Ok(Some(Found::Folder { id: root }))
}

/// Returns what is at a path below a stored tree. Only the trees on the path are read, each only if
/// it wasn't read before. It is a fault if a call of the files failed, or if no memory is left.
fn found_at<F: Files>(
    repository: &Repository<F>,
    alloc: Global,
    read: &mut ReadTrees,
    tree: &ObjectId,
    path: &[u8],
) -> Result<Option<Found>, Stopped>
    ensures found { (r : plain.Repository) (below : FileMap)
        → Stands F.is_honest F.history repository.now r
        → get r.objects (id_of tree.now) ≡ Some (StoredFolder below) → AreTrees r read.old
        → GivesMeant F.reading_may_fail
        (λ found. option_map entry_of found ≡ entry_at r.kind below path.now) result }
    ensures trees { (r : plain.Repository) → Stands F.is_honest F.history repository.now r
        → AreTrees r read.old → OnOk result (AreTrees r read.new) }
{
    let paths = Vec::from_slice(alloc, &[path])?;
    read_on_paths(alloc, &repository.objects, read, tree, paths)?;
    let store = TreeStore {
        store: &repository.objects,
        read,
    };
    Ok(entry_at(alloc, &store, tree, path)?)
}

/// Tests that a graft at a path would put each file at one within the limit: one file comes at the
/// path itself. Otherwise it is refused with `BadPath`. It is a fault if a call of the files
/// failed, or if no memory is left.
fn test_graft<F: Files>(
    repository: &Repository<F>,
    alloc: Global,
    read: &mut ReadTrees,
    path: &[u8],
    found: Option<Found>,
) -> Result<(), Stopped>
    ensures tested { (r : plain.Repository) (source : Bytes) (other : FileMap)
        → Stands F.is_honest F.history repository.now r → IsFalse (is_bad_path path.now)
        → IsSource (table_of r) r.kind source other found
        → StandsWithFolders r other → AreTrees r read.old
        → TellsRead F.reading_may_fail (Graft path.now source other ∷ []) (λ _. ⊤) result }
    ensures trees { (r : plain.Repository) → Stands F.is_honest F.history repository.now r
        → AreTrees r read.old → OnOk result (AreTrees r read.new) }
{
    match found {
        None => Ok(()),
        Some(Found::File { .. }) => Ok(()),
        Some(Found::Folder { id }) => test_grafted_folder(repository, alloc, read, path, id),
    }
}

/// Tests the same of a folder.
fn test_grafted_folder<F: Files>(
    repository: &Repository<F>,
    alloc: Global,
    read: &mut ReadTrees,
    path: &[u8],
    tree: ObjectId,
) -> Result<(), Stopped>
    ensures tested { (r : plain.Repository) (source : Bytes) (other : FileMap)
        → Stands F.is_honest F.history repository.now r → IsFalse (is_bad_path path.now)
        → IsSource (table_of r) r.kind source other (Some (Folder tree))
        → StandsWithFolders r other → AreTrees r read.old
        → TellsRead F.reading_may_fail (Graft path.now source other ∷ []) (λ _. ⊤) result }
    ensures trees { (r : plain.Repository) → Stands F.is_honest F.history repository.now r
        → AreTrees r read.old → OnOk result (AreTrees r read.new) }
{
    let files = files_in(repository, alloc, read, &tree)?;
    if have_long_below(path.len(), &files) {
        return Err(Stopped::Refused(Cause::BadPath));
    }
    Ok(())
}

/// Returns the files below a stored tree. Each different tree is read once, and only if it wasn't
/// read before. The faults are those of `found_at`.
fn files_in<F: Files>(
    repository: &Repository<F>,
    alloc: Global,
    read: &mut ReadTrees,
    tree: &ObjectId,
) -> Result<Vec<File>, Stopped>
    ensures files { (r : plain.Repository) (below : FileMap)
        → Stands F.is_honest F.history repository.now r
        → get r.objects (id_of tree.now) ≡ Some (StoredFolder below) → AreTrees r read.old
        → GivesMeant F.reading_may_fail (λ found. map line_of found.items
        ≡ map (file_line r.kind) (entries below)) result }
    ensures trees { (r : plain.Repository) → Stands F.is_honest F.history repository.now r
        → AreTrees r read.old → OnOk result (AreTrees r read.new) }
{
    read_below(alloc, &repository.objects, read, *tree)?;
    let store = TreeStore {
        store: &repository.objects,
        read,
    };
    Ok(files(alloc, &store, tree)?)
}

fn have_long_below(path: usize, files: &[File]) -> bool
    ensures { result ≡ list_any (λ file. nat_lt max_path (path + 1 + length file.path.items)) files.now }
{
    files
        .iter()
        .any(|file| is_long_below(path, file.path.len()))
}

/// Returns whether a file would come at a path over the limit, as many bytes below a path of as
/// many bytes.
fn is_long_below(path: usize, rest: usize) -> bool
    ensures { result ≡ nat_lt max_path (path + 1 + rest) }
{
    path.saturating_add(1).saturating_add(rest) > MAX_PATH
}
