//! A system and a folder in memory, which are honest.
ghost use Rattle.std.specs.Prelude.{◌≡◌, string_bytes, IfOk};
ghost use Rattle.gix_ref_file.specs.Past.{start};
ghost use Rattle.gix_ref_folder.specs.Folders.{root_of, part_of};
ghost use Rattle.gix_ref_folder.specs.declared.part.Part.{Part};

use crate::over_files::OverFiles;
use gix_ref_file::{Files, MemoryFiles};
use gix_ref_folder::{Folder, Part, System};
use std::alloc::{AllocError, Global};

/// Returns a system in memory with an empty folder at this root.
pub fn system_in_memory(alloc: Global, root: String) -> OverFiles<MemoryFiles>
    ensures honest { (part : Part)
        → ⟦<OverFiles<MemoryFiles> as System>⟧.is_honest result (string_bytes root) part }
    ensures empty { (part : Part)
        → ⟦<OverFiles<MemoryFiles> as System>⟧.history result (string_bytes root) part ≡ start }
{
    let objects = MemoryFiles::new(alloc);
    let names = MemoryFiles::new(alloc);
    OverFiles::new(alloc, root, objects, names)
}

/// Returns a part of an empty folder at this root, over a system in memory. It does what [`Files`]
/// says, with no premise.
pub fn folder_in_memory(
    alloc: Global,
    root: &str,
    part: Part,
) -> Result<Folder<OverFiles<MemoryFiles>>, AllocError>
    ensures honest { IfOk result (λ folder.
        ⟦<Folder<OverFiles<MemoryFiles>> as Files>⟧.is_honest folder) }
    ensures empty { IfOk result (λ folder.
        ⟦<Folder<OverFiles<MemoryFiles>> as Files>⟧.history folder ≡ start) }
    ensures root { IfOk result (λ folder. string_bytes (root_of folder) ≡ root.now) }
    ensures part { IfOk result (λ folder. part_of folder ≡ part) }
{
    let own = String::from_str(alloc, root)?;
    let system = system_in_memory(alloc, own);
    let shown = String::from_str(alloc, root)?;
    Ok(Folder::new(alloc, system, shown, part))
}
