//! Files that are made anew.
ghost use Rattle.std.specs.Prelude.{◌≡◌, ◌≤◌, OnOk, IsErrOf, IsTrue};
ghost use Rattle.gix_ref_file.specs.Calls.{Achieves, Passes};
ghost use Rattle.gix_ref_file.specs.Changes.{to_write, allows, after, may_hold_file};
ghost use Rattle.gix_ref_file.specs.History.{HasRisen};
ghost use Rattle.gix_ref_file.specs.declared.files.FileError.TheVariants.{Failed, Memory};
ghost use Rattle.gix_ref_way.specs.Ways.{ChangesOneFile};

use gix_ref_file::{FileError, Files};
use std::alloc::Global;

/// Makes a file of these bytes, in the place of a file that exists there. That file is removed and
/// never written through, so what a link leads to stays as it is. Returns `Failed` if no file may
/// exist there, if something comes there meanwhile, or if a call of the files failed, and `Memory`
/// if no memory is left.
pub fn write_anew<F: Files>(
    alloc: Global,
    files: &mut F,
    path: &[u8],
    bytes: &[u8],
) -> Result<(), FileError>
    ensures honest { F.is_honest files.old → F.is_honest files.new }
    ensures allowed { Achieves F.is_honest F.history files.old files.new result
        (λ old new. IsTrue (allows old (to_write path.now bytes.now))) }
    ensures made { Achieves F.is_honest F.history files.old files.new result
        (λ old new. new ≡ after (to_write path.now bytes.now) old) }
    ensures moments { Passes F.is_honest F.history files.old files.new (ChangesOneFile path.now) }
    ensures later { F.failures files.old ≤ F.failures files.new }
    ensures unfailed { OnOk result (F.failures files.new ≡ F.failures files.old) }
    ensures memory { IsErrOf result Memory → F.failures files.new ≡ F.failures files.old }
    ensures failed { F.is_honest files.old
        → IsTrue (may_hold_file (F.history files.old).tree path.now)
        → IsErrOf result Failed → HasRisen (F.failures files.old) (F.failures files.new) }
{
    if files.create_new(alloc, path, bytes)? {
        return Ok(());
    }
    files.remove_file(alloc, path)?;
    if files.create_new(alloc, path, bytes)? {
        return Ok(());
    }
    Err(FileError::Failed)
}
