//! A repository over two file trees (`Repository`): its parts, the rows of its commits, whether it has failed.

ghost use Rattle.std.specs.Prelude.{◌≡◌, option_map};
ghost use Rattle.history_repository.specs.Face.{objects_part, names_part, has_failed, rows_in};

use gix_ref_file::Files;
use gix_traverse_graph::Graph;
use history_store::{Names, Objects};

/// A repository over two file trees: one holds the objects, the other HEAD, the names and their
/// logs.
#[derive(Drop)]
pub struct Repository<F: Files> {
    pub objects: Objects<F>,
    pub names: Names<F>,
    /// The name that HEAD holds.
    pub branch: Vec<u8>,
    /// The rows that the last `ok index` counted.
    pub rows: Option<Graph>,
    pub has_failed: bool,
}

impl<F: Files> Repository<F> {
    /// Returns the objects part and the names part, with their files as they are.
    pub fn into_parts(self) -> (F, F)
        ensures objects { result.0 ≡ objects_part self }
        ensures names { result.1 ≡ names_part self }
    {
        (self.objects.into_files(), self.names.into_files())
    }

    /// Returns the rows of the commits that the last `ok index` counted; `None` before the first.
    /// It takes no memory.
    pub fn rows(&self) -> Option<&Graph>
        ensures { option_map (λ rows. rows.now) result ≡ rows_in self.now }
    {
        self.rows.as_ref()
    }

    /// Returns whether a command that changes files met a fault. The files then hold what a stop
    /// may leave, and `run` acts on no further command: the parts are to be recovered and opened
    /// again.
    pub fn has_failed(&self) -> bool
        ensures { result ≡ has_failed self.now }
    {
        self.has_failed
    }
}
