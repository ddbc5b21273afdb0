//! The real system's calls (`Disk`): files and folders read, made, written, removed, never through a link.
ghost use Rattle.std.specs.Prelude.{◌≡◌, ◌≤◌, length, IfOk, IfSome};

use crate::part::Part;
use crate::system::{Found, System};
use crate::system_errors::is_missing;
use std::alloc::Global;
use std::cell::Cell;
use std::fs::{self, Metadata, OpenFile, OpenOptions};
use std::io::{self, ErrorKind, Read, Seek, SeekFrom, Write};
use std::os::unix::fs::MetadataExt;

/// The calls of the system that a program runs on.
///
/// A link is neither a file nor a folder: a look says so, and nothing is written through it. A
/// reading follows a link to a file, and each call one at a folder above its path.
///
/// That the calls do what [`System`] says of a part of what is below a root, and that nobody else
/// changes it, is supposed: the runtime's calls promise nothing.
#[derive(Drop)]
pub struct Disk<R: fs::Files + AllocGlobal + Clone + Drop> {
    rt: R,
    // The file that was made last, until another is changed.
    made: Option<Made<R::File>>,
    // The folder that the last look saw, until it is listed or a file is opened to be read.
    seen: Cell<Option<String>>,
}

// A file that was made and is still open: so a link or a file that is put into its place meanwhile
// isn't written.
#[derive(Drop)]
struct Made<F: OpenFile + Write + Drop> {
    place: String,
    file: F,
    // How many bytes were written.
    length: u64,
}

impl<F: OpenFile + Write + Drop> Made<F> {
    // Fills a file that is empty; one that was taken away is reported, since another may be in its
    // place.
    fn fill(&mut self, bytes: &[u8]) -> io::Result<()> {
        if self.file.metadata()?.nlink() == 0 {
            return Err(io::Error::other("the file was taken away"));
        }
        self.lengthen(bytes)
    }

    // Writes after what was written before.
    fn lengthen(&mut self, bytes: &[u8]) -> io::Result<()> {
        write_behind(&mut self.file, self.length, bytes)?;
        self.length = self.length.saturating_add(bytes.len() as u64);
        Ok(())
    }
}

// Writes behind the bytes of a file of this length. If that fails, as on a full disk, nothing of it is
// left, so that a log doesn't end within a line.
fn write_behind<F: OpenFile + Write>(file: &mut F, length: u64, bytes: &[u8]) -> io::Result<()> {
    let written = file.write_all(bytes);
    if written.is_err() {
        let _ = file.set_len(length);
    }
    written
}

// Returns an error if a file has another path too, at which it would change as well.
fn refuse_other_paths(found: &Metadata) -> io::Result<()> {
    if found.nlink() == 1 {
        return Ok(());
    }
    Err(io::Error::other("the file has another path too"))
}

impl<R: fs::Files + AllocGlobal + Clone + Drop> Disk<R> {
    /// Returns the system of a runtime.
    pub fn new(rt: R) -> Self {
        Disk {
            rt,
            made: None,
            seen: Cell::new(None),
        }
    }

    fn look(&self, place: &str) -> io::Result<Found> {
        self.seen.set(None);
        let found = fs::symlink_metadata(&self.rt, place)?;
        if found.is_dir() {
            self.seen
                .set(Some(String::from_str(self.rt.alloc(), place)?));
            return Ok(Found::Folder);
        }
        if found.is_file() {
            return Ok(Found::File(found.len()));
        }
        Ok(Found::Other)
    }

    // Opens a file to read it, and returns the length that it has as it is open; `None` if nothing
    // is there, or a folder.
    fn opened(&self, place: &str) -> io::Result<Option<(R::File, u64)>> {
        self.seen.set(None);
        let file = match fs::open(&self.rt, place) {
            Err(error) if is_missing(&error) => return Ok(None),
            file => file?,
        };
        let found = file.metadata()?;
        if found.is_dir() {
            return Ok(None);
        }
        if !found.is_file() {
            return Err(io::Error::other("neither a file nor a folder"));
        }
        Ok(Some((file, found.len())))
    }

    fn bytes(&self, alloc: Global, place: &str, most: u64) -> io::Result<Option<Vec<u8>>> {
        let Some((mut file, len)) = self.opened(place)? else {
            return Ok(None);
        };
        if len > most {
            return Err(io::Error::new(ErrorKind::FileTooLarge, "File too large"));
        }
        let mut bytes = vec![in alloc; 0; len as usize]?;
        file.read_exact(&mut bytes)?;
        Ok(Some(bytes))
    }

    fn fill(&self, place: &str, at: u64, buffer: &mut [u8]) -> io::Result<Option<usize>>
        ensures fits { IfOk result (λ count. IfSome count (λ n. n ≤ length buffer.new)) }
        ensures len { length buffer.new ≡ length buffer.old }
    {
        let Some((mut file, len)) = self.opened(place)? else {
            return Ok(None);
        };
        let count = len.saturating_sub(at).min(buffer.len() as u64) as usize;
        if count > 0 && at > 0 {
            file.seek(SeekFrom::Start(at))?;
        }
        file.read_exact(&mut buffer[..count])?;
        Ok(Some(count))
    }

    fn is_link(&self, place: &str) -> bool {
        fs::symlink_metadata(&self.rt, place).is_ok_and(|found| found.is_symlink())
    }

    // Returns whether the last look saw this folder. It is forgotten.
    fn was_seen(&self, place: &str) -> bool {
        match self.seen.replace(None) {
            Some(seen) => seen.as_bytes() == place.as_bytes(),
            None => false,
        }
    }

    // The system follows a link that it opens, so what was listed is refused if a link is there. A
    // folder that was just seen isn't looked at again.
    fn names_in(&self, alloc: Global, place: &str) -> io::Result<Vec<Vec<u8>>> {
        let was_seen = self.was_seen(place);
        let names = self.names(alloc, place)?;
        if !was_seen && self.is_link(place) {
            return Err(io::Error::other("neither a file nor a folder"));
        }
        Ok(names)
    }

    fn names(&self, alloc: Global, place: &str) -> io::Result<Vec<Vec<u8>>> {
        let mut names = Vec::new(alloc);
        for entry in fs::read_dir(&self.rt, place)? {
            let entry = match entry {
                // A name that isn't UTF-8: its kind would say that there is no folder.
                Err(error) if error.kind() == ErrorKind::InvalidFilename => {
                    return Err(io::Error::other("a name in it isn't UTF-8"));
                }
                entry => entry?,
            };
            names.push(Vec::from_slice(alloc, entry.file_name().as_bytes())?)?;
        }
        Ok(names)
    }

    // Makes and opens a file if nothing is there, not even a link.
    fn make(&self, place: &str) -> io::Result<R::File> {
        let mut how = OpenOptions::new();
        how.write(true).create_new(true);
        how.open(&self.rt, place)
    }

    fn put_new(&mut self, place: &str, bytes: &[u8]) -> io::Result<()> {
        self.made = None;
        let path = String::from_str(self.rt.alloc(), place)?;
        let mut file = self.make(place)?;
        file.write_all(bytes)?;
        self.made = Some(Made {
            place: path,
            file,
            length: bytes.len() as u64,
        });
        Ok(())
    }

    // Returns the file that was made, if it has this path. Otherwise it is closed.
    fn made_at(&mut self, place: &str) -> Option<Made<R::File>> {
        match self.made.take() {
            Some(made) if made.place.as_bytes() == place.as_bytes() => Some(made),
            _ => None,
        }
    }

    // Opens a file to change it, and returns what was found there; one that is missing is made.
    fn open(&self, place: &str, how: &OpenOptions) -> io::Result<(R::File, Option<Metadata>)> {
        match fs::symlink_metadata(&self.rt, place) {
            Err(error) if error.kind() == ErrorKind::NotFound => Ok((self.make(place)?, None)),
            seen => {
                let (file, found) = self.open_seen(place, how, &seen?)?;
                Ok((file, Some(found)))
            }
        }
    }

    // Opens a file that was seen. The system would follow a link that was put into its place just now, so
    // what was opened is to be that file.
    fn open_seen(
        &self,
        place: &str,
        how: &OpenOptions,
        seen: &Metadata,
    ) -> io::Result<(R::File, Metadata)> {
        if seen.is_file() {
            let file = how.open(&self.rt, place)?;
            let opened = file.metadata()?;
            if opened.ino() == seen.ino() && opened.dev() == seen.dev() {
                return Ok((file, opened));
            }
        }
        Err(io::Error::other("not a file"))
    }

    fn put(&mut self, place: &str, bytes: &[u8]) -> io::Result<()> {
        match self.made_at(place) {
            Some(mut made) if made.length == 0 => {
                made.fill(bytes)?;
                self.made = Some(made);
                Ok(())
            }
            _ => self.rewrite(place, bytes),
        }
    }

    // Replaces what a file has, unless it has another path too.
    fn rewrite(&self, place: &str, bytes: &[u8]) -> io::Result<()> {
        let (mut file, found) = self.open(place, OpenOptions::new().write(true))?;
        if let Some(found) = found {
            refuse_other_paths(&found)?;
            if found.len() > 0 {
                file.set_len(0)?;
            }
        }
        file.write_all(bytes)
    }

    fn lengthen(&mut self, place: &str, bytes: &[u8]) -> io::Result<()> {
        if let Some(mut made) = self.made_at(place) {
            made.lengthen(bytes)?;
            self.made = Some(made);
            return Ok(());
        }
        let (mut file, found) = self.open(place, OpenOptions::new().append(true))?;
        let length = match found {
            Some(found) => found.len(),
            None => 0,
        };
        write_behind(&mut file, length, bytes)
    }

    // Takes the end of a file off, unless it has another path too.
    fn cut(&self, place: &str, length: u64) -> io::Result<()> {
        let seen = fs::symlink_metadata(&self.rt, place)?;
        let (file, found) = self.open_seen(place, OpenOptions::new().write(true), &seen)?;
        refuse_other_paths(&found)?;
        if found.len() < length {
            return Err(io::Error::new(ErrorKind::InvalidInput, "the file is shorter"));
        }
        file.set_len(length)
    }
}

impl<R: fs::Files + AllocGlobal + Clone + Drop> System for Disk<R> {
    ghost use Rattle.gix_ref_folder.specs.declared.own.Own.TheVariants.{Proof};
    ghost use Rattle.gix_ref_folder.specs.Disks.{follows, history_on, IsHonestOn};

    ghost history = { λ disk root part. history_on disk root part };

    ghost is_honest = { λ disk root part. IsHonestOn disk root part };

    fn kind(&self, place: &str) -> io::Result<Found> {
        self.look(place)
    }

    fn read(&self, alloc: Global, place: &str, most: u64) -> io::Result<Option<Vec<u8>>> {
        self.bytes(alloc, place, most)
    }

    fn read_at(&self, place: &str, at: u64, buffer: &mut [u8]) -> io::Result<Option<usize>> {
        self.fill(place, at, buffer)
    }

    fn list(&self, alloc: Global, place: &str) -> io::Result<Vec<Vec<u8>>> {
        self.names_in(alloc, place)
    }

    fn list_root(&self, alloc: Global, place: &str) -> io::Result<Vec<Vec<u8>>> {
        self.names(alloc, place)
    }

    fn create_new(&mut self, place: &str, bytes: &[u8]) -> io::Result<()> {
        self.put_new(place, bytes)
    }

    fn write(&mut self, place: &str, bytes: &[u8]) -> io::Result<()> {
        self.put(place, bytes)
    }

    fn append(&mut self, place: &str, bytes: &[u8]) -> io::Result<()> {
        self.lengthen(place, bytes)
    }

    fn shorten(&mut self, place: &str, length: u64) -> io::Result<()> {
        self.made = None;
        self.cut(place, length)
    }

    fn rename(&mut self, from: &str, to: &str) -> io::Result<()> {
        self.made = None;
        fs::rename(&self.rt, from, to)
    }

    fn remove_file(&mut self, place: &str) -> io::Result<()> {
        self.made = None;
        fs::remove_file(&self.rt, place)
    }

    fn make_folder(&mut self, place: &str) -> io::Result<()> {
        self.made = None;
        fs::create_dir(&self.rt, place)
    }

    fn remove_folder(&mut self, place: &str) -> io::Result<()> {
        self.made = None;
        fs::remove_dir(&self.rt, place)
    }

    ghost shown = { λ disk root part honest. follows disk root part _ Proof honest };
}
