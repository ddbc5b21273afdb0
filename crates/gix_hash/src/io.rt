//! Hashing streams of bytes.

ghost use Rattle.std.specs.Prelude.{◌≡◌, ◌<◌, ◌≤◌, ◌+◌, ◌*◌, ◌++◌, ℕ, List, [], ◌∷◌, suc, Bool, true, false, replicate, length, take, ⊤, MatchResult, OnOk, OnErr, IfOk, IfErr};
ghost use Rattle.std.specs.Io.KnownBytes.{Appends, Consumes, Keeps, ReadConsumes, WriteAppends};
ghost use Rattle.std.specs.Io.{ReadsAtMost, WritesAtMost};
ghost use Rattle.gix_hash.specs.declared.kind.Kind.{Kind};
ghost use Rattle.gix_hash.specs.Id.{id_of};
ghost use Rattle.gix_hash.specs.Hasher.{id_of_message};
ghost use Rattle.gix_hash.specs.Fed.{HasFed, FedMore, IsDigestOf};
ghost use Rattle.gix_hash.specs.Pieces.{ReadsPieces, TellsPieces, StopsAfterPieces, GivesFewer, IsPieceCount, HasPiece};
ghost use Rattle.gix_hash.specs.declared.io.Error.TheVariants.{Io, Interrupted};
ghost use Rattle.gix_hash.specs.Faults.{IsInterrupted, IsIo};

use crate::hasher::{Hasher, hasher};
use crate::{Kind, ObjectId};
use std::path::AsPath;
use std::rt::Files;
use std::{fs, io};

/// Why a stream was not hashed to its end.
#[derive(Debug, Drop, thiserror::Error)]
pub enum Error {
    /// The reader failed, or ended early.
    #[error(transparent)]
    Io(io::Error),
    /// The interruption was requested.
    #[error("Interrupted")]
    Interrupted,
}

/// What the lengths of hashed pieces are reported to.
pub trait Progress {
    // A call took the progress from one state to another, and reported so many bytes to it.
    ghost told: { Self → ℕ → Self → Type 0 } = { λ _ _ _. ⊤ };

    /// So many bytes more have been hashed.
    fn inc_by(&mut self, step: usize)
        ensures { told self.old step self.new };
}

/// What decides whether to stop.
pub trait Interrupt {
    // A call took the interruption from one state to another, and returned this.
    ghost answered: { Self → Bool → Self → Type 0 } = { λ _ _ _. ⊤ };

    /// Returns whether to stop.
    fn asked(&mut self) -> bool
        ensures { answered self.old result self.new };
}

impl From<io::Error> for Error {
    ghost from_gives = { λ error r. r ≡ Io error };

    fn from(error: io::Error) -> Error {
        Error::Io(error)
    }
}

// The longest piece that is read at once.
const PIECE_LEN: usize = 65_535;

fn piece_buffer() -> [u8; 65_535] {
    [0; 65_535]
}

/// The id that is the digest of the first `num_bytes_from_start` bytes of the file at a path, with
/// the errors of `bytes_with_hasher`. Returns `Io` if the file can't be opened.
pub fn bytes_of_file<F: Files, L: AsPath, P: Progress, I: Interrupt>(
    files: &F,
    path: L,
    num_bytes_from_start: u64,
    kind: Kind,
    progress: &mut P,
    should_interrupt: &mut I,
) -> Result<ObjectId, Error>
    ensures ok { IfOk result (λ id. (k : ℕ) × (bytes : List ℕ) × IsPieceCount num_bytes_from_start k
        × (length bytes ≡ num_bytes_from_start) × (id_of id ≡ id_of_message kind bytes)
        × TellsPieces P.told I.answered progress.old progress.new should_interrupt.old
        should_interrupt.new num_bytes_from_start k (replicate k false)) }
    ensures interrupted { IfErr result
        (λ e. IsInterrupted e → (k : ℕ) × HasPiece num_bytes_from_start k
        × TellsPieces P.told I.answered progress.old progress.new should_interrupt.old
        should_interrupt.new num_bytes_from_start (suc k) (replicate k false ++ true ∷ [])) }
    ensures io { IfErr result (λ e. IsIo e → (k : ℕ) × (65535 * k ≤ num_bytes_from_start)
        × TellsPieces P.told I.answered progress.old progress.new should_interrupt.old
        should_interrupt.new num_bytes_from_start k (replicate k false)) }
{
    let mut file = fs::open(files, path)?;
    bytes(
        &mut file,
        num_bytes_from_start,
        kind,
        progress,
        should_interrupt,
    )
}

/// The id that is the digest of the reader's next `num_bytes_from_start` bytes, with the errors of
/// `bytes_with_hasher`.
pub fn bytes<R: io::Read, P: Progress, I: Interrupt>(
    read: &mut R,
    num_bytes_from_start: u64,
    kind: Kind,
    progress: &mut P,
    should_interrupt: &mut I,
) -> Result<ObjectId, Error>
    ensures ok { IfOk result (λ id. (k : ℕ) × (bytes : List ℕ) × IsPieceCount num_bytes_from_start k
        × ReadsPieces R.remaining P.told I.answered read.old read.new progress.old progress.new
        should_interrupt.old should_interrupt.new num_bytes_from_start k (replicate k false) bytes
        × (id_of id ≡ id_of_message kind bytes)) }
    ensures interrupted { IfErr result
        (λ e. IsInterrupted e → (k : ℕ) × (bytes : List ℕ) × HasPiece num_bytes_from_start k
        × ReadsPieces R.remaining P.told I.answered read.old read.new progress.old progress.new
        should_interrupt.old should_interrupt.new num_bytes_from_start (suc k)
        (replicate k false ++ true ∷ []) bytes) }
    ensures io { IfErr result (λ e. IsIo e → (k : ℕ) × (bytes : List ℕ)
        × StopsAfterPieces R.remaining P.told I.answered read.old read.new progress.old progress.new
        should_interrupt.old should_interrupt.new num_bytes_from_start k bytes) }
{
    bytes_with_hasher(
        read,
        num_bytes_from_start,
        hasher(kind),
        progress,
        should_interrupt,
    )
}

/// Returns the id that is the digest of what the hasher was fed and then the reader's next
/// `num_bytes_from_start` bytes. All together are at most 2^61 - 1 bytes, as FIPS 180-4 allows.
///
/// It reads pieces of 65,535 bytes, the last of which may be shorter. After each that it has
/// hashed, also after the last, it reports the piece's length to the progress and polls the
/// interruption. It returns `Interrupted` if the interruption says yes. It returns `Io` if the
/// reader fails or ends early: the reader then gave fewer bytes, and the piece that it stopped in
/// isn't reported.
pub fn bytes_with_hasher<R: io::Read, P: Progress, I: Interrupt>(
    read: &mut R,
    num_bytes_from_start: u64,
    mut hasher: Hasher,
    progress: &mut P,
    should_interrupt: &mut I,
) -> Result<ObjectId, Error>
    ensures ok { IfOk result (λ id. (k : ℕ) × (bytes : List ℕ) × IsPieceCount num_bytes_from_start k
        × ReadsPieces R.remaining P.told I.answered read.old read.new progress.old progress.new
        should_interrupt.old should_interrupt.new num_bytes_from_start k (replicate k false) bytes
        × IsDigestOf hasher (id_of id) bytes) }
    ensures interrupted { IfErr result
        (λ e. IsInterrupted e → (k : ℕ) × (bytes : List ℕ) × HasPiece num_bytes_from_start k
        × ReadsPieces R.remaining P.told I.answered read.old read.new progress.old progress.new
        should_interrupt.old should_interrupt.new num_bytes_from_start (suc k)
        (replicate k false ++ true ∷ []) bytes) }
    ensures io { IfErr result (λ e. IsIo e → (k : ℕ) × (bytes : List ℕ)
        × StopsAfterPieces R.remaining P.told I.answered read.old read.new progress.old progress.new
        should_interrupt.old should_interrupt.new num_bytes_from_start k bytes) }
{
    let mut buffer = piece_buffer();
    let mut bytes_left = num_bytes_from_start;
    'pieces: while bytes_left > 0 {
        let len = bytes_left.min(PIECE_LEN as u64) as usize;
        hash_piece(read, &mut buffer[..len], &mut hasher)?;
        bytes_left -= len as u64;
        progress.inc_by(len);
        if should_interrupt.asked() {
            return Err(Error::Interrupted);
        }
    }
    Ok(hasher.try_finalize())
}

// Reads a piece in full, and feeds it to the hasher.
fn hash_piece<R: io::Read>(read: &mut R, piece: &mut [u8], hasher: &mut Hasher) -> Result<(), Error>
    ensures ok { OnOk result ((bytes : List ℕ) × (length bytes ≡ length piece.old)
        × Consumes (R.remaining read.old) (R.remaining read.new) bytes
        × FedMore hasher.old hasher.new bytes) }
    ensures err { IfErr result (λ e. IsInterrupted e → ⊥) }
    ensures stopped { OnErr result
        (GivesFewer (R.remaining read.old) (R.remaining read.new) (length piece.old)) }
{
    fill(read, piece)?;
    hasher.update(piece);
    Ok(())
}

// Fills a piece from the reader, whose early end is an error.
fn fill<R: io::Read>(read: &mut R, piece: &mut [u8]) -> io::Result<()>
    ensures ok { OnOk result (Consumes (R.remaining read.old) (R.remaining read.new) piece.new) }
    ensures err { OnErr result
        (GivesFewer (R.remaining read.old) (R.remaining read.new) (length piece.old)) }
{
    let mut filled = 0;
    'reads: while filled < piece.len() {
        match read_some(read, &mut piece[filled..])? {
            0 => return Err(io::Error::from(io::ErrorKind::UnexpectedEof)),
            count => filled += count,
        }
    }
    Ok(())
}

// One read, tried again if a signal interrupted it.
fn read_some<R: io::Read>(read: &mut R, buffer: &mut [u8]) -> io::Result<usize>
    ensures bound { ReadsAtMost result buffer.new }
    ensures bytes { ReadConsumes (R.remaining read.old) (R.remaining read.new) result buffer.new }
{
    'tries: for _ in 0..u64::MAX {
        match read.read(buffer) {
            Ok(count) => return Ok(count),
            Err(error) => {
                if error.kind() != io::ErrorKind::Interrupted {
                    return Err(error);
                }
            }
        }
    }
    Err(io::Error::from(io::ErrorKind::Interrupted))
}

/// A writer that hashes what another writer accepts.
#[derive(Drop)]
pub struct Write<T> {
    /// The hasher of all bytes that `inner` accepted.
    pub hash: Hasher,
    /// The writer that the bytes go to.
    pub inner: T,
}

impl<T> Write<T> {
    /// A writer to `inner`, with a hasher of that kind that has been fed nothing.
    pub fn new(inner: T, object_hash: Kind) -> Write<T>
        ensures inner { result.inner ≡ inner }
        ensures hash { HasFed result.hash object_hash [] }
    {
        Write {
            hash: hasher(object_hash),
            inner,
        }
    }
}

// One write, tried again if a signal interrupted it.
fn write_some<T: io::Write>(writer: &mut Write<T>, buf: &[u8]) -> io::Result<usize>
    ensures bound { WritesAtMost result buf.now }
    ensures bytes { WriteAppends (T.contents writer.old.inner)
        (T.contents writer.new.inner) result buf.now }
    ensures hashed { MatchResult result
        (λ n. FedMore writer.old.hash writer.new.hash (take n buf.now))
        (λ _. writer.new.hash ≡ writer.old.hash) }
{
    'tries: for _ in 0..u64::MAX {
        match io::Write::write(writer, buf) {
            Ok(written) => return Ok(written),
            Err(error) => {
                if error.kind() != io::ErrorKind::Interrupted {
                    return Err(error);
                }
            }
        }
    }
    Err(io::Error::from(io::ErrorKind::Interrupted))
}

impl<T: io::Write> io::Write for Write<T> {
    ghost contents = { λ w. T.contents w.inner };

    fn write(&mut self, buf: &[u8]) -> io::Result<usize>
        ensures bound { WritesAtMost result buf.now }
        ensures bytes { WriteAppends (T.contents self.old.inner)
            (T.contents self.new.inner) result buf.now }
        ensures hashed { MatchResult result
            (λ n. FedMore self.old.hash self.new.hash (take n buf.now))
            (λ _. self.new.hash ≡ self.old.hash) }
    {
        let written = self.inner.write(buf)?;
        self.hash.update(&buf[..written]);
        Ok(written)
    }

    fn write_all(&mut self, buf: &[u8]) -> io::Result<()>
        ensures bytes { OnOk result
            (Appends (T.contents self.old.inner) (T.contents self.new.inner) buf.now) }
        ensures hashed { OnOk result (FedMore self.old.hash self.new.hash buf.now) }
        ensures stopped { OnErr result ((count : ℕ) × (count < length buf.now)
            × Appends (T.contents self.old.inner) (T.contents self.new.inner) (take count buf.now)
            × FedMore self.old.hash self.new.hash (take count buf.now)) }
    {
        let mut count = 0;
        'writes: while count < buf.len() {
            match write_some(self, &buf[count..])? {
                0 => return Err(io::Error::from(io::ErrorKind::WriteZero)),
                written => count += written,
            }
        }
        Ok(())
    }

    fn flush(&mut self) -> io::Result<()>
        ensures bytes { Keeps (T.contents self.old.inner) (T.contents self.new.inner) }
        ensures hash { self.new.hash ≡ self.old.hash }
    {
        self.inner.flush()
    }
}
