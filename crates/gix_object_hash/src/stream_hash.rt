//! The ids of objects whose content is read from a stream.

ghost use Rattle.std.specs.Prelude.{◌≡◌, ◌≤◌, ◌*◌, ◌++◌, ℕ, List, [], ◌∷◌, suc, true, false, length, replicate, IfOk, IfErr};
ghost use Rattle.gix_hash.specs.Id.{id_of};
ghost use Rattle.gix_hash.specs.Hasher.{id_of_message};
ghost use Rattle.gix_hash.specs.Faults.{IsInterrupted, IsIo};
ghost use Rattle.gix_hash.specs.Pieces.{ReadsPieces, StopsAfterPieces, IsPieceCount, HasPiece};
ghost use Rattle.gix_object_lines.specs.Header.{header_text};

use gix_hash::ObjectId;
use gix_hash::hasher::hasher;
use gix_hash::io::{Error, Interrupt, Progress, bytes_with_hasher};
use gix_object_lines::{Kind, encode};
use std::io;

/// The id of an object of this kind whose content is exactly the stream's next `stream_len` bytes:
/// the digest of its header and its content, which are together at most 2^61 - 1 bytes, as FIPS
/// 180-4 allows.
///
/// It reads pieces of 65,535 bytes, the last of which may be shorter. After each it reports to the
/// progress and polls the interruption, as `gix_hash::bytes_with_hasher` does. Returns
/// `Interrupted` if that says yes, and `Io` if the stream fails or ends early.
pub fn compute_stream_hash<R: io::Read, P: Progress, I: Interrupt>(
    hash_kind: gix_hash::Kind,
    object_kind: Kind,
    stream: &mut R,
    stream_len: u64,
    progress: &mut P,
    should_interrupt: &mut I,
) -> Result<ObjectId, Error>
    ensures ok { IfOk result
        (λ id. (k : ℕ) × (content : List ℕ) × IsPieceCount stream_len k
        × (length content ≡ stream_len)
        × ReadsPieces R.remaining P.told I.answered stream.old stream.new progress.old progress.new
        should_interrupt.old should_interrupt.new stream_len k (replicate k false) content
        × (id_of id ≡ id_of_message hash_kind (header_text object_kind stream_len ++ content))) }
    ensures interrupted { IfErr result
        (λ e. IsInterrupted e → (k : ℕ) × (content : List ℕ) × HasPiece stream_len k
        × ReadsPieces R.remaining P.told I.answered stream.old stream.new progress.old progress.new
        should_interrupt.old should_interrupt.new stream_len (suc k)
        (replicate k false ++ true ∷ []) content) }
    ensures io { IfErr result (λ e. IsIo e → (k : ℕ) × (content : List ℕ)
        × StopsAfterPieces R.remaining P.told I.answered stream.old stream.new progress.old
        progress.new should_interrupt.old should_interrupt.new stream_len k content) }
{
    let header = encode::loose_header(object_kind, stream_len);
    let mut digest = hasher(hash_kind);
    digest.update(header.as_slice());
    bytes_with_hasher(stream, stream_len, digest, progress, should_interrupt)
}
