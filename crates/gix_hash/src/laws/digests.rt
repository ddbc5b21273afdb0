//! Laws of digests and of pieces of streams, each the contract of a function.
//!
//! The function makes the calls that its law names, if any.

ghost use Rattle.std.specs.Prelude.{◌≡◌, sum};
ghost use Rattle.std.specs.List.{flat_map};
ghost use Rattle.gix_hash.specs.Id.{id_of};
ghost use Rattle.gix_hash.specs.Hasher.{id_of_message};
ghost use Rattle.gix_hash.specs.Pieces.{piece_lengths, bytes_in_pieces, IsPieceCount};

use crate::hasher::hasher;
use crate::{Kind, ObjectId};

/// Bytes fed in any pieces give the digest of them all, one after another.
pub fn digest_of_pieces(kind: Kind, pieces: &[&[u8]]) -> ObjectId
    ensures { id_of result ≡ id_of_message kind (flat_map (λ piece. piece.now) pieces.now) }
{
    let mut hasher = hasher(kind);
    'pieces: for piece in pieces {
        hasher.update(piece);
    }
    hasher.try_finalize()
}

/// The lengths of k pieces that are reported to a progress add up to the bytes of these pieces, and
/// so to all bytes if the pieces are all.
pub fn told_amounts_add_up(num_bytes: u64, pieces: u64)
    ensures pieces { sum (piece_lengths num_bytes pieces) ≡ bytes_in_pieces num_bytes pieces }
    ensures all { IsPieceCount num_bytes pieces → sum (piece_lengths num_bytes pieces) ≡ num_bytes }
{}
